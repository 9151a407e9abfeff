//! Exact reading, over tokens of any type.
//!
//! A reader goes through a list of tokens with some room for nesting. It is exact if it reads what the grammar has
//! within the room, all of it, and if a refusal stands at the first token that goes too far. The combinators of
//! `specs/` make readers of readers, and the lemmas of `proofs/` say that they stay exact (`proofs/Readers.antt`).
#![tactic(auto)]

ghost use Rattle.std.specs.Prelude.{ℕ, ◌≤◌, ◌≡◌, List, []};
ghost use Rattle.cpc_parser_reading.specs.Answers.{Answers, whole};
ghost use Rattle.cpc_parser_reading.specs.Exact.{Exact};
ghost use Rattle.cpc_parser_reading.specs.Reading.{Reading, Read};

/// A grammar over tokens, with readers that are exact.
pub trait Grammar {
    // What is read, what of it matters, and what it is read as.
    ghost Token: { Type 0 };

    ghost Kind: { Type 0 };

    ghost Tree: { Type 0 };

    ghost kind: { Token → Kind };

    // The tokens are the tree, with the nesting.
    ghost reads: { List Token → Tree → ℕ → Type 0 };

    // What may stand behind a tree where more follows.
    ghost follow: { Tree → Kind → Type 0 };

    // The least nesting of all trees.
    ghost least: { ℕ };

    // The reader with each room.
    ghost reader: { ℕ → List Token → Reading Token Tree };

    ghost exact: { (n : ℕ) → Exact kind n least reader reads follow };
}

/// The laws of exact reading: what a reader answers to a whole list of tokens, within a nesting `d`.
pub fn answers<G: Grammar>()
    // The tree is in the grammar within the nesting, or the refusal stands at the first token that goes too far.
    ensures within { (d : ℕ) (tokens : List G.Token) → G.least ≤ d → Answers G.kind G.reads d tokens (whole (G.reader d tokens)) }
    // What is in the grammar within the nesting is read.
    ensures complete { (d : ℕ) (tokens : List G.Token) (v : G.Tree) (h : ℕ) → G.reads tokens v h → h ≤ d → whole (G.reader d tokens) ≡ Read (v, h, []) }
    // No other answer is one.
    ensures once { (d : ℕ) (tokens : List G.Token) (r : Reading G.Token G.Tree) → G.least ≤ d → Answers G.kind G.reads d tokens r → r ≡ whole (G.reader d tokens) }
{}
