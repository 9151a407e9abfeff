//! A small language, read exactly, with texts whose answers its grammar wants.
ghost use Rattle.std.specs.Prelude.{◌≡◌, ℕ, List, [], ◌∷◌};
ghost use Rattle.cpc_parser_reading.specs.Answers.{Answers, whole};
ghost use Rattle.cpc_parser_reading.specs.SmallExpressions.{Token, Kind, kind_of, named, call, an_expr, no_expr, name, opening, closing, plus, equals, semicolon, brace, unbrace, colon, when, otherwise};
ghost use Rattle.cpc_parser_reading.specs.Lists.{Many};
ghost use Rattle.cpc_parser_reading.specs.Reading.{Read, Fault, Deep};
ghost use Rattle.cpc_parser_reading.specs.SmallStatements.{Stm, IsStm, starts_stm, program, tokens, assign, perform, label, choice, both, block, no_stm};

use cpc_parser_reading::{Grammar, answers};

// The grammar of programs of the small language: what a grammar states can be met together.
struct Small;

impl Grammar for Small {
    ghost use Rattle.std.specs.Prelude.{false, true};
    ghost use Rattle.cpc_parser_reading.specs.SmallExpressions as E;
    ghost use Rattle.cpc_parser_reading.specs.SmallStatements.{dangles, is_otherwise};
    ghost use Rattle.cpc_parser_reading.proofs.Lists.{Over};
    ghost use Rattle.cpc_parser_reading.proofs.SmallStatements.{exact_program};

    ghost Token = { E.Token };

    ghost Kind = { E.Kind };

    ghost Tree = { List Stm };

    ghost kind = { kind_of };

    ghost reads = { Many IsStm };

    // Behind a program stands no further statement, and no else where its last if has none.
    ghost follow = { Over starts_stm (λ s k. dangles s ≡ true → is_otherwise k ≡ false) };

    ghost least = { 0 };

    ghost reader = { program };

    ghost exact = { exact_program };
}

// The small language is read exactly.
fn small_language()
    ensures { (d : ℕ) (ts : List Token) → Answers kind_of (Many IsStm) d ts (whole (program d ts)) }
{}

// Texts of the small language, with the answers that its grammar wants.
fn worked()
    // x = f(y);
    ensures call { whole (program 9 (tokens (name 1 ∷ equals ∷ name 2 ∷ opening ∷ name 3 ∷ closing ∷ semicolon ∷ []))) ≡ Read (assign (named 1) (call (named 2) (an_expr (named 3) no_expr)) ∷ [], 3, []) }
    // f(y); is a statement, and has no expression but f and y
    ensures perform { whole (program 2 (tokens (name 2 ∷ opening ∷ name 3 ∷ closing ∷ semicolon ∷ []))) ≡ Read (perform (named 2) (an_expr (named 3) no_expr) ∷ [], 2, []) }
    // (f(y)); is none
    ensures round { whole (program 9 (tokens (opening ∷ name 2 ∷ opening ∷ name 3 ∷ closing ∷ closing ∷ semicolon ∷ []))) ≡ Fault (tokens (semicolon ∷ [])) }
    // x + y; stops being one at the operator
    ensures operator { whole (program 9 (tokens (name 1 ∷ plus ∷ name 2 ∷ semicolon ∷ []))) ≡ Fault (tokens (plus ∷ name 2 ∷ semicolon ∷ [])) }
    // x: y = (z); with one room too few for the parentheses
    ensures deep { whole (program 3 (tokens (name 1 ∷ colon ∷ name 2 ∷ equals ∷ opening ∷ name 3 ∷ closing ∷ semicolon ∷ []))) ≡ Deep (tokens (opening ∷ name 3 ∷ closing ∷ semicolon ∷ [])) }
    // x = y at the end
    ensures end { whole (program 9 (tokens (name 1 ∷ equals ∷ name 2 ∷ []))) ≡ Fault [] }
    // if (x) if (y) { } else { }: the else belongs to the nearest if
    ensures nearest { whole (program 9 (tokens (when ∷ opening ∷ name 1 ∷ closing ∷ when ∷ opening ∷ name 2 ∷ closing ∷ brace ∷ unbrace ∷ otherwise ∷ brace ∷ unbrace ∷ []))) ≡ Read (choice (named 1) (both (named 2) (block no_stm) (block no_stm)) ∷ [], 3, []) }
{}

#[test]
fn the_small_language_has_answers() {
    answers::<Small>();
    small_language();
    worked();
}
