//! Which bytes go on a token (C11 6.4, paragraph 4: a token is the longest sequence of bytes that could be one).
ghost use Rattle.std.specs.Prelude.{◌≡◌};
ghost use Rattle.cpc_base.specs.declared.stop.Dialect.{Dialect};
ghost use Rattle.cpc_tree.specs.Erase.{Names};
ghost use Rattle.cpc_tree.specs.Tokens.{punctuator_spelling};
ghost use Rattle.cpc_tree.specs.Spelling.{IsSpellable, spelling, joins};
ghost use Rattle.cpc_printer_layout.specs.Sheets.{lexeme_of};

use crate::sheet::Lexeme;
use cpc_tree::token::{Punctuator, is_in_word};

/// Whether the byte goes on the token, so that a blank must stand between them.
#[tactic(auto, using(crate::proofs::SpelledJoins::joins_lexeme))]
pub(crate) fn joins(lexeme: &Lexeme, b: u8) -> bool
    ensures { (names : Names) (dialect : Dialect) → IsSpellable dialect (lexeme_of names lexeme.now) → joins (spelling (lexeme_of names lexeme.now)) b ≡ result }
{
    match lexeme {
        Lexeme::Keyword(_) | Lexeme::Name(_) | Lexeme::Filler | Lexeme::Integer(..) => is_in_word(
            b,
        ),
        Lexeme::Punctuator(mark) => joins_mark(*mark, b),
        Lexeme::Character(_) => false,
        Lexeme::Text(_) => false,
    }
}

/// Whether the byte goes on the punctuator: the two begin a longer one, or a comment.
#[tactic(auto, using(crate::proofs::NextBytes::joins_mark))]
fn joins_mark(mark: Punctuator, b: u8) -> bool
    ensures { result ≡ joins (punctuator_spelling mark) b }
{
    match mark {
        Punctuator::Plus => b == b'+' || b == b'=',
        Punctuator::Minus => b == b'-' || b == b'=' || b == b'>',
        Punctuator::Slash => b == b'*' || b == b'/' || b == b'=',
        Punctuator::Ampersand => b == b'&' || b == b'=',
        Punctuator::Bar => b == b'|' || b == b'=',
        Punctuator::Less => b == b'<' || b == b'=',
        Punctuator::Greater => b == b'>' || b == b'=',
        Punctuator::Star
        | Punctuator::Percent
        | Punctuator::Caret
        | Punctuator::Exclamation
        | Punctuator::Equal
        | Punctuator::ShiftLeft
        | Punctuator::ShiftRight => b == b'=',
        _ => false,
    }
}
