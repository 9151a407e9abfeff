//! Punctuators (C11 6.4.6).
ghost use Rattle.std.specs.Prelude.{◌≡◌, ◌<◌, [], ◌∷◌, ◌++◌, length, slice_index, None};
ghost use Rattle.std.specs.Option.{option_map};
ghost use Rattle.cpc_base.specs.declared.stop.Dialect.{Dialect};
ghost use Rattle.cpc_tree.specs.declared.token.Punctuator.TheVariants as P;
ghost use Rattle.cpc_tree.specs.Tokens.{punctuator_spelling, punctuator_of};
ghost use Rattle.cpc_tree.specs.Pieces.{Sign, first_state, comment_begun};
ghost use Rattle.cpc_lexer.specs.Fronts.{IsFront, IsDoubled};

use crate::fault::STRAY_BYTE;
use crate::front::Front;
use cpc_tree::token::{Punctuator, TokenKind};

/// The longest punctuator at the front of a text.
pub(crate) fn mark(text: &[u8]) -> (Front, usize)
    requires some { 0 < length text.now }
    requires mark { first_state (slice_index text.now 0) ≡ option_map Sign (punctuator_of (slice_index text.now 0 ∷ [])) }
    requires no_comment { slice_index text.now 0 ≡ 47 → 1 < length text.now → comment_begun P.Slash (slice_index text.now 1) ≡ None }
    ensures { (dialect : Dialect) → IsFront dialect text.now result.0 result.1 }
{
    let Some(first) = one_byte(text[0]) else {
        return (Front::Fault(STRAY_BYTE), 1);
    };
    let mut mark = first;
    let mut n = 1;
    while n < text.len() {
        let Some(longer) = longer(mark, text[n]) else {
            break;
        };
        mark = longer;
        n += 1;
    }
    (Front::Token(TokenKind::Punctuator(mark)), n)
}

/// The punctuator of one byte.
#[tactic(auto, using(crate::proofs::Marks::one_byte_marks))]
fn one_byte(b: u8) -> Option<Punctuator>
    ensures { result ≡ punctuator_of (b ∷ []) }
{
    match b {
        b'(' => Some(Punctuator::LeftParen),
        b')' => Some(Punctuator::RightParen),
        b'{' => Some(Punctuator::LeftBrace),
        b'}' => Some(Punctuator::RightBrace),
        b'[' => Some(Punctuator::LeftBracket),
        b']' => Some(Punctuator::RightBracket),
        b';' => Some(Punctuator::Semicolon),
        b',' => Some(Punctuator::Comma),
        b':' => Some(Punctuator::Colon),
        b'?' => Some(Punctuator::Question),
        b'.' => Some(Punctuator::Dot),
        b'+' => Some(Punctuator::Plus),
        b'-' => Some(Punctuator::Minus),
        b'*' => Some(Punctuator::Star),
        b'/' => Some(Punctuator::Slash),
        b'%' => Some(Punctuator::Percent),
        b'&' => Some(Punctuator::Ampersand),
        b'|' => Some(Punctuator::Bar),
        b'^' => Some(Punctuator::Caret),
        b'~' => Some(Punctuator::Tilde),
        b'!' => Some(Punctuator::Exclamation),
        b'<' => Some(Punctuator::Less),
        b'>' => Some(Punctuator::Greater),
        b'=' => Some(Punctuator::Equal),
        _ => None,
    }
}

/// The punctuator that is spelled as this one with a byte behind it.
fn longer(mark: Punctuator, b: u8) -> Option<Punctuator>
    ensures { result ≡ punctuator_of (punctuator_spelling mark ++ b ∷ []) }
{
    match b {
        b'=' => with_equal(mark),
        b'>' => with_greater(mark),
        b'+' | b'-' | b'&' | b'|' | b'<' => twice(mark, b),
        _ => None,
    }
}

/// The punctuator that is spelled as this one with a `>` behind it.
#[tactic(auto, using(crate::proofs::Marks::greater_is))]
fn with_greater(mark: Punctuator) -> Option<Punctuator>
    ensures { result ≡ punctuator_of (punctuator_spelling mark ++ 62 ∷ []) }
{
    match mark {
        Punctuator::Minus => Some(Punctuator::Arrow),
        Punctuator::Greater => Some(Punctuator::ShiftRight),
        _ => None,
    }
}

/// The punctuator of two bytes `+`, `-`, `&`, `|` or `<`.
#[tactic(auto, using(crate::proofs::Marks::twice_is))]
fn twice(mark: Punctuator, b: u8) -> Option<Punctuator>
    requires { IsDoubled b }
    ensures { result ≡ punctuator_of (punctuator_spelling mark ++ b ∷ []) }
{
    match mark {
        Punctuator::Plus if b == b'+' => Some(Punctuator::Increment),
        Punctuator::Minus if b == b'-' => Some(Punctuator::Decrement),
        Punctuator::Ampersand if b == b'&' => Some(Punctuator::AndAnd),
        Punctuator::Bar if b == b'|' => Some(Punctuator::OrOr),
        Punctuator::Less if b == b'<' => Some(Punctuator::ShiftLeft),
        _ => None,
    }
}

/// The punctuator that is spelled as this one with a `=` behind it.
#[tactic(auto, using(crate::proofs::Marks::equal_is))]
fn with_equal(mark: Punctuator) -> Option<Punctuator>
    ensures { result ≡ punctuator_of (punctuator_spelling mark ++ 61 ∷ []) }
{
    match mark {
        Punctuator::Less => Some(Punctuator::LessEqual),
        Punctuator::Greater => Some(Punctuator::GreaterEqual),
        Punctuator::Equal => Some(Punctuator::EqualEqual),
        Punctuator::Exclamation => Some(Punctuator::NotEqual),
        Punctuator::Plus => Some(Punctuator::PlusEqual),
        Punctuator::Minus => Some(Punctuator::MinusEqual),
        Punctuator::Star => Some(Punctuator::StarEqual),
        Punctuator::Slash => Some(Punctuator::SlashEqual),
        Punctuator::Percent => Some(Punctuator::PercentEqual),
        Punctuator::Ampersand => Some(Punctuator::AmpersandEqual),
        Punctuator::Bar => Some(Punctuator::BarEqual),
        Punctuator::Caret => Some(Punctuator::CaretEqual),
        Punctuator::ShiftLeft => Some(Punctuator::ShiftLeftEqual),
        Punctuator::ShiftRight => Some(Punctuator::ShiftRightEqual),
        _ => None,
    }
}
