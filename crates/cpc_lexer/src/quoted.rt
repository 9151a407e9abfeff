//! Characters and strings (C11 6.4.4.4, 6.4.5).
ghost use Rattle.std.specs.Prelude.{◌≡◌, ◌<◌, ◌++◌, [], ◌∷◌, length, slice_index, IfOk};
ghost use Rattle.cpc_base.specs.declared.stop.Dialect.{Dialect};
ghost use Rattle.cpc_tree.specs.Erase.{in_table};
ghost use Rattle.cpc_tree.specs.Tokens.{lexeme_of};
ghost use Rattle.cpc_base.specs.Bytes.{Text};
ghost use Rattle.cpc_tree.specs.Pieces.{quote_byte, is_plain, simple_escape, closed, next_byte, next_quoted, octal_state, hex_state};
ghost use Rattle.cpc_tree.specs.Pieces as S;
ghost use Rattle.cpc_lexer.specs.Fronts.{IsFront, quote_of, escape_of, IsInRange, literal_of, step_state, HoldsOne, IsSound, IsNameless};

use crate::byte::digit_of;
use crate::fault::{MALFORMED, UNCLOSED};
use crate::front::Front;
use cpc_base::NoMemory;
use cpc_num::{Kind, convert};
use cpc_tree::token::TokenKind;
use std::alloc::Global;

/// What encloses a character, and what a string.
#[derive(Clone, Copy)]
pub(crate) enum Quote {
    Single,
    Double,
}

/// How far an escape is written; an octal or hexadecimal one with its value so far.
#[derive(Clone, Copy)]
enum Escape {
    None,
    Backslash,
    OneOctal(u8),
    TwoOctal(u8),
    HexNone,
    Hex(u8),
}

/// What a literal is behind one more byte.
enum Step {
    Open(Escape),
    Closed,
    Wrong,
}

/// A character or a string, from its first quote on.
pub(crate) fn quoted(alloc: Global, text: &[u8], quote: Quote) -> Result<(Front, usize), NoMemory>
    requires some { 0 < length text.now }
    requires begun { slice_index text.now 0 ≡ quote_byte (quote_of quote) }
    ensures { IfOk result (λ r. (dialect : Dialect) → IsFront dialect text.now r.0 r.1) }
{
    let mut held = Vec::new(alloc);
    let mut escape = Escape::None;
    let mut n = 1;
    while n < text.len() && text[n] != b'\n' {
        match take_byte(&mut held, quote, escape, text[n])? {
            Step::Open(open) => escape = open,
            Step::Closed => return Ok((Front::Token(literal(quote, held)), n + 1)),
            Step::Wrong => return Ok((Front::Fault(MALFORMED), n + 1)),
        }
        n += 1;
    }
    Ok((Front::Fault(UNCLOSED), n))
}

/// The literal that holds the bytes; the value of a character is that of its byte as a `char`.
fn literal(quote: Quote, held: Vec<u8>) -> TokenKind
    requires { HoldsOne (quote_of quote) held.items }
    ensures value { lexeme_of (in_table []) result ≡ literal_of (quote_of quote) held.items }
    ensures nameless { IsNameless result }
{
    match quote {
        Quote::Single => TokenKind::Character(convert(Kind::Char, i128::from(held[0]))),
        Quote::Double => TokenKind::Text(held),
    }
}

/// Takes one more byte of a literal that is not closed.
#[tactic(auto, unfolding(cpc_tree::specs::Pieces::next_quoted))]
fn take_byte(held: &mut Vec<u8>, quote: Quote, escape: Escape, b: u8) -> Result<Step, NoMemory>
    requires { IsInRange escape }
    ensures state { IfOk result (λ step. next_quoted (quote_of quote) held.old.items (escape_of escape) b ≡ step_state (quote_of quote) held.new.items step) }
    ensures sound { IfOk result (λ step. IsSound step (quote_of quote) held.new.items) }
{
    match escape {
        Escape::None => take_whole(held, quote, b),
        Escape::Backslash => take_escaped(held, b),
        Escape::OneOctal(n) => match digit_of(8, b) {
            Some(digit) => Ok(Step::Open(Escape::TwoOctal(8 * n + digit))),
            None => end_escape(held, quote, n, b),
        },
        Escape::TwoOctal(n) => match digit_of(8, b) {
            Some(digit) => octal_value(held, 8 * u16::from(n) + u16::from(digit)),
            None => end_escape(held, quote, n, b),
        },
        Escape::HexNone => match digit_of(16, b) {
            Some(digit) => Ok(Step::Open(Escape::Hex(digit))),
            None => Ok(Step::Wrong),
        },
        Escape::Hex(n) => match digit_of(16, b) {
            Some(digit) => Ok(hex_value(16 * u16::from(n) + u16::from(digit))),
            None => end_escape(held, quote, n, b),
        },
    }
}

/// Takes a byte behind the last digit of an escape.
fn end_escape(held: &mut Vec<u8>, quote: Quote, byte: u8, b: u8) -> Result<Step, NoMemory>
    ensures state { IfOk result (λ step. next_byte (quote_of quote) (held.old.items ++ byte ∷ []) b ≡ step_state (quote_of quote) held.new.items step) }
    ensures sound { IfOk result (λ step. IsSound step (quote_of quote) held.new.items) }
{
    held.push(byte)?;
    take_whole(held, quote, b)
}

/// Takes a byte where no escape is open.
#[tactic(auto, unfolding(cpc_tree::specs::Pieces::next_byte))]
fn take_whole(held: &mut Vec<u8>, quote: Quote, b: u8) -> Result<Step, NoMemory>
    ensures state { IfOk result (λ step. next_byte (quote_of quote) held.old.items b ≡ step_state (quote_of quote) held.new.items step) }
    ensures sound { IfOk result (λ step. IsSound step (quote_of quote) held.new.items) }
{
    if b == quote_byte(quote) {
        return Ok(closed(held, quote));
    }
    if quote == Quote::Single && !held.is_empty() {
        return Ok(Step::Wrong);
    }
    if b == b'\\' {
        return Ok(Step::Open(Escape::Backslash));
    }
    if !is_plain(quote, b) {
        return Ok(Step::Wrong);
    }
    held.push(b)?;
    Ok(Step::Open(Escape::None))
}

fn quote_byte(quote: Quote) -> u8
    ensures { result ≡ quote_byte (quote_of quote) }
{
    match quote {
        Quote::Single => b'\'',
        Quote::Double => b'"',
    }
}

/// A character holds one byte.
fn closed(held: &[u8], quote: Quote) -> Step
    ensures state { closed (quote_of quote) held.now ≡ step_state (quote_of quote) held.now result }
    ensures sound { IsSound result (quote_of quote) held.now }
{
    if quote == Quote::Single && held.len() != 1 {
        Step::Wrong
    } else {
        Step::Closed
    }
}

/// Whether a byte stands for itself.
#[tactic(auto, unfolding(cpc_tree::specs::Pieces::is_plain))]
fn is_plain(quote: Quote, b: u8) -> bool
    ensures { result ≡ is_plain (quote_of quote) b }
{
    match quote {
        Quote::Single => 32 <= b && b < 127,
        Quote::Double => 32 <= b && b != 127,
    }
}

/// Takes the byte behind a backslash.
#[tactic(auto, unfolding(cpc_tree::specs::Pieces::next_quoted))]
fn take_escaped(held: &mut Vec<u8>, b: u8) -> Result<Step, NoMemory>
    ensures state { (quote : S.Quote) → IfOk result (λ step. next_quoted quote held.old.items S.Backslash b ≡ step_state quote held.new.items step) }
    ensures sound { (quote : S.Quote) → IfOk result (λ step. IsSound step quote held.new.items) }
{
    if let Some(digit) = digit_of(8, b) {
        return Ok(Step::Open(Escape::OneOctal(digit)));
    }
    if b == b'x' {
        return Ok(Step::Open(Escape::HexNone));
    }
    match simple_escape(b) {
        Some(byte) => {
            held.push(byte)?;
            Ok(Step::Open(Escape::None))
        }
        None => Ok(Step::Wrong),
    }
}

/// The byte that an escape of one letter or mark stands for.
#[tactic(auto, unfolding(cpc_tree::specs::Pieces::simple_escape))]
fn simple_escape(b: u8) -> Option<u8>
    ensures { result ≡ simple_escape b }
{
    match b {
        b'a' => Some(7),
        b'b' => Some(8),
        b't' => Some(9),
        b'n' => Some(10),
        b'v' => Some(11),
        b'f' => Some(12),
        b'r' => Some(13),
        b'\\' | b'\'' | b'"' | b'?' => Some(b),
        _ => None,
    }
}

/// Ends an octal escape: a value above 255 is no byte.
fn octal_value(held: &mut Vec<u8>, value: u16) -> Result<Step, NoMemory>
    ensures state { (quote : S.Quote) → IfOk result (λ step. octal_state quote held.old.items value ≡ step_state quote held.new.items step) }
    ensures sound { (quote : S.Quote) → IfOk result (λ step. IsSound step quote held.new.items) }
{
    if value > 255 {
        return Ok(Step::Wrong);
    }
    held.push(value as u8)?;
    Ok(Step::Open(Escape::None))
}

/// Goes on with a hexadecimal escape.
fn hex_value(value: u16) -> Step
    ensures state { (quote : S.Quote) (held : Text) → hex_state quote held value ≡ step_state quote held result }
    ensures sound { (quote : S.Quote) (held : Text) → IsSound result quote held }
{
    if value > 255 {
        Step::Wrong
    } else {
        Step::Open(Escape::Hex(value as u8))
    }
}
