//! Integers (C11 6.4.4.1).
ghost use Rattle.std.specs.Prelude.{◌≡◌, ◌<◌, ◌≤◌, ◌+◌, ◌*◌, ◌^◌, length, find, pos, IfErr, IfNone, IfSome};
ghost use Rattle.cpc_num.specs.Number.{is_of};
ghost use Rattle.cpc_tree.specs.Pieces.{is_u, is_l, base_of, suffix_of, kinds_tried, with_suffix, by_digits, integer};
ghost use Rattle.cpc_lexer.specs.Fronts.{integer_piece, IsFaultNumber};

use crate::byte::digit_of;
use crate::fault::{MALFORMED, TOO_WIDE};
use cpc_num::Kind;

/// The kind and the value of an integer, or the number of its fault.
#[tactic(auto, unfolding(cpc_tree::specs::Pieces::integer))]
pub(crate) fn integer(word: &[u8]) -> Result<(Kind, u64), u8>
    ensures piece { integer_piece result ≡ integer word.now }
    ensures number { IfErr result IsFaultNumber }
{
    match base_of(word) {
        16 => of_base(16, &word[2..]),
        base => of_base(base, word),
    }
}

/// The base that the first two bytes tell.
fn base_of(word: &[u8]) -> u8
    ensures { result ≡ base_of word.now }
{
    match word {
        [b'0', b'x' | b'X', ..] => 16,
        [b'0', ..] => 8,
        _ => 10,
    }
}

/// An integer of a base, without `0x`.
fn of_base(base: u8, numeral: &[u8]) -> Result<(Kind, u64), u8>
    requires { 0 < base }
    ensures piece { integer_piece result ≡ by_digits base numeral.now }
    ensures number { IfErr result IsFaultNumber }
{
    let mut value: u64 = 0;
    let mut n = 0;
    while n < numeral.len() {
        let Some(digit) = digit_of(base, numeral[n]) else {
            break;
        };
        let Some(more) = with_digit(base, value, digit) else {
            return Err(TOO_WIDE);
        };
        value = more;
        n += 1;
    }
    if n == 0 {
        return Err(MALFORMED);
    }
    with_suffix(base, value, &numeral[n..])
}

/// The number with one more digit, if it is below 2^64.
fn with_digit(base: u8, value: u64, digit: u8) -> Option<u64>
    ensures wide { IfNone result (2 ^ 64 ≤ base * value + digit) }
    ensures value { IfSome result (λ n. n ≡ base * value + digit) }
{
    u64::from(base)
        .checked_mul(value)?
        .checked_add(u64::from(digit))
}

/// The first kind of those that the suffix allows that holds the value.
fn with_suffix(base: u8, value: u64, suffix: &[u8]) -> Result<(Kind, u64), u8>
    ensures piece { integer_piece result ≡ with_suffix base value (suffix_of suffix.now) }
    ensures number { IfErr result IsFaultNumber }
{
    let Some((u, l)) = suffix_of(suffix) else {
        return Err(MALFORMED);
    };
    match kind_of(value, kinds_tried(base == 10, u, l)) {
        Some(kind) => Ok((kind, value)),
        None => Err(TOO_WIDE),
    }
}

/// Whether a suffix has a `u`, and whether it has an `l`.
fn suffix_of(suffix: &[u8]) -> Option<(bool, bool)>
    ensures { result ≡ suffix_of suffix.now }
{
    match suffix {
        [] => Some((false, false)),
        [a] if is_u(*a) => Some((true, false)),
        [a] if is_l(*a) => Some((false, true)),
        [a, b] if is_u(*a) && is_l(*b) || is_l(*a) && is_u(*b) => Some((true, true)),
        _ => None,
    }
}

fn is_u(b: u8) -> bool
    ensures { result ≡ is_u b }
{
    b == b'u' || b == b'U'
}

fn is_l(b: u8) -> bool
    ensures { result ≡ is_l b }
{
    b == b'l' || b == b'L'
}

/// The kinds that are tried, in order.
fn kinds_tried(decimal: bool, u: bool, l: bool) -> &'static [Kind]
    ensures { result.now ≡ kinds_tried decimal u l }
{
    match (u, l) {
        (true, true) => &[Kind::ULong],
        (true, false) => &[Kind::UInt, Kind::ULong],
        (false, true) if decimal => &[Kind::Long],
        (false, true) => &[Kind::Long, Kind::ULong],
        (false, false) if decimal => &[Kind::Int, Kind::Long],
        (false, false) => &[Kind::Int, Kind::UInt, Kind::Long, Kind::ULong],
    }
}

/// The first of the kinds that holds the value.
fn kind_of(value: u64, kinds: &[Kind]) -> Option<Kind>
    ensures { result ≡ find (λ kind. is_of kind (pos value)) kinds.now }
{
    kinds.iter().copied().find(|kind| holds(*kind, value))
}

fn holds(kind: Kind, value: u64) -> bool
    ensures { result ≡ is_of kind (pos value) }
{
    match kind {
        Kind::Char => value < 1 << 7,
        Kind::UChar => value < 1 << 8,
        Kind::Int => value < 1 << 31,
        Kind::UInt => value < 1 << 32,
        Kind::Long => value < 1 << 63,
        Kind::ULong => true,
    }
}
