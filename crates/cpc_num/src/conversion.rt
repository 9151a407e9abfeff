//! Promotion, the common kind, the range of a kind, and conversion to it.
ghost use Rattle.std.specs.Prelude.{◌≡◌, ◌↔◌, IsTrue, ◌≤ℤ◌, pos};
ghost use Rattle.cpc_num.specs.Number as N;

use crate::kinds::Kind;

/// The kind that an operator works on where it is given this one (C11 6.3.1.1p2).
pub fn promoted(kind: Kind) -> Kind
    ensures { result ≡ N.promoted kind }
{
    match kind {
        Kind::Char | Kind::UChar | Kind::Int => Kind::Int,
        Kind::UInt => Kind::UInt,
        Kind::Long => Kind::Long,
        Kind::ULong => Kind::ULong,
    }
}

fn rank(kind: Kind) -> u8
    ensures { result ≡ N.rank kind }
{
    match kind {
        Kind::Char => 0,
        Kind::UChar => 1,
        Kind::Int => 2,
        Kind::UInt => 3,
        Kind::Long => 4,
        Kind::ULong => 5,
    }
}

/// Whether two kinds are one.
pub fn same_kind(a: Kind, b: Kind) -> bool
    ensures { result ≡ N.same_kind a b }
{
    rank(a) == rank(b)
}

/// The kind to which two operands are converted (C11 6.3.1.8).
pub fn common(a: Kind, b: Kind) -> Kind
    ensures { result ≡ N.common a b }
{
    let a = promoted(a);
    let b = promoted(b);
    if rank(a) < rank(b) { b } else { a }
}

/// The number of bits of a value of the kind.
pub fn bits(kind: Kind) -> u32
    ensures { result ≡ N.bits kind }
{
    match kind {
        Kind::Char | Kind::UChar => 8,
        Kind::Int | Kind::UInt => 32,
        Kind::Long | Kind::ULong => 64,
    }
}

fn least(kind: Kind) -> i128
    ensures { result ≡ N.least kind }
{
    match kind {
        Kind::Char => -0x80,
        Kind::Int => -0x8000_0000,
        Kind::Long => -0x8000_0000_0000_0000,
        Kind::UChar | Kind::UInt | Kind::ULong => 0,
    }
}

fn greatest(kind: Kind) -> i128
    ensures { result ≡ N.greatest kind }
{
    match kind {
        Kind::Char => 0x7f,
        Kind::UChar => 0xff,
        Kind::Int => 0x7fff_ffff,
        Kind::UInt => 0xffff_ffff,
        Kind::Long => 0x7fff_ffff_ffff_ffff,
        Kind::ULong => 0xffff_ffff_ffff_ffff,
    }
}

/// Whether a number is a value of the kind.
pub fn is_of(kind: Kind, value: i128) -> bool
    ensures test { result ≡ N.is_of kind value }
    ensures fact { IsTrue result ↔ N.IsOf kind value }
{
    least(kind) <= value && value <= greatest(kind)
}

/// What a value leaves modulo two to the power of the width of a type.
// One modulus in each arm, so that the remainder is a mask.
pub(crate) fn residue(kind: Kind, value: i128) -> i128
    ensures { result ≡ N.residue kind value }
{
    match kind {
        Kind::Char | Kind::UChar => value.rem_euclid(0x100),
        Kind::Int | Kind::UInt => value.rem_euclid(0x1_0000_0000),
        Kind::Long | Kind::ULong => value.rem_euclid(0x1_0000_0000_0000_0000),
    }
}

fn modulus(kind: Kind) -> i128
    ensures { result ≡ N.modulus kind }
{
    match kind {
        Kind::Char | Kind::UChar => 0x100,
        Kind::Int | Kind::UInt => 0x1_0000_0000,
        Kind::Long | Kind::ULong => 0x1_0000_0000_0000_0000,
    }
}

/// The value of the kind that differs from this number by a multiple of 2 to its width
/// (C11 6.3.1.3, where a signed kind wraps).
pub fn convert(kind: Kind, value: i128) -> i128
    ensures value { result ≡ N.convert kind value }
    ensures fits { N.IsOf kind result }
    ensures same { N.IsOf kind value → result ≡ value }
    ensures congruent { N.residue kind result ≡ N.residue kind value }
{
    let rest = residue(kind, value);
    if rest <= greatest(kind) {
        rest
    } else {
        rest - modulus(kind)
    }
}
