//! The operators on values of the six kinds.
ghost use Rattle.std.specs.Prelude.{◌≡◌, IfOk, ◌≤ℤ◌, ◌<ℤ◌, ◌+ℤ◌, ◌-ℤ◌, ◌*ℤ◌, pos, ◌^◌, unsigned_abs, int_div, int_rem, ◌≢◌};
ghost use Rattle.std.specs.Int.{int_div_euclid};
ghost use Rattle.cpc_num.specs.Number as N;
ghost use Rattle.cpc_num.specs.declared.kinds.Kind.TheVariants as Kind;

use crate::conversion::{bits, convert, is_of, residue};
use crate::kinds::{Fault, Kind, Op};

// A result of an operator, which an unsigned kind wraps.
#[tactic(auto, unfolding(crate::specs::Number::settle))]
fn settle(kind: Kind, value: i128) -> Result<i128, Fault>
    ensures value { result ≡ N.settle kind value }
    ensures kept { IfOk result (N.IsOf kind) }
{
    match kind {
        Kind::Char | Kind::Int | Kind::Long => {
            if is_of(kind, value) {
                Ok(value)
            } else {
                Err(Fault::Overflow)
            }
        }
        Kind::UChar | Kind::UInt | Kind::ULong => Ok(convert(kind, value)),
    }
}

// The product of two unsigned longs, which may need all of 128 bits and has no sign.
fn ulong_product(left: i128, right: i128) -> i128
    requires left_of_kind { N.IsOf Kind.ULong left }
    requires right_of_kind { N.IsOf Kind.ULong right }
    ensures value { result ≡ N.convert Kind.ULong (left *ℤ right) }
    ensures kept { N.IsOf Kind.ULong result }
{
    let low = left.unsigned_abs() * right.unsigned_abs() % 0x1_0000_0000_0000_0000;
    low as i128
}

// A product of two values of another kind has no more than 126 bits.
#[tactic(auto, unfolding(crate::specs::Number::settle))]
fn product(kind: Kind, left: i128, right: i128) -> Result<i128, Fault>
    requires left_of_kind { N.IsOf kind left }
    requires right_of_kind { N.IsOf kind right }
    ensures value { result ≡ N.settle kind (left *ℤ right) }
    ensures kept { IfOk result (N.IsOf kind) }
{
    match kind {
        Kind::ULong => Ok(ulong_product(left, right)),
        _ => settle(kind, left * right),
    }
}

fn ratio(left: i128, right: i128) -> i128
    requires left_of_some { N.IsOfSome left }
    requires nonzero { right ≢ pos 0 }
    ensures { result ≡ int_div left right }
{
    left / right
}

fn rest(kind: Kind, left: i128, right: i128) -> i128
    requires left_of_kind { N.IsOf kind left }
    requires nonzero { right ≢ pos 0 }
    ensures value { result ≡ int_rem left right }
    ensures kept { N.IsOf kind result }
{
    left % right
}

#[tactic(auto, using(crate::proofs::DivisionLemmas::dividing))]
fn quotient(kind: Kind, left: i128, right: i128) -> Result<i128, Fault>
    requires { N.IsOfSome left }
    ensures value { result ≡ N.divided kind left right (int_div left right) }
    ensures kept { IfOk result (N.IsOf kind) }
{
    if right == 0 {
        return Err(Fault::Divide);
    }
    let quotient = ratio(left, right);
    if is_of(kind, quotient) {
        Ok(quotient)
    } else {
        Err(Fault::Overflow)
    }
}

// The remainder of the least value by -1 overflows, as its quotient does.
#[tactic(auto, using(crate::proofs::DivisionLemmas::dividing))]
fn remainder(kind: Kind, left: i128, right: i128) -> Result<i128, Fault>
    requires { N.IsOf kind left }
    ensures value { result ≡ N.divided kind left right (int_rem left right) }
    ensures kept { IfOk result (N.IsOf kind) }
{
    if right == 0 {
        return Err(Fault::Divide);
    }
    if is_of(kind, ratio(left, right)) {
        Ok(rest(kind, left, right))
    } else {
        Err(Fault::Overflow)
    }
}

fn can_shift(kind: Kind, amount: i128) -> bool
    ensures { result ≡ N.can_shift kind amount }
{
    0 <= amount && amount < i128::from(bits(kind))
}

// Two to the power of the amount.
fn power(amount: i128) -> i128
    requires low { pos 0 ≤ℤ amount }
    requires high { amount <ℤ pos 64 }
    ensures value { result ≡ pos (2 ^ unsigned_abs amount) }
    ensures high { result ≤ℤ pos (2 ^ 63) }
{
    i128::from(1u64 << amount as u32)
}

#[tactic(auto, unfolding(crate::specs::Number::shift_left))]
fn shift_left(kind: Kind, left: i128, amount: i128) -> Result<i128, Fault>
    requires { N.IsOfSome left }
    ensures value { result ≡ N.shift_left kind left amount }
    ensures kept { IfOk result (N.IsOf kind) }
{
    if can_shift(kind, amount) {
        settle(kind, left * power(amount))
    } else {
        Err(Fault::Shift)
    }
}

// The shift of two's complement rounds down.
fn floor(kind: Kind, left: i128, amount: i128) -> i128
    requires left_of_kind { N.IsOf kind left }
    requires low { pos 0 ≤ℤ amount }
    requires high { amount <ℤ pos 64 }
    ensures value { result ≡ int_div_euclid left (pos (2 ^ unsigned_abs amount)) }
    ensures kept { N.IsOf kind result }
{
    left >> amount as u32
}

#[tactic(auto, unfolding(crate::specs::Number::shift_right))]
fn shift_right(kind: Kind, left: i128, amount: i128) -> Result<i128, Fault>
    requires { N.IsOf kind left }
    ensures value { result ≡ N.shift_right kind left amount }
    ensures kept { IfOk result (N.IsOf kind) }
{
    if can_shift(kind, amount) {
        Ok(floor(kind, left, amount))
    } else {
        Err(Fault::Shift)
    }
}

fn bits_of(kind: Kind, value: i128) -> u64
    ensures { result ≡ N.bits_of kind value }
{
    residue(kind, value) as u64
}

fn truth(holds: bool) -> i128
    ensures { result ≡ N.truth holds }
{
    if holds { 1 } else { 0 }
}

/// Unary minus, of a value of the kind (C11 6.5.3.3p3).
///
/// `Overflow` for the least value of a signed kind.
pub fn negate(kind: Kind, value: i128) -> Result<i128, Fault>
    requires { N.IsOf kind value }
    ensures value { result ≡ N.negate kind value }
    ensures kept { IfOk result (N.IsOf kind) }
{
    settle(kind, -value)
}

/// An operator of two operands that were converted to the kind (C11 6.5.5 to 6.5.14).
///
/// The right operand of a shift keeps its own kind; `kind` is then the promoted kind of the left
/// one. A comparison gives 1 or 0 as an `int`, another operator a value of the kind.
///
/// - `Overflow`: a signed result is out of range; a left shift, and the quotient or remainder of
///   the least value by -1, among them.
/// - `Divide`: the divisor is 0.
/// - `Shift`: the amount is negative or not below the width of the kind.
pub fn binary(op: Op, kind: Kind, left: i128, right: i128) -> Result<i128, Fault>
    requires left_of_kind { N.IsOf kind left }
    requires right_of_kind { N.IsRight op kind right }
    ensures value { result ≡ N.binary op kind left right }
    ensures kept { IfOk result (N.IsOf (N.result_kind op kind)) }
{
    match op {
        Op::Mul => product(kind, left, right),
        Op::Div => quotient(kind, left, right),
        Op::Rem => remainder(kind, left, right),
        Op::Add => settle(kind, left + right),
        Op::Sub => settle(kind, left - right),
        Op::Shl => shift_left(kind, left, right),
        Op::Shr => shift_right(kind, left, right),
        Op::Lt => Ok(truth(left < right)),
        Op::Le => Ok(truth(left <= right)),
        Op::Gt => Ok(truth(left > right)),
        Op::Ge => Ok(truth(left >= right)),
        Op::Eq => Ok(truth(left == right)),
        Op::Ne => Ok(truth(left != right)),
        Op::BitAnd => Ok(convert(kind, i128::from(bits_of(kind, left) & bits_of(kind, right)))),
        Op::BitXor => Ok(convert(kind, i128::from(bits_of(kind, left) ^ bits_of(kind, right)))),
        Op::BitOr => Ok(convert(kind, i128::from(bits_of(kind, left) | bits_of(kind, right)))),
    }
}
