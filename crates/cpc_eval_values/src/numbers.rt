//! Operators on integers.
ghost use Rattle.std.specs.Prelude.{◌≡◌, IfOk};
ghost use Rattle.cpc_num.specs.Number as N;
ghost use Rattle.cpc_tree.specs.Erase.{Names};
ghost use Rattle.cpc_store.specs.Seen.{seen, IsLawful};
ghost use Rattle.cpc_meaning.specs.Eval as E;
ghost use Rattle.cpc_eval_values.specs.Meets.{Meets};
ghost use Rattle.cpc_eval_values.specs.Shown.{value_of, shown};
ghost use Rattle.cpc_eval_values.specs.Signed.{signed};

use crate::truth::negated;
use cpc_num::{Fault, Kind, Op, binary, common, convert, negate, promoted};
use cpc_store::Value;
use cpc_tree::program::UnaryOp;

/// The kind at which an operator works on two integers.
fn work_kind(op: Op, left: Kind, right: Kind) -> Kind
    ensures { result ≡ E.work_kind op left right }
{
    match op {
        Op::Shl | Op::Shr => promoted(left),
        _ => common(left, right),
    }
}

/// The kind of what an operator gives that works at a kind.
fn result_kind(op: Op, kind: Kind) -> Kind
    ensures { result ≡ N.result_kind op kind }
{
    match op {
        Op::Lt | Op::Le | Op::Gt | Op::Ge | Op::Eq | Op::Ne => Kind::Int,
        _ => kind,
    }
}

/// The right operand, which is converted but for a shift.
fn right_operand(op: Op, kind: Kind, right: i128) -> i128
    requires { N.IsOfSome right }
    ensures value { result ≡ E.right_operand op kind right }
    ensures suits { N.IsRight op kind result }
{
    match op {
        Op::Shl | Op::Shr => right,
        _ => convert(kind, right),
    }
}

/// An operator on two integers of some kinds (C11 6.5.5 to 6.5.14).
///
/// `Overflow`, `Divide`, `Shift`: as of `binary`.
pub fn on_numbers(
    op: Op,
    left_kind: Kind,
    left: i128,
    right_kind: Kind,
    right: i128,
) -> Result<Value, Fault>
    requires { N.IsOf right_kind right }
    ensures value { (names : Names) → Meets (shown names result) (E.on_numbers op left_kind left right_kind right) }
    ensures lawful { IfOk result (λ v. IsLawful (seen v)) }
{
    let kind = work_kind(op, left_kind, right_kind);
    let wanted = right_operand(op, kind, right);
    let number = binary(op, kind, convert(kind, left), wanted)?;
    Ok(Value::Int(result_kind(op, kind), number))
}

/// `-` on a number of a promoted kind.
fn minus(kind: Kind, number: i128) -> Result<Value, Fault>
    requires { N.IsOf kind number }
    ensures value { (names : Names) → Meets (shown names result) (E.number kind (N.negate kind number)) }
    ensures lawful { IfOk result (λ v. IsLawful (seen v)) }
{
    let number = negate(kind, number)?;
    Ok(Value::Int(kind, number))
}

/// An operator on one value (C11 6.5.3.3); `*` and `&` are none.
///
/// - `Unset`: the value is unset.
/// - `Overflow`: a signed result is out of range.
pub fn apply(op: UnaryOp, value: Value) -> Result<Value, Fault>
    ensures value { (names : Names) → Meets (shown names result) (E.apply op (value_of names value)) }
    ensures lawful { IfOk result (λ v. IsLawful (seen v)) }
{
    match op {
        UnaryOp::Not => negated(value),
        _ => match value {
            Value::Unset => Err(Fault::Unset),
            Value::Int(kind, number) => {
                let kind = promoted(kind);
                sign(op, kind, convert(kind, number))
            }
            _ => Err(Fault::Kind),
        },
    }
}

/// `-`, `+` or `~` on a number of a promoted kind.
fn sign(op: UnaryOp, kind: Kind, number: i128) -> Result<Value, Fault>
    requires { N.IsOf kind number }
    ensures value { (names : Names) → Meets (shown names result) (signed op kind number) }
    ensures lawful { IfOk result (λ v. IsLawful (seen v)) }
{
    match op {
        UnaryOp::Minus => minus(kind, number),
        UnaryOp::Plus => Ok(Value::Int(kind, number)),
        UnaryOp::Complement => Ok(Value::Int(kind, convert(kind, -1 - number))),
        _ => Err(Fault::Kind),
    }
}
