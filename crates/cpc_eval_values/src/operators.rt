//! Operators on two values, where one may be a reference.
ghost use Rattle.std.specs.Prelude.{◌≡◌, ◌-ℤ◌, Option, IfOk, pos};
ghost use Rattle.cpc_check_rules.specs.Apart.{AreApart};
ghost use Rattle.cpc_tree.specs.Erase.{Names};
ghost use Rattle.cpc_tree.specs.Syntax.{Ty, Program};
ghost use Rattle.cpc_store.specs.Seen.{seen, IsLawful};
ghost use Rattle.cpc_meaning.specs.Eval as E;
ghost use Rattle.cpc_eval_values.specs.Meets.{Meets};
ghost use Rattle.cpc_eval_values.specs.Shown.{value_of, store_of, shown};
ghost use Rattle.cpc_eval_values.specs.Counted as C;
ghost use Rattle.cpc_eval_values.specs.declared.operators.Side.TheVariants as Side;

use crate::numbers::on_numbers;
use crate::pointers::{distance, moved_by, ordered};
use crate::truth::{same_value, truth_value};
use cpc_num::{Fault, Op};
use cpc_store::{Store, Value};

/// An operand of an operator.
#[derive(Clone, Copy)]
pub enum Side {
    Neither,
    Left,
    Right,
}

/// The operand that points to elements which the operator counts: of `p + n`, `n + p`, `p - n` and `p - q` the first pointer.
pub fn counted(op: Op, left: Value, right: Value) -> Side
    ensures { result ≡ C.counted op (seen left) (seen right) }
{
    match op {
        Op::Add => match left {
            Value::Int(_, _) => match right {
                Value::Int(_, _) => Side::Neither,
                _ => Side::Right,
            },
            _ => Side::Left,
        },
        Op::Sub => match left {
            Value::Int(_, _) => Side::Neither,
            _ => Side::Left,
        },
        _ => Side::Neither,
    }
}

/// A pointer moved by so many elements, where their size is known.
fn moved_elements(
    store: &Store,
    size: Option<u64>,
    value: Value,
    count: i128,
) -> Result<Value, Fault>
    requires { IsLawful (seen value) }
    ensures value { (names : Names) (p : Program) (t : Option Ty) → C.IsSize size (E.element_size p t) → Meets (shown names result) (E.moved_by p (store_of names store.now) t (value_of names value) count) }
    ensures lawful { IfOk result (λ v. IsLawful (seen v)) }
{
    match size {
        Some(cells) => moved_by(store, value, count, cells),
        None => Err(Fault::Kind),
    }
}

/// An operator whose left operand is a set reference.
fn on_pointers(
    store: &Store,
    op: Op,
    size: Option<u64>,
    left: Value,
    right: Value,
) -> Result<Value, Fault>
    requires left { IsLawful (seen left) }
    requires right { IsLawful (seen right) }
    ensures value { (names : Names) (p : Program) (t : Option Ty) → AreApart names → C.IsSize size (C.cells_left p op t) → Meets (shown names result) (E.on_pointers p (store_of names store.now) op t (value_of names left) (value_of names right)) }
    ensures lawful { IfOk result (λ v. IsLawful (seen v)) }
{
    match op {
        Op::Add => match right {
            Value::Int(_, number) => moved_elements(store, size, left, number),
            _ => Err(Fault::Kind),
        },
        Op::Sub => match right {
            Value::Int(_, number) => moved_elements(store, size, left, -number),
            _ => distance_by(store, size, left, right),
        },
        Op::Lt | Op::Le | Op::Gt | Op::Ge => ordered(store, op, left, right),
        Op::Eq => Ok(truth_value(same_value(left, as_reference(right)))),
        Op::Ne => Ok(truth_value(!same_value(left, as_reference(right)))),
        _ => Err(Fault::Kind),
    }
}

/// The elements between two pointers, where their size is known.
fn distance_by(store: &Store, size: Option<u64>, left: Value, right: Value) -> Result<Value, Fault>
    requires left { IsLawful (seen left) }
    requires right { IsLawful (seen right) }
    ensures value { (names : Names) (p : Program) (t : Option Ty) → C.IsSize size (E.element_size p t) → Meets (shown names result) (E.distance p (store_of names store.now) t (value_of names left) (value_of names right)) }
    ensures lawful { IfOk result (λ v. IsLawful (seen v)) }
{
    distance(store, left, right, size.unwrap_or(0))
}

/// A literal 0 beside a reference is null.
fn as_reference(value: Value) -> Value
    ensures { (names : Names) → value_of names result ≡ E.as_reference (value_of names value) }
{
    match value {
        Value::Int(_, _) => Value::Null,
        _ => value,
    }
}

/// An operator on an integer and a set reference.
fn on_mixed(
    store: &Store,
    op: Op,
    size: Option<u64>,
    left: i128,
    right: Value,
) -> Result<Value, Fault>
    requires { IsLawful (seen right) }
    ensures value { (names : Names) (p : Program) (u : Option Ty) → AreApart names → C.IsSize size (C.cells_right p op u) → Meets (shown names result) (E.on_mixed p (store_of names store.now) op u left (value_of names right)) }
    ensures lawful { IfOk result (λ v. IsLawful (seen v)) }
{
    match op {
        Op::Add => moved_elements(store, size, right, left),
        Op::Eq => Ok(truth_value(same_value(Value::Null, right))),
        Op::Ne => Ok(truth_value(!same_value(Value::Null, right))),
        _ => Err(Fault::Kind),
    }
}

/// An operator on two values (C11 6.5.5 to 6.5.14). `size` is how many cells the elements of the operand have that `counted`
/// names, the greatest `u64` where it is more; where none is named, anything.
///
/// - `Unset`: an operand is unset.
/// - `Overflow`, `Divide`, `Shift`: as of `on_numbers`, on two integers.
/// - `Null`, `Freed`, `Bounds`, `Compare`: as of `moved`, `distance` and `ordered`, on pointers.
pub fn operate(
    store: &Store,
    op: Op,
    size: Option<u64>,
    left: Value,
    right: Value,
) -> Result<Value, Fault>
    requires left { IsLawful (seen left) }
    requires right { IsLawful (seen right) }
    ensures value { (names : Names) (p : Program) (t u : Option Ty) → AreApart names → C.IsSize size (C.cells_counted p (C.counted op (seen left) (seen right)) t u)
        → Meets (shown names result) (E.operate p (store_of names store.now) op t u (value_of names left) (value_of names right)) }
    ensures lawful { IfOk result (λ v. IsLawful (seen v)) }
{
    match left {
        Value::Unset => Err(Fault::Unset),
        Value::Int(left_kind, number) => match right {
            Value::Unset => Err(Fault::Unset),
            Value::Int(right_kind, amount) => {
                on_numbers(op, left_kind, number, right_kind, amount)
            }
            _ => on_mixed(store, op, size, number, right),
        },
        _ => match right {
            Value::Unset => Err(Fault::Unset),
            _ => on_pointers(store, op, size, left, right),
        },
    }
}
