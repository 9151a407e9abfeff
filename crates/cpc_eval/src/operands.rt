//! Operators on the values of operands, by the types of the operands where these count.
ghost use Rattle.std.specs.Prelude.{◌≡◌, IfOk, Option, Some};
ghost use Rattle.cpc_num.specs.Number as N;
ghost use Rattle.cpc_num.specs.declared.kinds.Kind.TheVariants as K;
ghost use Rattle.cpc_tree.specs.Erase.{Names, type_of};
ghost use Rattle.cpc_tree.specs.Syntax.{Ty, TyInt};
ghost use Rattle.cpc_tree.specs.Typing as T;
ghost use Rattle.cpc_check_rules.specs.Apart.{AreApart};
ghost use Rattle.cpc_store.specs.Seen.{seen, IsLawful};
ghost use Rattle.cpc_store.specs.Store.{Whole};
ghost use Rattle.cpc_eval_index.specs.Indexed.{items_of};
ghost use Rattle.cpc_shapes.specs.Found.{used_of};
ghost use Rattle.cpc_meaning.specs.Eval as E;
ghost use Rattle.cpc_eval_values.specs.Meets.{Meets};
ghost use Rattle.cpc_meaning.specs.Answer.{Gives};
ghost use Rattle.cpc_eval_values.specs.Counted.{IsSize, counted, cells_counted};
ghost use Rattle.cpc_eval_values.specs.Shown.{value_of, store_of, shown};
ghost use Rattle.cpc_eval.specs.Results.{given_shown};
ghost use Rattle.cpc_eval.specs.Shapes.{shapes_of, types_of, Agrees};
ghost use Rattle.cpc_eval.specs.Numbers.{FitsSize, size_value};

use crate::around::Around;
use crate::results::Given;
use crate::shapes::{Shape, Typed, pointee, scalar};
use crate::typing::{int_value, used_if};
use cpc_eval_index::Index;
use cpc_eval_values::{Side, at_scalar, counted, holds, operate, truth_value};
use cpc_num::{Fault, Kind, Op, convert};
use cpc_store::Value;
use cpc_tree::program::CType;

/// A literal of a kind.
pub(crate) fn integer(kind: Kind, number: i128) -> Value
    ensures value { (names : Names) → N.IsOf kind number → value_of names result ≡ Whole kind number }
    ensures lawful { IsLawful (seen result) }
{
    Value::Int(kind, convert(kind, number))
}

/// `sizeof`: the number of cells of a type.
pub(crate) fn size_of(index: &Index, of: &CType) -> Result<Value, Fault>
    ensures value { (names : Names) → AreApart names → FitsSize (T.size (items_of names index.now) (type_of names of.now)) → Meets (shown names result) (size_value (T.size (items_of names index.now) (type_of names of.now))) }
    ensures lawful { IfOk result (λ v. IsLawful (seen v)) }
{
    match index.size(of) {
        Some(size) => Ok(Value::Int(Kind::ULong, i128::from(size))),
        None => Err(Fault::Kind),
    }
}

// The cells of what a pointer of the type points to.
fn element_size(typed: Option<Typed>, index: &Index) -> Option<u64>
    ensures { (names : Names) → AreApart names → IsSize result (E.element_size (items_of names index.now) (used_of (types_of names typed.entry))) }
{
    match used_if(typed) {
        None => None,
        Some(shape) => match pointee(shape) {
            None => None,
            Some(to) => index.size(to),
        },
    }
}

// The cells of the elements of the operand of which an operator counts them.
fn counted_size(op: Op, left: Given, right: Given, index: &Index) -> Option<u64>
    ensures { (names : Names) (t u : Option T.Typed) → AreApart names → Agrees (types_of names left.entry.typed) t → Agrees (types_of names right.entry.typed) u → IsSize result
        (cells_counted (items_of names index.now) (counted op (seen left.entry.value) (seen right.entry.value)) (E.and_then t T.used) (E.and_then u T.used)) }
{
    match counted(op, left.value, right.value) {
        Side::Neither => None,
        Side::Left => element_size(left.typed, index),
        Side::Right => element_size(right.typed, index),
    }
}

/// An operator on two operands, whose types count where one of them is a pointer. It takes no memory.
///
/// - `Unset`: a value is unset, the left one first.
/// - `Overflow`, `Divide`, `Shift`: as of the operator on two integers.
/// - `Null`, `Freed`, `Bounds`: as of a move of a pointer, or of two pointers that are compared or subtracted.
/// - `Compare`: two pointers into different blocks are compared by order or subtracted.
///
/// Operands that the operator does not take may give any value or any fault.
pub fn operate_on(op: Op, left: Given, right: Given, around: &Around) -> Result<Value, Fault>
    requires left { IsLawful (seen left.value) }
    requires right { IsLawful (seen right.value) }
    ensures value { (names : Names) (t u : Option T.Typed) → AreApart names → Agrees (types_of names left.entry.typed) t → Agrees (types_of names right.entry.typed) u → Meets (shown names result)
        (E.operate (items_of names around.now.index.now) (store_of names around.now.store.now) op (E.and_then t T.used) (E.and_then u T.used) (value_of names left.entry.value) (value_of names right.entry.value)) }
    ensures lawful { IfOk result (λ v. IsLawful (seen v)) }
{
    let size = counted_size(op, left, right, around.index);
    operate(around.store, op, size, left.value, right.value)
}

/// What `&&`, `||` and the like give: a truth value, an `int`.
pub(crate) fn truth<'a>(holds: bool) -> Given<'a>
    ensures value { (names : Names) → value_of names result.value ≡ E.truth_value holds }
    ensures typed { (names : Names) → types_of names result.typed ≡ Some (T.AValue (TyInt K.Int)) }
    ensures lawful { IsLawful (seen result.value) }
{
    Given {
        value: truth_value(holds),
        typed: int_value(Kind::Int),
    }
}

/// The truth value of an operand of `&&` or `||`.
///
/// `Unset`: the value is unset.
pub(crate) fn tested<'a>(value: Value) -> Result<Given<'a>, Fault>
    ensures value { (names : Names) → Meets (given_shown names result) (E.tested (Gives (value_of names value))) }
    ensures typed { (names : Names) (o : Option T.Typed) → Agrees (Some (T.AValue (TyInt K.Int))) o → IfOk result (λ g. Agrees (types_of names g.typed) o) }
    ensures lawful { IfOk result (λ g. IsLawful (seen g.value)) }
{
    let test = holds(value)?;
    Ok(truth(test))
}

/// A set value at a type, as by a cast.
///
/// `Unset`: the value is unset.
pub(crate) fn at_shape(shape: Option<Shape>, value: Value) -> Result<Value, Fault>
    requires { IsLawful (seen value) }
    ensures value { (names : Names) (t : Ty) → shapes_of names shape.entry ≡ Some t → Meets (shown names result) (E.at_type t (value_of names value)) }
    ensures lawful { IfOk result (λ v. IsLawful (seen v)) }
{
    match shape {
        None => Err(Fault::Kind),
        Some(shape) => match scalar(shape) {
            Some(scalar) => at_scalar(scalar, value),
            None => match value {
                Value::Unset => Err(Fault::Unset),
                _ => Err(Fault::Kind),
            },
        },
    }
}
