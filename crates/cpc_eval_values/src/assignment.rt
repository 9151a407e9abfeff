//! Values where they are assigned, passed or cast to a type.
ghost use Rattle.std.specs.Prelude.{◌≡◌, Option, Some, IfOk, map, OnOk};
ghost use Rattle.std.specs.List.{All};
ghost use Rattle.std.specs.Result.{result_map_both};
ghost use Rattle.cpc_tree.specs.Syntax.{Ty};
ghost use Rattle.cpc_tree.specs.Erase.{Names, type_of};
ghost use Rattle.cpc_tree.specs.Primitives as P;
ghost use Rattle.cpc_store.specs.Seen.{seen, IsLawful};
ghost use Rattle.cpc_meaning.specs.Eval as E;
ghost use Rattle.cpc_meaning.specs.Layout as L;
ghost use Rattle.cpc_meaning.specs.Requests as R;
ghost use Rattle.cpc_eval_values.specs.Meets.{Meets};
ghost use Rattle.cpc_eval_values.specs.Shown.{value_of, values_of, shown};
ghost use Rattle.cpc_eval_values.specs.Takes.{taken_of};

use cpc_num::{Fault, Kind, convert};
use cpc_store::{Scalar, Value};
use cpc_tree::program::CType;

/// How an argument of a primitive is taken.
#[derive(Clone, Copy)]
pub enum Taken {
    /// An integer of any kind, which is set.
    AnyInteger,
    /// A set value of a type.
    SetOf(Scalar),
    /// A value of a type that may be unset.
    FreeOf(Scalar),
}

/// What the one cell of a scalar type holds; `None` for another type.
pub fn scalar_of(target: &CType) -> Option<Scalar>
    ensures { (names : Names) → result ≡ L.scalar_of (type_of names target.now) }
{
    match target {
        CType::Int(kind) => Some(Scalar::Int(*kind)),
        CType::Condvar => Some(Scalar::Cond),
        CType::Pointer(_) => Some(Scalar::Pointer),
        CType::Code { .. } => Some(Scalar::Code),
        CType::Void | CType::Struct(_) | CType::Array(_, _) => None,
    }
}

/// A value assigned to a scalar type: an integer is converted, a literal 0 becomes null, an unset value stays so.
pub fn assigned_scalar(target: Scalar, value: Value) -> Result<Value, Fault>
    requires { IsLawful (seen value) }
    ensures value { (names : Names) (t : Ty) → L.scalar_of t ≡ Some target → Meets (shown names result) (E.assigned t (value_of names value)) }
    ensures lawful { IfOk result (λ v. IsLawful (seen v)) }
{
    match value {
        Value::Unset => Ok(Value::Unset),
        Value::Int(_, number) => match target {
            Scalar::Int(kind) => Ok(Value::Int(kind, convert(kind, number))),
            Scalar::Pointer | Scalar::Code => Ok(Value::Null),
            Scalar::Cond => Err(Fault::Kind),
        },
        Value::Null | Value::At(_, _) | Value::Code(_) | Value::Cond(_) => Ok(value),
    }
}

/// A set value at a scalar type, as by a cast.
///
/// `Unset`: the value is unset.
pub fn at_scalar(target: Scalar, value: Value) -> Result<Value, Fault>
    requires { IsLawful (seen value) }
    ensures value { (names : Names) (t : Ty) → L.scalar_of t ≡ Some target → Meets (shown names result) (E.at_type t (value_of names value)) }
    ensures lawful { IfOk result (λ v. IsLawful (seen v)) }
{
    match value {
        Value::Unset => Err(Fault::Unset),
        _ => assigned_scalar(target, value),
    }
}

/// A value assigned to a type: an integer is converted, a literal 0 becomes null, an unset value stays so.
pub fn assigned(target: &CType, value: Value) -> Result<Value, Fault>
    requires { IsLawful (seen value) }
    ensures value { (names : Names) → Meets (shown names result) (E.assigned (type_of names target.now) (value_of names value)) }
    ensures lawful { IfOk result (λ v. IsLawful (seen v)) }
{
    match scalar_of(target) {
        Some(scalar) => assigned_scalar(scalar, value),
        None => Ok(value),
    }
}

/// A set value at a type, as by a cast.
///
/// `Unset`: the value is unset.
pub fn at_type(target: &CType, value: Value) -> Result<Value, Fault>
    requires { IsLawful (seen value) }
    ensures value { (names : Names) → Meets (shown names result) (E.at_type (type_of names target.now) (value_of names value)) }
    ensures lawful { IfOk result (λ v. IsLawful (seen v)) }
{
    match value {
        Value::Unset => Err(Fault::Unset),
        _ => assigned(target, value),
    }
}

/// An integer of any kind.
///
/// `Unset`: the value is unset.
pub fn set_integer(value: Value) -> Result<Value, Fault>
    requires { IsLawful (seen value) }
    ensures value { (names : Names) → Meets (shown names result) (R.set_integer (value_of names value)) }
    ensures lawful { IfOk result (λ v. IsLawful (seen v)) }
{
    match value {
        Value::Unset => Err(Fault::Unset),
        _ => Ok(value),
    }
}

/// An argument of a primitive as it is taken.
///
/// `Unset`: the value is unset, and a set one is wanted.
pub fn taken_as(taken: Taken, value: Value) -> Result<Value, Fault>
    requires { IsLawful (seen value) }
    ensures value { (names : Names) (t : P.Taken) → taken_of t ≡ Some taken → Meets (shown names result) (R.taken_as t (value_of names value)) }
    ensures lawful { IfOk result (λ v. IsLawful (seen v)) }
{
    match taken {
        Taken::AnyInteger => set_integer(value),
        Taken::SetOf(scalar) => at_scalar(scalar, value),
        Taken::FreeOf(scalar) => assigned_scalar(scalar, value),
    }
}

/// Makes each argument of a host's function a `long`. After a fault some are converted and some are not.
///
/// `Unset`: the first of them that is unset.
pub fn all_long(values: &mut [Value]) -> Result<(), Fault>
    requires { All (λ v. IsLawful (seen v)) values.old }
    ensures value { (names : Names) → Meets (result_map_both (λ _. values_of names values.new) (λ fault. fault) result) (R.all_long (values_of names values.old)) }
    ensures lawful { All (λ v. IsLawful (seen v)) values.new }
{
    for value in values.iter_mut() {
        *value = at_scalar(Scalar::Int(Kind::Long), *value)?;
    }
    Ok(())
}
