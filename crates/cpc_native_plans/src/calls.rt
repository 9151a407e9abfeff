//! Calls: which function a value calls, and with which arguments.
ghost use Rattle.std.specs.Prelude.{◌≡◌, ◌==◌, IfOk, Some, length, slice_get, option_map};
ghost use Rattle.std.specs.List.{All};
ghost use Rattle.std.specs.Result.{result_map_both};
ghost use Rattle.cpc_tree.specs.Erase.{Names as Texts, type_of, exprs_of, function_of, parameter_of};
ghost use Rattle.cpc_tree.specs.Syntax.{Ty};
ghost use Rattle.cpc_tree.specs.Typing as T;
ghost use Rattle.cpc_check_rules.specs.Apart.{AreApart};
ghost use Rattle.cpc_store.specs.Store as S;
ghost use Rattle.cpc_store.specs.Seen.{seen, IsLawful};
ghost use Rattle.cpc_eval_values.specs.Meets.{Meets};
ghost use Rattle.cpc_eval_values.specs.Shown.{value_of};
ghost use Rattle.cpc_eval_index.specs.Indexed.{items_of};
ghost use Rattle.cpc_eval.specs.Around.{context_of, IsToldIn};
ghost use Rattle.cpc_eval.specs.Numbers.{AllNumbers};
ghost use Rattle.cpc_eval.specs.Shapes.{shape_of};
ghost use Rattle.cpc_eval.specs.Spots.{AreLawful};
ghost use Rattle.cpc_native_plans.specs.Stops.{MeetsOr};
ghost use Rattle.cpc_native_plans.specs.Rows.{row_types, parameter_list, signature_in};
ghost use Rattle.cpc_native_plans.specs.Calls.{is_same, is_of_type, code_called, called_with, call_shown};

use crate::below::stopped;
use crate::rows::{Row, passed, type_at};
use cpc_base::{Name, Stop};
use cpc_eval::{Around, Shape};
use cpc_eval_index::Index;
use cpc_num::Fault;
use cpc_shapes::same_type;
use cpc_store::Value;
use cpc_tree::program::{CType, Expr, Function, Parameter};
use std::alloc::Global;

// The result and the parameters of the type of a code that stands in a tree.
fn signature_given(of: &CType) -> Option<(&CType, Row)>
    ensures { (names : Texts) → option_map (λ q. (type_of names q.0.now, row_types names q.1)) result ≡ signature_in (type_of names of.now) }
{
    match of {
        CType::Code {
            result: given,
            parameters,
        } => Some((given, Row::Types(parameters))),
        _ => None,
    }
}

// The result and the parameters of the type of a code.
fn signature_of(shape: Shape) -> Option<(&CType, Row)>
    ensures { (names : Texts) → option_map (λ q. (type_of names q.0.now, row_types names q.1)) result ≡ signature_in (shape_of names shape.entry) }
{
    match shape {
        Shape::Given(of) => signature_given(of),
        Shape::CodeOf {
            result: given,
            parameters,
        } => Some((given, Row::Parameters(parameters))),
        Shape::Int(_) => None,
        Shape::PointerTo(_) => None,
    }
}

/// The parameters of the type of a code; another type has none.
pub fn parameters_of(shape: Shape) -> Row
    ensures { (names : Texts) → row_types names result ≡ T.code_parameters (shape_of names shape.entry) }
{
    match signature_of(shape) {
        Some((_, row)) => row,
        None => Row::Types(&[]),
    }
}

// Whether a type is that of the n-th of a row.
fn is_nth(row: Row, i: usize, of: &CType) -> bool
    ensures { (names : Texts) → AreApart names → result ≡ is_same (slice_get (row_types names row.entry) i) (type_of names of.now) }
{
    match type_at(row, i) {
        Some(other) => same_type(other, of),
        None => false,
    }
}

// Whether a row has so many types.
fn has_length(row: Row, count: usize) -> bool
    ensures { (names : Texts) → result ≡ (length (row_types names row.entry) == count) }
{
    match row {
        Row::Types(types) => types.len() == count,
        Row::Parameters(parameters) => parameters.len() == count,
    }
}

// Whether the types of a row are those of parameters.
fn same_row(row: Row, parameters: &[Parameter]) -> bool
    ensures { (names : Texts) → AreApart names → result ≡ T.same_types (T.tys_of (row_types names row.entry)) (T.tys_of (parameter_list names parameters.now)) }
{
    if !has_length(row, parameters.len()) {
        return false;
    }
    for (i, parameter) in parameters.iter().enumerate() {
        if !is_nth(row, i, &parameter.of) {
            return false;
        }
    }
    true
}

// Whether a function is of a type.
fn is_of_type(shape: Shape, function: &Function) -> bool
    ensures { (names : Texts) → AreApart names → result ≡ is_of_type (shape_of names shape.entry) (Some (function_of names function.now)) }
{
    match signature_of(shape) {
        Some((given, row)) => {
            same_type(given, &function.result) && same_row(row, &function.parameters)
        }
        None => false,
    }
}

// The name of the function that a code of a type calls.
fn code_named(name: Name, shape: Shape, index: &Index) -> Result<Name, Fault>
    ensures { (names : Texts) → AreApart names → Meets (result_map_both names (λ fault. fault) result) (code_called (items_of names index.now) (shape_of names shape.entry) (S.Code (names name))) }
{
    match index.function(name) {
        Some(function) => {
            if is_of_type(shape, function) {
                Ok(name)
            } else {
                Err(Fault::Code)
            }
        }
        None => Err(Fault::Code),
    }
}

/// The name of the function that a value of a type calls.
pub fn callee(value: Value, shape: Shape, index: &Index) -> Result<Name, Fault>
    ensures { (names : Texts) → AreApart names → Meets (result_map_both names (λ fault. fault) result) (code_called (items_of names index.now) (shape_of names shape.entry) (value_of names value)) }
{
    match value {
        Value::Unset => Err(Fault::Unset),
        Value::Null => Err(Fault::Null),
        Value::Code(name) => code_named(name, shape, index),
        _ => Err(Fault::Kind),
    }
}

/// The function that a value of a type calls, and its arguments. The value is looked at after the arguments.
///
/// - `Unset`, `Null`: the value is unset or null.
/// - `Code`: there is no function of its name, or one of another type.
/// - The faults of `cpc_eval`, of the arguments.
/// - `Memory`: want of memory for the arguments.
pub fn value_called<'a>(
    alloc: Global,
    called: Value,
    shape: Shape<'a>,
    arguments: &'a [Expr],
    around: &Around<'a>,
) -> Result<(Name, Vec<Value>), Stop<Fault>>
    requires { AreLawful around.now.slots.now }
    ensures value { (names : Texts) → IsToldIn names around.now → AllNumbers (items_of names around.now.index.now) (exprs_of names arguments.now)
        → MeetsOr (call_shown names result) (called_with (context_of names around.now) (shape_of names shape.entry) (value_of names called) (exprs_of names arguments.now)) }
    ensures lawful { IfOk result (λ q. All (λ v. IsLawful (seen v)) q.1.items) }
{
    let row = passed(alloc, parameters_of(shape), arguments, around)?;
    let name = stopped(callee(called, shape, around.index))?;
    Ok((name, row))
}
