//! The arguments of calls: evaluated from left to right, and then converted.
ghost use Rattle.std.specs.Prelude.{◌≡◌, IfOk, Some, option_map, slice_get};
ghost use Rattle.std.specs.List.{All};
ghost use Rattle.std.specs.Result.{result_map_both};
ghost use Rattle.cpc_tree.specs.Erase.{Names, type_of, exprs_of};
ghost use Rattle.cpc_store.specs.Seen.{seen, IsLawful};
ghost use Rattle.cpc_meaning.specs.Eval as E;
ghost use Rattle.cpc_meaning.specs.Requests as R;
ghost use Rattle.cpc_eval_values.specs.Meets.{Meets};
ghost use Rattle.cpc_eval_values.specs.Shown.{value_of, values_of, shown};
ghost use Rattle.cpc_eval_index.specs.Indexed.{items_of};
ghost use Rattle.cpc_eval.specs.Around.{context_of, IsToldIn};
ghost use Rattle.cpc_eval.specs.Numbers.{AllNumbers};
ghost use Rattle.cpc_eval.specs.Spots.{AreLawful};
ghost use Rattle.cpc_native_plans.specs.Stops.{MeetsOr, row_shown};
ghost use Rattle.cpc_native_plans.specs.Rows.{row_types, parameter_list, by_nth, passed};

use crate::below::{stopped, value};
use cpc_base::Stop;
use cpc_eval::Around;
use cpc_eval_values::assigned;
use cpc_num::Fault;
use cpc_store::Value;
use cpc_tree::program::{CType, Expr, Parameter};
use std::alloc::Global;

/// The types of parameters: of a type of a code, or of a function.
#[derive(Clone, Copy)]
pub enum Row<'a> {
    Types(&'a [CType]),
    Parameters(&'a [Parameter]),
}

// The parameter of a number.
fn parameter_of(parameters: &[Parameter], i: usize) -> Option<&Parameter>
    ensures { option_map (λ p. p.now) result ≡ slice_get parameters.now i }
{
    parameters.get(i)
}

/// The type of a parameter.
pub fn parameter_at(parameters: &[Parameter], i: usize) -> Option<&CType>
    ensures { (names : Names) → option_map (λ t. type_of names t.now) result ≡ slice_get (parameter_list names parameters.now) i }
{
    match parameter_of(parameters, i) {
        Some(parameter) => Some(&parameter.of),
        None => None,
    }
}

/// The type of the parameter of a number.
pub fn type_at(row: Row, i: usize) -> Option<&CType>
    ensures { (names : Names) → option_map (λ t. type_of names t.now) result ≡ slice_get (row_types names row.entry) i }
{
    match row {
        Row::Types(types) => types.get(i),
        Row::Parameters(parameters) => parameter_at(parameters, i),
    }
}

/// The values of arguments, from left to right. `Memory` is want of memory.
pub fn values<'a>(
    alloc: Global,
    arguments: &'a [Expr],
    around: &Around<'a>,
) -> Result<Vec<Value>, Stop<Fault>>
    requires { AreLawful around.now.slots.now }
    ensures value { (names : Names) → IsToldIn names around.now → AllNumbers (items_of names around.now.index.now) (exprs_of names arguments.now)
        → MeetsOr (row_shown names result) (E.values (context_of names around.now) (exprs_of names arguments.now)) }
    ensures lawful { IfOk result (λ vs. All (λ v. IsLawful (seen v)) vs.items) }
{
    let mut row = Vec::new(alloc);
    for argument in arguments {
        let value = value(argument, around)?;
        row.push(value)?;
    }
    Ok(row)
}

/// A value as the argument for the parameter of a number.
pub fn argument_at(row: Row, i: usize, value: Value) -> Result<Value, Fault>
    requires { IsLawful (seen value) }
    ensures value { (names : Names) → Meets (shown names result) (by_nth E.assigned (row_types names row.entry) i (value_of names value)) }
    ensures lawful { IfOk result (λ v. IsLawful (seen v)) }
{
    match type_at(row, i) {
        Some(of) => assigned(of, value),
        None => Err(Fault::Kind),
    }
}

// Converts arguments to the types of parameters.
fn convert(row: Row, values: &mut [Value]) -> Result<(), Fault>
    requires { All (λ v. IsLawful (seen v)) values.old }
    ensures value { (names : Names) → Meets (result_map_both (λ _. values_of names values.new) (λ fault. fault) result) (R.arguments (row_types names row.entry) (values_of names values.old)) }
    ensures lawful { All (λ v. IsLawful (seen v)) values.new }
{
    for i in 0..values.len() {
        values[i] = argument_at(row, i, values[i])?;
    }
    Ok(())
}

/// The values of arguments for parameters of these types.
///
/// The faults are those of `cpc_eval`, from left to right. `Memory` is want of memory.
pub fn passed<'a>(
    alloc: Global,
    types: Row,
    arguments: &'a [Expr],
    around: &Around<'a>,
) -> Result<Vec<Value>, Stop<Fault>>
    requires { AreLawful around.now.slots.now }
    ensures value { (names : Names) → IsToldIn names around.now → AllNumbers (items_of names around.now.index.now) (exprs_of names arguments.now)
        → MeetsOr (row_shown names result) (passed (context_of names around.now) (row_types names types.entry) (exprs_of names arguments.now)) }
    ensures lawful { IfOk result (λ vs. All (λ v. IsLawful (seen v)) vs.items) }
{
    let mut row = values(alloc, arguments, around)?;
    stopped(convert(types, &mut row))?;
    Ok(row)
}
