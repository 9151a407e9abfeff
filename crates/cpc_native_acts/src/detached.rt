//! The arguments of `rt_detach`: a callback and its pointer, and what the function takes that the third one is the code of.
ghost use Rattle.std.specs.Prelude.{◌≡◌, ◌≤◌, List, IfOk, IfSome, OnOk, None, Some, option_map, length, true};
ghost use Rattle.std.specs.List.{All};
ghost use Rattle.std.specs.Result.{result_map_both};
ghost use Rattle.cpc_tree.specs.Erase.{Names, function_of, exprs_of};
ghost use Rattle.cpc_tree.specs.Primitives as P;
ghost use Rattle.cpc_check_rules.specs.Apart.{AreApart};
ghost use Rattle.cpc_store.specs.Seen.{seen, IsLawful};
ghost use Rattle.cpc_meaning.specs.Requests as R;
ghost use Rattle.cpc_eval_values.specs.Meets.{Meets};
ghost use Rattle.cpc_eval_values.specs.Shown.{value_of, values_of, shown};
ghost use Rattle.cpc_eval_index.specs.Indexed.{items_of};
ghost use Rattle.cpc_eval.specs.Around.{context_of, IsToldIn};
ghost use Rattle.cpc_eval.specs.Numbers.{AllNumbers};
ghost use Rattle.cpc_eval.specs.Spots.{AreLawful};
ghost use Rattle.cpc_native_plans.specs.Stops.{MeetsOr, row_shown};
ghost use Rattle.cpc_native_acts.specs.Taken.{is_detached};
ghost use Rattle.cpc_native_plans.specs.Rows.{by_nth, code_in, third_code, detached_with, asked_with};

use crate::fits::are_taken;
use crate::taken::taken_at;
use cpc_base::{Name, Stop};
use cpc_eval::Around;
use cpc_eval_index::Index;
use cpc_eval_values::{Taken, assigned, at_type, taken_as};
use cpc_native_builtins::takes;
use cpc_native_plans::{parameter_at, stopped, values};
use cpc_num::Fault;
use cpc_store::{Scalar, Value};
use cpc_tree::primitive::Primitive;
use cpc_tree::program::{Expr, Function};
use std::alloc::Global;

// The name of the function that a value is the code of.
fn code_in(value: Value) -> Option<Name>
    ensures { result ≡ code_in value }
{
    match value {
        Value::Code(name) => Some(name),
        _ => None,
    }
}

// The name of the function that the third value is the code of.
fn third_code(values: &[Value]) -> Option<Name>
    ensures value { result ≡ third_code values.now }
    ensures third { IfSome result (λ name. 3 ≤ length values.now) }
{
    if values.len() < 3 {
        None
    } else {
        code_in(values[2])
    }
}

// A value as the function of a section takes the argument of a number. The code of the function itself is the first of them,
// then come a pointer that is set, and values that may be unset.
fn section_at(function: &Function, i: usize, value: Value) -> Result<Value, Fault>
    requires { IsLawful (seen value) }
    ensures value { (names : Names) → Meets (shown names result) (by_nth R.taken_as (R.detach_takes (Some (function_of names function.now))) i (value_of names value)) }
    ensures lawful { IfOk result (λ v. IsLawful (seen v)) }
{
    if i == 0 {
        return taken_as(Taken::SetOf(Scalar::Code), value);
    }
    match parameter_at(&function.parameters, i - 1) {
        Some(of) => {
            if i == 1 {
                at_type(of, value)
            } else {
                assigned(of, value)
            }
        }
        None => Err(Fault::Kind),
    }
}

// A value as `rt_detach` takes the argument of a number, where the section is one of this function.
fn detached_at(function: Option<&Function>, i: usize, value: Value) -> Result<Value, Fault>
    requires { IsLawful (seen value) }
    ensures value { (names : Names) → Meets (shown names result) (by_nth R.taken_as (detached_with (option_map (λ f. function_of names f.now) function.entry)) i (value_of names value)) }
    ensures lawful { IfOk result (λ v. IsLawful (seen v)) }
{
    if i < 2 {
        return taken_at(takes(Primitive::RtDetach), i, value);
    }
    match function {
        Some(function) => section_at(function, i - 2, value),
        None => Err(Fault::Kind),
    }
}

// Makes of arguments what `rt_detach` takes, where the section is one of this function.
fn take_by(function: Option<&Function>, values: &mut [Value]) -> Result<(), Fault>
    requires { All (λ v. IsLawful (seen v)) values.old }
    ensures value { (names : Names) → Meets (result_map_both (λ _. values_of names values.new) (λ fault. fault) result) (R.all_taken (detached_with (option_map (λ f. function_of names f.now) function.entry)) (values_of names values.old)) }
    ensures lawful { All (λ v. IsLawful (seen v)) values.new }
{
    for i in 0..values.len() {
        values[i] = detached_at(function, i, values[i])?;
    }
    Ok(())
}

// Whether values are what `rt_detach` is asked with.
fn is_detached(values: &[Value]) -> bool
    ensures { result ≡ is_detached values.now }
{
    match third_code(values) {
        Some(_) => are_taken(takes(Primitive::RtDetach), &values[..2]),
        None => values.is_empty(),
    }
}

// Makes of arguments what `rt_detach` takes. `Kind` where they are no such row, of which no rule says anything.
fn take_detached(index: &Index, values: &mut [Value]) -> Result<(), Fault>
    requires { All (λ v. IsLawful (seen v)) values.old }
    ensures value { (names : Names) → AreApart names → Meets (result_map_both (λ _. values_of names values.new) (λ fault. fault) result) (R.all_taken (R.takes (items_of names index.now) P.RtDetach (values_of names values.old)) (values_of names values.old)) }
    ensures lawful { All (λ v. IsLawful (seen v)) values.new }
    ensures takes { OnOk result (is_detached values.new ≡ true) }
{
    match third_code(values) {
        Some(name) => {
            take_by(index.function(name), values)?;
            if is_detached(values) {
                Ok(())
            } else {
                Err(Fault::Kind)
            }
        }
        None => {
            if values.is_empty() {
                Ok(())
            } else {
                Err(Fault::Kind)
            }
        }
    }
}

/// The values of arguments of `rt_detach`, as it takes them.
///
/// The faults are those of `cpc_eval`, from left to right, and then `Unset` of the first that is to be set.
pub(crate) fn detached<'a>(
    alloc: Global,
    arguments: &'a [Expr],
    around: &Around<'a>,
) -> Result<Vec<Value>, Stop<Fault>>
    requires { AreLawful around.now.slots.now }
    ensures value { (names : Names) → IsToldIn names around.now → AllNumbers (items_of names around.now.index.now) (exprs_of names arguments.now)
        → MeetsOr (row_shown names result) (asked_with (context_of names around.now) P.RtDetach (exprs_of names arguments.now) None) }
    ensures lawful { IfOk result (λ vs. All (λ v. IsLawful (seen v)) vs.items) }
    ensures takes { IfOk result (λ vs. is_detached vs.items ≡ true) }
{
    let mut row = values(alloc, arguments, around)?;
    stopped(take_detached(around.index, &mut row))?;
    Ok(row)
}
