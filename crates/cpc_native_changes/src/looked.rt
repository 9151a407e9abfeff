//! What is looked at before a step is made: whether expressions have values, and whether a value would arrive. Nothing is
//! kept or changed, and no memory is taken.
ghost use Rattle.std.specs.Prelude.{◌≡◌, true, Some, option_map};
ghost use Rattle.cpc_tree.specs.Erase.{Names as Texts, expr_of, exprs_of};
ghost use Rattle.cpc_store.specs.Store as S;
ghost use Rattle.cpc_store.specs.Seen.{seen, IsLawful};
ghost use Rattle.cpc_meaning.specs.Act as M;
ghost use Rattle.cpc_meaning.specs.Eval as E;
ghost use Rattle.cpc_eval_values.specs.Shown.{value_of, store_of};
ghost use Rattle.cpc_eval_index.specs.Indexed.{items_of};
ghost use Rattle.cpc_native_points.specs.Finds.{found_of};
ghost use Rattle.cpc_eval.specs.Around.{context_of, IsToldIn};
ghost use Rattle.cpc_eval.specs.Numbers.{HasNumbers, AllNumbers, FoundNumbers};
ghost use Rattle.cpc_eval.specs.Shapes.{shape_of};
ghost use Rattle.cpc_eval.specs.Spots.{spot_of, AreLawful};
ghost use Rattle.cpc_native_plans.specs.Stops.{IsGiven};
ghost use Rattle.cpc_native_plans.specs.Rows.{row_types, passed_nth, passed};
ghost use Rattle.cpc_native_plans.specs.Calls.{called_with, IsNamed};
ghost use Rattle.cpc_native_plans.specs.Plans.{planned, is_plain};

use cpc_base::Name;
use cpc_eval::{Around, Shape, Spot, value};
use cpc_native_plans::{Plan, Row, argument_at, arrives, callee, parameters_of};
use cpc_native_points::Found;
use cpc_store::{Store, Value};
use cpc_tree::program::Expr;

// Whether an argument has a value for the parameter of a number.
fn is_passed_at<'a>(types: Row, i: usize, argument: &'a Expr, around: &Around<'a>) -> bool
    requires { AreLawful around.now.slots.now }
    ensures { (names : Texts) → IsToldIn names around.now → HasNumbers (items_of names around.now.index.now) (expr_of names argument.now)
        → IsGiven result (passed_nth (context_of names around.now) (row_types names types.entry) i (expr_of names argument.now)) }
{
    match value(argument, around) {
        Ok(value) => argument_at(types, i, value).is_ok(),
        Err(_) => false,
    }
}

/// Whether arguments have values for parameters of these types.
pub(crate) fn is_passed<'a>(types: Row, arguments: &'a [Expr], around: &Around<'a>) -> bool
    requires { AreLawful around.now.slots.now }
    ensures { (names : Texts) → IsToldIn names around.now → AllNumbers (items_of names around.now.index.now) (exprs_of names arguments.now)
        → IsGiven result (passed (context_of names around.now) (row_types names types.entry) (exprs_of names arguments.now)) }
{
    for (i, argument) in arguments.iter().enumerate() {
        if !is_passed_at(types, i, argument, around) {
            return false;
        }
    }
    true
}

/// The name of the function that a code of a type calls, where its arguments have values.
pub(crate) fn code_entered<'a>(
    called: Value,
    shape: Shape,
    arguments: &'a [Expr],
    around: &Around<'a>,
) -> Option<Name>
    requires { AreLawful around.now.slots.now }
    ensures { (names : Texts) → IsToldIn names around.now → AllNumbers (items_of names around.now.index.now) (exprs_of names arguments.now)
        → IsNamed (option_map names result) (called_with (context_of names around.now) (shape_of names shape.entry) (value_of names called) (exprs_of names arguments.now)) }
{
    if is_passed(parameters_of(shape), arguments, around) {
        callee(called, shape, around.index).ok()
    } else {
        None
    }
}

// Whether a value can be written to a place.
fn is_written(spot: Spot, store: &Store) -> bool
    ensures { (names : Texts) (c : E.Context) (v : S.Value) → c.store ≡ store_of names store.now → IsGiven result (M.write c (spot_of spot) v) }
{
    match spot {
        Spot::Slot(_) => true,
        Spot::Cell(block, offset) => match store.size(block) {
            Some(size) => offset < size,
            None => false,
        },
    }
}

// Whether what control goes on after can be done.
fn is_done(plan: Plan<'_>, store: &Store) -> bool
    requires { is_plain plan ≡ true }
    ensures { (names : Texts) (c : E.Context) → c.store ≡ store_of names store.now → IsGiven result (planned names c plan.entry) }
{
    match plan {
        Plan::Passes(_) => true,
        Plan::Writes(spot, _) => is_written(spot, store),
        _ => unreachable!(),
    }
}

/// Whether a value can arrive at what stands there.
pub(crate) fn is_delivered<'a>(there: Found<'a>, given: Value, around: &Around<'a>) -> bool
    requires slots { AreLawful around.now.slots.now }
    requires given { IsLawful (seen given) }
    ensures { (names : Texts) → IsToldIn names around.now → FoundNumbers (items_of names around.now.index.now) (found_of names there.entry)
        → IsGiven result (M.arrives (context_of names around.now) (found_of names there.entry) (Some (value_of names given))) }
{
    match arrives(there, given, around) {
        Ok(plan) => is_done(plan, around.store),
        Err(_) => false,
    }
}
