//! What is to be done where a frame stands, all expressions there evaluated and the arguments kept. Nothing is changed yet.
ghost use Rattle.std.specs.Prelude.{◌≡◌, true, false, IfOk, Some};
ghost use Rattle.cpc_tree.specs.Erase.{Names as Texts, type_of, exprs_of, function_of};
ghost use Rattle.cpc_tree.specs.Typing as T;
ghost use Rattle.cpc_check_rules.specs.Apart.{Spells};
ghost use Rattle.cpc_store.specs.Seen.{seen, IsLawful};
ghost use Rattle.cpc_meaning.specs.Act as M;
ghost use Rattle.cpc_eval_values.specs.Shown.{value_of};
ghost use Rattle.cpc_eval_index.specs.Indexed.{items_of};
ghost use Rattle.cpc_native_points.specs.Finds.{found_of};
ghost use Rattle.cpc_eval.specs.Around.{context_of, IsToldIn};
ghost use Rattle.cpc_eval.specs.Numbers.{AllNumbers, FoundNumbers};
ghost use Rattle.cpc_eval.specs.Shapes.{shape_of};
ghost use Rattle.cpc_eval.specs.Spots.{AreLawful};
ghost use Rattle.cpc_tree.specs.PrimitiveNames.{primitive_of};
ghost use Rattle.cpc_native_builtins.specs.Served.{IsServedCall, is_served_found, is_served_program};
ghost use Rattle.cpc_native_plans.specs.Calls.{calls_code, calls_host};
ghost use Rattle.cpc_native_plans.specs.Parts.{is_call_found};
ghost use Rattle.cpc_native_acts.specs.Deeds.{takes_call, Plans, IsLawfulDeed, IsServedDeed, IsTakenDeed};
ghost use Rattle.cpc_native_plans.specs.Plans.{planned, asks_for, IsSound, IsLawfulPlan, IsServedPlan, is_call_plan};

use crate::taken::{asked_with, longs};
use cpc_base::{Name, Names, Stop};
use cpc_eval::{Around, Shape, Spot};
use cpc_native_builtins::Call;
use cpc_native_plans::{Plan, Row, passed, value_called};
use cpc_native_points::Found;
use cpc_num::Fault;
use cpc_store::Value;
use cpc_tree::primitive::Primitive;
use cpc_tree::program::{CType, Expr, Function};
use std::alloc::Global;

/// What is to be done.
#[derive(Drop)]
pub(crate) enum Deed {
    /// Control goes on, as a test holds or not.
    Passes(bool),
    /// A value is written to a place, and control goes on.
    Writes(Spot, Value),
    /// The function of this name is entered.
    Enters(Name, Vec<Value>),
    /// The function is left.
    Leaves(Value),
    /// The machine is asked.
    Asks(Call, Vec<Value>),
}

// The function that a value of this type is the code of is entered.
fn calls<'a>(
    alloc: Global,
    called: Value,
    shape: Shape<'a>,
    arguments: &'a [Expr],
    around: &Around<'a>,
) -> Result<Deed, Stop<Fault>>
    requires { AreLawful around.now.slots.now }
    ensures value { (names : Texts) → IsToldIn names around.now → AllNumbers (items_of names around.now.index.now) (exprs_of names arguments.now)
        → Plans names (context_of names around.now) result (calls_code (context_of names around.now) (shape_of names shape.entry) (value_of names called) (exprs_of names arguments.now)) }
    ensures lawful { IfOk result (λ d. IsLawfulDeed d) }
    ensures served { IfOk result (λ d. IsServedDeed d) }
    ensures takes { IfOk result (λ d. IsTakenDeed d) }
{
    let (name, row) = value_called(alloc, called, shape, arguments, around)?;
    Ok(Deed::Enters(name, row))
}

// The function of a name is entered.
fn enters<'a>(
    alloc: Global,
    name: Name,
    function: &'a Function,
    arguments: &'a [Expr],
    around: &Around<'a>,
) -> Result<Deed, Stop<Fault>>
    requires { AreLawful around.now.slots.now }
    ensures value { (names : Texts) → IsToldIn names around.now → Some (function_of names function.now) ≡ T.function_named (items_of names around.now.index.now) (names name) → AllNumbers (items_of names around.now.index.now) (exprs_of names arguments.now)
        → Plans names (context_of names around.now) result (M.calls (context_of names around.now) (function_of names function.now) (exprs_of names arguments.now)) }
    ensures lawful { IfOk result (λ d. IsLawfulDeed d) }
    ensures served { IfOk result (λ d. IsServedDeed d) }
    ensures takes { IfOk result (λ d. IsTakenDeed d) }
{
    let row = passed(
        alloc,
        Row::Parameters(&function.parameters),
        arguments,
        around,
    )?;
    Ok(Deed::Enters(name, row))
}

// A function of the host is asked for.
fn asks_host<'a>(
    alloc: Global,
    name: Name,
    arguments: &'a [Expr],
    around: &Around<'a>,
) -> Result<Deed, Stop<Fault>>
    requires { AreLawful around.now.slots.now }
    ensures value { (names : Texts) → IsToldIn names around.now → AllNumbers (items_of names around.now.index.now) (exprs_of names arguments.now)
        → Plans names (context_of names around.now) result (calls_host (context_of names around.now) (names name) (exprs_of names arguments.now)) }
    ensures lawful { IfOk result (λ d. IsLawfulDeed d) }
    ensures served { IfOk result (λ d. IsServedDeed d) }
    ensures takes { IfOk result (λ d. IsTakenDeed d) }
{
    let row = longs(alloc, arguments, around)?;
    Ok(Deed::Asks(Call::Host(name), row))
}

// A primitive is asked for.
fn asks_builtin<'a>(
    alloc: Global,
    builtin: Primitive,
    arguments: &'a [Expr],
    around: &Around<'a>,
) -> Result<Deed, Stop<Fault>>
    requires { AreLawful around.now.slots.now }
    ensures value { (names : Texts) → IsToldIn names around.now → AllNumbers (items_of names around.now.index.now) (exprs_of names arguments.now)
        → Plans names (context_of names around.now) result (M.asks_with (context_of names around.now) (primitive_of builtin) (exprs_of names arguments.now) (M.puts_text (primitive_of builtin) (exprs_of names arguments.now))) }
    ensures lawful { IfOk result (λ d. IsLawfulDeed d) }
    ensures served { IfOk result (λ d. IsServedCall (Call.Builtin builtin) → IsServedDeed d) }
    ensures takes { IfOk result (λ d. IsTakenDeed d) }
{
    let row = asked_with(alloc, builtin, arguments, around)?;
    Ok(Deed::Asks(Call::Builtin(builtin), row))
}

// The machine is asked.
fn asks<'a>(
    alloc: Global,
    call: Call,
    arguments: &'a [Expr],
    around: &Around<'a>,
) -> Result<Deed, Stop<Fault>>
    requires { AreLawful around.now.slots.now }
    ensures value { (names : Texts) → IsToldIn names around.now → AllNumbers (items_of names around.now.index.now) (exprs_of names arguments.now)
        → Plans names (context_of names around.now) result (asks_for names (context_of names around.now) call (exprs_of names arguments.now)) }
    ensures lawful { IfOk result (λ d. IsLawfulDeed d) }
    ensures served { IfOk result (λ d. IsServedCall call → IsServedDeed d) }
    ensures takes { IfOk result (λ d. IsTakenDeed d) }
{
    match call {
        Call::Builtin(builtin) => asks_builtin(alloc, builtin, arguments, around),
        Call::Host(name) => asks_host(alloc, name, arguments, around),
    }
}

// What a plan comes to, its arguments evaluated and kept.
#[tactic(auto, using(cpc_native_plans::proofs::Stopping::never_called))]
fn kept<'a>(alloc: Global, plan: Plan<'a>, around: &Around<'a>) -> Result<Deed, Stop<Fault>>
    requires slots { AreLawful around.now.slots.now }
    requires plan { IsLawfulPlan plan }
    ensures value { (names : Texts) → IsToldIn names around.now → IsSound names (context_of names around.now) plan.entry → Plans names (context_of names around.now) result (planned names (context_of names around.now) plan.entry) }
    ensures lawful { IfOk result (λ d. IsLawfulDeed d) }
    ensures served { IfOk result (λ d. IsServedPlan plan.entry → IsServedDeed d) }
    ensures takes { IfOk result (λ d. IsTakenDeed d) }
    ensures call { takes_call result ≡ true → is_call_plan plan.entry ≡ true }
{
    match plan {
        Plan::Passes(holds) => Ok(Deed::Passes(holds)),
        Plan::Writes(spot, value) => Ok(Deed::Writes(spot, value)),
        Plan::Calls(called, shape, arguments) => calls(alloc, called, shape, arguments, around),
        Plan::Enters(name, function, arguments) => {
            enters(alloc, name, function, arguments, around)
        }
        Plan::Leaves(value) => Ok(Deed::Leaves(value)),
        Plan::Asks(call, arguments) => asks(alloc, call, arguments, around),
    }
}

/// What is to be done at what stands at a point, in a function with this result.
///
/// - `Memory`: want of memory for the arguments of a call.
/// - The faults of `cpc_native_plans::found`, then those of `cpc_eval` of the arguments, from left to right, and `Unset`, `Null` and `Code`
///   of what is called.
#[tactic(auto, using(cpc_native_plans::proofs::Stopping::never_called))]
pub(crate) fn found<'a>(
    alloc: Global,
    of: &CType,
    there: Found<'a>,
    around: &Around<'a>,
    texts: &Names,
) -> Result<Deed, Stop<Fault>>
    requires { AreLawful around.now.slots.now }
    ensures value { (names : Texts) → IsToldIn names around.now → Spells texts.now names → is_served_program (items_of names around.now.index.now) ≡ true → is_served_found (found_of names there.entry) ≡ true → FoundNumbers (items_of names around.now.index.now) (found_of names there.entry)
        → Plans names (context_of names around.now) result (M.found_act (context_of names around.now) (type_of names of.now) (found_of names there.entry)) }
    ensures lawful { IfOk result (λ d. IsLawfulDeed d) }
    ensures served { IfOk result (λ d. (names : Texts) → Spells texts.now names → is_served_found (found_of names there.entry) ≡ true → IsServedDeed d) }
    ensures takes { IfOk result (λ d. IsTakenDeed d) }
    ensures call { (names : Texts) → takes_call result ≡ true → is_call_found (found_of names there.entry) ≡ true }
{
    match cpc_native_plans::found(of, there, around, texts) {
        Ok(plan) => kept(alloc, plan, around),
        Err(fault) => Err(Stop::Fault(fault)),
    }
}

/// What is to be done with a value that arrives at what stands at a point.
///
/// The faults are those of `cpc_eval`. No memory is taken.
#[tactic(auto, using(cpc_native_plans::proofs::Stopping::never_called))]
pub(crate) fn arrives<'a>(
    alloc: Global,
    there: Found<'a>,
    given: Value,
    around: &Around<'a>,
) -> Result<Deed, Stop<Fault>>
    requires slots { AreLawful around.now.slots.now }
    requires given { IsLawful (seen given) }
    ensures value { (names : Texts) → IsToldIn names around.now → FoundNumbers (items_of names around.now.index.now) (found_of names there.entry)
        → Plans names (context_of names around.now) result (M.arrives (context_of names around.now) (found_of names there.entry) (Some (value_of names given))) }
    ensures lawful { IfOk result (λ d. IsLawfulDeed d) }
    ensures served { IfOk result (λ d. IsServedDeed d) }
    ensures takes { IfOk result (λ d. IsTakenDeed d) }
    ensures call { takes_call result ≡ false }
{
    match cpc_native_plans::arrives(there, given, around) {
        Ok(plan) => kept(alloc, plan, around),
        Err(fault) => Err(Stop::Fault(fault)),
    }
}
