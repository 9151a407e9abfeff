//! Assignments: what is written, and where.
ghost use Rattle.std.specs.Prelude.{Option, Ok, IfOk, option_map};
ghost use Rattle.cpc_tree.specs.Erase.{Names, type_of, expr_of};
ghost use Rattle.cpc_tree.specs.Syntax as Y;
ghost use Rattle.cpc_tree.specs.Syntax.{ENamed};
ghost use Rattle.cpc_store.specs.Seen.{seen, IsLawful};
ghost use Rattle.cpc_meaning.specs.Act as M;
ghost use Rattle.cpc_meaning.specs.Eval as E;
ghost use Rattle.cpc_eval_values.specs.Meets.{Meets};
ghost use Rattle.cpc_eval_values.specs.Shown.{value_of, shown};
ghost use Rattle.cpc_eval_index.specs.Indexed.{items_of};
ghost use Rattle.cpc_eval.specs.Around.{context_of, IsToldIn, type_in};
ghost use Rattle.cpc_eval.specs.Numbers.{HasNumbers, MaybeNumbers};
ghost use Rattle.cpc_eval.specs.Shapes.{types_of, Agrees};
ghost use Rattle.cpc_eval.specs.Spots.{spot_of, AreLawful};
ghost use Rattle.cpc_native_plans.specs.Parts.{aimed, aim_seen, returned, test_held};

use cpc_base::Name;
use cpc_eval::{
    Around, Located, Spot, assigned_at, given, located, located_name, operate_on, place_of, value,
};
use cpc_eval_values::{assigned, holds};
use cpc_num::{Fault, Op};
use cpc_store::Value;
use cpc_tree::program::{CType, Expr, Operand};

/// The right side of an assignment with or without an operator.
///
/// The faults are those of `cpc_eval`.
pub(crate) fn right_value<'a>(
    op: Option<Op>,
    target: &'a Expr,
    right: &'a Expr,
    around: &Around<'a>,
) -> Result<Value, Fault>
    requires { AreLawful around.now.slots.now }
    ensures value { (names : Names) → IsToldIn names around.now → HasNumbers (items_of names around.now.index.now) (expr_of names target.now) → HasNumbers (items_of names around.now.index.now) (expr_of names right.now)
        → Meets (shown names result) (E.value (context_of names around.now) (M.right_side op (expr_of names target.now) (expr_of names right.now))) }
    ensures lawful { IfOk result (λ v. IsLawful (seen v)) }
{
    match op {
        None => value(right, around),
        Some(op) => {
            let first = given(target, around)?;
            let second = given(right, around)?;
            operate_on(op, first, second, around)
        }
    }
}

// A place, and a value converted to its type.
fn at_place(there: Located, given: Value) -> Result<(Spot, Value), Fault>
    requires { IsLawful (seen given) }
    ensures value { (names : Names) (c : E.Context) (e : Y.Expr) → Meets (Ok (spot_of there.entry.spot)) (E.place c e) → Agrees (types_of names there.entry.typed) (type_in c e)
        → Meets (aim_seen names result) (aimed c e (value_of names given)) }
    ensures lawful { IfOk result (λ q. IsLawful (seen q.1)) }
{
    let written = assigned_at(place_of(there.typed), given)?;
    Ok((there.spot, written))
}

/// A place, and a value converted to its type.
///
/// The faults are those of `cpc_eval`.
pub(crate) fn aimed<'a>(
    target: &'a Expr,
    given: Value,
    around: &Around<'a>,
) -> Result<(Spot, Value), Fault>
    requires slots { AreLawful around.now.slots.now }
    requires given { IsLawful (seen given) }
    ensures value { (names : Names) → IsToldIn names around.now → HasNumbers (items_of names around.now.index.now) (expr_of names target.now)
        → Meets (aim_seen names result) (aimed (context_of names around.now) (expr_of names target.now) (value_of names given)) }
    ensures lawful { IfOk result (λ q. IsLawful (seen q.1)) }
{
    let there = located(target, around)?;
    at_place(there, given)
}

/// The place of a name, and a value converted to its type.
pub(crate) fn aimed_at(
    name: Name,
    given: Value,
    around: &Around<'_>,
) -> Result<(Spot, Value), Fault>
    requires slots { AreLawful around.now.slots.now }
    requires given { IsLawful (seen given) }
    ensures value { (names : Names) → IsToldIn names around.now
        → Meets (aim_seen names result) (aimed (context_of names around.now) (ENamed (names name)) (value_of names given)) }
    ensures lawful { IfOk result (λ q. IsLawful (seen q.1)) }
{
    let there = located_name(name, around)?;
    at_place(there, given)
}

/// The value of a return, converted to the type of the result; without an expression it is unset.
///
/// The faults are those of `cpc_eval`.
pub(crate) fn returned<'a>(
    of: &CType,
    given: &'a Option<Operand>,
    around: &Around<'a>,
) -> Result<Value, Fault>
    requires { AreLawful around.now.slots.now }
    ensures value { (names : Names) → IsToldIn names around.now → MaybeNumbers (items_of names around.now.index.now) (option_map (expr_of names) given.now)
        → Meets (shown names result) (returned (context_of names around.now) (type_of names of.now) (option_map (expr_of names) given.now)) }
    ensures lawful { IfOk result (λ v. IsLawful (seen v)) }
{
    match given {
        Some(given) => {
            let value = value(given.expr(), around)?;
            assigned(of, value)
        }
        None => Ok(Value::Unset),
    }
}

/// Whether a test holds; an absent one does.
///
/// `Unset`: its value is unset. The other faults are those of `cpc_eval`.
pub(crate) fn test_held<'a>(test: Option<&'a Expr>, around: &Around<'a>) -> Result<bool, Fault>
    requires { AreLawful around.now.slots.now }
    ensures value { (names : Names) → IsToldIn names around.now → MaybeNumbers (items_of names around.now.index.now) (option_map (λ e. expr_of names e.now) test.entry)
        → Meets result (test_held (context_of names around.now) (option_map (λ e. expr_of names e.now) test.entry)) }
{
    match test {
        Some(test) => {
            let value = value(test, around)?;
            holds(value)
        }
        None => Ok(true),
    }
}
