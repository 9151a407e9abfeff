//! What assignments break.
ghost use Rattle.std.specs.Prelude.{◌≡◌, IfOk, OnOk, Some, ◌++◌, option_map};
ghost use Rattle.cpc_base.specs.declared.stop.Place as P;
ghost use Rattle.cpc_tree.specs.Erase.{Names, type_of, expr_of};
ghost use Rattle.cpc_tree.specs.Locate.{located_expr};
ghost use Rattle.cpc_tree.specs.Located as L;
ghost use Rattle.cpc_tree.specs.Typing as T;
ghost use Rattle.cpc_check_rules.specs.Apart.{AreApart, Spells};
ghost use Rattle.cpc_check_rules.specs.Operators as O;
ghost use Rattle.cpc_check_rules.specs.StmtRules as S;
ghost use Rattle.cpc_check_rules.specs.Noted.{noted, first_of};
ghost use Rattle.cpc_shapes.specs.Forms as F;
ghost use Rattle.cpc_types.specs.Found.{found_of};
ghost use Rattle.cpc_shapes.specs.Listed.{optional_of};
ghost use Rattle.cpc_types.specs.Scoped.{scope_of};
ghost use Rattle.cpc_check_values.specs.Stands.{where_of};
ghost use Rattle.cpc_check_statements.specs.Plain.{is_unfit, value_type};

use crate::places::target_rules;
use cpc_base::{NoMemory, Place};
use cpc_check_rules::{First, Rule};
use cpc_check_values::{Where, binary_rules, value_rules};
use cpc_num::Op;
use cpc_shapes::copy_of;
use cpc_tree::program::{CType, Expr};
use cpc_types::{Scope, TypeFound, is_null, takes_value, used};
use std::alloc::Global;

/// Whether an expression has a type, and is not assignable to this one.
pub(crate) fn is_unfit(of: &CType, e: &Expr, found: TypeFound) -> bool
    ensures { (names : Names) → AreApart names → result ≡ is_unfit (type_of names of.now) (expr_of names e.now) (found_of names found) }
{
    let null = is_null(e);
    match found {
        TypeFound::Value(u) => !takes_value(of, null, &u),
        TypeFound::Place(u) => match used(TypeFound::Place(u)) {
            Some(u) => !takes_value(of, null, &u),
            None => true,
        },
        TypeFound::Absent => false,
    }
}

/// The type of a value or a place.
fn type_in(found: &TypeFound) -> Option<&CType>
    ensures { (names : Names) → option_map (λ of. type_of names of.now) result ≡ option_map S.type_of (found_of names found.now) }
{
    match found {
        TypeFound::Value(of) => Some(of),
        TypeFound::Place(of) => Some(of),
        TypeFound::Absent => None,
    }
}

/// Notes a value that is not assignable to what it is written to, where both have types.
fn note_fit(first: &mut First, to: &TypeFound, e: &Expr, found: TypeFound, place: Place)
    ensures { (names : Names) → AreApart names → first_of first.new ≡ noted (first_of first.old) (S.fits_breaks (found_of names to.now) (located_expr names e.now) (found_of names found) place) }
{
    match type_in(to) {
        Some(of) => first.note_if(is_unfit(of, e, found), place, Rule::Disagree),
        None => {}
    }
}

/// Notes the result of a call or an operator that does not fit what it is written to, where both are there.
pub(crate) fn note_given(first: &mut First, to: &TypeFound, given: &Option<CType>, place: Place)
    ensures { (names : Names) → AreApart names → first_of first.new ≡ noted (first_of first.old) (S.given_breaks (found_of names to.now) (optional_of names given.now) place) }
{
    match type_in(to) {
        Some(of) => match given {
            Some(u) => first.note_if(!takes_value(of, false, u), place, Rule::Disagree),
            None => {}
        },
        None => {}
    }
}

// What was found, once more. `NoMemory` is want of memory.
fn found_again(alloc: Global, found: &TypeFound) -> Result<TypeFound, NoMemory>
    ensures { IfOk result (λ again. (names : Names) → found_of names again ≡ found_of names found.now) }
{
    match found {
        TypeFound::Value(of) => Ok(TypeFound::Value(copy_of(alloc, of)?)),
        TypeFound::Place(of) => Ok(TypeFound::Place(copy_of(alloc, of)?)),
        TypeFound::Absent => Ok(TypeFound::Absent),
    }
}

// The type of a value.
fn value_type(found: TypeFound) -> Option<CType>
    ensures { (names : Names) → optional_of names result ≡ value_type (found_of names found) }
{
    match found {
        TypeFound::Value(of) => Some(of),
        TypeFound::Place(_) => None,
        TypeFound::Absent => None,
    }
}

// Notes what an operator and its result break that goes to the left operand. `NoMemory` is want of memory.
fn update_rules(
    alloc: Global,
    first: &mut First,
    op: Op,
    nulls: (bool, bool),
    operands: (TypeFound, TypeFound),
    place: Place,
    scope: &Scope,
) -> Result<(), NoMemory>
    ensures { OnOk result ((names : Names) → AreApart names → let whole = F.binary_of (scope_of names scope.now).items op nulls.0 nulls.1 (found_of names operands.0) (found_of names operands.1) in first_of first.new ≡ noted (first_of first.old) (O.binary_breaks (scope_of names scope.now) op (found_of names operands.0) (found_of names operands.1) whole place ++ S.result_breaks (found_of names operands.0) whole place)) }
{
    let (to, found) = operands;
    let left = found_again(alloc, &to)?;
    let whole = binary_rules(alloc, first, op, nulls, (left, found), place, scope)?;
    note_given(first, &to, &value_type(whole), place);
    Ok(())
}

/// Notes what an assignment breaks, whose operator stands at a place. `NoMemory` is want of memory.
pub(crate) fn assign_rules(
    alloc: Global,
    first: &mut First,
    target: &Expr,
    op: Option<Op>,
    value: &Expr,
    place: Place,
    w: &Where,
) -> Result<(), NoMemory>
    ensures { OnOk result ((names : Names) → Spells w.now.names.now names → (q : P.Place) → first_of first.new ≡ noted (first_of first.old) (S.stmt_breaks (where_of names w.now) (L.Assign q place (located_expr names target.now) op (located_expr names value.now)))) }
{
    let to = target_rules(alloc, first, target, w)?;
    let found = value_rules(alloc, first, value, w)?;
    match op {
        Some(op) => {
            let nulls = (is_null(target), is_null(value));
            update_rules(alloc, first, op, nulls, (to, found), place, w.scope)
        }
        None => {
            note_fit(first, &to, value, found, place);
            Ok(())
        }
    }
}
