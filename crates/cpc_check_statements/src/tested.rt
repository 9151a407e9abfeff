//! What tests break.
ghost use Rattle.std.specs.Prelude.{◌≡◌, OnOk, option_map};
ghost use Rattle.cpc_tree.specs.Erase.{Names};
ghost use Rattle.cpc_tree.specs.Locate.{located_expr};
ghost use Rattle.cpc_check_rules.specs.Apart.{Spells};
ghost use Rattle.cpc_check_rules.specs.StmtRules as S;
ghost use Rattle.cpc_check_rules.specs.Noted.{noted, first_of};
ghost use Rattle.cpc_types.specs.Found.{found_of};
ghost use Rattle.cpc_check_values.specs.Stands.{where_of};

use cpc_base::{NoMemory, Place};
use cpc_check_rules::{First, Rule};
use cpc_check_values::{Where, first_place, value_rules};
use cpc_shapes::is_testable;
use cpc_tree::program::{Expr, Operand};
use cpc_types::{TypeFound, used};
use std::alloc::Global;

// Notes what has a type and cannot be tested.
fn note_tested(first: &mut First, found: TypeFound, place: Place)
    ensures { (names : Names) → first_of first.new ≡ noted (first_of first.old) (S.tested_breaks (found_of names found) place) }
{
    match found {
        TypeFound::Value(of) => first.note_if(!is_testable(&of), place, Rule::Disagree),
        TypeFound::Place(of) => match used(TypeFound::Place(of)) {
            Some(of) => first.note_if(!is_testable(&of), place, Rule::Disagree),
            None => first.note(place, Rule::Disagree),
        },
        TypeFound::Absent => {}
    }
}

/// Notes what a test breaks. `NoMemory` is want of memory.
pub(crate) fn test_rules(
    alloc: Global,
    first: &mut First,
    test: &Expr,
    w: &Where,
) -> Result<(), NoMemory>
    ensures { OnOk result ((names : Names) → Spells w.now.names.now names → first_of first.new ≡ noted (first_of first.old) (S.test_breaks (where_of names w.now) (located_expr names test.now))) }
{
    let found = value_rules(alloc, first, test, w)?;
    note_tested(first, found, first_place(test));
    Ok(())
}

/// Notes what a test breaks, where there is one. `NoMemory` is want of memory.
pub(crate) fn maybe_test_rules(
    alloc: Global,
    first: &mut First,
    test: &Option<Operand>,
    w: &Where,
) -> Result<(), NoMemory>
    ensures { OnOk result ((names : Names) → Spells w.now.names.now names → first_of first.new ≡ noted (first_of first.old) (S.maybe_test (where_of names w.now) (option_map (located_expr names) test.now))) }
{
    match test {
        Some(test) => test_rules(alloc, first, test.expr(), w),
        None => Ok(()),
    }
}
