//! What locals break, and what they start with.
ghost use Rattle.std.specs.Prelude.{◌≡◌, OnOk, option_map, ◌++◌, not};
ghost use Rattle.cpc_tree.specs.Erase.{Names, type_of};
ghost use Rattle.cpc_tree.specs.Locate.{ident, located_expr};
ghost use Rattle.cpc_check_rules.specs.declared.rule.Rule.TheVariants.{Twice, Incomplete};
ghost use Rattle.cpc_check_rules.specs.Apart.{AreApart, Spells};
ghost use Rattle.cpc_check_rules.specs.Rule.{at_if};
ghost use Rattle.cpc_check_rules.specs.Scopes as R;
ghost use Rattle.cpc_check_rules.specs.StmtRules as S;
ghost use Rattle.cpc_check_rules.specs.Noted.{noted, first_of};
ghost use Rattle.cpc_types.specs.Scoped.{all_items, scope_of};
ghost use Rattle.cpc_check_values.specs.Stands.{where_of};
ghost use Rattle.cpc_check_statements.specs.Standing.{standing};

use crate::around::{Around, standing};
use crate::assigned::is_unfit;
use cpc_base::NoMemory;
use cpc_check_rules::{First, Rule};
use cpc_check_values::{Where, value_rules};
use cpc_tree::program::{CType, Operand, Word};
use cpc_types::{Scope, is_sized};
use std::alloc::Global;

/// Notes what the start of a variable breaks, whose name is in scope already. `NoMemory` is want of memory.
pub fn start_rules(
    alloc: Global,
    first: &mut First,
    word: Word,
    of: &CType,
    start: &Option<Operand>,
    w: &Where,
) -> Result<(), NoMemory>
    ensures { OnOk result ((names : Names) → Spells w.now.names.now names → first_of first.new ≡ noted (first_of first.old) (S.start_breaks (where_of names w.now) (ident names word) (type_of names of.now) (option_map (located_expr names) start.now))) }
{
    match start {
        Some(start) => {
            let e = start.expr();
            let found = value_rules(alloc, first, e, w)?;
            first.note_if(is_unfit(of, e, found), word.place, Rule::Disagree);
            Ok(())
        }
        None => Ok(()),
    }
}

// Notes a local whose name the block has already, or whose type is incomplete or oversized.
fn note_local(first: &mut First, word: Word, of: &CType, scope: &Scope)
    ensures { (names : Names) → AreApart names → first_of first.new ≡ noted (first_of first.old) (at_if (R.is_here (scope_of names scope.now).blocks (names word.name)) word.place Twice ++ at_if (not (R.is_sized (scope_of names scope.now) (type_of names of.now))) word.place Incomplete) }
{
    first.note_if(scope.is_here(word.name), word.place, Rule::Twice);
    first.note_if(!is_sized(of, scope), word.place, Rule::Incomplete);
}

/// Notes what a local breaks, and declares it. `NoMemory` is want of memory.
pub(crate) fn local_rules(
    alloc: Global,
    first: &mut First,
    word: Word,
    of: &CType,
    start: &Option<Operand>,
    scope: &mut Scope,
    around: &Around,
) -> Result<(), NoMemory>
    ensures noted { OnOk result ((names : Names) → Spells around.now.names.now names → first_of first.new ≡ noted (first_of first.old) (S.local_breaks (standing names scope.old around.now) (ident names word) (type_of names of.now) (option_map (located_expr names) start.now))) }
    ensures scope { OnOk result ((names : Names) → scope_of names scope.new ≡ R.with_name (scope_of names scope.old) (S.variable (ident names word) (type_of names of.now))) }
    ensures all { all_items scope.new ≡ all_items scope.old }
{
    note_local(first, word, of, scope);
    scope.declare(word.name, of)?;
    start_rules(alloc, first, word, of, start, &standing(around, scope))
}

/// Notes what a local breaks that is declared where no row of statements stands: it is in scope nowhere but in its own
/// start. `NoMemory` is want of memory.
pub(crate) fn lone_rules(
    alloc: Global,
    first: &mut First,
    word: Word,
    of: &CType,
    start: &Option<Operand>,
    scope: &mut Scope,
    around: &Around,
) -> Result<(), NoMemory>
    ensures noted { OnOk result ((names : Names) → Spells around.now.names.now names → first_of first.new ≡ noted (first_of first.old) (S.local_breaks (standing names scope.old around.now) (ident names word) (type_of names of.now) (option_map (located_expr names) start.now))) }
    ensures scope { OnOk result ((names : Names) → scope_of names scope.new ≡ scope_of names scope.old) }
    ensures all { all_items scope.new ≡ all_items scope.old }
{
    note_local(first, word, of, scope);
    scope.enter_block()?;
    scope.declare(word.name, of)?;
    start_rules(alloc, first, word, of, start, &standing(around, scope))?;
    scope.leave_block();
    Ok(())
}
