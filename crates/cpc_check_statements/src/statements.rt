//! What statements break. A body is walked once, and its blocks are entered and left.
ghost use Rattle.std.specs.Prelude.{◌≡◌, OnOk};
ghost use Rattle.cpc_tree.specs.Erase.{Names};
ghost use Rattle.cpc_tree.specs.Locate.{located_stmt, located_list, located_at};
ghost use Rattle.cpc_check_rules.specs.Apart.{Spells};
ghost use Rattle.cpc_check_rules.specs.ItemRules as I;
ghost use Rattle.cpc_check_rules.specs.StmtRules as S;
ghost use Rattle.cpc_check_rules.specs.Noted.{noted, first_of};
ghost use Rattle.cpc_types.specs.Blocks.{without_block};
ghost use Rattle.cpc_types.specs.Scoped.{all_items, scope_of};
ghost use Rattle.cpc_check_statements.specs.Standing.{standing, behind_body};
ghost use Rattle.cpc_check_statements.specs.Plain.{for_breaks};

use crate::around::{Around, standing};
use crate::locals::{local_rules, lone_rules};
use crate::plain::plain_rules;
use crate::tested::{maybe_test_rules, test_rules};
use cpc_base::NoMemory;
use cpc_check_rules::First;
use cpc_tree::program::Statement;
use cpc_types::Scope;
use std::alloc::Global;

/// Notes what a statement breaks that stands in no row, as that of a loop. The scope is as it was. `NoMemory` is want of
/// memory, after which some blocks may be entered and not left.
#[cycle(statements)]
fn statement_rules(
    alloc: Global,
    first: &mut First,
    s: &Statement,
    scope: &mut Scope,
    around: &Around,
) -> Result<(), NoMemory>
    ensures noted { OnOk result ((names : Names) → Spells around.now.names.now names → first_of first.new ≡ noted (first_of first.old) (S.stmt_breaks (standing names scope.old around.now) (located_stmt names s.now))) }
    ensures scope { OnOk result ((names : Names) → scope_of names scope.new ≡ scope_of names scope.old) }
    ensures all { all_items scope.new ≡ all_items scope.old }
{
    match s {
        Statement::Block { inner, .. } => block_rules(alloc, first, inner, scope, around),
        Statement::Declare {
            word,
            of,
            start,
            ..
        } => lone_rules(alloc, first, *word, of, start, scope, around),
        Statement::If { test, yes, no, .. } => {
            test_rules(alloc, first, test.expr(), &standing(around, scope))?;
            statement_rules(alloc, first, yes, scope, around)?;
            maybe_rules(alloc, first, no, scope, around)
        }
        Statement::While { test, body, .. } => {
            test_rules(alloc, first, test.expr(), &standing(around, scope))?;
            statement_rules(alloc, first, body, scope, around)
        }
        Statement::DoWhile { body, test, .. } => {
            statement_rules(alloc, first, body, scope, around)?;
            test_rules(alloc, first, test.expr(), &standing(around, scope))
        }
        Statement::For { .. } => for_rules(alloc, first, s, scope, around),
        Statement::Label { inner, .. } => statement_rules(alloc, first, inner, scope, around),
        _ => plain_rules(alloc, first, s, &standing(around, scope)),
    }
}

// Notes what a statement breaks that may be absent.
#[cycle(statements)]
fn maybe_rules(
    alloc: Global,
    first: &mut First,
    s: &Option<Box<Statement>>,
    scope: &mut Scope,
    around: &Around,
) -> Result<(), NoMemory>
    ensures noted { OnOk result ((names : Names) → Spells around.now.names.now names → first_of first.new ≡ noted (first_of first.old) (S.maybe_breaks (standing names scope.old around.now) (located_at names s.now))) }
    ensures scope { OnOk result ((names : Names) → scope_of names scope.new ≡ scope_of names scope.old) }
    ensures all { all_items scope.new ≡ all_items scope.old }
{
    match s {
        Some(s) => statement_rules(alloc, first, s, scope, around),
        None => Ok(()),
    }
}

// Notes what a `for` breaks, whose first part is in scope in all of it.
#[cycle(statements)]
fn for_rules(
    alloc: Global,
    first: &mut First,
    s: &Statement,
    scope: &mut Scope,
    around: &Around,
) -> Result<(), NoMemory>
    ensures noted { OnOk result ((names : Names) → Spells around.now.names.now names → first_of first.new ≡ noted (first_of first.old) (for_breaks (standing names scope.old around.now) (located_stmt names s.now))) }
    ensures scope { OnOk result ((names : Names) → scope_of names scope.new ≡ scope_of names scope.old) }
    ensures all { all_items scope.new ≡ all_items scope.old }
{
    match s {
        Statement::For {
            first: row,
            test,
            step,
            body,
            ..
        } => {
            scope.enter_block()?;
            row_rules(alloc, first, row, scope, around)?;
            maybe_test_rules(alloc, first, test, &standing(around, scope))?;
            maybe_rules(alloc, first, step, scope, around)?;
            statement_rules(alloc, first, body, scope, around)?;
            scope.leave_block();
            Ok(())
        }
        _ => Ok(()),
    }
}

// Notes what the statements of a block break.
#[cycle(statements)]
fn block_rules(
    alloc: Global,
    first: &mut First,
    row: &[Statement],
    scope: &mut Scope,
    around: &Around,
) -> Result<(), NoMemory>
    ensures noted { OnOk result ((names : Names) → Spells around.now.names.now names → first_of first.new ≡ noted (first_of first.old) (S.stmts_breaks (S.inner (standing names scope.old around.now)) (located_list names row.now))) }
    ensures scope { OnOk result ((names : Names) → scope_of names scope.new ≡ scope_of names scope.old) }
    ensures all { all_items scope.new ≡ all_items scope.old }
{
    scope.enter_block()?;
    row_rules(alloc, first, row, scope, around)?;
    scope.leave_block();
    Ok(())
}

// Notes what a row of statements breaks, and declares what it declares.
#[cycle(statements)]
fn row_rules(
    alloc: Global,
    first: &mut First,
    row: &[Statement],
    scope: &mut Scope,
    around: &Around,
) -> Result<(), NoMemory>
    ensures noted { OnOk result ((names : Names) → Spells around.now.names.now names → first_of first.new ≡ noted (first_of first.old) (S.stmts_breaks (standing names scope.old around.now) (located_list names row.now))) }
    ensures scope { OnOk result ((names : Names) → scope_of names scope.new ≡ (S.all_behind (standing names scope.old around.now) (located_list names row.now)).scope) }
    ensures all { all_items scope.new ≡ all_items scope.old }
{
    for s in row {
        next_rules(alloc, first, s, scope, around)?;
    }
    Ok(())
}

// Notes what a statement of a row breaks, and declares what it declares.
#[cycle(statements)]
fn next_rules(
    alloc: Global,
    first: &mut First,
    s: &Statement,
    scope: &mut Scope,
    around: &Around,
) -> Result<(), NoMemory>
    ensures noted { OnOk result ((names : Names) → Spells around.now.names.now names → first_of first.new ≡ noted (first_of first.old) (S.stmt_breaks (standing names scope.old around.now) (located_stmt names s.now))) }
    ensures scope { OnOk result ((names : Names) → scope_of names scope.new ≡ (S.behind (standing names scope.old around.now) (located_stmt names s.now)).scope) }
    ensures all { all_items scope.new ≡ all_items scope.old }
{
    match s {
        Statement::Declare {
            word,
            of,
            start,
            ..
        } => local_rules(alloc, first, *word, of, start, scope, around),
        _ => statement_rules(alloc, first, s, scope, around),
    }
}

/// Notes what the statements of a function's body break, where the function and its parameters are in scope. The locals
/// of the body are in the innermost block afterwards, beside the parameters. `NoMemory` is want of memory, after which
/// some blocks may be entered and not left.
pub fn body_rules(
    alloc: Global,
    first: &mut First,
    body: &Statement,
    scope: &mut Scope,
    around: &Around,
) -> Result<(), NoMemory>
    ensures noted { OnOk result ((names : Names) → Spells around.now.names.now names → first_of first.new ≡ noted (first_of first.old) (I.body_breaks (standing names scope.old around.now) (located_stmt names body.now))) }
    ensures left { OnOk result ((names : Names) → without_block (scope_of names scope.new) ≡ without_block (scope_of names scope.old)) }
    ensures scope { OnOk result ((names : Names) → scope_of names scope.new ≡ (behind_body (standing names scope.old around.now) (located_stmt names body.now)).scope) }
    ensures all { all_items scope.new ≡ all_items scope.old }
{
    match body {
        Statement::Block { inner, .. } => row_rules(alloc, first, inner, scope, around),
        _ => Ok(()),
    }
}
