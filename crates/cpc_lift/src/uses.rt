//! The variables that nodes use.
ghost use Rattle.std.specs.Prelude.{◌≡◌, ◌++◌, OnOk, option_map, if◌then◌else◌, []};
ghost use Rattle.cpc_tree.specs.Erase.{Names, stmt_of, expr_of, exprs_of};
ghost use Rattle.cpc_check_rules.specs.Apart.{AreApart};
ghost use Rattle.cpc_forms_code.specs.Seen.{stood_seen, AreNamed};
ghost use Rattle.cpc_lift_closures.specs.Rows.{links_of};
ghost use Rattle.cpc_lift_laws.specs.Nodes.{links_to};
ghost use Rattle.cpc_lift_laws.specs.Used as U;
ghost use Rattle.cpc_meaning.specs.Act.{target_of};
ghost use Rattle.cpc_tree.specs.Points as P;
ghost use Rattle.cpc_lift.specs.Scoped.{scope_at, started};

use crate::names::{Scoped, add_all_used, add_name, add_used, add_used_if};
use cpc_base::NoMemory;
use cpc_forms_code::Stood;
use cpc_lift_closures::Link;
use cpc_tree::program::{Expr, Operand, Statement, Word};
use std::alloc::Global;

// Adds the variables of two expressions.
fn add_both(
    first: &Expr,
    second: &Expr,
    at: &Scoped<'_>,
    found: &mut Vec<usize>,
) -> Result<(), NoMemory>
    ensures { OnOk result ((names : Names) → AreApart names → AreNamed names at.now.variables.now
        → found.new.items ≡ found.old.items ++ (U.used_in (scope_at names at.now) (expr_of names first.now) ++ U.used_in (scope_at names at.now) (expr_of names second.now))) }
{
    add_used(first, at, found)?;
    add_used(second, at, found)
}

// Adds the variables of a call.
fn add_call(
    target: &Option<Operand>,
    function: &Expr,
    arguments: &[Expr],
    at: &Scoped<'_>,
    found: &mut Vec<usize>,
) -> Result<(), NoMemory>
    ensures { OnOk result ((names : Names) → AreApart names → AreNamed names at.now.variables.now
        → found.new.items ≡ found.old.items ++ (U.used_if (scope_at names at.now) (option_map (expr_of names) target.now) ++ (U.used_in (scope_at names at.now) (expr_of names function.now) ++ U.used_among (scope_at names at.now) (exprs_of names arguments.now)))) }
{
    add_used_if(target, at, found)?;
    add_used(function, at, found)?;
    add_all_used(arguments, at, found)
}

// Adds the variables of a section.
fn add_section(
    target: &Option<Operand>,
    arguments: &[Expr],
    at: &Scoped<'_>,
    found: &mut Vec<usize>,
) -> Result<(), NoMemory>
    ensures { OnOk result ((names : Names) → AreApart names → AreNamed names at.now.variables.now
        → found.new.items ≡ found.old.items ++ (U.used_if (scope_at names at.now) (option_map (expr_of names) target.now) ++ U.used_among (scope_at names at.now) (exprs_of names arguments.now))) }
{
    add_used_if(target, at, found)?;
    add_all_used(arguments, at, found)
}

// Adds a local and the variables of what it starts with; without a start value nothing happens.
fn add_start(
    word: &Word,
    start: &Option<Operand>,
    at: &Scoped<'_>,
    found: &mut Vec<usize>,
) -> Result<(), NoMemory>
    ensures { OnOk result ((names : Names) → AreApart names → AreNamed names at.now.variables.now
        → found.new.items ≡ found.old.items ++ (started (scope_at names at.now) (names word.now.name) (option_map (expr_of names) start.now))) }
{
    match start {
        Some(start) => {
            add_name(word.name, at, found)?;
            add_used(start.expr(), at, found)
        }
        None => Ok(()),
    }
}

// Adds the variables of a simple statement.
fn add_simple(s: &Statement, at: &Scoped<'_>, found: &mut Vec<usize>) -> Result<(), NoMemory>
    ensures { OnOk result ((names : Names) → AreApart names → AreNamed names at.now.variables.now → found.new.items ≡ found.old.items ++ (U.used_by (scope_at names at.now) (stmt_of names s.now))) }
{
    match s {
        Statement::Declare { word, start, .. } => add_start(word, start, at, found),
        Statement::Assign { target, value, .. } => add_both(target.expr(), value.expr(), at, found),
        Statement::Call {
            target,
            function,
            arguments,
            ..
        } => add_call(target, function.expr(), arguments, at, found),
        Statement::Detach {
            target,
            arguments,
            ..
        } => add_section(target, arguments, at, found),
        Statement::Spawn { arguments, .. } => add_all_used(arguments, at, found),
        Statement::Return { value, .. } => add_used_if(value, at, found),
        Statement::Block { .. }
        | Statement::Empty { .. }
        | Statement::If { .. }
        | Statement::While { .. }
        | Statement::DoWhile { .. }
        | Statement::For { .. }
        | Statement::Goto { .. }
        | Statement::Label { .. }
        | Statement::Break { .. }
        | Statement::Continue { .. } => Ok(()),
    }
}

// Adds the variables of the place for a value that arrives.
fn add_place(s: &Statement, at: &Scoped<'_>, found: &mut Vec<usize>) -> Result<(), NoMemory>
    ensures { OnOk result ((names : Names) → AreApart names → AreNamed names at.now.variables.now → found.new.items ≡ found.old.items ++ (U.used_place (scope_at names at.now) (target_of (P.Simple (stmt_of names s.now))))) }
{
    match s {
        Statement::Call { target, .. } | Statement::Detach { target, .. } => add_used_if(
            target, at, found,
        ),
        _ => Ok(()),
    }
}

// Adds the variables that occur in what stands at a node.
fn add_stood(stood: Stood<'_>, at: &Scoped<'_>, found: &mut Vec<usize>) -> Result<(), NoMemory>
    ensures { OnOk result ((names : Names) → AreApart names → AreNamed names at.now.variables.now → found.new.items ≡ found.old.items ++ (U.used_at (scope_at names at.now) (stood_seen names stood.entry))) }
{
    match stood {
        Stood::Simple(s) => add_simple(s, at, found),
        Stood::Arrival(s) => add_place(s, at, found),
        Stood::Test(Some(test)) => add_used(test, at, found),
        Stood::Test(None) | Stood::Empty | Stood::End => Ok(()),
    }
}

// Whether a statement leaves its function.
fn is_return(s: &Statement) -> bool
    ensures { (names : Names) → result ≡ U.is_return (stmt_of names s.now) }
{
    match s {
        Statement::Return { .. } => true,
        _ => false,
    }
}

// Whether the function is left where this stands.
fn is_left(stood: Stood<'_>) -> bool
    ensures { (names : Names) → result ≡ U.is_left (stood_seen names stood.entry) }
{
    match stood {
        Stood::Simple(s) => is_return(s),
        Stood::End => true,
        Stood::Empty | Stood::Test(_) | Stood::Arrival(_) => false,
    }
}

// Adds the variables that a node uses.
fn add_node(
    stood: Stood<'_>,
    at: &Scoped<'_>,
    boxes: &[usize],
    found: &mut Vec<usize>,
) -> Result<(), NoMemory>
    ensures { OnOk result ((names : Names) → AreApart names → AreNamed names at.now.variables.now
        → found.new.items ≡ found.old.items ++ (U.used_at (scope_at names at.now) (stood_seen names stood.entry) ++ (if U.is_left (stood_seen names stood.entry) then boxes.now else []))) }
{
    add_stood(stood, at, found)?;
    if is_left(stood) {
        found.extend_from_slice(boxes)?;
    }
    Ok(())
}

// An owner uses these variables.
fn add_links(owner: usize, variables: &[usize], uses: &mut Vec<Link>) -> Result<(), NoMemory>
    ensures { OnOk result (links_of uses.new.items ≡ links_of uses.old.items ++ links_to owner variables.now) }
{
    for variable in variables {
        uses.push(Link {
            from: owner,
            to: *variable,
        })?;
    }
    Ok(())
}

/// Adds the variables that a node of this owner uses: those that occur there, and these boxes where the function is left. `NoMemory` is
/// want of memory.
pub(crate) fn add_uses(
    alloc: Global,
    owner: usize,
    stood: Stood<'_>,
    at: &Scoped<'_>,
    boxes: &[usize],
    uses: &mut Vec<Link>,
) -> Result<(), NoMemory>
    ensures { OnOk result ((names : Names) → AreApart names → AreNamed names at.now.variables.now
        → links_of uses.new.items ≡ links_of uses.old.items ++ links_to owner (U.used_at (scope_at names at.now) (stood_seen names stood.entry) ++ (if U.is_left (stood_seen names stood.entry) then boxes.now else []))) }
{
    let mut found = Vec::new(alloc);
    add_node(stood, at, boxes, &mut found)?;
    add_links(owner, &found, uses)
}
