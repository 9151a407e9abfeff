//! The variables that occur in expressions.
ghost use Rattle.std.specs.Prelude.{◌≡◌, ◌++◌, OnOk, option_map};
ghost use Rattle.cpc_tree.specs.Erase.{Names, expr_of, exprs_of};
ghost use Rattle.cpc_tree.specs.Registers.{slot_of};
ghost use Rattle.cpc_check_rules.specs.Apart.{AreApart};
ghost use Rattle.cpc_forms_code.specs.Seen.{AreNamed};
ghost use Rattle.cpc_lift_laws.specs.Used as U;
ghost use Rattle.cpc_lift.specs.Scoped.{scope_at};

use cpc_base::{Name, NoMemory};
use cpc_forms_code::{Variable, slot};
use cpc_tree::program::{Expr, Operand};

/// Where names occur: the variables of the function, and the innermost of them in scope.
#[derive(Clone, Copy)]
pub(crate) struct Scoped<'a> {
    pub(crate) variables: &'a [Variable<'a>],
    pub(crate) scope: Option<usize>,
}

/// Adds the variable for which a name stands. `NoMemory` is want of memory.
pub(crate) fn add_name(name: Name, at: &Scoped<'_>, found: &mut Vec<usize>) -> Result<(), NoMemory>
    ensures { OnOk result ((names : Names) → AreApart names → AreNamed names at.now.variables.now → found.new.items ≡ found.old.items ++ slot_of (scope_at names at.now) (names name)) }
{
    match slot(at.variables, at.scope, name) {
        Some(variable) => {
            found.push(variable)?;
            Ok(())
        }
        None => Ok(()),
    }
}

/// Adds the variables of an expression. `NoMemory` is want of memory.
#[cycle(used)]
pub(crate) fn add_used(e: &Expr, at: &Scoped<'_>, found: &mut Vec<usize>) -> Result<(), NoMemory>
    ensures { OnOk result ((names : Names) → AreApart names → AreNamed names at.now.variables.now → found.new.items ≡ found.old.items ++ U.used_in (scope_at names at.now) (expr_of names e.now)) }
{
    match e {
        Expr::Name(word) => add_name(word.name, at, found),
        Expr::Unary { operand, .. }
        | Expr::Cast { operand, .. }
        | Expr::Member { operand, .. }
        | Expr::Arrow { operand, .. } => add_used(operand, at, found),
        Expr::Binary { left, right, .. }
        | Expr::And { left, right, .. }
        | Expr::Or { left, right, .. } => {
            add_used(left, at, found)?;
            add_used(right, at, found)
        }
        Expr::Choose { test, yes, no, .. } => {
            add_used(test, at, found)?;
            add_used(yes, at, found)?;
            add_used(no, at, found)
        }
        Expr::Index { operand, index, .. } => {
            add_used(operand, at, found)?;
            add_used(index, at, found)
        }
        Expr::CallIn {
            function,
            arguments,
            ..
        } => {
            add_used(function, at, found)?;
            add_all_used(arguments, at, found)
        }
        Expr::Integer { .. } | Expr::Character { .. } | Expr::Text { .. } | Expr::SizeOf { .. } =>
            Ok(()),
    }
}

/// The same of each expression of a row.
#[cycle(used)]
pub(crate) fn add_all_used(
    row: &[Expr],
    at: &Scoped<'_>,
    found: &mut Vec<usize>,
) -> Result<(), NoMemory>
    ensures { OnOk result ((names : Names) → AreApart names → AreNamed names at.now.variables.now → found.new.items ≡ found.old.items ++ U.used_among (scope_at names at.now) (exprs_of names row.now)) }
{
    for e in row {
        add_used(e, at, found)?;
    }
    Ok(())
}

/// The same of an expression that may be absent.
pub(crate) fn add_used_if(
    e: &Option<Operand>,
    at: &Scoped<'_>,
    found: &mut Vec<usize>,
) -> Result<(), NoMemory>
    ensures { OnOk result ((names : Names) → AreApart names → AreNamed names at.now.variables.now → found.new.items ≡ found.old.items ++ U.used_if (scope_at names at.now) (option_map (expr_of names) e.now)) }
{
    match e {
        Some(e) => add_used(e.expr(), at, found),
        None => Ok(()),
    }
}
