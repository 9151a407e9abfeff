//! The variables to whose names `&` is applied in expressions.
ghost use Rattle.std.specs.Prelude.{◌≡◌, ◌++◌, OnOk, option_map};
ghost use Rattle.cpc_tree.specs.Syntax.{EUnary};
ghost use Rattle.cpc_tree.specs.declared.program.UnaryOp.TheVariants.{AddressOf};
ghost use Rattle.cpc_tree.specs.Erase.{Names, expr_of, exprs_of};
ghost use Rattle.cpc_tree.specs.Typing as T;
ghost use Rattle.cpc_tree.specs.Registers as R;
ghost use Rattle.cpc_eval_variables.specs.Addressed.{addresses_by_name};
ghost use Rattle.cpc_eval_variables.specs.Told.{IsTold};
ghost use Rattle.cpc_eval_variables.specs.Scoped.{scope_of};

use crate::scope::Scope;
use cpc_base::{Name, NoMemory};
use cpc_tree::program::{Expr, Operand, UnaryOp};

// The name that an expression is.
fn name_of(e: &Expr) -> Option<Name>
    ensures { (names : Names) (scope : T.Scope) → R.addresses scope (EUnary AddressOf (expr_of names e.now)) ≡ addresses_by_name names scope result (expr_of names e.now) }
{
    match e {
        Expr::Name(word) => Some(word.name),
        _ => None,
    }
}

// The name to which `&` is applied, where an operator is applied to an expression.
fn addressed_name(op: UnaryOp, e: &Expr) -> Option<Name>
    ensures { (names : Names) (scope : T.Scope) → R.addresses scope (EUnary op (expr_of names e.now)) ≡ addresses_by_name names scope result (expr_of names e.now) }
{
    match op {
        UnaryOp::AddressOf => name_of(e),
        UnaryOp::Minus
        | UnaryOp::Plus
        | UnaryOp::Not
        | UnaryOp::Complement
        | UnaryOp::Dereference => None,
    }
}

// Adds the variable that a name stands for.
fn add_named(name: Name, scope: &Scope<'_>, found: &mut Vec<usize>) -> Result<(), NoMemory>
    ensures { OnOk result ((names : Names) → IsTold names scope.now.parameters.now → found.new.items ≡ found.old.items ++ R.slot_of (scope_of names scope.now) (names name)) }
{
    match scope.slot(name) {
        Some(slot) => {
            found.push(slot)?;
            Ok(())
        }
        None => Ok(()),
    }
}

/// Adds the variables to whose names `&` is applied in an expression. `NoMemory` is want of memory.
#[cycle(added)]
pub(crate) fn add_addresses(
    e: &Expr,
    scope: &Scope<'_>,
    found: &mut Vec<usize>,
) -> Result<(), NoMemory>
    ensures { OnOk result ((names : Names) → IsTold names scope.now.parameters.now → found.new.items ≡ found.old.items ++ R.addresses (scope_of names scope.now) (expr_of names e.now)) }
{
    match e {
        Expr::Unary { op, operand, .. } => match addressed_name(*op, operand) {
            Some(name) => add_named(name, scope, found),
            None => add_addresses(operand, scope, found),
        },
        Expr::Binary { left, right, .. }
        | Expr::And { left, right, .. }
        | Expr::Or { left, right, .. } => {
            add_addresses(left, scope, found)?;
            add_addresses(right, scope, found)
        }
        Expr::Choose { test, yes, no, .. } => {
            add_addresses(test, scope, found)?;
            add_addresses(yes, scope, found)?;
            add_addresses(no, scope, found)
        }
        Expr::Cast { operand, .. } | Expr::Member { operand, .. } | Expr::Arrow { operand, .. } =>
            add_addresses(operand, scope, found),
        Expr::Index { operand, index, .. } => {
            add_addresses(operand, scope, found)?;
            add_addresses(index, scope, found)
        }
        Expr::CallIn {
            function,
            arguments,
            ..
        } => {
            add_addresses(function, scope, found)?;
            add_all_addresses(arguments, scope, found)
        }
        Expr::Name(_)
        | Expr::Integer { .. }
        | Expr::Character { .. }
        | Expr::Text { .. }
        | Expr::SizeOf { .. } => Ok(()),
    }
}

/// The same in each expression of a row.
#[cycle(added)]
pub(crate) fn add_all_addresses(
    row: &[Expr],
    scope: &Scope<'_>,
    found: &mut Vec<usize>,
) -> Result<(), NoMemory>
    ensures { OnOk result ((names : Names) → IsTold names scope.now.parameters.now → found.new.items ≡ found.old.items ++ R.addresses_all (scope_of names scope.now) (exprs_of names row.now)) }
{
    for e in row {
        add_addresses(e, scope, found)?;
    }
    Ok(())
}

/// The same in an expression that may be absent.
pub(crate) fn add_addresses_if(
    e: &Option<Operand>,
    scope: &Scope<'_>,
    found: &mut Vec<usize>,
) -> Result<(), NoMemory>
    ensures { OnOk result ((names : Names) → IsTold names scope.now.parameters.now → found.new.items ≡ found.old.items ++ R.addresses_if (scope_of names scope.now) (option_map (expr_of names) e.now)) }
{
    match e {
        Some(e) => add_addresses(e.expr(), scope, found),
        None => Ok(()),
    }
}

/// The same in two expressions.
pub(crate) fn add_both_addresses(
    first: &Expr,
    second: &Expr,
    scope: &Scope<'_>,
    found: &mut Vec<usize>,
) -> Result<(), NoMemory>
    ensures { OnOk result ((names : Names) → IsTold names scope.now.parameters.now
        → found.new.items ≡ found.old.items ++ (R.addresses (scope_of names scope.now) (expr_of names first.now) ++ R.addresses (scope_of names scope.now) (expr_of names second.now))) }
{
    add_addresses(first, scope, found)?;
    add_addresses(second, scope, found)
}

/// The same in the place for a value that may be absent, and in arguments.
pub(crate) fn add_section_addresses(
    target: &Option<Operand>,
    arguments: &[Expr],
    scope: &Scope<'_>,
    found: &mut Vec<usize>,
) -> Result<(), NoMemory>
    ensures { OnOk result ((names : Names) → IsTold names scope.now.parameters.now
        → found.new.items ≡ found.old.items ++ (R.addresses_if (scope_of names scope.now) (option_map (expr_of names) target.now) ++ R.addresses_all (scope_of names scope.now) (exprs_of names arguments.now))) }
{
    add_addresses_if(target, scope, found)?;
    add_all_addresses(arguments, scope, found)
}

/// The same in the parts of a call that is a whole statement.
pub(crate) fn add_call_addresses(
    target: &Option<Operand>,
    function: &Expr,
    arguments: &[Expr],
    scope: &Scope<'_>,
    found: &mut Vec<usize>,
) -> Result<(), NoMemory>
    ensures { OnOk result ((names : Names) → IsTold names scope.now.parameters.now
        → found.new.items ≡ found.old.items ++ (R.addresses_if (scope_of names scope.now) (option_map (expr_of names) target.now) ++ (R.addresses (scope_of names scope.now) (expr_of names function.now) ++ R.addresses_all (scope_of names scope.now) (exprs_of names arguments.now)))) }
{
    add_addresses_if(target, scope, found)?;
    add_addresses(function, scope, found)?;
    add_all_addresses(arguments, scope, found)
}
