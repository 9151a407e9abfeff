//! The types of expressions.
ghost use Rattle.std.specs.Prelude.{◌≡◌, Ok, IfOk};
ghost use Rattle.cpc_tree.specs.Erase.{Names, expr_of};
ghost use Rattle.cpc_check_rules.specs.Apart.{AreApart};
ghost use Rattle.cpc_check_rules.specs.Scopes as R;
ghost use Rattle.cpc_types.specs.Found.{found_of};
ghost use Rattle.cpc_shapes.specs.Forms.{narrow_typed, wide_typed, logical_typed};
ghost use Rattle.cpc_types.specs.Scoped.{scope_of};

use crate::forms::{
    arrow_form, binary_form, cast_form, index_form, member_form, size_form, test_form, tested_form,
    unary_form,
};
use crate::names::name_type;
use crate::operators::{TypeFound, is_null, is_tested};
use crate::scope::Scope;
use cpc_base::NoMemory;
use cpc_num::Kind;
use cpc_shapes::is_named;
use cpc_tree::program::{CType, Expr};
use std::alloc::Global;

/// The type of an expression in a scope, and whether it is a place. `NoMemory` is want of memory.
#[cycle(typing)]
pub fn typing(alloc: Global, e: &Expr, scope: &Scope) -> Result<TypeFound, NoMemory>
    ensures { IfOk result (λ found. (names : Names) → AreApart names → found_of names found ≡ R.typed (scope_of names scope.now) (expr_of names e.now)) }
{
    match e {
        Expr::Name(word) => name_type(alloc, word.name, scope),
        Expr::Integer { kind, .. } => Ok(TypeFound::Value(CType::Int(*kind))),
        Expr::Character { .. } => Ok(TypeFound::Value(CType::Int(Kind::Int))),
        Expr::SizeOf { target: of, .. } => Ok(size_form(of, scope)),
        Expr::Text { .. } => Ok(TypeFound::Absent),
        Expr::CallIn { .. } => Ok(TypeFound::Absent),
        Expr::Unary { .. } => narrow(alloc, e, scope),
        Expr::Cast { .. } => narrow(alloc, e, scope),
        Expr::Member { .. } => narrow(alloc, e, scope),
        Expr::Arrow { .. } => narrow(alloc, e, scope),
        Expr::Binary { .. } => wide(alloc, e, scope),
        Expr::And { .. } => logical(alloc, e, scope),
        Expr::Or { .. } => logical(alloc, e, scope),
        Expr::Choose { .. } => logical(alloc, e, scope),
        Expr::Index { .. } => wide(alloc, e, scope),
    }
}

// What was found of two operands, where the second did not want memory.
fn both_found(
    first: TypeFound,
    second: Result<TypeFound, NoMemory>,
) -> Result<(TypeFound, TypeFound), NoMemory>
    ensures first { IfOk result (λ both. both.0 ≡ first) }
    ensures second { IfOk result (λ both. second ≡ Ok both.1) }
{
    match second {
        Ok(second) => Ok((first, second)),
        Err(error) => Err(error),
    }
}

// The type of an expression with one operand.
#[cycle(typing)]
fn narrow(alloc: Global, e: &Expr, scope: &Scope) -> Result<TypeFound, NoMemory>
    ensures { IfOk result (λ found. (names : Names) → AreApart names → found_of names found ≡ narrow_typed (scope_of names scope.now) (expr_of names e.now)) }
{
    match e {
        Expr::Unary { op, operand, .. } => {
            let found = typing(alloc, operand, scope)?;
            unary_form(alloc, *op, is_named(operand), found)
        }
        Expr::Cast {
            target: of,
            operand,
            ..
        } => {
            let found = typing(alloc, operand, scope)?;
            cast_form(alloc, of, is_null(operand), found)
        }
        Expr::Member { operand, field, .. } => {
            let found = typing(alloc, operand, scope)?;
            member_form(alloc, found, field.name, scope)
        }
        Expr::Arrow { operand, field, .. } => {
            let found = typing(alloc, operand, scope)?;
            arrow_form(alloc, found, field.name, scope)
        }
        _ => Ok(TypeFound::Absent),
    }
}

// The type of an expression with two operands that are used as values.
#[cycle(typing)]
fn wide(alloc: Global, e: &Expr, scope: &Scope) -> Result<TypeFound, NoMemory>
    ensures { IfOk result (λ found. (names : Names) → AreApart names → found_of names found ≡ wide_typed (scope_of names scope.now) (expr_of names e.now)) }
{
    match e {
        Expr::Binary {
            op,
            left,
            right,
            ..
        } => {
            let (first, second) = both_found(
                typing(alloc, left, scope)?,
                typing(alloc, right, scope),
            )?;
            let nulls = (is_null(left), is_null(right));
            binary_form(alloc, *op, nulls, first, second, scope)
        }
        Expr::Index { operand, index, .. } => {
            let (first, second) = both_found(
                typing(alloc, operand, scope)?,
                typing(alloc, index, scope),
            )?;
            index_form(alloc, first, second, scope)
        }
        _ => Ok(TypeFound::Absent),
    }
}

// The type of an expression with a test.
#[cycle(typing)]
fn logical(alloc: Global, e: &Expr, scope: &Scope) -> Result<TypeFound, NoMemory>
    ensures { IfOk result (λ found. (names : Names) → AreApart names → found_of names found ≡ logical_typed (scope_of names scope.now) (expr_of names e.now)) }
{
    match e {
        Expr::And { left, right, .. } => {
            let (first, second) = both_found(
                typing(alloc, left, scope)?,
                typing(alloc, right, scope),
            )?;
            Ok(test_form(first, second))
        }
        Expr::Or { left, right, .. } => {
            let (first, second) = both_found(
                typing(alloc, left, scope)?,
                typing(alloc, right, scope),
            )?;
            Ok(test_form(first, second))
        }
        Expr::Choose { test, yes, no, .. } => {
            let tested = is_tested(typing(alloc, test, scope)?);
            let (first, second) = both_found(typing(alloc, yes, scope)?, typing(alloc, no, scope))?;
            let nulls = (is_null(yes), is_null(no));
            Ok(tested_form(nulls, tested, first, second))
        }
        _ => Ok(TypeFound::Absent),
    }
}
