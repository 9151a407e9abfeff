//! Statements without their semicolons: assignments, calls and sections.
ghost use Rattle.std.specs.Prelude.{◌≡◌, ◌+◌, ◌-◌, ◌<◌, ◌≤◌, length, IfOk, IfErr};
ghost use Rattle.cpc_tree.specs.Erase.{Names};
ghost use Rattle.cpc_tree.specs.Locate.{located_expr, located_stmt};
ghost use Rattle.cpc_tree.specs.StmtGrammar.{given, stepped};
ghost use Rattle.cpc_tree.specs.ExprGrammar.{Unary};
ghost use Rattle.cpc_parser_reading.specs.Reading.{mapped, made};
ghost use Rattle.cpc_parser_types.specs.Views.{placed, Gives};
ghost use Rattle.cpc_parser_expressions.specs.ExprReaders.{shape_at};
ghost use Rattle.cpc_parser_expressions.specs.Shapes.{Never, whole, extra};
ghost use Rattle.cpc_parser_types.specs.declared.refusal.Refusal.TheVariants as GRefusal;
ghost use Rattle.cpc_parser_expressions.specs.ShapeViews.{shape_of};
ghost use Rattle.cpc_parser_statements.specs.SimpleReaders.{detached_at, detach_of, before_of, stmt_of};
ghost use Rattle.cpc_parser_statements.specs.RightViews.{right_seen};
ghost use Rattle.cpc_parser_statements.specs.CodeViews.{plain_at, behind_at, alone_at, assigned_at, updated_at};

use crate::class::{First, More, first_of, more_of};
use crate::right::{Right, right_side, section};
use cpc_base::Place;
use cpc_num::{Kind, Op};
use cpc_parser_expressions::{Apart, Shape, expr, unary};
use cpc_parser_types::{Refusal, deep, deeper, fault};
use cpc_tree::program::{Expr, Operand, Statement};
use cpc_tree::token::Token;
use std::alloc::Global;

/// The statement by which a place is given what stands behind `=`.
pub fn given(place: Place, operator: Place, target: Operand, right: Right) -> Statement
    ensures { (names : Names) → located_stmt names result ≡ given place operator (located_expr names target) (right_seen names right) }
{
    match right {
        Right::Value(value) => Statement::Assign {
            place,
            operator,
            target,
            op: None,
            value: Operand::new(value),
        },
        Right::Call {
            function,
            arguments,
        } => Statement::Call {
            place,
            operator,
            target: Some(target),
            function: Operand::new(function),
            arguments,
        },
        Right::Section {
            keyword,
            function,
            arguments,
        } => Statement::Detach {
            place,
            operator,
            keyword,
            target: Some(target),
            function,
            arguments,
        },
    }
}

// `target op= 1`, as `++` and `--` have it.
fn stepped(place: Place, operator: Place, target: Operand, op: Op) -> Statement
    ensures { (names : Names) → located_stmt names result ≡ stepped place operator (located_expr names target) op }
{
    Statement::Assign {
        place,
        operator,
        target,
        op: Some(op),
        value: Operand::new(Expr::Integer {
            place: operator,
            kind: Kind::Int,
            value: 1,
        }),
    }
}

// The expression that a shape is. Only memory can be wanting.
fn target(alloc: Global, shape: Shape) -> Result<Operand, Refusal>
    ensures is { IfOk result (λ e. (names : Names) → located_expr names e ≡ whole (shape_of names shape)) }
    ensures wants { IfErr result (λ e. e ≡ GRefusal.Memory) }
{
    match shape.whole(alloc) {
        Ok(target) => Ok(Operand::new(target)),
        Err(_) => Err(Refusal::Memory),
    }
}

// The nesting of a shape as an expression.
fn grown(shape: &Shape, nest: usize) -> usize
    requires { nest < usize.MAX }
    ensures { (names : Names) → result ≡ nest + extra (shape_of names shape.now) }
{
    match shape {
        Shape::Call { .. } => nest + 1,
        Shape::Postfix(_) => nest,
        Shape::Other(_) => nest,
    }
}

// A section as a statement, behind its keyword, which stands at the place.
fn detached(
    alloc: Global,
    depth: usize,
    place: Place,
    tokens: &[Token],
) -> Result<(Statement, usize, &[Token]), Refusal>
    requires { 0 < depth }
    ensures gives { (names : Names) → Gives (λ x. (located_stmt names x.0, x.1, placed names x.2.now)) result (mapped stmt_of (made (detach_of place) (detached_at (depth - 1))) (placed names tokens.now)) }
    ensures nest { IfOk result (λ x. x.1 ≤ depth) }
    ensures shorter { IfOk result (λ x. length x.2.now < length tokens.now) }
{
    let (function, arguments, nest, rest) = section(alloc, depth - 1, tokens)?;
    let statement = Statement::Detach {
        place,
        operator: place,
        keyword: place,
        target: None,
        function,
        arguments,
    };
    Ok((statement, nest + 1, rest))
}

// What `++` or `--` steps, behind the mark, which stands at the place.
fn before(
    alloc: Global,
    depth: usize,
    place: Place,
    op: Op,
    tokens: &[Token],
) -> Result<(Statement, usize, &[Token]), Refusal>
    requires { 1 < depth }
    ensures gives { (names : Names) → Gives (λ x. (located_stmt names x.0, x.1, placed names x.2.now)) result (mapped stmt_of (made (before_of place op) (shape_at (depth - 1) Never Unary)) (placed names tokens.now)) }
    ensures nest { IfOk result (λ x. x.1 ≤ depth) }
    ensures shorter { IfOk result (λ x. length x.2.now < length tokens.now) }
{
    let (shape, nest, rest) = unary(alloc, depth - 1, Apart::Never, tokens)?;
    let target = target(alloc, shape)?;
    Ok((stepped(place, place, target, op), nest + 1, rest))
}

// What is written to the target by an operator of an assignment.
fn updated(
    alloc: Global,
    depth: usize,
    place: Place,
    operator: Place,
    op: Op,
    target: Operand,
    nest: usize,
    tokens: &[Token],
) -> Result<(Statement, usize, &[Token]), Refusal>
    requires low { 0 < nest }
    requires high { nest < depth }
    ensures gives { (names : Names) → Gives (λ x. (located_stmt names x.0, x.1, placed names x.2.now)) result (updated_at (depth - 1) place operator op (located_expr names target) nest (placed names tokens.now)) }
    ensures nest { IfOk result (λ x. x.1 ≤ depth) }
    ensures shorter { IfOk result (λ x. length x.2.now < length tokens.now) }
{
    let (value, other, rest) = expr(alloc, depth - 1, tokens)?;
    let statement = Statement::Assign {
        place,
        operator,
        target,
        op: Some(op),
        value: Operand::new(value),
    };
    Ok((statement, deeper(nest, other) + 1, rest))
}

// What is written to the target behind `=`.
fn assigned(
    alloc: Global,
    depth: usize,
    place: Place,
    operator: Place,
    target: Operand,
    nest: usize,
    tokens: &[Token],
) -> Result<(Statement, usize, &[Token]), Refusal>
    requires low { 0 < nest }
    requires high { nest < depth }
    ensures gives { (names : Names) → Gives (λ x. (located_stmt names x.0, x.1, placed names x.2.now)) result (assigned_at (depth - 1) place operator (located_expr names target) nest (placed names tokens.now)) }
    ensures nest { IfOk result (λ x. x.1 ≤ depth) }
    ensures shorter { IfOk result (λ x. length x.2.now < length tokens.now) }
{
    let (right, other, rest) = right_side(alloc, depth - 1, tokens)?;
    Ok((
        given(place, operator, target, right),
        deeper(nest, other) + 1,
        rest,
    ))
}

// What makes a statement of the shape that begins it.
fn behind(
    alloc: Global,
    depth: usize,
    place: Place,
    shape: Shape,
    nest: usize,
    tokens: &[Token],
) -> Result<(Statement, usize, &[Token]), Refusal>
    requires low { 0 < nest }
    requires high { nest < depth }
    ensures gives { (names : Names) → Gives (λ x. (located_stmt names x.0, x.1, placed names x.2.now)) result (behind_at depth place (shape_of names shape) nest (placed names tokens.now)) }
    ensures nest { IfOk result (λ x. x.1 ≤ depth) }
    ensures shorter { IfOk result (λ x. length x.2.now ≤ length tokens.now) }
{
    let Some(more) = more_of(&shape, tokens) else {
        return alone(place, shape, nest, tokens);
    };
    let inner = grown(&shape, nest);
    if inner >= depth {
        return deep(tokens);
    }
    let Some((token, rest)) = tokens.split_first() else {
        return fault(tokens);
    };
    let operator = token.place;
    let target = target(alloc, shape)?;
    match more {
        More::Sets => assigned(alloc, depth, place, operator, target, inner, rest),
        More::Updates(op) => updated(alloc, depth, place, operator, op, target, inner, rest),
        More::Steps(op) => Ok((stepped(place, operator, target, op), inner + 1, rest)),
    }
}

// A call as a whole statement, where nothing follows; anything else is none.
fn alone(
    place: Place,
    shape: Shape,
    nest: usize,
    tokens: &[Token],
) -> Result<(Statement, usize, &[Token]), Refusal>
    requires { nest < usize.MAX }
    ensures gives { (names : Names) → Gives (λ x. (located_stmt names x.0, x.1, placed names x.2.now)) result (alone_at place (shape_of names shape) nest (placed names tokens.now)) }
    ensures nest { IfOk result (λ x. x.1 ≤ nest + 1) }
    ensures shorter { IfOk result (λ x. length x.2.now ≤ length tokens.now) }
{
    match shape {
        Shape::Call {
            function,
            arguments,
            ..
        } => {
            let statement = Statement::Call {
                place,
                operator: place,
                target: None,
                function: Operand::new(function),
                arguments,
            };
            Ok((statement, nest + 1, tokens))
        }
        Shape::Postfix(_) => fault(tokens),
        Shape::Other(_) => fault(tokens),
    }
}

/// A statement without its semicolon.
pub fn simple(
    alloc: Global,
    depth: usize,
    tokens: &[Token],
) -> Result<(Statement, usize, &[Token]), Refusal>
    requires { 0 < depth }
    ensures gives { (names : Names) → Gives (λ x. (located_stmt names x.0, x.1, placed names x.2.now)) result (plain_at depth (placed names tokens.now)) }
    ensures nest { IfOk result (λ x. x.1 ≤ depth) }
    ensures shorter { IfOk result (λ x. length x.2.now < length tokens.now) }
{
    let Some((token, rest)) = tokens.split_first() else {
        return fault(tokens);
    };
    match first_of(tokens) {
        None => fault(tokens),
        Some(First::Section) => detached(alloc, depth, token.place, rest),
        Some(First::Step(op)) => {
            if depth < 2 {
                return deep(tokens);
            }
            before(alloc, depth, token.place, op, rest)
        }
        Some(First::Expression) => {
            if depth < 2 {
                return deep(tokens);
            }
            let (shape, nest, behind_shape) = unary(alloc, depth - 1, Apart::Bare, tokens)?;
            behind(alloc, depth, token.place, shape, nest, behind_shape)
        }
    }
}
