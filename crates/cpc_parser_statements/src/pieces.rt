//! Statements that no other statement stands in, behind their first word, and the parts of the others.
ghost use Rattle.std.specs.Prelude.{◌≡◌, ◌+◌, ◌<◌, ◌≤◌, option_map, length, IfOk};
ghost use Rattle.cpc_tree.specs.Erase.{Names};
ghost use Rattle.cpc_tree.specs.Locate.{located_expr, located_stmt};
ghost use Rattle.cpc_parser_types.specs.Views.{placed, Gives};
ghost use Rattle.cpc_parser_statements.specs.StmtReaders.{test_at, maybe_at, sentence_at, first_at, last_at};
ghost use Rattle.cpc_parser_statements.specs.CodeViews.{held, seen, opening_at, step_at, declaration_at, goto_in, break_in, continue_in, return_in, spawn_in};

use crate::class::first_of;
use crate::local::local;
use crate::simple::simple;
use cpc_base::Place;
use cpc_parser_expressions::{arguments, begins_expr, expr};
use cpc_parser_types::{Refusal, begins_base, deep, expect_mark, name};
use cpc_tree::program::{Operand, Statement};
use cpc_tree::token::{Punctuator, Token};
use std::alloc::Global;

/// An expression in the parentheses of a statement, which count nothing.
pub fn test(
    alloc: Global,
    room: usize,
    tokens: &[Token],
) -> Result<(Operand, usize, &[Token]), Refusal>
    requires { 0 < room }
    ensures gives { (names : Names) → Gives (λ x. (located_expr names x.0, x.1, placed names x.2.now)) result (test_at room (placed names tokens.now)) }
    ensures nest { IfOk result (λ x. x.1 ≤ room) }
    ensures shorter { IfOk result (λ x. length x.2.now < length tokens.now) }
{
    let (_, rest) = expect_mark(tokens, Punctuator::LeftParen)?;
    let (test, nest, rest) = expr(alloc, room, rest)?;
    let (_, rest) = expect_mark(rest, Punctuator::RightParen)?;
    Ok((Operand::new(test), nest, rest))
}

/// A label's name or another one, and the semicolon of `goto`, which stands at the place.
pub fn goto(place: Place, tokens: &[Token]) -> Result<(Statement, usize, &[Token]), Refusal>
    ensures gives { (names : Names) → Gives (λ x. (located_stmt names x.0, x.1, placed names x.2.now)) result (goto_in place (placed names tokens.now)) }
    ensures nest { IfOk result (λ x. x.1 ≤ 1) }
    ensures shorter { IfOk result (λ x. length x.2.now < length tokens.now) }
{
    let (label, rest) = name(tokens)?;
    let (_, rest) = expect_mark(rest, Punctuator::Semicolon)?;
    Ok((Statement::Goto { place, label }, 1, rest))
}

/// The semicolon of `break`, which stands at the place.
pub fn broken(place: Place, tokens: &[Token]) -> Result<(Statement, usize, &[Token]), Refusal>
    ensures gives { (names : Names) → Gives (λ x. (located_stmt names x.0, x.1, placed names x.2.now)) result (break_in place (placed names tokens.now)) }
    ensures nest { IfOk result (λ x. x.1 ≤ 1) }
    ensures shorter { IfOk result (λ x. length x.2.now < length tokens.now) }
{
    let (_, rest) = expect_mark(tokens, Punctuator::Semicolon)?;
    Ok((Statement::Break { place }, 1, rest))
}

/// The semicolon of `continue`, which stands at the place.
pub fn continued(place: Place, tokens: &[Token]) -> Result<(Statement, usize, &[Token]), Refusal>
    ensures gives { (names : Names) → Gives (λ x. (located_stmt names x.0, x.1, placed names x.2.now)) result (continue_in place (placed names tokens.now)) }
    ensures nest { IfOk result (λ x. x.1 ≤ 1) }
    ensures shorter { IfOk result (λ x. length x.2.now < length tokens.now) }
{
    let (_, rest) = expect_mark(tokens, Punctuator::Semicolon)?;
    Ok((Statement::Continue { place }, 1, rest))
}

/// What stands behind `cpc_spawn`, which stands at the place.
pub fn spawn(
    alloc: Global,
    room: usize,
    place: Place,
    tokens: &[Token],
) -> Result<(Statement, usize, &[Token]), Refusal>
    requires { room < usize.MAX }
    ensures gives { (names : Names) → Gives (λ x. (located_stmt names x.0, x.1, placed names x.2.now)) result (spawn_in place room (placed names tokens.now)) }
    ensures nest { IfOk result (λ x. x.1 ≤ room + 1) }
    ensures shorter { IfOk result (λ x. length x.2.now < length tokens.now) }
{
    let (function, rest) = name(tokens)?;
    let (_, rest) = expect_mark(rest, Punctuator::LeftParen)?;
    let (arguments, nest, rest) = arguments(alloc, room, rest)?;
    let (_, rest) = expect_mark(rest, Punctuator::Semicolon)?;
    let statement = Statement::Spawn {
        place,
        function,
        arguments,
    };
    Ok((statement, nest + 1, rest))
}

/// A simple statement and its semicolon.
pub fn sentence(
    alloc: Global,
    depth: usize,
    tokens: &[Token],
) -> Result<(Statement, usize, &[Token]), Refusal>
    requires { 0 < depth }
    ensures gives { (names : Names) → Gives (λ x. (located_stmt names x.0, x.1, placed names x.2.now)) result (sentence_at depth (placed names tokens.now)) }
    ensures nest { IfOk result (λ x. x.1 ≤ depth) }
    ensures shorter { IfOk result (λ x. length x.2.now < length tokens.now) }
{
    let (statement, nest, rest) = simple(alloc, depth, tokens)?;
    let (_, rest) = expect_mark(rest, Punctuator::Semicolon)?;
    Ok((statement, nest, rest))
}

/// An expression that can be absent, and the semicolon behind it.
pub fn maybe(
    alloc: Global,
    room: usize,
    tokens: &[Token],
) -> Result<(Option<Operand>, usize, &[Token]), Refusal>
    ensures gives { (names : Names) → Gives (λ x. (option_map (located_expr names) x.0, x.1, placed names x.2.now)) result (maybe_at room (placed names tokens.now)) }
    ensures nest { IfOk result (λ x. x.1 ≤ room) }
    ensures shorter { IfOk result (λ x. length x.2.now < length tokens.now) }
{
    if !begins_expr(tokens) {
        let (_, rest) = expect_mark(tokens, Punctuator::Semicolon)?;
        return Ok((None, 0, rest));
    }
    if room == 0 {
        return deep(tokens);
    }
    let (value, nest, rest) = expr(alloc, room, tokens)?;
    let (_, rest) = expect_mark(rest, Punctuator::Semicolon)?;
    Ok((Some(Operand::new(value)), nest, rest))
}

/// What stands behind `return`, which stands at the place.
pub fn returned(
    alloc: Global,
    room: usize,
    place: Place,
    tokens: &[Token],
) -> Result<(Statement, usize, &[Token]), Refusal>
    requires { room < usize.MAX }
    ensures gives { (names : Names) → Gives (λ x. (located_stmt names x.0, x.1, placed names x.2.now)) result (return_in place room (placed names tokens.now)) }
    ensures nest { IfOk result (λ x. x.1 ≤ room + 1) }
    ensures shorter { IfOk result (λ x. length x.2.now < length tokens.now) }
{
    let (value, nest, rest) = maybe(alloc, room, tokens)?;
    Ok((Statement::Return { place, value }, nest + 1, rest))
}

// The first part of a `for`, without its semicolon.
fn opening(
    alloc: Global,
    room: usize,
    tokens: &[Token],
) -> Result<(Vec<Statement>, usize, &[Token]), Refusal>
    requires { 0 < room }
    ensures gives { (names : Names) → Gives (λ x. (seen names x.0.items, x.1, placed names x.2.now)) result (opening_at room (placed names tokens.now)) }
    ensures nest { IfOk result (λ x. x.1 ≤ room) }
    ensures shorter { IfOk result (λ x. length x.2.now ≤ length tokens.now) }
{
    let all = Vec::new(alloc);
    if begins_base(tokens) {
        return local(alloc, room, all, tokens);
    }
    let Some(_) = first_of(tokens) else {
        return Ok((all, 0, tokens));
    };
    let (statement, nest, rest) = simple(alloc, room, tokens)?;
    let mut all = all;
    all.push(statement)?;
    Ok((all, nest, rest))
}

/// The first part of a `for`, and the semicolon behind it.
pub fn first_part(
    alloc: Global,
    room: usize,
    tokens: &[Token],
) -> Result<(Vec<Statement>, usize, &[Token]), Refusal>
    requires { 0 < room }
    ensures gives { (names : Names) → Gives (λ x. (seen names x.0.items, x.1, placed names x.2.now)) result (first_at room (placed names tokens.now)) }
    ensures nest { IfOk result (λ x. x.1 ≤ room) }
    ensures shorter { IfOk result (λ x. length x.2.now < length tokens.now) }
{
    let (all, nest, rest) = opening(alloc, room, tokens)?;
    let (_, rest) = expect_mark(rest, Punctuator::Semicolon)?;
    Ok((all, nest, rest))
}

// The last part of a `for`, without the mark behind it.
fn step(
    alloc: Global,
    room: usize,
    tokens: &[Token],
) -> Result<(Option<Box<Statement>>, usize, &[Token]), Refusal>
    requires { 0 < room }
    ensures gives { (names : Names) → Gives (λ x. (held names x.0, x.1, placed names x.2.now)) result (step_at room (placed names tokens.now)) }
    ensures nest { IfOk result (λ x. x.1 ≤ room) }
    ensures shorter { IfOk result (λ x. length x.2.now ≤ length tokens.now) }
{
    let Some(_) = first_of(tokens) else {
        return Ok((None, 0, tokens));
    };
    let (statement, nest, rest) = simple(alloc, room, tokens)?;
    let step = Box::new(alloc, statement)?;
    Ok((Some(step), nest, rest))
}

/// The last part of a `for`, and the mark behind it.
pub fn last_part(
    alloc: Global,
    room: usize,
    tokens: &[Token],
) -> Result<(Option<Box<Statement>>, usize, &[Token]), Refusal>
    requires { 0 < room }
    ensures gives { (names : Names) → Gives (λ x. (held names x.0, x.1, placed names x.2.now)) result (last_at room (placed names tokens.now)) }
    ensures nest { IfOk result (λ x. x.1 ≤ room) }
    ensures shorter { IfOk result (λ x. length x.2.now < length tokens.now) }
{
    let (other, nest, rest) = step(alloc, room, tokens)?;
    let (_, rest) = expect_mark(rest, Punctuator::RightParen)?;
    Ok((other, nest, rest))
}

/// A declaration and its semicolon, behind the statements before it.
pub fn declaration(
    alloc: Global,
    room: usize,
    all: Vec<Statement>,
    tokens: &[Token],
) -> Result<(Vec<Statement>, usize, &[Token]), Refusal>
    requires { 0 < room }
    ensures gives { (names : Names) → Gives (λ x. (seen names x.0.items, x.1, placed names x.2.now)) result (declaration_at (seen names all.items) room (placed names tokens.now)) }
    ensures nest { IfOk result (λ x. x.1 ≤ room) }
    ensures shorter { IfOk result (λ x. length x.2.now < length tokens.now) }
{
    let (all, nest, rest) = local(alloc, room, all, tokens)?;
    let (_, rest) = expect_mark(rest, Punctuator::Semicolon)?;
    Ok((all, nest, rest))
}
