//! Expressions (C11 6.5).
//!
//! A function gives what it read, how deep that nests (at most `depth`, and 1 at least but for arguments), and the
//! tokens behind it, which are fewer. It refuses with `Syntax` at a token that no expression goes on with, and with
//! `Deep` where the nesting would pass `depth`, both with the number of tokens from there on; and with `Memory`.
ghost use Rattle.std.specs.Prelude.{◌-◌, ◌<◌, ◌≤◌, ℕ, length, IfOk};
ghost use Rattle.cpc_tree.specs.Erase.{Names};
ghost use Rattle.cpc_tree.specs.Locate.{located_expr, located_exprs};
ghost use Rattle.cpc_tree.specs.ExprGrammar.{Postfix, Unary, Tier, Whole};
ghost use Rattle.cpc_parser_types.specs.Views.{placed, Gives, operator_of};
ghost use Rattle.cpc_parser_expressions.specs.ExprReaders.{was_call, rank_expr_at, expr_at, args_at, shape_at, cast_at, atom_at, tier_links, postfix_links};
ghost use Rattle.cpc_parser_expressions.specs.Steps.{stepped, inner_of, args_room, within_at};
ghost use Rattle.cpc_parser_expressions.specs.ShapeViews.{shape_of, apart_of, behind_of};

use crate::enclosed::{begins_cast, enclosed_type, size};
use crate::nodes;
use crate::parts::{element, field, literal, part_count, through};
use crate::shape::{Apart, Shape, inside, opened};
use crate::tokens::{Behind, Prefix, begins_expr, first_prefix, next_behind, operator_of};
use cpc_parser_types::{
    Operator, Refusal, added, begins_mark, deep, deep_behind, deeper, expect_mark, fault,
    fault_behind, refused,
};
use cpc_tree::program::Expr;
use cpc_tree::token::{Punctuator, Token};
use std::alloc::Global;

const TOP_TIER: usize = 10;

/// An expression, with no call taken apart. There is room for one at least.
#[cycle(expr)]
pub fn expr(
    alloc: Global,
    depth: usize,
    tokens: &[Token],
) -> Result<(Expr, usize, &[Token]), Refusal>
    requires { 0 < depth }
    ensures gives { (names : Names) → Gives (λ x. (located_expr names x.0, x.1, placed names x.2.now)) result (expr_at depth (placed names tokens.now)) }
    ensures nest { IfOk result (λ x. (0 < x.1) × (x.1 ≤ depth)) }
    ensures shorter { IfOk result (λ x. length x.2.now < length tokens.now) }
{
    let (shape, nest, rest) = whole_shape(alloc, depth, Apart::Never, tokens)?;
    Ok((shape.whole(alloc)?, nest, rest))
}

/// An expression, of which a whole call is taken apart as `apart` says. There is room for one at least.
#[cycle(expr)]
pub fn whole_shape(
    alloc: Global,
    depth: usize,
    apart: Apart,
    tokens: &[Token],
) -> Result<(Shape, usize, &[Token]), Refusal>
    requires { 0 < depth }
    ensures gives { (names : Names) → Gives (λ x. (shape_of names x.0, x.1, placed names x.2.now)) result (shape_at depth (apart_of apart) Whole (placed names tokens.now)) }
    ensures nest { IfOk result (λ x. (0 < x.1) × (x.1 ≤ depth)) }
    ensures shorter { IfOk result (λ x. length x.2.now < length tokens.now) }
{
    let (test, nest, rest) = tier(alloc, depth, TOP_TIER, apart, tokens)?;
    if !begins_mark(rest, Punctuator::Question) {
        return Ok((test, nest, rest));
    }
    let (place, arms) = match expect_mark(rest, Punctuator::Question) {
        Ok(read) => read,
        Err(refusal) => return refused(test, refusal),
    };
    let extra = test.extra();
    if extra >= depth - nest {
        return deep_behind(test, rest);
    }
    let outer = nest + extra;
    let (yes, first, rest) = match expr(alloc, depth - 1, arms) {
        Ok(read) => read,
        Err(refusal) => return refused(test, refusal),
    };
    let (_, rest) = match expect_mark(rest, Punctuator::Colon) {
        Ok(read) => read,
        Err(refusal) => return refused((test, yes), refusal),
    };
    let (no, second, rest) = match expr(alloc, depth - 1, rest) {
        Ok(read) => read,
        Err(refusal) => return refused((test, yes), refusal),
    };
    let test = match test.whole(alloc) {
        Ok(read) => read,
        Err(refusal) => return refused((yes, no), refusal),
    };
    let whole = nodes::chosen(alloc, place, test, yes, no)?;
    let nest = deeper(outer, deeper(first, second)) + 1;
    Ok((Shape::Other(whole), nest, rest))
}

// An expression whose operators are of a tier at most; those of tier 0 are casts. The operand behind an operator has
// lower tiers alone, so what stands behind it is an operator of the same tier or of a higher one, with all before it.
#[cycle(expr)]
fn tier(
    alloc: Global,
    depth: usize,
    n: usize,
    apart: Apart,
    tokens: &[Token],
) -> Result<(Shape, usize, &[Token]), Refusal>
    requires { 0 < depth }
    ensures gives { (names : Names) → Gives (λ x. (shape_of names x.0, x.1, placed names x.2.now)) result (shape_at depth (apart_of apart) (Tier n) (placed names tokens.now)) }
    ensures nest { IfOk result (λ x. (0 < x.1) × (x.1 ≤ depth)) }
    ensures shorter { IfOk result (λ x. length x.2.now < length tokens.now) }
{
    let (mut left, mut nest, mut rest) = cast(alloc, depth, apart, tokens)?;
    'ops: while let Some((t, op)) = operator_of(rest, n) {
        let (whole, outer, behind) = applied(alloc, depth, t, op, left, nest, rest)?;
        left = whole;
        nest = outer;
        rest = behind;
    }
    Ok((left, nest, rest))
}

// An operator behind its first operand, and the second.
#[cycle(expr)]
fn applied(
    alloc: Global,
    depth: usize,
    t: usize,
    op: Operator,
    left: Shape,
    nest: usize,
    tokens: &[Token],
) -> Result<(Shape, usize, &[Token]), Refusal>
    requires tier { 0 < t }
    requires low { 0 < nest }
    requires high { nest ≤ depth }
    ensures gives { (names : Names) (n : ℕ) → Gives (λ x. (shape_of names x.0, x.1, placed names x.2.now)) result (stepped (tier_links (rank_expr_at (depth - 1)) depth n) ((t, operator_of op), was_call (shape_of names left)) (shape_of names left) nest (placed names tokens.now)) }
    ensures nest { IfOk result (λ x. (0 < x.1) × (x.1 ≤ depth)) }
    ensures shorter { IfOk result (λ x. length x.2.now < length tokens.now) }
{
    let Some((token, rest)) = tokens.split_first() else {
        return fault_behind(left, tokens);
    };
    let extra = left.extra();
    if extra >= depth - nest {
        return deep_behind(left, tokens);
    }
    let place = token.place;
    let outer = nest + extra;
    let (right, other, rest) = match tier(alloc, depth - 1, t - 1, Apart::Never, rest) {
        Ok(read) => read,
        Err(refusal) => return refused(left, refusal),
    };
    let left = match left.whole(alloc) {
        Ok(read) => read,
        Err(refusal) => return refused(right, refusal),
    };
    let right = match right.whole(alloc) {
        Ok(read) => read,
        Err(refusal) => return refused(left, refusal),
    };
    let whole = nodes::operated(alloc, op, place, left, right)?;
    Ok((Shape::Other(whole), deeper(outer, other) + 1, rest))
}

// A cast, or a unary expression.
#[cycle(expr)]
fn cast(
    alloc: Global,
    depth: usize,
    apart: Apart,
    tokens: &[Token],
) -> Result<(Shape, usize, &[Token]), Refusal>
    requires { 0 < depth }
    ensures gives { (names : Names) → Gives (λ x. (shape_of names x.0, x.1, placed names x.2.now)) result (cast_at (inner_of (apart_of apart) depth) depth (apart_of apart) (placed names tokens.now)) }
    ensures nest { IfOk result (λ x. (0 < x.1) × (x.1 ≤ depth)) }
    ensures shorter { IfOk result (λ x. length x.2.now < length tokens.now) }
{
    if !begins_cast(tokens) {
        return unary(alloc, depth, apart, tokens);
    }
    if depth < 2 {
        return deep(tokens);
    }
    let (place, rest) = expect_mark(tokens, Punctuator::LeftParen)?;
    let (target, outer, rest) = enclosed_type(alloc, depth - 1, rest)?;
    let (operand, inner, rest) = match tier(alloc, depth - 1, 0, Apart::Never, rest) {
        Ok(read) => read,
        Err(refusal) => return refused(target, refusal),
    };
    let operand = match operand.whole(alloc) {
        Ok(read) => read,
        Err(refusal) => return refused(target, refusal),
    };
    let whole = nodes::cast(alloc, place, target, operand)?;
    Ok((Shape::Other(whole), deeper(outer, inner) + 1, rest))
}

/// A unary expression, of which a whole call is taken apart as `apart` says. There is room for one at least.
#[cycle(expr)]
pub fn unary(
    alloc: Global,
    depth: usize,
    apart: Apart,
    tokens: &[Token],
) -> Result<(Shape, usize, &[Token]), Refusal>
    requires { 0 < depth }
    ensures gives { (names : Names) → Gives (λ x. (shape_of names x.0, x.1, placed names x.2.now)) result (shape_at depth (apart_of apart) Unary (placed names tokens.now)) }
    ensures nest { IfOk result (λ x. (0 < x.1) × (x.1 ≤ depth)) }
    ensures shorter { IfOk result (λ x. length x.2.now < length tokens.now) }
{
    match first_prefix(tokens) {
        None => fault(tokens),
        Some(Prefix::Plain) => postfix(alloc, depth, apart, tokens),
        Some(Prefix::Size) => size(alloc, depth - 1, tokens),
        Some(Prefix::Sign(op)) => {
            if depth < 2 {
                return deep(tokens);
            }
            let Some((token, rest)) = tokens.split_first() else {
                return fault(tokens);
            };
            let place = token.place;
            let (operand, nest, rest) = tier(alloc, depth - 1, 0, Apart::Never, rest)?;
            let whole = nodes::signed(alloc, op, place, operand.whole(alloc)?)?;
            Ok((Shape::Other(whole), nest + 1, rest))
        }
    }
}

// A primary expression and what stands behind it.
#[cycle(expr)]
fn postfix(
    alloc: Global,
    depth: usize,
    apart: Apart,
    tokens: &[Token],
) -> Result<(Shape, usize, &[Token]), Refusal>
    requires { 0 < depth }
    ensures gives { (names : Names) → Gives (λ x. (shape_of names x.0, x.1, placed names x.2.now)) result (shape_at depth (apart_of apart) Postfix (placed names tokens.now)) }
    ensures nest { IfOk result (λ x. (0 < x.1) × (x.1 ≤ depth)) }
    ensures shorter { IfOk result (λ x. length x.2.now < length tokens.now) }
{
    let (mut shape, mut nest, mut rest) = primary(alloc, depth, apart, tokens)?;
    'parts: while let Some(class) = next_behind(rest) {
        let (whole, outer, behind) = part(alloc, depth, apart, class, shape, nest, rest)?;
        shape = whole;
        nest = outer;
        rest = behind;
    }
    Ok((shape, nest, rest))
}

// A postfix expression with a part behind it.
#[cycle(expr)]
fn part(
    alloc: Global,
    depth: usize,
    apart: Apart,
    class: Behind,
    shape: Shape,
    nest: usize,
    tokens: &[Token],
) -> Result<(Shape, usize, &[Token]), Refusal>
    requires low { 0 < nest }
    requires high { nest ≤ depth }
    ensures gives { (names : Names) → Gives (λ x. (shape_of names x.0, x.1, placed names x.2.now)) result (stepped (postfix_links (expr_at (depth - 1)) (args_at (args_room (apart_of apart) depth)) depth (apart_of apart)) (behind_of class, was_call (shape_of names shape)) (shape_of names shape) nest (placed names tokens.now)) }
    ensures nest { IfOk result (λ x. (0 < x.1) × (x.1 ≤ depth)) }
    ensures shorter { IfOk result (λ x. length x.2.now < length tokens.now) }
{
    let Some((token, rest)) = tokens.split_first() else {
        return fault_behind(shape, tokens);
    };
    let own = part_count(apart, class);
    let extra = shape.extra();
    if depth - nest < extra + own {
        return deep_behind(shape, tokens);
    }
    let outer = nest + extra;
    let whole = shape.whole(alloc)?;
    match class {
        Behind::Args => {
            let (all, other, rest) = match arguments(alloc, depth - own, rest) {
                Ok(read) => read,
                Err(refusal) => return refused(whole, refusal),
            };
            let shape = nodes::call(alloc, apart, token.place, whole, all)?;
            Ok((shape, deeper(outer + own, other + own), rest))
        }
        Behind::Index => {
            let (index, other, rest) = match expr(alloc, depth - 1, rest) {
                Ok(read) => read,
                Err(refusal) => return refused(whole, refusal),
            };
            element(alloc, token.place, whole, index, deeper(outer, other), rest)
        }
        Behind::Field => field(alloc, token.place, whole, outer, rest),
        Behind::Through => through(alloc, token.place, whole, outer, rest),
    }
}

/// Arguments, up to the bracket behind them and with it. Where there are none nothing nests, and `depth` can be 0.
#[cycle(expr)]
pub fn arguments(
    alloc: Global,
    depth: usize,
    tokens: &[Token],
) -> Result<(Vec<Expr>, usize, &[Token]), Refusal>
    ensures gives { (names : Names) → Gives (λ x. (located_exprs names x.0.items, x.1, placed names x.2.now)) result (args_at depth (placed names tokens.now)) }
    ensures nest { IfOk result (λ x. x.1 ≤ depth) }
    ensures shorter { IfOk result (λ x. length x.2.now < length tokens.now) }
{
    if !begins_expr(tokens) {
        let (_, rest) = expect_mark(tokens, Punctuator::RightParen)?;
        return Ok((Vec::new(alloc), 0, rest));
    }
    if depth == 0 {
        return deep(tokens);
    }
    let (first, other, behind) = expr(alloc, depth, tokens)?;
    let mut all = added(Vec::new(alloc), first)?;
    let mut nest = other;
    let mut rest = behind;
    'more: while begins_mark(rest, Punctuator::Comma) {
        let (_, behind) = match expect_mark(rest, Punctuator::Comma) {
            Ok(read) => read,
            Err(refusal) => return refused(all, refusal),
        };
        let (next, other, behind) = match expr(alloc, depth, behind) {
            Ok(read) => read,
            Err(refusal) => return refused(all, refusal),
        };
        all = added(all, next)?;
        nest = deeper(nest, other);
        rest = behind;
    }
    let (_, rest) = match expect_mark(rest, Punctuator::RightParen) {
        Ok(read) => read,
        Err(refusal) => return refused(all, refusal),
    };
    Ok((all, nest, rest))
}

// A name, a literal, or an expression in parentheses.
#[cycle(expr)]
fn primary(
    alloc: Global,
    depth: usize,
    apart: Apart,
    tokens: &[Token],
) -> Result<(Shape, usize, &[Token]), Refusal>
    requires { 0 < depth }
    ensures gives { (names : Names) → Gives (λ x. (shape_of names x.0, x.1, placed names x.2.now)) result (atom_at (within_at (apart_of apart) depth) depth (placed names tokens.now)) }
    ensures nest { IfOk result (λ x. (0 < x.1) × (x.1 ≤ depth)) }
    ensures shorter { IfOk result (λ x. length x.2.now < length tokens.now) }
{
    if !begins_mark(tokens, Punctuator::LeftParen) {
        return literal(alloc, tokens);
    }
    if depth < 2 {
        return deep(tokens);
    }
    let (_, rest) = expect_mark(tokens, Punctuator::LeftParen)?;
    let (inner, nest, rest) = whole_shape(alloc, depth - 1, inside(apart), rest)?;
    let (_, rest) = match expect_mark(rest, Punctuator::RightParen) {
        Ok(read) => read,
        Err(refusal) => return refused(inner, refusal),
    };
    Ok((opened(inner), nest + 1, rest))
}
