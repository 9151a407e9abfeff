//! A type and the parenthesis behind it.
ghost use Rattle.std.specs.Prelude.{◌≡◌, ◌<◌, ◌≤◌, ◌+◌, length, IfOk};
ghost use Rattle.cpc_tree.specs.Erase.{Names, type_of};
ghost use Rattle.cpc_parser_types.specs.Views.{placed, Gives};
ghost use Rattle.cpc_parser_types.specs.TypeReaders.{enclosed_type_at};
ghost use Rattle.cpc_parser_expressions.specs.Steps.{size_at, begins_cast};
ghost use Rattle.cpc_parser_expressions.specs.ShapeViews.{shape_of};

use crate::shape::Shape;
use crate::tokens::next_behind;
use cpc_parser_types::{
    Refusal, begins_base, begins_mark, expect_mark, fault, fault_behind, refused, type_name,
};
use cpc_tree::program::{CType, Expr};
use cpc_tree::token::{Punctuator, Token};
use std::alloc::Global;

/// A type without a name, and the parenthesis behind it.
pub fn enclosed_type(
    alloc: Global,
    depth: usize,
    tokens: &[Token],
) -> Result<(CType, usize, &[Token]), Refusal>
    ensures gives { (names : Names) → Gives (λ x. (type_of names x.0, x.1, placed names x.2.now)) result (enclosed_type_at depth (placed names tokens.now)) }
    ensures nest { IfOk result (λ x. x.1 ≤ depth) }
    ensures shorter { IfOk result (λ x. length x.2.now < length tokens.now) }
{
    let (of, nest, rest) = type_name(alloc, depth, tokens)?;
    let (_, rest) = match expect_mark(rest, Punctuator::RightParen) {
        Ok(read) => read,
        Err(refusal) => return refused(of, refusal),
    };
    Ok((of, nest, rest))
}

/// Whether the tokens begin a cast: a type stands behind their bracket.
pub fn begins_cast(tokens: &[Token]) -> bool
    ensures { (names : Names) → result ≡ begins_cast (placed names tokens.now) }
{
    match tokens.split_first() {
        Some((_, rest)) => begins_mark(tokens, Punctuator::LeftParen) && begins_base(rest),
        None => false,
    }
}

/// The size of a type, with the room inside. What stands behind it is no part of a postfix expression.
pub fn size(
    alloc: Global,
    room: usize,
    tokens: &[Token],
) -> Result<(Shape, usize, &[Token]), Refusal>
    requires { room < usize.MAX }
    ensures gives { (names : Names) → Gives (λ x. (shape_of names x.0, x.1, placed names x.2.now)) result (size_at room (placed names tokens.now)) }
    ensures nest { IfOk result (λ x. (0 < x.1) × (x.1 ≤ room + 1)) }
    ensures shorter { IfOk result (λ x. length x.2.now < length tokens.now) }
{
    let Some((token, rest)) = tokens.split_first() else {
        return fault(tokens);
    };
    let place = token.place;
    let (_, rest) = expect_mark(rest, Punctuator::LeftParen)?;
    let (target, nest, rest) = enclosed_type(alloc, room, rest)?;
    if next_behind(rest).is_some() {
        return fault_behind(target, rest);
    }
    Ok((Shape::Other(Expr::SizeOf { place, target }), nest + 1, rest))
}
