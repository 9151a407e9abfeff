//! What globals start with (C11 6.7.9).
ghost use Rattle.std.specs.Prelude.{◌≡◌, ◌<◌, ◌≤◌, length, IfOk};
ghost use Rattle.std.specs.Option.{option_map};
ghost use Rattle.cpc_tree.specs.Erase.{Names};
ghost use Rattle.cpc_tree.specs.Locate.{located_expr};
ghost use Rattle.cpc_parser_reading.specs.Reading.{one};
ghost use Rattle.cpc_parser_types.specs.Views.{placed, Gives};
ghost use Rattle.cpc_parser.specs.ItemReaders.{integer_in, literal_in, initial_at};
ghost use Rattle.cpc_parser.specs.ItemViews.{flat, starting_at};

use cpc_parser_types::{Refusal, begins_mark, deep, expect_mark, fault};
use cpc_tree::program::{Expr, Operand, UnaryOp};
use cpc_tree::token::{Punctuator, Token, TokenKind};
use std::alloc::Global;

// An integer.
fn integer(tokens: &[Token]) -> Result<(Expr, &[Token]), Refusal>
    ensures gives { (names : Names) → Gives (λ x. (located_expr names x.0, 0, placed names x.1.now)) result (one (λ t. integer_in t.place t.lexeme) (placed names tokens.now)) }
    ensures shorter { IfOk result (λ x. length x.1.now < length tokens.now) }
{
    let Some((token, rest)) = tokens.split_first() else {
        return fault(tokens);
    };
    let TokenKind::Integer(kind, value) = &token.kind else {
        return fault(tokens);
    };
    let whole = Expr::Integer {
        place: token.place,
        kind: *kind,
        value: *value,
    };
    Ok((whole, rest))
}

// An integer, a character or a string.
fn literal(alloc: Global, tokens: &[Token]) -> Result<(Expr, &[Token]), Refusal>
    ensures gives { (names : Names) → Gives (λ x. (located_expr names x.0, 0, placed names x.1.now)) result (one (λ t. literal_in t.place t.lexeme) (placed names tokens.now)) }
    ensures shorter { IfOk result (λ x. length x.1.now < length tokens.now) }
{
    let Some((token, rest)) = tokens.split_first() else {
        return fault(tokens);
    };
    let place = token.place;
    match &token.kind {
        TokenKind::Character(value) => {
            let value = *value;
            Ok((Expr::Character { place, value }, rest))
        }
        TokenKind::Text(bytes) => {
            let bytes = bytes.to_vec(alloc)?;
            Ok((Expr::Text { place, bytes }, rest))
        }
        _ => integer(tokens),
    }
}

/// What a global starts with: a literal, or an integer with its minus.
pub fn initial(alloc: Global, depth: usize, tokens: &[Token]) -> Result<(Expr, &[Token]), Refusal>
    requires { 0 < depth }
    ensures gives { (names : Names) → Gives (λ x. (located_expr names x.0, 0, placed names x.1.now)) result (flat (initial_at depth) (placed names tokens.now)) }
    ensures shorter { IfOk result (λ x. length x.1.now < length tokens.now) }
{
    if !begins_mark(tokens, Punctuator::Minus) {
        return literal(alloc, tokens);
    }
    if depth < 2 {
        return deep(tokens);
    }
    let (place, rest) = expect_mark(tokens, Punctuator::Minus)?;
    let (operand, rest) = integer(rest)?;
    let whole = Expr::Unary {
        place,
        op: UnaryOp::Minus,
        operand: Box::new(alloc, operand)?,
    };
    Ok((whole, rest))
}

/// What a global starts with, if it is written.
pub fn start(
    alloc: Global,
    depth: usize,
    tokens: &[Token],
) -> Result<(Option<Operand>, &[Token]), Refusal>
    ensures gives { (names : Names) → Gives (λ x. (option_map (located_expr names) x.0, 0, placed names x.1.now)) result (flat (starting_at depth) (placed names tokens.now)) }
    ensures shorter { IfOk result (λ x. length x.1.now ≤ length tokens.now) }
{
    if !begins_mark(tokens, Punctuator::Equal) {
        return Ok((None, tokens));
    }
    if depth == 0 {
        return deep(tokens);
    }
    let (_, rest) = expect_mark(tokens, Punctuator::Equal)?;
    let (value, rest) = initial(alloc, depth, rest)?;
    Ok((Some(Operand::new(value)), rest))
}
