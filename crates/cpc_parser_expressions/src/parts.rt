//! Parts of expressions with no expression in them.
ghost use Rattle.std.specs.Prelude.{◌≡◌, ◌+◌, ◌<◌, ◌≤◌, length, max, IfOk};
ghost use Rattle.cpc_tree.specs.Erase.{Names};
ghost use Rattle.cpc_tree.specs.Located.{LIndex, LMember, LArrow};
ghost use Rattle.cpc_tree.specs.Locate.{located_expr};
ghost use Rattle.cpc_parser_reading.specs.Reading.{expect, one};
ghost use Rattle.cpc_parser_types.specs.TypeReaders.{ident_of, is_unbracket};
ghost use Rattle.cpc_parser_types.specs.Views.{placed, Gives};
ghost use Rattle.cpc_parser_expressions.specs.Shapes.{Postfixed};
ghost use Rattle.cpc_parser_expressions.specs.Steps.{onto, literal_at};
ghost use Rattle.cpc_parser_expressions.specs.PartCount.{part_count};
ghost use Rattle.cpc_parser_expressions.specs.ShapeViews.{shape_of, apart_of, behind_of};

use crate::nodes;
use crate::shape::{Apart, Shape, call_count};
use crate::tokens::Behind;
use cpc_base::Place;
use cpc_parser_types::{Refusal, expect_mark, fault, name, refused};
use cpc_tree::program::{Expr, Word};
use cpc_tree::token::{Punctuator, Token, TokenKind};
use std::alloc::Global;

/// A field of a struct, behind the point.
pub fn field(
    alloc: Global,
    place: Place,
    operand: Expr,
    nest: usize,
    tokens: &[Token],
) -> Result<(Shape, usize, &[Token]), Refusal>
    requires { nest < usize.MAX }
    ensures gives { (names : Names) → Gives (λ x. (shape_of names x.0, x.1, placed names x.2.now)) result (onto (λ y. Postfixed (LMember place (located_expr names operand) y)) (λ j. max (nest + 1) (j + 0)) (one ident_of) (placed names tokens.now)) }
    ensures nest { IfOk result (λ x. x.1 ≡ nest + 1) }
    ensures shorter { IfOk result (λ x. length x.2.now < length tokens.now) }
{
    let (word, rest) = match name(tokens) {
        Ok(read) => read,
        Err(refusal) => return refused(operand, refusal),
    };
    let whole = nodes::member(alloc, place, operand, word)?;
    Ok((Shape::Postfix(whole), nest + 1, rest))
}

/// A field of what a pointer points to, behind the arrow.
pub fn through(
    alloc: Global,
    place: Place,
    operand: Expr,
    nest: usize,
    tokens: &[Token],
) -> Result<(Shape, usize, &[Token]), Refusal>
    requires { nest < usize.MAX }
    ensures gives { (names : Names) → Gives (λ x. (shape_of names x.0, x.1, placed names x.2.now)) result (onto (λ y. Postfixed (LArrow place (located_expr names operand) y)) (λ j. max (nest + 1) (j + 0)) (one ident_of) (placed names tokens.now)) }
    ensures nest { IfOk result (λ x. x.1 ≡ nest + 1) }
    ensures shorter { IfOk result (λ x. length x.2.now < length tokens.now) }
{
    let (word, rest) = match name(tokens) {
        Ok(read) => read,
        Err(refusal) => return refused(operand, refusal),
    };
    let whole = nodes::arrow(alloc, place, operand, word)?;
    Ok((Shape::Postfix(whole), nest + 1, rest))
}

/// An element, behind its index.
pub fn element(
    alloc: Global,
    place: Place,
    operand: Expr,
    index: Expr,
    nest: usize,
    tokens: &[Token],
) -> Result<(Shape, usize, &[Token]), Refusal>
    requires { nest < usize.MAX }
    ensures gives { (names : Names) → Gives (λ x. (shape_of names x.0, x.1, placed names x.2.now)) result (onto (λ y. Postfixed (LIndex place (located_expr names operand) (located_expr names index))) (λ j. nest + 1) (expect (λ u. is_unbracket u.lexeme)) (placed names tokens.now)) }
    ensures nest { IfOk result (λ x. x.1 ≡ nest + 1) }
    ensures shorter { IfOk result (λ x. length x.2.now < length tokens.now) }
{
    let (_, rest) = match expect_mark(tokens, Punctuator::RightBracket) {
        Ok(read) => read,
        Err(refusal) => return refused((operand, index), refusal),
    };
    let whole = nodes::indexed(alloc, place, operand, index)?;
    Ok((Shape::Postfix(whole), nest + 1, rest))
}

/// A name or a literal.
pub fn literal(alloc: Global, tokens: &[Token]) -> Result<(Shape, usize, &[Token]), Refusal>
    ensures gives { (names : Names) → Gives (λ x. (shape_of names x.0, x.1, placed names x.2.now)) result (literal_at (placed names tokens.now)) }
    ensures nest { IfOk result (λ x. x.1 ≡ 1) }
    ensures shorter { IfOk result (λ x. length x.2.now < length tokens.now) }
{
    let Some((token, rest)) = tokens.split_first() else {
        return fault(tokens);
    };
    let place = token.place;
    match &token.kind {
        TokenKind::Keyword(_) => fault(tokens),
        TokenKind::Punctuator(_) => fault(tokens),
        TokenKind::Name(name) => {
            let word = Word { place, name: *name };
            Ok((Shape::Postfix(Expr::Name(word)), 1, rest))
        }
        TokenKind::Integer(kind, value) => {
            let whole = Expr::Integer {
                place,
                kind: *kind,
                value: *value,
            };
            Ok((Shape::Postfix(whole), 1, rest))
        }
        TokenKind::Character(value) => {
            let value = *value;
            Ok((Shape::Postfix(Expr::Character { place, value }), 1, rest))
        }
        TokenKind::Text(bytes) => {
            let bytes = bytes.to_vec(alloc)?;
            Ok((Shape::Postfix(Expr::Text { place, bytes }), 1, rest))
        }
    }
}

/// How much a part behind a postfix expression counts itself.
pub fn part_count(apart: Apart, class: Behind) -> usize
    ensures { result ≡ part_count (apart_of apart) (behind_of class) }
{
    match class {
        Behind::Args => call_count(apart),
        Behind::Index => 1,
        Behind::Field => 1,
        Behind::Through => 1,
    }
}
