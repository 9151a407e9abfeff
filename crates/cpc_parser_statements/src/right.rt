//! What stands behind `=`.
ghost use Rattle.std.specs.Prelude.{◌≡◌, ◌<◌, ◌≤◌, length, IfOk};
ghost use Rattle.cpc_tree.specs.Erase.{Names};
ghost use Rattle.cpc_tree.specs.Locate.{ident, located_exprs};
ghost use Rattle.cpc_parser_types.specs.Views.{placed, Gives};
ghost use Rattle.cpc_parser_statements.specs.SimpleReaders.{detached_at, right_of, right_at};
ghost use Rattle.cpc_parser_statements.specs.RightViews.{right_seen};
ghost use Rattle.cpc_parser_expressions.specs.ShapeViews.{shape_of};

use cpc_base::Place;
use cpc_parser_expressions::{Apart, Shape, arguments, begins_expr, whole_shape};
use cpc_parser_types::{Refusal, begins_word, expect_mark, expect_word, fault, name};
use cpc_tree::program::{Expr, Word};
use cpc_tree::token::{Keyword, Punctuator, Token};
use std::alloc::Global;

/// What stands behind `=`: a value, a whole call, or a section with the place of its keyword.
#[derive(Drop)]
pub enum Right {
    Value(Expr),
    Call {
        function: Expr,
        arguments: Vec<Expr>,
    },
    Section {
        keyword: Place,
        function: Word,
        arguments: Vec<Expr>,
    },
}

/// The function and the arguments of a section, behind its keyword.
pub fn section(
    alloc: Global,
    depth: usize,
    tokens: &[Token],
) -> Result<(Word, Vec<Expr>, usize, &[Token]), Refusal>
    ensures gives { (names : Names) → Gives (λ x. ((ident names x.0, located_exprs names x.1.items), x.2, placed names x.3.now)) result (detached_at depth (placed names tokens.now)) }
    ensures nest { IfOk result (λ x. x.2 ≤ depth) }
    ensures shorter { IfOk result (λ x. length x.3.now < length tokens.now) }
{
    let (function, rest) = name(tokens)?;
    let (_, rest) = expect_mark(rest, Punctuator::LeftParen)?;
    let (arguments, nest, rest) = arguments(alloc, depth, rest)?;
    Ok((function, arguments, nest, rest))
}

// The shape of an expression as what stands behind `=`.
fn taken(shape: Shape) -> Right
    ensures { (names : Names) → right_seen names result ≡ right_of (shape_of names shape) }
{
    match shape {
        Shape::Call {
            function,
            arguments,
            ..
        } => Right::Call {
            function,
            arguments,
        },
        Shape::Postfix(value) => Right::Value(value),
        Shape::Other(value) => Right::Value(value),
    }
}

/// What stands behind `=`, where there is room for an expression. A whole call, in any parentheses, is taken apart.
pub fn right_side(
    alloc: Global,
    depth: usize,
    tokens: &[Token],
) -> Result<(Right, usize, &[Token]), Refusal>
    requires { 0 < depth }
    ensures gives { (names : Names) → Gives (λ x. (right_seen names x.0, x.1, placed names x.2.now)) result (right_at depth (placed names tokens.now)) }
    ensures nest { IfOk result (λ x. x.1 ≤ depth) }
    ensures shorter { IfOk result (λ x. length x.2.now < length tokens.now) }
{
    if begins_word(tokens, Keyword::CpcDetached) {
        let (keyword, rest) = expect_word(tokens, Keyword::CpcDetached)?;
        let (function, arguments, nest, rest) = section(alloc, depth, rest)?;
        let right = Right::Section {
            keyword,
            function,
            arguments,
        };
        return Ok((right, nest, rest));
    }
    if !begins_expr(tokens) {
        return fault(tokens);
    }
    let (shape, nest, rest) = whole_shape(alloc, depth, Apart::Bracketed, tokens)?;
    Ok((taken(shape), nest, rest))
}
