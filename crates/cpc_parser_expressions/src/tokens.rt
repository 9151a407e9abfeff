//! How expressions begin and go on.
ghost use Rattle.std.specs.Prelude.{◌≡◌, is_some};
ghost use Rattle.std.specs.Option.{option_map};
ghost use Rattle.cpc_tree.specs.Erase.{Names};
ghost use Rattle.cpc_parser_types.specs.Views.{placed, tiered_of};
ghost use Rattle.cpc_parser_expressions.specs.ExprReaders.{prefix_class, postfix_class, operator_at};
ghost use Rattle.cpc_parser_expressions.specs.Steps.{first_of};
ghost use Rattle.cpc_parser_expressions.specs.ShapeViews.{prefix_of, behind_of};

use cpc_parser_types::{Operator, first_mark, tiered};
use cpc_tree::program::UnaryOp;
use cpc_tree::token::{Keyword, Punctuator, Token, TokenKind};

/// How a unary expression begins.
#[derive(Clone, Copy)]
pub enum Prefix {
    /// With an operator.
    Sign(UnaryOp),
    /// With `sizeof`.
    Size,
    /// With a literal, a name or a parenthesis.
    Plain,
}

/// What may follow a postfix expression.
#[derive(Clone, Copy)]
pub enum Behind {
    /// Arguments, at `(`.
    Args,
    /// An index, at `[`.
    Index,
    /// A field of a struct, at `.`.
    Field,
    /// A field of what a pointer points to, at `->`.
    Through,
}

/// How the tokens begin, if they begin an expression.
pub fn first_prefix(tokens: &[Token]) -> Option<Prefix>
    ensures { (names : Names) → option_map prefix_of result ≡ first_of prefix_class (placed names tokens.now) }
{
    let (token, _) = tokens.split_first()?;
    match &token.kind {
        TokenKind::Keyword(word) => match word {
            Keyword::Sizeof => Some(Prefix::Size),
            _ => None,
        },
        TokenKind::Punctuator(mark) => match mark {
            Punctuator::LeftParen => Some(Prefix::Plain),
            Punctuator::Minus => Some(Prefix::Sign(UnaryOp::Minus)),
            Punctuator::Plus => Some(Prefix::Sign(UnaryOp::Plus)),
            Punctuator::Exclamation => Some(Prefix::Sign(UnaryOp::Not)),
            Punctuator::Tilde => Some(Prefix::Sign(UnaryOp::Complement)),
            Punctuator::Star => Some(Prefix::Sign(UnaryOp::Dereference)),
            Punctuator::Ampersand => Some(Prefix::Sign(UnaryOp::AddressOf)),
            _ => None,
        },
        _ => Some(Prefix::Plain),
    }
}

/// Whether the tokens begin an expression.
pub fn begins_expr(tokens: &[Token]) -> bool
    ensures { (names : Names) → result ≡ is_some (first_of prefix_class (placed names tokens.now)) }
{
    first_prefix(tokens).is_some()
}

/// How an expression goes on with the tokens.
pub fn next_behind(tokens: &[Token]) -> Option<Behind>
    ensures { (names : Names) → option_map behind_of result ≡ first_of postfix_class (placed names tokens.now) }
{
    let (token, _) = tokens.split_first()?;
    match &token.kind {
        TokenKind::Punctuator(mark) => match mark {
            Punctuator::LeftParen => Some(Behind::Args),
            Punctuator::LeftBracket => Some(Behind::Index),
            Punctuator::Dot => Some(Behind::Field),
            Punctuator::Arrow => Some(Behind::Through),
            _ => None,
        },
        _ => None,
    }
}

/// The operator that the tokens begin with and its tier, which is `n` at most.
pub fn operator_of(tokens: &[Token], n: usize) -> Option<(usize, Operator)>
    ensures { (names : Names) → option_map tiered_of result ≡ first_of (operator_at n) (placed names tokens.now) }
{
    let (tier, op) = tiered(first_mark(tokens)?)?;
    if tier <= n { Some((tier, op)) } else { None }
}
