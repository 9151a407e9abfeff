//! What stands first behind the base type of a declaration (C11 6.7.6).
ghost use Rattle.std.specs.Prelude.{◌≡◌, ◌<◌, length, IfOk};
ghost use Rattle.cpc_tree.specs.Erase.{Names, type_of};
ghost use Rattle.cpc_parser_types.specs.TypeViews.{base_type};
ghost use Rattle.cpc_parser_types.specs.Views.{placed, Gives};
ghost use Rattle.cpc_parser.specs.ItemViews.{flat, seen_view, seen_at, named_seen_at};

use crate::declaration::Seen;
use crate::function::{Head, signature};
use cpc_parser_types::{Base, Refusal, array, begins_mark, declarator, name, stars};
use cpc_tree::program::CType;
use cpc_tree::token::{Punctuator, Token};
use std::alloc::Global;

/// What stands first behind a base type: a variable, or the head of a function.
pub fn first(
    alloc: Global,
    depth: usize,
    base: Base,
    tokens: &[Token],
) -> Result<(Seen, &[Token]), Refusal>
    ensures gives { (names : Names) → Gives (λ x. (seen_view names x.0, 0, placed names x.1.now)) result (flat (seen_at (base_type names base) depth) (placed names tokens.now)) }
    ensures shorter { IfOk result (λ x. length x.1.now < length tokens.now) }
{
    let (of, _, rest) = stars(alloc, depth, base, tokens)?;
    if begins_mark(rest, Punctuator::LeftParen) {
        // A pointer to a function is a declarator, which begins with the stars.
        let (word, of, _, rest) = declarator(alloc, depth, base, tokens)?;
        return Ok((Seen::Variable(word, of), rest));
    }
    named(alloc, depth, of, rest)
}

// A name behind a type with its stars, and its brackets or parameters.
fn named(
    alloc: Global,
    depth: usize,
    of: CType,
    tokens: &[Token],
) -> Result<(Seen, &[Token]), Refusal>
    ensures gives { (names : Names) → Gives (λ x. (seen_view names x.0, 0, placed names x.1.now)) result (flat (named_seen_at (type_of names of) depth) (placed names tokens.now)) }
    ensures shorter { IfOk result (λ x. length x.1.now < length tokens.now) }
{
    let (word, rest) = name(tokens)?;
    if begins_mark(rest, Punctuator::LeftParen) {
        let (parameters, rest) = signature(alloc, depth, rest)?;
        let head = Head {
            word,
            result: of,
            parameters,
        };
        return Ok((Seen::Function(head), rest));
    }
    let (of, rest) = array(alloc, of, rest)?;
    Ok((Seen::Variable(word, of), rest))
}
