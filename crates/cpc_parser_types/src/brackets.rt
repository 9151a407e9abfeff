//! What stands behind a name, or in its place: brackets, and names that can be absent (C11 6.7.6).
ghost use Rattle.std.specs.Prelude.{◌≡◌, ◌<◌, ◌≤◌, ℕ, length, IfOk};
ghost use Rattle.std.specs.Option.{option_map};
ghost use Rattle.cpc_tree.specs.Erase.{Names, type_of};
ghost use Rattle.cpc_tree.specs.Locate.{ident};
ghost use Rattle.cpc_parser_reading.specs.Reading.{Read, one};
ghost use Rattle.cpc_parser_types.specs.Declarators.{length_in};
ghost use Rattle.cpc_parser_types.specs.TypeViews.{array_at, maybe_name_at, skipped_number_at, pointed_at};
ghost use Rattle.cpc_parser_types.specs.Views.{placed, Gives};

use crate::marks::{begins_mark, expect_mark, fault};
use crate::refusal::Refusal;
use cpc_tree::program::{CType, Word};
use cpc_tree::token::{Punctuator, Token, TokenKind};
use std::alloc::Global;

/// The element type, or the array that brackets with a length make of it.
pub fn array(alloc: Global, of: CType, tokens: &[Token]) -> Result<(CType, &[Token]), Refusal>
    ensures gives { (names : Names) (d : ℕ) → Gives (λ x. (type_of names x.0, 0, placed names x.1.now)) result (array_at (type_of names of) d (placed names tokens.now)) }
    ensures shorter { IfOk result (λ x. length x.1.now ≤ length tokens.now) }
{
    if !begins_mark(tokens, Punctuator::LeftBracket) {
        return Ok((of, tokens));
    }
    let (_, rest) = expect_mark(tokens, Punctuator::LeftBracket)?;
    let (length, rest) = length(rest)?;
    let (_, rest) = expect_mark(rest, Punctuator::RightBracket)?;
    Ok((CType::Array(Box::new(alloc, of)?, length), rest))
}

// The length of an array.
fn length(tokens: &[Token]) -> Result<(u64, &[Token]), Refusal>
    ensures gives { (names : Names) → Gives (λ x. (x.0, 0, placed names x.1.now)) result (one (λ t. length_in t.lexeme) (placed names tokens.now)) }
    ensures shorter { IfOk result (λ x. length x.1.now < length tokens.now) }
{
    match tokens.split_first() {
        Some((token, rest)) => match &token.kind {
            TokenKind::Integer(_, value) => {
                if *value < 0 || *value >= 18446744073709551616 {
                    fault(tokens)
                } else {
                    Ok((*value as u64, rest))
                }
            }
            _ => fault(tokens),
        },
        None => fault(tokens),
    }
}

/// A name that can be absent.
pub fn maybe_name(tokens: &[Token]) -> (Option<Word>, &[Token])
    ensures gives { (names : Names) (d : ℕ) → maybe_name_at d (placed names tokens.now) ≡ Read (option_map (ident names) result.0, 0, placed names result.1.now) }
    ensures shorter { length result.1.now ≤ length tokens.now }
{
    match tokens.split_first() {
        Some((token, rest)) => match &token.kind {
            TokenKind::Name(name) => {
                let place = token.place;
                (Some(Word { place, name: *name }), rest)
            }
            _ => (None, tokens),
        },
        None => (None, tokens),
    }
}

/// The type of a parameter, a pointer where brackets follow it.
pub fn pointed(alloc: Global, of: CType, tokens: &[Token]) -> Result<(CType, &[Token]), Refusal>
    ensures gives { (names : Names) (d : ℕ) → Gives (λ x. (type_of names x.0, 0, placed names x.1.now)) result (pointed_at (type_of names of) d (placed names tokens.now)) }
    ensures shorter { IfOk result (λ x. length x.1.now ≤ length tokens.now) }
{
    if !begins_mark(tokens, Punctuator::LeftBracket) {
        return Ok((of, tokens));
    }
    let (_, rest) = expect_mark(tokens, Punctuator::LeftBracket)?;
    let rest = without_integer(rest);
    let (_, rest) = expect_mark(rest, Punctuator::RightBracket)?;
    Ok((CType::Pointer(Box::new(alloc, of)?), rest))
}

// The tokens without the integer that may begin them.
fn without_integer(tokens: &[Token]) -> &[Token]
    ensures gives { (names : Names) (d : ℕ) → skipped_number_at d (placed names tokens.now) ≡ Read (tt, 0, placed names result.now) }
    ensures shorter { length result.now ≤ length tokens.now }
{
    match tokens.split_first() {
        Some((token, rest)) if matches!(&token.kind, TokenKind::Integer(_, _)) => rest,
        _ => tokens,
    }
}
