//! Declarators, parameters and types without names (C11 6.7.6 and 6.7.7).
ghost use Rattle.std.specs.Prelude.{◌≡◌, ◌<◌, ◌≤◌, ℕ, false, length, map, IfOk};
ghost use Rattle.cpc_tree.specs.Erase.{Names, type_of};
ghost use Rattle.cpc_tree.specs.Locate.{ident, located_parameter};
ghost use Rattle.cpc_parser_types.specs.Begins.{begins_name};
ghost use Rattle.cpc_parser_types.specs.Declarators.{declarator_at, variable_at};
ghost use Rattle.cpc_parser_types.specs.TypeViews.{base_type, coded_at, parameter_at, parameters_at, row_at, type_at};
ghost use Rattle.cpc_parser_types.specs.Views.{placed, Gives};

use crate::base::{Base, begins_base, stars, typed};
use crate::brackets::{array, maybe_name, pointed};
use crate::code::{code_type, without_void};
use crate::marks::{begins_mark, begins_name, deep, deeper, expect_mark, fault, name};
use crate::refusal::Refusal;
use cpc_tree::program::{CType, Parameter, Word};
use cpc_tree::token::{Punctuator, Token};
use std::alloc::Global;

/// A variable behind a base type.
pub fn declarator(
    alloc: Global,
    depth: usize,
    base: Base,
    tokens: &[Token],
) -> Result<(Word, CType, usize, &[Token]), Refusal>
    ensures gives { (names : Names) → Gives (λ x. (record { called = ident names x.0; type = type_of names x.1 }, x.2, placed names x.3.now)) result (declarator_at (base_type names base) depth (placed names tokens.now)) }
    ensures nest { IfOk result (λ x. x.2 ≤ depth) }
    ensures shorter { IfOk result (λ x. length x.3.now < length tokens.now) }
{
    let (of, nest, rest) = stars(alloc, depth, base, tokens)?;
    if !begins_name(rest) {
        return pointer(alloc, depth, of, nest, rest);
    }
    let (word, rest) = name(rest)?;
    let (of, rest) = array(alloc, of, rest)?;
    Ok((word, of, nest, rest))
}

// A variable that is a pointer to a function whose result and its nesting are known, from its opening mark on.
fn pointer(
    alloc: Global,
    depth: usize,
    of: CType,
    nest: usize,
    tokens: &[Token],
) -> Result<(Word, CType, usize, &[Token]), Refusal>
    requires unnamed { (names : Names) → begins_name (placed names tokens.now) ≡ false }
    requires nest { nest ≤ depth }
    ensures gives { (names : Names) → Gives (λ x. (record { called = ident names x.0; type = type_of names x.1 }, x.2, placed names x.3.now)) result (variable_at (type_of names of) nest depth (placed names tokens.now)) }
    ensures nest { IfOk result (λ x. x.2 ≤ depth) }
    ensures shorter { IfOk result (λ x. length x.3.now < length tokens.now) }
{
    if !begins_mark(tokens, Punctuator::LeftParen) {
        return fault(tokens);
    }
    if depth == 0 {
        return deep(tokens);
    }
    let (_, rest) = expect_mark(tokens, Punctuator::LeftParen)?;
    let (_, rest) = expect_mark(rest, Punctuator::Star)?;
    let (word, rest) = name(rest)?;
    let (of, nest, rest) = code(alloc, depth, of, nest, rest)?;
    Ok((word, of, nest, rest))
}

// The pointer to a function whose result and its nesting are known, from the `)` behind its star or name on.
#[cycle(parameters)]
fn code(
    alloc: Global,
    depth: usize,
    of: CType,
    nest: usize,
    tokens: &[Token],
) -> Result<(CType, usize, &[Token]), Refusal>
    requires room { 0 < depth }
    requires nest { nest ≤ depth }
    ensures gives { (names : Names) → Gives (λ x. (type_of names x.0, x.1, placed names x.2.now)) result (coded_at (type_of names of) nest depth (placed names tokens.now)) }
    ensures nest { IfOk result (λ x. x.1 ≤ depth) }
    ensures shorter { IfOk result (λ x. length x.2.now < length tokens.now) }
{
    let (_, rest) = expect_mark(tokens, Punctuator::RightParen)?;
    let (_, rest) = expect_mark(rest, Punctuator::LeftParen)?;
    let (list, inner, rest) = parameters(alloc, depth - 1, rest)?;
    let (_, rest) = expect_mark(rest, Punctuator::RightParen)?;
    let of = code_type(alloc, of, list)?;
    Ok((of, deeper(nest, inner + 1), rest))
}

/// What stands between the brackets of a parameter list. The word `void` alone is no parameter.
#[cycle(parameters)]
pub fn parameters(
    alloc: Global,
    depth: usize,
    tokens: &[Token],
) -> Result<(Vec<Parameter>, usize, &[Token]), Refusal>
    ensures gives { (names : Names) → Gives (λ x. (map (located_parameter names) x.0.items, x.1, placed names x.2.now)) result (parameters_at depth (placed names tokens.now)) }
    ensures nest { IfOk result (λ x. x.1 ≤ depth) }
    ensures shorter { IfOk result (λ x. length x.2.now ≤ length tokens.now) }
{
    if !begins_base(tokens) {
        return Ok((Vec::new(alloc), 0, tokens));
    }
    let (list, nest, rest) = row(alloc, depth, tokens)?;
    Ok((without_void(list), nest, rest))
}

// Parameters with commas between them.
#[cycle(parameters)]
fn row(
    alloc: Global,
    depth: usize,
    tokens: &[Token],
) -> Result<(Vec<Parameter>, usize, &[Token]), Refusal>
    ensures gives { (names : Names) → Gives (λ x. (map (located_parameter names) x.0.items, x.1, placed names x.2.now)) result (row_at depth (placed names tokens.now)) }
    ensures nest { IfOk result (λ x. x.1 ≤ depth) }
    ensures shorter { IfOk result (λ x. length x.2.now < length tokens.now) }
{
    let (first, mut nest, mut rest) = parameter(alloc, depth, tokens)?;
    let mut all = Vec::new(alloc);
    all.push(first)?;
    'more: while begins_mark(rest, Punctuator::Comma) {
        let (_, behind) = expect_mark(rest, Punctuator::Comma)?;
        let (next, other, behind) = parameter(alloc, depth, behind)?;
        all.push(next)?;
        nest = deeper(nest, other);
        rest = behind;
    }
    Ok((all, nest, rest))
}

// A parameter. One written as an array is a pointer (C11 6.7.6.3).
#[cycle(parameters)]
fn parameter(
    alloc: Global,
    depth: usize,
    tokens: &[Token],
) -> Result<(Parameter, usize, &[Token]), Refusal>
    ensures gives { (names : Names) → Gives (λ x. (located_parameter names x.0, x.1, placed names x.2.now)) result (parameter_at depth (placed names tokens.now)) }
    ensures nest { IfOk result (λ x. x.1 ≤ depth) }
    ensures shorter { IfOk result (λ x. length x.2.now < length tokens.now) }
{
    let (of, nest, rest) = typed(alloc, depth, tokens)?;
    if begins_mark(rest, Punctuator::LeftParen) {
        if depth == 0 {
            return deep(rest);
        }
        let (_, rest) = expect_mark(rest, Punctuator::LeftParen)?;
        let (_, rest) = expect_mark(rest, Punctuator::Star)?;
        let (word, rest) = maybe_name(rest);
        let (of, nest, rest) = code(alloc, depth, of, nest, rest)?;
        return Ok((Parameter { word, of }, nest, rest));
    }
    let (word, rest) = maybe_name(rest);
    let (of, rest) = pointed(alloc, of, rest)?;
    Ok((Parameter { word, of }, nest, rest))
}

/// A type without a name (C11 6.7.7).
pub fn type_name(
    alloc: Global,
    depth: usize,
    tokens: &[Token],
) -> Result<(CType, usize, &[Token]), Refusal>
    ensures gives { (names : Names) → Gives (λ x. (type_of names x.0, x.1, placed names x.2.now)) result (type_at depth (placed names tokens.now)) }
    ensures nest { IfOk result (λ x. x.1 ≤ depth) }
    ensures shorter { IfOk result (λ x. length x.2.now < length tokens.now) }
{
    let (of, nest, rest) = typed(alloc, depth, tokens)?;
    if !begins_mark(rest, Punctuator::LeftParen) {
        return Ok((of, nest, rest));
    }
    if depth == 0 {
        return deep(rest);
    }
    let (_, rest) = expect_mark(rest, Punctuator::LeftParen)?;
    let (_, rest) = expect_mark(rest, Punctuator::Star)?;
    code(alloc, depth, of, nest, rest)
}
