//! Declarations of locals, without their semicolons.
ghost use Rattle.std.specs.Prelude.{◌≡◌, ◌-◌, ◌<◌, ◌≤◌, ◌++◌, ◌∷◌, false, length, IfOk, IfErr, IfSome, IfNone};
ghost use Rattle.cpc_parser_types.specs.declared.refusal.Refusal.TheVariants as GRefusal;
ghost use Rattle.cpc_tree.specs.Erase.{Names, type_of};
ghost use Rattle.cpc_parser_types.specs.Begins.{begins};
ghost use Rattle.cpc_tree.specs.declared.token.TokenKind.TheVariants as GKind;
ghost use Rattle.cpc_tree.specs.declared.token.Punctuator.TheVariants as GMark;
ghost use Rattle.cpc_tree.specs.StmtGrammar.{begun};
ghost use Rattle.cpc_parser_reading.specs.Reading.{mapped};
ghost use Rattle.cpc_parser_types.specs.Views.{placed, Gives};
ghost use Rattle.cpc_parser_types.specs.TypeViews.{base_type};
ghost use Rattle.cpc_parser_statements.specs.LocalReaders.{local_at, local_of, part_at};
ghost use Rattle.cpc_parser_statements.specs.RightViews.{right_seen};
ghost use Rattle.cpc_parser_statements.specs.CodeViews.{seen, variable_seen, with_local, with_locals, locals_at, started_at};

use crate::right::{Right, right_side};
use crate::simple::given;
use cpc_base::Place;
use cpc_parser_types::{
    Base, Refusal, base_type, begins_mark, declarator, deep, deeper, expect_mark, fault,
};
use cpc_tree::program::{CType, Expr, Operand, Statement, Word};
use cpc_tree::token::{Punctuator, Token};
use std::alloc::Global;

// A local with its initialiser: a call or a section is a statement of its own.
fn begun(
    place: Place,
    word: Word,
    of: CType,
    right: Right,
    all: Vec<Statement>,
) -> Result<Vec<Statement>, Refusal>
    ensures is { IfOk result (λ v. (names : Names) → seen names v.items ≡ seen names all.items ++ begun place (variable_seen names word of) (right_seen names right)) }
    ensures wants { IfErr result (λ e. e ≡ GRefusal.Memory) }
{
    let mut all = all;
    match right {
        Right::Value(value) => {
            all.push(Statement::Declare {
                place,
                word,
                of,
                start: Some(Operand::new(value)),
            })?;
        }
        apart => {
            all.push(Statement::Declare {
                place,
                word,
                of,
                start: None,
            })?;
            all.push(given(
                word.place,
                word.place,
                Operand::new(Expr::Name(word)),
                apart,
            ))?;
        }
    }
    Ok(all)
}

// A local without one.
fn plain(
    place: Place,
    word: Word,
    of: CType,
    all: Vec<Statement>,
) -> Result<Vec<Statement>, Refusal>
    ensures is { IfOk result (λ v. (names : Names) → seen names v.items ≡ seen names all.items ++ local_of place (variable_seen names word of, None)) }
    ensures wants { IfErr result (λ e. e ≡ GRefusal.Memory) }
{
    let mut all = all;
    all.push(Statement::Declare {
        place,
        word,
        of,
        start: None,
    })?;
    Ok(all)
}

// A local whose initialiser is read behind its mark; its declarator has the nesting.
fn started(
    alloc: Global,
    depth: usize,
    place: Place,
    word: Word,
    of: CType,
    nest: usize,
    all: Vec<Statement>,
    tokens: &[Token],
) -> Result<(Vec<Statement>, usize, &[Token]), Refusal>
    requires low { 1 < depth }
    requires high { nest < depth }
    ensures gives { (names : Names) → Gives (λ x. (seen names x.0.items, x.1, placed names x.2.now)) result (started_at (seen names all.items) place (variable_seen names word of) nest (depth - 1) (placed names tokens.now)) }
    ensures nest { IfOk result (λ x. x.1 ≤ depth) }
    ensures shorter { IfOk result (λ x. length x.2.now < length tokens.now) }
{
    let (right, other, rest) = right_side(alloc, depth - 1, tokens)?;
    let all = begun(place, word, of, right, all)?;
    Ok((all, deeper(nest, deeper(1, other)) + 1, rest))
}

// A declared local, with or without an initialiser, behind the statements before it.
fn part(
    alloc: Global,
    depth: usize,
    place: Place,
    base: Base,
    all: Vec<Statement>,
    tokens: &[Token],
) -> Result<(Vec<Statement>, usize, &[Token]), Refusal>
    requires { 0 < depth }
    ensures gives { (names : Names) → Gives (λ x. (seen names x.0.items, x.1, placed names x.2.now)) result (mapped (with_local (seen names all.items) place) (part_at (base_type names base) depth) (placed names tokens.now)) }
    ensures nest { IfOk result (λ x. x.1 ≤ depth) }
    ensures shorter { IfOk result (λ x. length x.2.now < length tokens.now) }
{
    let (word, of, nest, rest) = declarator(alloc, depth - 1, base, tokens)?;
    if begins_mark(rest, Punctuator::Equal) {
        if depth < 2 {
            return deep(rest);
        }
        let (_, behind) = expect_mark(rest, Punctuator::Equal)?;
        return started(alloc, depth, place, word, of, nest, all, behind);
    }
    let all = plain(place, word, of, all)?;
    Ok((all, nest + 1, rest))
}

// The tokens behind a comma, if they begin with one.
fn behind_comma(tokens: &[Token]) -> Option<&[Token]>
    ensures some { IfSome result (λ b. (p : Place) × (tokens.now ≡ record { place = p; kind = GKind.Punctuator GMark.Comma } ∷ b.now)) }
    ensures none { IfNone result ((names : Names) → begins GMark.Comma (placed names tokens.now) ≡ false) }
{
    let Some((_, behind)) = tokens.split_first() else {
        return None;
    };
    if begins_mark(tokens, Punctuator::Comma) {
        return Some(behind);
    }
    None
}

// The locals of a declaration, behind the statements before it.
fn parts(
    alloc: Global,
    depth: usize,
    place: Place,
    base: Base,
    before: Vec<Statement>,
    tokens: &[Token],
) -> Result<(Vec<Statement>, usize, &[Token]), Refusal>
    requires { 0 < depth }
    ensures gives { (names : Names) → Gives (λ x. (seen names x.0.items, x.1, placed names x.2.now)) result (locals_at (seen names before.items) place (base_type names base) depth (placed names tokens.now)) }
    ensures nest { IfOk result (λ x. x.1 ≤ depth) }
    ensures shorter { IfOk result (λ x. length x.2.now < length tokens.now) }
{
    let (mut all, mut nest, mut rest) = part(alloc, depth, place, base, before, tokens)?;
    'parts: while let Some(behind) = behind_comma(rest) {
        let (more, other, behind) = part(alloc, depth, place, base, all, behind)?;
        all = more;
        nest = deeper(nest, other);
        rest = behind;
    }
    Ok((all, nest, rest))
}

/// A declaration, behind the statements before it: each local is a statement, and so is each call or section that one
/// begins with.
pub fn local(
    alloc: Global,
    depth: usize,
    all: Vec<Statement>,
    tokens: &[Token],
) -> Result<(Vec<Statement>, usize, &[Token]), Refusal>
    requires { 0 < depth }
    ensures gives { (names : Names) → Gives (λ x. (seen names x.0.items, x.1, placed names x.2.now)) result (mapped (with_locals (seen names all.items)) (local_at depth) (placed names tokens.now)) }
    ensures nest { IfOk result (λ x. x.1 ≤ depth) }
    ensures shorter { IfOk result (λ x. length x.2.now < length tokens.now) }
{
    let Some((token, _)) = tokens.split_first() else {
        return fault(tokens);
    };
    let (base, rest) = base_type(tokens)?;
    parts(alloc, depth, token.place, base, all, rest)
}
