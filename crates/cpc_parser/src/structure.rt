//! Structs (C11 6.7.2.1).
ghost use Rattle.std.specs.Prelude.{◌≡◌, ◌<◌, length, map, IfOk};
ghost use Rattle.cpc_tree.specs.Erase.{Names};
ghost use Rattle.cpc_tree.specs.Locate.{ident, located_field, located_item};
ghost use Rattle.cpc_parser_types.specs.TypeViews.{base_type};
ghost use Rattle.cpc_parser_types.specs.Views.{placed, Gives};
ghost use Rattle.cpc_parser.specs.ItemReaders.{fields_at, line_at, structure_at};
ghost use Rattle.cpc_parser.specs.ItemViews.{flat, onto, field_row_at};

use cpc_parser_types::{
    Base, Refusal, base_type, begins_base, begins_mark, declarator, expect_mark,
};
use cpc_tree::program::{Field, Item, Word};
use cpc_tree::token::{Punctuator, Token};
use std::alloc::Global;

/// A struct behind its tag.
pub fn structure<'a>(
    alloc: Global,
    depth: usize,
    all: &mut Vec<Item>,
    tag: Word,
    tokens: &'a [Token],
) -> Result<&'a [Token], Refusal>
    ensures gives { (names : Names) → Gives (λ x. (map (located_item names) all.new.items, 0, placed names x.now)) result (onto (map (located_item names) all.old.items) (structure_at (ident names tag) depth) (placed names tokens.now)) }
    ensures shorter { IfOk result (λ x. length x.now < length tokens.now) }
{
    let (_, rest) = expect_mark(tokens, Punctuator::LeftBrace)?;
    let (fields, rest) = fields_of(alloc, depth, rest)?;
    let (_, rest) = expect_mark(rest, Punctuator::RightBrace)?;
    let (_, rest) = expect_mark(rest, Punctuator::Semicolon)?;
    all.push(Item::Struct { tag, fields })?;
    Ok(rest)
}

// The fields of a struct.
fn fields_of(
    alloc: Global,
    depth: usize,
    tokens: &[Token],
) -> Result<(Vec<Field>, &[Token]), Refusal>
    ensures gives { (names : Names) → Gives (λ x. (map (located_field names) x.0.items, 0, placed names x.1.now)) result (flat (fields_at depth) (placed names tokens.now)) }
    ensures shorter { IfOk result (λ x. length x.1.now < length tokens.now) }
{
    let mut all = Vec::new(alloc);
    let mut rest = line(alloc, depth, &mut all, tokens)?;
    'lines: while begins_base(rest) {
        rest = line(alloc, depth, &mut all, rest)?;
    }
    Ok((all, rest))
}

// The fields of one declaration, put behind the others.
fn line<'a>(
    alloc: Global,
    depth: usize,
    all: &mut Vec<Field>,
    tokens: &'a [Token],
) -> Result<&'a [Token], Refusal>
    ensures gives { (names : Names) → Gives (λ x. (map (located_field names) all.new.items, 0, placed names x.now)) result (onto (map (located_field names) all.old.items) (line_at depth) (placed names tokens.now)) }
    ensures shorter { IfOk result (λ x. length x.now < length tokens.now) }
{
    let (base, rest) = base_type(tokens)?;
    field_row(alloc, depth, all, base, rest)
}

// Fields behind their base type, with commas between them, and the end of their declaration.
fn field_row<'a>(
    alloc: Global,
    depth: usize,
    all: &mut Vec<Field>,
    base: Base,
    tokens: &'a [Token],
) -> Result<&'a [Token], Refusal>
    ensures gives { (names : Names) → Gives (λ x. (map (located_field names) all.new.items, 0, placed names x.now)) result (onto (map (located_field names) all.old.items) (field_row_at (base_type names base) depth) (placed names tokens.now)) }
    ensures shorter { IfOk result (λ x. length x.now < length tokens.now) }
{
    let (word, of, _, mut rest) = declarator(alloc, depth, base, tokens)?;
    all.push(Field { word, of })?;
    'fields: while begins_mark(rest, Punctuator::Comma) {
        let (_, behind) = expect_mark(rest, Punctuator::Comma)?;
        let (word, of, _, behind) = declarator(alloc, depth, base, behind)?;
        all.push(Field { word, of })?;
        rest = behind;
    }
    let (_, rest) = expect_mark(rest, Punctuator::Semicolon)?;
    Ok(rest)
}
