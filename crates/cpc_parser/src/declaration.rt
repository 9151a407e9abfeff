//! Declarations of globals and functions (C11 6.7).
ghost use Rattle.std.specs.Prelude.{◌≡◌, ◌<◌, length, map, IfOk};
ghost use Rattle.cpc_tree.specs.Erase.{Names};
ghost use Rattle.cpc_tree.specs.Locate.{located_item};
ghost use Rattle.cpc_parser_types.specs.TypeViews.{base_type};
ghost use Rattle.cpc_parser_types.specs.Views.{placed, Gives};
ghost use Rattle.cpc_parser.specs.ItemReaders.{globals_at, plain_at};
ghost use Rattle.cpc_parser.specs.ItemViews.{flat, onto, variable_of, row_at, more_at};

use crate::first::first;
use crate::function::{Head, behind};
use crate::initial::start;
use cpc_base::Place;
use cpc_parser_types::{Base, Refusal, begins_mark, declarator, expect_mark};
use cpc_tree::program::{CType, Item, Mode, Word};
use cpc_tree::token::{Punctuator, Token};
use std::alloc::Global;

/// What has been read first behind a base type.
#[derive(Drop)]
pub enum Seen {
    /// A variable and its type.
    Variable(Word, CType),
    /// The head of a function.
    Function(Head),
}

/// What stands behind the base type of a declaration that begins at the place: globals, or a function or prototype.
pub fn plain<'a>(
    alloc: Global,
    depth: usize,
    all: &mut Vec<Item>,
    place: Place,
    base: Base,
    tokens: &'a [Token],
) -> Result<&'a [Token], Refusal>
    ensures gives { (names : Names) → Gives (λ x. (map (located_item names) all.new.items, 0, placed names x.now)) result (onto (map (located_item names) all.old.items) (plain_at place (base_type names base) depth) (placed names tokens.now)) }
    ensures shorter { IfOk result (λ x. length x.now < length tokens.now) }
{
    let (seen, rest) = first(alloc, depth, base, tokens)?;
    match seen {
        Seen::Variable(word, of) => globals(alloc, depth, all, base, word, of, rest),
        Seen::Function(head) => {
            let (whole, rest) = behind(alloc, depth, place, Mode::Native, head, rest)?;
            all.push(whole)?;
            Ok(rest)
        }
    }
}

// What stands behind the first variable of a declaration.
fn globals<'a>(
    alloc: Global,
    depth: usize,
    all: &mut Vec<Item>,
    base: Base,
    word: Word,
    of: CType,
    tokens: &'a [Token],
) -> Result<&'a [Token], Refusal>
    ensures gives { (names : Names) → Gives (λ x. (map (located_item names) all.new.items, 0, placed names x.now)) result (onto (map (located_item names) all.old.items) (globals_at (base_type names base) (variable_of names word of) depth) (placed names tokens.now)) }
    ensures shorter { IfOk result (λ x. length x.now < length tokens.now) }
{
    let (start, rest) = start(alloc, depth, tokens)?;
    all.push(Item::Global { word, of, start })?;
    further(alloc, depth, all, base, rest)
}

// Further globals of a declaration, and its end.
fn further<'a>(
    alloc: Global,
    depth: usize,
    all: &mut Vec<Item>,
    base: Base,
    tokens: &'a [Token],
) -> Result<&'a [Token], Refusal>
    ensures gives { (names : Names) → Gives (λ x. (map (located_item names) all.new.items, 0, placed names x.now)) result (onto (map (located_item names) all.old.items) (row_at (base_type names base) depth) (placed names tokens.now)) }
    ensures shorter { IfOk result (λ x. length x.now < length tokens.now) }
{
    let mut rest = tokens;
    'rows: while begins_mark(rest, Punctuator::Comma) {
        let (whole, behind) = more(alloc, depth, base, rest)?;
        all.push(whole)?;
        rest = behind;
    }
    let (_, rest) = expect_mark(rest, Punctuator::Semicolon)?;
    Ok(rest)
}

// A further global behind its comma.
fn more(
    alloc: Global,
    depth: usize,
    base: Base,
    tokens: &[Token],
) -> Result<(Item, &[Token]), Refusal>
    ensures gives { (names : Names) → Gives (λ x. (located_item names x.0, 0, placed names x.1.now)) result (flat (more_at (base_type names base) depth) (placed names tokens.now)) }
    ensures shorter { IfOk result (λ x. length x.1.now < length tokens.now) }
{
    let (_, rest) = expect_mark(tokens, Punctuator::Comma)?;
    let (word, of, _, rest) = declarator(alloc, depth, base, rest)?;
    let (start, rest) = start(alloc, depth, rest)?;
    Ok((Item::Global { word, of, start }, rest))
}
