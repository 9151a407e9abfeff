//! The parts of a program (C11 6.9).
ghost use Rattle.std.specs.Prelude.{◌≡◌, ◌<◌, length, map, IfOk};
ghost use Rattle.cpc_tree.specs.Erase.{Names};
ghost use Rattle.cpc_tree.specs.Locate.{located_item};
ghost use Rattle.cpc_parser_types.specs.Views.{placed, Gives};
ghost use Rattle.cpc_parser.specs.ItemReaders.{item_at, moded_at, tagged_at, based_at};
ghost use Rattle.cpc_parser.specs.ItemViews.{onto, begins_item, mode_begun};

use crate::declaration::plain;
use crate::function::{behind, head_of};
use crate::structure::structure;
use cpc_base::Place;
use cpc_parser_types::{
    Base, Refusal, base_type, begins_base, begins_mark, begins_word, fault, first_word, name,
};
use cpc_tree::program::{Item, Mode};
use cpc_tree::token::{Keyword, Punctuator, Token};
use std::alloc::Global;

/// Whether the tokens begin an item.
pub fn begins_item(tokens: &[Token]) -> bool
    ensures { (names : Names) → result ≡ begins_item (placed names tokens.now) }
{
    begins_base(tokens) || mode_of(tokens).is_some()
}

// How a function runs whose item begins with the word.
fn mode_of(tokens: &[Token]) -> Option<Mode>
    ensures { (names : Names) → result ≡ mode_begun (placed names tokens.now) }
{
    match first_word(tokens)? {
        Keyword::Extern => Some(Mode::Extern),
        Keyword::Cps => Some(Mode::Cps),
        Keyword::Detached => Some(Mode::Detached),
        _ => None,
    }
}

/// The items of one declaration, put behind the others.
pub fn item<'a>(
    alloc: Global,
    depth: usize,
    all: &mut Vec<Item>,
    tokens: &'a [Token],
) -> Result<&'a [Token], Refusal>
    ensures gives { (names : Names) → Gives (λ x. (map (located_item names) all.new.items, 0, placed names x.now)) result (onto (map (located_item names) all.old.items) (item_at depth) (placed names tokens.now)) }
    ensures shorter { IfOk result (λ x. length x.now < length tokens.now) }
{
    let Some((token, rest)) = tokens.split_first() else {
        return fault(tokens);
    };
    if let Some(mode) = mode_of(tokens) {
        return moded(alloc, depth, all, token.place, mode, rest);
    }
    if begins_word(tokens, Keyword::Struct) {
        return tagged(alloc, depth, all, token.place, rest);
    }
    based(alloc, depth, all, tokens)
}

// A function or a prototype behind the word before it.
fn moded<'a>(
    alloc: Global,
    depth: usize,
    all: &mut Vec<Item>,
    place: Place,
    mode: Mode,
    tokens: &'a [Token],
) -> Result<&'a [Token], Refusal>
    ensures gives { (names : Names) → Gives (λ x. (map (located_item names) all.new.items, 0, placed names x.now)) result (onto (map (located_item names) all.old.items) (moded_at place mode depth) (placed names tokens.now)) }
    ensures shorter { IfOk result (λ x. length x.now < length tokens.now) }
{
    let (head, rest) = head_of(alloc, depth, tokens)?;
    let (whole, rest) = behind(alloc, depth, place, mode, head, rest)?;
    all.push(whole)?;
    Ok(rest)
}

// What stands behind the word struct: a struct, or a declaration with a struct's type.
fn tagged<'a>(
    alloc: Global,
    depth: usize,
    all: &mut Vec<Item>,
    place: Place,
    tokens: &'a [Token],
) -> Result<&'a [Token], Refusal>
    ensures gives { (names : Names) → Gives (λ x. (map (located_item names) all.new.items, 0, placed names x.now)) result (onto (map (located_item names) all.old.items) (tagged_at place depth) (placed names tokens.now)) }
    ensures shorter { IfOk result (λ x. length x.now < length tokens.now) }
{
    let (tag, rest) = name(tokens)?;
    if begins_mark(rest, Punctuator::LeftBrace) {
        return structure(alloc, depth, all, tag, rest);
    }
    plain(alloc, depth, all, place, Base::Struct(tag.name), rest)
}

// A declaration with another base type.
fn based<'a>(
    alloc: Global,
    depth: usize,
    all: &mut Vec<Item>,
    tokens: &'a [Token],
) -> Result<&'a [Token], Refusal>
    ensures gives { (names : Names) → Gives (λ x. (map (located_item names) all.new.items, 0, placed names x.now)) result (onto (map (located_item names) all.old.items) (based_at depth) (placed names tokens.now)) }
    ensures shorter { IfOk result (λ x. length x.now < length tokens.now) }
{
    let Some((token, _)) = tokens.split_first() else {
        return fault(tokens);
    };
    let place = token.place;
    let (base, rest) = base_type(tokens)?;
    plain(alloc, depth, all, place, base, rest)
}
