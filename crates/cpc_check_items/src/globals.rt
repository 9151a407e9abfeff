//! The rules of global variables.
ghost use Rattle.std.specs.Prelude.{◌≡◌};
ghost use Rattle.cpc_tree.specs.Erase.{Names as Spelling, type_of};
ghost use Rattle.cpc_tree.specs.Locate.{ident};
ghost use Rattle.cpc_check_rules.specs.Apart.{Spells};
ghost use Rattle.cpc_check_rules.specs.Noted.{noted, first_of};
ghost use Rattle.cpc_check_rules.specs.ItemRules as R;
ghost use Rattle.cpc_types.specs.Scoped.{scope_of};
ghost use Rattle.cpc_check_items.specs.Pasts.{AreEarlier};
ghost use Rattle.cpc_check_items.specs.Parts.{global_parts, room_of};

use crate::declared::taken_rules;
use crate::earlier::Earlier;
use cpc_base::{Dialect, Names, Place};
use cpc_check_names::name_rules;
use cpc_check_rules::{First, Rule};
use cpc_num::Kind;
use cpc_tree::program::{CType, Word};
use cpc_types::{Scope, is_sized};

/// Notes what a global variable breaks, apart from what it starts with, where the items in scope and the earlier ones
/// are those before it: its name is kept for the language or declared before, or its type has no size.
pub fn global_rules(
    first: &mut First,
    dialect: Dialect,
    names: &Names,
    scope: &Scope,
    earlier: &Earlier,
    word: Word,
    of: &CType,
)
    ensures { (spelling : Spelling) → Spells names.now spelling → AreEarlier spelling (scope_of spelling scope.now).items earlier.now → first_of first.new ≡ noted (first_of first.old) (global_parts dialect (scope_of spelling scope.now).items (ident spelling word) (type_of spelling of.now)) }
{
    name_rules(first, dialect, names, &[word]);
    taken_rules(first, earlier, word);
    let is_fine = is_sized(of, scope);
    first.note_if(!is_fine, word.place, Rule::Incomplete);
}

/// The length of an array of `char`.
fn text_length(of: &CType) -> Option<u64>
    ensures { (names : Spelling) → result ≡ room_of (type_of names of.now) }
{
    match of {
        CType::Array(element, length) => match **element {
            CType::Int(Kind::Char) => Some(*length),
            _ => None,
        },
        _ => None,
    }
}

/// Notes a string, whose token is at `place`, that is not what a global variable may start with: its type is no array of
/// `char`, or too short a one.
pub fn string_rules(first: &mut First, word: Word, of: &CType, place: Place, bytes: &[u8])
    ensures { (names : Spelling) → first_of first.new ≡ noted (first_of first.old) (R.string_breaks (ident names word) (type_of names of.now) place bytes.now) }
{
    match text_length(of) {
        Some(length) => first.note_if(length < bytes.len() as u64, word.place, Rule::Disagree),
        None => first.note(place, Rule::Disagree),
    }
}
