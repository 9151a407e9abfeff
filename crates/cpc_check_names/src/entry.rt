//! The function `main`, with which a program begins.
ghost use Rattle.std.specs.Prelude.{◌≡◌, [], ◌∷◌, map, not};
ghost use Rattle.cpc_tree.specs.Erase.{Names as Spelling, in_table};
ghost use Rattle.cpc_tree.specs.Locate.{located_function, located_item};
ghost use Rattle.cpc_check_rules.specs.declared.rule.Rule.TheVariants.{NoMain};
ghost use Rattle.cpc_check_rules.specs.Apart.{Spells};
ghost use Rattle.cpc_check_rules.specs.Rule.{at_if};
ghost use Rattle.cpc_check_rules.specs.Rules.{is_main, has_main};
ghost use Rattle.cpc_check_rules.specs.Noted.{noted, first_of};

use cpc_base::{Names, Place};
use cpc_check_rules::{First, Rule};
use cpc_num::Kind;
use cpc_tree::names::is_main as is_named_main;
use cpc_tree::program::{CType, Function, Item, Mode};

/// Whether a program may begin with a function.
fn may_begin(names: &Names, function: &Function) -> bool
    ensures { result ≡ is_main (located_function (in_table names.now) function.now) }
{
    if !function.parameters.is_empty() {
        return false;
    }
    match function.mode {
        Mode::Native | Mode::Cps => match function.result {
            CType::Int(Kind::Int) => is_named_main(names, function.word.name),
            _ => false,
        },
        _ => false,
    }
}

/// Whether a program may begin with a function: a native or cps function `main` with the result `int` and no parameters.
pub fn is_main(names: &Names, function: &Function) -> bool
    ensures table { result ≡ is_main (located_function (in_table names.now) function.now) }
    ensures spelled { (spelling : Spelling) → Spells names.now spelling → result ≡ is_main (located_function spelling function.now) }
{
    may_begin(names, function)
}

/// Whether one of a program's items is such a function.
fn has_main(names: &Names, items: &[Item]) -> bool
    ensures { result ≡ has_main (map (located_item (in_table names.now)) items.now) }
{
    for item in items {
        if is_main_item(names, item) {
            return true;
        }
    }
    false
}

/// Whether an item is such a function.
fn is_main_item(names: &Names, item: &Item) -> bool
    ensures { result ≡ has_main (located_item (in_table names.now) item.now ∷ []) }
{
    match item {
        Item::Function(function) => may_begin(names, function),
        _ => false,
    }
}

/// Notes at the end of a program, `end`, that it has no function to begin with.
pub fn main_rules(first: &mut First, names: &Names, items: &[Item], end: Place)
    ensures table { first_of first.new ≡ noted (first_of first.old) (at_if (not (has_main (map (located_item (in_table names.now)) items.now))) end NoMain) }
    ensures spelled { (spelling : Spelling) → Spells names.now spelling → first_of first.new ≡ noted (first_of first.old) (at_if (not (has_main (map (located_item spelling) items.now))) end NoMain) }
{
    first.note_if(!has_main(names, items), end, Rule::NoMain);
}
