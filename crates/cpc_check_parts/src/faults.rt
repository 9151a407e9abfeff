//! The first fault of an item, and that of what lies between items or in the whole.
ghost use Rattle.std.specs.Prelude.{◌≡◌, ◌<◌, None, Some, IfOk, length, map, slice_get};
ghost use Rattle.cpc_tree.specs.Erase.{Names as Spelling};
ghost use Rattle.cpc_tree.specs.Locate.{located, located_item};
ghost use Rattle.cpc_check_rules.specs.Apart.{Spells};
ghost use Rattle.cpc_check_rules.specs.Noted.{noted, first_of};
ghost use Rattle.cpc_check.specs.Accepted.{IsWithin};
ghost use Rattle.cpc_check_parts.specs.Parts.{whole, own};
ghost use Rattle.cpc_check_parts.specs.Faults.{IsLeast};

use crate::beside::whole_rules;
use crate::own::own_rules;
use cpc_base::{Dialect, NoMemory};
use cpc_check::{Ground, are_distinct};
use cpc_check_rules::{Breach, First};
use cpc_tree::program::{Item, Program};
use cpc_types::Scope;
use std::alloc::Global;

// An item, by its number.
fn item_at(items: &[Item], item: u64) -> &Item
    requires { item < length items.now }
    ensures { slice_get items.now item ≡ Some result.now }
{
    &items[item as usize]
}

// The first of what an item breaks by what stands in it.
fn item_first(
    alloc: Global,
    program: &Program,
    dialect: Dialect,
    item: u64,
) -> Result<First, NoMemory>
    requires within { item < length program.now.items.items }
    ensures { IfOk result (λ first. (names : Spelling) → Spells program.now.names names
        → first_of first ≡ noted None (own dialect (record { items = map (located_item names) program.now.items.items; end = program.now.end }) item)) }
{
    let mut first = First::new();
    let mut scope = Scope::of(alloc, program)?;
    scope.enter_items(item);
    let ground = Ground {
        dialect,
        names: &program.names,
    };
    let here = item_at(&program.items, item);
    own_rules(alloc, &mut first, here, item, &mut scope, &ground)?;
    Ok(first)
}

/// The first rule that an item of a program breaks by what stands in it; `item` is its number, from 0, in the order of the text.
///
/// # Errors
///
/// `NoMemory` is want of memory.
pub fn item_fault(
    alloc: Global,
    program: &Program,
    dialect: Dialect,
    item: u64,
) -> Result<Option<Breach>, NoMemory>
    requires item { item < length program.now.items.items }
    requires within { IsWithin program.now }
    ensures { IfOk result (λ fault. IsLeast (own dialect (located program.now) item) fault) }
{
    are_distinct(&program.names);
    let first = item_first(alloc, program, dialect, item)?;
    Ok(first.breach)
}

/// The first rule that a program breaks between items, or in the whole: a function that is declared and not there, names that are
/// declared twice or disagree, no function to begin with, or too broad cps functions.
///
/// # Errors
///
/// `NoMemory` is want of memory.
pub fn program_fault(
    alloc: Global,
    program: &Program,
    dialect: Dialect,
) -> Result<Option<Breach>, NoMemory>
    requires within { IsWithin program.now }
    ensures { IfOk result (λ fault. IsLeast (whole dialect (located program.now)) fault) }
{
    are_distinct(&program.names);
    let first = whole_rules(alloc, program, dialect)?;
    Ok(first.breach)
}
