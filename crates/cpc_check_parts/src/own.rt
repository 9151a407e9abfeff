//! What items break by what stands in them.
ghost use Rattle.std.specs.Prelude.{◌≡◌, [], OnOk, Some, slice_get};
ghost use Rattle.cpc_tree.specs.Erase.{Names as Spelling};
ghost use Rattle.cpc_tree.specs.Locate.{located_function, located_item};
ghost use Rattle.cpc_tree.specs.declared.program.Item.TheVariants as I;
ghost use Rattle.cpc_check_rules.specs.Apart.{Spells};
ghost use Rattle.cpc_check_rules.specs.Noted.{noted, first_of};
ghost use Rattle.cpc_types.specs.Scoped.{all_items, first_items, scope_of};
ghost use Rattle.cpc_check_parts.specs.ItemParts as P;

use crate::heads::{global_own, head_own, prototype_own, struct_own};
use cpc_base::NoMemory;
use cpc_check::Ground;
use cpc_check_items::{Signature, tail_rules};
use cpc_check_rules::First;
use cpc_check_statements::{Around, body_rules};
use cpc_tree::program::{Function, Item};
use cpc_types::Scope;
use std::alloc::Global;

// Notes what a function breaks by what stands in it, behind `count` items, which are in scope. `NoMemory` is want of memory.
fn function_own(
    alloc: Global,
    first: &mut First,
    function: &Function,
    count: u64,
    scope: &mut Scope,
    ground: &Ground,
) -> Result<(), NoMemory>
    requires stands { slice_get (all_items scope.old) count ≡ Some (I.Function function.now) }
    requires entered { (names : Spelling) → scope_of names scope.old ≡ record { items = first_items names count (all_items scope.old); blocks = [] } }
    ensures noted { OnOk result ((names : Spelling) → Spells ground.now.names.now names
        → first_of first.new ≡ noted (first_of first.old) (P.function_own ground.now.dialect (first_items names count (all_items scope.old)) (located_function names function.now))) }
    ensures all { all_items scope.new ≡ all_items scope.old }
{
    head_own(alloc, first, function, scope, ground)?;
    scope.enter_items(count + 1);
    scope.enter_function(function)?;
    let around = Around {
        mode: function.mode,
        result: &function.result,
        dialect: ground.dialect,
        names: ground.names,
    };
    body_rules(alloc, first, &function.body, scope, &around)?;
    tail_rules(alloc, first, ground.dialect, ground.names, function)?;
    Ok(())
}

/// Notes what an item breaks by what stands in it, behind `count` items, which are in scope. `NoMemory` is want of memory.
pub fn own_rules(
    alloc: Global,
    first: &mut First,
    item: &Item,
    count: u64,
    scope: &mut Scope,
    ground: &Ground,
) -> Result<(), NoMemory>
    requires stands { slice_get (all_items scope.old) count ≡ Some item.now }
    requires entered { (names : Spelling) → scope_of names scope.old ≡ record { items = first_items names count (all_items scope.old); blocks = [] } }
    ensures noted { OnOk result ((names : Spelling) → Spells ground.now.names.now names
        → first_of first.new ≡ noted (first_of first.old) (P.item_own ground.now.dialect (first_items names count (all_items scope.old)) (located_item names item.now))) }
    ensures all { all_items scope.new ≡ all_items scope.old }
{
    match item {
        Item::Struct { tag, fields } => {
            struct_own(alloc, first, *tag, fields, scope, ground)?;
            Ok(())
        }
        Item::Global { word, of, start } => {
            global_own(alloc, first, *word, of, start, scope, ground)?;
            Ok(())
        }
        Item::Prototype {
            place,
            mode,
            word,
            result,
            parameters,
        } => {
            let declared = Signature {
                mode: *mode,
                result,
                parameters,
                is_defined: false,
            };
            prototype_own(alloc, first, *place, *word, &declared, ground)?;
            Ok(())
        }
        Item::Function(function) => {
            function_own(alloc, first, function, count, scope, ground)?;
            Ok(())
        }
    }
}
