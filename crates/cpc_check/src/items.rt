//! What the items of a program break.
ghost use Rattle.std.specs.Prelude.{◌≡◌, ◌<◌, [], OnOk, Some, length, map, slice_get};
ghost use Rattle.cpc_tree.specs.Erase.{Names as Spelling, item_of};
ghost use Rattle.cpc_tree.specs.Locate.{located_function, located_item};
ghost use Rattle.cpc_tree.specs.declared.program.Item.TheVariants as I;
ghost use Rattle.cpc_check_rules.specs.Apart.{Spells};
ghost use Rattle.cpc_check_rules.specs.ItemRules as R;
ghost use Rattle.cpc_check_rules.specs.Noted.{noted, first_of};
ghost use Rattle.cpc_types.specs.Scoped.{all_items, first_items, scope_of};
ghost use Rattle.cpc_check_items.specs.Pasts.{AreEarlier};

use crate::ground::Ground;
use crate::starts::global_start;
use cpc_base::NoMemory;
use cpc_check_items::{
    Earlier, Signature, global_rules, head_rules, prototype_rules, struct_rules, tail_rules,
};
use cpc_check_rules::First;
use cpc_check_statements::{Around, body_rules};
use cpc_tree::program::{Function, Item};
use cpc_types::Scope;
use std::alloc::Global;

// Notes what a function breaks, which stands behind `count` items, which are in scope. `NoMemory` is want of memory.
fn function_rules(
    alloc: Global,
    first: &mut First,
    function: &Function,
    count: u64,
    scope: &mut Scope,
    earlier: &Earlier,
    ground: &Ground,
) -> Result<(), NoMemory>
    requires stands { slice_get (all_items scope.old) count ≡ Some (I.Function function.now) }
    requires entered { (names : Spelling) → scope_of names scope.old ≡ record { items = first_items names count (all_items scope.old); blocks = [] } }
    ensures noted { OnOk result ((names : Spelling) → Spells ground.now.names.now names → AreEarlier names (first_items names count (all_items scope.old)) earlier.now
        → first_of first.new ≡ noted (first_of first.old) (R.function_breaks ground.now.dialect (first_items names count (all_items scope.old)) (located_function names function.now))) }
    ensures all { all_items scope.new ≡ all_items scope.old }
{
    head_rules(
        alloc,
        first,
        ground.dialect,
        ground.names,
        scope,
        earlier,
        function,
    )?;
    scope.enter_items(count + 1);
    scope.enter_function(function)?;
    let around = Around {
        mode: function.mode,
        result: &function.result,
        dialect: ground.dialect,
        names: ground.names,
    };
    body_rules(alloc, first, &function.body, scope, &around)?;
    tail_rules(alloc, first, ground.dialect, ground.names, function)?;
    Ok(())
}

/// Notes what an item breaks, which stands behind `count` items, which are in scope. `NoMemory` is want of memory.
pub(crate) fn item_rules(
    alloc: Global,
    first: &mut First,
    item: &Item,
    count: u64,
    scope: &mut Scope,
    earlier: &Earlier,
    ground: &Ground,
) -> Result<(), NoMemory>
    requires stands { slice_get (all_items scope.old) count ≡ Some item.now }
    requires entered { (names : Spelling) → scope_of names scope.old ≡ record { items = first_items names count (all_items scope.old); blocks = [] } }
    ensures noted { OnOk result ((names : Spelling) → Spells ground.now.names.now names → AreEarlier names (first_items names count (all_items scope.old)) earlier.now
        → first_of first.new ≡ noted (first_of first.old) (R.item_breaks ground.now.dialect (map (item_of names) (all_items scope.old)) (first_items names count (all_items scope.old)) (located_item names item.now))) }
    ensures all { all_items scope.new ≡ all_items scope.old }
{
    let dialect = ground.dialect;
    let names = ground.names;
    match item {
        Item::Struct { tag, fields } => {
            struct_rules(alloc, first, dialect, names, scope, *tag, fields)?;
            Ok(())
        }
        Item::Global { word, of, start } => {
            global_rules(first, dialect, names, scope, earlier, *word, of);
            global_start(alloc, first, *word, of, start, scope, ground)?;
            Ok(())
        }
        Item::Prototype {
            place,
            mode,
            word,
            result,
            parameters,
        } => {
            let declared = Signature {
                mode: *mode,
                result,
                parameters,
                is_defined: false,
            };
            let known = (&*scope, earlier);
            prototype_rules(
                alloc, first, dialect, names, known, *place, *word, &declared,
            )?;
            Ok(())
        }
        Item::Function(function) => {
            function_rules(alloc, first, function, count, scope, earlier, ground)?;
            Ok(())
        }
    }
}
