//! The store of the globals.
ghost use Rattle.std.specs.Prelude.{◌≡◌, List, ◌∷◌, map, reverse, IfOk, OnOk, OnErr, if◌then◌else◌};
ghost use Rattle.std.specs.List.{All};
ghost use Rattle.cpc_store.specs.declared.values.Class.TheVariants.{Static};
ghost use Rattle.cpc_store.specs.Store as S;
ghost use Rattle.cpc_store.specs.Seen.{seen, IsLawful};
ghost use Rattle.cpc_tree.specs.Erase.{Names, item_of};
ghost use Rattle.cpc_tree.specs.Syntax as T;
ghost use Rattle.cpc_meaning.specs.Answer as A;
ghost use Rattle.cpc_meaning.specs.Start as M;
ghost use Rattle.cpc_check_rules.specs.Apart.{AreApart};
ghost use Rattle.cpc_run_globals.specs.Layouts.{AreLayouts};
ghost use Rattle.cpc_eval_values.specs.Shown.{values_of, store_of};

use crate::layouts::Layouts;
use crate::starts::start_cells;
use cpc_base::NoMemory;
use cpc_store::{Class, Store, Value};
use cpc_tree::program::{Item, Program};
use std::alloc::Global;

// No store has as many cells, and no class as many blocks.
const LIMIT: u64 = 0x8000_0000_0000_0000;

/// Makes the next static block, with these cells.
///
/// `NoMemory` is want of memory, or of numbers for so many cells; the store is as it was then.
pub fn make_block(alloc: Global, cells: &[Value], store: &mut Store) -> Result<(), NoMemory>
    requires { All (λ v. IsLawful (seen v)) cells.now }
    ensures made { OnOk result ((names : Names) → store_of names store.new ≡ S.alloc Static (values_of names cells.now) (store_of names store.old)) }
    ensures refused { OnErr result (store.new ≡ store.old) }
{
    let count = cells.len() as u64;
    if count >= LIMIT - store.live_cells() || store.made(Class::Static) >= LIMIT - 1 {
        return Err(NoMemory);
    }
    let block = store.alloc(alloc, Class::Static, count)?;
    for (k, value) in cells.iter().enumerate() {
        let _ = store.save(block, k as u64, *value);
    }
    Ok(())
}

// Makes the block of the global that an item declares, if it declares one; false where its type is incomplete.
fn add(
    alloc: Global,
    item: &Item,
    layouts: &Layouts<'_>,
    store: &mut Store,
) -> Result<bool, NoMemory>
    ensures { IfOk result (λ done. (names : Names) (p rest : List T.Item) → AreLayouts layouts.now names (reverse p)
        → M.make_globals p (item_of names item.now ∷ rest) (store_of names store.old) ≡ (if done then M.make_globals p rest (store_of names store.new) else A.NoAnswer)) }
{
    match item {
        Item::Global { of, start, .. } => match layouts.of_type(alloc, of)? {
            Some(row) => {
                let cells = start_cells(alloc, start, &row)?;
                make_block(alloc, &cells, store)?;
                Ok(true)
            }
            None => Ok(false),
        },
        _ => Ok(true),
    }
}

/// The store of a program at the start: for each global, in order, a static block whose cells hold what is written for it,
/// and else zeros: the number 0, or no address. Where the type of a global is incomplete no block is there. The layouts are of
/// the program's items.
///
/// `NoMemory` is want of memory, or of numbers for so many cells.
pub fn globals(alloc: Global, program: &Program, layouts: &Layouts<'_>) -> Result<Store, NoMemory>
    ensures { let items = program.now.items.items in IfOk result (λ store. (names : Names) → AreApart names → AreLayouts layouts.now names (reverse (map (item_of names) items))
        → store_of names store ≡ M.globals (M.make_globals (map (item_of names) items) (map (item_of names) items) S.empty_store)) }
{
    let mut store = Store::new(alloc);
    for item in &program.items {
        if !add(alloc, item, layouts, &mut store)? {
            return Ok(Store::new(alloc));
        }
    }
    Ok(store)
}
