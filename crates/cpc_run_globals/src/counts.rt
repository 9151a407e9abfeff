//! How many cells the globals have, counted without making them.
ghost use Rattle.std.specs.Prelude.{◌≡◌, ◌-◌, ◌^◌, min, map, option_map};
ghost use Rattle.cpc_store.specs.Store as S;
ghost use Rattle.cpc_tree.specs.Erase.{Names, item_of};
ghost use Rattle.cpc_meaning.specs.Start as M;
ghost use Rattle.cpc_check_rules.specs.Apart.{AreApart};
ghost use Rattle.cpc_eval_index.specs.Indexed.{program_items, items_of};
ghost use Rattle.cpc_eval_index.specs.Sized.{capped};
ghost use Rattle.cpc_run_globals.specs.Counts.{item_cells};

use cpc_eval_index::Index;
use cpc_tree::program::{Item, Program};

// The cells of the global that an item declares, capped, or 0 where it declares none; nothing where the type of the global
// is incomplete.
fn item_cells(index: &Index<'_>, item: &Item) -> Option<u64>
    ensures { (names : Names) → AreApart names → result ≡ option_map capped (item_cells (items_of names index.now) (item_of names item.now)) }
{
    match item {
        Item::Global { of, .. } => index.size(of),
        _ => Some(0),
    }
}

/// How many cells the store of a program has at the start: those of all its globals, or none where the type of one is
/// incomplete. `u64::MAX` stands for every greater number. The index is of the same program. No cell is made, and no
/// memory is taken.
pub fn global_cells(program: &Program, index: &Index<'_>) -> u64
    requires { program_items index.now ≡ program.now.items.items }
    ensures { let items = program.now.items.items in (names : Names) → AreApart names
        → result ≡ min (S.store_cells (M.globals (M.make_globals (map (item_of names) items) (map (item_of names) items) S.empty_store))) (2 ^ 64 - 1) }
{
    let mut total: u64 = 0;
    for item in &program.items {
        match item_cells(index, item) {
            Some(count) => total = total.saturating_add(count),
            None => return 0,
        }
    }
    total
}
