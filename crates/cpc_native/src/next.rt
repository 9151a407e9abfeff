//! The live cells that a step leaves, counted from the change that is told of it.
ghost use Rattle.std.specs.Prelude.{◌≡◌, min};
ghost use Rattle.cpc_tree.specs.Erase.{Names, function_of};
ghost use Rattle.cpc_check_rules.specs.Apart.{AreApart};
ghost use Rattle.cpc_eval_values.specs.Shown.{store_of};
ghost use Rattle.cpc_eval_index.specs.Indexed.{items_of, IsOwn};
ghost use Rattle.cpc_meaning_laws.specs.Cell.Cells.{call_cells};
ghost use Rattle.cpc_native_changes.specs.Foreseen.{EntersOwnly};
ghost use Rattle.cpc_native_frames.specs.Frames.{RiseFrom};
ghost use Rattle.cpc_native_frames.specs.Made.{slots_of};
ghost use Rattle.cpc_native.specs.Next.{IsCounted, greatest};

use cpc_eval::Slot;
use cpc_eval_index::Index;
use cpc_native_changes::Change;
use cpc_native_frames::{call_cells, slots_cells};
use cpc_store::Store;
use cpc_tree::program::Function;

// The cells that a call of a function of the program takes.
fn called_cells(index: &Index<'_>, function: &Function) -> u64
    requires { IsOwn index.now function.now }
    ensures { (names : Names) → AreApart names → result ≡ min (call_cells (items_of names index.now) (function_of names function.now)) greatest }
{
    match index.locals(function.word.name) {
        Some(locals) => call_cells(index, &locals),
        None => unreachable!(),
    }
}

/// How many cells are live after a change, where so many were before it and these are the variables of the innermost call.
pub(crate) fn counted(
    live: u64,
    change: Change<'_>,
    index: &Index<'_>,
    slots: &[Slot],
    store: &Store,
) -> u64
    requires own { EntersOwnly index.now change }
    requires rise { RiseFrom 0 slots.now }
    ensures { (names : Names) → AreApart names → IsCounted names (items_of names index.now) (store_of names store.now) (slots_of names slots.now) live change.entry result }
{
    match change {
        Change::Stays => live,
        Change::Enters(function) => live.saturating_add(called_cells(index, function)),
        Change::Leaves => match slots_cells(slots, store) {
            Some(cells) => live.saturating_sub(cells),
            None => live,
        },
        Change::Makes(cells) => live.saturating_add(cells),
        Change::Frees(cells) => live.saturating_sub(cells),
    }
}
