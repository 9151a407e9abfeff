//! The cells that a call takes, and those that its variables have.
ghost use Rattle.std.specs.Prelude.{◌≡◌, ◌-◌, ◌^◌, min, IfSome};
ghost use Rattle.cpc_tree.specs.Erase.{Names, type_of, function_of};
ghost use Rattle.cpc_tree.specs.Typing as T;
ghost use Rattle.cpc_meaning_laws.specs.Cell.Cells as L;
ghost use Rattle.cpc_meaning.specs.Slots as M;
ghost use Rattle.cpc_check_rules.specs.Apart.{AreApart};
ghost use Rattle.cpc_eval_values.specs.Shown.{store_of};
ghost use Rattle.cpc_eval_index.specs.Indexed.{items_of};
ghost use Rattle.cpc_eval_index.specs.Sized.{capped};
ghost use Rattle.cpc_eval_locals.specs.Owners.{owner_of};
ghost use Rattle.cpc_eval_locals.specs.Kept.{kept_by};
ghost use Rattle.cpc_eval_variables.specs.Kept.{types_kept};
ghost use Rattle.cpc_native_frames.specs.Costs.{types_cells};
ghost use Rattle.cpc_native_frames.specs.Frames.{RiseFrom};
ghost use Rattle.cpc_native_frames.specs.Living.{slot_size, CanLeave};
ghost use Rattle.cpc_native_frames.specs.Made.{slots_of};

use cpc_eval::Slot;
use cpc_eval_index::Index;
use cpc_eval_locals::{Locals, Variable};
use cpc_store::{Block, Class, Store};
use cpc_tree::program::CType;

// The cells of a variable of a type; none where its size is not known.
fn type_cells(index: &Index<'_>, of: &CType) -> u64
    ensures { (names : Names) → AreApart names → result ≡ capped (L.or_zero (T.size (items_of names index.now) (type_of names of.now))) }
{
    index.size(of).unwrap_or(0)
}

// The cells of variables.
fn types_cells(index: &Index<'_>, variables: &[Variable]) -> u64
    ensures { (names : Names) → AreApart names → result ≡ capped (types_cells (items_of names index.now) (types_kept (kept_by names variables.now))) }
{
    let mut total: u64 = 0;
    for variable in variables {
        total = total.saturating_add(type_cells(index, &variable.of));
    }
    total
}

/// The cells that a call of the function with these locals takes: those of the types of its parameters and locals. A
/// register is one cell. `u64::MAX` stands for every greater number. Takes no memory.
pub fn call_cells(index: &Index<'_>, locals: &Locals<'_>) -> u64
    ensures { (names : Names) → AreApart names → result ≡ min (L.call_cells (items_of names index.now) (function_of names (owner_of locals.now))) (2 ^ 64 - 1) }
{
    types_cells(index, locals.variables())
}

// The cells of a variable; nothing where its block is not live.
fn slot_size(slot: Slot, store: &Store) -> Option<u64>
    ensures { result ≡ slot_size store.now slot }
{
    match slot {
        Slot::Register(_) => Some(1),
        Slot::Boxed(number) => {
            let block = Block {
                class: Class::Auto,
                number,
            };
            store.size(block)
        }
    }
}

/// The cells of the variables of a call, which are dropped as it is left; none where a block of them is not live, so
/// that leaving faults. `u64::MAX` stands for every greater number. Takes no memory.
pub fn slots_cells(slots: &[Slot], store: &Store) -> Option<u64>
    ensures cells { IfSome result (λ n. (names : Names) → n ≡ min (L.slots_cells (store_of names store.now) (slots_of names slots.now)) (2 ^ 64 - 1)) }
    ensures leaves { (names : Names) → RiseFrom 0 slots.now → CanLeave result (M.free_slots (slots_of names slots.now) (store_of names store.now)) }
{
    let mut total: u64 = 0;
    for slot in slots {
        let cells = slot_size(*slot, store)?;
        total = total.saturating_add(cells);
    }
    Some(total)
}
