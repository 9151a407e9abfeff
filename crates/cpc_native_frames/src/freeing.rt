//! The blocks of a call, freed.
ghost use Rattle.std.specs.Prelude.{◌≡◌, OnErr};
ghost use Rattle.std.specs.Result.{result_map_both};
ghost use Rattle.cpc_tree.specs.Erase.{Names};
ghost use Rattle.cpc_meaning.specs.Slots as M;
ghost use Rattle.cpc_eval_values.specs.Meets.{Meets};
ghost use Rattle.cpc_eval_values.specs.Shown.{store_of};
ghost use Rattle.cpc_eval.specs.Around.{slot_of};
ghost use Rattle.cpc_native_frames.specs.Frames.{RiseFrom};
ghost use Rattle.cpc_native_frames.specs.Living as L;
ghost use Rattle.cpc_native_frames.specs.Made.{slots_of, free_slot};

use cpc_eval::Slot;
use cpc_num::Fault;
use cpc_store::{Block, Class, Store, Value};

// Frees the block of a slot that has one.
fn free_slot(slot: Slot, store: &mut Store) -> Result<(), Fault>
    ensures value { (names : Names) → result_map_both (λ _. store_of names store.new) (λ fault. fault) result ≡ free_slot (slot_of names slot) (store_of names store.old) }
    ensures err { OnErr result (store.new ≡ store.old) }
{
    match slot {
        Slot::Register(_) => Ok(()),
        Slot::Boxed(number) => {
            let block = Block {
                class: Class::Auto,
                number,
            };
            store.free(Class::Auto, Value::At(block, 0))?;
            Ok(())
        }
    }
}

/// Frees the blocks of these slots, in order.
///
/// `BadFree`: one of them is not live; of the store nothing is said then.
pub(crate) fn free_slots(slots: &[Slot], store: &mut Store) -> Result<(), Fault>
    ensures { (names : Names) → Meets (result_map_both (λ _. store_of names store.new) (λ fault. fault) result) (M.free_slots (slots_of names slots.now) (store_of names store.old)) }
{
    for slot in slots {
        free_slot(*slot, store)?;
    }
    Ok(())
}

// Whether a slot has no block, or one that is live.
fn is_live(slot: Slot, store: &Store) -> bool
    ensures { result ≡ L.is_live store.now slot }
{
    match slot {
        Slot::Register(_) => true,
        Slot::Boxed(number) => {
            let block = Block {
                class: Class::Auto,
                number,
            };
            store.size(block).is_some()
        }
    }
}

// Whether the blocks of all slots are live.
fn are_live(slots: &[Slot], store: &Store) -> bool
    ensures { result ≡ L.are_live store.now slots.now }
{
    for slot in slots {
        if !is_live(*slot, store) {
            return false;
        }
    }
    true
}

/// Frees the blocks of a call that is left, in order.
///
/// `BadFree`: one of them is not live; then none is freed.
pub fn leave(slots: &[Slot], store: &mut Store) -> Result<(), Fault>
    requires { RiseFrom 0 slots.now }
    ensures value { (names : Names) → Meets (result_map_both (λ _. store_of names store.new) (λ fault. fault) result) (M.free_slots (slots_of names slots.now) (store_of names store.old)) }
    ensures err { OnErr result (store.new ≡ store.old) }
{
    if are_live(slots, store) {
        free_slots(slots, store)
    } else {
        Err(Fault::BadFree)
    }
}
