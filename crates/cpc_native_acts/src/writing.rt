//! The writing of values.
ghost use Rattle.std.specs.Prelude.{◌≡◌, ℕ, OnErr};
ghost use Rattle.std.specs.Result.{result_map_both};
ghost use Rattle.cpc_tree.specs.Erase.{Names};
ghost use Rattle.cpc_store.specs.Seen.{seen, IsLawful};
ghost use Rattle.cpc_meaning.specs.Act as M;
ghost use Rattle.cpc_meaning.specs.Eval as E;
ghost use Rattle.cpc_eval_values.specs.Meets.{Meets};
ghost use Rattle.cpc_eval_values.specs.Shown.{value_of, store_of};
ghost use Rattle.cpc_eval.specs.Spots.{spot_of, AreLawful};
ghost use Rattle.cpc_native_frames.specs.Frames.{RiseFrom};
ghost use Rattle.cpc_native_frames.specs.Made.{slots_of};

use cpc_eval::{Slot, Spot};
use cpc_num::Fault;
use cpc_store::{Store, Value};

/// Writes a value to a place.
///
/// - `Freed`: its block is not live.
/// - `Bounds`: it is behind the end of its block.
///
/// A fault leaves the slots and the store as they were.
pub(crate) fn write(
    slots: &mut [Slot],
    store: &mut Store,
    spot: Spot,
    value: Value,
) -> Result<(), Fault>
    requires value { IsLawful (seen value) }
    requires slots { AreLawful slots.old }
    ensures value { (names : Names) (c : E.Context) → c.slots ≡ slots_of names slots.old → c.store ≡ store_of names store.old
        → Meets (result_map_both (λ _. (slots_of names slots.new, store_of names store.new)) (λ fault. fault) result) (M.write c (spot_of spot) (value_of names value)) }
    ensures lawful { AreLawful slots.new }
    ensures rise { (n : ℕ) → RiseFrom n slots.old → RiseFrom n slots.new }
    ensures slots { OnErr result (slots.new ≡ slots.old) }
    ensures store { OnErr result (store.new ≡ store.old) }
{
    match spot {
        Spot::Slot(number) => {
            let k = number as usize;
            if k < slots.len() {
                slots[k] = Slot::Register(value);
            }
            Ok(())
        }
        Spot::Cell(block, offset) => store.save(block, offset, value),
    }
}
