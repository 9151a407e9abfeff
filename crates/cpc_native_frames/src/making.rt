//! The slots of a call: registers with their values, and blocks of the store for the other variables.
ghost use Rattle.std.specs.Prelude.{◌≡◌, ◌<◌, ◌^◌, ◌+◌, ℕ, List, [], drop, Some, IfOk, OnOk, OnErr};
ghost use Rattle.std.specs.List.{All};
ghost use Rattle.cpc_tree.specs.Erase.{Names, type_of};
ghost use Rattle.cpc_tree.specs.Lists.{first_or};
ghost use Rattle.cpc_tree.specs.Typing as T;
ghost use Rattle.cpc_store.specs.Store as S;
ghost use Rattle.cpc_store.specs.declared.values.Class.TheVariants.{Auto};
ghost use Rattle.cpc_store.specs.Seen.{seen, IsLawful};
ghost use Rattle.cpc_meaning.specs.Slots as M;
ghost use Rattle.cpc_check_rules.specs.Apart.{AreApart};
ghost use Rattle.cpc_eval_values.specs.Shown.{value_of, values_of, store_of};
ghost use Rattle.cpc_eval_index.specs.Indexed.{items_of};
ghost use Rattle.cpc_eval.specs.Around.{slot_of};
ghost use Rattle.cpc_eval.specs.Spots.{IsLawfulSlot, AreLawful};
ghost use Rattle.cpc_meaning.specs.Answer as A;
ghost use Rattle.cpc_meaning.specs.Eval as E;
ghost use Rattle.cpc_tree.specs.Syntax.{Function};
ghost use Rattle.cpc_tree.specs.Registers as R;
ghost use Rattle.cpc_eval_locals.specs.Kept.{kept_by};
ghost use Rattle.cpc_eval_variables.specs.Kept.{kept_from};
ghost use Rattle.cpc_native_frames.specs.Back.{IsAsBefore, CanTakeBack, IsMade};
ghost use Rattle.cpc_native_frames.specs.Frames.{RiseFrom};
ghost use Rattle.cpc_native_frames.specs.Made.{make_kept, slots_of, IsNext};

use crate::freeing::free_slots;
use cpc_base::NoMemory;
use cpc_eval::Slot;
use cpc_eval_index::Index;
use cpc_eval_locals::Variable;
use cpc_store::{Block, Class, Store, Value};
use cpc_tree::program::CType;
use std::alloc::Global;

// No store has as many cells, and no class as many blocks.
const LIMIT: u64 = 0x8000_0000_0000_0000;

// Makes an auto block of so many cells, the first of which gets this value.
fn make_block(alloc: Global, cells: u64, first: Value, store: &mut Store) -> Result<u64, NoMemory>
    requires { IsLawful (seen first) }
    ensures number { IfOk result (λ number. number ≡ S.next_block Auto store.old) }
    ensures store { IfOk result (λ number. (names : Names) → store_of names store.new ≡ S.alloc Auto (M.first_cells cells (value_of names first)) (store_of names store.old)) }
    ensures small { IfOk result (λ number. cells < 2 ^ 63) }
    ensures next { IfOk result (λ number. S.next_block Auto store.new ≡ number + 1) }
    ensures err { OnErr result (store.new ≡ store.old) }
{
    if cells >= LIMIT - store.live_cells() || store.made(Class::Auto) >= LIMIT - 1 {
        return Err(NoMemory);
    }
    let block = store.alloc(alloc, Class::Auto, cells)?;
    let _ = store.save(block, 0, first);
    Ok(block.number)
}

// Makes the slot of a variable that begins with this value.
fn make_slot(
    alloc: Global,
    index: &Index,
    variable: &Variable,
    first: Value,
    store: &mut Store,
) -> Result<Slot, NoMemory>
    requires { IsLawful (seen first) }
    ensures made { IfOk result (λ slot. (names : Names) → AreApart names → (n : ℕ) → T.size (items_of names index.now) (type_of names variable.now.of) ≡ Some n
        → (slot_of names slot, store_of names store.new) ≡ M.make_slot variable.now.is_register n (value_of names first) (store_of names store.old)) }
    ensures lawful { IfOk result (λ slot. IsLawfulSlot slot) }
    ensures next { IfOk result (λ slot. IsNext slot (S.next_block Auto store.old) (S.next_block Auto store.new)) }
    ensures alone { IfOk result (λ slot. (names : Names) → IsMade (slot_of names slot) (store_of names store.old) (store_of names store.new)) }
    ensures err { OnErr result (store.new ≡ store.old) }
{
    if variable.is_register {
        return Ok(Slot::Register(first));
    }
    let cells = index.size(&variable.of).unwrap_or(0);
    let number = make_block(alloc, cells, first, store)?;
    Ok(Slot::Boxed(number))
}

// The value of an argument; one that is not there is unset.
fn argument_at(arguments: &[Value], i: usize) -> Value
    requires { All (λ v. IsLawful (seen v)) arguments.now }
    ensures value { (names : Names) → value_of names result ≡ first_or S.Unset (drop i (values_of names arguments.now)) }
    ensures lawful { IsLawful (seen result) }
{
    if i < arguments.len() {
        arguments[i]
    } else {
        Value::Unset
    }
}

// Makes the slots of variables, the first of which begin with the arguments. After want of memory some are made, whose
// blocks can be freed.
fn fill(
    alloc: Global,
    index: &Index,
    variables: &[Variable],
    arguments: &[Value],
    slots: &mut Vec<Slot>,
    store: &mut Store,
) -> Result<(), NoMemory>
    requires empty { slots.old.items ≡ [] }
    requires lawful { All (λ v. IsLawful (seen v)) arguments.now }
    ensures made { OnOk result ((names : Names) → AreApart names → (a : List E.Slot × S.Store) → make_kept (items_of names index.now) (kept_by names variables.now) (values_of names arguments.now) (store_of names store.old) ≡ A.Gives a
        → (slots_of names slots.new.items, store_of names store.new) ≡ a) }
    ensures slots { AreLawful slots.new.items }
    ensures rise { OnOk result (RiseFrom 0 slots.new.items) }
    ensures back { (names : Names) → CanTakeBack (slots_of names slots.new.items) (store_of names store.old) (store_of names store.new) }
{
    for i in 0..variables.len() {
        slots.push(Slot::Register(Value::Unset))?;
        let first = argument_at(arguments, i);
        slots[i] = make_slot(alloc, index, &variables[i], first, store)?;
    }
    Ok(())
}

/// Makes the slots of a call, by the variables of its function: registers with the arguments, and for each other variable
/// an auto block whose first cell is the argument. What has no argument is unset. Where the size of a type is not known
/// nothing is said.
///
/// `NoMemory` is want of memory, or of numbers for so many cells; the blocks that were made are freed, and the store is as it
/// was but for their numbers.
pub fn make_slots(
    alloc: Global,
    index: &Index,
    variables: &[Variable],
    arguments: &[Value],
    store: &mut Store,
) -> Result<Vec<Slot>, NoMemory>
    requires { All (λ v. IsLawful (seen v)) arguments.now }
    ensures made { IfOk result (λ slots. (names : Names) → AreApart names → (f : Function) → kept_by names variables.now ≡ kept_from f 0 (R.variables f)
        → (a : List E.Slot × S.Store) → M.call_slots (items_of names index.now) f (values_of names arguments.now) (store_of names store.old) ≡ A.Gives a → (slots_of names slots.items, store_of names store.new) ≡ a) }
    ensures lawful { IfOk result (λ slots. AreLawful slots.items) }
    ensures rise { IfOk result (λ slots. RiseFrom 0 slots.items) }
    ensures back { IfOk result (λ slots. (names : Names) → CanTakeBack (slots_of names slots.items) (store_of names store.old) (store_of names store.new)) }
    ensures err { OnErr result ((names : Names) → IsAsBefore (store_of names store.old) (store_of names store.new)) }
{
    let mut slots = Vec::new(alloc);
    match fill(alloc, index, variables, arguments, &mut slots, store) {
        Ok(()) => Ok(slots),
        Err(error) => {
            let _ = free_slots(&slots, store);
            Err(error)
        }
    }
}
