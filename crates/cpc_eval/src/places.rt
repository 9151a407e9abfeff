//! Where places are, and what they hold.
ghost use Rattle.std.specs.Prelude.{◌≡◌, IfOk, map, option_map, slice_get};
ghost use Rattle.cpc_tree.specs.Erase.{Names, type_of};
ghost use Rattle.cpc_tree.specs.Typing as T;
ghost use Rattle.cpc_check_rules.specs.Apart.{AreApart};
ghost use Rattle.cpc_store.specs.Seen.{seen, IsLawful};
ghost use Rattle.cpc_eval_index.specs.Indexed.{items_of};
ghost use Rattle.cpc_eval_index.specs.Meanings.{meant_if, meant_of};
ghost use Rattle.cpc_meaning.specs.Eval as E;
ghost use Rattle.cpc_eval_values.specs.Meets.{Meets};
ghost use Rattle.cpc_eval_values.specs.Shown.{value_of, store_of, shown};
ghost use Rattle.cpc_eval.specs.Around.{slot_of};
ghost use Rattle.cpc_eval.specs.Results.{located_shown};
ghost use Rattle.cpc_eval.specs.Shapes.{types_of, Agrees};
ghost use Rattle.cpc_eval.specs.Spots.{spot_of, spot_shown, cell_read, code_named, AreLawful, IsLawfulSpot};

use crate::around::Slot;
use crate::results::{Located, placed};
use crate::shapes::Typed;
use crate::typing::field_of;
use cpc_base::Name;
use cpc_eval_index::{Index, Meant};
use cpc_eval_values::{moved_up, scalar_of};
use cpc_num::Fault;
use cpc_store::{Block, Class, Store, Value};
use cpc_tree::program::{CType, Mode};

/// Where a place is: the number of a slot of the call, or a cell of a block.
#[derive(Clone, Copy)]
pub enum Spot {
    Slot(u64),
    Cell(Block, u64),
}

/// The cell that a pointer points to.
///
/// - `Unset`: the value is unset.
/// - `Null`: it is null.
pub(crate) fn pointed(value: Value) -> Result<Spot, Fault>
    requires { IsLawful (seen value) }
    ensures value { (names : Names) → Meets (spot_shown result) (E.pointed (value_of names value)) }
    ensures lawful { IfOk result (λ spot. IsLawfulSpot spot) }
{
    match value {
        Value::Unset => Err(Fault::Unset),
        Value::Null => Err(Fault::Null),
        Value::At(block, offset) => Ok(Spot::Cell(block, offset)),
        _ => Err(Fault::Kind),
    }
}

/// A pointer to a place in memory.
pub(crate) fn pointer_to(spot: Spot) -> Result<Value, Fault>
    requires { IsLawfulSpot spot }
    ensures value { (names : Names) → Meets (shown names result) (E.pointer_to (spot_of spot)) }
    ensures lawful { IfOk result (λ v. IsLawful (seen v)) }
{
    match spot {
        Spot::Cell(block, offset) => Ok(Value::At(block, offset)),
        Spot::Slot(_) => Err(Fault::Kind),
    }
}

// The slot of a number.
fn slot_at(slots: &[Slot], slot: u64) -> Option<Slot>
    ensures { result ≡ slice_get slots.now slot }
{
    slots.get(slot as usize).copied()
}

// A cell of a static or an auto block.
fn first_cell(class: Class, number: u64) -> Spot
    ensures spot { spot_of result ≡ E.InCell class number 0 }
    ensures lawful { IsLawfulSpot result }
{
    Spot::Cell(Block { class, number }, 0)
}

/// Where the variable is that a name stands for: a register in its slot, another one at the first cell of its block.
///
/// What is no variable, or has no slot, may give any place or any fault; elsewhere there is no fault.
pub(crate) fn spot_named(slots: &[Slot], meant: Option<Meant>) -> Result<Spot, Fault>
    ensures value { (names : Names) → Meets (spot_shown result) (E.spot_named (map (slot_of names) slots.now) (meant_if names meant.entry)) }
    ensures lawful { IfOk result (λ spot. IsLawfulSpot spot) }
{
    match meant {
        Some(Meant::Local { slot, .. }) => match slot_at(slots, slot) {
            Some(Slot::Register(_)) => Ok(Spot::Slot(slot)),
            Some(Slot::Boxed(number)) => Ok(first_cell(Class::Auto, number)),
            None => Err(Fault::Kind),
        },
        Some(Meant::Global { block, .. }) => Ok(first_cell(Class::Static, block)),
        _ => Err(Fault::Kind),
    }
}

// The value of a register.
fn slot_value(slots: &[Slot], slot: u64) -> Result<Value, Fault>
    requires { AreLawful slots.now }
    ensures value { (names : Names) → Meets (shown names result) (E.slot_value (slice_get (map (slot_of names) slots.now) slot)) }
    ensures lawful { IfOk result (λ v. IsLawful (seen v)) }
{
    match slot_at(slots, slot) {
        Some(Slot::Register(value)) => Ok(value),
        _ => Err(Fault::Kind),
    }
}

// The value of a cell of a scalar type.
fn cell_value(store: &Store, of: &CType, block: Block, offset: u64) -> Result<Value, Fault>
    ensures value { (names : Names) → Meets (shown names result) (cell_read (type_of names of.now) block.class block.number offset (store_of names store.now)) }
    ensures lawful { IfOk result (λ v. IsLawful (seen v)) }
{
    match scalar_of(of) {
        Some(wanted) => store.load(block, offset, wanted),
        None => Err(Fault::Kind),
    }
}

/// The value of a place of a type: an array is a pointer to its first element.
///
/// - `Freed`, `Bounds`, `Kind`: as of a load.
pub(crate) fn read(
    slots: &[Slot],
    store: &Store,
    of: Option<&CType>,
    spot: Spot,
) -> Result<Value, Fault>
    requires slots { AreLawful slots.now }
    requires spot { IsLawfulSpot spot }
    ensures value { (names : Names) → Meets (shown names result)
        (E.read (map (slot_of names) slots.now) (store_of names store.now) (option_map (λ t. type_of names t.now) of.entry) (spot_of spot)) }
    ensures lawful { IfOk result (λ v. IsLawful (seen v)) }
{
    match of {
        None => Err(Fault::Kind),
        Some(of) => match spot {
            Spot::Slot(slot) => slot_value(slots, slot),
            Spot::Cell(block, offset) => match of {
                CType::Array(_, _) => Ok(Value::At(block, offset)),
                _ => cell_value(store, of, block, offset),
            },
        },
    }
}

/// A field of the struct at a pointer, and its type.
///
/// - `Unset`, `Null`, `Freed`, `Bounds`: as of a move of the pointer.
pub(crate) fn field_spot<'a>(
    store: &Store,
    index: &Index<'a>,
    of: Option<&'a CType>,
    name: Name,
    value: Value,
) -> Result<Located<'a>, Fault>
    requires { IsLawful (seen value) }
    ensures value { (names : Names) → AreApart names → Meets (located_shown result)
        (E.field_spot (items_of names index.now) (store_of names store.now) (option_map (λ t. type_of names t.now) of.entry) (names name) (value_of names value)) }
    ensures typed { (names : Names) → AreApart names → IfOk result (λ l. Agrees (types_of names l.typed) (T.field_type (items_of names index.now) (option_map (λ t. type_of names t.now) of.entry) (names name))) }
    ensures lawful { IfOk result (λ l. IsLawfulSpot l.spot) }
{
    match field_of(of, name, index) {
        None => Err(Fault::Kind),
        Some((offset, of)) => {
            let there = moved_up(store, value, offset)?;
            placed(pointed(there), Some(Typed::Place(of)))
        }
    }
}

/// The value of a name.
///
/// - `Freed`, `Bounds`, `Kind`: as of a load.
pub(crate) fn value_named(
    slots: &[Slot],
    store: &Store,
    name: Name,
    meant: Option<Meant>,
) -> Result<Value, Fault>
    requires { AreLawful slots.now }
    ensures value { (names : Names) → Meets (shown names result) (E.value_named (map (slot_of names) slots.now) (store_of names store.now) (names name) (meant_if names meant.entry)) }
    ensures lawful { IfOk result (λ v. IsLawful (seen v)) }
{
    match meant {
        Some(meant) => value_known(slots, store, name, meant),
        None => Err(Fault::Kind),
    }
}

// The same of a name that stands for something.
fn value_known(slots: &[Slot], store: &Store, name: Name, meant: Meant) -> Result<Value, Fault>
    requires { AreLawful slots.now }
    ensures value { (names : Names) → Meets (shown names result) (E.value_named (map (slot_of names) slots.now) (store_of names store.now) (names name) (meant_of names meant.entry)) }
    ensures lawful { IfOk result (λ v. IsLawful (seen v)) }
{
    match meant {
        Meant::Local { of, .. } => {
            let spot = spot_named(slots, Some(meant))?;
            read(slots, store, Some(of), spot)
        }
        Meant::Global { block, of } => {
            read(slots, store, Some(of), first_cell(Class::Static, block))
        }
        Meant::Function { mode, .. } => code_of(mode, name),
    }
}

// The code of a native or detached function.
fn code_of(mode: Mode, name: Name) -> Result<Value, Fault>
    ensures value { (names : Names) → Meets (shown names result) (code_named mode (names name)) }
    ensures lawful { IfOk result (λ v. IsLawful (seen v)) }
{
    match mode {
        Mode::Native | Mode::Detached => Ok(Value::Code(name)),
        Mode::Cps | Mode::Extern => Err(Fault::Kind),
    }
}

// The address of a variable.
fn address_of(slots: &[Slot], meant: Option<Meant>) -> Result<Value, Fault>
    ensures value { (names : Names) → Meets (shown names result) (E.address (E.spot_named (map (slot_of names) slots.now) (meant_if names meant.entry))) }
    ensures lawful { IfOk result (λ v. IsLawful (seen v)) }
{
    let spot = spot_named(slots, meant)?;
    pointer_to(spot)
}

/// The address of a variable, or the code of a function.
pub(crate) fn address_named(
    slots: &[Slot],
    name: Name,
    meant: Option<Meant>,
) -> Result<Value, Fault>
    ensures value { (names : Names) → Meets (shown names result) (E.address_named (map (slot_of names) slots.now) (names name) (meant_if names meant.entry)) }
    ensures lawful { IfOk result (λ v. IsLawful (seen v)) }
{
    match meant {
        Some(meant) => address_known(slots, name, meant),
        None => Err(Fault::Kind),
    }
}

// The same of a name that stands for something.
fn address_known(slots: &[Slot], name: Name, meant: Meant) -> Result<Value, Fault>
    ensures value { (names : Names) → Meets (shown names result) (E.address_named (map (slot_of names) slots.now) (names name) (meant_of names meant.entry)) }
    ensures lawful { IfOk result (λ v. IsLawful (seen v)) }
{
    match meant {
        Meant::Local { .. } => address_of(slots, Some(meant)),
        Meant::Global { .. } => address_of(slots, Some(meant)),
        Meant::Function { mode, .. } => code_of(mode, name),
    }
}
