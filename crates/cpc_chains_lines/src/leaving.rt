//! How a function is left: its value, its boxes given back, and the value's way to the frame below.
ghost use Rattle.std.specs.Prelude.{◌≡◌, ◌∷◌, [], pos, Some, option_map, OnOk};
ghost use Rattle.cpc_num.specs.declared.kinds.Kind.TheVariants as K;
ghost use Rattle.cpc_tree.specs.Erase as E;
ghost use Rattle.cpc_tree.specs.Erase.{Table, expr_of};
ghost use Rattle.cpc_tree.specs.Syntax as S;
ghost use Rattle.cpc_convert_routines.specs.Routines.{Routine};
ghost use Rattle.cpc_chains_event.specs.Lines as L;
ghost use Rattle.cpc_chains_lines.specs.Written.{written, puts};
ghost use Rattle.cpc_chains_lines.specs.Puts.{unboxes};
ghost use Rattle.cpc_forms_code.specs.Lifts.{unless};
ghost use Rattle.cpc_chains_lines.specs.Around.{Stands, reads, IsVariable};

use crate::around::{Around, local, readings};
use crate::out::Out;
use crate::trees::{field, is_there, named, zero};
use cpc_base::{Name, NoMemory};
use cpc_convert_images::{both, image};
use cpc_tree::program::Operand;
use std::alloc::Global;

/// A frame is given to the driver. `NoMemory` is want of memory.
pub fn hand_over(
    alloc: Global,
    out: &mut Out,
    around: Around<'_>,
    pointer: Name,
) -> Result<(), NoMemory>
    ensures { OnOk result ((to : E.Names) → written to out.new ≡ puts (written to out.old) (L.hands_over (to pointer) ∷ [])) }
{
    out.give(alloc, around.place, named(around.place, pointer))?;
    Ok(())
}

/// No frame is given to the driver. `NoMemory` is want of memory.
pub fn hand_nothing(alloc: Global, out: &mut Out, around: Around<'_>) -> Result<(), NoMemory>
    ensures { OnOk result ((to : E.Names) → written to out.new ≡ puts (written to out.old) (L.hands_nothing ∷ [])) }
{
    out.give(alloc, around.place, zero(around.place))?;
    Ok(())
}

// A box is given back, unless the variable is a register. `NoMemory` is want of memory.
fn unbox_unless(
    alloc: Global,
    out: &mut Out,
    around: Around<'_>,
    number: usize,
    is_register: bool,
) -> Result<(), NoMemory>
    ensures { OnOk result ((source : Table) (from to : E.Names) (p : S.Program) (r : Routine) → Stands source from to p r around.entry → IsVariable around.entry number
        → written to out.new ≡ puts (written to out.old) (unboxes r (unless is_register number []))) }
{
    if is_register {
        return Ok(());
    }
    let place = around.place;
    let pointer = named(place, local(around, number));
    out.call_one(alloc, place, None, around.book.of_loop.unbox, pointer)?;
    Ok(())
}

// The boxes are given back. `NoMemory` is want of memory.
fn unbox(alloc: Global, out: &mut Out, around: Around<'_>) -> Result<(), NoMemory>
    ensures { OnOk result ((source : Table) (from to : E.Names) (p : S.Program) (r : Routine) → Stands source from to p r around.entry
        → written to out.new ≡ puts (written to out.old) (L.unbox_lines r)) }
{
    let variables = around.called.variables();
    for number in 0..variables.len() {
        unbox_unless(alloc, out, around, number, variables[number].is_register)?;
    }
    Ok(())
}

// The value that is returned goes to the frame below, if there is one. `NoMemory` is want of memory.
fn patch(alloc: Global, out: &mut Out, around: Around<'_>) -> Result<(), NoMemory>
    ensures { OnOk result ((source : Table) (from to : E.Names) (p : S.Program) (r : Routine) → Stands source from to p r around.entry
        → written to out.new ≡ puts (written to out.old) (L.patch_lines (Some (S.EInteger K.Int (pos 0))))) }
{
    let own = &around.book.own;
    let place = around.place;
    let test = is_there(alloc, place, own.next)?;
    let (test, target) = both(test, field(alloc, place, named(place, own.next), own.value))?;
    out.assign_if(alloc, place, test, target, named(place, own.returned))?;
    Ok(())
}

/// The function is left, with this value or none. `NoMemory` is want of memory.
pub fn leave(
    alloc: Global,
    out: &mut Out,
    around: Around<'_>,
    scope: Option<usize>,
    value: &Option<Operand>,
) -> Result<(), NoMemory>
    ensures { OnOk result ((source : Table) (from to : E.Names) (p : S.Program) (r : Routine) → Stands source from to p r around.entry → option_map (expr_of from) value.now ≡ option_map (expr_of to) value.now
        → written to out.new ≡ puts (written to out.old) (L.leave_lines r (reads from r around.entry scope) (option_map (expr_of from) value.now))) }
{
    let own = &around.book.own;
    if let Some(e) = value {
        let made = image(alloc, e.expr(), readings(around, scope))?;
        out.assign(alloc, around.place, named(around.place, own.returned), made)?;
        unbox(alloc, out, around)?;
        patch(alloc, out, around)?;
        hand_over(alloc, out, around, own.next)?;
        return Ok(());
    }
    unbox(alloc, out, around)?;
    hand_over(alloc, out, around, own.next)?;
    Ok(())
}
