//! How a piece begins: it takes its frame, loads what the frame keeps, declares its locals, makes boxes, and gives the frame back.
ghost use Rattle.std.specs.Prelude.{◌≡◌, ◌<◌, ◌∷◌, [], ◌&&◌, true, Some, map, length, All, IfOk, OnOk};
ghost use Rattle.cpc_tree.specs.Erase as E;
ghost use Rattle.cpc_tree.specs.Erase.{Table, type_of};
ghost use Rattle.cpc_tree.specs.Syntax as S;
ghost use Rattle.cpc_tree.specs.Typing as T;
ghost use Rattle.cpc_forms_code.specs.Splits.{place_of};
ghost use Rattle.cpc_convert_flat_laws.specs.Locals.{loads_one, declares_one};
ghost use Rattle.cpc_chains_store_laws.specs.Frames.{frees_frame};
ghost use Rattle.cpc_convert_flat_laws.specs.Boxes.{boxes_one, fills_box};
ghost use Rattle.cpc_convert_routines.specs.Names.{pointer_name, frame_name, result_name, box_tag};
ghost use Rattle.cpc_convert_routines.specs.Routines.{Routine, local_of, locals_of, variable_of, is_parameter, variable_if};
ghost use Rattle.cpc_chains_event.specs.Pieces.{next_load, below_if, value_load, load_of, words_if, called_so, to_frame, boxing_lines};
ghost use Rattle.cpc_convert_names.specs.Called.{variables_in};
ghost use Rattle.cpc_chains_lines.specs.Written.{written, puts};
ghost use Rattle.cpc_forms_code.specs.Lifts.{unless};
ghost use Rattle.cpc_chains_lines.specs.Around.{Stands, IsVariable};

use cpc_base::{Name, NoMemory};
use cpc_chains_lines::{
    Around, Out, any_pointer, field, load, load_arriving, local, local_type, named, size_of, tag,
    to_struct,
};
use cpc_forms_code::Owner;
use cpc_shapes::copy_of;
use cpc_tree::program::{CType, Operand};
use std::alloc::Global;

/// The frame of a tag is taken. `NoMemory` is want of memory.
pub(crate) fn take_frame(
    alloc: Global,
    out: &mut Out,
    around: Around<'_>,
    tag: Name,
) -> Result<(), NoMemory>
    ensures { OnOk result ((source : Table) (from to : E.Names) (p : S.Program) (r : Routine) → Stands source from to p r around.entry
        → written to out.new ≡ puts (written to out.old) (S.Declare frame_name (S.TyPointer (S.TyStruct (to tag))) (Some (S.ENamed pointer_name)) ∷ [])) }
{
    let own = &around.book.own;
    let place = around.place;
    let of = to_struct(alloc, tag)?;
    let pointer = named(place, own.pointer);
    out.declare(alloc, place, own.frame, of, Some(Operand::new(pointer)))?;
    Ok(())
}

// The type of a pointer to the frame below. `NoMemory` is want of memory.
fn below(alloc: Global, around: Around<'_>) -> Result<CType, NoMemory>
    ensures { IfOk result (λ t. (source : Table) (from to : E.Names) (p : S.Program) (r : Routine) → Stands source from to p r around.entry
        → type_of to t ≡ below_if (T.is_scalar r.function.result) r.function.called) }
{
    if around.called.function().result.is_scalar() {
        let of = to_struct(alloc, around.called.value)?;
        return Ok(of);
    }
    let of = any_pointer(alloc)?;
    Ok(of)
}

/// The frame below is loaded. `NoMemory` is want of memory.
pub(crate) fn load_next(alloc: Global, out: &mut Out, around: Around<'_>) -> Result<(), NoMemory>
    ensures { OnOk result ((source : Table) (from to : E.Names) (p : S.Program) (r : Routine) → Stands source from to p r around.entry
        → written to out.new ≡ puts (written to out.old) (loads_one frame_name (next_load r.function) ∷ [])) }
{
    let of = below(alloc, around)?;
    let next = around.book.own.next;
    load(alloc, out, around, next, of, next)?;
    Ok(())
}

/// The value that arrives at an owner is loaded, where it is put somewhere. `NoMemory` is want of memory.
pub(crate) fn load_value(
    alloc: Global,
    out: &mut Out,
    around: Around<'_>,
    owner: Owner,
) -> Result<(), NoMemory>
    ensures { OnOk result ((source : Table) (from to : E.Names) (p : S.Program) (r : Routine) → Stands source from to p r around.entry
        → written to out.new ≡ puts (written to out.old) (map (loads_one frame_name) (value_load p r (place_of owner)))) }
{
    let Owner::Leader(number) = owner else {
        return Ok(());
    };
    match around.called.nodes().get(number) {
        Some(node) => {
            load_arriving(alloc, out, around, *node)?;
            Ok(())
        }
        None => Ok(()),
    }
}

// The local of a variable is loaded. `NoMemory` is want of memory.
fn load_variable(
    alloc: Global,
    out: &mut Out,
    around: Around<'_>,
    number: usize,
) -> Result<(), NoMemory>
    ensures { OnOk result ((source : Table) (from to : E.Names) (p : S.Program) (r : Routine) → Stands source from to p r around.entry → IsVariable around.entry number
        → written to out.new ≡ puts (written to out.old) (loads_one frame_name (load_of (local_of r number)) ∷ [])) }
{
    let name = local(around, number);
    let of = local_type(alloc, around, number)?;
    load(alloc, out, around, name, of, name)?;
    Ok(())
}

/// The locals of variables are loaded. `NoMemory` is want of memory.
pub(crate) fn load_variables(
    alloc: Global,
    out: &mut Out,
    around: Around<'_>,
    numbers: &[usize],
) -> Result<(), NoMemory>
    ensures { OnOk result ((source : Table) (from to : E.Names) (p : S.Program) (r : Routine) → Stands source from to p r around.entry
        → All (IsVariable around.entry) numbers.now
        → written to out.new ≡ puts (written to out.old) (map (loads_one frame_name) (map load_of (locals_of r numbers.now)))) }
{
    for number in numbers {
        load_variable(alloc, out, around, *number)?;
    }
    Ok(())
}

// A pointer to any frame is declared, where it is used. `NoMemory` is want of memory.
fn declare_pointer(
    alloc: Global,
    out: &mut Out,
    around: Around<'_>,
    name: Name,
    is_used: bool,
) -> Result<(), NoMemory>
    ensures { OnOk result ((source : Table) (from to : E.Names) (p : S.Program) (r : Routine) → Stands source from to p r around.entry
        → written to out.new ≡ puts (written to out.old) (map declares_one (variable_if is_used (called_so (to name) to_frame) []))) }
{
    if is_used {
        let of = to_struct(alloc, around.book.own.any_frame)?;
        out.declare(alloc, around.place, name, of, None)?;
        return Ok(());
    }
    Ok(())
}

// The value that is returned is declared, where it is used. `NoMemory` is want of memory.
fn declare_result(
    alloc: Global,
    out: &mut Out,
    around: Around<'_>,
    is_used: bool,
) -> Result<(), NoMemory>
    ensures { OnOk result ((source : Table) (from to : E.Names) (p : S.Program) (r : Routine) → Stands source from to p r around.entry
        → written to out.new ≡ puts (written to out.old) (map declares_one (variable_if is_used (called_so result_name r.function.result) []))) }
{
    if is_used {
        let of = copy_of(alloc, &around.called.function().result)?;
        out.declare(alloc, around.place, around.book.own.returned, of, None)?;
        return Ok(());
    }
    Ok(())
}

/// The words for the frame that a piece gives, for one below it, and for the value that it returns, are declared where they are used.
/// `NoMemory` is want of memory.
pub(crate) fn declare_words(
    alloc: Global,
    out: &mut Out,
    around: Around<'_>,
    gives: bool,
    calls: bool,
    returns: bool,
) -> Result<(), NoMemory>
    ensures { OnOk result ((source : Table) (from to : E.Names) (p : S.Program) (r : Routine) → Stands source from to p r around.entry
        → written to out.new ≡ puts (written to out.old) (map declares_one (words_if gives calls returns r.function.result))) }
{
    let own = &around.book.own;
    declare_pointer(alloc, out, around, own.given, gives)?;
    declare_pointer(alloc, out, around, own.under, calls)?;
    declare_result(alloc, out, around, returns)?;
    Ok(())
}

// The local of a variable is declared. `NoMemory` is want of memory.
fn declare_variable(
    alloc: Global,
    out: &mut Out,
    around: Around<'_>,
    number: usize,
) -> Result<(), NoMemory>
    ensures { OnOk result ((source : Table) (from to : E.Names) (p : S.Program) (r : Routine) → Stands source from to p r around.entry → IsVariable around.entry number
        → written to out.new ≡ puts (written to out.old) (declares_one (local_of r number) ∷ [])) }
{
    let name = local(around, number);
    let of = local_type(alloc, around, number)?;
    out.declare(alloc, around.place, name, of, None)?;
    Ok(())
}

/// The locals of variables are declared. `NoMemory` is want of memory.
pub(crate) fn declare_variables(
    alloc: Global,
    out: &mut Out,
    around: Around<'_>,
    numbers: &[usize],
) -> Result<(), NoMemory>
    ensures { OnOk result ((source : Table) (from to : E.Names) (p : S.Program) (r : Routine) → Stands source from to p r around.entry
        → All (IsVariable around.entry) numbers.now
        → written to out.new ≡ puts (written to out.old) (map declares_one (locals_of r numbers.now))) }
{
    for number in numbers {
        declare_variable(alloc, out, around, *number)?;
    }
    Ok(())
}

// A box is made. `NoMemory` is want of memory.
fn make_box(alloc: Global, out: &mut Out, around: Around<'_>, number: usize) -> Result<(), NoMemory>
    ensures { OnOk result ((source : Table) (from to : E.Names) (p : S.Program) (r : Routine) → Stands source from to p r around.entry → IsVariable around.entry number
        → written to out.new ≡ puts (written to out.old) (boxes_one (local_of r number).called (S.ESizeOf (S.TyStruct (box_tag r.function.called number))) ∷ [])) }
{
    let place = around.place;
    let pointer = named(place, local(around, number));
    let size = size_of(place, tag(around, number));
    out.call_one(
        alloc,
        place,
        Some(Operand::new(pointer)),
        around.book.of_loop.put_in_box,
        size,
    )?;
    Ok(())
}

// Whether a variable is a parameter with a value.
fn is_passed(around: Around<'_>, number: usize) -> bool
    ensures { (source : Table) (from to : E.Names) (p : S.Program) (r : Routine) → Stands source from to p r around.entry → IsVariable around.entry number
        → result ≡ (is_parameter r.function number && T.is_scalar (variable_of r number).type) }
{
    match around.called.variables().get(number) {
        Some(variable) => {
            if number < around.called.function().parameters.len() {
                return variable.of.is_scalar();
            }
            false
        }
        None => false,
    }
}

// An argument is put in the box of its parameter. `NoMemory` is want of memory. It is answered also where there is no such variable,
// or it has no name; no program that was read has such a parameter.
fn fill_box(alloc: Global, out: &mut Out, around: Around<'_>, number: usize) -> Result<(), NoMemory>
    ensures { OnOk result ((source : Table) (from to : E.Names) (p : S.Program) (r : Routine) → Stands source from to p r around.entry → IsVariable around.entry number → is_parameter r.function number ≡ true
        → written to out.new ≡ puts (written to out.old) (fills_box (local_of r number).called (variable_of r number).called frame_name (local_of r number).called ∷ [])) }
{
    let place = around.place;
    let of = around.called.variables().get(number);
    let Some(of) = of else {
        return Err(NoMemory);
    };
    let Some(name) = of.name else {
        return Err(NoMemory);
    };
    let pointer = named(place, local(around, number));
    let target = field(alloc, place, pointer, name)?;
    let frame = named(place, around.book.own.frame);
    let value = field(alloc, place, frame, local(around, number))?;
    out.assign(alloc, place, target, value)?;
    Ok(())
}

// A box is made, that of a parameter with its argument, unless the variable is a register. `NoMemory` is want of memory.
fn box_unless(
    alloc: Global,
    out: &mut Out,
    around: Around<'_>,
    number: usize,
    is_register: bool,
) -> Result<(), NoMemory>
    ensures { OnOk result ((source : Table) (from to : E.Names) (p : S.Program) (r : Routine) → Stands source from to p r around.entry → IsVariable around.entry number
        → written to out.new ≡ puts (written to out.old) (boxing_lines r (unless is_register number []))) }
{
    if is_register {
        return Ok(());
    }
    make_box(alloc, out, around, number)?;
    if is_passed(around, number) {
        fill_box(alloc, out, around, number)?;
        return Ok(());
    }
    Ok(())
}

/// The boxes of the function are made, those of parameters with their arguments. `NoMemory` is want of memory.
pub(crate) fn box_variables(
    alloc: Global,
    out: &mut Out,
    around: Around<'_>,
) -> Result<(), NoMemory>
    ensures { OnOk result ((source : Table) (from to : E.Names) (p : S.Program) (r : Routine) → Stands source from to p r around.entry
        → written to out.new ≡ puts (written to out.old) (boxing_lines r r.boxes)) }
{
    let variables = around.called.variables();
    for number in 0..variables.len() {
        box_unless(alloc, out, around, number, variables[number].is_register)?;
    }
    Ok(())
}

/// The frame is given back. `NoMemory` is want of memory.
pub(crate) fn free_frame(alloc: Global, out: &mut Out, around: Around<'_>) -> Result<(), NoMemory>
    ensures { OnOk result ((source : Table) (from to : E.Names) (p : S.Program) (r : Routine) → Stands source from to p r around.entry
        → written to out.new ≡ puts (written to out.old) (frees_frame pointer_name ∷ [])) }
{
    let pointer = named(around.place, around.book.own.pointer);
    out.call_one(
        alloc,
        around.place,
        None,
        around.book.of_loop.frame_free,
        pointer,
    )?;
    Ok(())
}
