//! What the code of a section asks for, acted on and answered in the step that asks.
ghost use Rattle.std.specs.Prelude.{◌≡◌, ◌∷◌, [], Bool, IfOk, IfSome, OnOk, length};
ghost use Rattle.std.specs.List.{All};
ghost use Rattle.cpc_base.specs.Bytes.{Text};
ghost use Rattle.cpc_tree.specs.Erase.{Names};
ghost use Rattle.cpc_store.specs.Seen.{seen, IsLawful};
ghost use Rattle.cpc_store.specs.Store as S;
ghost use Rattle.cpc_store.specs.declared.values.Class.TheVariants.{Heap};
ghost use Rattle.cpc_meaning.specs.Requests as R;
ghost use Rattle.cpc_eval_values.specs.Shown.{value_of};
ghost use Rattle.cpc_native.specs.Well.{IsWell, IsSameBut};
ghost use Rattle.cpc_native.specs.Stacks.{request_of};
ghost use Rattle.cpc_native.specs.Taken.{IsAskedWith, IsCalledWith};
ghost use Rattle.cpc_sections.specs.Jobs.{IsLawfulEnd};
ghost use Rattle.cpc_tree.specs.Primitives as P;
ghost use Rattle.cpc_native_sections.specs.Led.{LeadsTo, StaysWell, IsRunning, asking_of, answer_of};

use cpc_base::{Name, NoMemory};
use cpc_native::{Machine, Request};
use cpc_native_builtins::Call;
use cpc_num::Fault;
use cpc_sections::SectionEnd;
use cpc_store::{Block, Class, Value};
use cpc_tree::primitive::Primitive;
use std::alloc::Global;

// The most blocks, and the most cells of all blocks, of which a section has fewer.
const MOST: u64 = 1 << 62;

// The code of a function is answered, and goes on; or a fault ends the section. It takes no memory.
fn replies(
    alloc: Global,
    machine: &mut Machine<'_>,
    function: Name,
    value: Value,
) -> Option<SectionEnd>
    requires well { IsWell machine.old }
    requires value { IsLawful (seen value) }
    ensures led { (names : Names) → IsRunning names machine.old → (f : Text) (no_copy : Bool) → LeadsTo names machine.new result (answer_of names machine.old f no_copy (names function) (value_of names value)) }
    ensures lawful { IfSome result IsLawfulEnd }
    ensures well { StaysWell result machine.new }
    ensures index { machine.new.index ≡ machine.old.index }
    ensures texts { machine.new.texts ≡ machine.old.texts }
{
    match machine.answer(alloc, value) {
        Ok(()) => None,
        Err(fault) => Some(SectionEnd::Faulted(fault, function)),
    }
}

// Makes the next block, of so many unset cells.
fn makes(alloc: Global, machine: &mut Machine<'_>, cells: u64) -> Result<Block, NoMemory>
    requires { IsWell machine.old }
    ensures block { IfOk result (λ b. b ≡ record { class = Heap; number = S.next_block Heap machine.old.store }) }
    ensures store { OnOk result (machine.new.store ≡ S.alloc Heap (S.unset_cells cells) machine.old.store) }
    ensures well { IsWell machine.new }
    ensures same { IsSameBut machine.old machine.new }
{
    let room = MOST.saturating_sub(machine.store().live_cells());
    if cells >= room || machine.store().made(Class::Heap) >= MOST {
        return Err(NoMemory);
    }
    machine.alloc(alloc, Class::Heap, cells)
}

// A block of a number of cells; a negative one is a fault.
fn allocates(
    alloc: Global,
    machine: &mut Machine<'_>,
    function: Name,
    count: Value,
) -> Result<Option<SectionEnd>, NoMemory>
    requires well { IsWell machine.old }
    requires count { IsAskedWith P.Malloc (count ∷ []) }
    ensures led { IfOk result (λ end. (names : Names) → IsRunning names machine.old → (f : Text) (no_copy : Bool)
        → LeadsTo names machine.new end (asking_of names machine.old f no_copy (names function) (record { asked = R.Builtin R.Malloc; arguments = value_of names count ∷ [] }))) }
    ensures lawful { IfOk result (λ end. IfSome end IsLawfulEnd) }
    ensures well { IfOk result (λ end. StaysWell end machine.new) }
    ensures index { machine.new.index ≡ machine.old.index }
    ensures texts { machine.new.texts ≡ machine.old.texts }
{
    let Value::Int(_, count) = count else {
        unreachable!();
    };
    if count < 0 {
        return Ok(Some(SectionEnd::Faulted(Fault::Length, function)));
    }
    if count > u64::MAX as i128 {
        return Err(NoMemory);
    }
    let block = makes(alloc, machine, count as u64)?;
    Ok(replies(alloc, machine, function, Value::At(block, 0)))
}

// The block that a value points to is freed. It takes no memory.
fn frees(
    alloc: Global,
    machine: &mut Machine<'_>,
    function: Name,
    what: Value,
) -> Option<SectionEnd>
    requires well { IsWell machine.old }
    requires what { IsLawful (seen what) }
    ensures led { (names : Names) → IsRunning names machine.old → (f : Text) (no_copy : Bool)
        → LeadsTo names machine.new result (asking_of names machine.old f no_copy (names function) (record { asked = R.Builtin R.Free; arguments = value_of names what ∷ [] })) }
    ensures lawful { IfSome result IsLawfulEnd }
    ensures well { StaysWell result machine.new }
    ensures index { machine.new.index ≡ machine.old.index }
    ensures texts { machine.new.texts ≡ machine.old.texts }
{
    match machine.free(Class::Heap, what) {
        Ok(()) => replies(alloc, machine, function, Value::Unset),
        Err(fault) => Some(SectionEnd::Faulted(fault, function)),
    }
}

// The only one of these arguments.
fn sole(args: &[Value]) -> Value
    requires { length args.now ≡ 1 }
    ensures { args.now ≡ result ∷ [] }
{
    args[0]
}

/// A request of the code of a section is acted on and answered, and the code goes on; or a fault ends the section. A detached
/// function asks for memory alone: of anything else nothing is said.
///
/// `NoMemory` is want of memory, or of numbers for so many cells; then nothing is said of the machine.
pub(crate) fn asked(
    alloc: Global,
    machine: &mut Machine<'_>,
    request: &Request,
) -> Result<Option<SectionEnd>, NoMemory>
    requires well { IsWell machine.old }
    requires lawful { All (λ v. IsLawful (seen v)) request.now.args.items }
    requires takes { IsCalledWith request.now.call request.now.args.items }
    ensures led { IfOk result (λ end. (names : Names) → IsRunning names machine.old → (f : Text) (no_copy : Bool) → LeadsTo names machine.new end (asking_of names machine.old f no_copy (names request.now.function) (request_of names request.now))) }
    ensures lawful { IfOk result (λ end. IfSome end IsLawfulEnd) }
    ensures well { IfOk result (λ end. StaysWell end machine.new) }
    ensures index { machine.new.index ≡ machine.old.index }
    ensures texts { machine.new.texts ≡ machine.old.texts }
{
    let function = request.function;
    let Call::Builtin(builtin) = request.call else {
        return Ok(Some(SectionEnd::Faulted(Fault::Code, function)));
    };
    match builtin {
        Primitive::Malloc => allocates(alloc, machine, function, sole(&request.args)),
        Primitive::Free => Ok(frees(alloc, machine, function, sole(&request.args))),
        _ => Ok(Some(SectionEnd::Faulted(Fault::Code, function))),
    }
}
