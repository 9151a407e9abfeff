//! The run of a section, from the call of its function to its end.
ghost use Rattle.std.specs.Prelude.{◌≡◌, IfOk, IfSome};
ghost use Rattle.cpc_tree.specs.Erase.{Names};
ghost use Rattle.cpc_eval_index.specs.Indexed.{program_items};
ghost use Rattle.cpc_native.specs.Well.{IsWell};
ghost use Rattle.cpc_sections.specs.Jobs.{EndsAs, IsLawfulJob, IsLawfulEnd};
ghost use Rattle.cpc_native_sections.specs.Ends.{IsEndOf};
ghost use Rattle.cpc_native_sections.specs.Led.{LeadsTo, StaysWell, IsRunning, step_of, run_of};

use crate::asked::asked;
use crate::entered::entered;
use cpc_base::{Name, NoMemory};
use cpc_eval_index::Index;
use cpc_native::{Machine, Stepped};
use cpc_num::Fault;
use cpc_sections::{Job, SectionEnd, ended};
use cpc_tree::program::Program;
use std::alloc::Global;

// A step of a section of this function, or its end.
fn goes(
    alloc: Global,
    machine: &mut Machine<'_>,
    function: Name,
    no_copy: bool,
) -> Result<Option<SectionEnd>, NoMemory>
    requires { IsWell machine.old }
    ensures led { IfOk result (λ end. (names : Names) → IsRunning names machine.old → LeadsTo names machine.new end (step_of names machine.old (names function) no_copy)) }
    ensures lawful { IfOk result (λ end. IfSome end IsLawfulEnd) }
    ensures well { IfOk result (λ end. StaysWell end machine.new) }
    ensures index { machine.new.index ≡ machine.old.index }
    ensures texts { machine.new.texts ≡ machine.old.texts }
{
    match machine.step(alloc)? {
        Stepped::Went => Ok(None),
        Stepped::Returned(value) => {
            let end = ended(alloc, machine.store(), function, no_copy, value)?;
            Ok(Some(end))
        }
        Stepped::Asked(request) => asked(alloc, machine, &request),
        Stepped::Faulted(fault, running) => Ok(Some(SectionEnd::Faulted(fault, running))),
    }
}

// At most so many steps.
fn run(
    alloc: Global,
    machine: &mut Machine<'_>,
    function: Name,
    no_copy: bool,
    bound: u64,
) -> Result<SectionEnd, NoMemory>
    requires { IsWell machine.old }
    ensures end { IfOk result (λ end. (names : Names) → IsRunning names machine.old → EndsAs names end (run_of names machine.old (names function) no_copy bound)) }
    ensures lawful { IfOk result (λ end. IsLawfulEnd end) }
{
    for _step in 0..bound {
        match goes(alloc, machine, function, no_copy)? {
            Some(end) => return Ok(end),
            None => {}
        }
    }
    Ok(SectionEnd::Faulted(Fault::SectionSteps, function))
}

/// What a section comes to: its function is called on a copy of the job's cells, in a store of its own, and makes at most so
/// many steps. Nothing is shared with any other run but the program and its index, which are read alone.
///
/// The end is that of the definition, wherever that tells one.
///
/// `NoMemory` is want of memory, or of numbers for so many cells.
pub fn run_section(
    alloc: Global,
    program: &Program,
    index: Index<'_>,
    job: &Job,
    bound: u64,
) -> Result<SectionEnd, NoMemory>
    requires lawful { IsLawfulJob job.now }
    requires index { program_items index ≡ program.now.items.items }
    ensures { IfOk result (IsEndOf program.now bound job.now) }
{
    let mut machine = entered(alloc, program, index, job)?;
    let no_copy = job.cells.is_empty();
    run(alloc, &mut machine, job.function, no_copy, bound)
}
