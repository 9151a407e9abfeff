//! The machine of a section, whose function is called on the copy.
ghost use Rattle.std.specs.Prelude.{◌≡◌, ℕ, IfOk, map};
ghost use Rattle.cpc_tree.specs.Erase.{Names, item_of};
ghost use Rattle.cpc_tree.specs.Lists.{is_empty};
ghost use Rattle.cpc_meaning.specs.Section.{section_end};
ghost use Rattle.cpc_meaning.specs.Trees.{trees};
ghost use Rattle.cpc_eval_values.specs.Shown.{values_of};
ghost use Rattle.cpc_eval_index.specs.Indexed.{program_items};
ghost use Rattle.cpc_native.specs.Well.{IsWell};
ghost use Rattle.cpc_native.specs.Runs.{Runs};
ghost use Rattle.cpc_sections.specs.Jobs.{EndsAs, job_of, IsLawfulJob};
ghost use Rattle.cpc_sections.specs.declared.job.SectionEnd as E;
ghost use Rattle.cpc_native_sections.specs.Led.{run_of};

use crate::first::{first_arguments, first_store};
use cpc_base::NoMemory;
use cpc_eval_index::Index;
use cpc_native::Machine;
use cpc_sections::Job;
use cpc_tree::program::Program;
use std::alloc::Global;

/// A machine in which the function of a job is called on a copy of its cells, in a store that holds nothing else. What
/// the names of the program stand for is found in its index.
///
/// `NoMemory` is want of memory, or of numbers for so many cells.
pub(crate) fn entered<'p>(
    alloc: Global,
    program: &'p Program,
    index: Index<'p>,
    job: &Job,
) -> Result<Machine<'p>, NoMemory>
    requires lawful { IsLawfulJob job.now }
    requires index { program_items index ≡ program.now.items.items }
    ensures index { IfOk result (λ m. program_items m.index ≡ program.now.items.items) }
    ensures texts { IfOk result (λ m. m.texts.now ≡ program.now.names) }
    ensures well { IfOk result (λ m. IsWell m) }
    ensures entered { IfOk result (λ m. (names : Names) → Runs names program.now.names (map (item_of names) program.now.items.items) → (bound : ℕ) (end : E.SectionEnd)
        → EndsAs names end (run_of names m (names job.now.function) (is_empty (values_of names job.now.cells.items)) bound)
        → EndsAs names end (section_end (trees (map (item_of names) program.now.items.items)) (job_of names job.now) bound)) }
{
    let store = first_store(alloc, &job.cells)?;
    let args = first_arguments(alloc, job)?;
    let mut machine = Machine::new(alloc, index, &program.names, store);
    machine.call(alloc, job.function, &args)?;
    Ok(machine)
}
