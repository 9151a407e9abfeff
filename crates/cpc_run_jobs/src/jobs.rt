//! The sections that were submitted and that no poll has told.
ghost use Rattle.std.specs.Prelude.{◌≡◌, ℕ, List, [], Some, OnErr, IfOk, map, reverse};
ghost use Rattle.std.specs.List.{All};
ghost use Rattle.cpc_tree.specs.Erase.{Names, item_of};
ghost use Rattle.cpc_tree.specs.Syntax as X;
ghost use Rattle.cpc_tree.specs.Typing.{function_named};
ghost use Rattle.cpc_store.specs.Seen.{seen, IsLawful};
ghost use Rattle.cpc_meaning.specs.Agenda as A;
ghost use Rattle.cpc_meaning.specs.Copies as C;
ghost use Rattle.cpc_meaning.specs.Section as M;
ghost use Rattle.cpc_meaning.specs.Trees.{trees};
ghost use Rattle.cpc_eval_values.specs.Shown.{value_of, values_of, store_of};
ghost use Rattle.cpc_run_sections.specs.Runs.{Runs};
ghost use Rattle.cpc_run_globals.specs.Layouts.{AreLayouts};
ghost use Rattle.cpc_sections.specs.Backs.{CollectsAs, collected_of};
ghost use Rattle.cpc_sections.specs.Jobs.{IsLawfulJob, job_of};
ghost use Rattle.cpc_run_jobs.specs.Holding.{items_of, Serves, Holds, IsAssigned, KeepsJobs, SubmitsAs, IfAllGave, are_out, left_out};

use crate::ends::all_told;
use crate::out::Out;
use cpc_base::{Event, Name, NoMemory, Stop};
use cpc_num::Fault;
use cpc_run_globals::Layouts;
use cpc_run_sections::{Sections, copy_of};
use cpc_sections::{Collected, Job};
use cpc_store::{Store, Value};
use cpc_tree::program::Program;
use std::alloc::Global;

// The same job once more. `NoMemory` is want of memory.
fn copied(alloc: Global, job: &Job) -> Result<Job, NoMemory>
    requires { IsLawfulJob job.now }
    ensures lawful { IfOk result IsLawfulJob }
    ensures same { IfOk result (λ copy. (names : Names) → job_of names copy ≡ job_of names job.now) }
{
    let mut args = Vec::new(alloc);
    args.extend_from_slice(job.args.as_slice())?;
    let mut cells = Vec::new(alloc);
    cells.extend_from_slice(job.cells.as_slice())?;
    Ok(Job {
        number: job.number,
        function: job.function,
        args,
        cells,
        pointer: job.pointer,
    })
}

/// The sections of a program that were submitted and that no poll has told.
///
/// Of each a copy is kept here, by its number. Whoever runs it may do so at any time from its submission on: its value does not
/// depend on when.
pub struct Jobs<'p> {
    program: &'p Program,
    layouts: Layouts<'p>,
    bound: u64,
    out: Out,
}

impl Drop for Jobs<'_> {
    fn drop(self) {
        let Jobs {
            program: _,
            layouts: _,
            bound: _,
            out,
        } = self;
        drop(out);
    }
}

impl<'p> Jobs<'p> {
    /// No section of a program was submitted. Each may make so many steps. The layouts are of the program's items.
    pub fn new(alloc: Global, program: &'p Program, layouts: Layouts<'p>, bound: u64) -> Jobs<'p>
        ensures items { (names : Names) → items_of names result ≡ map (item_of names) program.now.items.items }
        ensures serves { (names : Names) → Runs names program.now.names (map (item_of names) program.now.items.items)
            → AreLayouts layouts.entry names (reverse (map (item_of names) program.now.items.items)) → Serves names result }
        ensures program { result.program.now ≡ program.now }
        ensures bound { result.bound ≡ bound }
        ensures holds { (names : Names) → Holds names result [] 0 [] }
    {
        Jobs {
            program,
            layouts,
            bound,
            out: Out::new(alloc),
        }
    }

    /// The section of a number is submitted: a call of a function with a pointer, whose cells are copied, and other arguments. The
    /// number is that of no section that was submitted before.
    ///
    /// After an error no section is out that was not before.
    ///
    /// - `Memory`: want of memory, here or of whoever runs the sections.
    /// - `Fault`: of a cell that could not be copied, as `copy_of` has it.
    pub fn submit<S: Sections>(
        &mut self,
        alloc: Global,
        number: u64,
        function: Name,
        pointer: Value,
        arguments: &[Value],
        store: &Store,
        sections: &mut S,
    ) -> Result<(), Stop<Fault>>
        requires pointer { IsLawful (seen pointer) }
        requires arguments { All (λ v. IsLawful (seen v)) arguments.now }
        ensures submitted { (names : Names) → Serves names self.old → (jobs : List M.Job) (outs : List ℕ) → Holds names self.old jobs number outs
            → (g : X.Function) → function_named (items_of names self.old) (names function) ≡ Some g
            → SubmitsAs names self.new result jobs number outs
            (λ cells. record { number = number; function = names function; arguments = values_of names arguments.now; cells = cells; pointer = value_of names pointer })
            (C.copy_of (items_of names self.old) g (value_of names pointer) (store_of names store.now)) }
        ensures left { OnErr result (self.new ≡ self.old) }
        ensures keeps { KeepsJobs self.old self.new }
    {
        let cells = copy_of(alloc, self.program, &self.layouts, function, pointer, store)?;
        let mut args = Vec::new(alloc);
        args.extend_from_slice(arguments)?;
        let job = Job {
            number,
            function,
            args,
            cells,
            pointer,
        };
        sections.submit(copied(alloc, &job)?)?;
        self.out.put(job)?;
        Ok(())
    }

    /// What the sections come to that these events name, in this order, by whoever runs the sections of this program: the end of each
    /// is waited for, and it is out no more. Their values, once the cells of each went back; or the first fault, of a section, or of
    /// the cells that it gave back. What an event names that is not out is passed over.
    ///
    /// `NoMemory` is want of memory, here or of whoever ran a section.
    pub fn finish<S: Sections>(
        &mut self,
        alloc: Global,
        events: &[Event],
        store: &mut Store,
        sections: &mut S,
    ) -> Result<Collected, NoMemory>
        requires { IsAssigned S.program S.bound self.old }
        ensures collected { IfOk result (λ told. (names : Names) → Serves names self.old → (jobs : List M.Job) (made : ℕ) (outs : List ℕ) → Holds names self.old jobs made outs
            → CollectsAs (collected_of names (store_of names store.new) told) (C.collect (trees (items_of names self.old)) self.old.bound jobs (are_out (A.completed events.now) outs) (store_of names store.old))) }
        ensures holds { IfOk result (λ told. (names : Names) → Serves names self.old → (jobs : List M.Job) (made : ℕ) (outs : List ℕ) → Holds names self.old jobs made outs
            → IfAllGave told (Holds names self.new jobs made (left_out (A.completed events.now) outs))) }
        ensures keeps { KeepsJobs self.old self.new }
    {
        all_told(alloc, &mut self.out, events, store, sections)
    }
}
