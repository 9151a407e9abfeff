//! Where sections are submitted.
ghost use Rattle.std.specs.Prelude.{ℕ, Option};
ghost use Rattle.cpc_tree.specs.declared.program.Program.{Program};
ghost use Rattle.cpc_sections.specs.Jobs.{IsLawfulJob};
ghost use Rattle.cpc_run_sections.specs.Ends.{MayEnd};

use cpc_base::NoMemory;
use cpc_sections::{Job, SectionEnd};

/// Runs the sections of one program, whenever and wherever it likes.
pub trait Sections {
    /// The program whose sections are run.
    ghost program: { Option Program };

    /// How many steps a section may make.
    ghost bound: { ℕ };

    /// Submits a section, which may begin to run at once. `NoMemory` is want of memory: then it was not submitted.
    fn submit(&mut self, job: Job) -> Result<(), NoMemory>
        requires { IsLawfulJob job };

    /// The end of a section that was submitted, and whose end was not asked for yet. It is waited for where it is not known.
    ///
    /// `NoMemory` is want of memory, of whoever ran it too; the end is then lost.
    fn finish(&mut self, job: &Job) -> Result<SectionEnd, NoMemory>
        requires { IsLawfulJob job.now }
        ensures { MayEnd program bound job.now result };
}
