//! What a worker runs: the sections of one program.
ghost use Rattle.std.specs.Prelude.{◌≡◌, Some};
ghost use Rattle.std.specs.Arc.{arc_value};

use crate::same::is_same;
use cpc_base::NoMemory;
use cpc_check::Checked;
use cpc_pool_jobs::Runner;
use cpc_run_sections::{Assigned, run_section};
use cpc_sections::{Job, SectionEnd};
use std::alloc::Global;
use std::marker::{Model, PhantomData};
use std::sync::Arc;

/// Runs the sections of the program that was assigned, each in a store of its own. Contracts see it as how many steps each may make.
pub struct Sectioner<B: Assigned> {
    alloc: Global,
    program: Arc<Checked, Global>,
    bound: u64,
    of: PhantomData<B>,
}

impl<B: Assigned> Model for Sectioner<B> {
    ghost use Rattle.std.specs.Prelude.{◌≡◌, ℕ, Some};
    ghost use Rattle.std.specs.Arc.{arc_value};

    ghost Value = { ℕ };

    ghost view = { λ s. s.bound };

    ghost invariant = { λ s. (B.program ≡ Some (arc_value s.program).program) × (B.bound ≡ s.bound) };
}

// The program is let go of here and not by a derive: a crate that lets go of a runner then does not prove it again.
impl<B: Assigned> Drop for Sectioner<B> {
    fn drop(self) {
        let Sectioner {
            alloc: _,
            program,
            bound: _,
            of: _,
        } = self;
        drop(program);
    }
}

impl<B: Assigned> Sectioner<B> {
    /// For this program; each section may make at most so many steps.
    pub fn new(alloc: Global, program: Arc<Checked, Global>, bound: u64) -> Sectioner<B>
        requires program { B.program ≡ Some (arc_value program).program }
        requires bound { B.bound ≡ bound }
        ensures { result ≡ bound }
    {
        Sectioner {
            alloc,
            program,
            bound,
            of: PhantomData,
        }
    }
}

impl<B: Assigned> Runner for Sectioner<B> {
    ghost use Rattle.cpc_sections.specs.Jobs.{IsLawfulJob};
    ghost use Rattle.cpc_pool_sections.specs.Same.{IsSameJob};
    ghost use Rattle.cpc_run_sections.specs.Ends.{MayEnd};

    type Job = Job;

    type End = Result<SectionEnd, NoMemory>;

    ghost number = { λ j. j.number };

    ghost same = { IsSameJob };

    ghost meets = { IsLawfulJob };

    ghost ends = { MayEnd B.program B.bound };

    fn number_of(job: &Job) -> u64 {
        job.number
    }

    fn is_same(first: &Job, second: &Job) -> bool {
        is_same(first, second)
    }

    fn run(&self, job: &Job) -> Result<SectionEnd, NoMemory> {
        let program = &*self.program;
        run_section(
            self.alloc,
            &program.program,
            program.index(),
            job,
            self.bound,
        )
    }
}
