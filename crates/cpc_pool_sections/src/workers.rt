//! The workers of a loop.
ghost use Rattle.std.specs.Prelude.{◌≡◌, ◌≤◌, Some};
ghost use Rattle.std.specs.Arc.{arc_value};

use crate::runner::Sectioner;
use cpc_base::NoMemory;
use cpc_check::Checked;
use cpc_pool::{Gate, Hands, Pool};
use cpc_run_sections::{Assigned, Sections};
use cpc_sections::{Job, SectionEnd};
use std::alloc::Global;
use std::sync::{Arc, Wait};
use std::thread::Threads;

/// Workers that run the sections of one program. They are let go of by `stop` alone.
///
/// A section whose number is not above those of all that were submitted before it, and each where there is no worker, is run as it is submitted
/// (no clause says so).
pub struct Workers<B: Assigned, G: Gate, T: Wait> {
    hands: Hands<Sectioner<B>, G, T>,
}

/// Up to so many workers for the sections of the program, of which each may make at most so many steps. There are fewer where threads
/// cannot be made, or memory for one is wanting. The gate is called around each section that a worker runs, with the section's number.
/// (No clause says so.)
///
/// `NoMemory` is want of memory.
pub fn start<B, G, T>(
    rt: T,
    alloc: Global,
    program: Arc<Checked, Global>,
    bound: u64,
    workers: u32,
    gate: Arc<G, Global>,
) -> Result<Workers<B, G, T>, NoMemory>
where
    B: Assigned + Send + Sync + 'static,
    G: Gate + Send + Sync + 'static,
    T: Threads + Wait + Copy + Send + 'static,
    requires program { B.program ≡ Some (arc_value program).program }
    requires bound { B.bound ≡ bound }
    requires few { workers ≤ 64 }
{
    let runner = Arc::new(alloc, Sectioner::<B>::new(alloc, program, bound))?;
    let (pool, jobs, dones) = Pool::start(&rt, alloc, runner, workers, gate)?;
    let hands = Hands::over(rt, alloc, pool, jobs, dones);
    Ok(Workers { hands })
}

impl<B: Assigned, G: Gate, T: Threads + Wait + Drop> Workers<B, G, T> {
    /// Tells each worker to stop, and waits until all have ended. A section that no worker has begun is not run. (No clause says so.)
    pub fn stop(self) {
        let Workers { hands } = self;
        hands.stop();
    }
}

impl<B: Assigned, G: Gate, T: Wait> Sections for Workers<B, G, T> {
    ghost program = { B.program };

    ghost bound = { B.bound };

    fn submit(&mut self, job: Job) -> Result<(), NoMemory> {
        match self.hands.submit(job) {
            Ok(()) => Ok(()),
            Err(_) => Err(NoMemory),
        }
    }

    fn finish(&mut self, job: &Job) -> Result<SectionEnd, NoMemory> {
        match self.hands.finish(job) {
            Ok(end) => end,
            Err(_) => Err(NoMemory),
        }
    }
}
