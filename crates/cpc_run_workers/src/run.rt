//! A run whose sections are run by workers: the pool is started for it, and stopped behind it.
ghost use Rattle.std.specs.Prelude.{◌≡◌, ◌<◌, ◌≤◌, ◌^◌, Option, Some, None, map, true};
ghost use Rattle.std.specs.Arc.{arc_value};
ghost use Rattle.cpc_base.specs.Bytes.{Text};
ghost use Rattle.cpc_base.specs.Outside.{Rose};
ghost use Rattle.cpc_base.specs.declared.stop.Dialect.TheVariants.{Event};
ghost use Rattle.cpc_tree.specs.Erase.{in_table, program_of};
ghost use Rattle.cpc_meaning.specs.History.{polls_fit};
ghost use Rattle.cpc_history_marks.specs.Views.{told_of};
ghost use Rattle.cpc_run.specs.Hosts.{missing_of};
ghost use Rattle.cpc_run.specs.Reports.{IsMissing, Ran, Wrote, history_of};
ghost use Rattle.cpc_run_shown.specs.declared.outcome.Ended.TheVariants.{WriteFault as IsWriteFault};

use cpc_base::{NoMemory, Sink};
use cpc_check::Checked;
use cpc_history_marks::Told;
use cpc_hosts::{HostRule, HostTable, Kept};
use cpc_pool::Gate;
use cpc_pool_sections::{Assigned, Workers, start};
use cpc_run::{Ended, Limits, RunReport, missing_host, run_event};
use std::alloc::Global;
use std::marker::Brand;
use std::sync::{Arc, Wait};
use std::thread::Threads;

// The report of a run of which no state was made.
fn not_begun(ended: Ended) -> RunReport
    ensures { result ≡ record { ended = ended; steps = 0; cells = 0; polls = 0 } }
{
    RunReport {
        ended,
        steps: 0,
        cells: 0,
        polls: 0,
    }
}

// The run, with a pool for the program that B names.
fn run_over<B, O, R, G, T>(
    rt: T,
    alloc: Global,
    program: &Arc<Checked, Global>,
    polls: &[Told],
    hosts: &HostTable<R>,
    limits: Limits,
    workers: u32,
    gate: &Arc<G, Global>,
    trace: bool,
    out: &mut O,
) -> RunReport
where
    B: Assigned + Send + Sync + 'static,
    O: Sink,
    R: HostRule,
    G: Gate + Send + Sync + 'static,
    T: Threads + Wait + Copy + Send + 'static,
    requires assigned { B.program ≡ Some (arc_value program.now).program }
    requires bound { B.bound ≡ limits.section_steps }
    requires few { workers ≤ 64 }
    requires dialect { (arc_value program.now).dialect ≡ Event }
    requires cap { limits.cells < 2 ^ 62 }
    requires polls { polls_fit (map told_of polls.now) ≡ true }
    requires rule { ⟦<HostTable<R> as Kept>⟧.keeps hosts.now }
    requires present { missing_of (⟦<HostTable<R> as Kept>⟧.names hosts.now) (program_of (arc_value program.now).program) ≡ None }
    ensures told { Wrote (O.taken out.old) (O.taken out.new) (Ran R.answers (in_table (arc_value program.now).program.names) (program_of (arc_value program.now).program) (history_of polls.now limits.section_steps) limits trace result) }
    ensures cause { result.ended ≡ IsWriteFault → Rose (O.faults out.old) (O.faults out.new) }
    ensures later { O.faults out.old ≤ O.faults out.new }
{
    let Ok(gate) = Arc::try_clone(gate) else {
        return not_begun(Ended::Memory);
    };
    let Ok(shared) = Arc::try_clone(program) else {
        return not_begun(Ended::Memory);
    };
    match start::<B, G, T>(rt, alloc, shared, limits.section_steps, workers, gate) {
        Ok(mut pool) => {
            let report = run_event::<O, R, Workers<B, G, T>>(
                alloc, program, polls, hosts, limits, &mut pool, trace, out,
            );
            pool.stop();
            report
        }
        Err(NoMemory) => not_begun(Ended::Memory),
    }
}

/// Runs an event program as `run_event` does, with so many workers for its sections. What comes of the run does not depend on their number, nor on
/// when a section runs.
///
/// What the workers do is how the code does it, and no clause: sections run beside the loop, each in a store of its own; where threads
/// cannot be made, or memory for one is wanting, there are fewer workers, and where there is none a section runs as it is submitted; the gate is called
/// around each section that a worker runs, with the section's number; and all workers have ended when the call returns.
///
/// `Ended::Memory` is also want of memory before the run begins; then the report has zeros, and nothing is written.
pub fn run_with_workers<O: Sink, R: HostRule, G, T>(
    rt: T,
    alloc: Global,
    program: &Arc<Checked, Global>,
    polls: &[Told],
    hosts: &HostTable<R>,
    limits: Limits,
    workers: u32,
    gate: &Arc<G, Global>,
    trace: bool,
    out: &mut O,
) -> RunReport
where
    G: Gate + Send + Sync + 'static,
    T: Threads + Wait + Copy + Send + 'static,
    requires few { workers ≤ 64 }
    requires dialect { (arc_value program.now).dialect ≡ Event }
    requires cap { limits.cells < 2 ^ 62 }
    requires polls { polls_fit (map told_of polls.now) ≡ true }
    requires rule { ⟦<HostTable<R> as Kept>⟧.keeps hosts.now }
    ensures missing { (x : Text) → missing_of (⟦<HostTable<R> as Kept>⟧.names hosts.now) (program_of (arc_value program.now).program) ≡ Some x → IsMissing (in_table (arc_value program.now).program.names) x result × (O.taken out.new ≡ O.taken out.old) }
    ensures told { missing_of (⟦<HostTable<R> as Kept>⟧.names hosts.now) (program_of (arc_value program.now).program) ≡ None → Wrote (O.taken out.old) (O.taken out.new) (Ran R.answers (in_table (arc_value program.now).program.names) (program_of (arc_value program.now).program) (history_of polls.now limits.section_steps) limits trace result) }
    ensures cause { result.ended ≡ IsWriteFault → Rose (O.faults out.old) (O.faults out.new) }
    ensures later { O.faults out.old ≤ O.faults out.new }
{
    if let Some(name) = missing_host(&program.program, hosts) {
        return not_begun(Ended::NoHost(name));
    }
    run_over::<Brand, O, R, G, T>(
        rt, alloc, program, polls, hosts, limits, workers, gate, trace, out,
    )
}
