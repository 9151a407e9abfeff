//! A run from its first state to its end, or to one of its bounds.
ghost use Rattle.std.specs.Prelude.{◌≡◌, ◌++◌, ◌-◌, ◌<◌, ◌≤◌, ◌^◌, ◌⊎◌, List, ℤ, [], IfOk, OnOk, OnErr, Option, Some, None, length, map, true};
ghost use Rattle.std.specs.Io.KnownBytes.{append_known};
ghost use Rattle.cpc_base.specs.Bytes.{Text};
ghost use Rattle.cpc_base.specs.Outside.{Rose};
ghost use Rattle.cpc_base.specs.declared.stop.Dialect.TheVariants.{Event};
ghost use Rattle.cpc_tree.specs.Erase.{Names as Spelling, in_table, program_of};
ghost use Rattle.cpc_check_rules.specs.Apart.{Spells};
ghost use Rattle.cpc_eval_index.specs.Indexed.{program_items};
ghost use Rattle.cpc_meaning.specs.History.{History, polls_fit};
ghost use Rattle.cpc_history_marks.specs.Views.{told_of};
ghost use Rattle.cpc_meaning.specs.Runs.{live_cells};
ghost use Rattle.cpc_tree.specs.Syntax.{Program as Bare};
ghost use Rattle.cpc_run_jobs.specs.Holding.{IsAssigned};
ghost use Rattle.cpc_run.specs.Hosts.{HasHosts, missing_of, with_answers};
ghost use Rattle.cpc_run.specs.States.{IsSteady};
ghost use Rattle.cpc_run.specs.Reports.{Wrote, IsCutShort, Tells, Ran, IsMissing, Drained, EndsSo, Begins, BeginsTwice, NeverStuck, history_of, run_of};
ghost use Rattle.cpc_run_shown.specs.Known.{IsInTable};
ghost use Rattle.cpc_run_code.specs.Code.{Given, GivenTwice};
ghost use Rattle.cpc_run_shown.specs.declared.outcome.Ended.TheVariants.{WriteFault as IsWriteFault};
ghost use Rattle.cpc_run_shown.specs.declared.outcome.Limits.{Limits as Bounds};

use crate::hosts::missing_host;
use crate::looped::Loop;
use crate::made::Made;
use cpc_base::{Failed, Names, NoMemory, Sink, write_all};
use cpc_check::Checked;
use cpc_check_laws::accepted_callbacks_never_stuck;
use cpc_check_served_laws::{accepted_are_served, accepted_ask_declared};
use cpc_eval_index::Index;
use cpc_history_marks::Told;
use cpc_hosts::{HostRule, HostTable, Kept};
use cpc_run_code::{checked_has_numbers, is_spelled_twice};
use cpc_run_globals::global_cells;
use cpc_run_jobs::Sections;
use cpc_run_shown::{Ended, Limits, Outcome, RunReport, put_last};
use cpc_tree::program::Program;
use std::alloc::Global;

// Memory was wanting before the first state.
const STARVED: RunReport = RunReport {
    ended: Ended::Memory,
    steps: 0,
    cells: 0,
    polls: 0,
};

// Writes what waits, where it is as much as `least` or more.
fn drain<O: Sink>(out: &mut O, pending: &mut Vec<u8>, least: usize) -> Result<(), Failed>
    ensures all { OnOk result ((told : Option Text) (sent : Text) → O.taken out.old ≡ append_known told sent → Drained told (O.taken out.new) sent pending.old.items pending.new.items) }
    ensures emptied { least ≡ 0 → OnOk result (pending.new.items ≡ []) }
    ensures few { OnOk result ((pending.new.items ≡ []) ⊎ (length pending.new.items < least)) }
    ensures part { OnErr result ((told : Option Text) (sent : Text) → O.taken out.old ≡ append_known told sent → Wrote told (O.taken out.new) (λ o. IsCutShort o (sent ++ pending.old.items))) }
    ensures cause { OnErr result (Rose (O.faults out.old) (O.faults out.new)) }
    ensures later { O.faults out.old ≤ O.faults out.new }
{
    if pending.len() < least {
        return Ok(());
    }
    match write_all(out, pending.as_slice()) {
        Ok(()) => {
            pending.clear();
            Ok(())
        }
        Err(Failed) => Err(Failed),
    }
}

// The report of a run that was left so.
fn report(ended: Ended, steps: u64, cells: u64, polls: u64) -> RunReport
    ensures { result ≡ record { ended = ended; steps = steps; cells = cells; polls = polls } }
{
    RunReport {
        ended,
        steps,
        cells,
        polls,
    }
}

// The report that is due, once all that waits is written, with the last line of a trace where one is wanted; or that the sink
// failed, or that memory was wanting.
fn told<O: Sink>(
    alloc: Global,
    table: &Names,
    trace: bool,
    out: &mut O,
    pending: &mut Vec<u8>,
    due: RunReport,
) -> RunReport
    requires { IsInTable table.now due.ended }
    ensures same { result ≡ record due { ended = result.ended } }
    ensures told { (told : Option Text) (sent : Text) → O.taken out.old ≡ append_known told sent → Wrote told (O.taken out.new) (λ o. EndsSo table.now trace due.ended result.ended o (sent ++ pending.old.items)) }
    ensures cause { result.ended ≡ IsWriteFault → ¬ (due.ended ≡ IsWriteFault) → Rose (O.faults out.old) (O.faults out.new) }
    ensures later { O.faults out.old ≤ O.faults out.new }
{
    match put_last(trace, alloc, table, due.ended, pending) {
        Ok(()) => {}
        Err(NoMemory) => {
            return RunReport {
                ended: Ended::Memory,
                ..due
            };
        }
    }
    match drain(out, pending, 0) {
        Ok(()) => due,
        Err(Failed) => RunReport {
            ended: Ended::WriteFault,
            ..due
        },
    }
}

// Steps of a run, from its first state, which has so many live cells. All that was put out is written before a step that may
// take a poll.
fn run_on<O: Sink, R: HostRule, S: Sections>(
    alloc: Global,
    run: &mut Loop<'_>,
    table: &Names,
    hosts: &HostTable<R>,
    limits: Limits,
    first: u64,
    sections: &mut S,
    out: &mut O,
) -> RunReport
    requires steady { IsSteady run.old }
    requires begins { BeginsTwice table.now (⟦<HostTable<R> as Kept>⟧.names hosts.now) run.old first }
    requires assigned { IsAssigned S.program S.bound run.old.jobs }
    requires rule { ⟦<HostTable<R> as Kept>⟧.keeps hosts.now }
    requires cap { limits.cells < 2 ^ 62 }
    requires within { first ≤ limits.cells }
    ensures told { (names : Spelling) (q : Bare) (h : History) → Spells table.now names → ((answers : List ℤ) → Begins names q (with_answers h answers) run.old first) → Wrote (O.taken out.old) (O.taken out.new) (Ran R.answers (in_table table.now) q h limits run.old.trace result) }
    ensures cause { result.ended ≡ IsWriteFault → Rose (O.faults out.old) (O.faults out.new) }
    ensures later { O.faults out.old ≤ O.faults out.new }
{
    let trace = run.trace;
    let mut pending = Vec::new(alloc);
    let mut steps = 0;
    let mut cells = first;
    let mut polls = run.taken();
    'steps: while steps < limits.steps {
        let left = match run.make(alloc, table, hosts, sections, &mut pending, limits.cells) {
            Ok(Made::On(left)) => left,
            Ok(Made::Over(outcome)) => {
                let due = report(Ended::Over(outcome), steps + 1, cells, polls);
                return told(alloc, table, trace, out, &mut pending, due);
            }
            Ok(Made::Broke(fault, function)) => {
                let over = Ended::Over(Outcome::Failed(fault, function));
                let due = report(over, steps + 1, cells, polls + 1);
                return told(alloc, table, trace, out, &mut pending, due);
            }
            Ok(Made::Full(left)) => {
                let due = report(Ended::Full(left), steps, cells, polls);
                return told(alloc, table, trace, out, &mut pending, due);
            }
            Err(NoMemory) => return report(Ended::Memory, steps, cells, polls),
        };
        steps += 1;
        cells = left;
        polls = run.taken();
        match drain(out, &mut pending, run.most_held()) {
            Ok(()) => {}
            Err(Failed) => return report(Ended::WriteFault, steps, cells, polls),
        }
    }
    let due = report(Ended::Steps, steps, cells, polls);
    told(alloc, table, trace, out, &mut pending, due)
}

// The live cells of the first state, counted before a cell is made. `NoMemory` is want of numbers for so many.
fn first_cells(program: &Program, index: &Index<'_>) -> Result<u64, NoMemory>
    requires { program_items index.now ≡ program.now.items.items }
    ensures { IfOk result (λ n. (names : Spelling) → Given names program.now → (h : History) → n ≡ live_cells (run_of (program_of program.now) h 0)) }
{
    let first = global_cells(program, index);
    if first == u64::MAX {
        return Err(NoMemory);
    }
    Ok(first)
}

// Runs a program that is never stuck from its first state, which has so many live cells, by whatever texts tell its names.
// What these stand for is found in the index.
fn run_from<'p, O: Sink, R: HostRule, S: Sections>(
    alloc: Global,
    program: &'p Program,
    index: Index<'p>,
    limits: Limits,
    first: u64,
    polls: &'p [Told],
    hosts: &HostTable<R>,
    sections: &mut S,
    trace: bool,
    out: &mut O,
) -> RunReport
    requires given { GivenTwice program.now }
    requires index { program_items index ≡ program.now.items.items }
    requires program { S.program ≡ Some program.now }
    requires bound { S.bound ≡ limits.section_steps }
    requires never_stuck { (h : History) → NeverStuck (program_of program.now) h }
    requires hosts { HasHosts (⟦<HostTable<R> as Kept>⟧.names hosts.now) (program_of program.now) }
    requires rule { ⟦<HostTable<R> as Kept>⟧.keeps hosts.now }
    requires cap { limits.cells < 2 ^ 62 }
    requires first { first ≡ live_cells (run_of (program_of program.now) (history_of polls.now limits.section_steps) 0) }
    requires within { first ≤ limits.cells }
    requires polls { polls_fit (map told_of polls.now) ≡ true }
    ensures told { Wrote (O.taken out.old) (O.taken out.new) (Ran R.answers (in_table program.now.names) (program_of program.now) (history_of polls.now limits.section_steps) limits trace result) }
    ensures cause { result.ended ≡ IsWriteFault → Rose (O.faults out.old) (O.faults out.new) }
    ensures later { O.faults out.old ≤ O.faults out.new }
{
    let mut run = match Loop::open(alloc, program, index, polls, limits.section_steps, trace) {
        Ok(run) => run,
        Err(NoMemory) => return STARVED,
    };
    run_on(
        alloc,
        &mut run,
        &program.names,
        hosts,
        limits,
        first,
        sections,
        out,
    )
}

// The report of a run whose first state has too many live cells: it is left there.
fn left_at_first<O: Sink>(
    alloc: Global,
    program: &Program,
    first: u64,
    trace: bool,
    out: &mut O,
) -> RunReport
    ensures told { (h : History) (limits : Bounds) → first ≡ live_cells (run_of (program_of program.now) h 0) → limits.cells < first → Wrote (O.taken out.old) (O.taken out.new) (Tells (in_table program.now.names) (program_of program.now) h limits trace result) }
    ensures steps { result.steps ≡ 0 }
    ensures cause { result.ended ≡ IsWriteFault → Rose (O.faults out.old) (O.faults out.new) }
    ensures later { O.faults out.old ≤ O.faults out.new }
{
    let mut pending = Vec::new(alloc);
    let due = report(Ended::Full(first), 0, first, 0);
    told(alloc, &program.names, trace, out, &mut pending, due)
}

// Runs a program that is never stuck, by whatever texts tell its names. What these stand for is found in its index.
fn run_program<O: Sink, R: HostRule, S: Sections>(
    alloc: Global,
    program: &Program,
    index: Index<'_>,
    limits: Limits,
    polls: &[Told],
    hosts: &HostTable<R>,
    sections: &mut S,
    trace: bool,
    out: &mut O,
) -> RunReport
    requires given { GivenTwice program.now }
    requires index { program_items index ≡ program.now.items.items }
    requires program { S.program ≡ Some program.now }
    requires bound { S.bound ≡ limits.section_steps }
    requires never_stuck { (h : History) → NeverStuck (program_of program.now) h }
    requires hosts { HasHosts (⟦<HostTable<R> as Kept>⟧.names hosts.now) (program_of program.now) }
    requires rule { ⟦<HostTable<R> as Kept>⟧.keeps hosts.now }
    requires cap { limits.cells < 2 ^ 62 }
    requires polls { polls_fit (map told_of polls.now) ≡ true }
    ensures told { Wrote (O.taken out.old) (O.taken out.new) (Ran R.answers (in_table program.now.names) (program_of program.now) (history_of polls.now limits.section_steps) limits trace result) }
    ensures cause { result.ended ≡ IsWriteFault → Rose (O.faults out.old) (O.faults out.new) }
    ensures later { O.faults out.old ≤ O.faults out.new }
{
    let first = match first_cells(program, &index) {
        Ok(first) => first,
        Err(NoMemory) => return STARVED,
    };
    if first > limits.cells {
        return left_at_first(alloc, program, first, trace, out);
    }
    run_from(
        alloc, program, index, limits, first, polls, hosts, sections, trace, out,
    )
}

/// Runs an event program over a history of polls within the limits of a history, with the functions of a table of hosts, and
/// writes what it puts out; with a trace it writes the lines of the trace in place of
/// that, and the last line. The bound on steps is looked at before each step, and so is the cap, at what the step would leave:
/// one that would leave more live cells is not made, and nothing of it goes out. The cells of the first state are counted
/// before it is made, and looked at before the bound on steps is.
///
/// The answers that the run takes in are those that the table's functions gave, in order, and each is allowed by the rule of
/// the table. Where a function of the host is declared that the table has not, with its arity, no run is begun: the report is
/// `Ended::NoHost` with the first of these by declaration, and zeros, and nothing is written.
///
/// `Ended::WriteFault` is a failure of the sink, `Ended::Memory` want of memory; then what went out is the first part of
/// what the run put out. A poll that is refused is not taken. A step that would leave more cells than the cap is told in place of
/// being made; that it is told before anything of it is made, and so takes no memory, is how the code does it, and no clause.
///
/// A section comes to what its function does on its own copy of the cells, with at most `limits.section_steps` steps, which are none
/// of the run's. The code has it run by `sections`, beside the loop, or at any time from the step that submits it to the poll that
/// tells it, where it is waited for; no clause says by whom or when, and what it comes to does not depend on that. A fault of one
/// ends the run in its function at that poll, which counts as taken and shows in a trace, and no cell goes back. `NoMemory` of one
/// ends the run there too, with `Ended::Memory`.
pub fn run_event<O: Sink, R: HostRule, S: Sections>(
    alloc: Global,
    program: &Checked,
    polls: &[Told],
    hosts: &HostTable<R>,
    limits: Limits,
    sections: &mut S,
    trace: bool,
    out: &mut O,
) -> RunReport
    requires dialect { program.now.dialect ≡ Event }
    requires cap { limits.cells < 2 ^ 62 }
    requires program { S.program ≡ Some program.now.program }
    requires bound { S.bound ≡ limits.section_steps }
    requires polls { polls_fit (map told_of polls.now) ≡ true }
    requires rule { ⟦<HostTable<R> as Kept>⟧.keeps hosts.now }
    ensures missing { (x : Text) → missing_of (⟦<HostTable<R> as Kept>⟧.names hosts.now) (program_of program.now.program) ≡ Some x → IsMissing (in_table program.now.program.names) x result × (O.taken out.new ≡ O.taken out.old) }
    ensures told { missing_of (⟦<HostTable<R> as Kept>⟧.names hosts.now) (program_of program.now.program) ≡ None → Wrote (O.taken out.old) (O.taken out.new) (Ran R.answers (in_table program.now.program.names) (program_of program.now.program) (history_of polls.now limits.section_steps) limits trace result) }
    ensures cause { result.ended ≡ IsWriteFault → Rose (O.faults out.old) (O.faults out.new) }
    ensures later { O.faults out.old ≤ O.faults out.new }
{
    if let Some(name) = missing_host(&program.program, hosts) {
        return report(Ended::NoHost(name), 0, 0, 0);
    }
    is_spelled_twice(program);
    checked_has_numbers(program);
    accepted_callbacks_never_stuck();
    accepted_are_served();
    accepted_ask_declared();
    run_program(
        alloc,
        &program.program,
        program.index(),
        limits,
        polls,
        hosts,
        sections,
        trace,
        out,
    )
}
