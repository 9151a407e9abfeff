//! A run of an event program, by the history that the words name, with the functions of a host.
ghost use Rattle.std.specs.Arc.{arc_value};
ghost use Rattle.std.specs.Prelude.{◌≡◌, ◌≤◌, ◌<◌, ◌+◌, ◌^◌, IfOk, IsErrOf, MatchResult, Option, None, Some, [], map, option_map, false, true};
ghost use Rattle.cpc_base.specs.Bytes.{Text};
ghost use Rattle.cpc_base.specs.Outside.{AskedTo, Rose};
ghost use Rattle.cpc_base.specs.declared.stop.Dialect.TheVariants as D;
ghost use Rattle.cpc_tree.specs.Erase.{in_table, program_of};
ghost use Rattle.cpc_meaning.specs.History.{polls_fit};
ghost use Rattle.cpc_history_marks.specs.Views.{told_of};
ghost use Rattle.cpc_run_shown.specs.Outcomes.{outcome_of as run_outcome_of};
ghost use Rattle.cpc_run_workers.specs.Hosts.{missing_of};
ghost use Rattle.cpc_run_workers.specs.Reports.{IsCutShort, Wrote};
ghost use Rattle.cpc_cli_command.specs.Commands.{asked_options};
ghost use Rattle.cpc_cli_command.specs.Number.{most_cells, most_workers};
ghost use Rattle.cpc_cli.specs.declared.answer.End.{End};
ghost use Rattle.cpc_cli.specs.Asked.{AsksUpTo, file_end, history_end, is_early};
ghost use Rattle.cpc_cli.specs.Command.{history_limit, host_of, length_line};
ghost use Rattle.cpc_cli.specs.Counted.{IsCounted};
ghost use Rattle.cpc_cli.specs.Ran.{ClosedBy, HasHosts, Lacks, NoSteps, NotTold, RanAnswered, RanTold, TellsPolls, heading, outcome_in};

use crate::answer::{End, Outcome, Report, Role};
use crate::reading::HISTORY_LIMIT;
use cpc_base::{Failed, Name, Names, NoMemory, ReadFault, Shelf, Sink, Stop, read_file, write_all};
use cpc_check::Checked;
use cpc_cli_command::Options;
use cpc_history::read_history;
use cpc_history_marks::Told;
use cpc_hosts::{HostRule, HostTable, Kept};
use cpc_pool::Gate;
use cpc_run_workers::{
    Ended, Limits, Outcome as RunOutcome, before_underscores, missing_host, run_with_workers,
};
use cpc_tree::names::text_of;
use std::alloc::Global;
use std::sync::{Arc, Wait};
use std::thread::Threads;

// Reads the polls of a history's file.
fn read_polls<F: Shelf>(alloc: Global, name: &str, shelf: &mut F) -> Result<Vec<Told>, End>
    ensures told { IfOk result (λ polls. TellsPolls (F.files shelf.old) (Some name.now) (map told_of polls.items)) }
    ensures fits { IfOk result (λ polls. polls_fit (map told_of polls.items) ≡ true) }
    ensures refused { (end : End) → IsErrOf result end → NotTold (F.files shelf.old) (Some name.now)
        (λ file. Rose (F.faults shelf.old file) (F.faults shelf.new file)) end }
    ensures stays { F.files shelf.new ≡ F.files shelf.old }
    ensures asked { AskedTo (F.asked shelf.old) (F.asked shelf.new) name.now (history_limit + 1) }
{
    let text = match read_file(alloc, shelf, name, HISTORY_LIMIT) {
        Ok(text) => text,
        Err(Stop::Memory) => return Err(End::Memory),
        Err(Stop::Fault(ReadFault::Unread)) => return Err(End::Unread(Role::History)),
        Err(Stop::Fault(ReadFault::TooLong)) => return Err(End::TooLong(Role::History)),
    };
    match read_history(alloc, text.as_slice()) {
        Ok(polls) => Ok(polls),
        Err(Stop::Memory) => Err(End::Memory),
        Err(Stop::Fault(fault)) => Err(End::BadLine(fault)),
    }
}

// The polls of a run: those of the history's file where one is named, and none else.
fn polls_of<F: Shelf>(alloc: Global, history: Option<&str>, shelf: &mut F) -> Result<Vec<Told>, End>
    ensures told { IfOk result (λ polls. TellsPolls (F.files shelf.old) (option_map (λ name. name.now) history.entry) (map told_of polls.items)) }
    ensures fits { IfOk result (λ polls. polls_fit (map told_of polls.items) ≡ true) }
    ensures refused { (end : End) → IsErrOf result end → NotTold (F.files shelf.old) (option_map (λ name. name.now) history.entry)
        (λ file. Rose (F.faults shelf.old file) (F.faults shelf.new file)) end }
    ensures stays { F.files shelf.new ≡ F.files shelf.old }
    ensures asked { AsksUpTo (F.asked shelf.old) (F.asked shelf.new) (file_end (option_map (λ name. name.now) history.entry) history_limit) }
{
    match history {
        Some(name) => read_polls(alloc, name, shelf),
        None => Ok(Vec::new(alloc)),
    }
}

// Writes what goes before the text of a run: the printed text and a line, where the text is wanted.
fn write_heading<O: Sink>(text: bool, printed: &[u8], out: &mut O) -> Result<(), Failed>
    ensures wrote { Wrote (O.taken out.old) (O.taken out.new) (λ o. MatchResult result (λ _. o ≡ heading text printed.now) (λ _. IsCutShort o (heading text printed.now))) }
    ensures cause { (fault : _) → IsErrOf result fault → Rose (O.faults out.old) (O.faults out.new) }
    ensures later { O.faults out.old ≤ O.faults out.new }
{
    if !text {
        return Ok(());
    }
    match write_all(out, printed) {
        Ok(()) => match write_all(out, b"/* run */\n") {
            Ok(()) => Ok(()),
            Err(fault) => Err(fault),
        },
        Err(fault) => Err(fault),
    }
}

// How a run that took so many polls is over, with the name of the function that has the fault.
fn over(alloc: Global, outcome: RunOutcome, polls: u64, names: &Names) -> Result<Outcome, NoMemory>
    requires { polls < 2 ^ 63 }
    ensures is { IfOk result (λ o. outcome_in o ≡ Some (run_outcome_of (in_table names.now) outcome)) }
    ensures counted { IfOk result (λ o. IsCounted polls o) }
{
    match outcome {
        RunOutcome::Ended(waiting) => Ok(Outcome::Ended(waiting)),
        RunOutcome::Exited(number) => Ok(Outcome::Exited(number)),
        RunOutcome::Failed(fault, function) => {
            let shown = before_underscores(text_of(names, function));
            Ok(Outcome::Failed(fault, shown.to_vec(alloc)?))
        }
        RunOutcome::HistoryEnded => Ok(Outcome::HistoryEnded(polls)),
        RunOutcome::BadHistory(section) => Ok(Outcome::BadHistory(polls + 1, section)),
    }
}

// Runs an event program that is told these polls, with nothing before its text.
fn run_bare<O: Sink, R: HostRule, G, T>(
    rt: T,
    alloc: Global,
    program: &Arc<Checked, Global>,
    polls: &[Told],
    hosts: &HostTable<R>,
    options: Options<'_>,
    gate: &Arc<G, Global>,
    out: &mut O,
    report: &mut Report,
) -> End
where
    G: Gate + Send + Sync + 'static,
    T: Threads + Wait + Copy + Send + 'static,
    requires dialect { (arc_value program.now).dialect ≡ D.Event }
    requires some { 1 ≤ options.steps }
    requires room { options.cells ≤ most_cells }
    requires few { options.workers ≤ most_workers }
    requires polls { polls_fit (map told_of polls.now) ≡ true }
    requires rule { ⟦<HostTable<R> as Kept>⟧.keeps hosts.now }
    requires hosts { HasHosts (⟦<HostTable<R> as Kept>⟧.names hosts.now) (program_of (arc_value program.now).program) }
    ensures ended { Wrote (O.taken out.old) (O.taken out.new) (λ o. RanAnswered (host_of (⟦<HostTable<R> as Kept>⟧.names hosts.now) R.answers)
        (program_of (arc_value program.now).program) (map told_of polls.now) (asked_options options.entry) false report.new (Rose (O.faults out.old) (O.faults out.new)) o result) }
    ensures kept { report.new.printed ≡ report.old.printed }
    ensures later { O.faults out.old ≤ O.faults out.new }
{
    let _most = polls.len();
    let limits = Limits {
        steps: options.steps,
        cells: options.cells,
        section_steps: options.section_steps,
    };
    let ran = run_with_workers(
        rt,
        alloc,
        program,
        polls,
        hosts,
        limits,
        options.workers,
        gate,
        options.trace,
        out,
    );
    report.steps = ran.steps;
    report.cells = ran.cells;
    match ran.ended {
        Ended::Over(outcome) => match over(alloc, outcome, ran.polls, &program.program.names) {
            Ok(outcome) => End::Done(outcome),
            Err(NoMemory) => End::Memory,
        },
        Ended::Steps => End::Done(Outcome::Stopped(ran.steps)),
        Ended::Full(asked) => End::Done(Outcome::Full(options.cells, asked)),
        Ended::WriteFault => End::Unwritten,
        Ended::Memory => End::Memory,
        Ended::NoHost(_) => unreachable!(),
    }
}

// Runs an event program that is told these polls, and writes what goes before its text.
fn run_back<O: Sink, R: HostRule, G, T>(
    rt: T,
    alloc: Global,
    program: &Arc<Checked, Global>,
    polls: &[Told],
    hosts: &HostTable<R>,
    options: Options<'_>,
    text: bool,
    gate: &Arc<G, Global>,
    out: &mut O,
    report: &mut Report,
) -> End
where
    G: Gate + Send + Sync + 'static,
    T: Threads + Wait + Copy + Send + 'static,
    requires dialect { (arc_value program.now).dialect ≡ D.Event }
    requires some { 1 ≤ options.steps }
    requires room { options.cells ≤ most_cells }
    requires few { options.workers ≤ most_workers }
    requires polls { polls_fit (map told_of polls.now) ≡ true }
    requires rule { ⟦<HostTable<R> as Kept>⟧.keeps hosts.now }
    requires hosts { HasHosts (⟦<HostTable<R> as Kept>⟧.names hosts.now) (program_of (arc_value program.now).program) }
    requires fresh { NoSteps report.old }
    ensures ended { Wrote (O.taken out.old) (O.taken out.new) (λ o. RanAnswered (host_of (⟦<HostTable<R> as Kept>⟧.names hosts.now) R.answers)
        (program_of (arc_value program.now).program) (map told_of polls.now) (asked_options options.entry) text report.new (Rose (O.faults out.old) (O.faults out.new)) o result) }
    ensures kept { report.new.printed ≡ report.old.printed }
    ensures later { O.faults out.old ≤ O.faults out.new }
{
    match write_heading(text, report.printed.as_slice(), out) {
        Ok(()) => run_bare(rt, alloc, program, polls, hosts, options, gate, out, report),
        Err(Failed) => End::Unwritten,
    }
}

// The end of a call whose program declares a function of the host that is missing: the name, or want of memory for it.
fn lacks(alloc: Global, names: &Names, name: Name) -> End
    ensures { (missing : Option Text) → missing ≡ Some (in_table names.now name) → Lacks missing result }
{
    match text_of(names, name).to_vec(alloc) {
        Ok(name) => End::NoHost(name),
        Err(_) => End::Memory,
    }
}

/// Looks for the functions of the host that an event program declares, reads the history that is named, and runs the program
/// by it, with workers for its sections.
pub(crate) fn run_told<F: Shelf, O: Sink, R: HostRule, G, T>(
    rt: T,
    alloc: Global,
    program: Checked,
    options: Options<'_>,
    text: bool,
    shelf: &mut F,
    hosts: &HostTable<R>,
    gate: &Arc<G, Global>,
    out: &mut O,
    report: &mut Report,
) -> End
where
    G: Gate + Send + Sync + 'static,
    T: Threads + Wait + Copy + Send + 'static,
    requires dialect { program.dialect ≡ D.Event }
    requires some { 1 ≤ options.steps }
    requires room { options.cells ≤ most_cells }
    requires few { options.workers ≤ most_workers }
    requires fresh { NoSteps report.old }
    requires rule { ⟦<HostTable<R> as Kept>⟧.keeps hosts.now }
    ensures ended { Wrote (O.taken out.old) (O.taken out.new) (λ o. RanTold (host_of (⟦<HostTable<R> as Kept>⟧.names hosts.now) R.answers)
        (F.files shelf.old) (program_of program.program) (asked_options options.entry) text report.new
        (λ name. Rose (F.faults shelf.old name) (F.faults shelf.new name)) (Rose (O.faults out.old) (O.faults out.new)) o result) }
    ensures kept { report.new.printed ≡ report.old.printed }
    ensures later { O.faults out.old ≤ O.faults out.new }
    ensures stays { F.files shelf.new ≡ F.files shelf.old }
    ensures asked { AsksUpTo (F.asked shelf.old) (F.asked shelf.new) (history_end (is_early result) (asked_options options.entry).history) }
{
    if let Some(name) = missing_host(&program.program, hosts) {
        return lacks(alloc, &program.program.names, name);
    }
    let polls = match polls_of(alloc, options.history, shelf) {
        Ok(polls) => polls,
        Err(end) => return end,
    };
    match Arc::new(alloc, program) {
        Ok(shared) => run_back(
            rt,
            alloc,
            &shared,
            polls.as_slice(),
            hosts,
            options,
            text,
            gate,
            out,
            report,
        ),
        Err(_) => End::Memory,
    }
}

/// Writes the line of a sample's length, of so many bytes, behind the output of its run, which ended so.
pub(crate) fn close_sample<O: Sink>(
    alloc: Global,
    length: usize,
    outcome: Outcome,
    out: &mut O,
) -> End
    ensures closed { Wrote (O.taken out.old) (O.taken out.new) (λ o. ClosedBy (length_line length) outcome (Rose (O.faults out.old) (O.faults out.new)) o result) }
    ensures later { O.faults out.old ≤ O.faults out.new }
{
    let Ok(line) = format!(in alloc; "bytes {length}\n") else {
        return End::Memory;
    };
    match write_all(out, line.as_bytes()) {
        Ok(()) => End::Done(outcome),
        Err(Failed) => End::Unwritten,
    }
}
