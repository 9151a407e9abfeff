//! The top call.
ghost use Rattle.std.specs.Prelude.{◌≡◌, ◌≢◌, ◌⊎◌, ◌≤◌, Some, [], map, option_map, string_bytes, unwrap_or};
ghost use Rattle.cpc_base.specs.Bytes.{Text};
ghost use Rattle.cpc_base.specs.Outside.{Rose, WhereTold};
ghost use Rattle.cpc_run_workers.specs.Reports.{Wrote};
ghost use Rattle.cpc_cli_command.specs.Commands.{Check, Exec, Run, Sample, Translate, asked, asked_options, command_of};
ghost use Rattle.cpc_cli_command.specs.Number.{most_cells, most_workers};
ghost use Rattle.cpc_cli_command.specs.Usage.{IsBounded};
ghost use Rattle.cpc_cli.specs.Answer.{Answer, EndedIn, IsEnd, Nothing, line_of, rises};
ghost use Rattle.cpc_cli.specs.Asked.{AsksUpTo, command_end, is_early, tells_early, words_end};
ghost use Rattle.cpc_cli.specs.Command.{Asks, host_of, labels_in, labels_of, named, no_host, sample_options as options_of_samples};
ghost use Rattle.cpc_cli.specs.Exact.{Gives, NoneRose};
ghost use Rattle.cpc_cli.specs.Inputs.{labels};

use crate::answer::{End, Inputs, Outcome, Report, conclude};
use crate::reading::{checked, taken, text_limit, translated, translated_text};
use crate::running::{close_sample, run_told};
use cpc_base::{Dialect, Failed, NoMemory, Shelf, Sink, Stop, write_all};
use cpc_cli_command::{
    Command, DEFAULT_CELLS, DEFAULT_SECTION_STEPS, DEFAULT_STEPS, Options, Usage, read_words,
};
use cpc_hosts::{HostRule, HostTable, Kept};
use cpc_pool::Gate;
use cpc_sample::sample;
use std::alloc::Global;
use std::sync::{Arc, Wait};
use std::thread::Threads;

// Translates the text of a file, and runs what was made.
fn run_file<F: Shelf, O: Sink, R: HostRule, G, T>(
    rt: T,
    alloc: Global,
    file: &str,
    options: Options<'_>,
    text: bool,
    shelf: &mut F,
    hosts: &HostTable<R>,
    gate: &Arc<G, Global>,
    out: &mut O,
    report: &mut Report,
) -> End
where
    G: Gate + Send + Sync + 'static,
    T: Threads + Wait + Copy + Send + 'static,
    requires none { Nothing report.old [] }
    requires some { 1 ≤ options.steps }
    requires room { options.cells ≤ most_cells }
    requires few { options.workers ≤ most_workers }
    requires rule { ⟦<HostTable<R> as Kept>⟧.keeps hosts.now }
    ensures ended { Wrote (O.taken out.old) (O.taken out.new) (λ o. EndedIn (host_of (⟦<HostTable<R> as Kept>⟧.names hosts.now) R.answers) (F.files shelf.old) (Run file.now (asked_options options.entry) text)
        (λ name. Rose (F.faults shelf.old name) (F.faults shelf.new name)) (Rose (O.faults out.old) (O.faults out.new)) report.new o result) }
    ensures stays { F.files shelf.new ≡ F.files shelf.old }
    ensures asked { AsksUpTo (F.asked shelf.old) (F.asked shelf.new) (command_end (Run file.now (asked_options options.entry) text) (is_early result)) }
{
    match translated(alloc, file, shelf, report) {
        Ok(program) => run_told(
            rt, alloc, program, options, text, shelf, hosts, gate, out, report,
        ),
        Err(end) => end,
    }
}

// Runs the text of a file, which is one of events.
fn exec_file<F: Shelf, O: Sink, R: HostRule, G, T>(
    rt: T,
    alloc: Global,
    file: &str,
    options: Options<'_>,
    shelf: &mut F,
    hosts: &HostTable<R>,
    gate: &Arc<G, Global>,
    out: &mut O,
    report: &mut Report,
) -> End
where
    G: Gate + Send + Sync + 'static,
    T: Threads + Wait + Copy + Send + 'static,
    requires none { Nothing report.old [] }
    requires some { 1 ≤ options.steps }
    requires room { options.cells ≤ most_cells }
    requires few { options.workers ≤ most_workers }
    requires rule { ⟦<HostTable<R> as Kept>⟧.keeps hosts.now }
    ensures ended { Wrote (O.taken out.old) (O.taken out.new) (λ o. EndedIn (host_of (⟦<HostTable<R> as Kept>⟧.names hosts.now) R.answers) (F.files shelf.old) (Exec file.now (asked_options options.entry))
        (λ name. Rose (F.faults shelf.old name) (F.faults shelf.new name)) (Rose (O.faults out.old) (O.faults out.new)) report.new o result) }
    ensures stays { F.files shelf.new ≡ F.files shelf.old }
    ensures asked { AsksUpTo (F.asked shelf.old) (F.asked shelf.new) (command_end (Exec file.now (asked_options options.entry)) (is_early result)) }
{
    match taken(alloc, file, shelf) {
        Ok(program) => run_told(
            rt, alloc, program, options, false, shelf, hosts, gate, out, report,
        ),
        Err(end) => end,
    }
}

// Translates the text of a file, and writes what was made.
fn translate_file<F: Shelf, O: Sink>(
    alloc: Global,
    file: &str,
    shelf: &mut F,
    out: &mut O,
    report: &mut Report,
) -> End
    requires { Nothing report.old [] }
    ensures ended { Wrote (O.taken out.old) (O.taken out.new) (λ o. EndedIn no_host (F.files shelf.old) (Translate file.now)
        (λ name. Rose (F.faults shelf.old name) (F.faults shelf.new name)) (Rose (O.faults out.old) (O.faults out.new)) report.new o result) }
    ensures stays { F.files shelf.new ≡ F.files shelf.old }
    ensures asked { AsksUpTo (F.asked shelf.old) (F.asked shelf.new) (command_end (Translate file.now) (is_early result)) }
{
    if let Err(end) = translated(alloc, file, shelf, report) {
        return end;
    }
    match write_all(out, report.printed.as_slice()) {
        Ok(()) => End::Done(Outcome::Translated),
        Err(Failed) => End::Unwritten,
    }
}

// Says that the text of a file is accepted.
fn check_file<F: Shelf, O: Sink>(
    alloc: Global,
    file: &str,
    shelf: &mut F,
    out: &mut O,
    report: &Report,
) -> End
    requires { Nothing report.now [] }
    ensures ended { Wrote (O.taken out.old) (O.taken out.new) (λ o. EndedIn no_host (F.files shelf.old) (Check file.now)
        (λ name. Rose (F.faults shelf.old name) (F.faults shelf.new name)) (Rose (O.faults out.old) (O.faults out.new)) report.now o result) }
    ensures stays { F.files shelf.new ≡ F.files shelf.old }
    ensures asked { AsksUpTo (F.asked shelf.old) (F.asked shelf.new) (command_end (Check file.now) (is_early result)) }
{
    if let Err(end) = checked(alloc, file, Dialect::Cpc, shelf) {
        return end;
    }
    match write_all(out, b"accepted\n") {
        Ok(()) => End::Done(Outcome::Accepted),
        Err(Failed) => End::Unwritten,
    }
}

// The options of a sample's run, which has no workers.
fn sample_options<'a>() -> Options<'a>
    ensures { asked_options result ≡ options_of_samples }
{
    Options {
        history: None,
        steps: DEFAULT_STEPS,
        cells: DEFAULT_CELLS,
        section_steps: DEFAULT_SECTION_STEPS,
        workers: 0,
        trace: false,
    }
}

// Makes the sample text of a number, translates it, runs what was made, and tells the length of the text.
fn run_sample<F: Shelf, O: Sink, R: HostRule, G, T>(
    rt: T,
    alloc: Global,
    number: u32,
    shelf: &mut F,
    hosts: &HostTable<R>,
    gate: &Arc<G, Global>,
    out: &mut O,
    report: &mut Report,
) -> End
where
    G: Gate + Send + Sync + 'static,
    T: Threads + Wait + Copy + Send + 'static,
    requires none { Nothing report.old [] }
    requires rule { ⟦<HostTable<R> as Kept>⟧.keeps hosts.now }
    ensures ended { Wrote (O.taken out.old) (O.taken out.new) (λ o. EndedIn (host_of (⟦<HostTable<R> as Kept>⟧.names hosts.now) R.answers) (F.files shelf.old) (Sample number)
        (λ name. Rose (F.faults shelf.old name) (F.faults shelf.new name)) (Rose (O.faults out.old) (O.faults out.new)) report.new o result) }
    ensures stays { F.files shelf.new ≡ F.files shelf.old }
    ensures asked { AsksUpTo (F.asked shelf.old) (F.asked shelf.new) (command_end (Sample number) (is_early result)) }
{
    let text = match sample(alloc, number) {
        Ok(text) => text,
        Err(NoMemory) => return End::Memory,
    };
    let bytes = text.as_slice();
    let program = match translated_text(alloc, bytes, report) {
        Ok(program) => program,
        Err(end) => return end,
    };
    match run_told(
        rt,
        alloc,
        program,
        sample_options(),
        false,
        shelf,
        hosts,
        gate,
        out,
        report,
    ) {
        End::Done(outcome) => close_sample(alloc, bytes.len(), outcome, out),
        end => end,
    }
}

// Does what a command asks for.
fn perform<F: Shelf, O: Sink, R: HostRule, G, T>(
    rt: T,
    alloc: Global,
    command: Command,
    shelf: &mut F,
    hosts: &HostTable<R>,
    gate: &Arc<G, Global>,
    out: &mut O,
    report: &mut Report,
) -> End
where
    G: Gate + Send + Sync + 'static,
    T: Threads + Wait + Copy + Send + 'static,
    requires none { Nothing report.old [] }
    requires bounded { IsBounded (asked command) }
    requires rule { ⟦<HostTable<R> as Kept>⟧.keeps hosts.now }
    ensures ended { Wrote (O.taken out.old) (O.taken out.new) (λ o. EndedIn (host_of (⟦<HostTable<R> as Kept>⟧.names hosts.now) R.answers) (F.files shelf.old) (asked command.entry)
        (λ name. Rose (F.faults shelf.old name) (F.faults shelf.new name)) (Rose (O.faults out.old) (O.faults out.new)) report.new o result) }
    ensures stays { F.files shelf.new ≡ F.files shelf.old }
    ensures asked { AsksUpTo (F.asked shelf.old) (F.asked shelf.new) (command_end (asked command.entry) (is_early result)) }
{
    match command {
        Command::Check { file } => check_file(alloc, file, shelf, out, report),
        Command::Translate { file } => translate_file(alloc, file, shelf, out, report),
        Command::Run {
            file,
            options,
            text,
        } => run_file(
            rt, alloc, file, options, text, shelf, hosts, gate, out, report,
        ),
        Command::Exec { file, options } => exec_file(
            rt, alloc, file, options, shelf, hosts, gate, out, report,
        ),
        Command::Sample { number } => run_sample(
            rt, alloc, number, shelf, hosts, gate, out, report,
        ),
    }
}

// The name of a history, and no text where none is named.
fn history_name<'a>(history: Option<&'a str>) -> &'a str
    ensures { result.now ≡ unwrap_or (option_map (λ name. name.now) history.entry) [] }
{
    match history {
        Some(name) => name,
        None => "",
    }
}

// The files of a command.
fn inputs_of(command: Command<'_>) -> Inputs<'_>
    ensures { labels result ≡ labels_of (asked command.entry) }
{
    match command {
        Command::Check { file } | Command::Translate { file } => Inputs {
            text: file,
            history: "",
            limit: text_limit(Dialect::Cpc) as u64,
        },
        Command::Run { file, options, .. } => Inputs {
            text: file,
            history: history_name(options.history),
            limit: text_limit(Dialect::Cpc) as u64,
        },
        Command::Exec { file, options } => Inputs {
            text: file,
            history: history_name(options.history),
            limit: text_limit(Dialect::Event) as u64,
        },
        Command::Sample { .. } => Inputs {
            text: "",
            history: "",
            limit: text_limit(Dialect::Cpc) as u64,
        },
    }
}

// The files of words that ask for no command.
fn no_inputs<'a>() -> Inputs<'a> {
    Inputs {
        text: "",
        history: "",
        limit: 0,
    }
}

// Does what the words ask for, and gives the files that they name.
fn follow<'a, F: Shelf, O: Sink, R: HostRule, G, T>(
    rt: T,
    alloc: Global,
    words: &'a [String],
    shelf: &mut F,
    hosts: &HostTable<R>,
    gate: &Arc<G, Global>,
    out: &mut O,
    report: &mut Report,
) -> (Inputs<'a>, End)
where
    G: Gate + Send + Sync + 'static,
    T: Threads + Wait + Copy + Send + 'static,
    requires none { Nothing report.old [] }
    requires rule { ⟦<HostTable<R> as Kept>⟧.keeps hosts.now }
    ensures ended { Wrote (O.taken out.old) (O.taken out.new) (λ o. IsEnd (map string_bytes words.now) (host_of (⟦<HostTable<R> as Kept>⟧.names hosts.now) R.answers) (F.files shelf.old)
        (λ name. Rose (F.faults shelf.old name) (F.faults shelf.new name)) (Rose (O.faults out.old) (O.faults out.new)) report.new o result.1) }
    ensures line { line_of (labels result.0) result.1 ≡ line_of (labels_in (map string_bytes words.now)) result.1 }
    ensures stays { F.files shelf.new ≡ F.files shelf.old }
    ensures asked { AsksUpTo (F.asked shelf.old) (F.asked shelf.new) (words_end (map string_bytes words.now) (is_early result.1)) }
{
    match read_words(alloc, words) {
        Ok(command) => (
            inputs_of(command),
            perform(rt, alloc, command, shelf, hosts, gate, out, report),
        ),
        Err(Stop::Memory) => (no_inputs(), End::Memory),
        Err(Stop::Fault(Usage)) => (no_inputs(), End::Usage),
    }
}

/// Does what a command line asks for. `words` are its words without the program's name; the text and the history are read
/// from `shelf`, what a command makes goes to `out`, and the line on how the call ended to `err`. A program that is run may
/// call the functions of `hosts`, whose answers meet its rule; before its history is read, each that it declares is looked for.
/// What comes of a call does not depend on the number of workers, nor on what they do when.
///
/// What the workers do is how the code does it, and no clause: the sections of a run are run by as many as the words ask for, or by
/// fewer where threads cannot be made, or memory for one is wanting; `sample` has none. The gate is called around each section that a worker runs, with
/// its number. All workers have ended when the call returns.
///
/// The status of the report is 0 where the command did its work, 1 where the program that was run has a fault, 2 where
/// the words are no command line, 3 where the text has a fault, 4 where a line of the
/// history is no poll, or a poll tells a section that is not out, 5 where the run wanted more polls than the history has, 6
/// where it made as many steps as it may and is not over, 7 where it would have more live cells than it may, 8 where the
/// shelf failed at the text or the history, 9 where a sink failed, 11 where memory was wanting, 12 where a function of the host is declared that
/// `hosts` has not with its arity, the first of them by declaration being named, 13 where the text or the
/// history has more bytes than its limit, and 14 where the run is over and some wait.
pub fn cpc_main<F: Shelf, O: Sink, E: Sink, R: HostRule, G, T>(
    rt: T,
    alloc: Global,
    words: &[String],
    shelf: &mut F,
    out: &mut O,
    err: &mut E,
    hosts: &HostTable<R>,
    gate: &Arc<G, Global>,
) -> Report
where
    G: Gate + Send + Sync + 'static,
    T: Threads + Wait + Copy + Send + 'static,
    requires rule { ⟦<HostTable<R> as Kept>⟧.keeps hosts.now }
    ensures answer { Wrote (O.taken out.old) (O.taken out.new) (λ o. Wrote (E.taken err.old) (E.taken err.new) (λ e.
        Answer (map string_bytes words.now) (host_of (⟦<HostTable<R> as Kept>⟧.names hosts.now) R.answers) (F.files shelf.old)
        (rises (record { shelf = F.faults shelf.old; asked = F.asked shelf.old; out = O.faults out.old; err = E.faults err.old })
        (record { shelf = F.faults shelf.new; asked = F.asked shelf.new; out = O.faults out.new; err = E.faults err.new }))
        result o e)) }
    // Where the files are told, nothing failed and memory was ample, it is what is due to these words.
    ensures exact { WhereTold (F.files shelf.old) (λ files.
        NoneRose files (rises (record { shelf = F.faults shelf.old; asked = F.asked shelf.old; out = O.faults out.old; err = E.faults err.old })
        (record { shelf = F.faults shelf.new; asked = F.asked shelf.new; out = O.faults out.new; err = E.faults err.new }))
        → result.status ≢ 11
        → Wrote (O.taken out.old) (O.taken out.new) (λ o. Wrote (E.taken err.old) (E.taken err.new) (λ e.
        Gives (host_of (⟦<HostTable<R> as Kept>⟧.names hosts.now) R.answers) files (map string_bytes words.now) result.status o e))) }
    ensures usage { result.status ≡ 2 → command_of (map string_bytes words.now) ≡ None }
    ensures read { result.status ≡ 8 → Asks (map string_bytes words.now) (λ command. (role : _) × (name : Text) × (named command role ≡ Some name)
        × Rose (F.faults shelf.old name) (F.faults shelf.new name)) }
    ensures write { result.status ≡ 9 → Rose (O.faults out.old) (O.faults out.new) ⊎ Rose (E.faults err.old) (E.faults err.new) }
    ensures stays { F.files shelf.new ≡ F.files shelf.old }
    // No other file is asked for, and of these none beyond one byte past its limit; and no history at the statuses that come before it.
    ensures asked { AsksUpTo (F.asked shelf.old) (F.asked shelf.new) (words_end (map string_bytes words.now) (tells_early result.status)) }
{
    let mut report = Report {
        status: 0,
        printed: Vec::new(alloc),
        steps: 0,
        cells: 0,
    };
    let (inputs, end) = follow(rt, alloc, words, shelf, hosts, gate, out, &mut report);
    report.status = conclude(alloc, &inputs, &end, err);
    report
}
