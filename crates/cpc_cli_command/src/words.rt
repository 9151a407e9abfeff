//! Reads the words of a command line.
ghost use Rattle.std.specs.Prelude.{◌≡◌, ◌≢◌, IfOk, Some, codes, map, option_and_then, option_map, string_bytes};
ghost use Rattle.std.specs.Option.{option_map_or};
ghost use Rattle.clap.specs.Walk.{first_of};
ghost use Rattle.clap.specs.Words.{found_of, kind_of, rows_of, subcommand_rows_of};
ghost use Rattle.cpc_cli_command.specs.Commands.{asked, asked_options, command_in, command_named as named_command, command_of};
ghost use Rattle.cpc_cli_command.specs.Commands.{is_given as was_given};
ghost use Rattle.cpc_cli_command.specs.Commands.{exec_in as exec_given, file_command_in, options_in as options_given};
ghost use Rattle.cpc_cli_command.specs.Commands.{run_in as run_given, sample_in as sample_given, workers_in as workers_given};
ghost use Rattle.cpc_cli_command.specs.Number.{number_of, workers_of};
ghost use Rattle.cpc_base.specs.declared.stop.Stop.TheVariants.{Fault};

use crate::build;
use crate::number::{
    DEFAULT_CELLS, DEFAULT_SECTION_STEPS, DEFAULT_STEPS, DEFAULT_WORKERS, MOST_CELLS,
    MOST_SECTION_STEPS, MOST_STEPS, MOST_THREADS, MOST_WORKERS, read_number, read_number_up_to,
};
use clap::ArgMatches;
use clap::error::{Error, ErrorKind};
use cpc_base::Stop;
use std::alloc::Global;

/// How a program is to run.
#[derive(Clone, Copy)]
pub struct Options<'a> {
    /// The file that holds the history, where one is named; without one the history has no polls.
    pub history: Option<&'a str>,
    /// The most steps that the run takes, within 1 to `MOST_STEPS`.
    pub steps: u64,
    /// The most live cells of the run, within 1 to `MOST_CELLS`.
    pub cells: u64,
    /// The most steps of each section, within 1 to `MOST_SECTION_STEPS`.
    pub section_steps: u64,
    /// How many workers run sections, within 0 to `MOST_WORKERS`.
    pub workers: u32,
    /// Whether `--trace` was given.
    pub trace: bool,
}

/// What a command line asks for. A file is named as the words name it.
#[derive(Clone, Copy)]
pub enum Command<'a> {
    /// Reads and checks the text of the file.
    Check {
        /// The file that holds the text.
        file: &'a str,
    },
    /// Translates the text of the file.
    Translate {
        /// The file that holds the text.
        file: &'a str,
    },
    /// Translates the text of the file, and runs what was made.
    Run {
        /// The file that holds the text.
        file: &'a str,
        /// How it is to run.
        options: Options<'a>,
        /// Whether `--text` was given.
        text: bool,
    },
    /// Runs the text of the file, which is one of events.
    Exec {
        /// The file that holds the text.
        file: &'a str,
        /// How it is to run.
        options: Options<'a>,
    },
    /// Makes the sample text of a number, translates it, and runs what was made.
    Sample {
        /// The number of threads of the sample, within 1 to `MOST_THREADS`.
        number: u32,
    },
}

/// The words are no command of `cpc`.
#[derive(Clone, Copy, Drop)]
pub struct Usage;

/// The command that `words` ask for, without the program's name. `Fault(Usage)` where they ask for none, and `Memory`
/// for want of memory.
pub fn read_words<'a>(alloc: Global, words: &'a [String]) -> Result<Command<'a>, Stop<Usage>>
    ensures command { IfOk result (λ c. command_of (map string_bytes words.entry.now) ≡ Some (asked c)) }
    ensures usage { (u : Usage) → result ≡ Err (Fault u) → command_of (map string_bytes words.entry.now) ≡ None }
{
    let command = build::cpc(alloc)?;
    match command.try_get_matches_from(words) {
        Ok(matches) => subcommand_in(&matches).ok_or(Stop::Fault(Usage)),
        Err(error) => Err(stop_of(&error)),
    }
}

/// Want of memory, or that the words are no command.
fn stop_of(error: &Error) -> Stop<Usage>
    ensures { (u : Usage) → result ≡ Fault u → kind_of error.now ≢ ErrorKind.OutOfMemory }
{
    if error.kind() == ErrorKind::OutOfMemory {
        Stop::Memory
    } else {
        Stop::Fault(Usage)
    }
}

/// The command of the subcommand that was entered.
fn subcommand_in<'a>(matches: &ArgMatches<'a>) -> Option<Command<'a>>
    ensures { option_map asked result ≡ option_and_then command_in (subcommand_rows_of matches.now) }
{
    let (name, values) = matches.subcommand()?;
    if name == "sample" {
        return sample_in(values);
    }
    on_file_in(name, values)
}

/// What `sample` asks for.
fn sample_in<'a>(values: &ArgMatches<'a>) -> Option<Command<'a>>
    ensures { option_map asked result ≡ sample_given (rows_of (found_of values.now)) }
{
    let text = values.get_str("N")?;
    let number = read_number(text, MOST_THREADS as u64)?;
    Some(Command::Sample {
        number: number as u32,
    })
}

/// The command of a subcommand that takes a file.
fn on_file_in<'a>(name: &str, values: &ArgMatches<'a>) -> Option<Command<'a>>
    ensures { option_map asked result ≡ file_command_in (name.now, rows_of (found_of values.now)) }
{
    let file = values.get_str("FILE")?;
    command_named(name, file, values)
}

/// The command of a subcommand's name, its file and what else was given.
fn command_named<'a>(name: &str, file: &'a str, values: &ArgMatches<'a>) -> Option<Command<'a>>
    ensures { option_map asked result ≡ named_command name.now file.entry.now (rows_of (found_of values.now)) }
{
    match name {
        "check" => Some(Command::Check { file }),
        "translate" => Some(Command::Translate { file }),
        "run" => run_in(file, values),
        "exec" => exec_in(file, values),
        _ => None,
    }
}

/// What `run` asks for.
fn run_in<'a>(file: &'a str, values: &ArgMatches<'a>) -> Option<Command<'a>>
    ensures { option_map asked result ≡ run_given file.entry.now (rows_of (found_of values.now)) }
{
    let options = options_in(values)?;
    let text = is_given("text", values);
    Some(Command::Run {
        file,
        options,
        text,
    })
}

/// What `exec` asks for.
fn exec_in<'a>(file: &'a str, values: &ArgMatches<'a>) -> Option<Command<'a>>
    ensures { option_map asked result ≡ exec_given file.entry.now (rows_of (found_of values.now)) }
{
    let options = options_in(values)?;
    Some(Command::Exec { file, options })
}

/// How the program is to run.
fn options_in<'a>(values: &ArgMatches<'a>) -> Option<Options<'a>>
    ensures { option_map asked_options result ≡ options_given (rows_of (found_of values.now)) }
{
    let steps = number_in("steps", MOST_STEPS, DEFAULT_STEPS, values)?;
    let cells = number_in("cells", MOST_CELLS, DEFAULT_CELLS, values)?;
    let section_steps = number_in(
        "section-steps",
        MOST_SECTION_STEPS,
        DEFAULT_SECTION_STEPS,
        values,
    )?;
    let workers = workers_in(values)?;
    Some(Options {
        history: history_in(values),
        steps,
        cells,
        section_steps,
        workers,
        trace: is_given("trace", values),
    })
}

/// The file of `--history`, where it was given.
fn history_in<'a>(values: &ArgMatches<'a>) -> Option<&'a str>
    ensures { first_of (codes "history") (rows_of (found_of values.now)) ≡ option_map (λ name. name.now) result }
{
    values.get_str("history")
}

/// The number of the option `name`, of a value within 1 to `most`, or `default` where it was not given.
fn number_in(name: &str, most: u64, default: u64, values: &ArgMatches<'_>) -> Option<u64>
    ensures { result ≡ option_map_or (number_of most) (first_of name.now (rows_of (found_of values.now))) (Some default) }
{
    match values.get_str(name) {
        Some(text) => read_number(text, most),
        None => Some(default),
    }
}

/// The number of `--workers`, or the default where it was not given.
fn workers_in(values: &ArgMatches<'_>) -> Option<u32>
    ensures { result ≡ workers_given (rows_of (found_of values.now)) }
{
    match values.get_str("workers") {
        Some(text) => read_workers(text),
        None => Some(DEFAULT_WORKERS),
    }
}

/// The number of workers that `text` writes.
fn read_workers(text: &str) -> Option<u32>
    ensures { result ≡ workers_of text.now }
{
    let number = read_number_up_to(text, MOST_WORKERS as u64)?;
    Some(number as u32)
}

/// Whether the flag `name` was given: clap's value of a flag is "true" then, and else "false".
fn is_given(name: &str, values: &ArgMatches<'_>) -> bool
    ensures { result ≡ was_given name.now (rows_of (found_of values.now)) }
{
    match values.get_str(name) {
        Some(value) => value == "true",
        None => false,
    }
}
