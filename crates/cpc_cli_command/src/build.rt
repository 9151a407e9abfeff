//! The command line of `cpc`, as it is told to clap. What each function builds is a definition of `specs/Commands.antt`.
ghost use Rattle.std.specs.Prelude.{◌≡◌, IfOk, codes, false};
ghost use Rattle.clap.specs.Words.{app_of, rule_of};
ghost use Rattle.cpc_cli_command.specs.Commands.{IsLocal, bare_app, count_rule, cpc_app, exec_app, file_rule, flag_rule};
ghost use Rattle.cpc_cli_command.specs.Commands.{on_file as on_file_app, option_rule, reading_app, run_app, running_app, sample_app, with_options};
ghost use Rattle.cpc_cli_command.specs.Commands.{with_limits as with_limits_app, with_values as with_values_app};

use clap::{Arg, ArgAction, Command};
use std::alloc::{AllocError, Global};

/// FILE, the one word that is no option. It must be there.
fn file_argument<'a>(alloc: Global) -> Arg<'a>
    ensures rule { rule_of result ≡ file_rule }
    ensures local { result.global ≡ false }
{
    Arg::new(alloc, "FILE").required(true)
}

/// N, the one word of `sample`. It must be there.
fn count_argument<'a>(alloc: Global) -> Arg<'a>
    ensures rule { rule_of result ≡ count_rule }
    ensures local { result.global ≡ false }
{
    Arg::new(alloc, "N").required(true)
}

/// `--NAME VALUE` or `--NAME=VALUE`.
fn option<'a>(alloc: Global, name: &'a str) -> Arg<'a>
    ensures rule { rule_of result ≡ option_rule name.entry.now }
    ensures local { result.global ≡ false }
{
    Arg::new(alloc, name).long(name).action(ArgAction::Set)
}

/// `--NAME`.
fn flag<'a>(alloc: Global, name: &'a str) -> Arg<'a>
    ensures rule { rule_of result ≡ flag_rule name.entry.now }
    ensures local { result.global ≡ false }
{
    Arg::new(alloc, name).long(name).action(ArgAction::SetTrue)
}

/// The subcommand `NAME FILE`.
fn on_file<'a>(alloc: Global, name: &'a str) -> Result<Command<'a>, AllocError>
    ensures app { IfOk result (λ c. app_of c ≡ on_file_app name.entry.now) }
    ensures local { IfOk result IsLocal }
{
    Command::new(alloc, name).arg(file_argument(alloc))
}

/// `NAME FILE [--history H] [--steps N] [--cells N] [--section-steps N]`.
fn with_limits<'a>(alloc: Global, name: &'a str) -> Result<Command<'a>, AllocError>
    ensures app { IfOk result (λ c. app_of c ≡ with_limits_app (on_file_app name.entry.now)) }
    ensures local { IfOk result IsLocal }
{
    on_file(alloc, name)?
        .arg(option(alloc, "history"))?
        .arg(option(alloc, "steps"))?
        .arg(option(alloc, "cells"))?
        .arg(option(alloc, "section-steps"))
}

/// `NAME FILE` with these and `[--workers N]`.
fn with_values<'a>(alloc: Global, name: &'a str) -> Result<Command<'a>, AllocError>
    ensures app { IfOk result (λ c. app_of c ≡ with_values_app (on_file_app name.entry.now)) }
    ensures local { IfOk result IsLocal }
{
    with_limits(alloc, name)?.arg(option(alloc, "workers"))
}

/// `NAME FILE` with these options and `[--trace]`.
fn of_runs<'a>(alloc: Global, name: &'a str) -> Result<Command<'a>, AllocError>
    ensures app { IfOk result (λ c. app_of c ≡ with_options (on_file_app name.entry.now)) }
    ensures local { IfOk result IsLocal }
{
    with_values(alloc, name)?.arg(flag(alloc, "trace"))
}

/// `run FILE` with the options of a run and `--text`.
fn run<'a>(alloc: Global) -> Result<Command<'a>, AllocError>
    ensures app { IfOk result (λ c. app_of c ≡ run_app) }
    ensures local { IfOk result IsLocal }
{
    of_runs(alloc, "run")?.arg(flag(alloc, "text"))
}

/// `exec FILE` with the options of a run.
fn exec<'a>(alloc: Global) -> Result<Command<'a>, AllocError>
    ensures app { IfOk result (λ c. app_of c ≡ exec_app) }
    ensures local { IfOk result IsLocal }
{
    of_runs(alloc, "exec")
}

/// `sample N`.
fn sample<'a>(alloc: Global) -> Result<Command<'a>, AllocError>
    ensures app { IfOk result (λ c. app_of c ≡ sample_app) }
    ensures local { IfOk result IsLocal }
{
    Command::new(alloc, "sample").arg(count_argument(alloc))
}

/// `cpc` with no subcommand yet. There is no help and no version, and the words do not begin with the program's name.
fn bare<'a>(alloc: Global) -> Command<'a>
    ensures { app_of result ≡ bare_app }
{
    Command::new(alloc, "cpc")
        .no_binary_name(true)
        .disable_help_flag(true)
        .disable_help_subcommand(true)
        .disable_version_flag(true)
        .subcommand_required(true)
}

/// `cpc` with the subcommands that only read: `check` and `translate`.
fn reading<'a>(alloc: Global) -> Result<Command<'a>, AllocError>
    ensures { IfOk result (λ c. app_of c ≡ reading_app) }
{
    bare(alloc)
        .subcommand(on_file(alloc, "check")?)?
        .subcommand(on_file(alloc, "translate")?)
}

/// `cpc` with these and with those that run: `run` and `exec`.
fn running<'a>(alloc: Global) -> Result<Command<'a>, AllocError>
    ensures { IfOk result (λ c. app_of c ≡ running_app) }
{
    reading(alloc)?
        .subcommand(run(alloc)?)?
        .subcommand(exec(alloc)?)
}

/// The whole command line.
pub(crate) fn cpc<'a>(alloc: Global) -> Result<Command<'a>, AllocError>
    ensures { IfOk result (λ c. app_of c ≡ cpc_app) }
{
    running(alloc)?.subcommand(sample(alloc)?)
}
