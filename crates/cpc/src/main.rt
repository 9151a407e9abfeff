//! The command `cpc`, over the files and streams of the system.
#![tactic(auto)]

ghost use Rattle.std.specs.Prelude.{◌≡◌, ◌≢◌, [], IfOk, OnErr, codes};
ghost use Rattle.std.specs.Process.{exit_status};
ghost use Rattle.std.specs.declared.io.ErrorKind.TheVariants.{OutOfMemory};
ghost use Rattle.cpc_base.specs.Outside.{Rose};
ghost use Rattle.cpc_standard.specs.Reports.{Wrote};
ghost use Rattle.cpc_standard.specs.Answer.{Said};

use cpc_base::{Failed, NoMemory, Sink, write_all};
use cpc_files::{OpenedShelf, StreamSink, SystemFiles};
use cpc_standard::{Report, called};
use std::alloc::Global;
use std::env;
use std::io::ErrorKind;
use std::process::ExitCode;

// The words where they cannot be read, for this cause. Where one of them is no text, there are none: no command line has no words.
fn no_words(alloc: Global, cause: ErrorKind) -> Result<Vec<String>, NoMemory>
    ensures none { IfOk result (λ words. (words.items ≡ []) × (cause ≢ OutOfMemory)) }
    ensures memory { OnErr result (cause ≡ OutOfMemory) }
{
    match cause {
        ErrorKind::OutOfMemory => Err(NoMemory),
        _ => Ok(Vec::new(alloc)),
    }
}

// The words after the program's name.
fn words(rt: &HostRuntime) -> Result<Vec<String>, NoMemory> {
    match env::args(rt) {
        Ok(args) => Ok(args.skip(1).collect(rt.alloc())?),
        Err(error) => no_words(rt.alloc(), error.kind()),
    }
}

// Says that there was no memory to begin the call, as the call itself says it, and gives the status of that end.
fn say_no_memory<E: Sink>(err: &mut E) -> u8
    ensures said { Wrote (E.taken err.old) (E.taken err.new)
        (Said (codes "no memory\n") 11 (Rose (E.faults err.old) (E.faults err.new)) result) }
{
    match write_all(err, b"no memory\n") {
        Ok(()) => 11,
        Err(Failed) => 9,
    }
}

// The status of the process: that of the call, whose line is written, or that of a call that could not be made.
fn ended<E: Sink>(called: Result<Report, NoMemory>, err: &mut E) -> ExitCode
    ensures status { IfOk called (λ report. (exit_status result ≡ report.status) × (E.taken err.new ≡ E.taken err.old)) }
    ensures memory { OnErr called (Wrote (E.taken err.old) (E.taken err.new)
        (Said (codes "no memory\n") 11 (Rose (E.faults err.old) (E.faults err.new)) (exit_status result))) }
{
    let status = match called {
        Ok(report) => report.status,
        Err(NoMemory) => say_no_memory(err),
    };
    ExitCode::from(status)
}

fn main(rt: HostRuntime) -> ExitCode {
    let mut shelf = OpenedShelf::new(SystemFiles(&rt));
    let mut out = StreamSink::new(rt.stdout());
    let mut err = StreamSink::new(rt.stderr());
    let called = match words(&rt) {
        Ok(words) => called(
            rt,
            rt.alloc(),
            words.as_slice(),
            &mut shelf,
            &mut out,
            &mut err,
        ),
        Err(NoMemory) => Err(NoMemory),
    };
    ended(called, &mut err)
}
