//! The examples, and what each writes: its output, the line on `err`, and its status.
use crate::calls::called;
use crate::idle::IdleSink;
use crate::setting::{Left, steady, words_of};
use crate::top::Told;
use cpc_base_memory::{Calls, MemFile, MemShelf, MemSink};
use std::alloc::{AllocError, Global};
use std::fs;

/// The examples that run, in the order in which they are run.
const RUN: [&str; 12] = [
    "seven.c",
    "calculator.c",
    "list.c",
    "matrix.c",
    "machine.c",
    "factorial.c",
    "turns.c",
    "relay.c",
    "accounts.c",
    "pipeline.c",
    "queens.c",
    "hosts.c",
];

/// The examples that wait for what comes from outside, each with the history that tells it.
const TOLD: [(&str, &str); 3] = [
    ("echo.c", "echo.polls"),
    ("server.c", "server.polls"),
    ("sorter.c", "sorter.polls"),
];

// The files of the examples of these names.
fn files(rt: &HostRuntime, names: &[&str]) -> anyhow::Result<Vec<MemFile>> {
    let alloc = rt.alloc();
    let mut files = Vec::new(alloc);
    for name in names {
        let bytes = fs::read(rt, name)?;
        let name = String::from_str(alloc, name)?;
        files.push(MemFile { name, bytes })?;
    }
    Ok(files)
}

// Shows what a call left, under a name.
fn tell(rt: &HostRuntime, name: &str, left: &Left) -> anyhow::Result<()> {
    let alloc = rt.alloc();
    let status = left.status;
    println!(rt; "== {name}")?;
    print!(rt; "{}", String::from_utf8_lossy(alloc, left.out.as_slice())?)?;
    print!(rt; "{}", String::from_utf8_lossy(alloc, left.err.as_slice())?)?;
    println!(rt; "status {status}")?;
    Ok(())
}

// Does what the words of this line ask for over these files, and shows what comes of it under a name.
fn show<F>(
    rt: &HostRuntime,
    call: &F,
    name: &str,
    line: &str,
    files: Vec<MemFile>,
) -> anyhow::Result<()>
where
    F: Fn(
        Global,
        &[String],
        &mut MemShelf,
        &mut IdleSink,
        &mut MemSink,
    ) -> Result<Told, AllocError>,
    requires { F.IsAlwaysCallable call.now }
{
    let alloc = rt.alloc();
    let shelf = MemShelf::new(files, 4096, Calls::new(Vec::new(alloc)));
    let words = words_of(alloc, line)?;
    let left = called(call, alloc, words.as_slice(), shelf, steady(4096))?;
    tell(rt, name, &left)
}

// Runs a text.
fn show_run<F>(rt: &HostRuntime, call: &F, name: &str) -> anyhow::Result<()>
where
    F: Fn(
        Global,
        &[String],
        &mut MemShelf,
        &mut IdleSink,
        &mut MemSink,
    ) -> Result<Told, AllocError>,
    requires { F.IsAlwaysCallable call.now }
{
    let line = format!(in rt.alloc(); "run {name}")?;
    show(rt, call, name, line.as_str(), files(rt, &[name])?)
}

// Runs a text by its history.
fn show_told<F>(rt: &HostRuntime, call: &F, name: &str, history: &str) -> anyhow::Result<()>
where
    F: Fn(
        Global,
        &[String],
        &mut MemShelf,
        &mut IdleSink,
        &mut MemSink,
    ) -> Result<Told, AllocError>,
    requires { F.IsAlwaysCallable call.now }
{
    let line = format!(in rt.alloc(); "run {name} --history {history}")?;
    show(rt, call, name, line.as_str(), files(rt, &[name, history])?)
}

/// Runs all examples, and shows what each writes.
///
/// # Errors
/// Where memory is wanting, or a file cannot be read, or what is found cannot be shown.
pub fn show_examples<F>(rt: &HostRuntime, call: &F) -> anyhow::Result<()>
where
    F: Fn(
        Global,
        &[String],
        &mut MemShelf,
        &mut IdleSink,
        &mut MemSink,
    ) -> Result<Told, AllocError>,
    requires { F.IsAlwaysCallable call.now }
{
    for name in RUN {
        show_run(rt, call, name)?;
    }
    for (name, history) in TOLD {
        show_told(rt, call, name, history)?;
    }
    Ok(())
}
