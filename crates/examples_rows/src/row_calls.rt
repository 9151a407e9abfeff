//! The calls of a row.
use crate::calls::make;
use crate::due::{Due, ends};
use crate::failing::{each_front, each_put, each_read, each_said};
use crate::idle::IdleSink;
use crate::row::{Line, Row, number};
use crate::setting::{Files, Left};
use crate::top::{Stages, Told};
use cpc_base_memory::{MemShelf, MemSink};
use std::alloc::{AllocError, Global};

/// Takes a line of a row, and makes the calls of the row where it is over.
///
/// # Errors
/// Where memory is wanting, or what is found cannot be shown.
pub fn take_line<S: Stages, F>(
    rt: &HostRuntime,
    stages: &S,
    call: &F,
    row: &mut Row,
    line: &[u8],
) -> anyhow::Result<()>
where
    F: Fn(
        Global,
        &[String],
        &mut MemShelf,
        &mut IdleSink,
        &mut MemSink,
    ) -> Result<Told, AllocError>,
    requires { F.IsAlwaysCallable call.now }
{
    if let Line::End(ending, is_whole) = row.take(line)? {
        let calls = make_calls(rt, stages, call, row, ending, is_whole)?;
        row.calls = row.calls.saturating_add(calls);
        row.clear();
    }
    Ok(())
}

// Makes each call of a row with each setting, and tells how many there were.
fn make_calls<S: Stages, F>(
    rt: &HostRuntime,
    stages: &S,
    call: &F,
    row: &Row,
    ending: &str,
    is_whole: bool,
) -> anyhow::Result<u64>
where
    F: Fn(
        Global,
        &[String],
        &mut MemShelf,
        &mut IdleSink,
        &mut MemSink,
    ) -> Result<Told, AllocError>,
    requires { F.IsAlwaysCallable call.now }
{
    let alloc = rt.alloc();
    let files = row.files();
    let due = Due {
        out: row.out.as_slice(),
        err: row.err.as_slice(),
        status: number(ending.split_whitespace().next().unwrap_or("")),
    };
    let mut calls = 0u64;
    for words in row.words.iter() {
        let words = words.as_str();
        for setting in row.settings.iter() {
            let left = make(stages, call, alloc, words, files, *setting)?;
            let is_written = left.out == row.out && left.err == row.err;
            if !(ends(&left, ending) && (is_written || !is_whole)) {
                show(rt, words, files, &left)?;
            }
            calls = calls.saturating_add(1);
        }
        run_failing(rt, stages, call, words, files, due, row.failing.as_slice())?;
        if row.has_fronts {
            let left = each_front(stages, call, alloc, words, files)?;
            show_some(rt, words, files, &left)?;
        }
    }
    Ok(calls)
}

// Makes the calls in which one thing fails.
fn run_failing<S: Stages, F>(
    rt: &HostRuntime,
    stages: &S,
    call: &F,
    words: &str,
    files: Files<'_>,
    due: Due<'_>,
    failing: &[u64],
) -> anyhow::Result<()>
where
    F: Fn(
        Global,
        &[String],
        &mut MemShelf,
        &mut IdleSink,
        &mut MemSink,
    ) -> Result<Told, AllocError>,
    requires { F.IsAlwaysCallable call.now }
{
    let alloc = rt.alloc();
    for most in failing.iter() {
        show_some(
            rt,
            words,
            files,
            &each_read(stages, call, alloc, words, files, due, *most)?,
        )?;
        show_some(
            rt,
            words,
            files,
            &each_put(stages, call, alloc, words, files, due, *most)?,
        )?;
        show_some(
            rt,
            words,
            files,
            &each_said(stages, call, alloc, words, files, due, *most)?,
        )?;
    }
    Ok(())
}

// Shows what a call left, where there is one.
fn show_some(
    rt: &HostRuntime,
    words: &str,
    files: Files<'_>,
    left: &Option<Left>,
) -> anyhow::Result<()> {
    match left {
        Some(left) => show(rt, words, files, left),
        None => Ok(()),
    }
}

// Shows what a call left that is not what its row wants.
fn show(rt: &HostRuntime, words: &str, files: Files<'_>, left: &Left) -> anyhow::Result<()> {
    let alloc = rt.alloc();
    let status = left.status;
    let steps = left.steps;
    let cells = left.cells;
    println!(rt; "NOT SO: {words}")?;
    println!(rt; "{}", String::from_utf8_lossy(alloc, files.text)?)?;
    if let Some(history) = files.history {
        print!(rt; "{}", String::from_utf8_lossy(alloc, history)?)?;
    }
    print!(rt; "{}", String::from_utf8_lossy(alloc, left.out.as_slice())?)?;
    print!(rt; "{}", String::from_utf8_lossy(alloc, left.err.as_slice())?)?;
    println!(rt; "= {status}, {steps} steps, {cells} cells")?;
    Ok(())
}
