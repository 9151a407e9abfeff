//! The files of rows: calls over a text, each with what it has to write and how it has to end. A row that is not so is shown.
use crate::idle::IdleSink;
use crate::row::Row;
use crate::row_calls::take_line;
use crate::top::{Stages, Told};
use cpc_base_memory::{MemShelf, MemSink};
use std::alloc::{AllocError, Global};
use std::fs;

/// The files of rows, each with the texts of one subject.
const FILES: [&str; 30] = [
    "grammar.rows",
    "printed.rows",
    "rules.rows",
    "more_rules.rows",
    "events.rows",
    "limits.rows",
    "refusals.rows",
    "language.rows",
    "corners.rows",
    "types.rows",
    "values.rows",
    "bytes.rows",
    "globals.rows",
    "cells.rows",
    "bounds.rows",
    "faults.rows",
    "control.rows",
    "threads.rows",
    "waits.rows",
    "sections.rows",
    "workers.rows",
    "exec.rows",
    "hosts.rows",
    "sample.rows",
    "forms.rows",
    "command.rows",
    "failures.rows",
    "ends.rows",
    "hostile.rows",
    "largest.rows",
];

// Goes over a file of rows, and tells how many it has.
fn run_file<S: Stages, F>(rt: &HostRuntime, stages: &S, call: &F, name: &str) -> anyhow::Result<()>
where
    F: Fn(
        Global,
        &[String],
        &mut MemShelf,
        &mut IdleSink,
        &mut MemSink,
    ) -> Result<Told, AllocError>,
    requires { F.IsAlwaysCallable call.now }
{
    let alloc = rt.alloc();
    let path = format!(in alloc; "rows/{name}")?;
    let bytes = fs::read(rt, path.as_str())?;
    let mut row = Row::new(alloc);
    let mut line = Vec::new(alloc);
    for byte in bytes.iter() {
        if *byte == b'\n' {
            take_line(rt, stages, call, &mut row, line.as_slice())?;
            line.clear();
        } else {
            line.push(*byte)?;
        }
    }
    let rows = row.rows;
    let calls = row.calls;
    println!(rt; "{name}: {rows} rows, {calls} calls")?;
    Ok(())
}

/// Goes over all files of rows.
///
/// # Errors
/// Where memory is wanting, or a file cannot be read, or what is found cannot be shown.
pub fn run_files<S: Stages, F>(rt: &HostRuntime, stages: &S, call: &F) -> anyhow::Result<()>
where
    F: Fn(
        Global,
        &[String],
        &mut MemShelf,
        &mut IdleSink,
        &mut MemSink,
    ) -> Result<Told, AllocError>,
    requires { F.IsAlwaysCallable call.now }
{
    for name in FILES {
        run_file(rt, stages, call, name)?;
    }
    Ok(())
}
