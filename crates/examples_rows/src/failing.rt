//! Calls in which one thing fails: each read, each put on `out` and each put on `err` in turn; and calls over each front of
//! a text. A function gives what the first call left that is not so.
use crate::calls::make;
use crate::due::{Due, calls_for, is_cut, is_due, is_left, reads_for};
use crate::idle::IdleSink;
use crate::setting::{Files, Left, Setting, steady};
use crate::top::{Stages, Told};
use cpc_base_memory::{MemShelf, MemSink};
use std::alloc::{AllocError, Global};

/// Each read fails, of the text and then of the history, and none is made behind these.
///
/// # Errors
/// Where memory is wanting.
pub fn each_read<S: Stages, F>(
    stages: &S,
    call: &F,
    alloc: Global,
    line: &str,
    files: Files<'_>,
    due: Due<'_>,
    most: u64,
) -> Result<Option<Left>, AllocError>
where
    F: Fn(
        Global,
        &[String],
        &mut MemShelf,
        &mut IdleSink,
        &mut MemSink,
    ) -> Result<Told, AllocError>,
    requires { F.IsAlwaysCallable call.now }
{
    let of_text = reads_for(files.text, most);
    let of_history = match files.history {
        Some(history) => reads_for(history, most),
        None => 0,
    };
    let all = of_text.saturating_add(of_history);
    for read in 1..all.saturating_add(2) {
        let left = make(
            stages,
            call,
            alloc,
            line,
            files,
            Setting {
                read,
                ..steady(most)
            },
        )?;
        let is_so = if read <= of_text {
            is_left(&left, 8, b"", b"read fault: a.c\n")
        } else if read <= all {
            is_left(&left, 8, b"", b"read fault: h\n")
        } else {
            is_due(&left, due)
        };
        if !is_so {
            return Ok(Some(left));
        }
    }
    Ok(None)
}

/// Each put on `out` fails. Where a put takes a byte, there is one for each byte that is due.
///
/// # Errors
/// Where memory is wanting.
pub fn each_put<S: Stages, F>(
    stages: &S,
    call: &F,
    alloc: Global,
    line: &str,
    files: Files<'_>,
    due: Due<'_>,
    most: u64,
) -> Result<Option<Left>, AllocError>
where
    F: Fn(
        Global,
        &[String],
        &mut MemShelf,
        &mut IdleSink,
        &mut MemSink,
    ) -> Result<Told, AllocError>,
    requires { F.IsAlwaysCallable call.now }
{
    let last = (due.out.len() as u64).saturating_add(1);
    let mut before = None;
    for put in 1..last {
        let left = make(
            stages,
            call,
            alloc,
            line,
            files,
            Setting {
                put,
                ..steady(most)
            },
        )?;
        if most > 1 && is_due(&left, due) {
            return Ok(None);
        }
        if !is_cut(&left, due, before) {
            return Ok(Some(left));
        }
        before = Some(left.out.len());
    }
    let put = last;
    let left = make(
        stages,
        call,
        alloc,
        line,
        files,
        Setting {
            put,
            ..steady(most)
        },
    )?;
    Ok(if is_due(&left, due) { None } else { Some(left) })
}

/// Each put on `err` fails.
///
/// # Errors
/// Where memory is wanting.
pub fn each_said<S: Stages, F>(
    stages: &S,
    call: &F,
    alloc: Global,
    line: &str,
    files: Files<'_>,
    due: Due<'_>,
    most: u64,
) -> Result<Option<Left>, AllocError>
where
    F: Fn(
        Global,
        &[String],
        &mut MemShelf,
        &mut IdleSink,
        &mut MemSink,
    ) -> Result<Told, AllocError>,
    requires { F.IsAlwaysCallable call.now }
{
    let last = calls_for(due.err.len(), most).saturating_add(1);
    for said in 1..last.saturating_add(1) {
        let left = make(
            stages,
            call,
            alloc,
            line,
            files,
            Setting {
                said,
                ..steady(most)
            },
        )?;
        let length = said.saturating_sub(1).saturating_mul(most);
        let is_so = if said < last {
            let front = due.err.get(..length as usize).unwrap_or(b"");
            is_left(&left, 9, due.out, front)
        } else {
            is_due(&left, due)
        };
        if !is_so {
            return Ok(Some(left));
        }
    }
    Ok(None)
}

/// Each front of the text that is not all of it is refused.
///
/// # Errors
/// Where memory is wanting.
pub fn each_front<S: Stages, F>(
    stages: &S,
    call: &F,
    alloc: Global,
    line: &str,
    files: Files<'_>,
) -> Result<Option<Left>, AllocError>
where
    F: Fn(
        Global,
        &[String],
        &mut MemShelf,
        &mut IdleSink,
        &mut MemSink,
    ) -> Result<Told, AllocError>,
    requires { F.IsAlwaysCallable call.now }
{
    for length in 0..files.text.len() {
        let front = Files {
            text: files.text.get(..length).unwrap_or(b""),
            history: files.history,
        };
        let left = make(stages, call, alloc, line, front, steady(4096))?;
        let is_told = left.err.as_slice().starts_with(b"refused ");
        if !(left.status == 3 && left.out.is_empty() && is_told) {
            return Ok(Some(left));
        }
    }
    Ok(None)
}
