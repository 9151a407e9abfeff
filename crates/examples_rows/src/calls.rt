//! The calls: the command over objects in memory, and the stages of reading that it has no words for.
use crate::idle::IdleSink;
use crate::setting::{Files, Left, Setting, failing, shelf, words_of};
use crate::top::{Refusal, Stages, Told};
use cpc_base::Stop;
use cpc_base_memory::{MemShelf, MemSink};
use std::alloc::{AllocError, Global};

// The sinks of this setting, `out` and `err`.
fn sinks(alloc: Global, setting: Setting) -> Result<(IdleSink, MemSink), AllocError> {
    let most = setting.most as usize;
    let taking = MemSink::new(alloc, most, failing(alloc, setting.put)?);
    let out = IdleSink::new(taking, failing(alloc, setting.idle)?);
    let err = MemSink::new(alloc, most, failing(alloc, setting.said)?);
    Ok((out, err))
}

// What a call left that told this.
fn left_by(alloc: Global, told: Told, out: &IdleSink, err: &MemSink) -> Result<Left, AllocError> {
    Ok(Left {
        out: out.bytes().to_vec(alloc)?,
        err: err.bytes().to_vec(alloc)?,
        status: told.status,
        steps: told.steps,
        cells: told.cells,
    })
}

/// Makes a call of the command over a shelf and over sinks of this setting.
///
/// # Errors
/// Where memory is wanting.
pub fn called<F>(
    call: &F,
    alloc: Global,
    words: &[String],
    mut shelf: MemShelf,
    setting: Setting,
) -> Result<Left, AllocError>
where
    F: Fn(
        Global,
        &[String],
        &mut MemShelf,
        &mut IdleSink,
        &mut MemSink,
    ) -> Result<Told, AllocError>,
    requires { F.IsAlwaysCallable call.now }
{
    let (mut out, mut err) = sinks(alloc, setting)?;
    let told = call(alloc, words, &mut shelf, &mut out, &mut err)?;
    left_by(alloc, told, &out, &err)
}

fn command<F>(
    call: &F,
    alloc: Global,
    line: &str,
    files: Files<'_>,
    setting: Setting,
) -> Result<Left, AllocError>
where
    F: Fn(
        Global,
        &[String],
        &mut MemShelf,
        &mut IdleSink,
        &mut MemSink,
    ) -> Result<Told, AllocError>,
    requires { F.IsAlwaysCallable call.now }
{
    let words = words_of(alloc, line)?;
    called(
        call,
        alloc,
        words.as_slice(),
        shelf(alloc, "a.c", files, setting)?,
        setting,
    )
}

// The words of a call of `exec` over the file `b.c`, with these behind it.
fn exec_words(alloc: Global, line: &str) -> Result<Vec<String>, AllocError> {
    let line = format!(in alloc; "exec b.c {line}")?;
    words_of(alloc, line.as_str())
}

// The text is translated, and what is printed stands in the file `b.c` of a call of `exec` with these words.
fn exec_printed<F>(
    call: &F,
    alloc: Global,
    line: &str,
    files: Files<'_>,
    setting: Setting,
) -> Result<Left, AllocError>
where
    F: Fn(
        Global,
        &[String],
        &mut MemShelf,
        &mut IdleSink,
        &mut MemSink,
    ) -> Result<Told, AllocError>,
    requires { F.IsAlwaysCallable call.now }
{
    let printed = command(call, alloc, "translate a.c", files, setting)?;
    if printed.status != 0 {
        return Ok(printed);
    }
    let words = exec_words(alloc, line)?;
    let again = Files {
        text: printed.out.as_slice(),
        history: files.history,
    };
    called(
        call,
        alloc,
        words.as_slice(),
        shelf(alloc, "b.c", again, setting)?,
        setting,
    )
}

// What is left where a stage of reading ends with these bytes.
fn ended(status: u8, out: Vec<u8>, err: Vec<u8>) -> Left {
    Left {
        out,
        err,
        status,
        steps: 0,
        cells: 0,
    }
}

fn refused(alloc: Global, refusal: Refusal) -> Result<Left, AllocError> {
    let line = refusal.place.line;
    let column = refusal.place.column;
    let stage = refusal.stage;
    let number = refusal.number;
    let name = refusal.name;
    let told = format!(in alloc; "refused {line}:{column} {stage} {number} {name}\n")?;
    Ok(ended(3, Vec::new(alloc), told.into_bytes()))
}

// What is left where a text is not read.
fn stopped(alloc: Global, stop: Stop<Refusal>) -> Result<Left, AllocError> {
    match stop {
        Stop::Memory => Err(AllocError),
        Stop::Fault(refusal) => refused(alloc, refusal),
    }
}

// A text is printed, and what is printed is printed as itself.
fn print_twice<S: Stages>(stages: &S, alloc: Global, text: &[u8]) -> Result<Left, AllocError> {
    match stages.print(alloc, text) {
        Ok(once) => match stages.print(alloc, &once) {
            Ok(twice) if twice == once => Ok(ended(0, once, Vec::new(alloc))),
            _ => Ok(ended(1, once, Vec::new(alloc))),
        },
        Err(stop) => stopped(alloc, stop),
    }
}

// A text is read as an event program.
fn read_event<S: Stages>(stages: &S, alloc: Global, text: &[u8]) -> Result<Left, AllocError> {
    match stages.read_event(alloc, text) {
        Ok(()) => Ok(ended(0, Vec::new(alloc), Vec::new(alloc))),
        Err(stop) => stopped(alloc, stop),
    }
}

/// Makes a call with these words: `:print` prints the text, `:event` reads it as an event program, `:exec WORDS` gives
/// `exec` what `translate` prints of it, and all others are the command's, where the file `a.c` has the text.
///
/// # Errors
/// Where memory is wanting.
pub fn make<S: Stages, F>(
    stages: &S,
    call: &F,
    alloc: Global,
    line: &str,
    files: Files<'_>,
    setting: Setting,
) -> Result<Left, AllocError>
where
    F: Fn(
        Global,
        &[String],
        &mut MemShelf,
        &mut IdleSink,
        &mut MemSink,
    ) -> Result<Told, AllocError>,
    requires { F.IsAlwaysCallable call.now }
{
    match line {
        ":print" => print_twice(stages, alloc, files.text),
        ":event" => read_event(stages, alloc, files.text),
        _ => match line.strip_prefix(":exec") {
            Some(words) => exec_printed(call, alloc, words, files, setting),
            None => command(call, alloc, line, files, setting),
        },
    }
}
