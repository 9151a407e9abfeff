//! The objects of a call, and what it leaves: how they behave, the files, and the words of a line.
use cpc_base_memory::{Calls, MemFile, MemShelf};
use std::alloc::{AllocError, Global};

/// How the objects behave: the most bytes of a call, the number of the read, the put on `out` and the put on `err` that
/// fails, or 0, and that of the put on `out` that takes nothing.
#[derive(Clone, Copy)]
pub struct Setting {
    /// The most bytes of a call.
    pub most: u64,
    /// The read that fails.
    pub read: u64,
    /// The put on `out` that fails.
    pub put: u64,
    /// The put on `err` that fails.
    pub said: u64,
    /// The put on `out` that takes nothing.
    pub idle: u64,
}

/// The files of a call.
#[derive(Clone, Copy)]
pub struct Files<'a> {
    /// The text, the file `a.c`.
    pub text: &'a [u8],
    /// The history, the file `h`, where there is one.
    pub history: Option<&'a [u8]>,
}

/// What a call left.
pub struct Left {
    /// What it wrote on `out`.
    pub out: Vec<u8>,
    /// What it wrote on `err`.
    pub err: Vec<u8>,
    /// Its status.
    pub status: u8,
    /// The event steps that were made.
    pub steps: u64,
    /// The live cells behind them.
    pub cells: u64,
}

impl Drop for Left {
    fn drop(self) {
        let Left {
            out,
            err,
            status: _,
            steps: _,
            cells: _,
        } = self;
        drop(out);
        drop(err);
    }
}

/// So many bytes a call, and nothing fails.
pub fn steady(most: u64) -> Setting {
    Setting {
        most,
        read: 0,
        put: 0,
        said: 0,
        idle: 0,
    }
}

/// The calls that fail: that of this number, or none where it is 0.
///
/// # Errors
/// Where memory is wanting.
pub fn failing(alloc: Global, call: u64) -> Result<Calls, AllocError> {
    let mut calls = Vec::new(alloc);
    if call > 0 {
        calls.push(call)?;
    }
    Ok(Calls::new(calls))
}

fn file(alloc: Global, name: &str, bytes: &[u8]) -> Result<MemFile, AllocError> {
    Ok(MemFile {
        name: String::from_str(alloc, name)?,
        bytes: bytes.to_vec(alloc)?,
    })
}

/// The shelf that has the text under this name.
///
/// # Errors
/// Where memory is wanting.
pub fn shelf(
    alloc: Global,
    name: &str,
    files: Files<'_>,
    setting: Setting,
) -> Result<MemShelf, AllocError> {
    let mut held = Vec::new(alloc);
    held.push(file(alloc, name, files.text)?)?;
    if let Some(history) = files.history {
        held.push(file(alloc, "h", history)?)?;
    }
    Ok(MemShelf::new(held, setting.most as usize, failing(alloc, setting.read)?))
}

/// The words of a line; `''` is an empty one.
///
/// # Errors
/// Where memory is wanting.
pub fn words_of(alloc: Global, line: &str) -> Result<Vec<String>, AllocError> {
    let mut words = Vec::new(alloc);
    for word in line.split_whitespace() {
        words.push(String::from_str(alloc, if word == "''" { "" } else { word })?)?;
    }
    Ok(words)
}
