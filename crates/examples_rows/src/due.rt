//! What is due to a call, and whether it left that.
use crate::row::number;
use crate::setting::Left;

/// What is due to a call where nothing fails.
#[derive(Clone, Copy)]
pub struct Due<'a> {
    /// On `out`.
    pub out: &'a [u8],
    /// On `err`.
    pub err: &'a [u8],
    /// The status.
    pub status: u64,
}

/// How many calls of so many bytes this length takes.
pub fn calls_for(length: usize, most: u64) -> u64 {
    (length as u64)
        .saturating_add(most)
        .saturating_sub(1)
        .checked_div(most)
        .unwrap_or(0)
}

/// Whether a call left this.
pub fn is_left(left: &Left, status: u64, out: &[u8], err: &[u8]) -> bool {
    u64::from(left.status) == status && left.out.as_slice() == out && left.err.as_slice() == err
}

/// Whether a call left what is due where nothing fails.
pub fn is_due(left: &Left, due: Due<'_>) -> bool {
    is_left(left, due.status, due.out, due.err)
}

/// How many reads take all of a file; the last finds its end.
pub fn reads_for(file: &[u8], most: u64) -> u64 {
    calls_for(file.len(), most).saturating_add(1)
}

/// Whether a call whose put failed left a proper front of what is due, and more than the calls before it: they had so many
/// bytes, or none was made.
pub fn is_cut(left: &Left, due: Due<'_>, before: Option<usize>) -> bool {
    let length = left.out.len();
    let is_more = match before {
        Some(before) => before < length,
        None => length == 0,
    };
    let is_front = length < due.out.len() && due.out.starts_with(left.out.as_slice());
    let is_told = left.status == 9 && left.err.as_slice() == b"write fault\n".as_slice();
    is_more && is_front && is_told
}

/// Whether a call left so many steps or cells, where one of these is told.
fn is_counted(left: &Left, what: Option<&str>, count: Option<&str>) -> bool {
    let count = number(count.unwrap_or(""));
    match what.unwrap_or("") {
        "steps" => left.steps == count,
        "cells" => left.cells == count,
        other => other.is_empty(),
    }
}

/// Whether a call ended so.
pub fn ends(left: &Left, ending: &str) -> bool {
    let mut words = ending.split_whitespace();
    let status = number(words.next().unwrap_or(""));
    let what = words.next();
    let is_first = is_counted(left, what, words.next());
    let other = words.next();
    let is_second = is_counted(left, other, words.next());
    u64::from(left.status) == status && is_first && is_second
}
