//! What a text is found to be.
use cpc_base::{Dialect, Names, Stop};
use cpc_lexer::{end_of_text, tokens};
use cpc_parser::parse;
use cpc_printer::print;
use std::alloc::Global;

/// A program, or refused at a column of the first line with a number, or none of both.
#[derive(Clone, Copy, PartialEq, Eq)]
pub(crate) enum Answer {
    Program,
    Refused(u64, u8),
    Other,
}

/// What the text is. The tree of a program is let go of, however deep it is.
pub(crate) fn found(alloc: Global, text: &[u8], dialect: Dialect) -> Answer {
    let mut names = Names::new(alloc);
    let Ok(list) = tokens(alloc, text, dialect, &mut names) else {
        return Answer::Other;
    };
    match parse(alloc, list.as_slice(), end_of_text(text), dialect, names) {
        Ok(_) => Answer::Program,
        Err(Stop::Fault(fault)) => Answer::Refused(fault.place.column, fault.number),
        Err(Stop::Memory) => Answer::Other,
    }
}

/// The print of a text, or nothing where it is no program.
pub(crate) fn printed(alloc: Global, text: &[u8]) -> Vec<u8> {
    let mut names = Names::new(alloc);
    let Ok(list) = tokens(alloc, text, Dialect::Cpc, &mut names) else {
        return Vec::new(alloc);
    };
    let end = end_of_text(text);
    match parse(alloc, list.as_slice(), end, Dialect::Cpc, names) {
        Ok(program) => match print(alloc, &program) {
            Ok(bytes) => bytes,
            Err(_) => Vec::new(alloc),
        },
        Err(_) => Vec::new(alloc),
    }
}
