//! The polls that a run is told, what its steps show, and how it stands.
use cpc_base::{Direction, Event};
use cpc_num::Fault;

/// A poll: a clock in microseconds, and events in order.
#[derive(Drop)]
pub struct Told {
    pub clock: u64,
    pub events: Vec<Event>,
}

/// What a step shows.
pub enum Mark {
    /// An output of bytes.
    Out(Vec<u8>),
    /// A call of a host function: its name, its arguments and its answer.
    Host(Vec<u8>, Vec<i64>, i64),
    /// A sleep of this length.
    Sleep(i64),
    /// A wait on the condition of this number.
    Wait(u64),
    /// A wait for a descriptor.
    Io(i64, Direction),
    /// A section was submitted: its number and its function's name.
    Section(u64, Vec<u8>),
    /// A poll was taken.
    Poll(Told),
}

impl Drop for Mark {
    fn drop(self) {
        match self {
            Mark::Out(part) => drop(part),
            Mark::Host(part0, part1, _) => {
                drop(part0);
                drop(part1);
            }
            Mark::Sleep(_) => {}
            Mark::Wait(_) => {}
            Mark::Io(_, _) => {}
            Mark::Section(_, part1) => drop(part1),
            Mark::Poll(_) => {}
        }
    }
}

/// How a run stands.
#[derive(Drop)]
pub enum Outcome {
    /// It goes on.
    Going,
    /// Nothing is left to run, and so many items wait on conditions.
    Ended(u64),
    /// It was ended by `cpc_exit`.
    Exit(i64),
    /// A fault in the function of this name.
    Fault(Fault, Vec<u8>),
    /// A poll was wanted, and the history has no more.
    HistoryEnded,
    /// A poll tells a section of this number that is not outstanding.
    BadHistory(u64),
}
