//! Runs the examples and shows what each writes, goes over the rows, and shows what is not as it has to be; and runs two sections at once.
#![tactic(auto)]

use cpc_base::{Dialect, NoMemory, Stop};
use cpc_base_memory::{MemShelf, MemSink};
use cpc_standard::{Report, called, called_with_gate};
use cpc_translate::{TextFault, accept, laid_out};
use examples_rows::{
    IdleSink, Refusal, Stages, Together, Told, Watched, run_files, show_beside, show_examples,
};
use std::alloc::{AllocError, Global};
use std::sync::Arc;

// What a call gives.
type Answered = Result<Told, AllocError>;

// The gate of two sections.
type Held = Arc<Together, Global>;

// What a report tells, where there is one.
fn told(report: Result<Report, NoMemory>) -> Answered {
    match report {
        Ok(report) => Ok(Told {
            status: report.status,
            steps: report.steps,
            cells: report.cells,
        }),
        Err(NoMemory) => Err(AllocError),
    }
}

// A fault as the rows have it.
fn refusal(stop: Stop<TextFault>) -> Stop<Refusal> {
    match stop {
        Stop::Memory => Stop::Memory,
        Stop::Fault(fault) => Stop::Fault(Refusal {
            place: fault.place(),
            stage: fault.stage(),
            number: fault.number(),
            name: fault.name(),
        }),
    }
}

// The stages of this repository.
#[derive(Drop)]
struct Proved;

impl Stages for Proved {
    fn print(&self, alloc: Global, text: &[u8]) -> Result<Vec<u8>, Stop<Refusal>> {
        match laid_out(alloc, text, Dialect::Cpc) {
            Ok(printed) => Ok(printed),
            Err(stop) => Err(refusal(stop)),
        }
    }

    fn read_event(&self, alloc: Global, text: &[u8]) -> Result<(), Stop<Refusal>> {
        match accept(alloc, text, Dialect::Event) {
            Ok(()) => Ok(()),
            Err(stop) => Err(refusal(stop)),
        }
    }
}

fn main(rt: HostRuntime) -> anyhow::Result<()> {
    let call = |alloc: Global, words: &[String], shelf: &mut MemShelf, out: &mut IdleSink, err: &mut MemSink| -> Answered {
        told(called(rt, alloc, words, shelf, out, err))
    };
    let held = |alloc: Global, words: &[String], shelf: &mut MemShelf, out: &mut Watched, err: &mut MemSink, gate: &Held| -> Answered {
        told(called_with_gate(rt, alloc, words, shelf, out, err, gate))
    };
    show_examples(&rt, &call)?;
    run_files(&rt, &Proved, &call)?;
    show_beside(&rt, &held)
}
