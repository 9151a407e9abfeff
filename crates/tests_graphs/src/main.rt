//! Shows what the passes make of cps functions: their variables, their nodes with leaders and owners, and the closures of these.
#![tactic(auto)]

mod reading;
mod sheet;
mod shown;

use cpc_base::{NoMemory, Stop};
use shown::checked_shown;
use std::fs;

/// The texts, each with functions of one subject.
const FILES: [&str; 4] = ["loops.c", "jumps.c", "calls.c", "variables.c"];

// Shows the cps functions of a file.
fn show(rt: &HostRuntime, name: &str) -> anyhow::Result<()> {
    let alloc = rt.alloc();
    let text = fs::read(rt, name)?;
    println!(rt; "== {name}")?;
    match reading::read(alloc, text.as_slice()) {
        Ok(checked) => match checked_shown(alloc, &checked) {
            Ok(bytes) => print!(rt; "{}", String::from_utf8_lossy(alloc, bytes.as_slice())?)?,
            Err(NoMemory) => println!(rt; "no memory")?,
        },
        Err(Stop::Memory) => println!(rt; "no memory")?,
        Err(Stop::Fault(place)) => {
            let line = place.line;
            let column = place.column;
            println!(rt; "refused {line}:{column}")?;
        }
    }
    Ok(())
}

fn main(rt: HostRuntime) -> anyhow::Result<()> {
    for name in FILES {
        show(&rt, name)?;
    }
    Ok(())
}
