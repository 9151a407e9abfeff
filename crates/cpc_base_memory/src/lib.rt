//! Shelves and a sink in memory, whose calls fail as planned.
#![tactic(auto)]

mod calls;
mod mem_shelf;
mod mem_sink;
mod steady;

pub use calls::Calls;
pub use mem_shelf::{MemFile, MemShelf};
pub use mem_sink::MemSink;
pub use steady::{SteadyShelf, read_held};
