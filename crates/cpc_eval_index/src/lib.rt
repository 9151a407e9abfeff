//! What the names of a program stand for, and the locals of its functions, found without going through its items.
#![tactic(auto)]

mod bodies;
mod ends;
mod fields;
mod index;
mod items;
mod meant;
mod offsets;
mod tables;

pub use index::{Index, ProgramTable};
pub use meant::Meant;
