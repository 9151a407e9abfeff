//! What one step of a frame does: assignments, calls, returns, requests and tests.
#![tactic(auto)]

mod act;
mod deeds;
mod detached;
mod fits;
mod taken;
mod writing;

pub use act::{Act, step};
