//! What one step of a frame does to the live cells, told before it is made.
#![tactic(auto)]

mod changes;
mod looked;
mod requested;

pub use changes::{Change, foreseen};
