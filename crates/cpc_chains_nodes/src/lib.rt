//! The lines of the nodes of a graph, and those that go to other leaders, written as statements one after the other.
#![tactic(auto)]

mod nodes;
mod statements;
mod waiting;

pub use nodes::{node, stub};
