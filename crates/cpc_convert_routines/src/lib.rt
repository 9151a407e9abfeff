//! Cps functions with what is computed of them, whatever continuations are: their owners, closures and rows of nodes, and the names of what is made. Laws and definitions alone: nothing of this crate runs.
#![tactic(auto)]

mod laws;

pub use laws::closures_are_lifted;
