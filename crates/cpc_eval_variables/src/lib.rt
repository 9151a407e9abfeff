//! The variables of a function: its parameters and its locals, and which of them are registers.
#![tactic(auto)]

mod addresses;
mod registers;
mod scope;
mod walk;

pub use registers::{Variable, variables};
