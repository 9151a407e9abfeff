//! The lifted functions of an accepted program are its routines. Laws alone: nothing of this crate runs.
#![tactic(auto)]

mod laws;

pub use laws::{lifted_are_alike, lifted_are_complete, lifted_are_routines};
