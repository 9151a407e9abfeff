//! Lifted programs to event programs.
#![tactic(auto)]

mod beginning;
mod converting;
mod parts;
mod pieces;

pub use converting::convert;
