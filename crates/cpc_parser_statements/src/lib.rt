//! Reads statements (C11 6.8).
#![tactic(auto)]

mod class;
mod local;
mod making;
mod pieces;
mod right;
mod simple;
mod statement;

pub use statement::block;
