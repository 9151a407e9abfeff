//! Prints programs as C.
#![tactic(auto)]

mod depth;
mod expressions;
mod items;
mod nesting;
mod rank;
mod statements;
mod text;
mod types;

pub use text::print;
