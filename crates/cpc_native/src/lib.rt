//! The machine of code: a stack of calls over a store, which goes step by step.
#![tactic(auto)]

mod calls;
mod going;
mod machine;
mod next;

pub use machine::{Machine, Request, Stepped};
