//! The queue that brings completions back, under a rule: each arrives once, in the order in which its worker pushed it, with the end of its own job.
#![tactic(auto)]

mod calls;
mod done;
mod rule;
mod views;

pub use calls::{DoneOf, DonePass, DoneViewOf, Dones, begin, hire, pop, push, retire, settle};
pub use done::Done;
pub use rule::DoneRule;
pub use views::{DoneKept, DoneView};
