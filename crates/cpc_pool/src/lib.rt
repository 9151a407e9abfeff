//! A pool of workers: threads that take jobs from a channel, run them, and bring their ends back by a queue.
#![tactic(auto)]

mod bell;
mod completions;
mod gate;
mod hands;
mod pool;
mod staff;
mod worker;

pub use bell::Bell;
pub use completions::Completions;
pub use gate::{Gate, NoGate};
pub use hands::Hands;
pub use pool::Pool;
pub use staff::Worker;
pub use worker::{Crew, Gives};
