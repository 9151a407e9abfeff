//! The channel that carries jobs to the workers, under a rule: jobs are taken in the order in which they were sent, each by one worker.
#![tactic(auto)]

mod calls;
mod laws;
mod message;
mod rule;
mod runner;
mod views;

pub use calls::{
    Closed, JobPass, Receiver, Sender, Unsent, begin, hire, retire, send, send_stop, settle, take,
};
pub use laws::only_one;
pub use message::Message;
pub use rule::Rule;
pub use runner::Runner;
pub use views::{Kept, Taken, View};
