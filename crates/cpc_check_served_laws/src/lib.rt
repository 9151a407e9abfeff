//! What programs that break no rule ask for: event programs only what the loop answers, and functions of the host as they are
//! declared. Laws alone: nothing of this crate runs.
#![tactic(auto)]

mod laws;

pub use laws::{accepted_are_served, accepted_ask_declared};
