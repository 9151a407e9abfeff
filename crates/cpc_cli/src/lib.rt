//! The top call: one command line, from its words to what it writes.
#![tactic(auto)]

mod answer;
mod reading;
mod running;
mod top;

pub use answer::{End, Inputs, Outcome, Report, Role};
pub use reading::{EVENT_TEXT_LIMIT, HISTORY_LIMIT, TEXT_LIMIT};
pub use top::cpc_main;
