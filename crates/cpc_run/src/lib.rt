//! Runs of event programs over a history of polls: the loop that takes the items that are ready, and what the running code
//! asks of it.
#![tactic(auto)]

mod asked;
mod conditions;
mod hosts;
mod looped;
mod made;
mod memory;
mod open;
mod run;
mod sections;
mod step;
mod waits;

pub use cpc_run_shown::{Ended, Limits, Outcome, RunReport, before_underscores};
pub use hosts::missing_host;
pub use run::run_event;
