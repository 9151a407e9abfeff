//! Runs of event programs with workers for their sections.
#![tactic(auto)]

mod run;

pub use cpc_run::{Ended, Limits, Outcome, before_underscores, missing_host};
pub use run::run_with_workers;
