//! A pool whose workers run the sections of one program.
#![tactic(auto)]

mod runner;
mod same;
mod workers;

pub use cpc_run_sections::Assigned;
pub use runner::Sectioner;
pub use same::is_same;
pub use workers::{Workers, start};
