//! The sections that are out: those that were submitted and that no poll has told. What runs them is lent to each call.
#![tactic(auto)]

mod ends;
mod jobs;
mod out;

pub use cpc_run_sections::Sections;
pub use jobs::Jobs;
