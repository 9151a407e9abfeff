//! How runs end, and what goes out of them: the bytes that are output, or the lines of a trace.
#![tactic(auto)]

mod outcome;
mod shown;

pub use outcome::{Ended, Limits, Outcome, RunReport, before_underscores};
pub use shown::{put_host, put_last, put_output, put_poll, put_section, put_wait};
