//! Where programs that break no rule free a block, nothing is to get a value of that. Laws alone: nothing of this crate runs.
#![tactic(auto)]

mod laws;

pub use laws::accepted_free_alone;
