//! What is printed of the event program of an accepted text is read back as the event program. Laws alone: nothing of this crate runs.
#![tactic(auto)]

mod laws;

pub use laws::converted_reads_back;
