//! What a run depends on of the polls of its history: those that its trace shows. Laws alone: nothing of this crate runs.
#![tactic(auto)]

mod laws;

pub use laws::{polls_are_shown, polls_that_are_shown_suffice};
