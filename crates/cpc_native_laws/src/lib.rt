//! The numbers of programs that are accepted, and texts for their names.
#![tactic(auto)]

mod laws;

pub use laws::{accepted_has_numbers, checked_has_numbers, is_spelled, is_spelled_twice};
