//! What is seen of a run: the polls that it is told, its marks, and how it stands.
#![tactic(auto)]

mod marks;

pub use marks::{Mark, Outcome, Told};
