//! Statements once more, in which each spawn is a call of the spawner, and copies of rows of fields and of parameters.
#![tactic(auto)]

mod copying;
mod respawning;

pub use copying::{copy_fields, copy_parameters};
pub use respawning::respawn;
