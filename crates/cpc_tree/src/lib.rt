//! Programs as trees, and what they are without places.
#![tactic(auto)]

pub mod names;
pub mod primitive;
pub mod program;
pub mod token;
