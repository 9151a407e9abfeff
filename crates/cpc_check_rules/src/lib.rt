//! The rules of the language: what scopes are, which pairs of place and rule a program breaks, and the first of them.
#![tactic(auto)]

mod first;
mod primitives;
mod rule;

pub use first::{Breach, First, noted_is_first};
pub use primitives::primitive_at;
pub use rule::Rule;
