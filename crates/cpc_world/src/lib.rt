//! What a run asks of the outside while it goes on, and the trait by which the outside answers.
#![tactic(auto)]

mod asked;
mod world;

pub use asked::Asked;
pub use world::World;
