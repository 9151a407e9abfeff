//! How a piece of an event program begins: what it takes from its frame, what it loads and declares, and the boxes that it makes.
#![tactic(auto)]

mod calls;
mod front;
mod kept;
mod taking;

pub use front::opening;
pub use kept::owner_name;
