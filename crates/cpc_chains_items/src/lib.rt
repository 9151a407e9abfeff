//! The items of an event program, listed one after the other.
#![tactic(auto)]

mod driving;
mod items;
mod made;
mod native;
mod parts;
mod passing;
mod spawning;
mod structs;

pub use items::Items;
