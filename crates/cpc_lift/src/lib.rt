//! Lifting: which variables the frames of each piece of a cps function keep.
#![tactic(auto)]

mod gathering;
mod lifting;
mod links;
mod names;
mod uses;

pub use lifting::lift;
