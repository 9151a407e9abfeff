//! Positions in the body of a function: where a thread stands, and where it goes.
#![tactic(auto)]

mod control;
mod depths;
mod entering;
mod labels;
mod moves;
mod parts;
mod table;

pub use control::{Found, after, begin, standing};
pub use labels::{BodyTable, Labels};
pub use parts::{Part, Phase, Point};
