//! The boxed form of a program: marks of registers, the names in scope at each point of a cps function, and how it is left.
#![tactic(auto)]

mod around;
mod boxing;
mod walk;

pub use boxing::boxed;
