//! What is to be done where a frame stands, and the values that it is done with: the arguments of a call not evaluated yet.
#![tactic(auto)]

mod below;
mod calls;
mod places;
mod plan;
mod rows;

pub use below::stopped;
pub use calls::{callee, parameters_of, value_called};
pub use plan::{Plan, arrives, found};
pub use rows::{Row, argument_at, parameter_at, passed, values};
