//! The rows of a piece by their numbers: which nodes and which ways to other leaders it has, in which order, and which of them want a label.
//! Nothing here makes trees.
#![tactic(auto)]

mod flags;
mod laws;
mod leaders;
mod marks;
mod numbers;
mod rows;
mod stepped;
mod steps;
mod wanted;

pub use flags::{any_returns, any_waits};
pub use leaders::other_leaders;
pub use marks::{add_if, is_marked};
pub use numbers::row_numbers;
pub use rows::row_nodes;
pub use stepped::Stepped;
pub use steps::Step;
pub use wanted::{behind, wanted_rows};
