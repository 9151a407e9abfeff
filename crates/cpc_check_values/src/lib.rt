//! The rules that expressions and calls break.
#![tactic(auto)]

mod called;
mod fields;
mod names;
mod operators;
mod parts;
mod places;
mod primitives;
mod started;
mod suits;
mod values;
mod wants;
mod wheres;

pub use names::is_detached;
pub use operators::binary_rules;
pub use places::first_place;
pub use started::{Start, started_rules};
pub use values::{call_rules, value_rules};
pub use wheres::Where;
