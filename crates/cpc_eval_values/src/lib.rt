//! Operators on values: what they give, or the fault.
#![tactic(auto)]

mod assignment;
mod numbers;
mod operators;
mod pointers;
mod truth;

pub use assignment::{
    Taken, all_long, assigned, assigned_scalar, at_scalar, at_type, scalar_of, set_integer,
    taken_as,
};
pub use numbers::{apply, on_numbers};
pub use operators::{Side, counted, operate};
pub use pointers::{distance, moved, moved_by, moved_up, ordered, pointed};
pub use truth::{holds, negated, same_value, truth_value};
