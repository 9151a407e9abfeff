//! What a program breaks item by item: the first of what stands in one item, and the first of what lies between items or in the whole.
#![tactic(auto)]

mod beside;
mod cut;
mod faults;
mod heads;
mod own;

pub use cut::parts_are_breaks;
pub use faults::{item_fault, program_fault};
pub use own::own_rules;
