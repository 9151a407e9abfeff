//! What a function has of its own, in a table that is made once: its variables, what a name stands for at a place of its body, and
//! its labels. The table has no reference to the function, so that it can be kept beside it.
#![tactic(auto)]

mod counting;
mod locals;
mod looking;
mod marks;
mod variables;

pub use locals::{FunctionTable, Locals};
pub use looking::Local;
pub use variables::Variable;
