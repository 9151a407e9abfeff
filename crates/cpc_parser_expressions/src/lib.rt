//! Reads expressions (C11 6.5).
#![tactic(auto)]

mod enclosed;
mod expressions;
mod nodes;
mod parts;
mod shape;
mod tokens;

pub use expressions::{arguments, expr, unary, whole_shape};
pub use shape::{Apart, Shape};
pub use tokens::{Behind, Prefix, begins_expr};
