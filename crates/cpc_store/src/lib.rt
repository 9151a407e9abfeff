//! The store: blocks of cells in four classes.
#![tactic(auto)]

mod blocks;
mod classes;
mod store;
mod values;

pub use blocks::suits;
pub use store::Store;
pub use values::{Block, Class, Scalar, Value};
