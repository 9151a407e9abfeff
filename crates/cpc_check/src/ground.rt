//! What all items of a program stand on.
use cpc_base::{Dialect, Names};

/// What is the same for all items of a program: the dialect, and the table of names.
#[derive(Drop)]
pub struct Ground<'s> {
    /// The dialect of the text.
    pub dialect: Dialect,
    /// The table of the program's names.
    pub names: &'s Names,
}
