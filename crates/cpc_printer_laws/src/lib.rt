//! Laws of printing: what is printed is read back, has no parenthesis too many, can be spelled, and, where parameters'
//! pointers are brackets, nests no deeper than it was read.
#![tactic(auto)]

mod laws;

pub use laws::{prints_back, prints_fewest, prints_least, read_spellable};
