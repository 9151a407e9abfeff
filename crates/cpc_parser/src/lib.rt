//! Reads tokens as a program (C11 6.5 to 6.9), or tells the first token at which none is left.
#![tactic(auto)]

mod declaration;
mod first;
mod function;
mod initial;
mod item;
mod program;
mod structure;

pub use cpc_parser_types::ParseFault;
pub use program::parse;
