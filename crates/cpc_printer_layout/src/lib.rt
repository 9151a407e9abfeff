//! Lays tokens out as text.
#![tactic(auto)]

mod joining;
mod page;
mod sheet;
mod spelling;

pub use page::text;
pub use sheet::{Lexeme, Sheet};
