//! Reads types and declarators (C11 6.7), and has what all readers of tokens share: single tokens and refusals.
#![tactic(auto)]

mod base;
mod behind;
mod brackets;
mod code;
mod marks;
mod refusal;
mod types;

pub use base::{Base, base_type, begins_base, stars};
pub use behind::{added, boxed, deep_behind, fault_behind, refused};
pub use brackets::array;
pub use marks::{
    Operator, assigning, begins_mark, begins_name, begins_word, deep, deeper, expect_mark,
    expect_word, fault, first_mark, first_word, name, stepping, tiered,
};
pub use refusal::{DEEP, ParseFault, Refusal, SYNTAX};
pub use types::{declarator, parameters, type_name};
