//! Scopes, and the types of expressions in them.
#![tactic(auto)]

mod assignment;
mod blocks;
mod expressions;
mod fields;
mod forms;
mod integers;
mod items;
mod meant;
mod names;
mod operators;
mod scope;
mod sizes;

pub use assignment::{assignable, takes_value};
pub use expressions::typing;
pub use forms::{
    arrow_form, binary_form, cast_form, choice_form, index_form, member_form, size_form, test_form,
    unary_form,
};
pub use integers::has_integers;
pub use meant::Meant;
pub use names::name_type;
pub use operators::{TypeFound, is_null, used};
pub use scope::Scope;
pub use sizes::{CELL_LIMIT, are_oversized, cells, is_sized};
