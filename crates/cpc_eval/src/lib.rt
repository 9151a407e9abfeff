//! Expressions in a call: what their names stand for, their types, their values and where they are.
//!
//! Where the definitions of `cpc_meaning` give an expression a value, a place or a type, so does this crate, and where they
//! give it a fault, that fault, the first from left to right; of an expression to which they give nothing, nothing is promised.
//!
//! The type of an expression comes with its value or its place (`Given`, `Located`), made of those of its parts, so that each is found
//! once. Types are found alone for the arm of `?:` that is not evaluated.
#![tactic(auto)]

mod around;
mod assigning;
mod named;
mod operands;
mod places;
mod results;
mod shapes;
mod typing;
mod values;

pub use around::{Around, Slot};
pub use assigning::assigned_at;
pub use named::located_name;
pub use operands::operate_on;
pub use places::Spot;
pub use results::{Given, Located};
pub use shapes::{Shape, Typed};
pub use typing::{place_of, used_if};
pub use values::{given, located, value};
