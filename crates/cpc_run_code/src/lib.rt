//! The machine of code by the texts of names, what a loop takes up, and why it leaves a step unmade.
#![tactic(auto)]

mod code;
mod items;
mod short;

pub use code::Code;
pub use cpc_native::{Request, Stepped};
pub use cpc_native_laws::{checked_has_numbers, is_spelled_twice};
pub use items::{Callback, Item, waited_for};
pub use short::{Short, above};
