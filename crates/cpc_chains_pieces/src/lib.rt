//! The pieces of an event program: the statements that are made of an owner of a cps function.
#![tactic(auto)]

mod making;
mod rows;

pub use cpc_chains_lines::Around;
pub use cpc_chains_opening::owner_name;
pub use making::statements;
