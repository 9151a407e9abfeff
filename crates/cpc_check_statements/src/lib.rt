//! The rules that statements break.
#![tactic(auto)]

mod around;
mod assigned;
mod called;
mod locals;
mod places;
mod plain;
mod returned;
mod statements;
mod tested;

pub use around::Around;
pub use locals::start_rules;
pub use statements::body_rules;
