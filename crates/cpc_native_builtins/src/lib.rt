//! What primitives take, and which of them the loop answers.
#![tactic(auto)]

mod call;
mod taking;

pub use call::Call;
pub use taking::takes;
