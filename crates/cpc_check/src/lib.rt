//! Checks programs: the first of the rules that one breaks, or that it breaks none; what its names stand for is found on the way, once.
#![tactic(auto)]

mod checked;
mod checking;
mod ground;
mod items;
mod starts;

pub use checked::Checked;
pub use checking::{are_distinct, check};
pub use ground::Ground;
pub use starts::global_start;
