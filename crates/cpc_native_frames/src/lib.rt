//! The variables of a call: made when its function is entered, and freed when it is left.
#![tactic(auto)]

mod cells;
mod frame;
mod freeing;
mod making;

pub use cells::{call_cells, slots_cells};
pub use frame::{Frame, enter};
pub use freeing::leave;
pub use making::make_slots;
