//! The store at the start: a block for each global.
#![tactic(auto)]

mod counts;
mod layouts;
mod making;
mod peeled;
mod starts;

pub use counts::global_cells;
pub use layouts::Layouts;
pub use making::{globals, make_block};
