//! Files that are opened by name as a shelf, and streams as sinks. They count each failure.
#![tactic(auto)]

mod faults;
mod opener;
mod shelf;
mod sink;

pub use opener::{Opener, SystemFiles};
pub use shelf::OpenedShelf;
pub use sink::StreamSink;
