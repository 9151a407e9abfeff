//! What every layer shares: names, places, and the traits by which a program meets the outside.
#![tactic(auto)]

mod decimals;
mod file;
mod names;
mod outside;
mod poll;
mod rows;
mod stop;

pub use decimals::put_decimal;
pub use file::{ReadFault, read_file, write_all};
pub use names::{Name, Names};
pub use outside::{Failed, Shelf, Sink};
pub use poll::{Direction, Event};
pub use rows::{are_bytes, is_none, unset};
pub use stop::{Dialect, NoMemory, Place, Stop, behind};
