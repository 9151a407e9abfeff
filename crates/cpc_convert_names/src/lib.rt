//! The table of names of an event program: the texts of its source, and those of what is made. All names are put into the table before any
//! tree is made, so that what a name means does not change while trees are.
#![tactic(auto)]

mod book;
mod called;
mod interned;
mod table;
mod words;

pub use book::Book;
pub use called::Called;
pub use table::table_of;
pub use words::{LoopWords, OwnWords};
