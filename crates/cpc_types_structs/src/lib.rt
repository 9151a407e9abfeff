//! What items declare: an index of them by name, the first that declares each name, and their structs, with the cells of each.
#![tactic(auto)]

mod declared;
mod index;
mod items;
mod places;
mod structs;

pub use declared::Declared;
pub use index::Index;
pub use items::{definition_of, fields_of, name_of, tag_of};
pub use places::Places;
pub use structs::Structs;
