//! Images of expressions: what they become in a generated function, by how their names are read there.
#![tactic(auto)]

mod copying;
mod held;
mod imaging;
mod readings;

pub use copying::{copies, copy, copy_if};
pub use held::{both, boxed, pushed};
pub use imaging::{image, image_if, images};
pub use readings::Readings;
