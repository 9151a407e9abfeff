//! The lines of the pieces of an event program, written as statements one after the other.
#![tactic(auto)]

mod around;
mod arriving;
mod frames;
mod leaving;
mod out;
mod simple;
mod trees;
mod ways;

pub use around::{Around, closure, label, local, local_type, piece, readings, tag};
pub use arriving::{arriving_at, load, load_arriving, target};
pub use frames::{ask_block, begin_frame, make_frame};
pub use leaving::{hand_nothing, hand_over, leave};
pub use out::Out;
pub use trees::{any_pointer, field, frame_through, is_there, named, size_of, to_struct, zero};
pub use ways::{go_on, goto_where, pass};
