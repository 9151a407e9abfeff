//! Types as trees have them: copies of them, their parts, and whether two are one.
#![tactic(auto)]

mod copies;
mod named;
mod shapes;

pub use copies::{copy_of, pointer_to};
pub use named::is_named;
pub use shapes::{
    is_condvar, is_reference, is_testable, is_void, kind_of, same_type, signature, tag_of,
};
