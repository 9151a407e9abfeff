//! Sections in native code.
#![tactic(auto)]

mod asked;
mod copies;
mod entered;
mod first;
mod run;

pub use copies::copy_of;
pub use run::run_section;
