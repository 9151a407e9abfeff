//! What a loop knows of whoever runs its sections: a place to submit them to, and to have their ends from.
#![tactic(auto)]

mod assigned;
mod sections;

pub use assigned::Assigned;
pub use cpc_native_sections::{copy_of, run_section};
pub use sections::Sections;
