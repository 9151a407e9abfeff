//! Sections: what is to be run, what it came to, and the cells that go back.
#![tactic(auto)]

mod back;
mod collected;
mod ending;
mod job;
mod read;

pub use back::write_to;
pub use collected::{Collected, Finished, collect_one};
pub use ending::{COPY, ended};
pub use job::{Job, SectionEnd};
pub use read::read_integers;
