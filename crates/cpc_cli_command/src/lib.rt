//! The words of the command line `cpc` is called with.
#![tactic(auto)]

mod build;
mod laws;
mod number;
mod words;

pub use laws::{asking_words, bounded_words, exec_words, other_words, taken_words};
pub use number::{
    DEFAULT_CELLS, DEFAULT_SECTION_STEPS, DEFAULT_STEPS, DEFAULT_WORKERS, MOST_CELLS,
    MOST_SECTION_STEPS, MOST_STEPS, MOST_THREADS, MOST_WORKERS,
};
pub use words::{Command, Options, Usage, read_words};
