//! The rules that speak of a whole function: its labels, its loops, its names, and how many variables and statements it has.
#![tactic(auto)]

mod counts;
mod entry;
mod labels;
mod loops;
mod reserved;
mod variables;
mod words;

pub use counts::{breadth, breadth_rules};
pub use entry::{is_main, main_rules};
pub use labels::{label_rules, repeated_rules};
pub use loops::loop_rules;
pub use reserved::name_rules;
pub use variables::many_rules;
pub use words::{label_words, local_words, parameter_words};
