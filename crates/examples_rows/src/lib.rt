//! The examples and the rows, gone over for any program: calls over a text, each with what it has to write and how it has to end.
#![tactic(auto)]

mod beside;
mod calls;
mod due;
mod failing;
mod files;
mod held;
mod idle;
mod row;
mod row_calls;
mod setting;
mod shown;
mod top;

pub use beside::show_beside;
pub use files::run_files;
pub use held::{Together, Watched};
pub use idle::IdleSink;
pub use shown::show_examples;
pub use top::{Refusal, Stages, Told};
