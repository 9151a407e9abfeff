//! Texts to programs that break no rule, or to the one fault of a text; and to the event programs that have the same runs.
#![tactic(auto)]

mod events;
mod fault;
mod passes;
mod reading;
mod texts;
mod translating;

pub use fault::TextFault;
pub use reading::read;
pub use texts::{accept, laid_out};
pub use translating::{Translated, translate};
