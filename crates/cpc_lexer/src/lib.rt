//! Cuts a text into tokens (C11 6.4), or tells its first fault.
#![tactic(auto)]

mod byte;
mod comment;
mod fault;
mod front;
mod integer;
mod mark;
mod quoted;
mod text;
mod word;

pub use fault::LexFault;
pub use text::{end_of_text, tokens};
