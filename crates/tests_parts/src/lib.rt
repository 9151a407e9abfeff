//! Tests alone: the parts, each by its public calls.
#![tactic(auto)]

#[cfg(test)]
mod base;
#[cfg(test)]
mod layout;
#[cfg(test)]
mod lexer;
#[cfg(test)]
mod num;
#[cfg(test)]
mod reading;
