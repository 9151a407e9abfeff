//! Tests alone: texts that are as long or as deep as they may be, and those that are more; and the types of a program.
#![tactic(auto)]

#[cfg(test)]
mod answers;
#[cfg(test)]
mod deep;
#[cfg(test)]
mod long;
#[cfg(test)]
mod types;
