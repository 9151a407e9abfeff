//! Tests alone: jobs over pools of several sizes, and two workers beside each other.
#![tactic(auto)]

#[cfg(test)]
mod sizes;
#[cfg(test)]
mod squares;
#[cfg(test)]
mod together;
