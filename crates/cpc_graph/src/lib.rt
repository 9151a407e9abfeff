//! Flow graphs of cps functions: a node for each point, and where control goes from there.
#![tactic(auto)]

mod graphs;
mod joining;
mod labels;
mod linking;
mod marks;
mod numbers;
mod onward;

pub use graphs::graph;
