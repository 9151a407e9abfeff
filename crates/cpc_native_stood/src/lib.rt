//! Where a frame stands, and what its program is taken to be: definitions that the crates of steps cite.
#![tactic(auto)]
