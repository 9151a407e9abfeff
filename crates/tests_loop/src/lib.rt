//! Tests alone: what the loop waits for, its histories, its hosts, its cells and sinks, each by its public calls.
#![tactic(auto)]

#[cfg(test)]
mod agenda;
#[cfg(test)]
mod history;
#[cfg(test)]
mod hosts;
#[cfg(test)]
mod sinks;
#[cfg(test)]
mod store;
