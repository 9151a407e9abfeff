//! What is looked at: what a call tells, and the stages of reading that the command has no words for. The call itself is lent, as a closure
//! over objects in memory: so rows and examples do not stand on all that the program is made of.
use cpc_base::{Place, Stop};
use std::alloc::Global;

/// What a call reports.
#[derive(Clone, Copy)]
pub struct Told {
    /// Its status.
    pub status: u8,
    /// The event steps that were made.
    pub steps: u64,
    /// The live cells behind them.
    pub cells: u64,
}

/// Why a text is refused.
#[derive(Clone, Copy)]
pub struct Refusal {
    /// Where the fault stands.
    pub place: Place,
    /// The stage of reading that it stopped.
    pub stage: &'static str,
    /// Its number among the faults of that stage.
    pub number: u8,
    /// Its words.
    pub name: &'static str,
}

/// The stages of reading that the command has no words for.
pub trait Stages {
    /// A text of threads once more, as the printer lays its program out.
    ///
    /// # Errors
    /// With the fault of a text that is no program, and where memory is wanting.
    fn print(&self, alloc: Global, text: &[u8]) -> Result<Vec<u8>, Stop<Refusal>>;

    /// Reads a text as an event program.
    ///
    /// # Errors
    /// With the fault of a text that is not accepted, and where memory is wanting.
    fn read_event(&self, alloc: Global, text: &[u8]) -> Result<(), Stop<Refusal>>;
}
