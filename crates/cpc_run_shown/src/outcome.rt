//! How a run ends, and within which bounds it runs.
ghost use Rattle.std.specs.Prelude.{◌≡◌};
ghost use Rattle.cpc_meaning.specs.Start as S;

use cpc_base::Name;
use cpc_num::Fault;

/// How far a run may go.
#[derive(Clone, Copy)]
pub struct Limits {
    /// The most steps.
    pub steps: u64,
    /// The most live cells: of blocks, and of the variables of the running code that are registers.
    pub cells: u64,
    /// The most steps of a section.
    pub section_steps: u64,
}

/// How a run is over.
#[derive(Clone, Copy)]
pub enum Outcome {
    /// Nothing runs and nothing is ready; so many items wait.
    Ended(u64),
    /// The program left with this number.
    Exited(i128),
    /// A step failed, in the code of a function. A fault is told in the part of its name before the first two underscores.
    Failed(Fault, Name),
    /// A poll was wanted, and the history has no more.
    HistoryEnded,
    /// The next poll tells a section of this number that is not out at its turn: it is refused as a whole.
    BadHistory(u64),
}

/// Why a run was left.
#[derive(Clone, Copy)]
pub enum Ended {
    /// It is over.
    Over(Outcome),
    /// It made as many steps as it may.
    Steps,
    /// The next step would leave so many live cells, which are more than it may have; or the first state has them.
    Full(u64),
    /// The sink failed.
    WriteFault,
    /// Memory was wanting.
    Memory,
    /// No run was begun: this function of the host is declared, and the table has none of its name and arity.
    NoHost(Name),
}

/// How a run ended, the steps that it made, and the live cells and the polls that were taken after them.
#[derive(Clone, Copy)]
pub struct RunReport {
    /// Why it was left.
    pub ended: Ended,
    /// The steps.
    pub steps: u64,
    /// The live cells.
    pub cells: u64,
    /// The polls that were taken.
    pub polls: u64,
}

fn begins_with_underscores(text: &[u8]) -> bool
    ensures { result ≡ S.begins_with_underscores text.now }
{
    match text {
        [first, second, ..] => *first == b'_' && *second == b'_',
        _ => false,
    }
}

/// What stands before the first two underscores of a text, and the whole text where there are none.
pub fn before_underscores(text: &[u8]) -> &[u8]
    ensures { result.now ≡ S.before_underscores text.now }
{
    for i in 0..text.len() {
        if begins_with_underscores(&text[i..]) {
            return &text[..i];
        }
    }
    text
}
