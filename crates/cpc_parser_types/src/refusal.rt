//! Why tokens are no program.
ghost use Rattle.std.specs.Prelude.{◌≡◌, ◌≤◌};
ghost use Rattle.cpc_parser_types.specs.Views.{fault_name};
ghost use Rattle.cpc_parser_types.specs.declared.refusal.Refusal.TheVariants.{Memory};

use cpc_base::Place;
use std::alloc::{AllocError, AllocFailed};

/// The number of the fault that no program begins so.
pub const SYNTAX: u8 = 1;

/// The number of the fault that what is written nests too deep.
pub const DEEP: u8 = 2;

/// The fault of tokens that are no program.
#[derive(Clone, Copy)]
pub struct ParseFault {
    /// Where the first token stands at which no program is left, or the end of the text.
    pub place: Place,
    /// 1 where no program begins so, 2 where each that does nests too deep.
    pub number: u8,
    ghost first: { 1 ≤ number },
    ghost last: { number ≤ 2 },
}

impl ParseFault {
    /// How the fault is told: `syntax` or `deep`.
    pub fn name(&self) -> &'static str
        ensures { result.now ≡ fault_name self.now.number }
    {
        if self.number == SYNTAX {
            "syntax"
        } else {
            "deep"
        }
    }
}

/// Why a part was not read: want of memory, or a fault with the number of tokens from its place on.
#[derive(Drop)]
pub enum Refusal {
    Memory,
    Syntax(usize),
    Deep(usize),
}

impl From<AllocError> for Refusal {
    ghost from_gives = { λ _ refusal. refusal ≡ Memory };

    fn from(_error: AllocError) -> Refusal {
        Refusal::Memory
    }
}

impl<T: Drop> From<AllocFailed<T>> for Refusal {
    ghost from_gives = { λ _ refusal. refusal ≡ Memory };

    fn from(_error: AllocFailed<T>) -> Refusal {
        Refusal::Memory
    }
}
