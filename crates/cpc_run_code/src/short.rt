//! Why the loop leaves a step unmade.
ghost use Rattle.std.specs.Prelude.{◌≡◌, ◌≤◌, IfSome, IfNone};
ghost use Rattle.cpc_run_code.specs.declared.short.Short.TheVariants.{Memory};
ghost use Rattle.cpc_run_code.specs.Shorts.{IsAbove};

use cpc_base::NoMemory;
use std::alloc::{AllocError, AllocFailed};

/// Why the loop leaves a step unmade.
#[derive(Clone, Copy)]
pub enum Short {
    /// Memory was wanting.
    Memory,
    /// So many cells would be live after the step, more than the cap.
    Beyond(u64),
}

/// Why a step is not made that would leave so many live cells, if they are above a cap: that, or want of memory for `u64::MAX`,
/// which stands for every greater number.
pub fn above(cells: u64, cap: u64) -> Option<Short>
    ensures some { IfSome result (λ short. IsAbove cap cells short) }
    ensures none { IfNone result (cells ≤ cap) }
{
    if cells <= cap {
        return None;
    }
    if cells == u64::MAX {
        return Some(Short::Memory);
    }
    Some(Short::Beyond(cells))
}

impl From<NoMemory> for Short {
    ghost from_gives = { λ _ short. short ≡ Memory };

    fn from(_error: NoMemory) -> Short {
        Short::Memory
    }
}

impl From<AllocError> for Short {
    ghost from_gives = { λ _ short. short ≡ Memory };

    fn from(_error: AllocError) -> Short {
        Short::Memory
    }
}

impl<T: Drop> From<AllocFailed<T>> for Short {
    ghost from_gives = { λ _ short. short ≡ Memory };

    fn from(_error: AllocFailed<T>) -> Short {
        Short::Memory
    }
}
