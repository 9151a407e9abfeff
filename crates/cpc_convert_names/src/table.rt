//! The table of a source once more.
ghost use Rattle.std.specs.Prelude.{◌≡◌, IfOk};

use cpc_base::{Name, Names, NoMemory};
use std::alloc::Global;

/// A table with the texts of another one, in the same order. `NoMemory` is want of memory.
pub fn table_of(alloc: Global, source: &Names) -> Result<Names, NoMemory>
    ensures { IfOk result (λ names. names ≡ source.now) }
{
    let mut names = Names::new(alloc);
    for number in 0..u64::MAX {
        match source.text(Name(number)) {
            Some(text) => {
                names.intern(alloc, text)?;
            }
            None => return Ok(names),
        }
    }
    // No table that memory holds is as long.
    Err(NoMemory)
}
