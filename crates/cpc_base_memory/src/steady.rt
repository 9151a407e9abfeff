//! A shelf in memory that never fails at a file that it holds.
ghost use Rattle.std.specs.Prelude.{◌≡◌, ◌≤◌, Some, length, true, is_some, IfOk, IsErrOf};
ghost use Rattle.cpc_base.specs.Outside.{IsLonger};
ghost use Rattle.cpc_base_memory.specs.Memory.{files_of};
ghost use Rattle.cpc_base.specs.declared.stop.Stop.TheVariants.{Fault};
ghost use Rattle.cpc_base.specs.declared.file.ReadFault.TheVariants.{TooLong, Unread};

use crate::mem_shelf::{MemFile, copy_piece, named};
use cpc_base::{Failed, ReadFault, Shelf, Stop, read_file};
use std::alloc::Global;
use std::marker::Model;

/// Files in memory. A name that is absent has faults; the count of a name that is held is always 0.
#[derive(Drop)]
pub struct SteadyShelf {
    files: Vec<MemFile>,
    misses: u64,
}

impl Model for SteadyShelf {
    ghost use Rattle.cpc_base_memory.specs.Memory.{SteadyFiles};

    ghost Value = { SteadyFiles };

    ghost view = { λ s. record { files = s.files.items; misses = s.misses } };
}

impl SteadyShelf {
    /// A shelf that holds `files`.
    pub fn new(files: Vec<MemFile>) -> Self
        ensures { result ≡ record { files = files.items; misses = 0 } }
    {
        SteadyShelf { files, misses: 0 }
    }

    /// Whether the shelf holds a file of this name.
    pub fn holds(&self, name: &str) -> bool
        ensures { result ≡ is_some (files_of self.now.files name.now) }
    {
        named(self.files.as_slice(), name).is_some()
    }
}

impl Shelf for SteadyShelf {
    ghost use Rattle.cpc_base_memory.specs.Memory.{files_of, miss_count};

    ghost files = { λ s. Some (files_of s.files) };

    ghost faults = { λ s name. miss_count s.files s.misses name };

    ghost asked = { λ _ _. 0 };

    fn read_at(&mut self, name: &str, offset: u64, into: &mut [u8]) -> Result<usize, Failed> {
        match named(self.files.as_slice(), name) {
            Some(file) => Ok(copy_piece(file.bytes.as_slice(), offset, into.len(), into)),
            None => {
                self.misses = self.misses.saturating_add(1);
                Err(Failed)
            }
        }
    }
}

/// Reads a file that the shelf holds, as `read_file` does. The shelf cannot fail at it: the answer is the file, or that it has more than `limit` bytes, or want of memory. Its files stay as they were.
pub fn read_held(
    alloc: Global,
    shelf: &mut SteadyShelf,
    name: &str,
    limit: usize,
) -> Result<Vec<u8>, Stop<ReadFault>>
    requires { is_some (files_of shelf.old.files name.now) ≡ true }
    ensures whole { IfOk result (λ bytes. files_of shelf.old.files name.now ≡ Some bytes.items) }
    ensures within { IfOk result (λ bytes. length bytes.items ≤ limit) }
    ensures too_long { IsErrOf result (Fault TooLong) → IsLonger (files_of shelf.old.files) name.now limit }
    ensures read { ¬ IsErrOf result (Fault Unread) }
    ensures stays { files_of shelf.new.files ≡ files_of shelf.old.files }
{
    read_file(alloc, shelf, name, limit)
}
