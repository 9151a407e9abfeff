//! Files that are opened by name.
ghost use Rattle.std.specs.Prelude.{◌≡◌, ◌≤◌, length, IfOk, MatchResult};
ghost use Rattle.cpc_base.specs.Outside.{IsRead, one_more};

use crate::faults::Faults;
use crate::opener::Opener;
use cpc_base::{Failed, Shelf};
use std::io;
use std::io::{Read, Seek, SeekFrom};

/// The files of an opener, with one count of faults for all names.
#[derive(Drop)]
pub struct OpenedShelf<O> {
    opener: O,
    faults: Faults,
}

impl<O: Opener> OpenedShelf<O> {
    /// The files of an opener, with no fault so far.
    pub fn new(opener: O) -> Self
        ensures opener { result.opener ≡ opener }
        ensures none { result.faults.count ≡ 0 }
    {
        OpenedShelf {
            opener,
            faults: Faults::none(),
        }
    }
}

// Opens a file, and reads what stands in it from `offset` on.
fn read_piece<O: Opener>(opener: &O, name: &str, offset: u64, into: &mut [u8]) -> io::Result<usize>
    ensures within { IfOk result (λ n. n ≤ length into.new) }
    ensures bytes { IfOk result (λ n. IsRead (O.files opener.now) name.now offset into.new n) }
{
    let mut file = opener.open(name)?;
    file.seek(SeekFrom::Start(offset))?;
    file.read(into)
}

impl<O: Opener> Shelf for OpenedShelf<O> {
    ghost files = { λ s. O.files s.opener };

    ghost faults = { λ s _. s.faults.count };

    ghost asked = { λ _ _. 0 };

    /// An error is one fault more, and what was read is none.
    fn read_at(&mut self, name: &str, offset: u64, into: &mut [u8]) -> Result<usize, Failed>
        ensures within { IfOk result (λ n. n ≤ length into.new) }
        ensures bytes { IfOk result (λ n. IsRead (O.files self.old.opener) name.now offset into.new n) }
        ensures opener { self.new.opener ≡ self.old.opener }
        ensures later { self.old.faults.count ≤ self.new.faults.count }
        ensures counted { MatchResult result
            (λ _. self.new.faults.count ≡ self.old.faults.count)
            (λ _. self.new.faults.count ≡ one_more self.old.faults.count) }
    {
        let read = read_piece(&self.opener, name, offset, into);
        self.faults.noted(read)
    }
}
