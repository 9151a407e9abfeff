//! A shelf in memory whose calls fail as planned.
ghost use Rattle.std.specs.Prelude.{◌≡◌, ◌↔◌, ◌≤◌, ◌⊎◌, Some, IsNone, IsErr, IfOk, OnOk, OnErr, string_bytes, find, length};
ghost use Rattle.std.specs.Option.{option_copied};
ghost use Rattle.std.specs.Str.{bytes_eq};
ghost use Rattle.cpc_base.specs.Outside.{IsPiece, IsRead};
ghost use Rattle.cpc_base_memory.specs.Plan.{FailsNext};
ghost use Rattle.cpc_base_memory.specs.Memory.{files_of, piece_size, read_size, after_read, after_fault};

use crate::calls::Calls;
use cpc_base::{Failed, Shelf};
use std::marker::Model;

/// A file in memory. Of two files with one name a shelf shows the first.
pub struct MemFile {
    /// Its name, compared byte by byte.
    pub name: String,
    /// What it holds.
    pub bytes: Vec<u8>,
}

impl Drop for MemFile {
    fn drop(self) {
        let MemFile { name, bytes } = self;
        drop(name);
        drop(bytes);
    }
}

/// Files in memory. A read gives at most `most` bytes but at least one, fails at the calls that `calls` names, and counts its faults.
pub struct MemShelf {
    files: Vec<MemFile>,
    most: usize,
    calls: Calls,
    faults: u64,
}

impl Drop for MemShelf {
    fn drop(self) {
        let MemShelf {
            files,
            most: _,
            calls,
            faults: _,
        } = self;
        drop(files);
        drop(calls);
    }
}

impl Model for MemShelf {
    ghost use Rattle.cpc_base_memory.specs.Memory.{HeldFiles};

    ghost Value = { HeldFiles };

    ghost view = { λ s. record { files = s.files.items; most = s.most; plan = s.calls; raised = s.faults } };
}

/// The first file of a name.
pub(crate) fn named<'a>(files: &'a [MemFile], name: &str) -> Option<&'a MemFile>
    ensures { option_copied result ≡ find (λ file. bytes_eq name.now (string_bytes file.name)) files.now }
{
    files.iter().find(|file| name == file.name.as_str())
}

/// Copies what a file has from an offset on, at most `most` bytes but at least one, and says how many.
pub(crate) fn copy_piece(bytes: &[u8], offset: u64, most: usize, into: &mut [u8]) -> usize
    ensures piece { IsPiece bytes.now offset into.new result }
    ensures within { result ≤ length into.new }
    ensures size { result ≡ piece_size bytes.now offset (length into.new) most }
{
    let start = (offset as usize).min(bytes.len());
    let count = (bytes.len() - start).min(into.len()).min(most.max(1));
    into[..count].copy_from_slice(&bytes[start..start + count]);
    count
}

impl MemShelf {
    /// A shelf that holds `files`, with no fault yet.
    pub fn new(files: Vec<MemFile>, most: usize, calls: Calls) -> Self
        ensures { result ≡ record { files = files.items; most = most; plan = calls; raised = 0 } }
    {
        MemShelf {
            files,
            most,
            calls,
            faults: 0,
        }
    }
}

impl Shelf for MemShelf {
    ghost files = { λ s. Some (files_of s.files) };

    ghost faults = { λ s _. s.raised };

    ghost asked = { λ _ _. 0 };

    /// Fails where the call's number is among those that are to fail, or no file has this name.
    fn read_at(&mut self, name: &str, offset: u64, into: &mut [u8]) -> Result<usize, Failed>
        ensures within { IfOk result (λ n. n ≤ length into.new) }
        ensures bytes { IfOk result (λ n. IsRead (Some (files_of self.old.files)) name.now offset into.new n) }
        ensures size { IfOk result (λ n. read_size self.old name.now offset (length into.new) ≡ Some n) }
        ensures fails { IsErr result ↔ (FailsNext self.old.plan ⊎ IsNone (files_of self.old.files name.now)) }
        ensures later { self.old.raised ≤ self.new.raised }
        ensures ok { OnOk result (self.new ≡ after_read self.old) }
        ensures err { OnErr result (self.new ≡ after_fault self.old) }
    {
        let fails = self.calls.fails_next();
        match named(self.files.as_slice(), name) {
            Some(file) if !fails => Ok(copy_piece(file.bytes.as_slice(), offset, self.most, into)),
            _ => {
                self.faults = self.faults.saturating_add(1);
                Err(Failed)
            }
        }
    }
}
