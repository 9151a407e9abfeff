//! Opening files by name.
ghost use Rattle.std.specs.Prelude.{◌≡◌, Option, Some, None, IfOk};
ghost use Rattle.cpc_base.specs.Outside.{Files as Told, WhereTold};
ghost use Rattle.cpc_files.specs.Reads.{StandsAtFirst};

use std::io::{Read, Seek};
use std::rt::Files;
use std::{fs, io};

/// Opens files by name.
pub trait Opener {
    /// What a file is read through.
    type File: Read + Seek + Drop;

    /// The files, where the opener tells them.
    ghost files: { Self → Option Told };

    /// Opens the file of a name. It stands at its first byte, and what is read after a seek is what it holds from there on.
    fn open(&self, name: &str) -> io::Result<Self::File>
        ensures { IfOk result (λ file. WhereTold (files self.now) (λ files. (bytes : _) × (files name.now ≡ Some bytes)
            × StandsAtFirst Self.File.stream_position Self.File.stream_bytes Self.File.remaining bytes file)) };
}

/// The files of the system, which tells nothing of them.
#[derive(Clone, Copy)]
pub struct SystemFiles<'a, R>(
    /// The handle by which they are opened.
    pub &'a R,
);

impl<R: Files> Opener for SystemFiles<'_, R> {
    type File = R::File;

    ghost files = { λ _. None };

    fn open(&self, name: &str) -> io::Result<R::File> {
        fs::open(self.0, name)
    }
}
