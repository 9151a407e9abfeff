//! What is written, word by word.
use cpc_base::NoMemory;
use std::alloc::Global;

/// What is written so far.
#[derive(Drop)]
pub(crate) struct Sheet {
    alloc: Global,
    bytes: Vec<u8>,
}

impl Sheet {
    /// Nothing.
    pub(crate) fn new(alloc: Global) -> Sheet {
        Sheet {
            alloc,
            bytes: Vec::new(alloc),
        }
    }

    /// All that is written.
    pub(crate) fn into_bytes(self) -> Vec<u8> {
        self.bytes
    }

    /// Writes these bytes.
    pub(crate) fn put(&mut self, bytes: &[u8]) -> Result<(), NoMemory> {
        self.bytes.extend_from_slice(bytes)?;
        Ok(())
    }

    /// Writes a text.
    pub(crate) fn say(&mut self, text: &str) -> Result<(), NoMemory> {
        self.put(text.as_bytes())
    }

    /// Writes a number.
    pub(crate) fn number(&mut self, number: usize) -> Result<(), NoMemory> {
        let text = format!(in self.alloc; "{number}")?;
        self.say(text.as_str())
    }

    /// Writes a number, or a dash where there is none.
    pub(crate) fn maybe(&mut self, number: Option<usize>) -> Result<(), NoMemory> {
        match number {
            Some(number) => self.number(number),
            None => self.say("-"),
        }
    }
}
