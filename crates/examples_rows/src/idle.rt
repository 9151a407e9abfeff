//! A sink of which one call takes nothing.
ghost use Rattle.std.specs.Prelude.{None};

use cpc_base::{Failed, Sink};
use cpc_base_memory::{Calls, MemSink};

/// Takes bytes into memory, but none at the calls that `calls` names, where it answers 0. It counts these calls and those at
/// which the memory behind it fails, and tells nothing of content.
pub struct IdleSink {
    to: MemSink,
    calls: Calls,
    faults: u64,
}

impl Drop for IdleSink {
    fn drop(self) {
        let IdleSink {
            to,
            calls,
            faults: _,
        } = self;
        drop(to);
        drop(calls);
    }
}

impl IdleSink {
    /// A sink over this one, with no fault so far.
    pub fn new(to: MemSink, calls: Calls) -> Self {
        IdleSink {
            to,
            calls,
            faults: 0,
        }
    }

    /// The bytes taken so far.
    pub fn bytes(&self) -> &[u8] {
        self.to.bytes()
    }
}

impl Sink for IdleSink {
    ghost taken = { λ _. None };

    ghost faults = { λ s. s.faults };

    fn put(&mut self, piece: &[u8]) -> Result<usize, Failed> {
        if self.calls.fails_next() {
            self.faults = self.faults.saturating_add(1);
            return Ok(0);
        }
        match self.to.put(piece) {
            Ok(count) if count > 0 || piece.is_empty() => Ok(count),
            _ => {
                self.faults = self.faults.saturating_add(1);
                Err(Failed)
            }
        }
    }
}
