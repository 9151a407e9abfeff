//! A sink in memory whose calls fail as planned.
ghost use Rattle.std.specs.Prelude.{◌≡◌, ◌↔◌, ◌≤◌, ◌++◌, ◌⊎◌, [], Some, false, IsTrue, IsErr, IfOk, OnOk, OnErr, length, take, min, max};
ghost use Rattle.cpc_base_memory.specs.Plan.{FailsNext};
ghost use Rattle.cpc_base_memory.specs.Memory.{after_put, after_refusal};

use crate::calls::Calls;
use cpc_base::{Failed, Sink};
use std::alloc::Global;
use std::marker::Model;

/// Takes bytes into memory, at most `most` a call but at least one, fails at the calls that `calls` names, and counts its faults. Want of memory is a fault too.
pub struct MemSink {
    bytes: Vec<u8>,
    most: usize,
    calls: Calls,
    faults: u64,
    starved: bool,
}

impl Drop for MemSink {
    fn drop(self) {
        let MemSink {
            bytes,
            most: _,
            calls,
            faults: _,
            starved: _,
        } = self;
        drop(bytes);
        drop(calls);
    }
}

impl Model for MemSink {
    ghost use Rattle.cpc_base_memory.specs.Memory.{HeldBytes};

    ghost Value = { HeldBytes };

    ghost view = { λ s. record { bytes = s.bytes.items; most = s.most; plan = s.calls; raised = s.faults; starved = s.starved } };
}

impl MemSink {
    /// A sink that has taken nothing, with no fault yet.
    pub fn new(alloc: Global, most: usize, calls: Calls) -> Self
        ensures { result ≡ record { bytes = []; most = most; plan = calls; raised = 0; starved = false } }
    {
        MemSink {
            bytes: Vec::new(alloc),
            most,
            calls,
            faults: 0,
            starved: false,
        }
    }

    /// The bytes taken so far.
    pub fn bytes(&self) -> &[u8]
        ensures { result.now ≡ self.now.bytes }
    {
        self.bytes.as_slice()
    }

    /// Whether the last call of `put` failed for want of memory.
    pub fn is_starved(&self) -> bool
        ensures { result ≡ self.now.starved }
    {
        self.starved
    }
}

impl Sink for MemSink {
    ghost taken = { λ s. Some s.bytes };

    ghost faults = { λ s. s.raised };

    /// Fails where the call's number is among those that are to fail, or memory is wanting.
    fn put(&mut self, piece: &[u8]) -> Result<usize, Failed>
        ensures size { IfOk result (λ n. n ≡ min (length piece.now) (max self.old.most 1)) }
        ensures fails { IsErr result ↔ (FailsNext self.old.plan ⊎ IsTrue self.new.starved) }
        ensures planned { FailsNext self.old.plan → self.new.starved ≡ false }
        ensures later { self.old.raised ≤ self.new.raised }
        ensures ok { IfOk result (λ n. self.new ≡ after_put self.old (take n piece.now)) }
        ensures err { OnErr result (self.new ≡ after_refusal self.old self.new.starved) }
    {
        let count = piece.len().min(self.most.max(1));
        let fails = self.calls.fails_next();
        self.starved = !fails && self.bytes.extend_from_slice(&piece[..count]).is_err();
        if fails || self.starved {
            self.faults = self.faults.saturating_add(1);
            return Err(Failed);
        }
        Ok(count)
    }
}
