//! A gate that holds two workers until both have begun and the output has its first line, and the sink that takes it.
ghost use Rattle.std.specs.Prelude.{None};

use cpc_base::{Failed, Sink};
use cpc_pool::Gate;
use std::alloc::Global;
use std::sync::Arc;
use std::sync::atomic::{AtomicBool, Ordering};
use std::thread;

/// How often a worker looks before it gives up.
const MOST_TURNS: u32 = 10_000_000;

/// What the output begins with once both sections are out.
const FIRST: &[u8] = b"99\n";

/// Holds the sections of numbers 0 and 1, each until both are about to be run and the output has its first line.
#[derive(Drop)]
pub struct Together {
    first_began: AtomicBool,
    second_began: AtomicBool,
    line_is_out: AtomicBool,
    gave_up: AtomicBool,
}

impl Together {
    /// Nothing has begun.
    pub fn new() -> Together {
        Together {
            first_began: AtomicBool::new(false),
            second_began: AtomicBool::new(false),
            line_is_out: AtomicBool::new(false),
            gave_up: AtomicBool::new(false),
        }
    }

    /// Whether both sections were about to be run, by a worker each.
    pub fn both_began(&self) -> bool {
        self.first_began.load(Ordering::SeqCst) && self.second_began.load(Ordering::SeqCst)
    }

    /// Whether a worker gave up.
    pub fn has_given_up(&self) -> bool {
        self.gave_up.load(Ordering::SeqCst)
    }

    /// The output has its first line.
    fn shows(&self) {
        self.line_is_out.store(true, Ordering::SeqCst);
    }

    fn begins(&self, number: u64) {
        match number {
            0 => self.first_began.store(true, Ordering::SeqCst),
            1 => self.second_began.store(true, Ordering::SeqCst),
            _ => {}
        }
    }

    fn is_open(&self) -> bool {
        self.both_began() && self.line_is_out.load(Ordering::SeqCst)
    }
}

impl Gate for Together {
    fn before(&self, number: u64) {
        self.begins(number);
        if number > 1 {
            return;
        }
        for _ in 0..MOST_TURNS {
            if self.is_open() {
                return;
            }
            thread::yield_now();
        }
        self.gave_up.store(true, Ordering::SeqCst);
    }

    fn after(&self, _number: u64) {}
}

/// A sink in memory that tells the gate when it has taken the first line.
pub struct Watched {
    bytes: Vec<u8>,
    faults: u64,
    gate: Arc<Together, Global>,
}

impl Drop for Watched {
    fn drop(self) {
        let Watched {
            bytes,
            faults: _,
            gate,
        } = self;
        drop(bytes);
        drop(gate);
    }
}

impl Watched {
    /// A sink that has taken nothing.
    pub fn new(alloc: Global, gate: Arc<Together, Global>) -> Watched {
        Watched {
            bytes: Vec::new(alloc),
            faults: 0,
            gate,
        }
    }

    /// What was taken.
    pub fn bytes(&self) -> &[u8] {
        self.bytes.as_slice()
    }
}

impl Sink for Watched {
    ghost taken = { λ _. None };

    ghost faults = { λ s. s.faults };

    fn put(&mut self, piece: &[u8]) -> Result<usize, Failed> {
        if self.bytes.extend_from_slice(piece).is_err() {
            self.faults = self.faults.saturating_add(1);
            return Err(Failed);
        }
        if self.bytes.starts_with(FIRST) {
            self.gate.shows();
        }
        Ok(piece.len())
    }
}
