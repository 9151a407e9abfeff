//! A bell that threads ring and one thread waits for. No clause says that a wait ends.
use std::sync::{Condvar, Mutex, Wait};

/// How often it rang.
#[derive(Drop)]
pub struct Bell {
    rings: Mutex<u64>,
    rang: Condvar,
}

impl Bell {
    /// A bell that has not rung yet.
    pub fn new() -> Bell {
        Bell {
            rings: Mutex::new(0),
            rang: Condvar::new(),
        }
    }

    /// Rings, and wakes whoever waits.
    pub fn ring<R: Wait>(&self, rt: &R) {
        let mut rings = self.rings.lock(rt);
        *rings = (*rings).wrapping_add(1);
        self.rang.notify_all();
    }

    /// What one remembers before one looks whether there is something.
    pub fn heard<R: Wait>(&self, rt: &R) -> u64 {
        *self.rings.lock(rt)
    }

    /// Waits until it has rung since then.
    pub fn wait_past<R: Wait>(&self, rt: &R, heard: u64) {
        let _guard = self
            .rang
            .wait_while(rt, self.rings.lock(rt), |rings| *rings == heard);
    }
}
