//! Which calls of an object in memory are to fail.
ghost use Rattle.std.specs.Prelude.{◌≡◌, ◌↔◌, IsTrue};
ghost use Rattle.cpc_base_memory.specs.Plan.{FailsNext, after_call};

use std::marker::Model;

/// Counts calls from 1, and knows the numbers of those that are to fail.
#[derive(Drop)]
pub struct Calls {
    failing: Vec<u64>,
    made: u64,
}

impl Model for Calls {
    ghost use Rattle.cpc_base_memory.specs.Plan.{Plan};

    ghost Value = { Plan };

    ghost view = { λ s. record { failing = s.failing.items; made = s.made } };
}

impl Calls {
    /// No call is made yet, and those of the numbers in `failing` are to fail. The first call has number 1.
    pub fn new(failing: Vec<u64>) -> Self
        ensures { result ≡ record { failing = failing.items; made = 0 } }
    {
        Calls { failing, made: 0 }
    }

    /// Counts a call, and says whether it is to fail. The count stands still at `u64::MAX`.
    pub fn fails_next(&mut self) -> bool
        ensures counted { self.new ≡ after_call self.old }
        ensures fails { IsTrue result ↔ FailsNext self.old }
    {
        self.made = self.made.saturating_add(1);
        self.failing.contains(&self.made)
    }
}
