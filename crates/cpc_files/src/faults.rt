//! How often the system failed.
ghost use Rattle.std.specs.Prelude.{◌≡◌, ◌≤◌, Ok, IsErr, MatchResult};
ghost use Rattle.cpc_base.specs.Outside.{one_more};

use cpc_base::Failed;
use std::io;

/// A count of failures.
#[derive(Drop)]
pub(crate) struct Faults {
    count: u64,
}

impl Faults {
    /// No failure so far.
    pub(crate) fn none() -> Self
        ensures { result.count ≡ 0 }
    {
        Faults { count: 0 }
    }

    /// Hands on how many bytes the system read or took, and counts each error.
    pub(crate) fn noted(&mut self, answer: io::Result<usize>) -> Result<usize, Failed>
        ensures noted { MatchResult answer
            (λ n. (result ≡ Ok n) × (self.new.count ≡ self.old.count))
            (λ _. IsErr result × (self.new.count ≡ one_more self.old.count)) }
        ensures later { self.old.count ≤ self.new.count }
    {
        match answer {
            Ok(count) => Ok(count),
            Err(_) => {
                self.count = self.count.saturating_add(1);
                Err(Failed)
            }
        }
    }
}
