//! Jobs by number.
ghost use Rattle.std.specs.Prelude.{◌≡◌, ℕ, cond, [], None, Some, IfSome, OnOk, OnErr};
ghost use Rattle.std.specs.BTreeMap.{is_at};
ghost use Rattle.std.specs.Ordering.{nat_cmp};
ghost use Rattle.cpc_run_jobs.specs.Under.{under};
ghost use Rattle.cpc_sections.specs.Jobs.{IsLawfulJob};

use cpc_base::NoMemory;
use cpc_sections::Job;
use std::alloc::Global;
use std::collections::BTreeMap;
use std::marker::Model;

/// Jobs, each under its number.
#[derive(Drop)]
pub(crate) struct Out {
    by_number: BTreeMap<u64, Job>,
}

impl Model for Out {
    ghost use Rattle.std.specs.Prelude.{ℕ, List};
    ghost use Rattle.std.specs.List.{All};
    ghost use Rattle.std.specs.Map.{values_of};
    ghost use Rattle.cpc_sections.specs.Jobs.{IsLawfulJob};
    ghost use Rattle.cpc_sections.specs.declared.job.Job.{Job};

    ghost Value = { List (ℕ × Job) };

    ghost view = { λ o. o.by_number.entries };

    ghost invariant = { λ o. All IsLawfulJob (values_of o.by_number.entries) };
}

impl Out {
    /// There are none.
    pub(crate) fn new(alloc: Global) -> Out
        ensures { result ≡ [] }
    {
        Out {
            by_number: BTreeMap::new(alloc),
        }
    }

    /// A job stands under its number. `NoMemory` is want of memory, and leaves all as it was.
    pub(crate) fn put(&mut self, job: Job) -> Result<(), NoMemory>
        requires { IsLawfulJob job }
        ensures ok { OnOk result ((n : ℕ) → under n self.new ≡ cond (is_at (nat_cmp job.number) n) (Some job) (under n self.old)) }
        ensures err { OnErr result (self.new ≡ self.old) }
    {
        match self.by_number.insert(job.number, job) {
            Ok(_) => Ok(()),
            Err(_) => Err(NoMemory),
        }
    }

    /// Takes out the job of a number; none where there is none.
    pub(crate) fn take(&mut self, number: u64) -> Option<Job>
        ensures job { result ≡ under number self.old }
        ensures taken { (n : ℕ) → under n self.new ≡ cond (is_at (nat_cmp number) n) None (under n self.old) }
        ensures lawful { IfSome result IsLawfulJob }
    {
        self.by_number.remove(&number)
    }
}
