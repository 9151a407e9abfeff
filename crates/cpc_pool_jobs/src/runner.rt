//! What a pool runs.
ghost use Rattle.std.specs.Prelude.{ℕ, ◌≡◌, ◌↔◌, IsTrue};

/// Runs jobs of one kind, one at a time in each of several threads.
///
/// The job of a number comes to one end, which its relation `ends` tells: whoever runs it, the end is that job's own.
pub trait Runner: Drop {
    /// What is asked.
    type Job: Drop;

    /// What comes of it.
    type End: Drop;

    /// The number of a job.
    ghost number: { Self.Job → ℕ };

    /// What a job has to meet so that it may be run.
    ghost meets: { Self.Job → Type 0 };

    /// That two jobs ask for the same.
    ghost same: { Self.Job → Self.Job → Type 0 };

    /// That the end is this job's.
    ghost ends: { Self.Job → Self.End → Type 0 };

    /// The number of a job.
    fn number_of(job: &Self::Job) -> u64
        ensures { result ≡ number job.now };

    /// Whether two jobs ask for the same: then an end of the first is an end of the second.
    fn is_same(first: &Self::Job, second: &Self::Job) -> bool
        ensures same { IsTrue result ↔ same first.now second.now }
        ensures ends { same first.now second.now → (e : Self.End) → ends first.now e → ends second.now e };

    /// Runs a job.
    fn run(&self, job: &Self::Job) -> Self::End
        requires { meets job.now }
        ensures { ends job.now result };
}
