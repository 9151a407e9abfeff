//! What is called around each job.

/// A worker calls `before` ahead of a job, and `after` when its end is known. A test can hold workers here.
pub trait Gate: Drop {
    /// The job of this number is about to be run.
    fn before(&self, number: u64);

    /// The end of the job of this number is known.
    fn after(&self, number: u64);
}

/// Does nothing.
#[derive(Drop)]
pub struct NoGate;

impl Gate for NoGate {
    fn before(&self, _number: u64) {}

    fn after(&self, _number: u64) {}
}
