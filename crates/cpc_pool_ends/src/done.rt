//! What comes back.

/// A job that a worker has done, with its end.
#[derive(Drop)]
pub struct Done<J, E> {
    /// The number of the worker.
    pub worker: u64,
    /// The job, as it was taken.
    pub job: J,
    /// What came of it.
    pub end: E,
}
