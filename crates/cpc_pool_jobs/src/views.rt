//! What each pass of the channel knows. No value of these is made.
use std::collections::LinkedList;

/// A job that a worker took.
pub struct Taken {
    /// The number of the worker.
    pub worker: u64,
    /// The number of the job.
    pub number: u64,
}

/// The list of a worker that has ended.
pub struct Kept {
    /// The number of the worker.
    pub worker: u64,
    /// The numbers of the jobs that it took, in order.
    pub taken: LinkedList<u64>,
}

/// What a pass knows: the submitter's what it sent, a worker's what it took.
pub struct View {
    /// It is the submitter's.
    pub submits: bool,
    /// It is a worker's.
    pub works: bool,
    /// The numbers of the jobs that were sent, in order.
    pub sent: LinkedList<u64>,
    /// How many stops were sent.
    pub stops: u64,
    /// How many workers were made.
    pub workers: u64,
    /// The lists of the workers that have ended.
    pub kept: LinkedList<Kept>,
    /// The worker's own number.
    pub number: u64,
    /// The numbers of the jobs that the worker took, in order.
    pub taken: LinkedList<u64>,
    /// All that was taken, in order, when the worker last took a job.
    pub seen: LinkedList<Taken>,
    /// The worker was told to stop.
    pub stopped: bool,
}
