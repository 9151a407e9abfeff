//! What each pass of the queue knows. No value of these is made.
use super::done::Done;
use std::collections::LinkedList;

/// The list of a worker that has ended.
pub struct DoneKept<J, E> {
    /// The number of the worker.
    pub worker: u64,
    /// The completions that it pushed, in order.
    pub pushed: LinkedList<Done<J, E>>,
}

/// What a pass knows: the loop's what it popped, a worker's what it pushed.
pub struct DoneView<J, E> {
    /// It is the loop's.
    pub pops: bool,
    /// It is a worker's.
    pub pushes: bool,
    /// The completions that were popped, in order.
    pub popped: LinkedList<Done<J, E>>,
    /// How many workers were made.
    pub workers: u64,
    /// The lists of the workers that have ended.
    pub kept: LinkedList<DoneKept<J, E>>,
    /// The worker's own number.
    pub number: u64,
    /// The completions that the worker pushed, in order.
    pub pushed: LinkedList<Done<J, E>>,
}
