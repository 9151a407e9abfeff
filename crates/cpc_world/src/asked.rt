//! What a poll is asked.
use cpc_base::Direction;

/// What the items of a loop wait for that a poll tells.
#[derive(Drop)]
pub struct Asked {
    /// The greatest clock that was told, in microseconds: 0 before the first.
    pub now: u64,
    /// The least deadline of the timers, if there is one.
    pub deadline: Option<u64>,
    /// What each waiter for a descriptor waits for, in waiting order.
    pub descriptors: Vec<(i64, Direction)>,
    /// How many sections are out.
    pub sections: u64,
}
