//! What goes through the channel.

/// A job, or that the worker who receives it is to stop.
#[derive(Drop)]
pub enum Message<J> {
    /// The job is to be run.
    Work(J),
    /// The worker is to stop.
    Stop,
}
