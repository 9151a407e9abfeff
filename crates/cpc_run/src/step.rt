//! What a step comes to.
use cpc_base::Name;
use cpc_num::Fault;
use cpc_run_shown::Outcome;

/// What a step comes to where nothing ran before it.
#[derive(Clone, Copy)]
pub(crate) enum Step {
    /// The run goes on.
    On,
    /// The run is over, and no poll was taken.
    Over(Outcome),
    /// The run is over: a poll was taken, and a section that it tells failed, in the code of a function.
    Broke(Fault, Name),
}
