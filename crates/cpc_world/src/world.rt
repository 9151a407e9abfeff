//! The outside of a run that goes on.
ghost use Rattle.std.specs.Prelude.{◌≡◌, ◌≤◌, ℕ, List, Option, IfOk, OnErr};
ghost use Rattle.cpc_base.specs.Outside.{Rose};
ghost use Rattle.cpc_base.specs.Stops.{IfFault};
ghost use Rattle.cpc_world.specs.Worlds.{Answered, answered, with_answer};

use crate::asked::Asked;
use cpc_base::{Failed, Stop};
use cpc_history_marks::Told;
use std::alloc::Global;

/// Answers the polls of a run.
pub trait World {
    /// What was answered so far, oldest first, each answer with what it was asked, where the world tells that.
    ghost answers: { Self → Option (List Answered) };
    /// How often the world failed.
    ghost faults: { Self → ℕ };

    /// What the world tells to a run that asks this. A world may tell anything, also nothing new.
    ///
    /// - `Memory`: want of memory. Nothing was answered.
    /// - `Fault`: the world failed. Nothing was answered.
    fn poll(&mut self, alloc: Global, asked: &Asked) -> Result<Told, Stop<Failed>>
        ensures answer { IfOk result (λ told. answers self.new ≡ with_answer (answers self.old) (answered asked.entry.now told)) }
        ensures stays { OnErr result (answers self.new ≡ answers self.old) }
        ensures later { faults self.old ≤ faults self.new }
        ensures cause { IfFault result (λ failed. Rose (faults self.old) (faults self.new)) };
}
