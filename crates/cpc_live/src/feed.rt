//! What gives a run its polls.
ghost use Rattle.std.specs.Prelude.{◌≡◌, ◌≤◌, ◌∷◌, [], List, Option, None, true, IfOk, IfSome, OnErr};
ghost use Rattle.cpc_base.specs.Outside.{Rose};
ghost use Rattle.cpc_base.specs.Stops.{IfFault};
ghost use Rattle.cpc_tree.specs.Trace as T;
ghost use Rattle.cpc_meaning.specs.History.{events_fit, polls_fit};
ghost use Rattle.cpc_history_marks.specs.Views.{told_of};
ghost use Rattle.cpc_live.specs.Feeds.{Gives};
ghost use Rattle.cpc_live.specs.Turns.{dones};

use crate::live::{Live, copied};
use cpc_base::{Failed, Stop};
use cpc_history_marks::Told;
use cpc_world::{Asked, World};
use std::alloc::Global;

/// Gives a run its polls, one at a time.
pub trait Feed {
    /// The polls that were given so far, oldest first.
    ghost told: { Self → List T.Told };
    /// Those that are left, where they are known.
    ghost left: { Self → Option (List T.Told) };

    /// The next poll of a run that asks this, for which these sections were accepted since the poll before; none where none is
    /// left. Where polls come from a world, it is this one.
    ///
    /// After an error no poll was given.
    ///
    /// - `Memory`: want of memory.
    /// - `Fault`: the world failed.
    fn next<W: World>(
        &mut self,
        alloc: Global,
        world: &mut W,
        asked: &Asked,
        accepted: &[u64],
    ) -> Result<Option<Told>, Stop<Failed>>
        ensures given { IfOk result (λ poll. Gives poll (told self.old) (left self.old) (told self.new) (left self.new)) }
        ensures fits { events_fit (dones accepted.now) ≡ true → IfOk result (λ poll. IfSome poll (λ t. polls_fit (told_of t ∷ []) ≡ true)) }
        ensures stays { OnErr result (told self.new ≡ told self.old) }
        ensures left { OnErr result (left self.new ≡ left self.old) }
        ensures later { W.faults world.old ≤ W.faults world.new }
        ensures cause { IfFault result (λ failed. Rose (W.faults world.old) (W.faults world.new)) };
}

impl Feed for Live {
    ghost told = { λ live. live };

    ghost left = { λ _. None };

    fn next<W: World>(
        &mut self,
        alloc: Global,
        world: &mut W,
        asked: &Asked,
        accepted: &[u64],
    ) -> Result<Option<Told>, Stop<Failed>> {
        let poll = self.turn(alloc, world, asked, accepted)?;
        Ok(Some(poll))
    }
}
