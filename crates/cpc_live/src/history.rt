//! The polls of a history, as a run takes them.
ghost use Rattle.std.specs.Prelude.{◌≡◌, [], Some, true, map};
ghost use Rattle.cpc_meaning.specs.History.{polls_fit};
ghost use Rattle.cpc_history_marks.specs.Views.{told_of};

use crate::feed::Feed;
use crate::live::copied;
use cpc_base::{Failed, Stop};
use cpc_history_marks::Told;
use cpc_world::{Asked, World};
use std::alloc::Global;
use std::marker::Model;

/// The polls of a history, each within the limits, and how many of them were given. Contracts see those that were given and those
/// that are left.
#[derive(Drop)]
pub struct History<'p> {
    polls: &'p [Told],
    given: usize,
}

impl<'p> Model for History<'p> {
    ghost use Rattle.std.specs.Prelude.{◌≡◌, ◌≤◌, true, map, take, drop, length};
    ghost use Rattle.cpc_meaning.specs.History.{polls_fit};
    ghost use Rattle.cpc_history_marks.specs.Views.{told_of};
    ghost use Rattle.cpc_live.specs.Feeds.{Parts};

    ghost Value = { Parts };

    ghost view = { λ h. record { told = map told_of (take h.given h.polls.now); left = map told_of (drop h.given h.polls.now) } };

    ghost invariant = { λ h. polls_fit (map told_of (drop h.given h.polls.now)) ≡ true };
}

impl<'p> History<'p> {
    /// The polls of a history, none of which was given.
    pub fn new(polls: &'p [Told]) -> History<'p>
        requires { polls_fit (map told_of polls.now) ≡ true }
        ensures { result ≡ record { told = []; left = map told_of polls.now } }
    {
        History { polls, given: 0 }
    }
}

impl<'p> Feed for History<'p> {
    ghost told = { λ history. history.told };

    ghost left = { λ history. Some history.left };

    /// The world is left alone.
    fn next<W: World>(
        &mut self,
        alloc: Global,
        _world: &mut W,
        _asked: &Asked,
        _accepted: &[u64],
    ) -> Result<Option<Told>, Stop<Failed>> {
        let Some(poll) = self.polls.get(self.given) else {
            return Ok(None);
        };
        let copy = copied(alloc, poll)?;
        self.given += 1;
        Ok(Some(copy))
    }
}
