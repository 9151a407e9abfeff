//! Polls of a world, as they are recorded.
ghost use Rattle.std.specs.Prelude.{◌≡◌, ◌≤◌, ◌++◌, ◌∷◌, [], true, map, filter, IfOk, OnErr};
ghost use Rattle.cpc_base.specs.Outside.{Rose};
ghost use Rattle.cpc_base.specs.Stops.{IfFault};
ghost use Rattle.cpc_meaning.specs.History.{events_fit, polls_fit};
ghost use Rattle.cpc_history_marks.specs.Views.{told_of};
ghost use Rattle.cpc_world.specs.Worlds.{asked_of};
ghost use Rattle.cpc_live.specs.Turns.{IsMadeOf, dones, is_ready, poll_of};

use cpc_base::{Event, Failed, NoMemory, Stop};
use cpc_history_marks::Told;
use cpc_world::{Asked, World};
use std::alloc::Global;
use std::marker::Model;

/// The greatest clock of a poll, in microseconds.
const CLOCK_LIMIT: u64 = 9_007_199_254_740_992;

/// The greatest descriptor of a poll.
const DESCRIPTOR_LIMIT: i64 = 2_147_483_647;

/// The polls that a run made of what a world told it, oldest first. Contracts see the polls.
#[derive(Drop)]
pub struct Live {
    polls: Vec<Told>,
}

impl Model for Live {
    ghost use Rattle.std.specs.Prelude.{List, map};
    ghost use Rattle.cpc_tree.specs.Trace as T;
    ghost use Rattle.cpc_history_marks.specs.Views.{told_of};

    ghost Value = { List T.Told };

    ghost view = { λ live. map told_of live.polls.items };
}

// Whether an event is one of a descriptor within its limits.
fn is_ready(event: Event) -> bool
    ensures { result ≡ is_ready event }
{
    match event {
        Event::Done(_) => false,
        Event::Ready(descriptor, _) => 0 <= descriptor && descriptor <= DESCRIPTOR_LIMIT,
    }
}

// These sections are done, in this order. `NoMemory` is want of memory.
fn put_accepted(events: &mut Vec<Event>, accepted: &[u64]) -> Result<(), NoMemory>
    ensures { IfOk result (λ u. events.new.items ≡ events.old.items ++ dones accepted.now) }
{
    for section in accepted {
        events.push(Event::Done(*section))?;
    }
    Ok(())
}

// The events of descriptors that are within their limits, in their order. `NoMemory` is want of memory.
fn put_ready(events: &mut Vec<Event>, told: &[Event]) -> Result<(), NoMemory>
    ensures { IfOk result (λ u. events.new.items ≡ events.old.items ++ filter is_ready told.now) }
{
    for event in told {
        if is_ready(*event) {
            events.push(*event)?;
        }
    }
    Ok(())
}

// The poll that is made of what a world told, for a run for which these sections were accepted. `NoMemory` is want of memory.
fn made(alloc: Global, told: &Told, accepted: &[u64]) -> Result<Told, NoMemory>
    ensures { IfOk result (λ poll. told_of poll ≡ poll_of (told_of told.now) accepted.now) }
{
    let mut events = Vec::new(alloc);
    put_accepted(&mut events, accepted)?;
    put_ready(&mut events, told.events.as_slice())?;
    Ok(Told {
        clock: told.clock.min(CLOCK_LIMIT),
        events,
    })
}

/// The same poll once more. `NoMemory` is want of memory.
pub(crate) fn copied(alloc: Global, poll: &Told) -> Result<Told, NoMemory>
    ensures { IfOk result (λ copy. told_of copy ≡ told_of poll.now) }
{
    let mut events = Vec::new(alloc);
    events.extend_from_slice(poll.events.as_slice())?;
    Ok(Told {
        clock: poll.clock,
        events,
    })
}

impl Live {
    /// No poll was made yet.
    pub fn new(alloc: Global) -> Live
        ensures { result ≡ [] }
    {
        Live {
            polls: Vec::new(alloc),
        }
    }

    /// Asks the world once, and makes a poll of its answer: the clock that it tells, but at most 2^53; `Done` for each section that
    /// was accepted since the poll before, in order of acceptance; and then what it tells of descriptors from 0 to 2,147,483,647,
    /// in its order. What it tells of sections is dropped. The poll is put behind the recorded ones, and handed out.
    ///
    /// After an error the recorded polls are as before.
    ///
    /// - `Memory`: want of memory, here or of the world.
    /// - `Fault`: the world failed.
    pub fn turn<W: World>(
        &mut self,
        alloc: Global,
        world: &mut W,
        asked: &Asked,
        accepted: &[u64],
    ) -> Result<Told, Stop<Failed>>
        ensures made { IfOk result (λ poll. IsMadeOf (W.answers world.old) (W.answers world.new) (asked_of asked.entry.now) accepted.now (told_of poll)) }
        ensures recorded { IfOk result (λ poll. self.new ≡ self.old ++ told_of poll ∷ []) }
        ensures fits { events_fit (dones accepted.now) ≡ true → IfOk result (λ poll. polls_fit (told_of poll ∷ []) ≡ true) }
        ensures stays { OnErr result (self.new ≡ self.old) }
        ensures later { W.faults world.old ≤ W.faults world.new }
        ensures cause { IfFault result (λ failed. Rose (W.faults world.old) (W.faults world.new)) }
    {
        let told = world.poll(alloc, asked)?;
        let poll = made(alloc, &told, accepted)?;
        let kept = copied(alloc, &poll)?;
        self.polls.push(kept)?;
        Ok(poll)
    }

    /// The recorded polls, oldest first.
    pub fn polls(&self) -> &[Told]
        ensures { map told_of result.now ≡ self.now }
    {
        self.polls.as_slice()
    }
}
