//! Items that are ready, those of the round, and those that wait.
ghost use Rattle.std.specs.Prelude.{◌≡◌, ◌+◌, ◌<◌, ◌≤◌, ◌^◌, IsTrue, [], ◌∷◌, IfErr, IfSome, IfNone, length, OnOk, OnErr};
ghost use Rattle.cpc_tree.specs.Erase.{Names};
ghost use Rattle.cpc_tree.specs.Lists.{is_empty};
ghost use Rattle.cpc_meaning.specs.Agenda as A;
ghost use Rattle.cpc_agenda.specs.Lists.{due_of, lists_of, counters_of, IsAsBefore, AreBelow};

use crate::clock::Clock;
use crate::sections::Sections;
use cpc_base::NoMemory;
use cpc_conds::Conds;
use cpc_descr::Descr;
use cpc_num::Kind;
use cpc_store::Value;
use cpc_timers::Timers;
use std::alloc::Global;
use std::collections::VecDeque;

/// What an item gets that waits for nothing, or whose wait gives no other value: the int 0.
pub(crate) const NO_RESULT: Value = Value::Int(Kind::Int, 0);

/// Below this a counter has numbers left.
const MOST_NUMBERS: u64 = 1 << 62;

/// Items that are ready, in the order in which they became so; those of the round that have not had their turn yet; and
/// those that wait, each for a condition, a time, a descriptor or a section.
///
/// An item is a callback with its pointer, or whatever else the loop takes up again.
pub struct Agenda<T> {
    pub(crate) ready: VecDeque<(T, Value)>,
    pub(crate) round: VecDeque<(T, Value)>,
    pub(crate) conds: Conds<T>,
    pub(crate) descr: Descr<T>,
    pub(crate) timers: Timers<T>,
    pub(crate) sections: Sections<T>,
    pub(crate) clock: Clock,
}

impl<T: Drop> Drop for Agenda<T> {
    fn drop(self) {
        let Agenda {
            ready,
            round,
            conds,
            descr,
            timers,
            sections,
            clock,
        } = self;
        drop(ready);
        drop(round);
        drop(conds);
        drop(descr);
        drop(timers);
        drop(sections);
        drop(clock);
    }
}

impl<T: Drop> Agenda<T> {
    /// Nothing is there.
    pub fn new(alloc: Global) -> Agenda<T>
        ensures lists { (names : Names) → lists_of names result ≡ A.new_agenda }
        ensures counters { counters_of result ≡ record { conditions = 0; timers = 0; sections = 0; on_conditions = 0; on_descriptors = 0 } }
    {
        Agenda {
            ready: VecDeque::new(alloc),
            round: VecDeque::new(alloc),
            conds: Conds::new(alloc),
            descr: Descr::new(alloc),
            timers: Timers::new(alloc),
            sections: Sections::new(alloc),
            clock: Clock::new(),
        }
    }

    /// An item becomes ready, behind all that are. `NoMemory` is want of memory: it comes with the item, and leaves the
    /// agenda as it was.
    pub fn ready(&mut self, item: T) -> Result<(), (T, NoMemory)>
        ensures ready { OnOk result ((names : Names) → lists_of names self.new ≡ A.ready_one item (lists_of names self.old)) }
        ensures counters { counters_of self.new ≡ counters_of self.old }
        ensures err { OnErr result ((names : Names) → lists_of names self.new ≡ lists_of names self.old) }
        ensures back { IfErr result (λ e. e.0 ≡ item) }
    {
        match self.ready.push_back((item, NO_RESULT)) {
            Ok(()) => Ok(()),
            Err(failed) => {
                let (item, _) = failed.value;
                Err((item, NoMemory))
            }
        }
    }

    /// The ready items become the round, whose own items all had their turn.
    pub fn begin_round(&mut self)
        requires { (names : Names) → (lists_of names self.old).round ≡ [] }
        ensures lists { (names : Names) → lists_of names self.new ≡ A.begin_round (lists_of names self.old) }
        ensures counters { counters_of self.new ≡ counters_of self.old }
    {
        std::mem::swap(&mut self.ready, &mut self.round);
    }

    /// The next item of the round, with the result of its wait; none where all had their turn.
    pub fn next(&mut self) -> Option<(T, Value)>
        ensures next { IfSome result (λ x. (names : Names) → lists_of names self.old ≡ record (lists_of names self.new) { round = due_of names x ∷ (lists_of names self.new).round }) }
        ensures none { IfNone result ((names : Names) → ((lists_of names self.old).round ≡ []) × (lists_of names self.new ≡ lists_of names self.old)) }
        ensures counters { counters_of self.new ≡ counters_of self.old }
    {
        self.round.pop_front()
    }

    /// Whether nothing is ready.
    pub fn is_idle(&self) -> bool
        ensures { (names : Names) → result ≡ is_empty (lists_of names self.now).ready }
    {
        self.ready.is_empty()
    }

    /// Whether a timer, a descriptor wait or a section is outstanding, so that a new round waits for a poll.
    pub fn needs_poll(&self) -> bool
        ensures { (names : Names) → result ≡ A.needs_poll (lists_of names self.now) }
    {
        self.timers.waiting() > 0 || self.descr.waiting() > 0 || self.sections.waiting() > 0
    }

    /// The greatest clock that was told, in microseconds: 0 before the first, and at most 2^53.
    pub fn now(&self) -> u64
        ensures value { (names : Names) → result ≡ (lists_of names self.now).now }
        ensures bounded { result ≤ 2 ^ 53 }
    {
        self.clock.micros()
    }

    /// How many items wait on conditions.
    pub fn waiting(&self) -> u64
        ensures { (names : Names) → result ≡ length (lists_of names self.now).waiters }
    {
        self.conds.waiting()
    }

    /// Whether each counter has numbers left. It always has where fewer than 2^62 acts were made.
    pub fn has_numbers(&self) -> bool
        ensures conditions { IsTrue result → (counters_of self.now).conditions + 1 < 2 ^ 63 }
        ensures timers { IsTrue result → (counters_of self.now).timers + 1 < 2 ^ 63 }
        ensures sections { IsTrue result → (counters_of self.now).sections + 1 < 2 ^ 63 }
        ensures on_conditions { IsTrue result → (counters_of self.now).on_conditions + 1 < 2 ^ 63 }
        ensures on_descriptors { IsTrue result → (counters_of self.now).on_descriptors + 1 < 2 ^ 63 }
        ensures enough { AreBelow (2 ^ 62) (counters_of self.now) → IsTrue result }
    {
        self.conds.made() < MOST_NUMBERS
            && self.conds.arrived() < MOST_NUMBERS
            && self.descr.arrived() < MOST_NUMBERS
            && self.timers.made() < MOST_NUMBERS
            && self.sections.made() < MOST_NUMBERS
    }
}
