//! Items that become ready because a condition is signalled, a descriptor is ready or a time has come.
ghost use Rattle.std.specs.Prelude.{◌≡◌, ◌+◌, IsTrue, true, false, length, OnOk, OnErr, Ok, Err};
ghost use Rattle.std.specs.VecDeque.{deque_len, deque_capacity};
ghost use Rattle.cpc_tree.specs.Erase.{Names};
ghost use Rattle.cpc_conds.specs.Conditions.{is_live};
ghost use Rattle.cpc_meaning.specs.Agenda as A;
ghost use Rattle.cpc_agenda.specs.Lists.{lists_of, counters_of, IsAsBefore, HasRoom, polled};
ghost use Rattle.cpc_agenda.specs.Acts.{IfFault, waiters_woken, descriptors_woken};

use crate::agenda::{Agenda, NO_RESULT};
use cpc_base::{Direction, Stop};
use cpc_num::Fault;

impl<T: Drop> Agenda<T> {
    /// The longest waiter of a condition becomes ready, if there is one. A refusal leaves the agenda as it was: `CondVar`
    /// says that the condition is not live.
    pub fn signal(&mut self, cond: u64) -> Result<(), Stop<Fault>>
        ensures ok { OnOk result ((names : Names) → A.signal cond (lists_of names self.old) ≡ Ok (lists_of names self.new)) }
        ensures counters { counters_of self.new ≡ counters_of self.old }
        ensures fault { IfFault result (λ fault. (names : Names) → A.signal cond (lists_of names self.old) ≡ Err fault) }
        ensures err { OnErr result (IsAsBefore self.old self.new) }
    {
        self.ready.reserve(1)?;
        match self.conds.first(cond) {
            Ok(Some(item)) => {
                self.ready.push_back_reserved((item, NO_RESULT));
                Ok(())
            }
            Ok(None) => Ok(()),
            Err(_) => Err(Stop::Fault(Fault::CondVar)),
        }
    }

    /// All waiters of a condition become ready, in waiting order. A refusal leaves the agenda as it was: `CondVar` says
    /// that the condition is not live.
    pub fn signal_all(&mut self, cond: u64) -> Result<(), Stop<Fault>>
        ensures ok { OnOk result ((names : Names) → A.signal_all cond (lists_of names self.old) ≡ Ok (lists_of names self.new)) }
        ensures counters { counters_of self.new ≡ counters_of self.old }
        ensures fault { IfFault result (λ fault. (names : Names) → A.signal_all cond (lists_of names self.old) ≡ Err fault) }
        ensures err { OnErr result (IsAsBefore self.old self.new) }
    {
        if !self.conds.is_live(cond) {
            return Err(Stop::Fault(Fault::CondVar));
        }
        self.ready.reserve(self.conds.waiting() as usize)?;
        self.wake_waiters(cond);
        Ok(())
    }

    // All waiters of a live condition become ready.
    fn wake_waiters(&mut self, cond: u64)
        requires live { is_live cond self.old.conds ≡ true }
        requires room { HasRoom (length self.old.conds.waiters) self.old }
        ensures woken { (names : Names) → lists_of names self.new ≡ waiters_woken cond (lists_of names self.old) }
        ensures counters { counters_of self.new ≡ counters_of self.old }
    {
        'waiters: while self.wake_waiter(cond) {}
    }

    // The longest waiter of a live condition becomes ready, if there is one.
    fn wake_waiter(&mut self, cond: u64) -> bool
        requires live { is_live cond self.old.conds ≡ true }
        requires room { HasRoom (length self.old.conds.waiters) self.old }
        ensures live { is_live cond self.new.conds ≡ true }
        ensures room { HasRoom (length self.new.conds.waiters) self.new }
        ensures fewer { IsTrue result → length self.new.conds.waiters + 1 ≡ length self.old.conds.waiters }
        ensures woken { (names : Names) → waiters_woken cond (lists_of names self.new) ≡ waiters_woken cond (lists_of names self.old) }
        ensures over { result ≡ false → (names : Names) → waiters_woken cond (lists_of names self.new) ≡ lists_of names self.new }
        ensures counters { counters_of self.new ≡ counters_of self.old }
    {
        match self.conds.first(cond) {
            Ok(Some(item)) => {
                self.ready.push_back_reserved((item, NO_RESULT));
                true
            }
            Ok(None) => false,
            Err(_) => unreachable!(),
        }
    }

    /// All waiters of a descriptor in a direction become ready, in waiting order.
    pub(crate) fn wake_descriptor(&mut self, fd: i64, way: Direction)
        requires { HasRoom (polled self.old) self.old }
        ensures woken { (names : Names) → lists_of names self.new ≡ descriptors_woken fd way (lists_of names self.old) }
        ensures room { HasRoom (polled self.new) self.new }
        ensures counters { counters_of self.new ≡ counters_of self.old }
    {
        'waiters: while self.wake_one(fd, way) {}
    }

    // The longest waiter of a descriptor in a direction becomes ready, if there is one.
    fn wake_one(&mut self, fd: i64, way: Direction) -> bool
        requires { HasRoom (polled self.old) self.old }
        ensures room { HasRoom (polled self.new) self.new }
        ensures fewer { IsTrue result → length self.new.descr.waiters + 1 ≡ length self.old.descr.waiters }
        ensures woken { (names : Names) → descriptors_woken fd way (lists_of names self.new) ≡ descriptors_woken fd way (lists_of names self.old) }
        ensures over { result ≡ false → (names : Names) → descriptors_woken fd way (lists_of names self.new) ≡ lists_of names self.new }
        ensures counters { counters_of self.new ≡ counters_of self.old }
    {
        match self.descr.first(fd, way) {
            Some(item) => {
                self.ready.push_back_reserved((item, NO_RESULT));
                true
            }
            None => false,
        }
    }

    /// The items whose deadline is over become ready, by deadline and then by order of making.
    pub(crate) fn ring(&mut self)
        requires { HasRoom (polled self.old) self.old }
        ensures rung { (names : Names) → lists_of names self.new ≡ A.ring (lists_of names self.old) }
        ensures counters { counters_of self.new ≡ counters_of self.old }
    {
        'timers: while self.ring_one() {}
    }

    // The item whose deadline is over first becomes ready, if there is one.
    fn ring_one(&mut self) -> bool
        requires { HasRoom (polled self.old) self.old }
        ensures room { HasRoom (polled self.new) self.new }
        ensures fewer { IsTrue result → length self.new.timers.waiting + 1 ≡ length self.old.timers.waiting }
        ensures rung { (names : Names) → A.ring (lists_of names self.new) ≡ A.ring (lists_of names self.old) }
        ensures over { result ≡ false → (names : Names) → A.ring (lists_of names self.new) ≡ lists_of names self.new }
        ensures counters { counters_of self.new ≡ counters_of self.old }
    {
        let now = self.clock.micros();
        match self.timers.due(now) {
            Some(item) => {
                self.ready.push_back_reserved((item, NO_RESULT));
                true
            }
            None => false,
        }
    }
}
