//! Items that begin to wait, and the conditions that they wait on.
ghost use Rattle.std.specs.Prelude.{◌≡◌, ◌+◌, ◌<◌, ◌^◌, IfErr, IfOk, OnOk, OnErr, Ok, Err};
ghost use Rattle.cpc_tree.specs.Erase.{Names};
ghost use Rattle.cpc_meaning.specs.Agenda as A;
ghost use Rattle.cpc_agenda.specs.Lists.{lists_of, counters_of, IsAsBefore};
ghost use Rattle.cpc_agenda.specs.Acts.{IfFaultBack};

use crate::agenda::Agenda;
use cpc_base::{Direction, NoMemory, Stop};
use cpc_num::Fault;
use std::alloc::Global;

/// The most sections that may be out.
const MOST_SECTIONS: usize = 1024;

impl<T: Drop> Agenda<T> {
    /// A new condition, whose number is told. `NoMemory` is want of memory, and leaves the agenda as it was.
    pub fn cond_new(&mut self, alloc: Global) -> Result<u64, NoMemory>
        requires { (counters_of self.old).conditions + 1 < 2 ^ 63 }
        ensures number { IfOk result (λ n. n ≡ (counters_of self.old).conditions) }
        ensures ok { OnOk result ((names : Names) → lists_of names self.new ≡ A.cond_new (lists_of names self.old)) }
        ensures counters { OnOk result (counters_of self.new ≡ record (counters_of self.old) { conditions = (counters_of self.old).conditions + 1 }) }
        ensures err { OnErr result (IsAsBefore self.old self.new) }
    {
        self.conds.make(alloc)
    }

    /// Releases a condition. `CondVar` says that it is not live, or that somebody waits on it, and leaves the agenda as it
    /// was.
    pub fn cond_free(&mut self, cond: u64) -> Result<(), Fault>
        ensures ok { OnOk result ((names : Names) → A.cond_free cond (lists_of names self.old) ≡ Ok (lists_of names self.new)) }
        ensures counters { counters_of self.new ≡ counters_of self.old }
        ensures fault { IfErr result (λ fault. (names : Names) → A.cond_free cond (lists_of names self.old) ≡ Err fault) }
        ensures err { OnErr result (IsAsBefore self.old self.new) }
    {
        match self.conds.release(cond) {
            Ok(()) => Ok(()),
            Err(_) => Err(Fault::CondVar),
        }
    }

    /// The item waits on a condition. A refusal comes with the item and leaves the agenda as it was: `CondVar` says that
    /// the condition is not live.
    pub fn wait(&mut self, cond: u64, item: T) -> Result<(), (T, Stop<Fault>)>
        requires { (counters_of self.old).on_conditions + 1 < 2 ^ 63 }
        ensures ok { OnOk result ((names : Names) → A.wait cond item (lists_of names self.old) ≡ Ok (lists_of names self.new)) }
        ensures counters { OnOk result (counters_of self.new ≡ record (counters_of self.old) { on_conditions = (counters_of self.old).on_conditions + 1 }) }
        ensures fault { IfFaultBack result (λ fault. (names : Names) → A.wait cond item (lists_of names self.old) ≡ Err fault) }
        ensures err { OnErr result (IsAsBefore self.old self.new) }
        ensures back { IfErr result (λ e. e.0 ≡ item) }
    {
        match self.conds.wait(cond, item) {
            Ok(()) => Ok(()),
            Err((item, Stop::Memory)) => Err((item, Stop::Memory)),
            Err((item, Stop::Fault(_))) => Err((item, Stop::Fault(Fault::CondVar))),
        }
    }

    /// The item waits for a length of time in microseconds. A refusal comes with the item and leaves the agenda as it was:
    /// `Length` says that the length is negative.
    pub fn sleep(&mut self, length: i64, item: T) -> Result<(), (T, Stop<Fault>)>
        requires { (counters_of self.old).timers + 1 < 2 ^ 63 }
        ensures ok { OnOk result ((names : Names) → A.sleep length item (lists_of names self.old) ≡ Ok (lists_of names self.new)) }
        ensures counters { OnOk result (counters_of self.new ≡ record (counters_of self.old) { timers = (counters_of self.old).timers + 1 }) }
        ensures fault { IfFaultBack result (λ fault. (names : Names) → A.sleep length item (lists_of names self.old) ≡ Err fault) }
        ensures err { OnErr result (IsAsBefore self.old self.new) }
        ensures back { IfErr result (λ e. e.0 ≡ item) }
    {
        if length < 0 {
            return Err((item, Stop::Fault(Fault::Length)));
        }
        let deadline = self.clock.after(length.unsigned_abs());
        match self.timers.add(deadline, item) {
            Ok(_) => Ok(()),
            Err((item, _)) => Err((item, Stop::Memory)),
        }
    }

    /// The item waits for a descriptor. `NoMemory` is want of memory: it comes with the item, and leaves the agenda as it
    /// was.
    pub fn io(
        &mut self,
        alloc: Global,
        fd: i64,
        way: Direction,
        item: T,
    ) -> Result<(), (T, NoMemory)>
        requires { (counters_of self.old).on_descriptors + 1 < 2 ^ 63 }
        ensures ok { OnOk result ((names : Names) → lists_of names self.new ≡ A.io fd way item (lists_of names self.old)) }
        ensures counters { OnOk result (counters_of self.new ≡ record (counters_of self.old) { on_descriptors = (counters_of self.old).on_descriptors + 1 }) }
        ensures err { OnErr result (IsAsBefore self.old self.new) }
        ensures back { IfErr result (λ e. e.0 ≡ item) }
    {
        self.descr.add(alloc, fd, way, item)
    }

    /// The item waits for the next section, whose number is told. A refusal comes with the item and leaves the agenda as it
    /// was: `Sections` says that 1,024 sections are out.
    pub fn section(&mut self, item: T) -> Result<u64, (T, Stop<Fault>)>
        requires { (counters_of self.old).sections + 1 < 2 ^ 63 }
        ensures number { IfOk result (λ n. n ≡ (counters_of self.old).sections) }
        ensures ok { OnOk result ((names : Names) → A.section item (lists_of names self.old) ≡ Ok (lists_of names self.new)) }
        ensures counters { OnOk result (counters_of self.new ≡ record (counters_of self.old) { sections = (counters_of self.old).sections + 1 }) }
        ensures fault { IfFaultBack result (λ fault. (names : Names) → A.section item (lists_of names self.old) ≡ Err fault) }
        ensures err { OnErr result (IsAsBefore self.old self.new) }
        ensures back { IfErr result (λ e. e.0 ≡ item) }
    {
        if self.sections.waiting() >= MOST_SECTIONS {
            return Err((item, Stop::Fault(Fault::Sections)));
        }
        match self.sections.submit(item) {
            Ok(number) => Ok(number),
            Err((item, _)) => Err((item, Stop::Memory)),
        }
    }
}
