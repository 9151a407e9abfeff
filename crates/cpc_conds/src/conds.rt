//! Conditions, and the items that wait on them.
ghost use Rattle.std.specs.Prelude.{◌≡◌, ◌+◌, ◌<◌, ◌^◌, ◌⊎◌, true, false, length, IfOk, IfErr, OnOk, OnErr};
ghost use Rattle.std.specs.Option.{option_map};
ghost use Rattle.cpc_base.specs.declared.stop.Stop.TheVariants.{Memory, Fault};
ghost use Rattle.cpc_agenda_queues.specs.Queued.{first_of};
ghost use Rattle.cpc_conds.specs.Conditions as M;

use cpc_agenda_queues::Queues;
use cpc_base::{NoMemory, Stop};
use std::alloc::Global;
use std::marker::Model;

/// The condition is not live, or it is released with waiters.
#[derive(Clone, Copy)]
pub struct CondFault;

/// Conditions, numbered from 0 in order of making, and the items that wait on them.
///
/// The waiters of each condition stand in a queue of its own.
#[derive(Drop)]
pub struct Conds<T> {
    made: u64,
    queues: Queues<u64, T>,
}

impl<T> Model for Conds<T> {
    ghost use Rattle.cpc_conds.specs.Conditions.{Conditions, conditions_of, AreMade};

    ghost Value = { Conditions T };

    ghost view = { λ c. conditions_of c.queues c.made };

    ghost invariant = { λ c. AreMade c.queues.keys c.made };
}

impl<T: Drop> Conds<T> {
    /// No condition was made.
    pub fn new(alloc: Global) -> Conds<T>
        ensures { result ≡ M.no_conditions }
    {
        Conds {
            made: 0,
            queues: Queues::new(alloc),
        }
    }

    /// How many conditions were made.
    pub fn made(&self) -> u64
        ensures { result ≡ self.now.made }
    {
        self.made
    }

    /// How many items arrived to wait.
    pub fn arrived(&self) -> u64
        ensures { result ≡ self.now.arrived }
    {
        self.queues.arrived()
    }

    /// How many items wait.
    pub fn waiting(&self) -> u64
        ensures { result ≡ length self.now.waiters }
    {
        self.queues.waiting()
    }

    /// Whether a condition was made and is not released.
    pub fn is_live(&self, cond: u64) -> bool
        ensures { result ≡ M.is_live cond self.now }
    {
        self.queues.is_open(cond)
    }

    /// A new condition, whose number is told. `NoMemory` is want of memory, and leaves the conditions as they were.
    pub fn make(&mut self, alloc: Global) -> Result<u64, NoMemory>
        requires { self.old.made + 1 < 2 ^ 63 }
        ensures number { IfOk result (λ n. n ≡ self.old.made) }
        ensures ok { OnOk result (self.new ≡ M.make self.old) }
        ensures err { OnErr result (self.new ≡ self.old) }
    {
        let number = self.made;
        self.queues.open(alloc, number)?;
        self.made = number + 1;
        Ok(number)
    }

    /// Releases a condition. `CondFault` says that it is not live, or that somebody waits on it, and leaves the
    /// conditions as they were.
    pub fn release(&mut self, cond: u64) -> Result<(), CondFault>
        ensures live { OnOk result (M.is_live cond self.old ≡ true) }
        ensures nobody { OnOk result (M.NobodyWaits cond self.old) }
        ensures ok { OnOk result (self.new ≡ M.release cond self.old) }
        ensures fault { OnErr result ((M.is_live cond self.old ≡ false) ⊎ (¬ (M.NobodyWaits cond self.old))) }
        ensures err { OnErr result (self.new ≡ self.old) }
    {
        if !self.queues.is_open(cond) {
            return Err(CondFault);
        }
        if !self.queues.is_idle(cond) {
            return Err(CondFault);
        }
        self.queues.close(cond);
        Ok(())
    }

    /// The item waits on the condition. A refusal comes with the item and leaves the conditions as they were:
    /// `CondFault` says that the condition is not live.
    pub fn wait(&mut self, cond: u64, item: T) -> Result<(), (T, Stop<CondFault>)>
        requires { self.old.arrived + 1 < 2 ^ 63 }
        ensures live { OnOk result (M.is_live cond self.old ≡ true) }
        ensures ok { OnOk result (self.new ≡ M.wait cond item self.old) }
        ensures fault { IfErr result (λ e. (e.1 ≡ Memory) ⊎ (M.is_live cond self.old ≡ false)) }
        ensures err { OnErr result (self.new ≡ self.old) }
        ensures back { IfErr result (λ e. e.0 ≡ item) }
    {
        if !self.queues.is_open(cond) {
            return Err((item, Stop::Fault(CondFault)));
        }
        match self.queues.wait(cond, item) {
            Ok(()) => Ok(()),
            Err((item, _)) => Err((item, Stop::Memory)),
        }
    }

    /// The longest waiter of the condition, which waits no longer; none where nobody waits on it. `CondFault` says that
    /// the condition is not live.
    pub fn first(&mut self, cond: u64) -> Result<Option<T>, CondFault>
        ensures live { OnOk result (M.is_live cond self.old ≡ true) }
        ensures item { IfOk result (λ o. o ≡ option_map M.item_of (first_of (M.first_waiter cond self.old))) }
        ensures ok { OnOk result (self.new ≡ M.take_first cond self.old) }
        ensures fault { OnErr result (M.is_live cond self.old ≡ false) }
        ensures err { OnErr result (self.new ≡ self.old) }
    {
        if !self.queues.is_open(cond) {
            return Err(CondFault);
        }
        Ok(self.queues.first(cond))
    }
}
