//! Items that wait in queues, found by the key of the queue and by the order in which they arrived.
ghost use Rattle.std.specs.Prelude.{◌≡◌, ◌↔◌, ◌+◌, ◌<◌, ◌^◌, IsTrue, false, length, map, [], IfOk, OnOk, OnErr, IfErr};
ghost use Rattle.std.specs.List.{list_any};
ghost use Rattle.std.specs.Option.{option_map};
ghost use Rattle.std.specs.BTreeMap.{is_at};
ghost use Rattle.cpc_agenda_queues.specs.Queued as Q;

use crate::numbers::Numbers;
use cpc_base::NoMemory;
use std::alloc::Global;
use std::collections::BTreeMap;
use std::marker::Model;

/// Items that wait, each in the queue of a key and with an arrival number.
pub struct Queues<K: Ord + Copy, T> {
    arrived: u64,
    by_arrival: BTreeMap<u64, (K, T)>,
    numbers: Numbers<K>,
}

impl<K: Ord + Copy + Drop, T: Drop> Drop for Queues<K, T> {
    fn drop(self) {
        let Queues {
            arrived: _,
            by_arrival,
            numbers,
        } = self;
        drop(by_arrival);
        drop(numbers);
    }
}

impl<K: Ord + Copy, T> Model for Queues<K, T> {
    ghost use Rattle.cpc_agenda_queues.specs.Queued.{Queued, queued_of, IsIndexed};

    ghost Value = { Queued K T };

    ghost view = { λ s. queued_of s.by_arrival.entries s.numbers s.arrived };

    ghost invariant = { λ s. IsIndexed K.cmp s.by_arrival.entries s.numbers s.arrived };
}

impl<K: Ord + Copy, T: Drop> Queues<K, T> {
    /// There is no queue.
    pub fn new(alloc: Global) -> Self
        ensures { result ≡ Q.no_queues }
    {
        Queues {
            arrived: 0,
            by_arrival: BTreeMap::new(alloc),
            numbers: Numbers::new(alloc),
        }
    }

    /// How many items arrived.
    pub fn arrived(&self) -> u64
        ensures { result ≡ self.now.arrived }
    {
        self.arrived
    }

    /// How many items wait.
    pub fn waiting(&self) -> u64
        ensures { result ≡ length self.now.waiting }
    {
        self.by_arrival.len() as u64
    }

    /// The keys of those who wait, in order of arrival. `NoMemory` is want of memory.
    pub fn waited(&self, alloc: Global) -> Result<Vec<K>, NoMemory>
        ensures { IfOk result (λ keys. keys.items ≡ map Q.key_of self.now.waiting) }
    {
        let mut keys = Vec::new(alloc);
        for waiter in self.by_arrival.values() {
            keys.push(waiter.0)?;
        }
        Ok(keys)
    }

    /// Whether a key has a queue.
    pub fn is_open(&self, key: K) -> bool
        ensures { result ≡ list_any (is_at (K.cmp key)) self.now.keys }
    {
        self.numbers.has(key)
    }

    /// Whether nobody waits in the queue of a key.
    pub fn is_idle(&self, key: K) -> bool
        ensures { IsTrue result ↔ (Q.first_in K.cmp key self.now ≡ []) }
    {
        self.numbers.is_idle(key)
    }

    /// Makes a queue for a key that has none. `NoMemory` is want of memory.
    pub fn open(&mut self, alloc: Global, key: K) -> Result<(), NoMemory>
        requires { list_any (is_at (K.cmp key)) self.old.keys ≡ false }
        ensures ok { OnOk result (self.new ≡ Q.open_key K.cmp key self.old) }
        ensures err { OnErr result (self.new ≡ self.old) }
    {
        self.numbers.open(alloc, key)?;
        Ok(())
    }

    /// Drops the queue of a key, where nobody waits.
    pub fn close(&mut self, key: K)
        requires { Q.first_in K.cmp key self.old ≡ [] }
        ensures { self.new ≡ Q.close_key K.cmp key self.old }
    {
        self.numbers.close(key);
    }

    /// The item waits in the queue of the key. `NoMemory` is want of memory: it comes with the item, and leaves the
    /// queues as they were.
    pub fn wait(&mut self, key: K, item: T) -> Result<(), (T, NoMemory)>
        requires open { IsTrue (list_any (is_at (K.cmp key)) self.old.keys) }
        requires room { self.old.arrived + 1 < 2 ^ 63 }
        ensures ok { OnOk result (self.new ≡ Q.wait key item self.old) }
        ensures err { OnErr result (self.new ≡ self.old) }
        ensures back { IfErr result (λ e. e.0 ≡ item) }
    {
        let number = self.arrived;
        match self.by_arrival.insert(number, (key, item)) {
            Ok(_) => {}
            Err(failed) => {
                let (_, (_, item)) = failed.value;
                return Err((item, NoMemory));
            }
        }
        match self.numbers.push(key, number) {
            Ok(()) => {
                self.arrived = number + 1;
                Ok(())
            }
            Err(error) => match self.by_arrival.remove(&number) {
                Some((_, item)) => Err((item, error)),
                None => unreachable!(),
            },
        }
    }

    /// The first item in the queue of the key, which waits no longer; none where nobody waits in it.
    pub fn first(&mut self, key: K) -> Option<T>
        ensures item { result ≡ option_map Q.item_of (Q.first_of (Q.first_in K.cmp key self.old)) }
        ensures taken { self.new ≡ Q.take_first K.cmp key self.old }
    {
        let Some(number) = self.numbers.pop(key) else {
            return None;
        };
        match self.by_arrival.remove(&number) {
            Some((_, item)) => Some(item),
            None => unreachable!(),
        }
    }
}
