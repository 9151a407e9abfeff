//! Queues of arrival numbers, found by key.
ghost use Rattle.std.specs.Prelude.{◌≡◌, IsTrue, ◌↔◌, ℕ, List, [], ◌∷◌, ◌++◌, if◌then◌else◌, OnOk, OnErr};
ghost use Rattle.std.specs.List.{list_any};
ghost use Rattle.std.specs.BTreeMap.{is_at};
ghost use Rattle.std.specs.Map.{keys_of};
ghost use Rattle.cpc_agenda_queues.specs.Numbers.{queue_at};
ghost use Rattle.cpc_agenda_queues.specs.Queued.{first_of, rest_of, put_key, drop_key};

use cpc_base::NoMemory;
use std::alloc::Global;
use std::collections::{BTreeMap, VecDeque};
use std::marker::Model;

/// A queue of numbers for each key.
#[derive(Drop)]
pub(crate) struct Numbers<K: Ord + Copy> {
    by_key: BTreeMap<K, VecDeque<u64>>,
}

impl<K: Ord + Copy> Model for Numbers<K> {
    ghost use Rattle.std.specs.Prelude.{ℕ, List};
    ghost use Rattle.cpc_agenda_queues.specs.Numbers.{queues_of};

    ghost Value = { List (K × List ℕ) };

    ghost view = { λ n. queues_of (λ q. q.items) n.by_key.entries };
}

impl<K: Ord + Copy> Numbers<K> {
    /// No queue of any key.
    pub(crate) fn new(alloc: Global) -> Self
        ensures { result ≡ [] }
    {
        Numbers {
            by_key: BTreeMap::new(alloc),
        }
    }

    /// Whether a key has a queue.
    pub(crate) fn has(&self, key: K) -> bool
        ensures { result ≡ list_any (is_at (K.cmp key)) (keys_of self.now) }
    {
        self.by_key.contains_key(&key)
    }

    /// Whether nothing is in the queue of a key.
    pub(crate) fn is_idle(&self, key: K) -> bool
        ensures { IsTrue result ↔ (queue_at K.cmp key self.now ≡ []) }
    {
        match self.by_key.get(&key) {
            Some(queue) => queue.is_empty(),
            None => true,
        }
    }

    /// Makes an empty queue for a key.
    pub(crate) fn open(&mut self, alloc: Global, key: K) -> Result<(), NoMemory>
        ensures keys { OnOk result (keys_of self.new ≡ put_key K.cmp key (keys_of self.old)) }
        ensures queues { OnOk result ((q : K) → queue_at K.cmp q self.new ≡ if is_at (K.cmp key) q then [] else queue_at K.cmp q self.old) }
        ensures err { OnErr result (self.new ≡ self.old) }
    {
        match self.by_key.insert(key, VecDeque::new(alloc)) {
            Ok(_) => Ok(()),
            Err(_) => Err(NoMemory),
        }
    }

    /// Drops the queue of a key.
    pub(crate) fn close(&mut self, key: K)
        ensures keys { keys_of self.new ≡ drop_key K.cmp key (keys_of self.old) }
        ensures queues { (q : K) → queue_at K.cmp q self.new ≡ if is_at (K.cmp key) q then [] else queue_at K.cmp q self.old }
    {
        let _ = self.by_key.remove(&key);
    }

    /// Puts a number at the end of the queue of a key.
    pub(crate) fn push(&mut self, key: K, number: u64) -> Result<(), NoMemory>
        requires { IsTrue (list_any (is_at (K.cmp key)) (keys_of self.old)) }
        ensures keys { keys_of self.new ≡ keys_of self.old }
        ensures ok { OnOk result ((q : K) → queue_at K.cmp q self.new ≡ if is_at (K.cmp key) q then queue_at K.cmp key self.old ++ number ∷ [] else queue_at K.cmp q self.old) }
        ensures err { OnErr result ((q : K) → queue_at K.cmp q self.new ≡ if is_at (K.cmp key) q then queue_at K.cmp key self.old else queue_at K.cmp q self.old) }
    {
        let Some(queue) = self.by_key.get_mut(&key) else {
            return Ok(());
        };
        put(queue, number)
    }

    /// Takes the first number out of the queue of a key.
    pub(crate) fn pop(&mut self, key: K) -> Option<u64>
        ensures keys { keys_of self.new ≡ keys_of self.old }
        ensures number { result ≡ first_of (queue_at K.cmp key self.old) }
        ensures queues { (q : K) → queue_at K.cmp q self.new ≡ if is_at (K.cmp key) q then rest_of (queue_at K.cmp key self.old) else queue_at K.cmp q self.old }
    {
        let Some(queue) = self.by_key.get_mut(&key) else {
            return None;
        };
        queue.pop_front()
    }
}

fn put(queue: &mut VecDeque<u64>, number: u64) -> Result<(), NoMemory>
    ensures ok { OnOk result (queue.new.items ≡ queue.old.items ++ number ∷ []) }
    ensures err { OnErr result (queue.new.items ≡ queue.old.items) }
{
    match queue.push_back(number) {
        Ok(()) => Ok(()),
        Err(_) => Err(NoMemory),
    }
}
