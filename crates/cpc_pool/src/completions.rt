//! Completions that wait to be taken.
ghost use Rattle.std.specs.Prelude.{◌≡◌, ◌↔◌, ◌<◌, [], ◌∷◌, ◌++◌, length, IsTrue, MatchOption, IfSome, OnOk, option_to_list};
ghost use Rattle.cpc_pool.specs.Acts.{IsAt, IsOf, NoneAt, Taken};

use cpc_pool_ends::DoneOf;
use cpc_pool_jobs::Runner;
use std::alloc::{AllocError, Global};
use std::collections::VecDeque;
use std::marker::{Model, PhantomData};

/// A list of completions, each with the end of its own job. Contracts see it as the list, and how many it has room for.
#[derive(Drop)]
pub struct Completions<W: Runner> {
    list: VecDeque<DoneOf<W>>,
    of: PhantomData<W>,
}

impl<W: Runner> Model for Completions<W> {
    ghost use Rattle.std.specs.Prelude.{List, ℕ, All};
    ghost use Rattle.std.specs.VecDeque.{deque_capacity};
    ghost use Rattle.cpc_pool_ends.specs.declared.done.Done.{Done};

    ghost Value = { List (Done W.Job W.End) × ℕ };

    ghost view = { λ s. (s.list.items, deque_capacity s.list) };

    ghost invariant = { λ s. All (λ d. W.ends d.job d.end) s.list.items };
}

impl<W: Runner> Completions<W> {
    /// An empty list.
    pub fn new(alloc: Global) -> Completions<W>
        ensures { result.0 ≡ [] }
    {
        Completions {
            list: VecDeque::new(alloc),
            of: PhantomData,
        }
    }

    /// Makes room for one more. An error is want of memory.
    pub fn reserve(&mut self) -> Result<(), AllocError>
        ensures room { OnOk result (length self.new.0 < self.new.1) }
        ensures same { self.new.0 ≡ self.old.0 }
    {
        self.list.reserve(1)
    }

    /// Puts a completion last.
    pub fn add(&mut self, done: DoneOf<W>)
        requires room { length self.old.0 < self.old.1 }
        requires ends { W.ends done.job done.end }
        ensures { self.new.0 ≡ self.old.0 ++ done ∷ [] }
    {
        self.list.push_back_reserved(done);
    }

    /// Takes the first completion.
    pub fn next(&mut self) -> Option<DoneOf<W>>
        ensures items { self.old.0 ≡ option_to_list result ++ self.new.0 }
        ensures ends { MatchOption result (self.old.0 ≡ []) (λ d. W.ends d.job d.end) }
    {
        self.list.pop_front()
    }

    // Whether the completion at this place is of the same job, so that its end is the end of this one.
    fn is_at(&self, at: usize, job: &W::Job) -> bool
        ensures same { IsTrue result ↔ IsAt W.same self.now.0 at job.now }
        ensures ends { IsTrue result → IsOf W.ends self.now.0 at job.now }
    {
        match self.list.get(at) {
            Some(done) => W::is_same(&done.job, job),
            None => false,
        }
    }

    // The place of the first completion of the same job.
    fn place(&self, job: &W::Job) -> Option<usize>
        ensures first { MatchOption result (NoneAt W.same self.now.0 (length self.now.0) job.now) (λ at. NoneAt W.same self.now.0 at job.now × IsAt W.same self.now.0 at job.now) }
        ensures ends { IfSome result (λ at. IsOf W.ends self.now.0 at job.now) }
    {
        for at in 0..self.list.len() {
            if self.is_at(at, job) {
                return Some(at);
            }
        }
        None
    }

    /// Takes out the first completion of the same job, and gives its end, which is then the end of this one. The others stay as they are.
    pub fn take(&mut self, job: &W::Job) -> Option<W::End>
        ensures taken { Taken W.same job.now self.old.0 self.new.0 result }
        ensures ends { IfSome result (λ e. W.ends job.now e) }
    {
        let at = self.place(job)?;
        let done = self.list.remove(at)?;
        Some(done.end)
    }
}
