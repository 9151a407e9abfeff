//! The steps of the queue, for one who makes it, pushes, and pops.
ghost use Rattle.std.specs.Prelude.{◌≡◌, ◌<◌, ◌+◌, true, [], ◌∷◌, ◌++◌, IfOk, MatchResult, MatchOption, List};
ghost use Rattle.crossbeam_queue.specs.Fifo.{Held};
ghost use Rattle.crossbeam_queue.specs.Passes.{view, IsSamePass, IsPassOf, ruled_capacity};
ghost use Rattle.cpc_pool_ends.specs.declared.done.Done.{Done};
ghost use Rattle.cpc_pool_ends.specs.Views.{loops, after_push, hiring, hired, keeping, Arrives, Settled};

use super::done::Done;
use super::rule::{DoneRule, Popping, Pushing, Workers};
use super::views::DoneView;
use cpc_pool_jobs::Runner;
use crossbeam_queue::{Pass, RuledArrayQueue};
use std::alloc::{AllocError, Global};
use std::sync::Wait;

/// A completion.
pub type DoneOf<W> = Done<<W as Runner>::Job, <W as Runner>::End>;

/// What a pass of the queue knows.
pub type DoneViewOf<W> = DoneView<<W as Runner>::Job, <W as Runner>::End>;

/// The queue.
pub type Dones<W> = RuledArrayQueue<DoneOf<W>, DoneViewOf<W>, DoneRule<W>>;

/// What the loop or a worker knows.
pub type DonePass<W> = Pass<DoneOf<W>, DoneViewOf<W>>;

/// An empty queue with room for so many completions, and the loop's pass. An error is want of memory.
pub fn begin<W: Runner>(alloc: Global, room: usize) -> Result<(Dones<W>, DonePass<W>), AllocError>
    requires { 0 < room }
    ensures nothing { IfOk result (λ r. IsPassOf r.0 r.1 × (view r.1 ≡ loops [] 0 [])) }
    ensures room { IfOk result (λ r. ruled_capacity r.0 ≡ room) }
{
    Dones::<W>::ruled(alloc, room)
}

/// Puts a completion last. Where the queue is full (no clause says so) it comes back.
pub fn push<W: Runner, R: Wait>(
    rt: &R,
    dones: &Dones<W>,
    pass: &mut DonePass<W>,
    done: DoneOf<W>,
) -> Result<(), DoneOf<W>>
    requires queue { IsPassOf dones.now pass.old }
    requires role { ((view pass.old).pushes ≡ true) × (done.worker ≡ (view pass.old).number) }
    requires ends { W.ends done.job done.end }
    ensures queue { IsSamePass pass.old pass.new }
    ensures pushed { MatchResult result (λ _. view pass.new ≡ after_push (view pass.old) done) (λ d. (d ≡ done) × (view pass.new ≡ view pass.old)) }
{
    dones.push_as::<Pushing<W>, R>(rt, pass, done)
}

/// The next completion. At `None` the queue was empty at a moment of the call: a clause says that of what the workers that have ended
/// pushed, and of no other.
pub fn pop<W: Runner, R: Wait>(
    rt: &R,
    dones: &Dones<W>,
    pass: &mut DonePass<W>,
) -> Option<DoneOf<W>>
    requires queue { IsPassOf dones.now pass.old }
    requires role { (view pass.old).pops ≡ true }
    ensures queue { IsSamePass pass.old pass.new }
    ensures popped { MatchOption result ((view pass.new ≡ view pass.old) × Held 0 (Settled (view pass.old))) (λ d. Arrives W.ends (view pass.old) d (view pass.new)) }
{
    dones.pop_as::<Popping<W>, R>(rt, pass)
}

/// A pass for one more worker.
pub fn hire<W: Runner>(dones: &Dones<W>, pass: &mut DonePass<W>) -> DonePass<W>
    requires queue { IsPassOf dones.now pass.old }
    requires role { (view pass.old).pops ≡ true }
    ensures queue { IsSamePass pass.old pass.new × IsPassOf dones.now result }
    ensures views { (view pass.new ≡ hiring (view pass.old)) × (view result ≡ hired (view pass.old)) }
{
    dones.another::<Workers<W>>(pass)
}

/// Takes the pass of a worker that has ended in, and keeps its list.
pub fn retire<W: Runner>(dones: &Dones<W>, pass: &mut DonePass<W>, worker: DonePass<W>)
    requires queue { IsPassOf dones.now pass.old × IsPassOf dones.now worker }
    requires role { ((view pass.old).pops ≡ true) × ((view worker).pushes ≡ true) }
    ensures queue { IsSamePass pass.old pass.new }
    ensures views { view pass.new ≡ keeping (view pass.old) (view worker) }
{
    dones.absorb::<Workers<W>>(pass, worker)
}

/// Tells the loop what became of all that the workers that have ended pushed: it was popped, or the queue holds it.
pub fn settle<W: Runner>(dones: &Dones<W>, pass: &mut DonePass<W>)
    requires queue { IsPassOf dones.now pass.old }
    requires role { (view pass.old).pops ≡ true }
    ensures queue { IsSamePass pass.old pass.new × (view pass.new ≡ view pass.old) }
    ensures settled { (items : List (Done W.Job W.End)) × Settled (view pass.old) items }
{
    dones.learn_as::<Popping<W>>(pass)
}
