//! A pool with both its passes: where jobs are submitted, and where their ends come back.
ghost use Rattle.std.specs.Prelude.{◌≡◌, [], None, IfOk, IfSome, MatchOption, MatchResult, option_to_list};
ghost use Rattle.std.specs.Arc.{arc_value};
ghost use Rattle.crossbeam_channel.specs.Claims.{view as job_view};
ghost use Rattle.crossbeam_channel.specs.Ends.{sends_on};
ghost use Rattle.crossbeam_queue.specs.Passes.{view as done_view};
ghost use Rattle.cpc_pool.specs.Passes.{Submits, Pops};
ghost use Rattle.cpc_pool.specs.Arrivals.{Answers, Came, Finished, Handed, Unfinished, Waits};

use super::completions::Completions;
use super::gate::Gate;
use super::pool::Pool;
use cpc_pool_ends::{DoneOf, DonePass};
use cpc_pool_jobs::{JobPass, Runner};
use std::alloc::{AllocError, Global};
use std::marker::Model;
use std::sync::Wait;
use std::thread::Threads;

/// A pool with both its passes, the handle, and the completions that came before they were asked for. Contracts see it as what is
/// known of its jobs: which were sent, and which completions came.
pub struct Hands<W: Runner, G: Gate, R: Wait> {
    rt: R,
    pool: Pool<W, G>,
    jobs: JobPass<W>,
    dones: DonePass<W>,
    next: u64,
    early: Completions<W>,
}

impl<W: Runner, G: Gate, R: Wait> Model for Hands<W, G, R> {
    ghost use Rattle.std.specs.Prelude.{◌≡◌};
    ghost use Rattle.std.specs.Arc.{arc_value};
    ghost use Rattle.crossbeam_channel.specs.Claims.{view as job_view};
    ghost use Rattle.crossbeam_channel.specs.Ends.{sends_on};
    ghost use Rattle.crossbeam_queue.specs.Passes.{view as done_view};
    ghost use Rattle.cpc_pool.specs.Passes.{Submits, Pops, AreBelow};
    ghost use Rattle.cpc_pool.specs.Arrivals.{Known};

    ghost Value = { Known W.Job W.End };

    ghost view = { λ s. record {
      next = s.next;
      early = s.early.0;
      own = s.pool.own.0;
      popped = (done_view s.dones).popped;
      sent = (job_view s.jobs).sent;
    } };

    ghost invariant = { λ s. (Submits (sends_on s.pool.jobs) s.jobs × ((job_view s.jobs).stops ≡ 0) × AreBelow s.next (job_view s.jobs).sent) × Pops (arc_value s.pool.crew.dones) s.dones };
}

// Accepts a completion, or waits for one: the end, where it is of the same job; others are kept. An error is want of memory, and then
// nothing was accepted.
fn look<W: Runner, G: Gate, R: Wait>(
    rt: &R,
    pool: &mut Pool<W, G>,
    dones: &mut DonePass<W>,
    early: &mut Completions<W>,
    job: &W::Job,
) -> Result<Option<W::End>, AllocError>
    requires { Pops (arc_value pool.old.crew.dones) dones.old }
    ensures dones { Pops (arc_value pool.new.crew.dones) dones.new }
    ensures same { (pool.new.jobs ≡ pool.old.jobs) × (pool.new.crew ≡ pool.old.crew) }
    ensures ends { IfOk result (λ o. IfSome o (λ e. W.ends job.now e)) }
    ensures looked { MatchResult result
        (λ o. MatchOption o
        (Waits W.same job.now early.old.0 early.new.0 pool.old.own.0 pool.new.own.0 (done_view dones.old).popped (done_view dones.new).popped)
        (λ e. Answers W.same job.now early.old.0 early.new.0 pool.old.own.0 pool.new.own.0 (done_view dones.old).popped (done_view dones.new).popped e))
        (λ _. (early.new.0 ≡ early.old.0) × (pool.new.own.0 ≡ pool.old.own.0) × (done_view dones.new ≡ done_view dones.old)) }
{
    early.reserve()?;
    let Some(done) = pool.accept(rt, dones) else {
        pool.wait_one(rt);
        return Ok(None);
    };
    if W::is_same(&done.job, job) {
        return Ok(Some(done.end));
    }
    early.add(done);
    Ok(None)
}

// The end of a job that was not accepted yet. Those that come before it are kept. An error is want of memory; then no end is lost.
fn wait_for<W: Runner, G: Gate, R: Wait>(
    rt: &R,
    pool: &mut Pool<W, G>,
    dones: &mut DonePass<W>,
    early: &mut Completions<W>,
    job: &W::Job,
) -> Result<W::End, AllocError>
    requires { Pops (arc_value pool.old.crew.dones) dones.old }
    ensures dones { Pops (arc_value pool.new.crew.dones) dones.new }
    ensures same { (pool.new.jobs ≡ pool.old.jobs) × (pool.new.crew ≡ pool.old.crew) }
    ensures ends { IfOk result (λ e. W.ends job.now e) }
    ensures waited { MatchResult result
        (λ e. Answers W.same job.now early.old.0 early.new.0 pool.old.own.0 pool.new.own.0 (done_view dones.old).popped (done_view dones.new).popped e)
        (λ _. Waits W.same job.now early.old.0 early.new.0 pool.old.own.0 pool.new.own.0 (done_view dones.old).popped (done_view dones.new).popped) }
{
    for _ in rt.forever() {
        if let Some(end) = look(rt, pool, dones, early, job)? {
            return Ok(end);
        }
    }
    unreachable!()
}

impl<W: Runner, G: Gate, R: Wait> Hands<W, G, R> {
    /// Over a pool to which nothing was submitted.
    pub fn over(
        rt: R,
        alloc: Global,
        pool: Pool<W, G>,
        jobs: JobPass<W>,
        dones: DonePass<W>,
    ) -> Hands<W, G, R>
        requires jobs { Submits (sends_on pool.jobs) jobs × ((job_view jobs).stops ≡ 0) × ((job_view jobs).sent ≡ []) }
        requires dones { Pops (arc_value pool.crew.dones) dones }
        ensures next { result.next ≡ 0 }
        ensures nothing { (result.early ≡ []) × (result.own ≡ pool.own.0) × (result.popped ≡ (done_view dones).popped) × (result.sent ≡ []) }
    {
        Hands {
            rt,
            pool,
            jobs,
            dones,
            next: 0,
            early: Completions::new(alloc),
        }
    }

    /// Submits a job. One whose number is not above those of all that were sent, or is the greatest there is, is run at once. Any other is
    /// sent, or run at once as `Pool::submit` says (of which no clause here says why). An error is want of memory, and the job comes back.
    pub fn submit(&mut self, job: W::Job) -> Result<(), (W::Job, AllocError)>
        requires { W.meets job }
        ensures { MatchResult result (λ _. Handed W.number W.ends job self.old self.new) (λ e. (e.0 ≡ job) × (self.new ≡ self.old)) }
    {
        let number = W::number_of(&job);
        if number < self.next || number == u64::MAX {
            return self.pool.run(job);
        }
        self.pool.submit(&self.rt, &mut self.jobs, job)?;
        self.next = number + 1;
        Ok(())
    }

    /// A completion, if there is one: a job, with an end that is its own. Those that are kept for `finish` are left to it.
    pub fn accept(&mut self) -> Option<DoneOf<W>>
        ensures next { (self.new.next ≡ self.old.next) × (self.new.sent ≡ self.old.sent) }
        ensures early { self.new.early ≡ self.old.early }
        ensures came { Came self.old.own self.new.own self.old.popped self.new.popped (option_to_list result) }
        ensures none { result ≡ None → self.old.own ≡ [] }
        ensures ends { IfSome result (λ d. W.ends d.job d.end) }
    {
        self.pool.accept(&self.rt, &mut self.dones)
    }

    /// Waits until something came since `accept` last looked.
    pub fn wait_one(&mut self)
        ensures { self.new ≡ self.old }
    {
        self.pool.wait_one(&self.rt);
    }

    /// The end of a job that was submitted, and whose end was not taken yet. It is waited for where it is not there. Others that come
    /// before it are kept, in the order in which they came.
    ///
    /// An error is want of memory; then no end is lost: all that came is kept, and none of it is of this job.
    pub fn finish(&mut self, job: &W::Job) -> Result<W::End, AllocError>
        ensures next { (self.new.next ≡ self.old.next) × (self.new.sent ≡ self.old.sent) }
        ensures finished { MatchResult result (λ e. Finished W.same job.now self.old self.new e) (λ _. Unfinished W.same job.now self.old self.new) }
        ensures ends { IfOk result (λ e. W.ends job.now e) }
    {
        if let Some(end) = self.early.take(job) {
            return Ok(end);
        }
        wait_for(
            &self.rt,
            &mut self.pool,
            &mut self.dones,
            &mut self.early,
            job,
        )
    }
}

impl<W: Runner, G: Gate, R: Threads + Wait + Drop> Hands<W, G, R> {
    /// Tells each worker to stop, and waits until all have ended. A job that no worker has begun is not run. No clause says so.
    pub fn stop(self) {
        let Hands {
            rt,
            pool,
            jobs,
            dones,
            next: _,
            early: _,
        } = self;
        let _ = pool.stop(&rt, jobs, dones);
    }
}
