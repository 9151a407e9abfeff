//! The pool: starting workers, submitting, accepting, waiting and stopping.
ghost use Rattle.std.specs.Prelude.{◌≡◌, ◌<◌, ◌≤◌, ◌+◌, ℕ, List, [], true, All, IfOk, IfSome, OnOk, MatchResult, length, vec_len};
ghost use Rattle.std.specs.List.{AllByRecursion};
ghost use Rattle.std.specs.Arc.{arc_value};
ghost use Rattle.crossbeam_channel.specs.Claims.{view as job_view, IsSeatAt};
ghost use Rattle.crossbeam_channel.specs.Ends.{sends_on, receives_on, ruled_capacity as job_room};
ghost use Rattle.crossbeam_queue.specs.Passes.{view as done_view, IsPassOf, ruled_capacity as done_room};
ghost use Rattle.cpc_pool_jobs.specs.declared.message.Message.{Message};
ghost use Rattle.cpc_pool_jobs.specs.Views.{submitter, Settled as JobsSettled};
ghost use Rattle.cpc_pool_ends.specs.declared.done.Done.{Done};
ghost use Rattle.cpc_pool_ends.specs.Views.{loops, Settled as DonesSettled};
ghost use Rattle.cpc_pool.specs.Passes.{Submits, Pops};
ghost use Rattle.cpc_pool.specs.Acts.{most_out, most_workers, most_messages, Ran, Submitted, SubmittedOut, SentOrWhy, Accepted, AcceptedOut};

use super::completions::Completions;
use super::gate::Gate;
use super::staff::{Worker, join_all, start_all};
use super::worker::Crew;
use cpc_pool_ends::{Done, DoneOf, DonePass};
use cpc_pool_jobs::{JobPass, Runner, Sender, Unsent, send, send_stop};
use std::alloc::{AllocError, Global};
use std::sync::atomic::Ordering;
use std::sync::{Arc, Wait};
use std::thread::Threads;

// `most_out`, as code has it.
const MOST_OUT: usize = 1024;

// `most_messages`, as code has it: so nobody who sends waits.
const MESSAGES: usize = 1088;

/// The workers, and the completions of the jobs that none of them ran. It is let go of by `stop` alone.
pub struct Pool<W: Runner, G: Gate> {
    /// The end of the channel that sends.
    pub jobs: Sender<W>,
    /// What the workers share.
    pub crew: Crew<W, G>,
    own: Completions<W>,
    workers: Vec<Worker<W>>,
    heard: u64,
    out: usize,
    unsent: Option<Unsent>,
    pub ghost ours: { All (λ h. (receives_on h.handle.promise.jobs.value ≡ sends_on jobs) × (arc_value h.handle.promise.dones.value ≡ arc_value crew.dones)) workers.items },
}

// Runs a job in the caller's own thread.
fn run_here<W: Runner>(own: &mut Completions<W>, runner: &W, job: W::Job)
    requires room { length own.old.0 < own.old.1 }
    requires meets { W.meets job }
    ensures { Ran W.ends job own.old.0 own.new.0 }
{
    let end = runner.run(&job);
    own.add(Done {
        worker: 0,
        job,
        end,
    });
}

impl<W, G> Pool<W, G>
where
    W: Runner + Send + Sync + 'static,
    W::Job: Send + 'static,
    W::End: Send + 'static,
    G: Gate + Send + Sync + 'static,
{
    /// A pool with up to so many workers, which share the runner and the gate with the caller, and the passes of its submitter and of its
    /// loop. There are fewer workers only where threads cannot be made, or memory for one is wanting (no clause says so). An error is want
    /// of memory, before any worker was started.
    pub fn start<R: Threads + Wait + Copy + Send + 'static>(
        rt: &R,
        alloc: Global,
        runner: Arc<W, Global>,
        workers: u32,
        gate: Arc<G, Global>,
    ) -> Result<(Pool<W, G>, JobPass<W>, DonePass<W>), AllocError>
        requires few { workers ≤ most_workers }
        ensures jobs { IfOk result (λ r. IsSeatAt (sends_on r.0.jobs) r.1 × (job_view r.1 ≡ submitter [] 0 workers [])) }
        ensures dones { IfOk result (λ r. IsPassOf (arc_value r.0.crew.dones) r.2 × (done_view r.2 ≡ loops [] workers [])) }
        ensures none { IfOk result (λ r. (r.0.own.0 ≡ []) × (vec_len r.0.workers ≤ workers)) }
        ensures shared { IfOk result (λ r. (arc_value r.0.crew.runner ≡ arc_value runner) × (arc_value r.0.crew.gate ≡ arc_value gate)) }
        ensures idle { IfOk result (λ r. (r.0.out ≡ 0) × (r.0.heard ≡ 0)) }
        ensures room { IfOk result (λ r. (done_room (arc_value r.0.crew.dones) ≡ most_out) × (job_room (sends_on r.0.jobs) ≡ most_messages)) }
    {
        let (sender, receiver, mut jobs) = cpc_pool_jobs::begin::<W>(alloc, MESSAGES)?;
        let (queue, mut dones) = cpc_pool_ends::begin::<W>(alloc, MOST_OUT)?;
        let crew = Crew::new(alloc, runner, gate, queue)?;
        let started = start_all(
            rt, alloc, &sender, &receiver, &crew, workers, &mut jobs, &mut dones,
        )?;
        let pool = Pool {
            jobs: sender,
            crew,
            own: Completions::new(alloc),
            workers: started,
            heard: 0,
            out: 0,
            unsent: None,
        };
        Ok((pool, jobs, dones))
    }
}

impl<W: Runner, G: Gate> Pool<W, G> {
    /// Sends a job, whose number is above those that were sent. Where there is no worker, or as many jobs are out as the queue has room
    /// for, or the send fails, the pool runs it at once and keeps its completion. An error is want of memory: the job comes back, and nothing changed.
    pub fn submit<R: Wait>(
        &mut self,
        rt: &R,
        pass: &mut JobPass<W>,
        job: W::Job,
    ) -> Result<(), (W::Job, AllocError)>
        requires seat { Submits (sends_on self.old.jobs) pass.old × ((job_view pass.old).stops ≡ 0) }
        requires number { AllByRecursion (λ n. n < W.number job) (job_view pass.old).sent }
        requires meets { W.meets job }
        ensures seat { Submits (sends_on self.new.jobs) pass.new × ((job_view pass.new).stops ≡ 0) }
        ensures same { (self.new.jobs ≡ self.old.jobs) × (self.new.crew ≡ self.old.crew) × (vec_len self.new.workers ≡ vec_len self.old.workers) }
        ensures here { vec_len self.old.workers ≡ 0 → job_view pass.new ≡ job_view pass.old }
        ensures full { most_out ≤ self.old.out → job_view pass.new ≡ job_view pass.old }
        ensures submitted { MatchResult result (λ _. Submitted W.number W.ends job self.old.own.0 self.new.own.0 (job_view pass.old) (job_view pass.new)) (λ e. (e.0 ≡ job) × (self.new.own.0 ≡ self.old.own.0) × (job_view pass.new ≡ job_view pass.old)) }
        ensures out { MatchResult result (λ _. SubmittedOut W.number job (job_view pass.old) (job_view pass.new) self.old.out self.new.out) (λ _. self.new.out ≡ self.old.out) }
        ensures why { OnOk result (SentOrWhy W.number job (job_view pass.old) (job_view pass.new) (vec_len self.old.workers) self.old.out self.new.unsent) }
        ensures heard { self.new.heard ≡ self.old.heard }
    {
        if self.own.reserve().is_err() {
            return Err((job, AllocError));
        }
        if self.workers.is_empty() || self.out >= MOST_OUT {
            run_here(&mut self.own, &self.crew.runner, job);
            return Ok(());
        }
        match send(rt, &self.jobs, pass, job) {
            Ok(()) => {
                self.out += 1;
                Ok(())
            }
            Err((job, unsent)) => {
                self.unsent = Some(unsent);
                run_here(&mut self.own, &self.crew.runner, job);
                Ok(())
            }
        }
    }

    /// Runs a job at once, whatever its number, and keeps its completion. An error is want of memory: the job comes back, and nothing
    /// changed.
    pub fn run(&mut self, job: W::Job) -> Result<(), (W::Job, AllocError)>
        requires meets { W.meets job }
        ensures same { (self.new.jobs ≡ self.old.jobs) × (self.new.crew ≡ self.old.crew) × (vec_len self.new.workers ≡ vec_len self.old.workers) }
        ensures ran { MatchResult result (λ _. Ran W.ends job self.old.own.0 self.new.own.0) (λ e. (e.0 ≡ job) × (self.new.own.0 ≡ self.old.own.0)) }
        ensures rest { (self.new.out ≡ self.old.out) × (self.new.heard ≡ self.old.heard) }
    {
        if self.own.reserve().is_err() {
            return Err((job, AllocError));
        }
        run_here(&mut self.own, &self.crew.runner, job);
        Ok(())
    }

    /// A completion, if there is one: first of the jobs that the pool ran itself, in order of submission, and then as the workers
    /// bring them. At `None` it had none of its own, and the queue was empty at a moment of the call: a clause says that of what the
    /// workers that have ended pushed, and of no other.
    pub fn accept<R: Wait>(&mut self, rt: &R, pass: &mut DonePass<W>) -> Option<DoneOf<W>>
        requires seat { Pops (arc_value self.old.crew.dones) pass.old }
        ensures seat { Pops (arc_value self.new.crew.dones) pass.new }
        ensures same { (self.new.jobs ≡ self.old.jobs) × (self.new.crew ≡ self.old.crew) × (vec_len self.new.workers ≡ vec_len self.old.workers) }
        ensures accepted { Accepted W.ends self.old.own.0 self.new.own.0 (done_view pass.old) (done_view pass.new) result }
        ensures out { AcceptedOut self.old.own.0 result self.old.out self.new.out }
        ensures ends { IfSome result (λ d. W.ends d.job d.end) }
    {
        self.heard = self.crew.bell.heard(rt);
        match self.own.next() {
            Some(done) => Some(done),
            None => {
                let done = cpc_pool_ends::pop(rt, &self.crew.dones, pass)?;
                self.out = self.out.saturating_sub(1);
                Some(done)
            }
        }
    }

    /// Waits until a worker has brought a completion since `accept` last looked.
    pub fn wait_one<R: Wait>(&self, rt: &R) {
        self.crew.bell.wait_past(rt, self.heard);
    }

    /// Tells each worker to stop, and waits until all have ended: the list of each that was started is kept. A job that no worker has
    /// begun is taken and not run, since nobody asks for its end (no clause says so). What they took and pushed is told with the passes.
    pub fn stop<R: Threads + Wait>(
        self,
        rt: &R,
        mut jobs: JobPass<W>,
        mut dones: DonePass<W>,
    ) -> (JobPass<W>, DonePass<W>)
        requires jobs { Submits (sends_on self.jobs) jobs }
        requires dones { Pops (arc_value self.crew.dones) dones }
        ensures jobs { ((items : List (Message W.Job)) × JobsSettled W.number (job_view result.0) items) × ((job_view result.0).sent ≡ (job_view jobs).sent) }
        ensures dones { ((items : List (Done W.Job W.End)) × DonesSettled (done_view result.1) items) × ((done_view result.1).popped ≡ (done_view dones).popped) }
        ensures all { (length (job_view result.0).kept ≡ length (job_view jobs).kept + vec_len self.workers) × (length (done_view result.1).kept ≡ length (done_view dones).kept + vec_len self.workers) }
    {
        let Pool {
            jobs: sender,
            crew,
            own: _,
            workers,
            heard: _,
            out: _,
            unsent: _,
        } = self;
        crew.over.store(true, Ordering::SeqCst);
        for _ in 0..workers.len() {
            let _ = send_stop(rt, &sender, &mut jobs);
        }
        join_all(rt, &sender, &crew, workers, &mut jobs, &mut dones);
        cpc_pool_jobs::settle(&sender, &mut jobs);
        cpc_pool_ends::settle(&crew.dones, &mut dones);
        (jobs, dones)
    }
}
