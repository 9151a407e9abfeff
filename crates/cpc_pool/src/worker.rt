//! What a worker does in its thread.
ghost use Rattle.std.specs.Prelude.{◌≡◌, ◌⊎◌, ℕ, true, IfOk, OnOk};
ghost use Rattle.std.specs.Arc.{arc_value};
ghost use Rattle.crossbeam_channel.specs.Claims.{view as job_view, IsSeatAt};
ghost use Rattle.crossbeam_channel.specs.Ends.{receives_on};
ghost use Rattle.crossbeam_queue.specs.Passes.{view as done_view, IsPassOf};
ghost use Rattle.cpc_pool_ends.specs.Views.{after_push};
ghost use Rattle.cpc_pool.specs.Acts.{Brought, Worked};
ghost use Rattle.cpc_pool.specs.Passes.{WorksAt, PushesAt};

use super::bell::Bell;
use super::gate::Gate;
use cpc_pool_ends::{Done, DoneOf, DonePass, Dones, push};
use cpc_pool_jobs::{Closed, JobPass, Message, Receiver, Runner, take};
use std::alloc::{AllocError, Global};
use std::marker::PhantomData;
use std::snapshot::Snapshot;
use std::sync::atomic::{AtomicBool, Ordering};
use std::sync::{Arc, Wait};
use std::thread;
use std::thread::Promise;

/// What all workers of a pool share.
pub struct Crew<W: Runner, G: Gate> {
    /// Runs the jobs.
    pub runner: Arc<W, Global>,
    /// Is called around each job that a worker runs.
    pub gate: Arc<G, Global>,
    /// Brings the completions back.
    pub dones: Arc<Dones<W>, Global>,
    /// Rings after each completion.
    pub bell: Arc<Bell, Global>,
    /// Whether nobody asks for completions any more.
    pub over: Arc<AtomicBool, Global>,
}

impl<W: Runner + Drop, G: Gate + Drop> Drop for Crew<W, G> {
    fn drop(self) {
        let Crew {
            runner,
            gate,
            dones,
            bell,
            over,
        } = self;
        drop(runner);
        drop(gate);
        drop(dones);
        drop(bell);
        drop(over);
    }
}

impl<W: Runner, G: Gate> Crew<W, G> {
    /// What is shared over this queue, by workers whose completions are asked for. An error is want of memory.
    pub fn new(
        alloc: Global,
        runner: Arc<W, Global>,
        gate: Arc<G, Global>,
        queue: Dones<W>,
    ) -> Result<Crew<W, G>, AllocError>
        ensures dones { IfOk result (λ c. arc_value c.dones ≡ queue) }
        ensures others { IfOk result (λ c. (arc_value c.runner ≡ arc_value runner) × (arc_value c.gate ≡ arc_value gate)) }
    {
        Ok(Crew {
            runner,
            gate,
            dones: Arc::new(alloc, queue)?,
            bell: Arc::new(alloc, Bell::new())?,
            over: Arc::new(alloc, AtomicBool::new(false))?,
        })
    }

    /// The same once more, for another thread. An error is want of memory.
    pub fn again(&self) -> Result<Crew<W, G>, AllocError>
        ensures dones { IfOk result (λ c. arc_value c.dones ≡ arc_value self.now.dones) }
        ensures others { IfOk result (λ c. (arc_value c.runner ≡ arc_value self.now.runner) × (arc_value c.gate ≡ arc_value self.now.gate) × (arc_value c.bell ≡ arc_value self.now.bell) × (arc_value c.over ≡ arc_value self.now.over)) }
    {
        Ok(Crew {
            runner: Arc::try_clone(&self.runner)?,
            gate: Arc::try_clone(&self.gate)?,
            dones: Arc::try_clone(&self.dones)?,
            bell: Arc::try_clone(&self.bell)?,
            over: Arc::try_clone(&self.over)?,
        })
    }
}

// Pushes a completion. Where the queue is full it tries again.
fn bring<W: Runner, R: Wait>(
    rt: &R,
    dones: &Dones<W>,
    number: u64,
    pass: &mut DonePass<W>,
    done: DoneOf<W>,
)
    requires role { PushesAt dones.now number pass.old × (done.worker ≡ number) }
    requires ends { W.ends done.job done.end }
    ensures role { PushesAt dones.now number pass.new }
    ensures pushed { done_view pass.new ≡ after_push (done_view pass.old) done }
{
    let mut left = done;
    for _ in rt.forever() {
        match push(rt, dones, pass, left) {
            Ok(()) => return,
            Err(back) => {
                left = back;
                thread::yield_now();
            }
        }
    }
    unreachable!()
}

// Runs a job, and brings its completion, which has the job's own end.
fn run_one<W: Runner, G: Gate, R: Wait>(
    rt: &R,
    crew: &Crew<W, G>,
    number: u64,
    bringing: &mut DonePass<W>,
    job: W::Job,
)
    requires role { PushesAt (arc_value crew.now.dones) number bringing.old }
    requires meets { W.meets job }
    ensures role { PushesAt (arc_value crew.now.dones) number bringing.new }
    ensures brought { Brought W.ends number job (done_view bringing.old) (done_view bringing.new) }
{
    let at = W::number_of(&job);
    crew.gate.before(at);
    let end = crew.runner.run(&job);
    crew.gate.after(at);
    let done = Done {
        worker: number,
        job,
        end,
    };
    bring(rt, &crew.dones, number, bringing, done);
    crew.bell.ring(rt);
}

// Runs a job, and brings its completion. A job whose end nobody asks for any more is not run.
fn work_on<W: Runner, G: Gate, R: Wait>(
    rt: &R,
    crew: &Crew<W, G>,
    number: u64,
    bringing: &mut DonePass<W>,
    job: W::Job,
)
    requires role { PushesAt (arc_value crew.now.dones) number bringing.old }
    requires meets { W.meets job }
    ensures role { PushesAt (arc_value crew.now.dones) number bringing.new }
    ensures brought { (done_view bringing.new ≡ done_view bringing.old) ⊎ Brought W.ends number job (done_view bringing.old) (done_view bringing.new) }
{
    if crew.over.load(Ordering::SeqCst) {
        return;
    }
    run_one(rt, crew, number, bringing, job);
}

/// What a worker gives back when it ends: its two passes, and whether it was told to stop or nobody sends any more.
pub type Left<W> = (JobPass<W>, DonePass<W>, Result<(), Closed>);

/// Takes jobs and brings completions, each with the end of its own job, until it is told to stop or nobody sends any more. Once the
/// pool stops, jobs are taken and not run.
pub fn work<W: Runner, G: Gate, R: Wait>(
    rt: &R,
    crew: &Crew<W, G>,
    jobs: &Receiver<W>,
    number: u64,
    mut taking: JobPass<W>,
    mut bringing: DonePass<W>,
) -> Left<W>
    requires jobs { WorksAt (receives_on jobs.now) taking }
    requires dones { PushesAt (arc_value crew.now.dones) number bringing }
    ensures jobs { WorksAt (receives_on jobs.now) result.0 }
    ensures dones { PushesAt (arc_value crew.now.dones) number result.1 }
    ensures worked { Worked W.number W.ends number (job_view taking) (job_view result.0) (done_view bringing) (done_view result.1) }
    ensures stopped { OnOk result.2 ((job_view result.0).stopped ≡ true) }
{
    for _ in rt.forever() {
        match take(rt, jobs, &mut taking) {
            Ok(Message::Work(job)) => work_on(rt, crew, number, &mut bringing, job),
            Ok(Message::Stop) => return (taking, bringing, Ok(())),
            Err(closed) => return (taking, bringing, Err(closed)),
        }
    }
    unreachable!()
}

/// What is known of what a worker's thread gives back.
#[derive(Drop)]
pub struct Gives<W: Runner> {
    /// The channel.
    pub jobs: Snapshot<Receiver<W>>,
    /// The queue.
    pub dones: Snapshot<Arc<Dones<W>, Global>>,
    /// The number of the worker.
    pub number: u64,
    /// What is run.
    pub of: PhantomData<W>,
}

impl<W: Runner> Promise<Left<W>> for Gives<W> {
    ghost use Rattle.std.specs.Prelude.{◌≡◌, true, OnOk};
    ghost use Rattle.std.specs.Arc.{arc_value};
    ghost use Rattle.crossbeam_channel.specs.Claims.{view as job_view};
    ghost use Rattle.crossbeam_channel.specs.Ends.{receives_on};
    ghost use Rattle.cpc_pool.specs.Passes.{WorksAt, PushesAt};

    ghost kept_by = { λ p r. WorksAt (receives_on p.jobs.value) r.0 × PushesAt (arc_value p.dones.value) p.number r.1 × OnOk r.2 ((job_view r.0).stopped ≡ true) };
}
