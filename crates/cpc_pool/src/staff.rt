//! The threads of a pool: starting them, and joining them.
ghost use Rattle.std.specs.Prelude.{◌≡◌, ◌<◌, ◌≤◌, ◌+◌, ℕ, [], true, All, IfOk, IfSome, OnOk, MatchOption, length, vec_len, vec_capacity};
ghost use Rattle.std.specs.Arc.{arc_value};
ghost use Rattle.crossbeam_channel.specs.Claims.{view as job_view, IsSeatAt};
ghost use Rattle.crossbeam_channel.specs.Ends.{sends_on, receives_on};
ghost use Rattle.crossbeam_queue.specs.Passes.{view as done_view, IsPassOf};
ghost use Rattle.cpc_pool_jobs.specs.Views.{submitter, hiring as job_hiring};
ghost use Rattle.cpc_pool_ends.specs.Views.{loops, hiring as done_hiring};
ghost use Rattle.cpc_pool.specs.Passes.{Submits, Pops, WorksAt, PushesAt};

use super::gate::Gate;
use super::worker::{Crew, Gives, Left, work};
use cpc_pool_ends::DonePass;
use cpc_pool_jobs::{JobPass, Receiver, Runner, Sender};
use std::alloc::{AllocError, Global};
use std::marker::PhantomData;
use std::snapshot::Snapshot;
use std::sync::Wait;
use std::thread;
use std::thread::{PromisedHandle, Threads};

/// A worker that was started. It is let go of by `join_last` alone: it is not `Drop`, though the handle is, whose drop lets the thread
/// run on.
pub struct Worker<W: Runner> {
    handle: PromisedHandle<Left<W>, Gives<W>>,
}

// Starts one worker. `None` where no thread can be made, or memory for it is wanting.
fn start_one<W, G, R>(
    rt: &R,
    sender: &Sender<W>,
    receiver: &Receiver<W>,
    crew: &Crew<W, G>,
    number: u64,
    jobs: &mut JobPass<W>,
    dones: &mut DonePass<W>,
) -> Option<Worker<W>>
where
    W: Runner + Send + Sync + 'static,
    W::Job: Send + 'static,
    W::End: Send + 'static,
    G: Gate + Send + Sync + 'static,
    R: Threads + Wait + Copy + Send + 'static,
    requires ends { receives_on receiver.now ≡ sends_on sender.now }
    requires jobs { Submits (sends_on sender.now) jobs.old }
    requires dones { Pops (arc_value crew.now.dones) dones.old × ((done_view dones.old).workers ≡ number) }
    ensures jobs { IsSeatAt (sends_on sender.now) jobs.new × (job_view jobs.new ≡ job_hiring (job_view jobs.old)) }
    ensures dones { IsPassOf (arc_value crew.now.dones) dones.new × (done_view dones.new ≡ done_hiring (done_view dones.old)) }
    ensures ours { IfSome result (λ h. (receives_on h.handle.promise.jobs.value ≡ sends_on sender.now) × (arc_value h.handle.promise.dones.value ≡ arc_value crew.now.dones)) }
{
    let taking = cpc_pool_jobs::hire(sender, jobs);
    let bringing = cpc_pool_ends::hire(&crew.dones, dones);
    let Ok(theirs) = receiver.try_clone() else {
        return None;
    };
    let Ok(crew) = crew.again() else {
        return None;
    };
    let handle = *rt;
    let promise = Gives {
        jobs: Snapshot::of(&theirs),
        dones: Snapshot::of(&crew.dones),
        number,
        of: PhantomData,
    };
    match thread::spawn_with(
        rt,
        promise,
        move || -> Left<W>
            requires { WorksAt (receives_on theirs) taking × PushesAt (arc_value crew.dones) number bringing }
            ensures { WorksAt (receives_on theirs) result.0 × PushesAt (arc_value crew.dones) number result.1 × OnOk result.2 ((job_view result.0).stopped ≡ true) }
        { work(&handle, &crew, &theirs, number, taking, bringing) },
    ) {
        Ok(handle) => Some(Worker { handle }),
        Err(_) => None,
    }
}

// Keeps a worker beside the others.
fn keep<W: Runner, G: Gate>(
    sender: &Sender<W>,
    crew: &Crew<W, G>,
    started: &mut Vec<Worker<W>>,
    worker: Worker<W>,
)
    requires room { vec_len started.old < vec_capacity started.old }
    requires ours { All (λ h. (receives_on h.handle.promise.jobs.value ≡ sends_on sender.now) × (arc_value h.handle.promise.dones.value ≡ arc_value crew.now.dones)) started.old.items }
    requires new { (receives_on worker.handle.promise.jobs.value ≡ sends_on sender.now) × (arc_value worker.handle.promise.dones.value ≡ arc_value crew.now.dones) }
    ensures ours { All (λ h. (receives_on h.handle.promise.jobs.value ≡ sends_on sender.now) × (arc_value h.handle.promise.dones.value ≡ arc_value crew.now.dones)) started.new.items }
    ensures len { vec_len started.new ≡ vec_len started.old + 1 }
    ensures room { vec_capacity started.new ≡ vec_capacity started.old }
{
    started.push_reserved(worker);
}

// Starts one worker more, if a thread can be made and memory for it is there.
fn start_next<W, G, R>(
    rt: &R,
    sender: &Sender<W>,
    receiver: &Receiver<W>,
    crew: &Crew<W, G>,
    number: u64,
    jobs: &mut JobPass<W>,
    dones: &mut DonePass<W>,
    started: &mut Vec<Worker<W>>,
)
where
    W: Runner + Send + Sync + 'static,
    W::Job: Send + 'static,
    W::End: Send + 'static,
    G: Gate + Send + Sync + 'static,
    R: Threads + Wait + Copy + Send + 'static,
    requires ends { receives_on receiver.now ≡ sends_on sender.now }
    requires jobs { Submits (sends_on sender.now) jobs.old }
    requires dones { Pops (arc_value crew.now.dones) dones.old × ((done_view dones.old).workers ≡ number) }
    requires room { vec_len started.old < vec_capacity started.old }
    requires ours { All (λ h. (receives_on h.handle.promise.jobs.value ≡ sends_on sender.now) × (arc_value h.handle.promise.dones.value ≡ arc_value crew.now.dones)) started.old.items }
    ensures jobs { IsSeatAt (sends_on sender.now) jobs.new × (job_view jobs.new ≡ job_hiring (job_view jobs.old)) }
    ensures dones { IsPassOf (arc_value crew.now.dones) dones.new × (done_view dones.new ≡ done_hiring (done_view dones.old)) }
    ensures ours { All (λ h. (receives_on h.handle.promise.jobs.value ≡ sends_on sender.now) × (arc_value h.handle.promise.dones.value ≡ arc_value crew.now.dones)) started.new.items }
    ensures len { vec_len started.new ≤ vec_len started.old + 1 }
    ensures room { vec_capacity started.new ≡ vec_capacity started.old }
{
    if let Some(worker) = start_one(rt, sender, receiver, crew, number, jobs, dones) {
        keep(sender, crew, started, worker);
    }
}

/// Starts up to so many workers: fewer only where threads cannot be made, or memory for one is wanting (no clause says so). An error is
/// want of memory, before any worker was started.
pub fn start_all<W, G, R>(
    rt: &R,
    alloc: Global,
    sender: &Sender<W>,
    receiver: &Receiver<W>,
    crew: &Crew<W, G>,
    workers: u32,
    jobs: &mut JobPass<W>,
    dones: &mut DonePass<W>,
) -> Result<Vec<Worker<W>>, AllocError>
where
    W: Runner + Send + Sync + 'static,
    W::Job: Send + 'static,
    W::End: Send + 'static,
    G: Gate + Send + Sync + 'static,
    R: Threads + Wait + Copy + Send + 'static,
    requires ends { receives_on receiver.now ≡ sends_on sender.now }
    requires jobs { IsSeatAt (sends_on sender.now) jobs.old × (job_view jobs.old ≡ submitter [] 0 0 []) }
    requires dones { IsPassOf (arc_value crew.now.dones) dones.old × (done_view dones.old ≡ loops [] 0 []) }
    ensures jobs { OnOk result (IsSeatAt (sends_on sender.now) jobs.new × (job_view jobs.new ≡ submitter [] 0 workers [])) }
    ensures dones { OnOk result (IsPassOf (arc_value crew.now.dones) dones.new × (done_view dones.new ≡ loops [] workers [])) }
    ensures ours { IfOk result (λ v. All (λ h. (receives_on h.handle.promise.jobs.value ≡ sends_on sender.now) × (arc_value h.handle.promise.dones.value ≡ arc_value crew.now.dones)) v.items) }
    ensures len { IfOk result (λ v. vec_len v ≤ workers) }
{
    let mut started = Vec::with_capacity(alloc, workers as usize)?;
    for n in 0..workers {
        start_next(
            rt,
            sender,
            receiver,
            crew,
            u64::from(n),
            jobs,
            dones,
            &mut started,
        );
    }
    Ok(started)
}

// The last of the workers.
fn last<W: Runner, G: Gate>(
    sender: &Sender<W>,
    crew: &Crew<W, G>,
    started: &mut Vec<Worker<W>>,
) -> Option<Worker<W>>
    requires ours { All (λ h. (receives_on h.handle.promise.jobs.value ≡ sends_on sender.now) × (arc_value h.handle.promise.dones.value ≡ arc_value crew.now.dones)) started.old.items }
    ensures ours { All (λ h. (receives_on h.handle.promise.jobs.value ≡ sends_on sender.now) × (arc_value h.handle.promise.dones.value ≡ arc_value crew.now.dones)) started.new.items }
    ensures last { IfSome result (λ h. (receives_on h.handle.promise.jobs.value ≡ sends_on sender.now) × (arc_value h.handle.promise.dones.value ≡ arc_value crew.now.dones)) }
    ensures len { MatchOption result (vec_len started.old ≡ 0) (λ h. vec_len started.old ≡ vec_len started.new + 1) }
{
    started.pop()
}

// Joins one worker, which is there, and takes its passes in.
fn join_last<W: Runner, G: Gate, R: Threads>(
    rt: &R,
    sender: &Sender<W>,
    crew: &Crew<W, G>,
    started: &mut Vec<Worker<W>>,
    jobs: &mut JobPass<W>,
    dones: &mut DonePass<W>,
)
    requires some { 0 < vec_len started.old }
    requires ours { All (λ h. (receives_on h.handle.promise.jobs.value ≡ sends_on sender.now) × (arc_value h.handle.promise.dones.value ≡ arc_value crew.now.dones)) started.old.items }
    requires jobs { Submits (sends_on sender.now) jobs.old }
    requires dones { Pops (arc_value crew.now.dones) dones.old }
    ensures len { vec_len started.old ≡ vec_len started.new + 1 }
    ensures ours { All (λ h. (receives_on h.handle.promise.jobs.value ≡ sends_on sender.now) × (arc_value h.handle.promise.dones.value ≡ arc_value crew.now.dones)) started.new.items }
    ensures jobs { Submits (sends_on sender.now) jobs.new × ((job_view jobs.new).sent ≡ (job_view jobs.old).sent) }
    ensures dones { Pops (arc_value crew.now.dones) dones.new × ((done_view dones.new).popped ≡ (done_view dones.old).popped) }
    ensures kept { (length (job_view jobs.new).kept ≡ length (job_view jobs.old).kept + 1) × (length (done_view dones.new).kept ≡ length (done_view dones.old).kept + 1) }
    // No worker was hired, so the passes that were taken in are those of one that has ended.
    ensures hired { ((job_view jobs.new).workers ≡ (job_view jobs.old).workers) × ((done_view dones.new).workers ≡ (done_view dones.old).workers) }
{
    let Some(worker) = last(sender, crew, started) else {
        unreachable!()
    };
    let Worker { handle } = worker;
    let (taking, bringing, _) = handle.join(rt);
    cpc_pool_jobs::retire(sender, jobs, taking);
    cpc_pool_ends::retire(&crew.dones, dones, bringing);
}

/// Joins all workers, and takes the passes of each in.
pub fn join_all<W: Runner, G: Gate, R: Threads>(
    rt: &R,
    sender: &Sender<W>,
    crew: &Crew<W, G>,
    started: Vec<Worker<W>>,
    jobs: &mut JobPass<W>,
    dones: &mut DonePass<W>,
)
    requires ours { All (λ h. (receives_on h.handle.promise.jobs.value ≡ sends_on sender.now) × (arc_value h.handle.promise.dones.value ≡ arc_value crew.now.dones)) started.items }
    requires jobs { Submits (sends_on sender.now) jobs.old }
    requires dones { Pops (arc_value crew.now.dones) dones.old }
    ensures jobs { Submits (sends_on sender.now) jobs.new × ((job_view jobs.new).sent ≡ (job_view jobs.old).sent) }
    ensures dones { Pops (arc_value crew.now.dones) dones.new × ((done_view dones.new).popped ≡ (done_view dones.old).popped) }
    ensures kept { (length (job_view jobs.new).kept ≡ length (job_view jobs.old).kept + vec_len started) × (length (done_view dones.new).kept ≡ length (done_view dones.old).kept + vec_len started) }
    ensures hired { ((job_view jobs.new).workers ≡ (job_view jobs.old).workers) × ((done_view dones.new).workers ≡ (done_view dones.old).workers) }
{
    let mut left = started;
    while !left.is_empty() {
        join_last(rt, sender, crew, &mut left, jobs, dones);
    }
    left.destroy_empty();
}
