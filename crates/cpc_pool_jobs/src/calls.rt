//! The steps of the channel, for one who makes it, sends, and receives.
ghost use Rattle.std.specs.Prelude.{◌≡◌, ◌<◌, ◌+◌, true, [], ◌∷◌, ◌++◌, IfOk, MatchResult, List};
ghost use Rattle.std.specs.List.{AllByRecursion};
ghost use Rattle.crossbeam_channel.specs.Claims.{view, IsSeatAt};
ghost use Rattle.crossbeam_channel.specs.Ends.{sends_on, receives_on, ruled_capacity};
ghost use Rattle.crossbeam_channel.specs.Fifo.{Held};
ghost use Rattle.cpc_pool_jobs.specs.declared.message.Message.{Message};
ghost use Rattle.cpc_pool_jobs.specs.declared.message.Message.TheVariants.{Work, Stop as Stops};
ghost use Rattle.cpc_pool_jobs.specs.Views.{submitter, after_send, hiring, hired, keeping, Sees, Takes as Took, Settled};

use super::message::Message;
use super::rule::{Rule, Sends, Settles, Takes, Workers};
use super::runner::Runner;
use super::views::View;
use crossbeam_channel::{Pass, RuledReceiver, RuledSender, bounded_with};
use std::alloc::{AllocError, Global};
use std::sync::Wait;

/// The end that sends.
pub type Sender<W> = RuledSender<Message<<W as Runner>::Job>, View, Rule<W>>;

/// The end that receives.
pub type Receiver<W> = RuledReceiver<Message<<W as Runner>::Job>, View, Rule<W>>;

/// What the submitter or a worker knows.
pub type JobPass<W> = Pass<Message<<W as Runner>::Job>, View>;

/// A channel in which nothing was sent, with room for so many messages, and the submitter's pass. An error is want of memory.
pub fn begin<W: Runner>(
    alloc: Global,
    room: usize,
) -> Result<(Sender<W>, Receiver<W>, JobPass<W>), AllocError>
    requires { 0 < room }
    ensures ends { IfOk result (λ r. (receives_on r.1 ≡ sends_on r.0) × IsSeatAt (sends_on r.0) r.2) }
    ensures nothing { IfOk result (λ r. view r.2 ≡ submitter [] 0 0 []) }
    ensures room { IfOk result (λ r. ruled_capacity (sends_on r.0) ≡ room) }
{
    bounded_with(alloc, room)
}

/// A job could not be sent. It is made by `send` alone, where the channel failed, so that whoever has one has seen that.
#[derive(Drop)]
pub struct Unsent(());

/// Sends a job, behind all that were sent: its number is above theirs, and no stop was sent yet. It waits where the channel is full.
/// At an error nobody receives any more (no clause says so): the job comes back, and nothing was sent.
pub fn send<W: Runner, R: Wait>(
    rt: &R,
    sender: &Sender<W>,
    pass: &mut JobPass<W>,
    job: W::Job,
) -> Result<(), (W::Job, Unsent)>
    requires seat { IsSeatAt (sends_on sender.now) pass.old }
    requires role { ((view pass.old).submits ≡ true) × ((view pass.old).stops ≡ 0) }
    requires number { AllByRecursion (λ n. n < W.number job) (view pass.old).sent }
    requires meets { W.meets job }
    ensures seat { IsSeatAt (sends_on sender.now) pass.new × (pass.new.id ≡ pass.old.id) }
    ensures sent { MatchResult result (λ _. view pass.new ≡ after_send W.number (view pass.old) (Work job)) (λ e. (view pass.new ≡ view pass.old) × (e.0 ≡ job)) }
{
    match sender.send_as::<Sends<W>, R>(rt, pass, Message::Work(job)) {
        Ok(()) => Ok(()),
        Err(e) => match e.into_inner() {
            Message::Work(job) => Err((job, Unsent(()))),
            Message::Stop => unreachable!(),
        },
    }
}

/// Tells one worker to stop. It waits where the channel is full. At an error, which has the stop, nobody receives any more (no clause
/// says so), and nothing was sent.
pub fn send_stop<W: Runner, R: Wait>(
    rt: &R,
    sender: &Sender<W>,
    pass: &mut JobPass<W>,
) -> Result<(), Message<W::Job>>
    requires seat { IsSeatAt (sends_on sender.now) pass.old }
    requires role { (view pass.old).submits ≡ true }
    ensures seat { IsSeatAt (sends_on sender.now) pass.new × (pass.new.id ≡ pass.old.id) }
    ensures sent { MatchResult result (λ _. view pass.new ≡ after_send W.number (view pass.old) Stops) (λ m. (view pass.new ≡ view pass.old) × (m ≡ Stops)) }
{
    match sender.send_as::<Sends<W>, R>(rt, pass, Message::Stop) {
        Ok(()) => Ok(()),
        Err(e) => Err(e.into_inner()),
    }
}

/// Nobody sends any more. It is made by `take` alone, where the channel failed, so that whoever has one has seen that.
#[derive(Drop)]
pub struct Closed(());

/// Takes the next message. Where there is none it waits (no clause says so). At an error nobody sends any more (no clause says so),
/// nothing was taken, and the channel was empty at a moment of the call.
pub fn take<W: Runner, R: Wait>(
    rt: &R,
    receiver: &Receiver<W>,
    pass: &mut JobPass<W>,
) -> Result<Message<W::Job>, Closed>
    requires seat { IsSeatAt (receives_on receiver.now) pass.old }
    requires role { (view pass.old).works ≡ true }
    ensures seat { IsSeatAt (receives_on receiver.now) pass.new × (pass.new.id ≡ pass.old.id) }
    ensures took { MatchResult result (λ x. Took W.number W.meets (view pass.old) x (view pass.new)) (λ _. (view pass.new ≡ view pass.old) × Held 0 (Sees W.number (view pass.old))) }
{
    match receiver.recv_as::<Takes<W>, R>(rt, pass) {
        Ok(message) => Ok(message),
        Err(_) => Err(Closed(())),
    }
}

/// A pass for one more worker.
pub fn hire<W: Runner>(sender: &Sender<W>, pass: &mut JobPass<W>) -> JobPass<W>
    requires seat { IsSeatAt (sends_on sender.now) pass.old }
    requires role { (view pass.old).submits ≡ true }
    ensures seat { IsSeatAt (sends_on sender.now) pass.new × (pass.new.id ≡ pass.old.id) × IsSeatAt (sends_on sender.now) result }
    ensures views { (view pass.new ≡ hiring (view pass.old)) × (view result ≡ hired (view pass.old)) }
{
    sender.another::<Workers>(pass)
}

/// Takes the pass of a worker that has ended in, and keeps its list.
pub fn retire<W: Runner>(sender: &Sender<W>, pass: &mut JobPass<W>, worker: JobPass<W>)
    requires seat { IsSeatAt (sends_on sender.now) pass.old × IsSeatAt (sends_on sender.now) worker }
    requires role { ((view pass.old).submits ≡ true) × ((view worker).works ≡ true) }
    ensures seat { IsSeatAt (sends_on sender.now) pass.new × (pass.new.id ≡ pass.old.id) }
    ensures views { view pass.new ≡ keeping (view pass.old) (view worker) }
{
    sender.absorb::<Workers>(pass, worker)
}

/// Tells the submitter what became of all that it sent: it was taken, in order and each job once, but for what the channel holds.
pub fn settle<W: Runner>(sender: &Sender<W>, pass: &mut JobPass<W>)
    requires seat { IsSeatAt (sends_on sender.now) pass.old }
    requires role { (view pass.old).submits ≡ true }
    ensures seat { IsSeatAt (sends_on sender.now) pass.new × (pass.new.id ≡ pass.old.id) }
    ensures settled { (view pass.new ≡ view pass.old) × ((items : List (Message W.Job)) × Settled W.number (view pass.old) items) }
{
    sender.learn_as::<Settles<W>>(pass)
}
