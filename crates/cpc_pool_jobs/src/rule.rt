//! The rule of the channel, and what each kind of step tells.
ghost use Rattle.std.specs.Prelude.{[]};
ghost use Rattle.cpc_pool_jobs.specs.Views.{submitter};
ghost use Rattle.cpc_pool_jobs.specs.Rule.{Ruled};

use super::message::Message;
use super::runner::Runner;
use super::views::View;
use crossbeam_channel::protocol::{Join, Lesson, Outcome, Protocol, Split};
use std::marker::PhantomData;

/// What the channel holds, and what each pass knows.
pub struct Rule<W: Runner>(PhantomData<W>);

impl<W: Runner> Protocol<Message<W::Job>, View> for Rule<W> {
    ghost holds = { Ruled W.number W.meets };

    ghost first = { submitter [] 0 0 [] };
}

/// A message is sent.
pub struct Sends<W: Runner>(PhantomData<W>);

impl<W: Runner> Outcome<Message<W::Job>, View> for Sends<W> {
    ghost use Rattle.std.specs.Prelude.{◌≡◌};
    ghost use Rattle.cpc_pool_jobs.specs.Views.{after_send};

    ghost then = { λ v x w. w ≡ after_send W.number v x };
}

impl<W: Runner> Lesson<Message<W::Job>, View> for Sends<W> {
    ghost use Rattle.std.specs.Prelude.{⊤};

    ghost fact = { λ v items. ⊤ };
}

/// A message is received.
pub struct Takes<W: Runner>(PhantomData<W>);

impl<W: Runner> Outcome<Message<W::Job>, View> for Takes<W> {
    ghost use Rattle.cpc_pool_jobs.specs.Views.{Takes};

    ghost then = { Takes W.number W.meets };
}

impl<W: Runner> Lesson<Message<W::Job>, View> for Takes<W> {
    ghost use Rattle.cpc_pool_jobs.specs.Views.{Sees};

    ghost fact = { Sees W.number };
}

/// A worker is made, and ends.
pub struct Workers;

impl Split<View> for Workers {
    ghost use Rattle.cpc_pool_jobs.specs.Views.{hiring, hired};

    ghost left = { hiring };

    ghost right = { hired };
}

impl Join<View> for Workers {
    ghost use Rattle.cpc_pool_jobs.specs.Views.{keeping, spent};

    ghost both = { keeping };

    ghost spent = { spent };
}

/// What was sent was taken by the workers, but for what the channel holds.
pub struct Settles<W: Runner>(PhantomData<W>);

impl<W: Runner> Lesson<Message<W::Job>, View> for Settles<W> {
    ghost use Rattle.cpc_pool_jobs.specs.Views.{Settled};

    ghost fact = { Settled W.number };
}
