//! The rule of the queue, and what each kind of step tells.
ghost use Rattle.std.specs.Prelude.{[]};
ghost use Rattle.cpc_pool_ends.specs.Views.{loops};
ghost use Rattle.cpc_pool_ends.specs.Rule.{Ruled};

use super::done::Done;
use super::views::DoneView;
use cpc_pool_jobs::Runner;
use crossbeam_queue::protocol::{Join, Lesson, Outcome, Protocol, Split};
use std::marker::PhantomData;

/// What the queue holds, and what each pass knows.
pub struct DoneRule<W: Runner>(PhantomData<W>);

impl<W: Runner> Protocol<Done<W::Job, W::End>, DoneView<W::Job, W::End>> for DoneRule<W> {
    ghost holds = { Ruled W.ends };

    ghost first = { loops [] 0 [] };
}

/// A completion is pushed.
pub struct Pushing<W: Runner>(PhantomData<W>);

impl<W: Runner> Outcome<Done<W::Job, W::End>, DoneView<W::Job, W::End>> for Pushing<W> {
    ghost use Rattle.std.specs.Prelude.{◌≡◌};
    ghost use Rattle.cpc_pool_ends.specs.Views.{after_push};

    ghost then = { λ v x w. w ≡ after_push v x };
}

impl<W: Runner> Lesson<Done<W::Job, W::End>, DoneView<W::Job, W::End>> for Pushing<W> {
    ghost use Rattle.std.specs.Prelude.{⊤};

    ghost fact = { λ v items. ⊤ };
}

/// A completion is popped.
pub struct Popping<W: Runner>(PhantomData<W>);

impl<W: Runner> Outcome<Done<W::Job, W::End>, DoneView<W::Job, W::End>> for Popping<W> {
    ghost use Rattle.cpc_pool_ends.specs.Views.{Arrives};

    ghost then = { Arrives W.ends };
}

impl<W: Runner> Lesson<Done<W::Job, W::End>, DoneView<W::Job, W::End>> for Popping<W> {
    ghost use Rattle.cpc_pool_ends.specs.Views.{Settled};

    ghost fact = { Settled };
}

/// A worker is made, and ends.
pub struct Workers<W: Runner>(PhantomData<W>);

impl<W: Runner> Split<DoneView<W::Job, W::End>> for Workers<W> {
    ghost use Rattle.cpc_pool_ends.specs.Views.{hiring, hired};

    ghost left = { hiring };

    ghost right = { hired };
}

impl<W: Runner> Join<DoneView<W::Job, W::End>> for Workers<W> {
    ghost use Rattle.cpc_pool_ends.specs.Views.{keeping, spent};

    ghost both = { keeping };

    ghost spent = { spent };
}
