//! Items that wait until a descriptor is ready.
ghost use Rattle.std.specs.Prelude.{◌≡◌, ◌+◌, ◌<◌, ◌^◌, length, map, IfOk, IfErr, OnOk, OnErr};
ghost use Rattle.std.specs.Option.{option_map};
ghost use Rattle.cpc_agenda_queues.specs.Queued.{first_of};
ghost use Rattle.cpc_descr.specs.Descriptors as M;

use cpc_agenda_queues::Queues;
use cpc_base::{Direction, NoMemory};
use std::alloc::Global;
use std::marker::Model;

/// Items that wait, each for a descriptor in a direction.
///
/// The waiters of each descriptor and direction stand in a queue of their own.
#[derive(Drop)]
pub struct Descr<T> {
    queues: Queues<(i64, Direction), T>,
}

impl<T> Model for Descr<T> {
    ghost use Rattle.cpc_descr.specs.Descriptors.{Descriptors, descriptors_of};

    ghost Value = { Descriptors T };

    ghost view = { λ d. descriptors_of d.queues };
}

impl<T: Drop> Descr<T> {
    /// Nobody waits.
    pub fn new(alloc: Global) -> Descr<T>
        ensures { result ≡ M.no_descriptors }
    {
        Descr {
            queues: Queues::new(alloc),
        }
    }

    /// How many items arrived to wait.
    pub fn arrived(&self) -> u64
        ensures { result ≡ self.now.arrived }
    {
        self.queues.arrived()
    }

    /// How many items wait.
    pub fn waiting(&self) -> u64
        ensures { result ≡ length self.now.waiters }
    {
        self.queues.waiting()
    }

    /// The item waits for the descriptor. `NoMemory` is want of memory: it comes with the item, and leaves the waiters as
    /// they were.
    pub fn add(
        &mut self,
        alloc: Global,
        fd: i64,
        way: Direction,
        item: T,
    ) -> Result<(), (T, NoMemory)>
        requires { self.old.arrived + 1 < 2 ^ 63 }
        ensures ok { OnOk result (self.new ≡ M.add fd way item self.old) }
        ensures err { OnErr result (self.new ≡ self.old) }
        ensures back { IfErr result (λ e. e.0 ≡ item) }
    {
        let place = place(fd, way);
        if self.queues.is_open(place) {
            return self.queues.wait(place, item);
        }
        match self.queues.open(alloc, place) {
            Ok(()) => self.queues.wait(place, item),
            Err(error) => Err((item, error)),
        }
    }

    /// The longest waiter of the descriptor in this direction, which waits no longer; none where nobody waits for it.
    pub fn first(&mut self, fd: i64, way: Direction) -> Option<T>
        ensures item { result ≡ option_map M.item_of (first_of (M.first_waiter fd way self.old)) }
        ensures taken { self.new ≡ M.take_first fd way self.old }
    {
        let place = place(fd, way);
        let item = self.queues.first(place);
        if self.queues.is_idle(place) {
            self.queues.close(place);
        }
        item
    }

    /// The descriptor and the direction of each waiter, in order of arrival. `NoMemory` is want of memory.
    pub fn waited(&self, alloc: Global) -> Result<Vec<(i64, Direction)>, NoMemory>
        ensures { IfOk result (λ places. places.items ≡ map M.place_of self.now.waiters) }
    {
        let places = self.queues.waited(alloc)?;
        Ok(places)
    }
}

/// The key of a descriptor in a direction.
fn place(fd: i64, way: Direction) -> (i64, Direction)
    ensures { result ≡ (fd, way) }
{
    (fd, way)
}
