//! What an agenda does, act by act, with ample memory: waits and signals, sleeps, descriptors and sections, and their polls.
ghost use Rattle.std.specs.Prelude.{◌≤◌, ◌^◌, IfOk};

use cpc_agenda::Agenda;
use cpc_base::{Direction, Event, Stop};
use cpc_history_marks::Told;
use cpc_num::{Fault, Kind};
use cpc_store::Value;
use std::alloc::{AllocError, Global};

/// An act on an agenda. An item is a number.
#[derive(Clone, Copy)]
enum Act<'a> {
    /// A condition is made.
    Makes,
    /// This condition is released.
    Frees(u64),
    /// An item waits on this condition.
    Waits(u64, u32),
    /// The longest waiter of this condition is woken.
    Signals(u64),
    /// All its waiters are.
    SignalsAll(u64),
    /// An item sleeps for so many microseconds.
    Sleeps(i64, u32),
    /// An item waits for this descriptor.
    Watches(i64, Direction, u32),
    /// An item waits for a section of its own.
    Submits(u32),
    /// A poll tells the clock and these events; each section that ends has the value 42.
    Polls(u32, &'a [Event]),
    /// The next item of the round is taken, or of the next round where this one is over.
    Takes,
}

/// What an act comes to.
#[derive(Clone, Copy, PartialEq, Eq)]
enum Seen {
    /// It was done.
    Went,
    /// It was done, and gave this number.
    Number(u64),
    /// This item was taken, with the value of a section or without one.
    Item(u32, bool),
    /// There was nothing to take.
    Nothing,
    /// It was refused by this fault.
    Faulted(Fault),
    /// A poll told of this section, which is not out.
    NotOut(u64),
    /// Memory, or numbers, were wanting.
    Starved,
}

const ENDED: Value = Value::Int(Kind::Int, 42);

fn stopped(stop: Stop<Fault>) -> Seen {
    match stop {
        Stop::Memory => Seen::Starved,
        Stop::Fault(fault) => Seen::Faulted(fault),
    }
}

fn went(given: Result<(), (u32, Stop<Fault>)>) -> Seen {
    match given {
        Ok(()) => Seen::Went,
        Err((_, stop)) => stopped(stop),
    }
}

fn numbered(given: Result<u64, (u32, Stop<Fault>)>) -> Seen {
    match given {
        Ok(number) => Seen::Number(number),
        Err((_, stop)) => stopped(stop),
    }
}

fn signalled(given: Result<(), Stop<Fault>>) -> Seen {
    match given {
        Ok(()) => Seen::Went,
        Err(stop) => stopped(stop),
    }
}

fn taken(agenda: &mut Agenda<u32>) -> Seen {
    let first = agenda.next();
    if first.is_none() {
        agenda.begin_round();
    }
    match first.or_else(|| agenda.next()) {
        Some((item, value)) => Seen::Item(item, value == ENDED),
        None => Seen::Nothing,
    }
}

fn told(alloc: Global, clock: u32, events: &[Event]) -> Result<Told, AllocError>
    ensures { IfOk result (λ told. told.clock ≤ 2 ^ 53) }
{
    Ok(Told {
        clock: u64::from(clock),
        events: events.to_vec(alloc)?,
    })
}

fn polled(alloc: Global, agenda: &mut Agenda<u32>, clock: u32, events: &[Event]) -> Seen {
    let Ok(told) = told(alloc, clock, events) else {
        return Seen::Starved;
    };
    match agenda.poll(alloc, &told, &[ENDED, ENDED]) {
        Ok(()) => Seen::Went,
        Err(Stop::Memory) => Seen::Starved,
        Err(Stop::Fault(fault)) => Seen::NotOut(fault.section),
    }
}

fn done(alloc: Global, agenda: &mut Agenda<u32>, act: Act<'_>) -> Seen {
    if !agenda.has_numbers() {
        return Seen::Starved;
    }
    match act {
        Act::Makes => match agenda.cond_new(alloc) {
            Ok(number) => Seen::Number(number),
            Err(_) => Seen::Starved,
        },
        Act::Frees(cond) => match agenda.cond_free(cond) {
            Ok(()) => Seen::Went,
            Err(fault) => Seen::Faulted(fault),
        },
        Act::Waits(cond, item) => went(agenda.wait(cond, item)),
        Act::Signals(cond) => signalled(agenda.signal(cond)),
        Act::SignalsAll(cond) => signalled(agenda.signal_all(cond)),
        Act::Sleeps(length, item) => went(agenda.sleep(length, item)),
        Act::Watches(fd, way, item) => match agenda.io(alloc, fd, way, item) {
            Ok(()) => Seen::Went,
            Err(_) => Seen::Starved,
        },
        Act::Submits(item) => numbered(agenda.section(item)),
        Act::Polls(clock, events) => polled(alloc, agenda, clock, events),
        Act::Takes => taken(agenda),
    }
}

#[test]
fn signals_wake_in_waiting_order_and_are_lost(rt: HostRuntime) {
    let mut agenda = Agenda::new(rt.alloc());
    let not_live = Seen::Faulted(Fault::CondVar);
    for (act, seen) in [
        (Act::Makes, Seen::Number(0)),
        (Act::Makes, Seen::Number(1)),
        (Act::Signals(0), Seen::Went),
        (Act::Signals(2), not_live),
        (Act::Waits(0, 1), Seen::Went),
        (Act::Waits(1, 9), Seen::Went),
        (Act::Waits(0, 2), Seen::Went),
        (Act::Waits(0, 3), Seen::Went),
        (Act::Frees(0), not_live),
        (Act::Signals(0), Seen::Went),
        (Act::Takes, Seen::Item(1, false)),
        (Act::Takes, Seen::Nothing),
        (Act::SignalsAll(0), Seen::Went),
        (Act::Frees(0), Seen::Went),
        (Act::Frees(0), not_live),
        (Act::Waits(0, 4), not_live),
        (Act::Takes, Seen::Item(2, false)),
        (Act::Takes, Seen::Item(3, false)),
        (Act::Takes, Seen::Nothing),
        (Act::Signals(1), Seen::Went),
        (Act::Takes, Seen::Item(9, false)),
    ] {
        assert!(rt; done(rt.alloc(), &mut agenda, act) == seen);
    }
    assert!(rt; !agenda.needs_poll());
}

#[test]
fn polls_wake_sections_then_descriptors_then_timers(rt: HostRuntime) {
    let mut agenda = Agenda::new(rt.alloc());
    let twice = [
        Event::Done(1),
        Event::Ready(7, Direction::Read),
        Event::Done(1),
    ];
    let once = [Event::Ready(7, Direction::Read), Event::Done(1)];
    for (act, seen) in [
        (Act::Sleeps(-1, 9), Seen::Faulted(Fault::Length)),
        (Act::Sleeps(5, 1), Seen::Went),
        (Act::Sleeps(3, 2), Seen::Went),
        (Act::Sleeps(3, 3), Seen::Went),
        (Act::Watches(7, Direction::Read, 4), Seen::Went),
        (Act::Watches(7, Direction::Write, 5), Seen::Went),
        (Act::Watches(-9, Direction::Read, 10), Seen::Went),
        (Act::Watches(7, Direction::Read, 6), Seen::Went),
        (Act::Submits(7), Seen::Number(0)),
        (Act::Submits(8), Seen::Number(1)),
        (Act::Polls(4, &twice), Seen::NotOut(1)),
        (Act::Takes, Seen::Nothing),
        (Act::Polls(4, &once), Seen::Went),
        (Act::Takes, Seen::Item(8, true)),
        (Act::Takes, Seen::Item(4, false)),
        (Act::Takes, Seen::Item(6, false)),
        (Act::Takes, Seen::Item(2, false)),
        (Act::Takes, Seen::Item(3, false)),
        (Act::Takes, Seen::Nothing),
        (Act::Polls(5, &[]), Seen::Went),
        (Act::Takes, Seen::Item(1, false)),
        (Act::Takes, Seen::Nothing),
    ] {
        assert!(rt; done(rt.alloc(), &mut agenda, act) == seen);
    }
    assert_eq!(rt; agenda.now(), 5);
}

// Whether a poll is asked for what the agenda of the test below waits for.
fn asks_for_all(alloc: Global, agenda: &Agenda<u32>) -> bool {
    match agenda.asked(alloc) {
        Ok(asked) => {
            asked.now == 2
                && asked.deadline == Some(3)
                && matches!(
                    asked.descriptors.as_slice(),
                    [(7, Direction::Write), (4, Direction::Read)]
                )
                && asked.sections == 1
        }
        Err(_) => false,
    }
}

#[test]
fn a_poll_is_asked_for_what_waits(rt: HostRuntime) {
    let mut agenda = Agenda::new(rt.alloc());
    for (act, seen) in [
        (Act::Sleeps(5, 1), Seen::Went),
        (Act::Sleeps(3, 2), Seen::Went),
        (Act::Watches(7, Direction::Write, 3), Seen::Went),
        (Act::Watches(4, Direction::Read, 4), Seen::Went),
        (Act::Submits(5), Seen::Number(0)),
        (Act::Polls(2, &[]), Seen::Went),
    ] {
        assert!(rt; done(rt.alloc(), &mut agenda, act) == seen);
    }
    assert!(rt; asks_for_all(rt.alloc(), &agenda));
}

#[test]
fn so_many_sections_are_out_at_most(rt: HostRuntime) {
    let mut agenda = Agenda::new(rt.alloc());
    for number in 0..1024u64 {
        let seen = done(rt.alloc(), &mut agenda, Act::Submits(7));
        assert!(rt; seen == Seen::Number(number));
    }
    let ended = [Event::Done(1000)];
    for (act, seen) in [
        (Act::Submits(7), Seen::Faulted(Fault::Sections)),
        (Act::Polls(1, &ended), Seen::Went),
        (Act::Submits(7), Seen::Number(1024)),
    ] {
        assert!(rt; done(rt.alloc(), &mut agenda, act) == seen);
    }
}
