//! Waits of the event loop where many wait, so that a script can time them: `bench_loop WAITERS KIND COUNT`.
//!
//! So many items wait, and COUNT times one is woken, has its turn and waits again. KIND is `condition` (all wait on one,
//! and the longest waiter is signalled), `timer` (each sleeps up to a second, and a poll tells the least deadline) or
//! `descriptor` (each waits for one of its own, and a poll tells one that a generator picks). It prints how many were
//! woken, and no time.
#![tactic(auto)]

use cpc_agenda::Agenda;
use cpc_base::{Direction, Event};
use cpc_history_marks::Told;
use rand_core::SeedableRng;
use rand_core::utils::NextWord;
use rand_xoshiro::SplitMix64;
use std::alloc::Global;
use std::{env, io};

/// The greatest clock of a poll.
const MOST_CLOCK: u64 = 1 << 53;

/// What is waited for.
#[derive(Clone, Copy)]
enum Kind {
    Condition,
    Timer,
    Descriptor,
}

/// The loop's lists, and the generator that picks.
#[derive(Drop)]
struct Bench {
    agenda: Agenda<u64>,
    waiters: u64,
    picks: SplitMix64,
}

impl Bench {
    // The next number that is picked.
    fn pick(&mut self) -> u64 {
        self.picks.next_word() >> 44
    }

    // An item waits, and says whether it does.
    fn waits(&mut self, alloc: Global, kind: Kind, item: u64) -> bool {
        let length = self.pick();
        if !self.agenda.has_numbers() {
            return false;
        }
        match kind {
            Kind::Condition => self.agenda.wait(0, item).is_ok(),
            Kind::Timer => self.agenda.sleep((length % 1_000_000) as i64, item).is_ok(),
            Kind::Descriptor => self
                .agenda
                .io(alloc, (item % MOST_CLOCK) as i64, Direction::Read, item)
                .is_ok(),
        }
    }

    // One or more items become ready.
    fn wakes(&mut self, alloc: Global, kind: Kind) -> bool {
        if let Kind::Condition = kind {
            return self.agenda.signal(0).is_ok();
        }
        let Some(told) = self.poll(alloc, kind) else {
            return false;
        };
        told.clock <= MOST_CLOCK && self.agenda.poll(alloc, &told, &[]).is_ok()
    }

    // The least deadline, or a descriptor.
    fn poll(&mut self, alloc: Global, kind: Kind) -> Option<Told> {
        let mut events = Vec::new(alloc);
        if let Kind::Timer = kind {
            let asked = self.agenda.asked(alloc).ok()?;
            let clock = asked.deadline?;
            return Some(Told { clock, events });
        }
        let clock = self.agenda.now();
        let picked = self.pick();
        let fd = if self.waiters > 0 {
            picked % self.waiters
        } else {
            0
        };
        events
            .push(Event::Ready((fd % MOST_CLOCK) as i64, Direction::Read))
            .ok()?;
        Some(Told { clock, events })
    }

    // The items that are ready have their turn and wait again, and says how many.
    fn turns(&mut self, alloc: Global, kind: Kind, count: u64) -> u64 {
        let mut done = 0u64;
        for _ in 0..count {
            match self.agenda.next() {
                Some((item, _)) => {
                    if self.waits(alloc, kind, item) {
                        done = done.saturating_add(1);
                    }
                }
                None => {
                    self.agenda.begin_round();
                    if !self.wakes(alloc, kind) {
                        return done;
                    }
                }
            }
        }
        done
    }
}

// So many items wait.
fn fill(alloc: Global, kind: Kind, waiters: u64) -> Option<Bench> {
    let mut bench = Bench {
        agenda: Agenda::new(alloc),
        waiters,
        picks: SplitMix64::seed_from_u64(12_345),
    };
    if !bench.agenda.has_numbers() {
        return None;
    }
    bench.agenda.cond_new(alloc).ok()?;
    for item in 0..waiters {
        if !bench.waits(alloc, kind, item) {
            return None;
        }
    }
    Some(bench)
}

fn main(rt: HostRuntime) -> io::Result<()> {
    let alloc = rt.alloc();
    let mut words = env::args(&rt)?.skip(1);
    let waiters = words
        .next()
        .and_then(|word| word.parse::<u64>().ok())
        .unwrap_or(10);
    let kind = match words.next() {
        Some(word) if word.as_str() == "timer" => Kind::Timer,
        Some(word) if word.as_str() == "descriptor" => Kind::Descriptor,
        _ => Kind::Condition,
    };
    let count = words
        .next()
        .and_then(|word| word.parse::<u64>().ok())
        .unwrap_or(1000);
    let Some(mut bench) = fill(alloc, kind, waiters) else {
        return println!(rt; "no memory");
    };
    let done = bench.turns(alloc, kind, count);
    println!(rt; "{waiters} waiters; {done} woken in {count} acts of the loop")
}
