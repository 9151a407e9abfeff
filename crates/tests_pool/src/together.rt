//! Two workers run their jobs beside each other: a gate holds each until both have begun.
ghost use Rattle.std.specs.Prelude.{◌≡◌, ◌≤◌};

use super::sizes::{accept_all, submit_all};
use super::squares::Squares;
use cpc_pool::{Gate, Hands, Pool};
use std::alloc::Global;
use std::sync::atomic::{AtomicU64, Ordering};
use std::sync::{Arc, Wait};
use std::test::*;
use std::thread;
use std::thread::Threads;

/// Holds each job until two have begun, for ten million turns at most.
#[derive(Drop)]
struct TwoAtOnce {
    begun: AtomicU64,
    ended: AtomicU64,
    gave_up: AtomicU64,
}

impl Gate for TwoAtOnce {
    fn before(&self, _number: u64) {
        self.begun.fetch_add(1, Ordering::SeqCst);
        for _ in 0..10_000_000u64 {
            if self.begun.load(Ordering::SeqCst) >= 2 {
                return;
            }
            thread::yield_now();
        }
        self.gave_up.fetch_add(1, Ordering::SeqCst);
    }

    fn after(&self, _number: u64) {
        self.ended.fetch_add(1, Ordering::SeqCst);
    }
}

// How many jobs came back with their square, and how many had begun, had ended and were given up on.
fn held<R: Threads + Wait + Copy + Send + Drop + 'static>(
    rt: R,
    alloc: Global,
    workers: u32,
) -> Result<(u32, u64, u64, u64), Fail>
    requires { workers ≤ 64 }
{
    let gate = Arc::new(
        alloc,
        TwoAtOnce {
            begun: AtomicU64::new(0),
            ended: AtomicU64::new(0),
            gave_up: AtomicU64::new(0),
        },
    )?;
    let mine = Arc::try_clone(&gate)?;
    let runner = Arc::new(alloc, Squares)?;
    let mut seen = vec![in alloc; false; 2]?;
    let (pool, jobs, dones) = Pool::start(&rt, alloc, runner, workers, gate)?;
    let mut hands = Hands::over(rt, alloc, pool, jobs, dones);
    let submitted = submit_all(&mut hands, 2);
    let (good, _sum) = accept_all(&rt, &mut hands, submitted, &mut seen);
    hands.stop();
    Ok((
        good,
        mine.begun.load(Ordering::SeqCst),
        mine.ended.load(Ordering::SeqCst),
        mine.gave_up.load(Ordering::SeqCst),
    ))
}

#[test]
fn two_workers_run_at_once(rt: HostRuntime) -> Result<(), Fail> {
    assert_eq!(rt; held(rt, rt.alloc(), 2)?, (2, 2, 2, 0));
    Ok(())
}

#[test]
fn no_worker_passes_no_gate(rt: HostRuntime) -> Result<(), Fail> {
    assert_eq!(rt; held(rt, rt.alloc(), 0)?, (2, 0, 0, 0));
    Ok(())
}
