//! A thousand jobs over no worker, one, four and sixty-four: each comes back once, with its own square. A hundred are asked for from the last
//! to the first.
ghost use Rattle.std.specs.Prelude.{◌≤◌};

use super::squares::{Ask, Squares};
use cpc_pool::{Gate, Hands, NoGate, Pool};
use std::alloc::Global;
use std::sync::{Arc, Wait};
use std::test::*;
use std::thread::Threads;

const JOBS: u32 = 1000;

// How many jobs were submitted before memory ran out.
pub fn submit_all<G: Gate, R: Wait>(hands: &mut Hands<Squares, G, R>, count: u32) -> u32 {
    for n in 0..count {
        let ask = Ask {
            number: u64::from(n),
            side: n,
        };
        if hands.submit(ask).is_err() {
            return n;
        }
    }
    count
}

// Accepts so many completions. The number of those that came for the first time with their own square, and the sum of the squares.
pub fn accept_all<G: Gate, R: Wait>(
    rt: &R,
    hands: &mut Hands<Squares, G, R>,
    count: u32,
    seen: &mut [bool],
) -> (u32, u64) {
    let mut good = 0u32;
    let mut sum = 0u64;
    let mut got = 0u32;
    for _ in rt.forever() {
        if got >= count {
            break;
        }
        match hands.accept() {
            Some(done) => {
                got += 1;
                let side = u64::from(done.job.side);
                sum = sum.wrapping_add(done.end);
                if done.end == side * side && is_new(seen, done.job.number) {
                    good = good.wrapping_add(1);
                }
            }
            None => hands.wait_one(),
        }
    }
    (good, sum)
}

// Notes that the job came, and says whether it is the first time.
fn is_new(seen: &mut [bool], number: u64) -> bool {
    let Ok(at) = usize::try_from(number) else {
        return false;
    };
    let Some(slot) = seen.get_mut(at) else {
        return false;
    };
    let first = !*slot;
    *slot = true;
    first
}

fn squared<R: Threads + Wait + Copy + Send + Drop + 'static>(
    rt: R,
    alloc: Global,
    workers: u32,
) -> Result<(u32, u32, u64), Fail>
    requires { workers ≤ 64 }
{
    let runner = Arc::new(alloc, Squares)?;
    let gate = Arc::new(alloc, NoGate)?;
    let mut seen = vec![in alloc; false; 1000]?;
    let (pool, jobs, dones) = Pool::start(&rt, alloc, runner, workers, gate)?;
    let mut hands = Hands::over(rt, alloc, pool, jobs, dones);
    let submitted = submit_all(&mut hands, JOBS);
    let (good, sum) = accept_all(&rt, &mut hands, submitted, &mut seen);
    hands.stop();
    Ok((submitted, good, sum))
}

#[test]
fn no_worker_brings_all(rt: HostRuntime) -> Result<(), Fail> {
    assert_eq!(rt; squared(rt, rt.alloc(), 0)?, (1000, 1000, 332_833_500));
    Ok(())
}

#[test]
fn one_worker_brings_all(rt: HostRuntime) -> Result<(), Fail> {
    assert_eq!(rt; squared(rt, rt.alloc(), 1)?, (1000, 1000, 332_833_500));
    Ok(())
}

#[test]
fn four_workers_bring_all(rt: HostRuntime) -> Result<(), Fail> {
    assert_eq!(rt; squared(rt, rt.alloc(), 4)?, (1000, 1000, 332_833_500));
    Ok(())
}

#[test]
fn sixty_four_workers_bring_all(rt: HostRuntime) -> Result<(), Fail> {
    assert_eq!(rt; squared(rt, rt.alloc(), 64)?, (1000, 1000, 332_833_500));
    Ok(())
}

// How many of so many jobs had their own square, each asked for by itself, from the last to the first.
fn backwards<R: Threads + Wait + Copy + Send + Drop + 'static>(
    rt: R,
    alloc: Global,
    workers: u32,
    count: u32,
) -> Result<u32, Fail>
    requires { workers ≤ 64 }
{
    let runner = Arc::new(alloc, Squares)?;
    let gate = Arc::new(alloc, NoGate)?;
    let (pool, jobs, dones) = Pool::start(&rt, alloc, runner, workers, gate)?;
    let mut hands = Hands::over(rt, alloc, pool, jobs, dones);
    let submitted = submit_all(&mut hands, count);
    let mut good = 0u32;
    for n in (0..submitted).rev() {
        let side = u64::from(n);
        let ask = Ask {
            number: side,
            side: n,
        };
        if let Ok(square) = hands.finish(&ask)
            && square == side * side
        {
            good = good.wrapping_add(1);
        }
    }
    hands.stop();
    Ok(good)
}

#[test]
fn four_workers_answer_backwards(rt: HostRuntime) -> Result<(), Fail> {
    assert_eq!(rt; backwards(rt, rt.alloc(), 4, 100)?, 100);
    Ok(())
}

#[test]
fn no_worker_answers_backwards(rt: HostRuntime) -> Result<(), Fail> {
    assert_eq!(rt; backwards(rt, rt.alloc(), 0, 100)?, 100);
    Ok(())
}
