//! Acts on a store with many live blocks, so that a script can time them: `bench_store LIVE ACT COUNT`.
//!
//! It makes LIVE blocks of 16 cells and does COUNT times the act, which is `churn` (free a block and make another),
//! `save` or `load`, each on a block that a generator picks. It prints how many were done, and no time.
#![tactic(auto)]

use cpc_base::NoMemory;
use cpc_store::{Block, Class, Scalar, Store, Value};
use rand_core::SeedableRng;
use rand_core::utils::NextWord;
use rand_xoshiro::SplitMix64;
use std::alloc::{AllocError, Global};
use std::{env, io};

/// The cells of each block.
const CELLS: u64 = 16;

/// What is done to a block.
#[derive(Clone, Copy)]
enum Act {
    Churn,
    Save,
    Load,
}

/// The blocks that are live, and the generator that picks among them.
#[derive(Drop)]
struct Bench {
    store: Store,
    live: Vec<Block>,
    picks: SplitMix64,
}

fn make(alloc: Global, store: &mut Store) -> Result<Block, NoMemory> {
    if store.live_cells() < 1_000_000_000 && store.made(Class::Heap) < 1_000_000_000_000 {
        store.alloc(alloc, Class::Heap, CELLS)
    } else {
        Err(NoMemory)
    }
}

fn fill(alloc: Global, count: u64) -> Result<Bench, NoMemory> {
    let mut store = Store::new(alloc);
    let mut live = Vec::new(alloc);
    for _ in 0..count {
        live.push(make(alloc, &mut store)?)?;
    }
    Ok(Bench {
        store,
        live,
        picks: SplitMix64::seed_from_u64(12_345),
    })
}

impl Bench {
    // Does an act to the block of a place, in a cell that the picked number says, and says whether it was done.
    fn act(&mut self, alloc: Global, act: Act, place: usize, picked: u64) -> bool {
        let Some(block) = self.live.get(place) else {
            return false;
        };
        let block = *block;
        let offset = picked >> 60;
        match act {
            Act::Churn => self.replace(alloc, block, place),
            Act::Save => self.store.save(block, offset, Value::Cond(picked)).is_ok(),
            Act::Load => self.store.load(block, offset, Scalar::Cond).is_ok(),
        }
    }

    // Frees a block, and makes another in its place.
    fn replace(&mut self, alloc: Global, block: Block, place: usize) -> bool {
        if self.store.free(Class::Heap, Value::At(block, 0)).is_err() {
            return false;
        }
        match (make(alloc, &mut self.store), self.live.get_mut(place)) {
            (Ok(other), Some(held)) => {
                *held = other;
                true
            }
            _ => false,
        }
    }

    // Does an act so many times, and says how many were done.
    fn repeat(&mut self, alloc: Global, act: Act, count: u64) -> u64 {
        let mut done = 0u64;
        for _ in 0..count {
            let picked = self.picks.next_word();
            let size = self.live.len() as u64;
            if size > 0 && self.act(alloc, act, ((picked >> 20) % size) as usize, picked) {
                done = done.saturating_add(1);
            }
        }
        done
    }
}

fn main(rt: HostRuntime) -> io::Result<()> {
    let alloc = rt.alloc();
    let mut words = env::args(&rt)?.skip(1);
    let live = words
        .next()
        .and_then(|word| word.parse::<u64>().ok())
        .unwrap_or(10);
    let act = match words.next() {
        Some(word) if word.as_str() == "save" => Act::Save,
        Some(word) if word.as_str() == "load" => Act::Load,
        _ => Act::Churn,
    };
    let count = words
        .next()
        .and_then(|word| word.parse::<u64>().ok())
        .unwrap_or(1000);
    let Ok(mut bench) = fill(alloc, live) else {
        return println!(rt; "no memory");
    };
    let done = bench.repeat(alloc, act, count);
    let cells = bench.store.live_cells();
    println!(rt; "{live} blocks, {cells} cells live; {done} of {count} done")
}
