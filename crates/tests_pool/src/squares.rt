//! Jobs that ask for the square of a number.
ghost use Rattle.std.specs.Prelude.{◌≡◌, ◌*◌, ◌<◌, ◌^◌};

use cpc_pool_jobs::Runner;

/// Asks for a square.
#[derive(Drop)]
pub struct Ask {
    /// The number of the job.
    pub number: u64,
    /// What is to be squared.
    pub side: u32,
}

/// Answers with squares.
#[derive(Drop)]
pub struct Squares;

impl Runner for Squares {
    ghost use Rattle.std.specs.Prelude.{◌≡◌, ◌*◌, ⊤};

    type Job = Ask;

    type End = u64;

    ghost number = { λ j. j.number };

    ghost same = { λ j k. (j.number ≡ k.number) × (j.side ≡ k.side) };

    ghost meets = { λ j. ⊤ };

    ghost ends = { λ j e. e ≡ j.side * j.side };

    fn number_of(job: &Ask) -> u64 {
        job.number
    }

    fn is_same(first: &Ask, second: &Ask) -> bool {
        first.number == second.number && first.side == second.side
    }

    fn run(&self, job: &Ask) -> u64 {
        let side = u64::from(job.side);
        side * side
    }
}
