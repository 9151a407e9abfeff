//! Positions in the body of a function: the parts of statements, from the outermost one in.
ghost use Rattle.std.specs.Prelude.{◌≡◌, ◌≤◌, ℕ, [], IfOk, vec_capacity};
ghost use Rattle.cpc_tree.specs.Points as P;
ghost use Rattle.cpc_native_points.specs.Depth.{capped};
ghost use Rattle.cpc_native_points.specs.Seen.{path_of, point_of};

use cpc_base::NoMemory;
use std::alloc::Global;

/// A part of a statement.
#[derive(Clone, Copy)]
pub enum Part {
    /// The n-th statement of a block, or of the first part of a `for`, counted from 0.
    Nth(usize),
    /// The test of an `if` or a loop.
    Test,
    /// The arm of an `if` that is taken where the test holds.
    Yes,
    /// The other arm of an `if`.
    No,
    /// The step of a `for`.
    Step,
    /// The body of a loop, or the statement that a label is put before.
    Body,
}

/// What happens at a point.
#[derive(Clone, Copy)]
pub enum Phase {
    /// The statement or the test at the path is next.
    Here,
    /// The value of the call at the path arrives.
    Arrival,
    /// The body is over; the path has no meaning.
    End,
}

/// A position in the body of a function: which part to take at each level, and what happens there.
#[derive(Drop)]
pub struct Point {
    pub phase: Phase,
    pub path: Vec<Part>,
}

impl Point {
    /// The end of a body, with room for a path of so many parts. `usize::MAX` stands for every greater number, and there
    /// is never room for so many. `NoMemory` is want of memory.
    pub fn with_depth(alloc: Global, depth: usize) -> Result<Point, NoMemory>
        ensures end { IfOk result (λ p. point_of p ≡ P.End) }
        ensures empty { IfOk result (λ p. p.path.items ≡ []) }
        ensures room { IfOk result (λ p. (n : ℕ) → depth ≡ capped n → n ≤ vec_capacity p.path) }
    {
        if depth == usize::MAX {
            return Err(NoMemory);
        }
        Ok(Point {
            phase: Phase::End,
            path: Vec::with_capacity(alloc, depth)?,
        })
    }

    /// From a call to the arrival of its value.
    pub fn arrive(&mut self)
        ensures point { point_of self.new ≡ P.Arrival (path_of self.old.path.items) }
        ensures room { vec_capacity self.new.path ≡ vec_capacity self.old.path }
    {
        self.phase = Phase::Arrival;
    }
}
