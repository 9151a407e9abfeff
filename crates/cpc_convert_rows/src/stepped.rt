//! What the rows of pieces have to know of a function.
ghost use Rattle.std.specs.Prelude.{◌≡◌, ℕ, suc, Some, ◌<◌, ◌==◌, ◌++◌, [], map, length, get_or, option_map, slice_get, IfOk, OnOk};
ghost use Rattle.cpc_tree.specs.Erase.{Names};
ghost use Rattle.cpc_forms.specs.Flow.{Place};
ghost use Rattle.cpc_forms.specs.Pieces as F;
ghost use Rattle.cpc_forms.specs.Pieces.{is_owned_by, owned_from};
ghost use Rattle.cpc_forms_code.specs.Splits.{place_of, places_of};
ghost use Rattle.cpc_convert_routines.specs.Routines.{Routine, owner_number};
ghost use Rattle.cpc_convert_routines.specs.Nodes as R;
ghost use Rattle.cpc_chains_event.specs.Rows.{number_where};
ghost use Rattle.cpc_convert_rows.specs.Steps.{IsOf, IsStepped, step_at, step_of};

use crate::steps::{Step, no_step, node_step};
use cpc_base::NoMemory;
use cpc_forms_code::{Owner, SplitFunction};
use std::alloc::Global;

/// A function with a step for each of its nodes, and the nodes of each owner in the order of their numbers: first those of the start, and
/// then for each node what it owns, if it is a leader.
pub struct Stepped<'a> {
    pub split: &'a SplitFunction<'a>,
    pub steps: Vec<Step>,
    pub owned: Vec<Vec<usize>>,
}

impl Drop for Stepped<'_> {
    fn drop(self) {
        let Stepped {
            split: _,
            steps,
            owned,
        } = self;
        drop(steps);
        drop(owned);
    }
}

// A step for each node. `NoMemory` is want of memory.
fn steps(alloc: Global, split: &SplitFunction<'_>) -> Result<Vec<Step>, NoMemory>
    ensures { IfOk result (λ all. (names : Names) (r : Routine) → IsOf names split.now r → all.items ≡ map (step_of r) r.split.graph.nodes) }
{
    let mut all = Vec::new(alloc);
    for i in 0..split.graph.nodes.len() {
        all.push(node_step(split, split.graph.nodes[i]))?;
    }
    Ok(all)
}

// A node is added to the row of this number, where there is one. `NoMemory` is want of memory.
fn add_to(rows: &mut Vec<Vec<usize>>, number: usize, node: usize) -> Result<(), NoMemory>
    ensures long { OnOk result (length rows.new.items ≡ length rows.old.items) }
    ensures rows { OnOk result ((k : ℕ) → k < length rows.old.items
        → get_or (map (λ row. row.items) rows.new.items) k [] ≡ get_or (map (λ row. row.items) rows.old.items) k [] ++ number_where (number == k) node) }
{
    if number < rows.len() {
        rows[number].push(node)?;
        return Ok(());
    }
    Ok(())
}

// A node is added to the row of its owner, where it has one. `NoMemory` is want of memory.
fn add_owned(rows: &mut Vec<Vec<usize>>, owner: Option<Owner>, node: usize) -> Result<(), NoMemory>
    ensures long { OnOk result (length rows.new.items ≡ length rows.old.items) }
    ensures rows { OnOk result ((l : Place) → owner_number l < length rows.old.items
        → get_or (map (λ row. row.items) rows.new.items) (owner_number l) [] ≡ get_or (map (λ row. row.items) rows.old.items) (owner_number l) [] ++ number_where (is_owned_by l (option_map place_of owner)) node) }
{
    match owner {
        Some(Owner::Start) => add_to(rows, 0, node),
        Some(Owner::Leader(leader)) => match leader.checked_add(1) {
            Some(number) => add_to(rows, number, node),
            // No memory holds so many nodes.
            None => Err(NoMemory),
        },
        None => Ok(()),
    }
}

// The nodes of each owner. `NoMemory` is want of memory.
fn owned(alloc: Global, count: usize, owners: &[Option<Owner>]) -> Result<Vec<Vec<usize>>, NoMemory>
    ensures long { IfOk result (λ rows. length rows.items ≡ suc count) }
    ensures rows { IfOk result (λ rows. (l : Place) → owner_number l < length rows.items → get_or (map (λ row. row.items) rows.items) (owner_number l) [] ≡ owned_from l 0 (places_of owners.now)) }
{
    let mut rows = empty_rows(alloc, count)?;
    for node in 0..owners.len() {
        add_owned(&mut rows, owners[node], node)?;
    }
    Ok(rows)
}

// One empty row, and so many more. `NoMemory` is want of memory.
fn empty_rows(alloc: Global, count: usize) -> Result<Vec<Vec<usize>>, NoMemory>
    ensures long { IfOk result (λ rows. length rows.items ≡ suc count) }
    ensures rows { IfOk result (λ rows. (k : ℕ) → get_or (map (λ row. row.items) rows.items) k [] ≡ []) }
{
    let mut rows = Vec::new(alloc);
    rows.push(Vec::new(alloc))?;
    for _ in 0..count {
        rows.push(Vec::new(alloc))?;
    }
    Ok(rows)
}

// Whether these are one owner.
fn same_owner(one: Owner, other: Owner) -> bool
    ensures { result ≡ is_owned_by (place_of other) (Some (place_of one)) }
{
    match one {
        Owner::Start => match other {
            Owner::Start => true,
            Owner::Leader(_) => false,
        },
        Owner::Leader(m) => match other {
            Owner::Start => false,
            Owner::Leader(n) => m == n,
        },
    }
}

/// The node at which control begins from an owner.
pub(crate) fn first_of(owner: Owner) -> usize
    ensures { (r : Routine) → r.split.graph.entry ≡ 0 → result ≡ F.first_of r.split (place_of owner) }
{
    match owner {
        Owner::Start => 0,
        Owner::Leader(number) => number,
    }
}

impl<'a> Stepped<'a> {
    /// What the rows of the pieces of a function have to know of it. `NoMemory` is want of memory.
    pub fn of(alloc: Global, split: &'a SplitFunction<'a>) -> Result<Stepped<'a>, NoMemory>
        ensures split { IfOk result (λ s. s.split.now ≡ split.now) }
        ensures is { IfOk result (λ s. (names : Names) (r : Routine) → IsOf names split.now r → IsStepped r s) }
    {
        let steps = steps(alloc, split)?;
        let owned = owned(alloc, steps.len(), &split.owners)?;
        Ok(Stepped {
            split,
            steps,
            owned,
        })
    }

    /// Whether an owner owns a node.
    pub fn is_own(&self, owner: Owner, number: usize) -> bool
        ensures { (r : Routine) → IsStepped r self.now → result ≡ R.is_own r.split (place_of owner) number }
    {
        match self.split.owners.get(number) {
            Some(Some(other)) => same_owner(*other, owner),
            _ => false,
        }
    }

    /// The step of a number.
    pub fn step(&self, number: usize) -> Step
        ensures { (r : Routine) → IsStepped r self.now → result ≡ step_at r number }
    {
        match self.steps.get(number) {
            Some(step) => *step,
            None => no_step(),
        }
    }
}
