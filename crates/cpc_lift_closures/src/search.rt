//! The search backwards: from the owners that use a variable to all that lead to one.
ghost use Rattle.std.specs.Prelude.{◌≡◌, ℕ, ◌+◌, ◌<◌, [], true, false, All, List, map, length, get_or, slice_set, IfOk, OnOk};
ghost use Rattle.cpc_lift_laws.specs.Search as S;
ghost use Rattle.cpc_lift_closures.specs.Rows.{links_of, IsNumber, RowsAre, MarksAre};
ghost use Rattle.cpc_lift_closures.specs.Turns.{queued, GoesOn, AreNumbers};

use crate::links::Link;
use cpc_base::{NoMemory, unset};
use std::alloc::Global;

// Marks an owner that was not seen, and puts its sources into the queue.
fn visit(
    owner: usize,
    sources: &[Vec<usize>],
    marks: &mut Vec<bool>,
    queue: &mut Vec<usize>,
) -> Result<(), NoMemory>
    requires owner { owner < length sources.now }
    requires marks { length marks.old.items ≡ length sources.now }
    ensures marks { OnOk result (marks.new.items ≡ slice_set marks.old.items owner true) }
    ensures queue { OnOk result (queue.new.items ≡ queued (get_or marks.old.items owner false) queue.old.items (get_or (map (λ row. row.items) sources.now) owner [])) }
{
    if marks[owner] {
        return Ok(());
    }
    marks[owner] = true;
    queue.extend_from_slice(&sources[owner])?;
    Ok(())
}

// Looks at this place of the queue, if it has been reached.
fn turn(
    at: usize,
    sources: &[Vec<usize>],
    marks: &mut Vec<bool>,
    queue: &mut Vec<usize>,
) -> Result<(), NoMemory>
    requires marks { length marks.old.items ≡ length sources.now }
    requires queue { All (IsNumber (length sources.now)) queue.old.items }
    requires sources { AreNumbers (length sources.now) (map (λ row. row.items) sources.now) }
    ensures goes { OnOk result ((ways : List S.Link) → RowsAre ways (map (λ row. row.items) sources.now) → (n : ℕ) (seen : List ℕ) → MarksAre (length sources.now) seen marks.old.items
        → GoesOn ways (length sources.now) at n queue.old.items seen queue.new.items marks.new.items) }
    ensures marks { OnOk result (length marks.new.items ≡ length sources.now) }
    ensures queue { OnOk result (All (IsNumber (length sources.now)) queue.new.items) }
{
    if at < queue.len() {
        let owner = queue[at];
        return visit(owner, sources, marks, queue);
    }
    Ok(())
}

/// Marks for the owners that lead to one of these users by the ways, of which the sources are the rows. Each user is looked at once,
/// and each way is followed once at most (no clause says so). `NoMemory` is want of memory.
pub(crate) fn keepers(
    alloc: Global,
    ways: &[Link],
    sources: &[Vec<usize>],
    users: &[usize],
) -> Result<Vec<bool>, NoMemory>
    requires rows { RowsAre (links_of ways.now) (map (λ row. row.items) sources.now) }
    requires sources { AreNumbers (length sources.now) (map (λ row. row.items) sources.now) }
    requires users { All (IsNumber (length sources.now)) users.now }
    ensures { IfOk result (λ marks. MarksAre (length sources.now) (S.search (links_of ways.now) (length users.now + length ways.now) users.now []) marks.items) }
{
    let mut marks = unset(alloc, sources.len())?;
    let mut queue = Vec::from_slice(alloc, users)?;
    for at in 0..users.len() + ways.len() {
        turn(at, sources, &mut marks, &mut queue)?;
    }
    Ok(marks)
}
