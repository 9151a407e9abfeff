//! The closures of all owners: one search for each variable.
ghost use Rattle.std.specs.Prelude.{◌≡◌, ◌<◌, ℕ, [], false, All, map, length, get_or, IfOk, OnOk};
ghost use Rattle.cpc_lift_laws.specs.Search as S;
ghost use Rattle.cpc_lift_closures.specs.Rows.{links_of, IsBelow, IsFrom};
ghost use Rattle.cpc_lift_closures.specs.Added.{with_variable};

use crate::links::{Link, empty_rows, rows_of};
use crate::search::keepers;
use cpc_base::NoMemory;
use std::alloc::Global;

// A variable goes into a row, where its owner is marked.
fn add_if(marked: bool, variable: usize, row: &mut Vec<usize>) -> Result<(), NoMemory>
    ensures { OnOk result (row.new.items ≡ with_variable marked variable row.old.items) }
{
    if marked {
        row.push(variable)?;
    }
    Ok(())
}

// A variable goes into the rows of the owners that are marked.
fn add_kept(variable: usize, marks: &[bool], rows: &mut Vec<Vec<usize>>) -> Result<(), NoMemory>
    requires { length marks.now ≡ length rows.old.items }
    ensures length { OnOk result (length rows.new.items ≡ length rows.old.items) }
    ensures rows { OnOk result ((l : ℕ) → l < length rows.old.items
        → get_or (map (λ row. row.items) rows.new.items) l [] ≡ with_variable (get_or marks.now l false) variable (get_or (map (λ row. row.items) rows.old.items) l [])) }
{
    for owner in 0..marks.len() {
        add_if(marks[owner], variable, &mut rows[owner])?;
    }
    Ok(())
}

/// For each owner its closure: the variables that it has to keep, in order, where these are the ways between owners and the
/// variables that owners use. For each variable it takes as many turns as there are ways, and uses of the variable (no clause says so).
/// `NoMemory` is want of memory.
pub fn closures(
    alloc: Global,
    owners: usize,
    variables: usize,
    ways: &[Link],
    uses: &[Link],
) -> Result<Vec<Vec<usize>>, NoMemory>
    requires ways_from { All (IsFrom owners) ways.now }
    requires ways_to { All (IsBelow owners) ways.now }
    requires uses_from { All (IsFrom owners) uses.now }
    requires uses_to { All (IsBelow variables) uses.now }
    ensures length { IfOk result (λ rows. length rows.items ≡ owners) }
    ensures closures { IfOk result (λ rows. (l : ℕ) → l < owners → get_or (map (λ row. row.items) rows.items) l [] ≡ S.closure (links_of ways.now) (links_of uses.now) variables l) }
{
    let sources = rows_of(alloc, owners, ways)?;
    let users = rows_of(alloc, variables, uses)?;
    let mut rows = empty_rows(alloc, owners)?;
    for variable in 0..variables {
        let marks = keepers(alloc, ways, &sources, &users[variable])?;
        add_kept(variable, &marks, &mut rows)?;
    }
    Ok(rows)
}
