//! Numbers that lead to other numbers, and rows of those that lead to each.
ghost use Rattle.std.specs.Prelude.{◌≡◌, ℕ, [], All, map, length, replicate, IfOk};
ghost use Rattle.cpc_lift_laws.specs.Search as S;
ghost use Rattle.cpc_lift_closures.specs.Rows.{links_of, IsBelow, RowsAre};

use cpc_base::NoMemory;
use std::alloc::Global;

/// A number that leads to another: an owner to one to which control goes, or at which a value arrives; or an owner to a variable
/// that it uses.
#[derive(Clone, Copy)]
pub struct Link {
    pub from: usize,
    pub to: usize,
}

/// So many empty rows. `NoMemory` is want of memory.
pub(crate) fn empty_rows(alloc: Global, count: usize) -> Result<Vec<Vec<usize>>, NoMemory>
    ensures { IfOk result (λ rows. map (λ row. row.items) rows.items ≡ replicate count []) }
{
    let mut rows = Vec::new(alloc);
    for _ in 0..count {
        rows.push(Vec::new(alloc))?;
    }
    Ok(rows)
}

/// For each number below the count those that lead to it, in order. `NoMemory` is want of memory.
pub(crate) fn rows_of(
    alloc: Global,
    count: usize,
    links: &[Link],
) -> Result<Vec<Vec<usize>>, NoMemory>
    requires { All (IsBelow count) links.now }
    ensures length { IfOk result (λ rows. length rows.items ≡ count) }
    ensures rows { IfOk result (λ rows. RowsAre (links_of links.now) (map (λ row. row.items) rows.items)) }
{
    let mut rows = empty_rows(alloc, count)?;
    for link in links {
        rows[link.to].push(link.from)?;
    }
    Ok(rows)
}
