//! Which rows of a piece want a label.
ghost use Rattle.std.specs.Prelude.{◌≡◌, ℕ, suc, slice_get, ◌<◌, ◌||◌, map, length, IfOk};
ghost use Rattle.cpc_tree.specs.Syntax.{Program};
ghost use Rattle.cpc_forms_code.specs.Splits.{place_of};
ghost use Rattle.cpc_convert_routines.specs.Routines.{Routine};
ghost use Rattle.cpc_chains_event.specs.Rows as R;
ghost use Rattle.cpc_convert_rows.specs.Marks.{is_set};
ghost use Rattle.cpc_convert_rows.specs.Steps.{IsStepped};
ghost use Rattle.cpc_convert_rows.specs.Ways.{jumps_to};

use crate::marks::{mark, mark_some, unmarked};
use crate::stepped::Stepped;
use cpc_base::NoMemory;
use cpc_forms_code::{Owner, is_next};
use std::alloc::Global;

// The number to which lines fall is marked, unless it stands next.
fn mark_fall(marks: &mut Vec<u8>, falls: Option<usize>, following: Option<usize>)
    ensures long { length marks.new.items ≡ length marks.old.items }
    ensures each { (k : ℕ) → k < length marks.old.items → is_set marks.new.items k ≡ (is_set marks.old.items k || jumps_to k following falls) }
{
    if let Some(number) = falls {
        if is_next(number, following) {
            return;
        }
        mark(marks, number);
    }
}

// The numbers to which the lines of a row lead are marked.
fn mark_row(
    marks: &mut Vec<u8>,
    stepped: &Stepped<'_>,
    owner: Owner,
    number: usize,
    following: Option<usize>,
)
    ensures long { length marks.new.items ≡ length marks.old.items }
    ensures each { (p : Program) (r : Routine) (k : ℕ) → IsStepped r stepped.now → k < length marks.old.items
        → is_set marks.new.items k ≡ (is_set marks.old.items k || R.any_leads k (R.put_lines following (R.row_of p r (place_of owner) number).lines)) }
{
    if stepped.is_own(owner, number) {
        let step = stepped.step(number);
        mark_some(marks, step.test);
        mark_fall(marks, step.falls, following);
    }
}

/// The number behind the one at a place of these, if there is one.
pub fn behind(numbers: &[usize], place: usize) -> Option<usize>
    requires { place < length numbers.now }
    ensures { result ≡ slice_get numbers.now (suc place) }
{
    numbers.get(place + 1).copied()
}

/// Marks of the numbers whose rows want a label in the piece of an owner that has rows of these numbers. `NoMemory` is want of
/// memory.
pub fn wanted_rows(
    alloc: Global,
    stepped: &Stepped<'_>,
    owner: Owner,
    numbers: &[usize],
) -> Result<Vec<u8>, NoMemory>
    ensures long { IfOk result (λ marks. length marks.items ≡ length stepped.now.steps.items) }
    ensures marks { IfOk result (λ marks. (p : Program) (r : Routine) (k : ℕ) → IsStepped r stepped.now → k < length marks.items
        → is_set marks.items k ≡ R.is_wanted k (R.put_rows (map (R.row_of p r (place_of owner)) numbers.now))) }
{
    let mut marks = unmarked(alloc, stepped.steps.len())?;
    for place in 0..numbers.len() {
        let following = behind(numbers, place);
        mark_row(&mut marks, stepped, owner, numbers[place], following);
    }
    Ok(marks)
}
