//! The marks with which the search for owners begins.
ghost use Rattle.std.specs.Prelude.{◌≡◌, ◌<◌, length, option_map, IfOk};
ghost use Rattle.cpc_forms.specs.Spread as S;
ghost use Rattle.cpc_split.specs.Seen.{place_of, places_of, spread_of};
ghost use Rattle.cpc_split.specs.Flags.{flag_marks, flag_leaders, flag_spread};

use crate::marks::Marks;
use cpc_base::NoMemory;
use cpc_forms_code::Owner;
use std::alloc::Global;

// A leader is marked with itself.
fn leader_mark(leads: bool, node: usize) -> Option<Owner>
    ensures { option_map place_of result ≡ S.leader_mark leads node }
{
    if leads {
        Some(Owner::Leader(node))
    } else {
        None
    }
}

// The marks of leaders.
fn leader_marks(alloc: Global, leads: &[bool]) -> Result<Vec<Option<Owner>>, NoMemory>
    ensures { IfOk result (λ marks. places_of marks.items ≡ flag_marks 0 leads.now) }
{
    let mut marks = Vec::new(alloc);
    for i in 0..leads.len() {
        marks.push(leader_mark(leads[i], i))?;
    }
    Ok(marks)
}

/// The numbers of leaders. `NoMemory` is want of memory.
pub(crate) fn leader_numbers(alloc: Global, leads: &[bool]) -> Result<Vec<usize>, NoMemory>
    ensures { IfOk result (λ numbers. numbers.items ≡ flag_leaders 0 leads.now) }
{
    let mut numbers = Vec::new(alloc);
    for i in 0..leads.len() {
        if leads[i] {
            numbers.push(i)?;
        }
    }
    Ok(numbers)
}

/// The leaders, marked and waiting, and the owner that the start hands to the entry.
pub(crate) fn begun(alloc: Global, entry: usize, leads: &[bool]) -> Result<Marks, NoMemory>
    requires { entry < length leads.now }
    ensures { IfOk result (λ marks. spread_of marks ≡ S.visit entry (place_of Owner.Start) (flag_spread leads.now)) }
{
    let mut marks = Marks {
        owners: leader_marks(alloc, leads)?,
        waiting: leader_numbers(alloc, leads)?,
    };
    marks.visit(entry, Owner::Start)?;
    Ok(marks)
}
