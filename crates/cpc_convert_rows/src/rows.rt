//! The nodes of a piece that have rows, in their order.
ghost use Rattle.std.specs.Prelude.{◌≡◌, ℕ, ◌&&◌, ◌++◌, nat_lt, IfOk, OnOk};
ghost use Rattle.cpc_forms.specs.Pieces.{owned_from};
ghost use Rattle.cpc_forms_code.specs.Splits.{place_of};
ghost use Rattle.cpc_convert_routines.specs.Routines.{Routine, chosen};
ghost use Rattle.cpc_convert_routines.specs.Nodes as R;
ghost use Rattle.cpc_convert_rows.specs.Steps.{IsStepped, IsOwner};

use crate::marks::add_if;
use crate::stepped::{Stepped, first_of};
use cpc_base::NoMemory;
use cpc_forms_code::Owner;
use std::alloc::Global;

// Whether a node stands behind a number and has a row.
fn is_behind(stepped: &Stepped<'_>, first: usize, node: usize) -> bool
    ensures { (r : Routine) → IsStepped r stepped.now → result ≡ (nat_lt first node && R.has_row r.split node) }
{
    first < node && stepped.step(node).has_row
}

// Whether a node stands before a number and has a row.
fn is_before(stepped: &Stepped<'_>, first: usize, node: usize) -> bool
    ensures { (r : Routine) → IsStepped r stepped.now → result ≡ (nat_lt node first && R.has_row r.split node) }
{
    node < first && stepped.step(node).has_row
}

// Whether an owner owns its first node, and it has a row.
fn is_first(stepped: &Stepped<'_>, owner: Owner, first: usize) -> bool
    ensures { (r : Routine) → IsStepped r stepped.now → result ≡ (R.is_own r.split (place_of owner) first && R.has_row r.split first) }
{
    stepped.is_own(owner, first) && stepped.step(first).has_row
}

// Those of these nodes are added that stand behind a number and have rows. `NoMemory` is want of memory.
fn add_behind(
    stepped: &Stepped<'_>,
    first: usize,
    owned: &[usize],
    all: &mut Vec<usize>,
) -> Result<(), NoMemory>
    ensures { OnOk result ((r : Routine) → IsStepped r stepped.now → all.new.items ≡ all.old.items ++ chosen (λ n. nat_lt first n && R.has_row r.split n) owned.now) }
{
    for node in owned {
        add_if(is_behind(stepped, first, *node), *node, all)?;
    }
    Ok(())
}

// Those of these nodes are added that stand before a number and have rows. `NoMemory` is want of memory.
fn add_before(
    stepped: &Stepped<'_>,
    first: usize,
    owned: &[usize],
    all: &mut Vec<usize>,
) -> Result<(), NoMemory>
    ensures { OnOk result ((r : Routine) → IsStepped r stepped.now → all.new.items ≡ all.old.items ++ chosen (λ n. nat_lt n first && R.has_row r.split n) owned.now) }
{
    for node in owned {
        add_if(is_before(stepped, first, *node), *node, all)?;
    }
    Ok(())
}

// The nodes of an owner.
fn owned<'b>(stepped: &'b Stepped<'_>, owner: Owner) -> &'b [usize]
    ensures { (r : Routine) → IsStepped r stepped.now → IsOwner stepped.now owner → result.now ≡ owned_from (place_of owner) 0 r.split.owners }
{
    let row = match owner {
        Owner::Start => stepped.owned.first(),
        Owner::Leader(leader) => match leader.checked_add(1) {
            Some(number) => stepped.owned.get(number),
            None => None,
        },
    };
    match row {
        Some(nodes) => nodes,
        None => &[],
    }
}

/// The nodes of the piece of an owner that have rows: from its first one on, and then those that stand before it in the text. `NoMemory` is
/// want of memory.
pub fn row_nodes(alloc: Global, stepped: &Stepped<'_>, owner: Owner) -> Result<Vec<usize>, NoMemory>
    ensures { IfOk result (λ all. (r : Routine) → IsStepped r stepped.now → IsOwner stepped.now owner → all.items ≡ R.rows_nodes r.split (place_of owner)) }
{
    let first = first_of(owner);
    let owned = owned(stepped, owner);
    let mut all = Vec::new(alloc);
    add_if(is_first(stepped, owner, first), first, &mut all)?;
    add_behind(stepped, first, owned, &mut all)?;
    add_before(stepped, first, owned, &mut all)?;
    Ok(all)
}
