//! The ways between owners.
ghost use Rattle.std.specs.Prelude.{◌≡◌, ◌++◌, slice_get, OnOk, IfOk};
ghost use Rattle.cpc_forms.specs.Split as P;
ghost use Rattle.cpc_forms_code.specs.Splits.{place_of, places_of};
ghost use Rattle.cpc_lift_closures.specs.Rows.{links_of};
ghost use Rattle.cpc_lift.specs.Ways.{way_of};
ghost use Rattle.cpc_forms_code.specs.Lifts.{owner_number};

use cpc_base::NoMemory;
use cpc_forms_code::{Node, Owner};
use cpc_lift_closures::Link;

/// The number of an owner: 0 for the start, and for a leader the number behind its own. `NoMemory`: there is none; no memory
/// holds so many nodes.
pub(crate) fn number(owner: Owner) -> Result<usize, NoMemory>
    ensures { IfOk result (λ n. n ≡ owner_number (place_of owner)) }
{
    match owner {
        Owner::Start => Ok(0),
        Owner::Leader(node) => match node.checked_add(1) {
            Some(number) => Ok(number),
            None => Err(NoMemory),
        },
    }
}

// The owner of a node, or this one where it has none.
fn owner_or(owner: Owner, owners: &[Option<Owner>], node: usize) -> Owner
    ensures { place_of result ≡ P.owner_or (place_of owner) (slice_get (places_of owners.now) node) }
{
    match owners.get(node) {
        Some(Some(other)) => *other,
        _ => owner,
    }
}

// Adds the way to a node, if there is one.
fn add_way(
    owner: Owner,
    to: Option<usize>,
    owners: &[Option<Owner>],
    ways: &mut Vec<Link>,
) -> Result<(), NoMemory>
    ensures { OnOk result (links_of ways.new.items ≡ links_of ways.old.items ++ way_of (place_of owner) (places_of owners.now) to) }
{
    match to {
        Some(node) => {
            let from = number(owner)?;
            let to = number(owner_or(owner, owners, node))?;
            ways.push(Link { from, to })?;
            Ok(())
        }
        None => Ok(()),
    }
}

/// Adds the ways from a node that has this owner: as a test holds, as it does not, and where a value arrives. `NoMemory` is want of memory.
pub(crate) fn add_ways(
    node: &Node<'_>,
    owner: Owner,
    owners: &[Option<Owner>],
    ways: &mut Vec<Link>,
) -> Result<(), NoMemory>
    ensures { OnOk result (links_of ways.new.items ≡ links_of ways.old.items
        ++ (way_of (place_of owner) (places_of owners.now) node.now.yes ++ (way_of (place_of owner) (places_of owners.now) node.now.no ++ way_of (place_of owner) (places_of owners.now) node.now.arrival))) }
{
    add_way(owner, node.yes, owners, ways)?;
    add_way(owner, node.no, owners, ways)?;
    add_way(owner, node.arrival, owners, ways)
}
