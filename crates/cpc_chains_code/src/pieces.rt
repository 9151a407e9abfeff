//! The pieces of a function, one after the other.
ghost use Rattle.std.specs.Prelude.{◌≡◌, ◌++◌, ◌∷◌, [], map, OnOk};
ghost use Rattle.cpc_tree.specs.Erase as E;
ghost use Rattle.cpc_tree.specs.Erase.{Table};
ghost use Rattle.cpc_tree.specs.Syntax as S;
ghost use Rattle.cpc_convert_common.specs.Converted.{function_item};
ghost use Rattle.cpc_chains_event.specs.Pieces.{piece_function, leader_function};
ghost use Rattle.cpc_convert_routines.specs.Routines.{Routine};
ghost use Rattle.cpc_chains_items.specs.Listed.{listed};
ghost use Rattle.cpc_chains_pieces.specs.Parts.{pieces_of};
ghost use Rattle.cpc_chains_pieces.specs.Whole.{IsWhole};
ghost use Rattle.cpc_chains_pieces.specs.Around.{Stands};
ghost use Rattle.cpc_convert_rows.specs.Steps.{IsOwner};
ghost use Rattle.cpc_forms_code.specs.Splits.{place_of};

use cpc_base::NoMemory;
use cpc_chains_items::Items;
use cpc_chains_pieces::{Around, owner_name, statements};
use cpc_convert_rows::Stepped;
use cpc_forms_code::Owner;
use std::alloc::Global;

// The piece of an owner is added to items. `NoMemory` is want of memory.
fn piece(
    alloc: Global,
    items: &mut Items,
    around: Around<'_>,
    stepped: &Stepped<'_>,
    owner: Owner,
) -> Result<(), NoMemory>
    ensures { OnOk result ((source : Table) (from to : E.Names) (p : S.Program) (r : Routine) → Stands source from to p r around.entry → IsWhole from p r around.entry stepped.now → IsOwner stepped.now owner
        → listed to items.new ≡ listed to items.old ++ S.FunctionItem (piece_function p r (place_of owner)) ∷ []) }
{
    let name = owner_name(around, stepped, owner);
    let out = statements(alloc, around, stepped, owner)?;
    items.piece(alloc, around.place, around.book, name, out)?;
    Ok(())
}

// The pieces of the leaders of a function are added to items, in their order. `NoMemory` is want of memory.
fn add_leaders(
    alloc: Global,
    items: &mut Items,
    around: Around<'_>,
    stepped: &Stepped<'_>,
) -> Result<(), NoMemory>
    ensures { OnOk result ((source : Table) (from to : E.Names) (p : S.Program) (r : Routine) → Stands source from to p r around.entry → IsWhole from p r around.entry stepped.now
        → listed to items.new ≡ listed to items.old ++ map function_item (map (leader_function p r) r.split.leaders)) }
{
    for leader in &stepped.split.leaders {
        piece(alloc, items, around, stepped, Owner::Leader(*leader))?;
    }
    Ok(())
}

/// The pieces of a function are added to items: that of its start, and those of its leaders in their order. `NoMemory` is want of memory.
pub(crate) fn pieces(
    alloc: Global,
    items: &mut Items,
    around: Around<'_>,
    stepped: &Stepped<'_>,
) -> Result<(), NoMemory>
    ensures { OnOk result ((source : Table) (from to : E.Names) (p : S.Program) (r : Routine) → Stands source from to p r around.entry → IsWhole from p r around.entry stepped.now
        → listed to items.new ≡ listed to items.old ++ map function_item (pieces_of p r)) }
{
    piece(alloc, items, around, stepped, Owner::Start)?;
    add_leaders(alloc, items, around, stepped)?;
    Ok(())
}
