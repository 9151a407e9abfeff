//! The statements of the piece of an owner.
ghost use Rattle.std.specs.Prelude.{◌≡◌, ◌++◌, None, IfOk, OnOk};
ghost use Rattle.cpc_tree.specs.Erase as E;
ghost use Rattle.cpc_tree.specs.Erase.{Table};
ghost use Rattle.cpc_tree.specs.Syntax as S;
ghost use Rattle.cpc_convert_routines.specs.Routines.{Routine};
ghost use Rattle.cpc_convert_routines.specs.Nodes.{rows_nodes};
ghost use Rattle.cpc_chains_event.specs.Rows.{stubs_of, piece_statements};
ghost use Rattle.cpc_chains_lines.specs.Around.{Stands};
ghost use Rattle.cpc_chains_lines.specs.Written.{written};
ghost use Rattle.cpc_chains_opening.specs.Parts.{opening_of};
ghost use Rattle.cpc_chains_opening.specs.Whole.{IsWhole};
ghost use Rattle.cpc_convert_rows.specs.Steps.{IsOwner};
ghost use Rattle.cpc_forms_code.specs.Splits.{place_of};

use crate::rows::write_rows;
use cpc_base::NoMemory;
use cpc_chains_lines::{Around, Out};
use cpc_chains_opening::opening;
use cpc_convert_rows::{Stepped, other_leaders, row_nodes, row_numbers, wanted_rows};
use cpc_forms_code::Owner;
use std::alloc::Global;

// The rows of the piece of an owner are written, which has these nodes, and goes to these leaders. `NoMemory` is want of memory.
fn write_all(
    alloc: Global,
    out: &mut Out,
    around: Around<'_>,
    stepped: &Stepped<'_>,
    owner: Owner,
    nodes: &[usize],
    leaders: &[usize],
) -> Result<(), NoMemory>
    ensures { OnOk result ((source : Table) (from to : E.Names) (p : S.Program) (r : Routine) → Stands source from to p r around.entry → IsWhole from p r around.entry stepped.now
        → nodes.now ≡ rows_nodes r.split (place_of owner) → leaders.now ≡ stubs_of r (place_of owner) → (written to out.old).label ≡ None
        → written to out.new ≡ record { done = (written to out.old).done ++ piece_statements p r (place_of owner); label = None }) }
{
    let numbers = row_numbers(alloc, stepped, nodes, leaders)?;
    let marks = wanted_rows(alloc, stepped, owner, &numbers)?;
    write_rows(alloc, out, around, stepped, owner, &numbers, &marks)?;
    Ok(())
}

/// The statements of the piece of an owner. `NoMemory` is want of memory.
pub fn statements(
    alloc: Global,
    around: Around<'_>,
    stepped: &Stepped<'_>,
    owner: Owner,
) -> Result<Out, NoMemory>
    ensures { IfOk result (λ out. (source : Table) (from to : E.Names) (p : S.Program) (r : Routine) → Stands source from to p r around.entry → IsWhole from p r around.entry stepped.now → IsOwner stepped.now owner
        → (written to out).done ≡ opening_of p r (place_of owner) ++ piece_statements p r (place_of owner)) }
{
    let nodes = row_nodes(alloc, stepped, owner)?;
    let leaders = other_leaders(alloc, stepped, owner, &nodes)?;
    let mut out = Out::new(alloc);
    opening(alloc, &mut out, around, stepped, owner, &nodes, &leaders)?;
    write_all(alloc, &mut out, around, stepped, owner, &nodes, &leaders)?;
    Ok(out)
}
