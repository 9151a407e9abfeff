//! How a piece begins.
ghost use Rattle.std.specs.Prelude.{◌≡◌, ◌||◌, ◌++◌, ◌∷◌, [], All, map, not, OnOk};
ghost use Rattle.cpc_tree.specs.Erase as E;
ghost use Rattle.cpc_tree.specs.Erase.{Table};
ghost use Rattle.cpc_tree.specs.Lists.{is_empty};
ghost use Rattle.cpc_tree.specs.Syntax as S;
ghost use Rattle.cpc_forms_code.specs.Splits.{place_of};
ghost use Rattle.cpc_convert_flat_laws.specs.Locals.{declares_one};
ghost use Rattle.cpc_chains_store_laws.specs.Frames.{frees_frame};
ghost use Rattle.cpc_convert_routines.specs.Names.{piece_name, pointer_name};
ghost use Rattle.cpc_chains_event.specs.Pieces as P;
ghost use Rattle.cpc_convert_routines.specs.Routines as R;
ghost use Rattle.cpc_convert_routines.specs.Routines.{Routine};
ghost use Rattle.cpc_chains_lines.specs.Around.{Stands, IsVariable};
ghost use Rattle.cpc_chains_lines.specs.Written.{written, puts};
ghost use Rattle.cpc_chains_event.specs.Rows as Rows;
ghost use Rattle.cpc_chains_opening.specs.Parts.{loading_of, declaring_of, opening_of};
ghost use Rattle.cpc_chains_opening.specs.Whole.{IsWhole};
ghost use Rattle.cpc_convert_rows.specs.Steps.{IsStepped, IsOwner};

use crate::calls::any_calls;
use crate::kept::{begun, kept, loaded, owner_name};
use crate::taking::{
    box_variables, declare_variables, declare_words, free_frame, load_next, load_value,
    load_variables, take_frame,
};
use cpc_base::{Name, NoMemory};
use cpc_chains_lines::{Around, Out};
use cpc_convert_rows::{Stepped, any_returns, any_waits};
use cpc_forms_code::Owner;
use std::alloc::Global;

// A piece of this name takes its frame, and loads what it keeps. `NoMemory` is want of memory.
fn load(
    alloc: Global,
    out: &mut Out,
    around: Around<'_>,
    owner: Owner,
    name: Name,
    kept: &[usize],
) -> Result<(), NoMemory>
    ensures { OnOk result ((source : Table) (from to : E.Names) (p : S.Program) (r : Routine) → Stands source from to p r around.entry → to name ≡ piece_name r.function.called (place_of owner)
        → All (IsVariable around.entry) kept.now → All (IsVariable around.entry) (P.loaded r (place_of owner)) → kept.now ≡ R.closure_of r (place_of owner) → written to out.new ≡ puts (written to out.old) (loading_of p r (place_of owner))) }
{
    let loaded = loaded(alloc, around, owner, kept)?;
    take_frame(alloc, out, around, name)?;
    load_next(alloc, out, around)?;
    load_value(alloc, out, around, owner)?;
    load_variables(alloc, out, around, &loaded)?;
    Ok(())
}

// Whether a piece gives a frame to the driver that it makes itself.
fn gives(stepped: &Stepped<'_>, nodes: &[usize], leaders: &[usize]) -> bool
    ensures { (r : Routine) → IsStepped r stepped.now → result ≡ (not (is_empty leaders.now) || P.any_node r (λ node. P.is_wait node.manner node.stood) nodes.now) }
{
    !leaders.is_empty() || any_waits(stepped, nodes)
}

// The variables that a piece begins are declared. `NoMemory` is want of memory.
fn declare_begun(
    alloc: Global,
    out: &mut Out,
    around: Around<'_>,
    owner: Owner,
    kept: &[usize],
) -> Result<(), NoMemory>
    ensures { OnOk result ((source : Table) (from to : E.Names) (p : S.Program) (r : Routine) → Stands source from to p r around.entry → All (IsVariable around.entry) kept.now → All (IsVariable around.entry) (P.begun r (place_of owner))
        → kept.now ≡ R.closure_of r (place_of owner) → written to out.new ≡ puts (written to out.old) (map declares_one (R.locals_of r (P.begun r (place_of owner))))) }
{
    let begun = begun(alloc, around, owner, kept)?;
    declare_variables(alloc, out, around, &begun)?;
    Ok(())
}

// The boxes of a start are made. `NoMemory` is want of memory.
fn box_here(alloc: Global, out: &mut Out, around: Around<'_>, owner: Owner) -> Result<(), NoMemory>
    ensures { OnOk result ((source : Table) (from to : E.Names) (p : S.Program) (r : Routine) → Stands source from to p r around.entry → written to out.new ≡ puts (written to out.old) (P.boxing_of r (place_of owner))) }
{
    match owner {
        Owner::Start => box_variables(alloc, out, around),
        Owner::Leader(_) => Ok(()),
    }
}

// The words are declared that are used at these nodes, and on ways to these leaders. `NoMemory` is want of memory.
fn declare_used(
    alloc: Global,
    out: &mut Out,
    around: Around<'_>,
    stepped: &Stepped<'_>,
    nodes: &[usize],
    leaders: &[usize],
) -> Result<(), NoMemory>
    ensures { OnOk result ((source : Table) (from to : E.Names) (p : S.Program) (r : Routine) → Stands source from to p r around.entry → IsWhole from p r around.entry stepped.now
        → written to out.new ≡ puts (written to out.old)
        (map declares_one (P.words_if (not (is_empty leaders.now) || P.any_node r (λ node. P.is_wait node.manner node.stood) nodes.now) (P.any_node r (λ node. P.is_entry p node.stood) nodes.now) (P.any_node r (λ node. P.is_result node.stood) nodes.now) r.function.result))) }
{
    let gives = gives(stepped, nodes, leaders);
    let calls = any_calls(around, nodes);
    let returns = any_returns(stepped, nodes);
    declare_words(alloc, out, around, gives, calls, returns)?;
    Ok(())
}

// Words and locals are declared. `NoMemory` is want of memory.
fn declare(
    alloc: Global,
    out: &mut Out,
    around: Around<'_>,
    stepped: &Stepped<'_>,
    owner: Owner,
    kept: &[usize],
    nodes: &[usize],
    leaders: &[usize],
) -> Result<(), NoMemory>
    ensures { OnOk result ((source : Table) (from to : E.Names) (p : S.Program) (r : Routine) → Stands source from to p r around.entry → IsWhole from p r around.entry stepped.now → kept.now ≡ R.closure_of r (place_of owner)
        → nodes.now ≡ Rows.rows_nodes r.split (place_of owner) → leaders.now ≡ Rows.stubs_of r (place_of owner) → written to out.new ≡ puts (written to out.old) (declaring_of p r (place_of owner))) }
{
    declare_used(alloc, out, around, stepped, nodes, leaders)?;
    declare_begun(alloc, out, around, owner, kept)?;
    Ok(())
}

// The boxes of a start are made, and a piece gives its frame back. `NoMemory` is want of memory.
fn box_and_free(
    alloc: Global,
    out: &mut Out,
    around: Around<'_>,
    owner: Owner,
) -> Result<(), NoMemory>
    ensures { OnOk result ((source : Table) (from to : E.Names) (p : S.Program) (r : Routine) → Stands source from to p r around.entry → written to out.new ≡ puts (written to out.old) (P.boxing_of r (place_of owner) ++ frees_frame pointer_name ∷ [])) }
{
    box_here(alloc, out, around, owner)?;
    free_frame(alloc, out, around)?;
    Ok(())
}

/// The opening of the piece of an owner: it takes its frame, loads what it keeps, declares words and locals, makes boxes, and gives its
/// frame back. `nodes` are those of the piece that have rows, `leaders` the others' to which it goes. `NoMemory` is want of memory.
pub fn opening(
    alloc: Global,
    out: &mut Out,
    around: Around<'_>,
    stepped: &Stepped<'_>,
    owner: Owner,
    nodes: &[usize],
    leaders: &[usize],
) -> Result<(), NoMemory>
    ensures { OnOk result ((source : Table) (from to : E.Names) (p : S.Program) (r : Routine) → Stands source from to p r around.entry → IsWhole from p r around.entry stepped.now → IsOwner stepped.now owner
        → nodes.now ≡ Rows.rows_nodes r.split (place_of owner) → leaders.now ≡ Rows.stubs_of r (place_of owner) → written to out.new ≡ puts (written to out.old) (opening_of p r (place_of owner))) }
{
    let name = owner_name(around, stepped, owner);
    let kept = kept(around, stepped, owner);
    load(alloc, out, around, owner, name, kept)?;
    declare(alloc, out, around, stepped, owner, kept, nodes, leaders)?;
    box_and_free(alloc, out, around, owner)?;
    Ok(())
}
