//! The other leaders to which a piece goes.
ghost use Rattle.std.specs.Prelude.{◌≡◌, ◌<◌, ℕ, List, ◌&&◌, ◌++◌, ◌∷◌, [], not, length, slice_get, IfOk};
ghost use Rattle.cpc_tree.specs.Lists.{holds_number};
ghost use Rattle.cpc_forms.specs.Graph.{at_node};
ghost use Rattle.cpc_forms.specs.Pieces as F;
ghost use Rattle.cpc_forms_code.specs.Splits.{place_of};
ghost use Rattle.cpc_convert_routines.specs.Routines.{Routine};
ghost use Rattle.cpc_chains_event.specs.Rows as R;
ghost use Rattle.cpc_convert_rows.specs.Marks.{AreMarked};
ghost use Rattle.cpc_convert_rows.specs.Steps.{IsStepped};

use crate::marks::{add_if, is_marked, mark, mark_some, unmarked};
use crate::stepped::{Stepped, first_of};
use cpc_base::NoMemory;
use cpc_forms_code::Owner;
use std::alloc::Global;

// The numbers to which control goes on from a node are marked.
fn mark_onwards(marks: &mut Vec<u8>, stepped: &Stepped<'_>, node: usize)
    ensures long { length marks.new.items ≡ length marks.old.items }
    ensures marks { (r : Routine) (ns : List ℕ) → IsStepped r stepped.now → AreMarked marks.old.items ns → AreMarked marks.new.items (ns ++ at_node [] (R.onwards r) (slice_get r.split.graph.nodes node)) }
{
    let step = stepped.step(node);
    mark_some(marks, step.yes);
    mark_some(marks, step.no);
    mark_some(marks, step.behind);
}

// The numbers to which the piece of an owner goes, which has these nodes. `NoMemory` is want of memory.
fn reached(
    alloc: Global,
    stepped: &Stepped<'_>,
    owner: Owner,
    nodes: &[usize],
) -> Result<Vec<u8>, NoMemory>
    ensures long { IfOk result (λ marks. length marks.items ≡ length stepped.now.steps.items) }
    ensures marks { IfOk result (λ marks. (r : Routine) → IsStepped r stepped.now → AreMarked marks.items (F.first_of r.split (place_of owner) ∷ R.onwards_all r nodes.now)) }
{
    let mut marks = unmarked(alloc, stepped.steps.len())?;
    mark(&mut marks, first_of(owner));
    for node in nodes {
        mark_onwards(&mut marks, stepped, *node);
    }
    Ok(marks)
}

// Whether a leader is marked, and another owner than this one owns it.
fn is_other(stepped: &Stepped<'_>, owner: Owner, marks: &[u8], leader: usize) -> bool
    ensures { (r : Routine) (ns : List ℕ) → IsStepped r stepped.now → AreMarked marks.now ns → leader < length marks.now → result ≡ (holds_number ns leader && not (R.is_own r.split (place_of owner) leader)) }
{
    is_marked(marks, leader) && !stepped.is_own(owner, leader)
}

/// The leaders to which the piece of an owner goes that are not its own, in their order; `nodes` are those of the piece that have rows.
/// `NoMemory` is want of memory.
pub fn other_leaders(
    alloc: Global,
    stepped: &Stepped<'_>,
    owner: Owner,
    nodes: &[usize],
) -> Result<Vec<usize>, NoMemory>
    ensures { IfOk result (λ all. (r : Routine) → IsStepped r stepped.now → nodes.now ≡ R.rows_nodes r.split (place_of owner) → all.items ≡ R.stubs_of r (place_of owner)) }
{
    let marks = reached(alloc, stepped, owner, nodes)?;
    let mut all = Vec::new(alloc);
    for leader in &stepped.split.leaders {
        add_if(is_other(stepped, owner, &marks, *leader), *leader, &mut all)?;
    }
    Ok(all)
}
