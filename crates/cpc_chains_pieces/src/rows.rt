//! The rows of a piece, as statements.
ghost use Rattle.std.specs.Prelude.{◌≡◌, ◌<◌, ℕ, suc, ◌++◌, None, All, option_map, map, length, slice_get, OnOk};
ghost use Rattle.cpc_tree.specs.Erase as E;
ghost use Rattle.cpc_tree.specs.Erase.{Table};
ghost use Rattle.cpc_tree.specs.Syntax as S;
ghost use Rattle.cpc_tree.specs.declared.program.Word as W;
ghost use Rattle.cpc_forms_code.specs.Splits.{place_of};
ghost use Rattle.cpc_convert_routines.specs.Names.{node_label};
ghost use Rattle.cpc_convert_routines.specs.Routines.{Routine};
ghost use Rattle.cpc_chains_event.specs.Rows as R;
ghost use Rattle.cpc_chains_lines.specs.Called.{nodes_in};
ghost use Rattle.cpc_chains_lines.specs.Around.{Stands, IsNode};
ghost use Rattle.cpc_chains_lines.specs.Written.{written, puts};
ghost use Rattle.cpc_chains_opening.specs.Labels.{label_where};
ghost use Rattle.cpc_convert_rows.specs.Marks.{is_set};
ghost use Rattle.cpc_convert_rows.specs.Steps.{IsStepped};

use cpc_base::NoMemory;
use cpc_chains_lines::{Around, Out};
use cpc_chains_nodes::{node, stub};
use cpc_convert_rows::{Stepped, behind, is_marked};
use cpc_forms_code::Owner;
use cpc_tree::program::Word;
use std::alloc::Global;

// The label of a row, where it is wanted.
fn label(around: Around<'_>, is_wanted: bool, number: usize) -> Option<Word>
    ensures { (source : Table) (from to : E.Names) (p : S.Program) (r : Routine) → Stands source from to p r around.entry → IsNode around.entry number
        → option_map (λ (w : W.Word). to w.name) result ≡ label_where is_wanted number }
{
    if is_wanted {
        return Some(Word {
            place: around.place,
            name: around.called.label(number),
        });
    }
    None
}

// The lines of a row. `NoMemory` is want of memory.
fn lines(
    alloc: Global,
    out: &mut Out,
    around: Around<'_>,
    stepped: &Stepped<'_>,
    owner: Owner,
    number: usize,
    following: Option<usize>,
) -> Result<(), NoMemory>
    ensures { OnOk result ((source : Table) (from to : E.Names) (p : S.Program) (r : Routine) → Stands source from to p r around.entry → IsStepped r stepped.now → IsNode around.entry number
        → written to out.new ≡ puts (written to out.old) (map R.put_statement (R.put_lines following (R.row_of p r (place_of owner) number).lines))) }
{
    if stepped.is_own(owner, number) {
        return node(alloc, out, around, number, following);
    }
    stub(alloc, out, around, number)
}

// A row, behind its label where it is wanted. `NoMemory` is want of memory.
fn row(
    alloc: Global,
    out: &mut Out,
    around: Around<'_>,
    stepped: &Stepped<'_>,
    owner: Owner,
    number: usize,
    ways: (Option<usize>, bool),
) -> Result<(), NoMemory>
    ensures { OnOk result ((source : Table) (from to : E.Names) (p : S.Program) (r : Routine) → Stands source from to p r around.entry → IsStepped r stepped.now → IsNode around.entry number
        → written to out.new ≡ record { done = (written to out.old).done ++ R.label_if ways.1 (node_label number) (map R.put_statement (R.put_lines ways.0 (R.row_of p r (place_of owner) number).lines)); label = None }) }
{
    let (following, is_wanted) = ways;
    out.label_next(label(around, is_wanted, number));
    lines(alloc, out, around, stepped, owner, number, following)?;
    out.label_next(None);
    Ok(())
}

/// The rows of a piece of these numbers, which want labels where they are marked. `NoMemory` is want of memory.
pub(crate) fn write_rows(
    alloc: Global,
    out: &mut Out,
    around: Around<'_>,
    stepped: &Stepped<'_>,
    owner: Owner,
    numbers: &[usize],
    marks: &[u8],
) -> Result<(), NoMemory>
    ensures { OnOk result ((source : Table) (from to : E.Names) (p : S.Program) (r : Routine) → Stands source from to p r around.entry → IsStepped r stepped.now → All (IsNode around.entry) numbers.now
        → length marks.now ≡ length (nodes_in around.entry.called.now.lifted.now) → ((k : ℕ) → k < length marks.now → is_set marks.now k ≡ R.is_wanted k (R.put_rows (map (R.row_of p r (place_of owner)) numbers.now)))
        → (written to out.old).label ≡ None
        → written to out.new ≡ record { done = (written to out.old).done ++ R.rows_statements (R.put_rows (map (R.row_of p r (place_of owner)) numbers.now)) (R.put_rows (map (R.row_of p r (place_of owner)) numbers.now)); label = None }) }
{
    for place in 0..numbers.len() {
        let number = numbers[place];
        let ways = (behind(numbers, place), is_marked(marks, number));
        row(alloc, out, around, stepped, owner, number, ways)?;
    }
    Ok(())
}
