//! Ways to nodes, which are no statement where the node stands next.
ghost use Rattle.std.specs.Prelude.{◌≡◌, ◌∷◌, [], OnOk};
ghost use Rattle.cpc_tree.specs.Erase as E;
ghost use Rattle.cpc_tree.specs.Erase.{Table, expr_of};
ghost use Rattle.cpc_tree.specs.Syntax as S;
ghost use Rattle.cpc_convert_routines.specs.Routines.{Routine};
ghost use Rattle.cpc_chains_event.specs.Lines as L;
ghost use Rattle.cpc_chains_event.specs.Rows as R;
ghost use Rattle.cpc_chains_lines.specs.Written.{written, puts};
ghost use Rattle.cpc_chains_lines.specs.Puts.{statements_before};
ghost use Rattle.cpc_chains_lines.specs.Around.{Stands, Leads, IsNode};

use crate::around::{Around, label};
use crate::out::Out;
use cpc_base::NoMemory;
use cpc_forms_code::is_next;
use cpc_tree::program::Expr;
use std::alloc::Global;

/// A way behind a statement, where there is one. `NoMemory` is want of memory.
pub fn go_on(
    alloc: Global,
    out: &mut Out,
    around: Around<'_>,
    next: Option<usize>,
    following: Option<usize>,
) -> Result<(), NoMemory>
    ensures { OnOk result ((source : Table) (from to : E.Names) (p : S.Program) (r : Routine) → Stands source from to p r around.entry → Leads around.entry next
        → written to out.new ≡ puts (written to out.old) (statements_before following (L.goes next))) }
{
    match next {
        Some(number) => {
            if is_next(number, following) {
                return Ok(());
            }
            out.goto(alloc, around.place, label(around, number))?;
            Ok(())
        }
        None => Ok(()),
    }
}

/// A way in place of a statement that changes nothing. `NoMemory` is want of memory.
pub fn pass(
    alloc: Global,
    out: &mut Out,
    around: Around<'_>,
    next: Option<usize>,
    following: Option<usize>,
) -> Result<(), NoMemory>
    ensures { OnOk result ((source : Table) (from to : E.Names) (p : S.Program) (r : Routine) → Stands source from to p r around.entry → Leads around.entry next
        → written to out.new ≡ puts (written to out.old) (statements_before following (L.passes next ∷ []))) }
{
    match next {
        Some(number) => {
            if is_next(number, following) {
                out.empty(alloc, around.place)?;
                return Ok(());
            }
            out.goto(alloc, around.place, label(around, number))?;
            Ok(())
        }
        None => {
            out.empty(alloc, around.place)?;
            Ok(())
        }
    }
}

/// A way to a node where a test holds. `NoMemory` is want of memory.
pub fn goto_where(
    alloc: Global,
    out: &mut Out,
    around: Around<'_>,
    test: Expr,
    number: usize,
) -> Result<(), NoMemory>
    ensures { OnOk result ((source : Table) (from to : E.Names) (p : S.Program) (r : Routine) → Stands source from to p r around.entry → IsNode around.entry number
        → written to out.new ≡ puts (written to out.old) (R.put_statement (R.JumpIf (expr_of to test) number) ∷ [])) }
{
    out.goto_if(alloc, around.place, test, label(around, number))?;
    Ok(())
}
