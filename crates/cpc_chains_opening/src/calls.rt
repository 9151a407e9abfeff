//! Whether a piece calls cps functions.
ghost use Rattle.std.specs.Prelude.{◌≡◌, false, Option, slice_get};
ghost use Rattle.cpc_tree.specs.Erase as E;
ghost use Rattle.cpc_tree.specs.Erase.{Table};
ghost use Rattle.cpc_tree.specs.Points.{Simple};
ghost use Rattle.cpc_tree.specs.Syntax as S;
ghost use Rattle.cpc_meaning.specs.Act.{AtStatement};
ghost use Rattle.cpc_forms.specs.Graph.{at_node};
ghost use Rattle.cpc_forms_code.specs.Seen.{stood_seen};
ghost use Rattle.cpc_chains_event.specs.Pieces as P;
ghost use Rattle.cpc_convert_routines.specs.Routines.{Routine};
ghost use Rattle.cpc_chains_lines.specs.Around.{Stands};
ghost use Rattle.cpc_chains_opening.specs.Whole.{AreEntries};

use cpc_chains_lines::Around;
use cpc_forms_code::Stood;
use cpc_tree::program::{Expr, Statement};

// Whether what is called is a cps function.
fn is_found(around: Around<'_>, function: &Expr) -> bool
    ensures { (source : Table) (from to : E.Names) (p : S.Program) (r : Routine) (o : Option S.Expr) (es : S.Exprs) → Stands source from to p r around.entry → AreEntries from p around.entry
        → result ≡ P.is_entry p (AtStatement (Simple (S.Call o (E.expr_of from function.now) es))) }
{
    match function {
        Expr::Name(word) => around.book.find(word.name).is_some(),
        _ => false,
    }
}

// Whether a statement calls a cps function.
fn enters(around: Around<'_>, s: &Statement) -> bool
    ensures { (source : Table) (from to : E.Names) (p : S.Program) (r : Routine) → Stands source from to p r around.entry → AreEntries from p around.entry → result ≡ P.is_entry p (AtStatement (Simple (E.stmt_of from s.now))) }
{
    match s {
        Statement::Call { function, .. } => is_found(around, function.expr()),
        _ => false,
    }
}

// Whether what stands at a node calls a cps function.
fn calls(around: Around<'_>, stood: Stood<'_>) -> bool
    ensures { (source : Table) (from to : E.Names) (p : S.Program) (r : Routine) → Stands source from to p r around.entry → AreEntries from p around.entry → result ≡ P.is_entry p (stood_seen from stood.entry) }
{
    match stood {
        Stood::Simple(s) => enters(around, s),
        _ => false,
    }
}

// Whether a cps function is called at the node of a number.
fn calls_at(around: Around<'_>, number: usize) -> bool
    ensures { (source : Table) (from to : E.Names) (p : S.Program) (r : Routine) → Stands source from to p r around.entry → AreEntries from p around.entry
        → result ≡ at_node false (λ node. P.is_entry p node.stood) (slice_get r.split.graph.nodes number) }
{
    match around.called.nodes().get(number) {
        Some(node) => calls(around, node.stood),
        None => false,
    }
}

/// Whether a cps function is called at one of these nodes.
pub(crate) fn any_calls(around: Around<'_>, nodes: &[usize]) -> bool
    ensures { (source : Table) (from to : E.Names) (p : S.Program) (r : Routine) → Stands source from to p r around.entry → AreEntries from p around.entry → result ≡ P.any_node r (λ node. P.is_entry p node.stood) nodes.now }
{
    for number in nodes {
        if calls_at(around, *number) {
            return true;
        }
    }
    false
}
