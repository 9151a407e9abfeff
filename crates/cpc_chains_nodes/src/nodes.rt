//! The lines of nodes, and those that go to other leaders.
ghost use Rattle.std.specs.Prelude.{◌≡◌, ℕ, None, Some, Option, option_map, slice_get, OnOk};
ghost use Rattle.cpc_tree.specs.Erase as E;
ghost use Rattle.cpc_tree.specs.Erase.{Table, expr_of, stmt_of};
ghost use Rattle.cpc_tree.specs.Points.{Simple};
ghost use Rattle.cpc_tree.specs.Syntax as S;
ghost use Rattle.cpc_meaning.specs.Act.{AtStatement, target_of};
ghost use Rattle.cpc_forms_code.specs.Seen.{manner_seen, stood_seen};
ghost use Rattle.cpc_forms_code.specs.declared.boxed.Stood.TheVariants as F;
ghost use Rattle.cpc_convert_routines.specs.Routines.{Routine};
ghost use Rattle.cpc_chains_event.specs.Lines as L;
ghost use Rattle.cpc_chains_event.specs.Rows.{stub_lines};
ghost use Rattle.cpc_chains_lines.specs.Written.{written, puts};
ghost use Rattle.cpc_chains_lines.specs.Puts.{place_in, statements_before, lines_at};
ghost use Rattle.cpc_chains_lines.specs.Around.{Stands, reads, Leads, IsNode, Knows};

use crate::statements::{framed, simple, waiting};
use cpc_base::NoMemory;
use cpc_chains_lines::{
    Around, Out, go_on, goto_where, hand_over, leave, make_frame, named, pass, readings, target,
};
use cpc_convert_images::image;
use cpc_forms_code::{Manner, Node, Stood};
use cpc_tree::program::{Expr, Statement};
use std::alloc::Global;

// A test; an absent one is passed. `NoMemory` is want of memory.
fn test(
    alloc: Global,
    out: &mut Out,
    around: Around<'_>,
    scope: Option<usize>,
    t: Option<&Expr>,
    ways: (Option<usize>, Option<usize>),
    following: Option<usize>,
) -> Result<(), NoMemory>
    ensures { OnOk result ((source : Table) (from to : E.Names) (p : S.Program) (r : Routine) → Stands source from to p r around.entry → Leads around.entry ways.0 → Leads around.entry ways.1
        → option_map (λ e. expr_of from e.now) t.entry ≡ option_map (λ e. expr_of to e.now) t.entry
        → written to out.new ≡ puts (written to out.old) (statements_before following (L.test_lines (reads from r around.entry scope) (option_map (λ e. expr_of from e.now) t.entry) ways.0 ways.1))) }
{
    match t {
        Some(e) => match ways.0 {
            Some(number) => {
                let made = image(alloc, e, readings(around, scope))?;
                goto_where(alloc, out, around, made, number)?;
                go_on(alloc, out, around, ways.1, following)?;
                Ok(())
            }
            None => {
                pass(alloc, out, around, ways.0, following)?;
                Ok(())
            }
        },
        None => {
            pass(alloc, out, around, ways.0, following)?;
            Ok(())
        }
    }
}

// The value that arrives is put in its place. `NoMemory` is want of memory.
fn arrive(
    alloc: Global,
    out: &mut Out,
    around: Around<'_>,
    scope: Option<usize>,
    s: &Statement,
    next: Option<usize>,
    following: Option<usize>,
) -> Result<(), NoMemory>
    ensures { OnOk result ((source : Table) (from to : E.Names) (p : S.Program) (r : Routine) → Stands source from to p r around.entry → Leads around.entry next → stmt_of from s.now ≡ stmt_of to s.now
        → written to out.new ≡ puts (written to out.old) (statements_before following (L.arrival_lines (reads from r around.entry scope) (target_of (Simple (stmt_of from s.now))) next))) }
{
    match target(s) {
        Some(e) => {
            let made = image(alloc, e, readings(around, scope))?;
            let value = named(around.place, around.book.own.value);
            out.assign(alloc, around.place, made, value)?;
            go_on(alloc, out, around, next, following)?;
            Ok(())
        }
        None => {
            pass(alloc, out, around, next, following)?;
            Ok(())
        }
    }
}

// Where control goes on from the arrival of a native call.
fn behind(around: Around<'_>, arrival: Option<usize>) -> Option<usize>
    ensures is { (source : Table) (from to : E.Names) (p : S.Program) (r : Routine) → Stands source from to p r around.entry → result ≡ L.behind_arrival r arrival }
    ensures leads { (source : Table) (from to : E.Names) (p : S.Program) (r : Routine) → Stands source from to p r around.entry → Leads around.entry result }
{
    match arrival {
        Some(number) => match around.called.nodes().get(number) {
            Some(node) => node.yes,
            None => None,
        },
        None => None,
    }
}

// A statement, as it is left. `NoMemory` is want of memory.
fn statement(
    alloc: Global,
    out: &mut Out,
    around: Around<'_>,
    node: Node<'_>,
    s: &Statement,
    following: Option<usize>,
) -> Result<(), NoMemory>
    ensures { OnOk result ((source : Table) (from to : E.Names) (p : S.Program) (r : Routine) → Stands source from to p r around.entry → Knows source from to p around.entry node.entry → node.entry.stood ≡ F.Simple s.entry
        → written to out.new ≡ puts (written to out.old)
        (statements_before following (L.stood_lines p r (reads from r around.entry node.entry.scope) (manner_seen node.entry.manner) (AtStatement (Simple (stmt_of from s.now))) node.entry.yes node.entry.no node.entry.arrival))) }
{
    match node.manner {
        Manner::InPlace => {
            simple(alloc, out, around, node.scope, s, node.yes, following)?;
            Ok(())
        }
        Manner::ByFrame => {
            let next = behind(around, node.arrival);
            framed(alloc, out, around, node.scope, s, next, following)?;
            Ok(())
        }
        Manner::AsCps => {
            waiting(alloc, out, around, node.scope, s, node.arrival)?;
            Ok(())
        }
    }
}

// A block without statements. `NoMemory` is want of memory.
fn empty(
    alloc: Global,
    out: &mut Out,
    around: Around<'_>,
    node: Node<'_>,
    following: Option<usize>,
) -> Result<(), NoMemory>
    ensures { OnOk result ((source : Table) (from to : E.Names) (p : S.Program) (r : Routine) → Stands source from to p r around.entry → Knows source from to p around.entry node.entry
        → written to out.new ≡ puts (written to out.old)
        (statements_before following (L.stood_lines p r (reads from r around.entry node.entry.scope) (manner_seen node.entry.manner) (AtStatement (Simple S.Empty)) node.entry.yes node.entry.no node.entry.arrival))) }
{
    match node.manner {
        Manner::InPlace => {
            pass(alloc, out, around, node.yes, following)?;
            Ok(())
        }
        Manner::ByFrame => {
            pass(alloc, out, around, behind(around, node.arrival), following)?;
            Ok(())
        }
        Manner::AsCps => Ok(()),
    }
}

// The lines of a node. `NoMemory` is want of memory.
fn stood(
    alloc: Global,
    out: &mut Out,
    around: Around<'_>,
    node: Node<'_>,
    following: Option<usize>,
) -> Result<(), NoMemory>
    ensures { OnOk result ((source : Table) (from to : E.Names) (p : S.Program) (r : Routine) → Stands source from to p r around.entry → Knows source from to p around.entry node.entry
        → written to out.new ≡ puts (written to out.old)
        (statements_before following (L.stood_lines p r (reads from r around.entry node.entry.scope) (manner_seen node.entry.manner) (stood_seen from node.entry.stood) node.entry.yes node.entry.no node.entry.arrival))) }
{
    match node.stood {
        Stood::Simple(s) => {
            statement(alloc, out, around, node, s, following)?;
            Ok(())
        }
        Stood::Empty => {
            empty(alloc, out, around, node, following)?;
            Ok(())
        }
        Stood::Test(t) => {
            test(
                alloc,
                out,
                around,
                node.scope,
                t,
                (node.yes, node.no),
                following,
            )?;
            Ok(())
        }
        Stood::Arrival(s) => {
            arrive(alloc, out, around, node.scope, s, node.yes, following)?;
            Ok(())
        }
        Stood::End => {
            leave(alloc, out, around, node.scope, &None)?;
            Ok(())
        }
    }
}

/// The lines of the node of a number, before this one. `NoMemory` is want of memory.
pub fn node(
    alloc: Global,
    out: &mut Out,
    around: Around<'_>,
    number: usize,
    following: Option<usize>,
) -> Result<(), NoMemory>
    ensures { OnOk result ((source : Table) (from to : E.Names) (p : S.Program) (r : Routine) → Stands source from to p r around.entry
        → written to out.new ≡ puts (written to out.old) (statements_before following (lines_at p r number))) }
{
    match around.called.nodes().get(number) {
        Some(node) => {
            stood(alloc, out, around, *node, following)?;
            Ok(())
        }
        None => Ok(()),
    }
}

/// The lines that go to a leader: its frame, given to the driver. `NoMemory` is want of memory.
pub fn stub(alloc: Global, out: &mut Out, around: Around<'_>, leader: usize) -> Result<(), NoMemory>
    ensures { OnOk result ((source : Table) (from to : E.Names) (p : S.Program) (r : Routine) → Stands source from to p r around.entry → IsNode around.entry leader
        → (following : Option ℕ) → written to out.new ≡ puts (written to out.old) (statements_before following (stub_lines r leader))) }
{
    let given = around.book.own.given;
    make_frame(alloc, out, around, given, leader)?;
    hand_over(alloc, out, around, given)?;
    Ok(())
}
