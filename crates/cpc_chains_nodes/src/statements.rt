//! Statements of the source, as lines.
ghost use Rattle.std.specs.Prelude.{◌≡◌, ◌∷◌, [], ℕ, None, Option, option_map, OnOk};
ghost use Rattle.cpc_tree.specs.Erase as E;
ghost use Rattle.cpc_tree.specs.Erase.{Table, in_table, expr_of, exprs_of, stmt_of};
ghost use Rattle.cpc_base.specs.Bytes.{Text};
ghost use Rattle.cpc_tree.specs.Syntax as S;
ghost use Rattle.cpc_convert_image_laws.specs.Images as I;
ghost use Rattle.cpc_convert_routines.specs.Routines.{Routine};
ghost use Rattle.cpc_chains_event.specs.Lines as L;
ghost use Rattle.cpc_chains_lines.specs.Written.{written, puts};
ghost use Rattle.cpc_chains_lines.specs.Puts.{statements_before};
ghost use Rattle.cpc_chains_lines.specs.Around.{Stands, reads, Leads};
ghost use Rattle.cpc_chains_lines.specs.Known.{MeansFound};

use crate::waiting::{call_waiting, section};
use cpc_base::NoMemory;
use cpc_chains_lines::{Around, Out, go_on, leave, pass, readings};
use cpc_convert_images::{image, image_if, images};
use cpc_tree::program::{Expr, Operand, Statement, Word};
use std::alloc::Global;

// A variable that is declared gets the value that it begins with. `NoMemory` is want of memory.
fn begin_variable(
    alloc: Global,
    out: &mut Out,
    around: Around<'_>,
    scope: Option<usize>,
    word: Word,
    start: &Expr,
) -> Result<(), NoMemory>
    ensures { OnOk result ((source : Table) (from to : E.Names) (p : S.Program) (r : Routine) → Stands source from to p r around.entry → from word.name ≡ to word.name → expr_of from start.now ≡ expr_of to start.now
        → written to out.new ≡ puts (written to out.old) (S.Assign (I.image (reads from r around.entry scope) (S.ENamed (from word.name))) None (I.image (reads from r around.entry scope) (expr_of from start.now)) ∷ [])) }
{
    let target = image(alloc, &Expr::Name(word), readings(around, scope))?;
    let value = image(alloc, start, readings(around, scope))?;
    out.assign(alloc, around.place, target, value)?;
    Ok(())
}

// A call in its own step, or over a frame. `NoMemory` is want of memory.
fn call(
    alloc: Global,
    out: &mut Out,
    around: Around<'_>,
    scope: Option<usize>,
    target: &Option<Operand>,
    function: &Expr,
    arguments: &[Expr],
) -> Result<(), NoMemory>
    ensures { OnOk result ((source : Table) (from to : E.Names) (p : S.Program) (r : Routine) → Stands source from to p r around.entry
        → option_map (expr_of from) target.now ≡ option_map (expr_of to) target.now → expr_of from function.now ≡ expr_of to function.now → exprs_of from arguments.now ≡ exprs_of to arguments.now
        → written to out.new ≡ puts (written to out.old) (I.image_stmt (reads from r around.entry scope) (S.Call (option_map (expr_of from) target.now) (expr_of from function.now) (exprs_of from arguments.now)) ∷ [])) }
{
    let target = image_if(alloc, target, readings(around, scope))?;
    let function = image(alloc, function, readings(around, scope))?;
    let arguments = images(alloc, arguments, readings(around, scope))?;
    out.call_by(alloc, around.place, target, function, arguments)?;
    Ok(())
}

/// A simple statement that is left in its own step. `NoMemory` is want of memory.
pub(crate) fn simple(
    alloc: Global,
    out: &mut Out,
    around: Around<'_>,
    scope: Option<usize>,
    s: &Statement,
    next: Option<usize>,
    following: Option<usize>,
) -> Result<(), NoMemory>
    ensures { OnOk result ((source : Table) (from to : E.Names) (p : S.Program) (r : Routine) → Stands source from to p r around.entry → Leads around.entry next
        → stmt_of from s.now ≡ stmt_of to s.now → stmt_of (in_table source) s.now ≡ stmt_of to s.now
        → written to out.new ≡ puts (written to out.old) (statements_before following (L.simple_lines r (reads from r around.entry scope) (stmt_of from s.now) next))) }
{
    match s {
        Statement::Return { value, .. } => {
            leave(alloc, out, around, scope, value)?;
            Ok(())
        }
        Statement::Spawn {
            function,
            arguments,
            ..
        } => {
            let name = around.book.spawner(function.name);
            let arguments = images(alloc, arguments, readings(around, scope))?;
            out.call(alloc, around.place, name, arguments)?;
            go_on(alloc, out, around, next, following)?;
            Ok(())
        }
        Statement::Declare { word, start, .. } => match start {
            Some(start) => {
                begin_variable(alloc, out, around, scope, *word, start.expr())?;
                go_on(alloc, out, around, next, following)?;
                Ok(())
            }
            None => {
                pass(alloc, out, around, next, following)?;
                Ok(())
            }
        },
        Statement::Assign {
            target,
            op,
            value,
            ..
        } => {
            let target = image(alloc, target.expr(), readings(around, scope))?;
            let value = image(alloc, value.expr(), readings(around, scope))?;
            out.assign_by(alloc, around.place, target, *op, value)?;
            go_on(alloc, out, around, next, following)?;
            Ok(())
        }
        Statement::Call {
            target,
            function,
            arguments,
            ..
        } => {
            call(
                alloc,
                out,
                around,
                scope,
                target,
                function.expr(),
                arguments,
            )?;
            go_on(alloc, out, around, next, following)?;
            Ok(())
        }
        _ => {
            pass(alloc, out, around, next, following)?;
            Ok(())
        }
    }
}

/// A call that is left over a frame, with its arrival; control goes on from there. `NoMemory` is want of memory.
pub(crate) fn framed(
    alloc: Global,
    out: &mut Out,
    around: Around<'_>,
    scope: Option<usize>,
    s: &Statement,
    next: Option<usize>,
    following: Option<usize>,
) -> Result<(), NoMemory>
    ensures { OnOk result ((source : Table) (from to : E.Names) (p : S.Program) (r : Routine) (arrival : Option ℕ) → Stands source from to p r around.entry → Leads around.entry next → next ≡ L.behind_arrival r arrival
        → stmt_of from s.now ≡ stmt_of to s.now
        → written to out.new ≡ puts (written to out.old) (statements_before following (L.framed_lines r (reads from r around.entry scope) (stmt_of from s.now) arrival))) }
{
    match s {
        Statement::Call {
            target,
            function,
            arguments,
            ..
        } => {
            call(
                alloc,
                out,
                around,
                scope,
                target,
                function.expr(),
                arguments,
            )?;
            go_on(alloc, out, around, next, following)?;
            Ok(())
        }
        _ => {
            pass(alloc, out, around, next, following)?;
            Ok(())
        }
    }
}

/// A statement that waits. `NoMemory` is want of memory.
pub(crate) fn waiting(
    alloc: Global,
    out: &mut Out,
    around: Around<'_>,
    scope: Option<usize>,
    s: &Statement,
    arrival: Option<usize>,
) -> Result<(), NoMemory>
    ensures { OnOk result ((source : Table) (from to : E.Names) (p : S.Program) (r : Routine) → Stands source from to p r around.entry → Leads around.entry arrival
        → ((o : Option S.Expr) (f : Text) (es : S.Exprs) → stmt_of from s.now ≡ S.Call o (S.ENamed f) es → MeansFound from p around.entry.book.now.functions.items f)
        → stmt_of from s.now ≡ stmt_of to s.now
        → written to out.new ≡ puts (written to out.old) (L.cps_lines p r (reads from r around.entry scope) (stmt_of from s.now) arrival)) }
{
    match s {
        Statement::Call {
            function,
            arguments,
            ..
        } => match function.expr() {
            Expr::Name(word) => {
                call_waiting(alloc, out, around, scope, arrival, word.name, arguments)?;
                Ok(())
            }
            _ => Ok(()),
        },
        Statement::Detach {
            function,
            arguments,
            ..
        } => {
            section(alloc, out, around, scope, arrival, *function, arguments)?;
            Ok(())
        }
        _ => Ok(()),
    }
}
