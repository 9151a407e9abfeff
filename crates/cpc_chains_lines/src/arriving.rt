//! Values that arrive: where they are put, and their types.
ghost use Rattle.std.specs.Prelude.{◌≡◌, ◌∷◌, [], Option, option_map, IfOk, OnOk};
ghost use Rattle.cpc_base.specs.Bytes.{Text};
ghost use Rattle.cpc_tree.specs.Erase as E;
ghost use Rattle.cpc_tree.specs.Erase.{Table, expr_of, stmt_of, type_of, function_of};
ghost use Rattle.cpc_tree.specs.Points.{Simple};
ghost use Rattle.cpc_tree.specs.Syntax as S;
ghost use Rattle.cpc_tree.specs.Typing as T;
ghost use Rattle.cpc_meaning.specs.Act.{target_of};
ghost use Rattle.cpc_forms.specs.Flow.{At};
ghost use Rattle.cpc_forms_code.specs.Seen.{manner_seen, stood_seen};
ghost use Rattle.cpc_chains_store_laws.specs.Driver.{value_field};
ghost use Rattle.cpc_convert_flat_laws.specs.Locals.{loads_one};
ghost use Rattle.cpc_convert_routines.specs.Arriving.{arriving_if, arriving_found, arriving_stood, arriving_type};
ghost use Rattle.cpc_convert_routines.specs.Names.{frame_name, value_name};
ghost use Rattle.cpc_convert_routines.specs.Taken.{has_place, takes_stood};
ghost use Rattle.cpc_convert_routines.specs.Routines.{Routine};
ghost use Rattle.cpc_convert_names.specs.Called.{function_in};
ghost use Rattle.cpc_chains_lines.specs.Written.{written, puts};
ghost use Rattle.cpc_chains_lines.specs.Around.{Stands, Knows};
ghost use Rattle.cpc_convert_needs.specs.Known.{IsAlike, MeansFound};
ghost use Rattle.cpc_chains_lines.specs.Puts.{place_in, loads_if};

use crate::around::Around;
use crate::out::Out;
use crate::trees::{field, named};
use cpc_base::{Name, NoMemory};
use cpc_convert_images::both;
use cpc_convert_names::Called;
use cpc_forms_code::{Manner, Node, Stood};
use cpc_num::Kind;
use cpc_shapes::copy_of;
use cpc_tree::program::{CType, Expr, Operand, Statement};
use std::alloc::Global;

/// The place for the value that arrives at a statement.
pub fn target(s: &Statement) -> Option<&Expr>
    ensures { (names : E.Names) → option_map (λ e. expr_of names e.now) result ≡ place_in (target_of (Simple (stmt_of names s.now))) }
{
    match s {
        Statement::Call { target, .. } | Statement::Detach { target, .. } => match target {
            Some(target) => Some(target.expr()),
            None => None,
        },
        _ => None,
    }
}

// The type of the values that arrive from a function. `NoMemory` is want of memory.
fn arriving_from(alloc: Global, callee: &Called<'_>) -> Result<CType, NoMemory>
    ensures { IfOk result (λ t. (from to : E.Names) → IsAlike from to callee.now.lifted.now
        → type_of to t ≡ arriving_if (T.is_scalar (function_of from (function_in callee.now.lifted.now)).result) (function_of from (function_in callee.now.lifted.now)).result) }
{
    let result = &callee.function().result;
    if result.is_scalar() {
        let copy = copy_of(alloc, result)?;
        return Ok(copy);
    }
    Ok(CType::Int(Kind::Int))
}

/// The type of the value that arrives at a statement. `NoMemory` is want of memory.
pub fn arriving(alloc: Global, around: Around<'_>, s: &Statement) -> Result<CType, NoMemory>
    ensures { IfOk result (λ t. (source : Table) (from to : E.Names) (p : S.Program) (r : Routine) → Stands source from to p r around.entry
        → ((o : Option S.Expr) (f : Text) (es : S.Exprs) → stmt_of from s.now ≡ S.Call o (S.ENamed f) es → MeansFound from p around.entry.book.now.functions.items f)
        → type_of to t ≡ arriving_found p (Simple (stmt_of from s.now))) }
{
    match s {
        Statement::Call { function, .. } => match function.expr() {
            Expr::Name(word) => match around.book.find(word.name) {
                Some(callee) => {
                    let of = arriving_from(alloc, callee)?;
                    Ok(of)
                }
                None => Ok(CType::Int(Kind::Int)),
            },
            _ => Ok(CType::Int(Kind::Int)),
        },
        _ => Ok(CType::Int(Kind::Int)),
    }
}

// The type of the value that arrives at a node. `NoMemory` is want of memory.
fn arriving_here(alloc: Global, around: Around<'_>, node: Node<'_>) -> Result<CType, NoMemory>
    ensures { IfOk result (λ t. (source : Table) (from to : E.Names) (p : S.Program) (r : Routine) → Stands source from to p r around.entry → Knows source from to p around.entry node.entry
        → type_of to t ≡ arriving_stood p (manner_seen node.entry.manner) (stood_seen from node.entry.stood)) }
{
    match (node.manner, node.stood) {
        (Manner::AsCps, Stood::Arrival(s)) => {
            let of = arriving(alloc, around, s)?;
            Ok(of)
        }
        _ => Ok(CType::Int(Kind::Int)),
    }
}

/// The type of the value that arrives at a leader. `NoMemory` is want of memory.
pub fn arriving_at(alloc: Global, around: Around<'_>, leader: usize) -> Result<CType, NoMemory>
    ensures { IfOk result (λ t. (source : Table) (from to : E.Names) (p : S.Program) (r : Routine) → Stands source from to p r around.entry → type_of to t ≡ arriving_type p r (At leader)) }
{
    match around.called.nodes().get(leader) {
        Some(node) => {
            let of = arriving_here(alloc, around, *node)?;
            Ok(of)
        }
        None => Ok(CType::Int(Kind::Int)),
    }
}

/// A local of a name and a type is loaded from a field of the frame. `NoMemory` is want of memory.
pub fn load(
    alloc: Global,
    out: &mut Out,
    around: Around<'_>,
    name: Name,
    of: CType,
    from_field: Name,
) -> Result<(), NoMemory>
    ensures { OnOk result ((source : Table) (from to : E.Names) (p : S.Program) (r : Routine) → Stands source from to p r around.entry
        → written to out.new ≡ puts (written to out.old) (loads_one frame_name (record { variable = to name; type = type_of to of; field = to from_field }) ∷ [])) }
{
    let frame = named(around.place, around.book.own.frame);
    let (of, start) = both(of, field(alloc, around.place, frame, from_field))?;
    out.declare(alloc, around.place, name, of, Some(Operand::new(start)))?;
    Ok(())
}

// The value that arrives at a statement is loaded, where it is put somewhere. `NoMemory` is want of memory.
fn load_at(alloc: Global, out: &mut Out, around: Around<'_>, s: &Statement) -> Result<(), NoMemory>
    ensures { OnOk result ((source : Table) (from to : E.Names) (p : S.Program) (r : Routine) → Stands source from to p r around.entry
        → ((o : Option S.Expr) (f : Text) (es : S.Exprs) → stmt_of from s.now ≡ S.Call o (S.ENamed f) es → MeansFound from p around.entry.book.now.functions.items f)
        → written to out.new ≡ puts (written to out.old) (loads_if (has_place (target_of (Simple (stmt_of from s.now)))) (arriving_found p (Simple (stmt_of from s.now))))) }
{
    match target(s) {
        Some(_) => {
            let of = arriving(alloc, around, s)?;
            let value = around.book.own.value;
            load(alloc, out, around, value, of, value)?;
            Ok(())
        }
        None => Ok(()),
    }
}

/// The value that arrives at a node is loaded, where it is put somewhere. `NoMemory` is want of memory.
pub fn load_arriving(
    alloc: Global,
    out: &mut Out,
    around: Around<'_>,
    node: Node<'_>,
) -> Result<(), NoMemory>
    ensures { OnOk result ((source : Table) (from to : E.Names) (p : S.Program) (r : Routine) → Stands source from to p r around.entry → Knows source from to p around.entry node.entry
        → written to out.new ≡ puts (written to out.old)
        (loads_if (takes_stood (manner_seen node.entry.manner) (stood_seen from node.entry.stood)) (arriving_stood p (manner_seen node.entry.manner) (stood_seen from node.entry.stood)))) }
{
    match (node.manner, node.stood) {
        (Manner::AsCps, Stood::Arrival(s)) => {
            load_at(alloc, out, around, s)?;
            Ok(())
        }
        _ => Ok(()),
    }
}
