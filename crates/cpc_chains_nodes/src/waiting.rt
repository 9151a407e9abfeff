//! Statements that wait: the frame of the arrival, and what the driver or the loop is given.
ghost use Rattle.std.specs.Prelude.{◌≡◌, ◌<◌, ◌∷◌, [], ℕ, Some, drop, map, length, option_map, OnOk};
ghost use Rattle.cpc_tree.specs.Erase as E;
ghost use Rattle.cpc_tree.specs.Erase.{Table, expr_of, exprs_of, function_of};
ghost use Rattle.cpc_tree.specs.Primitives as Q;
ghost use Rattle.cpc_tree.specs.Syntax as S;
ghost use Rattle.cpc_tree.specs.Typing.{function_named};
ghost use Rattle.cpc_tree.specs.PrimitiveNames.{primitive_of};
ghost use Rattle.cpc_convert_names.specs.Book.{IsBook, find};
ghost use Rattle.cpc_convert_names.specs.Words.{AreOfLoop};
ghost use Rattle.cpc_convert_names.specs.Called.{AreCalled, function_in, variables_in};
ghost use Rattle.cpc_convert_names.specs.declared.called.Called as C;
ghost use Rattle.cpc_convert_image_laws.specs.Images as I;
ghost use Rattle.cpc_chains_store_laws.specs.Frames as F;
ghost use Rattle.cpc_convert_routines.specs.Names.{to_name};
ghost use Rattle.cpc_convert_routines.specs.Routines.{Routine};
ghost use Rattle.cpc_chains_event.specs.Lines as L;
ghost use Rattle.cpc_chains_lines.specs.Written.{written, puts};
ghost use Rattle.cpc_chains_lines.specs.Puts.{gives};
ghost use Rattle.cpc_chains_lines.specs.Known.{MeansFound, IsAlike, plain_seen};
ghost use Rattle.cpc_chains_lines.specs.Around.{Stands, reads, Leads};

use cpc_base::{Name, NoMemory};
use cpc_chains_lines::{
    Around, Out, ask_block, begin_frame, field, frame_through, hand_nothing, hand_over, make_frame,
    named, readings,
};
use cpc_check_rules::primitive_at;
use cpc_convert_images::{Readings, image, images};
use cpc_convert_names::{Called, LoopWords};
use cpc_tree::primitive::Primitive;
use cpc_tree::program::{Expr, Word};
use std::alloc::Global;

// The wait for a callback that stands for a wait.
fn runtime_word(of_loop: &LoopWords, primitive: Option<Primitive>) -> Name
    ensures { (to : E.Names) → AreOfLoop to of_loop.now → to result ≡ L.runtime_name (option_map primitive_of primitive) }
{
    match primitive {
        Some(Primitive::Sleep) => of_loop.sleep,
        Some(Primitive::IoWait) => of_loop.io,
        Some(Primitive::Wait) => of_loop.wait,
        _ => of_loop.ready,
    }
}

// A new frame of an owner that may be missing. `NoMemory` is want of memory.
fn make_frame_if(
    alloc: Global,
    out: &mut Out,
    around: Around<'_>,
    pointer: Name,
    leader: Option<usize>,
) -> Result<(), NoMemory>
    ensures { OnOk result ((source : Table) (from to : E.Names) (p : S.Program) (r : Routine) → Stands source from to p r around.entry → Leads around.entry leader
        → written to out.new ≡ puts (written to out.old) (L.frame_lines_if r (to pointer) leader)) }
{
    match leader {
        Some(leader) => {
            make_frame(alloc, out, around, pointer, leader)?;
            Ok(())
        }
        None => Ok(()),
    }
}

// A wait of the driver, with the frame of the arrival. `NoMemory` is want of memory.
fn wait(
    alloc: Global,
    out: &mut Out,
    around: Around<'_>,
    scope: Option<usize>,
    arrival: Option<usize>,
    name: Name,
    arguments: &[Expr],
) -> Result<(), NoMemory>
    ensures { OnOk result ((source : Table) (from to : E.Names) (p : S.Program) (r : Routine) → Stands source from to p r around.entry → Leads around.entry arrival
        → exprs_of from arguments.now ≡ exprs_of to arguments.now
        → written to out.new ≡ puts (written to out.old) (L.wait_lines r (reads from r around.entry scope) arrival (Q.primitive_named (from name)) (exprs_of from arguments.now))) }
{
    let book = around.book;
    let place = around.place;
    make_frame_if(alloc, out, around, book.own.given, arrival)?;
    let mut made = images(alloc, arguments, readings(around, scope))?;
    made.push(named(place, book.own.drive))?;
    made.push(named(place, book.own.given))?;
    let word = runtime_word(&book.of_loop, primitive_at(around.texts, name));
    out.call(alloc, place, word, made)?;
    hand_nothing(alloc, out, around)?;
    Ok(())
}

/// A section. `NoMemory` is want of memory.
pub(crate) fn section(
    alloc: Global,
    out: &mut Out,
    around: Around<'_>,
    scope: Option<usize>,
    arrival: Option<usize>,
    function: Word,
    arguments: &[Expr],
) -> Result<(), NoMemory>
    ensures { OnOk result ((source : Table) (from to : E.Names) (p : S.Program) (r : Routine) → Stands source from to p r around.entry → Leads around.entry arrival
        → from function.name ≡ to function.name → exprs_of from arguments.now ≡ exprs_of to arguments.now
        → written to out.new ≡ puts (written to out.old) (L.section_lines r (reads from r around.entry scope) arrival (from function.name) (exprs_of from arguments.now))) }
{
    let book = around.book;
    let place = around.place;
    make_frame_if(alloc, out, around, book.own.given, arrival)?;
    let mut made = images(alloc, arguments, readings(around, scope))?;
    let mut all = Vec::new(alloc);
    all.push(named(place, book.own.drive))?;
    all.push(named(place, book.own.given))?;
    all.push(Expr::Name(function))?;
    all.append(&mut made)?;
    out.call(alloc, place, book.of_loop.detach, all)?;
    hand_nothing(alloc, out, around)?;
    Ok(())
}

// An argument is evaluated into the field of its parameter, where there is one. `NoMemory` is want of memory.
fn give_argument(
    alloc: Global,
    out: &mut Out,
    around: Around<'_>,
    scope: Option<usize>,
    callee: &Called<'_>,
    number: usize,
    argument: &Expr,
) -> Result<(), NoMemory>
    ensures { OnOk result ((source : Table) (from to : E.Names) (p : S.Program) (r : Routine) → Stands source from to p r around.entry → AreCalled to callee.now → expr_of from argument.now ≡ expr_of to argument.now
        → written to out.new ≡ puts (written to out.old)
        (gives (to callee.now.start) number (drop number (map (plain_seen to) (variables_in callee.now.lifted.now))) (reads from r around.entry scope) (S.AndExpr (expr_of from argument.now) S.NoExpr))) }
{
    if number >= callee.variables().len() {
        return Ok(());
    }
    let place = around.place;
    let frame = frame_through(alloc, place, around.book.own.given, callee.start)?;
    let target = field(alloc, place, frame, callee.local(number))?;
    let made = image(alloc, argument, readings(around, scope))?;
    out.assign(alloc, place, target, made)?;
    Ok(())
}

// The first frame of a call. `NoMemory` is want of memory.
fn call(
    alloc: Global,
    out: &mut Out,
    around: Around<'_>,
    scope: Option<usize>,
    callee: &Called<'_>,
    arguments: &[Expr],
) -> Result<(), NoMemory>
    ensures { OnOk result ((source : Table) (from to : E.Names) (p : S.Program) (r : Routine) → Stands source from to p r around.entry → AreCalled to callee.now → IsAlike from to callee.now.lifted.now
        → exprs_of from arguments.now ≡ exprs_of to arguments.now
        → written to out.new ≡ puts (written to out.old) (L.call_lines (function_of from (function_in callee.now.lifted.now)) (reads from r around.entry scope) (exprs_of from arguments.now))) }
{
    let book = around.book;
    let place = around.place;
    let tag = callee.start;
    ask_block(alloc, out, place, book, book.own.given, tag)?;
    let below = named(place, book.own.under);
    begin_frame(alloc, out, place, book, book.own.given, tag, below)?;
    for number in 0..arguments.len() {
        give_argument(
            alloc,
            out,
            around,
            scope,
            callee,
            number,
            &arguments[number],
        )?;
    }
    Ok(())
}

/// A call of a name that waits: of a cps function, or else of a primitive. `NoMemory` is want of memory.
pub(crate) fn call_waiting(
    alloc: Global,
    out: &mut Out,
    around: Around<'_>,
    scope: Option<usize>,
    arrival: Option<usize>,
    name: Name,
    arguments: &[Expr],
) -> Result<(), NoMemory>
    ensures { OnOk result ((source : Table) (from to : E.Names) (p : S.Program) (r : Routine) → Stands source from to p r around.entry → Leads around.entry arrival
        → MeansFound from p around.entry.book.now.functions.items (from name) → exprs_of from arguments.now ≡ exprs_of to arguments.now
        → written to out.new ≡ puts (written to out.old) (L.waits_lines r (reads from r around.entry scope) arrival (from name) (function_named p (from name)) (exprs_of from arguments.now))) }
{
    let own = &around.book.own;
    match around.book.find(name) {
        Some(callee) => {
            make_frame_if(alloc, out, around, own.under, arrival)?;
            call(alloc, out, around, scope, callee, arguments)?;
            hand_over(alloc, out, around, own.given)?;
            Ok(())
        }
        None => {
            wait(alloc, out, around, scope, arrival, name, arguments)?;
            Ok(())
        }
    }
}
