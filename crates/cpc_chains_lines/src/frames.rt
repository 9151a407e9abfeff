//! Frames that are made.
ghost use Rattle.std.specs.Prelude.{◌≡◌, ◌<◌, ◌∷◌, [], None, length, OnOk};
ghost use Rattle.cpc_tree.specs.Erase as E;
ghost use Rattle.cpc_tree.specs.Erase.{Table, expr_of};
ghost use Rattle.cpc_tree.specs.Syntax as S;
ghost use Rattle.cpc_forms.specs.Flow.{At};
ghost use Rattle.cpc_chains_store_laws.specs.Frames as F;
ghost use Rattle.cpc_chains_store_laws.specs.Driver.{code_field, next_field};
ghost use Rattle.cpc_convert_routines.specs.Routines.{Routine, local_of};
ghost use Rattle.cpc_chains_event.specs.Lines.{save_of, frame_lines};
ghost use Rattle.cpc_convert_names.specs.Called.{variables_in, nodes_in};
ghost use Rattle.cpc_convert_names.specs.Book.{IsBook};
ghost use Rattle.cpc_chains_lines.specs.Written.{written, puts};
ghost use Rattle.cpc_chains_lines.specs.Around.{Stands, IsNode, IsVariable};

use crate::around::{Around, closure, local, piece};
use crate::out::Out;
use crate::trees::{field, frame_through, named, size_of};
use cpc_base::{Name, NoMemory, Place};
use cpc_convert_names::Book;
use cpc_tree::program::{Expr, Operand};
use std::alloc::Global;

/// A block for a frame of this tag is asked for, by this pointer. `NoMemory` is want of memory.
pub fn ask_block(
    alloc: Global,
    out: &mut Out,
    place: Place,
    book: &Book<'_>,
    pointer: Name,
    tag: Name,
) -> Result<(), NoMemory>
    ensures { OnOk result ((source : Table) (to : E.Names) → IsBook source to book.now → written to out.new ≡ puts (written to out.old) (F.asks_block (to pointer) (to tag) ∷ [])) }
{
    let size = size_of(place, tag);
    let target = Some(Operand::new(named(place, pointer)));
    out.call_one(alloc, place, target, book.of_loop.frame, size)?;
    Ok(())
}

/// The piece that takes up a new frame, and the frame below. `NoMemory` is want of memory.
pub fn begin_frame(
    alloc: Global,
    out: &mut Out,
    place: Place,
    book: &Book<'_>,
    pointer: Name,
    piece: Name,
    below: Expr,
) -> Result<(), NoMemory>
    ensures { OnOk result ((source : Table) (to : E.Names) → IsBook source to book.now
        → written to out.new ≡ puts (written to out.old) (F.fills_frame (S.ENamed (to pointer)) (S.ENamed (to pointer)) code_field next_field (to piece) (expr_of to below) [])) }
{
    let code = field(alloc, place, named(place, pointer), book.own.code)?;
    out.assign(alloc, place, code, named(place, piece))?;
    let next = field(alloc, place, named(place, pointer), book.own.next)?;
    out.assign(alloc, place, next, below)?;
    Ok(())
}

// A variable is saved in its field. `NoMemory` is want of memory.
fn save(
    alloc: Global,
    out: &mut Out,
    around: Around<'_>,
    pointer: Name,
    tag: Name,
    number: usize,
) -> Result<(), NoMemory>
    ensures { OnOk result ((source : Table) (from to : E.Names) (p : S.Program) (r : Routine) → Stands source from to p r around.entry → IsVariable around.entry number
        → written to out.new ≡ puts (written to out.old) (F.saves_one (F.frame_through (to pointer) (to tag)) (save_of (local_of r number)) ∷ [])) }
{
    let name = local(around, number);
    let frame = frame_through(alloc, around.place, pointer, tag)?;
    let target = field(alloc, around.place, frame, name)?;
    let value = named(around.place, name);
    out.assign(alloc, around.place, target, value)?;
    Ok(())
}

/// A new frame of a leader, over the frame below. `NoMemory` is want of memory.
pub fn make_frame(
    alloc: Global,
    out: &mut Out,
    around: Around<'_>,
    pointer: Name,
    leader: usize,
) -> Result<(), NoMemory>
    ensures { OnOk result ((source : Table) (from to : E.Names) (p : S.Program) (r : Routine) → Stands source from to p r around.entry → IsNode around.entry leader
        → written to out.new ≡ puts (written to out.old) (frame_lines r (to pointer) (At leader))) }
{
    let book = around.book;
    let tag = piece(around, leader);
    ask_block(alloc, out, around.place, book, pointer, tag)?;
    let below = named(around.place, book.own.next);
    begin_frame(alloc, out, around.place, book, pointer, tag, below)?;
    let kept = closure(around, leader);
    for number in kept {
        save(alloc, out, around, pointer, tag, *number)?;
    }
    Ok(())
}
