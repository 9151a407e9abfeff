//! Spawners.
ghost use Rattle.std.specs.Prelude.{◌≡◌, ◌++◌, ◌∷◌, [], None, map, pos, OnOk};
ghost use Rattle.cpc_num.specs.declared.kinds.Kind.TheVariants as K;
ghost use Rattle.cpc_tree.specs.Erase as E;
ghost use Rattle.cpc_tree.specs.Erase.{Table, stmt_of, field_of};
ghost use Rattle.cpc_tree.specs.Syntax as S;
ghost use Rattle.cpc_chains_store_laws.specs.Driver as D;
ghost use Rattle.cpc_chains_store_laws.specs.Frames as F;
ghost use Rattle.cpc_chains_event.specs.Lines.{save_of};
ghost use Rattle.cpc_convert_routines.specs.Names.{frame_name};
ghost use Rattle.cpc_convert_routines.specs.Routines.{Routine};
ghost use Rattle.cpc_chains_event.specs.Pieces.{spawner_function};
ghost use Rattle.cpc_convert_names.specs.Book.{IsBook};
ghost use Rattle.cpc_chains_lines.specs.Written.{written, puts};
ghost use Rattle.cpc_chains_lines.specs.Around.{Stands};
ghost use Rattle.cpc_chains_items.specs.Listed.{listed};

use crate::items::Items;
use crate::parts::parameters_of;
use crate::passing::passed;
use cpc_base::{NoMemory, Place};
use cpc_chains_lines::{Around, Out, ask_block, begin_frame, field, named, to_struct, zero};
use cpc_convert_names::Book;
use cpc_tree::program::{CType, Field};
use std::alloc::Global;

// The new frame, declared, made and begun. `NoMemory` is want of memory.
fn begin(alloc: Global, out: &mut Out, around: Around<'_>) -> Result<(), NoMemory>
    ensures { OnOk result ((source : Table) (to : E.Names) → IsBook source to around.entry.book.now
        → written to out.new ≡ puts (written to out.old) (S.Declare frame_name (S.TyPointer (S.TyStruct (to around.entry.called.now.start))) None ∷ F.asks_block frame_name (to around.entry.called.now.start)
        ∷ F.fills_frame (S.ENamed frame_name) (S.ENamed frame_name) D.code_field D.next_field (to around.entry.called.now.start) (S.EInteger K.Int (pos 0)) [])) }
{
    let place = around.place;
    let book = around.book;
    let frame = book.own.frame;
    let start = around.called.start;
    out.declare(alloc, place, frame, to_struct(alloc, start)?, None)?;
    ask_block(alloc, out, place, book, frame, start)?;
    begin_frame(alloc, out, place, book, frame, start, zero(place))
}

// An argument is saved in its field. `NoMemory` is want of memory.
fn save(
    alloc: Global,
    out: &mut Out,
    place: Place,
    book: &Book<'_>,
    argument: &Field,
) -> Result<(), NoMemory>
    ensures { OnOk result ((source : Table) (to : E.Names) → IsBook source to book.now
        → written to out.new ≡ puts (written to out.old) (F.saves_one (S.ENamed frame_name) (save_of (field_of to argument.now)) ∷ [])) }
{
    let name = argument.word.name;
    let target = field(alloc, place, named(place, book.own.frame), name)?;
    out.assign(alloc, place, target, named(place, name))
}

// All arguments are. `NoMemory` is want of memory.
fn save_all(
    alloc: Global,
    out: &mut Out,
    place: Place,
    book: &Book<'_>,
    arguments: &[Field],
) -> Result<(), NoMemory>
    ensures { OnOk result ((source : Table) (to : E.Names) → IsBook source to book.now
        → written to out.new ≡ puts (written to out.old) (map (F.saves_one (S.ENamed frame_name)) (map save_of (map (field_of to) arguments.now)))) }
{
    for argument in arguments {
        save(alloc, out, place, book, argument)?;
    }
    Ok(())
}

// `rt_ready(drive__, e__);`. `NoMemory` is want of memory.
fn ready(alloc: Global, out: &mut Out, place: Place, book: &Book<'_>) -> Result<(), NoMemory>
    ensures { OnOk result ((source : Table) (to : E.Names) → IsBook source to book.now → written to out.new ≡ puts (written to out.old) (D.readies frame_name ∷ [])) }
{
    let mut arguments = Vec::new(alloc);
    arguments.push(named(place, book.own.drive))?;
    arguments.push(named(place, book.own.frame))?;
    out.call(alloc, place, book.of_loop.ready, arguments)
}

impl Items {
    /// The spawner of a function. `NoMemory` is want of memory.
    pub fn spawner(&mut self, alloc: Global, around: Around<'_>) -> Result<(), NoMemory>
        ensures { OnOk result ((source : Table) (from to : E.Names) (p : S.Program) (r : Routine) → Stands source from to p r around.entry
            → listed to self.new ≡ listed to self.old ++ S.FunctionItem (spawner_function r.function) ∷ []) }
    {
        let arguments = passed(alloc, around)?;
        let mut out = Out::new(alloc);
        begin(alloc, &mut out, around)?;
        save_all(alloc, &mut out, around.place, around.book, &arguments)?;
        ready(alloc, &mut out, around.place, around.book)?;
        let parameters = parameters_of(alloc, &arguments)?;
        let body = out.into_block(alloc, around.place);
        self.add_function(
            around.place,
            around.called.spawner,
            CType::Void,
            parameters,
            body,
        )
    }
}
