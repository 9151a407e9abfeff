//! The event program of a lifted program.
ghost use Rattle.std.specs.Prelude.{◌≡◌, ◌++◌, map, IfOk, OnOk};
ghost use Rattle.cpc_tree.specs.Erase as E;
ghost use Rattle.cpc_tree.specs.Erase.{in_table, item_of, program_of};
ghost use Rattle.cpc_convert_needs_laws.specs.Names.{HasNames};
ghost use Rattle.cpc_chains_event.specs.Converted.{converted, converted_with};
ghost use Rattle.cpc_convert_names.specs.Tables.{AreWithin};
ghost use Rattle.cpc_convert_needs_laws.specs.Laws.{AreOf};
ghost use Rattle.cpc_chains_items.specs.Listed.{listed};
ghost use Rattle.cpc_chains_code.specs.Given.{AreGiven, routines_by};
ghost use Rattle.cpc_chains_code.specs.Made.{made_before, made_behind, with_made};
ghost use Rattle.cpc_forms_code.specs.Programs.{IsSpeakable};

use crate::beginning::add_main;
use crate::parts::{add_boxes, add_functions, add_prototypes, add_structs};
use cpc_base::NoMemory;
use cpc_chains_items::Items;
use cpc_convert_names::{Book, table_of};
use cpc_forms_code::LiftedProgram;
use cpc_tree::program::Program;
use std::alloc::Global;

// What is made before the items that stay: structs of frames, prototypes, and the driver. `NoMemory` is want of memory.
fn write_before<'a>(
    alloc: Global,
    items: &mut Items,
    source: &'a Program,
    book: &'a Book<'a>,
) -> Result<(), NoMemory>
    ensures { OnOk result ((from to : E.Names) → AreGiven source.now.names from to (program_of source.now) book.now
        → listed to items.new ≡ listed to items.old ++ made_before (program_of source.now) (routines_by from (program_of source.now) book.now)) }
{
    let texts = &source.names;
    items.any_frame(alloc, source.end, book)?;
    add_structs(alloc, items, texts, book)?;
    add_prototypes(alloc, items, texts, book)?;
    items.driver(alloc, source.end, book)?;
    Ok(())
}

// What is made behind them: structs of boxes, functions, and `main`. `NoMemory` is want of memory.
fn write_behind<'a>(
    alloc: Global,
    items: &mut Items,
    source: &'a Program,
    book: &'a Book<'a>,
) -> Result<(), NoMemory>
    ensures { OnOk result ((from to : E.Names) → AreGiven source.now.names from to (program_of source.now) book.now
        → listed to items.new ≡ listed to items.old ++ made_behind (program_of source.now) (routines_by from (program_of source.now) book.now)) }
{
    let texts = &source.names;
    add_boxes(alloc, items, texts, book)?;
    add_functions(alloc, items, texts, book)?;
    add_main(alloc, items, texts, book)?;
    Ok(())
}

// The items of the event program of a source that has cps functions. `NoMemory` is want of memory.
fn write_made<'a>(
    alloc: Global,
    items: &mut Items,
    source: &'a Program,
    book: &'a Book<'a>,
) -> Result<(), NoMemory>
    ensures { OnOk result ((from to : E.Names) → AreGiven source.now.names from to (program_of source.now) book.now → map (item_of (in_table source.now.names)) source.now.items.items ≡ map (item_of to) source.now.items.items
        → listed to items.new ≡ listed to items.old ++ with_made (program_of source.now) (routines_by from (program_of source.now) book.now)) }
{
    write_before(alloc, items, source, book)?;
    items.keep(alloc, book, &source.items)?;
    write_behind(alloc, items, source, book)?;
    Ok(())
}

// The items of the event program of a source, whose names are in a book. `NoMemory` is want of memory.
fn write<'a>(
    alloc: Global,
    items: &mut Items,
    source: &'a Program,
    book: &'a Book<'a>,
) -> Result<(), NoMemory>
    ensures { OnOk result ((from to : E.Names) → AreGiven source.now.names from to (program_of source.now) book.now → map (item_of (in_table source.now.names)) source.now.items.items ≡ map (item_of to) source.now.items.items
        → listed to items.new ≡ listed to items.old ++ converted_with (program_of source.now) (routines_by from (program_of source.now) book.now)) }
{
    if book.functions.is_empty() {
        items.keep(alloc, book, &source.items)?;
        return Ok(());
    }
    write_made(alloc, items, source, book)?;
    Ok(())
}

/// The event program of a lifted program: its native and detached functions and its globals, and of each cps function the structs of its
/// frames and boxes, its spawner, and a function for each owner. `NoMemory` is want of memory.
pub fn convert(alloc: Global, lifted: &LiftedProgram<'_>) -> Result<Program, NoMemory>
    ensures is { IfOk result (λ q. IsSpeakable lifted.now.source.now → AreWithin lifted.now.source.now → AreOf lifted.now → HasNames (program_of lifted.now.source.now)
        → program_of q ≡ converted (program_of lifted.now.source.now)) }
    ensures end { IfOk result (λ q. q.end ≡ lifted.now.source.now.end) }
{
    let source = lifted.source;
    let mut names = table_of(alloc, &source.names)?;
    let book = Book::of(alloc, &mut names, lifted)?;
    let mut items = Items::new(alloc);
    write(alloc, &mut items, source, &book)?;
    Ok(items.into_program(alloc, names, source.end))
}
