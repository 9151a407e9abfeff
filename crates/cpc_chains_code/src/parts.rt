//! The parts of an event program that are made of its cps functions, each part in the order of the functions.
ghost use Rattle.std.specs.Prelude.{◌≡◌, ◌++◌, map, OnOk};
ghost use Rattle.cpc_tree.specs.Erase as E;
ghost use Rattle.cpc_tree.specs.Erase.{Table};
ghost use Rattle.cpc_tree.specs.Syntax as S;
ghost use Rattle.cpc_convert_common.specs.Converted.{prototype, function_item};
ghost use Rattle.cpc_convert_routines.specs.Routines.{Routine};
ghost use Rattle.cpc_chains_event.specs.Pieces.{made_of};
ghost use Rattle.cpc_chains_event.specs.Converted.{all_structs, all_boxes, all_made};
ghost use Rattle.cpc_convert_needs_laws.specs.Whole.{IsComplete};
ghost use Rattle.cpc_chains_pieces.specs.Around.{Stands};
ghost use Rattle.cpc_chains_items.specs.Listed.{listed};
ghost use Rattle.cpc_chains_code.specs.Given.{AreGiven, routines_by};

use crate::pieces::pieces;
use cpc_base::{Names, NoMemory};
use cpc_chains_items::Items;
use cpc_chains_pieces::Around;
use cpc_convert_names::{Book, Called};
use cpc_convert_rows::Stepped;
use std::alloc::Global;

/// What is around the lines of a function.
pub(crate) fn around<'a>(texts: &'a Names, book: &'a Book<'a>, called: &'a Called<'a>) -> Around<'a>
    ensures texts { result.texts.now ≡ texts.now }
    ensures book { result.book.now ≡ book.now }
    ensures called { result.called.now ≡ called.now }
{
    let place = called.function().place;
    Around {
        place,
        texts,
        book,
        called,
    }
}

/// The structs of the frames of all cps functions. `NoMemory` is want of memory.
pub(crate) fn add_structs<'a>(
    alloc: Global,
    items: &mut Items,
    texts: &'a Names,
    book: &'a Book<'a>,
) -> Result<(), NoMemory>
    ensures { OnOk result ((from to : E.Names) (p : S.Program) → AreGiven texts.now from to p book.now
        → listed to items.new ≡ listed to items.old ++ all_structs p (routines_by from p book.now)) }
{
    for called in &book.functions {
        items.frame_structs(alloc, around(texts, book, called))?;
    }
    Ok(())
}

/// The prototypes of all that is made of the cps functions. `NoMemory` is want of memory.
pub(crate) fn add_prototypes<'a>(
    alloc: Global,
    items: &mut Items,
    texts: &'a Names,
    book: &'a Book<'a>,
) -> Result<(), NoMemory>
    ensures { OnOk result ((from to : E.Names) (p : S.Program) → AreGiven texts.now from to p book.now
        → listed to items.new ≡ listed to items.old ++ map prototype (all_made p (routines_by from p book.now))) }
{
    for called in &book.functions {
        items.prototypes(alloc, around(texts, book, called))?;
    }
    Ok(())
}

/// The structs of the boxes of all cps functions. `NoMemory` is want of memory.
pub(crate) fn add_boxes<'a>(
    alloc: Global,
    items: &mut Items,
    texts: &'a Names,
    book: &'a Book<'a>,
) -> Result<(), NoMemory>
    ensures { OnOk result ((from to : E.Names) (p : S.Program) → AreGiven texts.now from to p book.now
        → listed to items.new ≡ listed to items.old ++ all_boxes (routines_by from p book.now)) }
{
    for called in &book.functions {
        items.box_structs(alloc, around(texts, book, called))?;
    }
    Ok(())
}

// The functions that are made of a cps function. `NoMemory` is want of memory.
fn add_made(alloc: Global, items: &mut Items, around: Around<'_>) -> Result<(), NoMemory>
    ensures { OnOk result ((source : Table) (from to : E.Names) (p : S.Program) (r : Routine) → AreGiven source from to p around.entry.book.now → Stands source from to p r around.entry → IsComplete from p around.entry.called.now.lifted.now r
        → listed to items.new ≡ listed to items.old ++ map function_item (made_of p r)) }
{
    let stepped = Stepped::of(alloc, around.called.lifted.split)?;
    items.spawner(alloc, around)?;
    pieces(alloc, items, around, &stepped)?;
    Ok(())
}

/// The functions that are made of all cps functions. `NoMemory` is want of memory.
pub(crate) fn add_functions<'a>(
    alloc: Global,
    items: &mut Items,
    texts: &'a Names,
    book: &'a Book<'a>,
) -> Result<(), NoMemory>
    ensures { OnOk result ((from to : E.Names) (p : S.Program) → AreGiven texts.now from to p book.now
        → listed to items.new ≡ listed to items.old ++ map function_item (all_made p (routines_by from p book.now))) }
{
    for called in &book.functions {
        add_made(alloc, items, around(texts, book, called))?;
    }
    Ok(())
}
