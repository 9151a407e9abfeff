//! The functions that are made.
ghost use Rattle.std.specs.Prelude.{◌≡◌, ◌++◌, ◌∷◌, [], map, OnOk};
ghost use Rattle.cpc_tree.specs.Erase as E;
ghost use Rattle.cpc_tree.specs.Erase.{Table};
ghost use Rattle.cpc_tree.specs.Syntax as S;
ghost use Rattle.cpc_tree.specs.declared.program.Mode.TheVariants as M;
ghost use Rattle.cpc_convert_common.specs.Converted.{prototype};
ghost use Rattle.cpc_meaning.specs.Start.{main_name};
ghost use Rattle.cpc_chains_store_laws.specs.Driver.{any_pointer};
ghost use Rattle.cpc_convert_flat_laws.specs.Flat.{before};
ghost use Rattle.cpc_convert_routines.specs.Names.{pointer_name};
ghost use Rattle.cpc_convert_routines.specs.Routines.{Routine};
ghost use Rattle.cpc_chains_event.specs.Pieces.{made_of, spawner_function, parameter_of, called_so};
ghost use Rattle.cpc_chains_event.specs.Converted.{main_function};
ghost use Rattle.cpc_convert_names.specs.Called.{name_in};
ghost use Rattle.cpc_convert_names.specs.Book.{IsBook};
ghost use Rattle.cpc_chains_lines.specs.Written.{written};
ghost use Rattle.cpc_chains_lines.specs.Around.{Stands};
ghost use Rattle.cpc_chains_items.specs.Listed.{listed};

use crate::items::Items;
use crate::parts::{parameters_of, pointer_parameters};
use crate::passing::passed;
use cpc_base::{Name, NoMemory, Place};
use cpc_chains_lines::{Around, Out, any_pointer, piece, zero};
use cpc_convert_names::Book;
use cpc_num::Kind;
use cpc_tree::program::CType;
use std::alloc::Global;

impl Items {
    // The prototype of a piece. `NoMemory` is want of memory.
    fn piece_prototype(
        &mut self,
        alloc: Global,
        place: Place,
        book: &Book<'_>,
        name: Name,
    ) -> Result<(), NoMemory>
        ensures { OnOk result ((source : Table) (to : E.Names) → IsBook source to book.now
            → listed to self.new ≡ listed to self.old ++ S.PrototypeItem M.Native (to name) any_pointer (parameter_of (called_so pointer_name any_pointer) ∷ []) ∷ []) }
    {
        let parameters = pointer_parameters(alloc, place, book)?;
        self.add_prototype(place, name, any_pointer(alloc)?, parameters)
    }

    // The prototype of a spawner. `NoMemory` is want of memory.
    fn spawner_prototype(&mut self, alloc: Global, around: Around<'_>) -> Result<(), NoMemory>
        ensures { OnOk result ((source : Table) (from to : E.Names) (p : S.Program) (r : Routine) → Stands source from to p r around.entry
            → listed to self.new ≡ listed to self.old ++ prototype (spawner_function r.function) ∷ []) }
    {
        let arguments = passed(alloc, around)?;
        let parameters = parameters_of(alloc, &arguments)?;
        self.add_prototype(around.place, around.called.spawner, CType::Void, parameters)
    }

    /// The prototypes of all that is made of a function. `NoMemory` is want of memory.
    pub fn prototypes(&mut self, alloc: Global, around: Around<'_>) -> Result<(), NoMemory>
        ensures { OnOk result ((source : Table) (from to : E.Names) (p : S.Program) (r : Routine) → Stands source from to p r around.entry
            → listed to self.new ≡ listed to self.old ++ map prototype (made_of p r)) }
    {
        let place = around.place;
        self.spawner_prototype(alloc, around)?;
        self.piece_prototype(alloc, place, around.book, around.called.start)?;
        for leader in &around.called.lifted.split.leaders {
            self.piece_prototype(alloc, place, around.book, piece(around, *leader))?;
        }
        Ok(())
    }

    /// A piece of this name, of the statements that are written. `NoMemory` is want of memory.
    pub fn piece(
        &mut self,
        alloc: Global,
        place: Place,
        book: &Book<'_>,
        name: Name,
        out: Out,
    ) -> Result<(), NoMemory>
        ensures { OnOk result ((source : Table) (to : E.Names) → IsBook source to book.now
            → listed to self.new ≡ listed to self.old ++ S.FunctionItem (record { mode = M.Native; called = to name; result = any_pointer; parameters = parameter_of (called_so pointer_name any_pointer) ∷ []; body = S.Block (before (written to out).done S.NoStmt) }) ∷ []) }
    {
        let parameters = pointer_parameters(alloc, place, book)?;
        let of = any_pointer(alloc)?;
        let body = out.into_block(alloc, place);
        self.add_function(place, name, of, parameters, body)
    }

    /// `main`, where that of the source is this cps function. `NoMemory` is want of memory.
    pub fn main(&mut self, alloc: Global, around: Around<'_>) -> Result<(), NoMemory>
        ensures { OnOk result ((source : Table) (from to : E.Names) (p : S.Program) (r : Routine) → Stands source from to p r around.entry → name_in to around.entry.called.now.lifted.now ≡ main_name
            → listed to self.new ≡ listed to self.old ++ S.FunctionItem main_function ∷ []) }
    {
        let place = around.place;
        let mut out = Out::new(alloc);
        out.call(alloc, place, around.called.spawner, Vec::new(alloc))?;
        out.give(alloc, place, zero(place))?;
        let body = out.into_block(alloc, place);
        let name = around.called.function().word.name;
        self.add_function(place, name, CType::Int(Kind::Int), Vec::new(alloc), body)
    }
}
