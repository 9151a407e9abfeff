//! The structs of frames and of boxes.
ghost use Rattle.std.specs.Prelude.{◌≡◌, ◌<◌, ◌++◌, ◌∷◌, [], map, slice_get, Some, length, IfOk, OnOk};
ghost use Rattle.cpc_tree.specs.Erase as E;
ghost use Rattle.cpc_tree.specs.Erase.{Table, field_of};
ghost use Rattle.cpc_tree.specs.Syntax as S;
ghost use Rattle.cpc_tree.specs.Typing.{is_scalar};
ghost use Rattle.cpc_forms.specs.Flow.{At};
ghost use Rattle.cpc_forms_code.specs.declared.boxed.Variable as V;
ghost use Rattle.cpc_convert_routines.specs.Routines.{Routine, locals_of, closure_of};
ghost use Rattle.cpc_chains_event.specs.Frames as F;
ghost use Rattle.cpc_convert_names.specs.Book.{IsBook};
ghost use Rattle.cpc_convert_names.specs.Called.{variables_in, nodes_in};
ghost use Rattle.cpc_chains_lines.specs.Around.{Stands, IsVariable, IsNode};
ghost use Rattle.cpc_forms_code.specs.Lifts.{unless};
ghost use Rattle.cpc_chains_items.specs.Listed.{listed};

use crate::items::Items;
use crate::parts::{field, head_fields};
use crate::passing::passed;
use cpc_base::{NoMemory, Place};
use cpc_chains_lines::{Around, arriving_at, closure, local, local_type, piece, tag};
use cpc_convert_names::Book;
use cpc_forms_code::Variable;
use cpc_num::Kind;
use cpc_shapes::copy_of;
use cpc_tree::program::{CType, Field};
use std::alloc::Global;

// The local of a variable as a field behind others. `NoMemory` is want of memory.
fn keep_one(
    alloc: Global,
    around: Around<'_>,
    fields: &mut Vec<Field>,
    number: usize,
) -> Result<(), NoMemory>
    ensures { OnOk result ((source : Table) (from to : E.Names) (p : S.Program) (r : Routine) → Stands source from to p r around.entry → IsVariable around.entry number
        → map (field_of to) fields.new.items ≡ map (field_of to) fields.old.items ++ locals_of r (number ∷ [])) }
{
    let of = local_type(alloc, around, number)?;
    fields.push(field(around.place, local(around, number), of))?;
    Ok(())
}

// The locals of what a leader keeps, as fields behind others. `NoMemory` is want of memory.
fn keep_all(
    alloc: Global,
    around: Around<'_>,
    fields: &mut Vec<Field>,
    leader: usize,
) -> Result<(), NoMemory>
    ensures { OnOk result ((source : Table) (from to : E.Names) (p : S.Program) (r : Routine) → Stands source from to p r around.entry → IsNode around.entry leader
        → map (field_of to) fields.new.items ≡ map (field_of to) fields.old.items ++ locals_of r (closure_of r (At leader))) }
{
    for number in closure(around, leader) {
        keep_one(alloc, around, fields, *number)?;
    }
    Ok(())
}

impl Items {
    /// The struct of any frame. `NoMemory` is want of memory.
    pub fn any_frame(
        &mut self,
        alloc: Global,
        place: Place,
        book: &Book<'_>,
    ) -> Result<(), NoMemory>
        ensures { OnOk result ((source : Table) (to : E.Names) → IsBook source to book.now → listed to self.new ≡ listed to self.old ++ F.any_frame ∷ []) }
    {
        let fields = head_fields(alloc, place, book, CType::Int(Kind::Int))?;
        self.add_struct(place, book.own.any_frame, fields)
    }

    // The struct of any frame at which the value of a function arrives, where it has one. `NoMemory` is want of memory.
    fn value_struct(&mut self, alloc: Global, around: Around<'_>) -> Result<(), NoMemory>
        ensures { OnOk result ((source : Table) (from to : E.Names) (p : S.Program) (r : Routine) → Stands source from to p r around.entry
            → listed to self.new ≡ listed to self.old ++ F.value_struct_if (is_scalar r.function.result) r.function.called r.function.result) }
    {
        let given = &around.called.function().result;
        if !given.is_scalar() {
            return Ok(());
        }
        let of = copy_of(alloc, given)?;
        let fields = head_fields(alloc, around.place, around.book, of)?;
        self.add_struct(around.place, around.called.value, fields)
    }

    // The struct of the first frame of a call. `NoMemory` is want of memory.
    fn start_struct(&mut self, alloc: Global, around: Around<'_>) -> Result<(), NoMemory>
        ensures { OnOk result ((source : Table) (from to : E.Names) (p : S.Program) (r : Routine) → Stands source from to p r around.entry
            → listed to self.new ≡ listed to self.old ++ F.start_struct r.function ∷ []) }
    {
        let mut fields = head_fields(alloc, around.place, around.book, CType::Int(Kind::Int))?;
        let mut arguments = passed(alloc, around)?;
        fields.append(&mut arguments)?;
        self.add_struct(around.place, around.called.start, fields)
    }

    // The struct of the frames of a leader. `NoMemory` is want of memory.
    fn leader_struct(
        &mut self,
        alloc: Global,
        around: Around<'_>,
        leader: usize,
    ) -> Result<(), NoMemory>
        ensures { OnOk result ((source : Table) (from to : E.Names) (p : S.Program) (r : Routine) → Stands source from to p r around.entry → IsNode around.entry leader
            → listed to self.new ≡ listed to self.old ++ F.leader_struct p r leader ∷ []) }
    {
        let of = arriving_at(alloc, around, leader)?;
        let mut fields = head_fields(alloc, around.place, around.book, of)?;
        keep_all(alloc, around, &mut fields, leader)?;
        self.add_struct(around.place, piece(around, leader), fields)
    }

    /// The structs of the frames of a function. `NoMemory` is want of memory.
    pub fn frame_structs(&mut self, alloc: Global, around: Around<'_>) -> Result<(), NoMemory>
        ensures { OnOk result ((source : Table) (from to : E.Names) (p : S.Program) (r : Routine) → Stands source from to p r around.entry
            → listed to self.new ≡ listed to self.old ++ F.structs_of p r) }
    {
        self.value_struct(alloc, around)?;
        self.start_struct(alloc, around)?;
        for leader in &around.called.lifted.split.leaders {
            self.leader_struct(alloc, around, *leader)?;
        }
        Ok(())
    }

    // The struct of the box of a variable, where it is no register. `NoMemory` is want of memory; it is answered also where such a variable has
    // no name, and only there. No body is read behind parameters without names, so a program that was read has no such variable.
    fn box_struct(
        &mut self,
        alloc: Global,
        around: Around<'_>,
        number: usize,
        variable: &Variable<'_>,
    ) -> Result<(), NoMemory>
        ensures { OnOk result ((source : Table) (from to : E.Names) (p : S.Program) (r : Routine) → Stands source from to p r around.entry
            → slice_get (variables_in around.entry.called.now.lifted.now) number ≡ Some variable.now
            → listed to self.new ≡ listed to self.old ++ map (F.box_of r) (unless variable.now.is_register number [])) }
    {
        if variable.is_register {
            return Ok(());
        }
        match variable.name {
            Some(name) => {
                let of = copy_of(alloc, variable.of)?;
                let mut fields = Vec::new(alloc);
                fields.push(field(around.place, name, of))?;
                self.add_struct(around.place, tag(around, number), fields)
            }
            None => Err(NoMemory),
        }
    }

    /// The structs of the boxes of a function. `NoMemory` is want of memory.
    pub fn box_structs(&mut self, alloc: Global, around: Around<'_>) -> Result<(), NoMemory>
        ensures { OnOk result ((source : Table) (from to : E.Names) (p : S.Program) (r : Routine) → Stands source from to p r around.entry
            → listed to self.new ≡ listed to self.old ++ F.boxes_of r) }
    {
        let variables = around.called.variables();
        for number in 0..variables.len() {
            self.box_struct(alloc, around, number, &variables[number])?;
        }
        Ok(())
    }
}
