//! Items that are listed one after the other.
ghost use Rattle.std.specs.Prelude.{◌≡◌, ◌++◌, ◌∷◌, [], map, OnOk};
ghost use Rattle.cpc_tree.specs.Erase as E;
ghost use Rattle.cpc_tree.specs.Erase.{item_of, field_of, parameter_of, type_of, stmt_of};
ghost use Rattle.cpc_tree.specs.Syntax as S;
ghost use Rattle.cpc_tree.specs.declared.program.Mode.TheVariants as M;
ghost use Rattle.cpc_chains_items.specs.Listed.{listed};

use cpc_base::{Name, Names, NoMemory, Place};
use cpc_tree::program::{CType, Field, Function, Item, Mode, Parameter, Program, Statement, Word};
use std::alloc::Global;
use std::mem;

/// Items so far.
pub struct Items {
    pub(crate) items: Vec<Item>,
}

// What is listed is let go of here: a crate that lets go of it then calls this, and does not prove it again.
impl Drop for Items {
    fn drop(self) {
        let Items { items } = self;
        drop(items);
    }
}

impl Items {
    /// None yet.
    pub fn new(alloc: Global) -> Items
        ensures { (to : E.Names) → listed to result ≡ [] }
    {
        Items {
            items: Vec::new(alloc),
        }
    }

    /// One more. `NoMemory` is want of memory.
    pub(crate) fn add(&mut self, item: Item) -> Result<(), NoMemory>
        ensures { OnOk result ((to : E.Names) → listed to self.new ≡ listed to self.old ++ item_of to item ∷ []) }
    {
        self.items.push(item)?;
        Ok(())
    }

    /// A struct. `NoMemory` is want of memory.
    pub(crate) fn add_struct(
        &mut self,
        place: Place,
        name: Name,
        fields: Vec<Field>,
    ) -> Result<(), NoMemory>
        ensures { OnOk result ((to : E.Names) → listed to self.new ≡ listed to self.old ++ S.StructItem (to name) (map (field_of to) fields.items) ∷ []) }
    {
        let tag = Word { place, name };
        self.add(Item::Struct { tag, fields })
    }

    /// A prototype. `NoMemory` is want of memory.
    pub(crate) fn add_prototype(
        &mut self,
        place: Place,
        name: Name,
        of: CType,
        parameters: Vec<Parameter>,
    ) -> Result<(), NoMemory>
        ensures { OnOk result ((to : E.Names) → listed to self.new ≡ listed to self.old ++ S.PrototypeItem M.Native (to name) (type_of to of) (map (parameter_of to) parameters.items) ∷ []) }
    {
        let word = Word { place, name };
        self.add(Item::Prototype {
            place,
            mode: Mode::Native,
            word,
            result: of,
            parameters,
        })
    }

    /// A function. `NoMemory` is want of memory.
    pub(crate) fn add_function(
        &mut self,
        place: Place,
        name: Name,
        of: CType,
        parameters: Vec<Parameter>,
        body: Statement,
    ) -> Result<(), NoMemory>
        ensures { OnOk result ((to : E.Names) → listed to self.new ≡ listed to self.old ++ S.FunctionItem (record { mode = M.Native; called = to name; result = type_of to of; parameters = map (parameter_of to) parameters.items; body = stmt_of to body }) ∷ []) }
    {
        let word = Word { place, name };
        self.add(Item::Function(Function {
            place,
            mode: Mode::Native,
            word,
            result: of,
            parameters,
            body,
        }))
    }

    /// The program of all of them.
    pub fn into_program(self, alloc: Global, names: Names, end: Place) -> Program
        ensures names { result.names ≡ names }
        ensures items { result.items.items ≡ self.items.items }
        ensures end { result.end ≡ end }
    {
        let mut all = self;
        let mut items = Vec::new(alloc);
        mem::swap(&mut all.items, &mut items);
        Program { names, items, end }
    }
}
