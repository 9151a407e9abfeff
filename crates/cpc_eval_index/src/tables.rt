//! What is told of the items of a list by their places.
ghost use Rattle.std.specs.Prelude.{◌≡◌, ◌+◌, ◌<◌, IfOk, OnOk, length, take, get_or};
ghost use Rattle.cpc_eval_index.specs.Ends.{only_struct, place_if, end_by};
ghost use Rattle.cpc_eval_index.specs.Tabled.{AreTables};
ghost use Rattle.cpc_shapes.specs.Indexed.{last_below};
ghost use Rattle.cpc_types_structs.specs.Indexed.{IsIndex};
ghost use Rattle.cpc_types_structs.specs.Declares.{Declares, AreAllDeclared};
ghost use Rattle.cpc_types_structs.specs.Structs.{AreStructs};

use crate::ends::only_struct;
use crate::items::globals_in;
use cpc_base::NoMemory;
use cpc_tree::program::Item;
use cpc_types_structs::{Declared, Structs};
use std::alloc::Global;

/// For each item how many globals come before it, and a place at or before it whose struct has the same cells as the struct
/// that it declares.
///
/// The last skips structs whose only field is a struct, so that going from a struct to its cells takes no longer than there
/// are cells, however long a chain of such structs is.
pub(crate) struct Tables {
    pub globals: Vec<u64>,
    pub ends: Vec<usize>,
    pub count: u64,
}

impl Drop for Tables {
    fn drop(self) {
        let Tables {
            globals,
            ends,
            count: _,
        } = self;
        drop(globals);
        drop(ends);
    }
}

impl Tables {
    /// What is told of the items of a list, which declare this; all of them are in scope afterwards. `NoMemory` is want of memory.
    pub(crate) fn of(
        alloc: Global,
        list: &[Item],
        declared: &mut Declared,
    ) -> Result<Tables, NoMemory>
        requires { Declares list.now declared.old }
        ensures tables { IfOk result (λ tables. AreTables list.now tables) }
        ensures declared { OnOk result (AreAllDeclared list.now declared.new) }
    {
        let mut tables = Tables {
            globals: Vec::new(alloc),
            ends: Vec::new(alloc),
            count: 0,
        };
        for i in 0..list.len() {
            declared.enter(i);
            tables.append(list, i, &declared.structs)?;
        }
        declared.enter(list.len());
        Ok(tables)
    }

    // One more item of a list, where all those before it are there, and their structs in scope.
    fn append(&mut self, list: &[Item], place: usize, structs: &Structs) -> Result<(), NoMemory>
        requires within { place < length list.now }
        requires tables { AreTables (take place list.now) self.old }
        requires structs { AreStructs list.now structs.now }
        requires before { structs.now.tags.count ≡ place }
        ensures { OnOk result (AreTables (take (place + 1) list.now) self.new) }
    {
        let item = &list[place];
        let end = self.end_of(item, place, structs);
        self.globals.push(self.count)?;
        self.ends.push(end)?;
        self.count += globals_in(item);
        Ok(())
    }

    // A place at or before that of an item whose struct has the cells of the struct that the item declares, where all items
    // before it are there, and their structs in scope.
    fn end_of(&self, item: &Item, place: usize, structs: &Structs) -> usize
        requires { IsIndex structs.now.tags }
        ensures { result ≡ end_by self.now.ends.items place (place_if (last_below structs.now.tags.count structs.now.tags.names.items) (only_struct item.now)) }
    {
        match only_struct(item) {
            Some(tag) => match structs.tagged(tag) {
                Some(inner) => self.end(inner),
                None => place,
            },
            None => place,
        }
    }

    /// The place of a struct that has the same cells as the one at a place.
    pub(crate) fn end(&self, place: usize) -> usize
        ensures { result ≡ get_or self.now.ends.items place place }
    {
        match self.ends.get(place) {
            Some(end) => *end,
            None => place,
        }
    }

    /// How many globals come before the item of a number; 0 where there is no such item.
    pub(crate) fn globals_before(&self, place: usize) -> u64
        ensures { result ≡ get_or self.now.globals.items place 0 }
    {
        match self.globals.get(place) {
            Some(count) => *count,
            None => 0,
        }
    }
}
