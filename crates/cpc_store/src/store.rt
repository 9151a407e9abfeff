//! The store: blocks of cells in four classes, and how many cells are live.
ghost use Rattle.std.specs.Prelude.{◌≡◌, ◌+◌, ◌<◌, ◌^◌, IfOk, OnOk, OnErr};
ghost use Rattle.cpc_store.specs.Store as S;
ghost use Rattle.cpc_store.specs.Seen.{seen, seen_result, result_with, IsLawful};

use crate::classes::Classes;
use crate::values::{Block, Class, Scalar, Value};
use cpc_base::NoMemory;
use cpc_num::Fault;
use std::alloc::Global;
use std::marker::Model;

/// Blocks of cells, by class and number. Each cell holds a lawful value.
///
/// A freed block takes no memory, and its number is not used again. Only `alloc` takes memory.
pub struct Store {
    classes: Classes,
    live: u64,
}

impl Drop for Store {
    fn drop(self) {
        let Store { classes, live: _ } = self;
        drop(classes);
    }
}

impl Model for Store {
    ghost use Rattle.std.specs.Prelude.{◌≡◌, ◌<◌, ◌^◌};
    ghost use Rattle.cpc_base.specs.declared.names.Name.{Name};
    ghost use Rattle.cpc_store.specs.Store.{StoreOf, store_cells};

    ghost Value = { StoreOf Name };

    ghost view = { λ s. s.classes };

    ghost invariant = { λ s. (s.live ≡ store_cells s.classes) × (s.live < 2 ^ 63) };
}

impl Store {
    /// A store in which no block was made.
    pub fn new(alloc: Global) -> Self
        ensures { result ≡ S.empty_store }
    {
        Store {
            classes: Classes::new(alloc),
            live: 0,
        }
    }

    /// Makes the next block of a class, its cells unset.
    ///
    /// An error leaves the store as it was.
    pub fn alloc(&mut self, alloc: Global, class: Class, cells: u64) -> Result<Block, NoMemory>
        requires live { S.store_cells self.old + cells < 2 ^ 63 }
        requires made { S.next_block class self.old + 1 < 2 ^ 63 }
        ensures block { IfOk result (λ b. b ≡ record { class = class; number = S.next_block class self.old }) }
        ensures ok { OnOk result (self.new ≡ S.alloc class (S.unset_cells cells) self.old) }
        ensures err { OnErr result (self.new ≡ self.old) }
    {
        let number = self.classes.make(alloc, class, cells as usize)?;
        self.live += cells;
        Ok(Block { class, number })
    }

    /// Drops a block of the class, to whose first cell a pointer points. `Null` drops nothing.
    ///
    /// - `Unset`: the value is unset.
    /// - `BadFree`: it is anything else: no pointer, a pointer into the middle of a block, to a
    ///   block of another class, or to one that was freed before.
    pub fn free(&mut self, class: Class, what: Value) -> Result<(), Fault>
        requires { IsLawful (seen what) }
        ensures value { result_with self.new result ≡ S.free class (seen what) self.old }
        ensures err { OnErr result (self.new ≡ self.old) }
    {
        match what {
            Value::Null => Ok(()),
            Value::Unset => Err(Fault::Unset),
            Value::At(block, 0) if block.class == class => self.free_block(block),
            _ => Err(Fault::BadFree),
        }
    }

    fn free_block(&mut self, block: Block) -> Result<(), Fault>
        ensures value { result_with self.new result ≡ S.free block.class (S.At block.class block.number 0) self.old }
        ensures err { OnErr result (self.new ≡ self.old) }
    {
        match self.classes.remove(block.class, block.number) {
            Some(cells) => {
                self.live -= cells;
                Ok(())
            }
            None => Err(Fault::BadFree),
        }
    }

    /// The value of a cell. `Unset` fits each scalar, and `Null` is a pointer and a code.
    ///
    /// - `Freed`: the block is not live.
    /// - `Bounds`: the offset is not below its size.
    /// - `Kind`: the cell holds what the scalar does not.
    pub fn load(&self, block: Block, offset: u64, wanted: Scalar) -> Result<Value, Fault>
        ensures value { seen_result result ≡ S.load wanted block.class block.number offset self.now }
        ensures lawful { IfOk result (λ v. IsLawful (seen v)) }
    {
        self.classes.load(block.class, block.number, offset, wanted)
    }

    /// Writes a cell.
    ///
    /// - `Freed`: the block is not live.
    /// - `Bounds`: the offset is not below its size.
    pub fn save(&mut self, block: Block, offset: u64, value: Value) -> Result<(), Fault>
        requires { IsLawful (seen value) }
        ensures value { result_with self.new result ≡ S.save block.class block.number offset (seen value) self.old }
        ensures err { OnErr result (self.new ≡ self.old) }
    {
        self.classes.save(block.class, block.number, offset, value)
    }

    /// How many cells a block has; None where it is not live.
    pub fn size(&self, block: Block) -> Option<u64>
        ensures { result ≡ S.size block.class block.number self.now }
    {
        self.classes.size(block.class, block.number)
    }

    /// How many blocks of a class were made.
    pub fn made(&self, class: Class) -> u64
        ensures { result ≡ S.next_block class self.now }
    {
        self.classes.made(class)
    }

    /// The number of cells of live blocks.
    pub fn live_cells(&self) -> u64
        ensures count { result ≡ S.store_cells self.now }
        ensures small { result < 2 ^ 63 }
    {
        self.live
    }
}
