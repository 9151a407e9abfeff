//! The blocks of the four classes.
ghost use Rattle.std.specs.Prelude.{◌≡◌, ◌+◌, ◌<◌, ◌^◌, IfOk, OnOk, OnErr, None, slice_set};
ghost use Rattle.cpc_store.specs.Store as S;
ghost use Rattle.cpc_store.specs.Seen.{seen, seen_result, result_with, IsLawful};

use crate::blocks::Blocks;
use crate::values::{Class, Scalar, Value};
use cpc_base::NoMemory;
use cpc_num::Fault;
use std::alloc::Global;
use std::marker::Model;

/// The blocks of each class.
pub(crate) struct Classes {
    statics: Blocks,
    autos: Blocks,
    heap: Blocks,
    frames: Blocks,
}

impl Drop for Classes {
    fn drop(self) {
        let Classes {
            statics,
            autos,
            heap,
            frames,
        } = self;
        drop(statics);
        drop(autos);
        drop(heap);
        drop(frames);
    }
}

impl Model for Classes {
    ghost use Rattle.cpc_base.specs.declared.names.Name.{Name};
    ghost use Rattle.cpc_store.specs.Store.{StoreOf};

    ghost Value = { StoreOf Name };

    ghost view = { λ c. record { static = c.statics; auto = c.autos; heap = c.heap; frames = c.frames } };
}

impl Classes {
    /// A store without blocks.
    pub(crate) fn new(alloc: Global) -> Self
        ensures { result ≡ S.empty_store }
    {
        Classes {
            statics: Blocks::new(alloc),
            autos: Blocks::new(alloc),
            heap: Blocks::new(alloc),
            frames: Blocks::new(alloc),
        }
    }

    fn blocks(&self, class: Class) -> &Blocks
        ensures { result.now ≡ S.blocks class self.now }
    {
        match class {
            Class::Static => &self.statics,
            Class::Auto => &self.autos,
            Class::Heap => &self.heap,
            Class::Frame => &self.frames,
        }
    }

    /// How many blocks of a class were made.
    pub(crate) fn made(&self, class: Class) -> u64
        ensures { result ≡ S.next_block class self.now }
    {
        self.blocks(class).made()
    }

    /// How many cells a live block has.
    pub(crate) fn size(&self, class: Class, number: u64) -> Option<u64>
        ensures { result ≡ S.size class number self.now }
    {
        self.blocks(class).size(number)
    }

    /// The value of a cell of a live block, where it fits what is wanted.
    pub(crate) fn load(
        &self,
        class: Class,
        number: u64,
        offset: u64,
        wanted: Scalar,
    ) -> Result<Value, Fault>
        ensures value { seen_result result ≡ S.load wanted class number offset self.now }
        ensures lawful { IfOk result (λ v. IsLawful (seen v)) }
    {
        self.blocks(class).load(number, offset, wanted)
    }

    /// Makes a block of unset cells, with the next number of its class.
    pub(crate) fn make(
        &mut self,
        alloc: Global,
        class: Class,
        cells: usize,
    ) -> Result<u64, NoMemory>
        requires { S.next_block class self.old + 1 < 2 ^ 63 }
        ensures number { IfOk result (λ n. n ≡ S.next_block class self.old) }
        ensures ok { OnOk result (self.new ≡ S.alloc class (S.unset_cells cells) self.old) }
        ensures err { OnErr result (self.new ≡ self.old) }
    {
        match class {
            Class::Static => self.statics.make(alloc, cells),
            Class::Auto => self.autos.make(alloc, cells),
            Class::Heap => self.heap.make(alloc, cells),
            Class::Frame => self.frames.make(alloc, cells),
        }
    }

    /// Writes a cell of a live block.
    pub(crate) fn save(
        &mut self,
        class: Class,
        number: u64,
        offset: u64,
        value: Value,
    ) -> Result<(), Fault>
        requires { IsLawful (seen value) }
        ensures value { result_with self.new result ≡ S.save class number offset (seen value) self.old }
        ensures err { OnErr result (self.new ≡ self.old) }
    {
        match class {
            Class::Static => self.statics.save(number, offset, value),
            Class::Auto => self.autos.save(number, offset, value),
            Class::Heap => self.heap.save(number, offset, value),
            Class::Frame => self.frames.save(number, offset, value),
        }
    }

    /// Frees a live block, and says how many cells it had.
    pub(crate) fn remove(&mut self, class: Class, number: u64) -> Option<u64>
        ensures size { result ≡ S.size class number self.old }
        ensures freed { self.new ≡ S.with_blocks class (slice_set (S.blocks class self.old) number None) self.old }
    {
        match class {
            Class::Static => self.statics.remove(number),
            Class::Auto => self.autos.remove(number),
            Class::Heap => self.heap.remove(number),
            Class::Frame => self.frames.remove(number),
        }
    }
}
