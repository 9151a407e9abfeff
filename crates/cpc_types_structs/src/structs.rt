//! The structs that items declare, and how many cells types have.
ghost use Rattle.std.specs.Prelude.{◌≡◌, ◌+◌, ◌≤◌, List, ◌++◌, ◌∷◌, [], OnOk, length, map, option_map};
ghost use Rattle.cpc_tree.specs.Erase.{Names, type_of, field_of};
ghost use Rattle.cpc_tree.specs.Syntax.{Program};
ghost use Rattle.cpc_tree.specs.declared.program.Item.{Item};
ghost use Rattle.cpc_shapes.specs.Counted.{fields_count};
ghost use Rattle.cpc_types_structs.specs.Indexed.{IsIndex};
ghost use Rattle.cpc_types_structs.specs.Structs.{AreStructs};
ghost use Rattle.cpc_types_structs.specs.Sized.{capped, capped_size, AreSizes, declared_size, tag_place, tag_size};

use crate::index::Index;
use crate::items::tag_of;
use cpc_base::{Name, NoMemory};
use cpc_tree::program::{CType, Field, Item};
use std::alloc::Global;

/// The structs of the items of a list, of which a number is in scope: which of these declares a tag last, and for each
/// item the cells of the struct that it declares, where that is complete; u64::MAX stands for every greater number.
pub struct Structs {
    tags: Index,
    sizes: Vec<Option<u64>>,
}

impl Drop for Structs {
    fn drop(self) {
        let Structs { tags, sizes } = self;
        drop(tags);
        drop(sizes);
    }
}

// The cells of the struct that an item declares, capped, where these structs are in scope.
fn declared_size(item: &Item, structs: &Structs) -> Option<u64>
    requires { IsIndex structs.now.tags }
    ensures { (names : Names) (p : Program) → AreSizes structs.now names p → result ≡ declared_size names p item.now }
{
    match item {
        Item::Struct { fields, .. } => structs.fields_size(fields),
        _ => None,
    }
}

impl Structs {
    /// The structs of an empty list of items.
    pub fn new(alloc: Global) -> Self
        ensures structs { AreStructs [] result }
        ensures count { result.tags.count ≡ 0 }
    {
        Structs {
            tags: Index::new(alloc),
            sizes: Vec::new(alloc),
        }
    }

    /// One more item comes into scope, in which all those before it are. `NoMemory` is want of memory.
    pub fn append(&mut self, item: &Item) -> Result<(), NoMemory>
        requires index { IsIndex self.old.tags }
        requires all { self.old.tags.count ≡ length self.old.tags.names.items }
        ensures structs { OnOk result ((xs : List Item) → AreStructs xs self.old → AreStructs (xs ++ item.now ∷ []) self.new) }
        ensures count { OnOk result (self.new.tags.count ≡ self.old.tags.count + 1) }
    {
        let size = declared_size(item, self);
        self.tags.push(tag_of(item))?;
        self.sizes.push(size)?;
        Ok(())
    }

    /// The first `count` items are in scope.
    pub fn enter(&mut self, count: usize)
        requires index { IsIndex self.old.tags }
        requires within { count ≤ length self.old.tags.names.items }
        ensures structs { (xs : List Item) → AreStructs xs self.old → AreStructs xs self.new }
        ensures count { self.new.tags.count ≡ count }
    {
        self.tags.enter(count);
    }

    /// The number of the last item in scope that declares a tag.
    pub fn tagged(&self, tag: Name) -> Option<usize>
        requires { IsIndex self.now.tags }
        ensures { result ≡ tag_place self.now tag }
    {
        self.tags.place(tag)
    }

    /// The cells of the struct in scope that has a tag, capped.
    pub fn size(&self, tag: Name) -> Option<u64>
        requires { IsIndex self.now.tags }
        ensures { result ≡ tag_size self.now tag }
    {
        match self.tagged(tag) {
            Some(place) => match self.sizes.get(place) {
                Some(size) => *size,
                None => None,
            },
            None => None,
        }
    }

    /// The number of cells of a type that is complete, capped.
    #[tactic(auto, using(std::proofs::lemmas::Grind::common_steps, crate::proofs::Cells::measure_array, crate::proofs::Cells::measure_incomplete))]
    pub fn measure(&self, of: &CType) -> Option<u64>
        requires { IsIndex self.now.tags }
        ensures { (names : Names) (p : Program) → AreSizes self.now names p → result ≡ capped_size p (type_of names of.now) }
    {
        match of {
            CType::Void => None,
            CType::Struct(tag) => self.size(*tag),
            CType::Array(of, length) => match self.measure(of) {
                Some(count) => Some(count.saturating_mul(*length)),
                None => None,
            },
            _ => Some(1),
        }
    }

    /// The number of cells of fields that are complete, capped.
    pub fn fields_size(&self, fields: &[Field]) -> Option<u64>
        requires { IsIndex self.now.tags }
        ensures { (names : Names) (p : Program) → AreSizes self.now names p → result ≡ option_map capped (fields_count p (map (field_of names) fields.now)) }
    {
        let mut total: u64 = 0;
        for field in fields {
            let count = self.measure(&field.of)?;
            total = total.saturating_add(count);
        }
        Some(total)
    }
}
