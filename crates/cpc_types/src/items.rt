//! What the items of a program declare.
ghost use Rattle.std.specs.Prelude.{◌≡◌, ◌+◌, ◌<◌, ◌≤◌, List, IfOk, OnOk, length, take, option_map, is_some};
ghost use Rattle.cpc_tree.specs.Erase.{Names};
ghost use Rattle.cpc_tree.specs.Syntax.{Program};
ghost use Rattle.cpc_types_structs.specs.Indexed.{IsIndex};
ghost use Rattle.cpc_types_structs.specs.Sized.{AreSizes, tag_place};
ghost use Rattle.cpc_types_structs.specs.Declares.{Declares};
ghost use Rattle.cpc_types_structs.specs.Placed.{place_at};
ghost use Rattle.cpc_tree.specs.declared.program.Item.{Item};
ghost use Rattle.cpc_shapes.specs.Indexed.{last_below};
ghost use Rattle.cpc_shapes.specs.Declaring.{item_at};
ghost use Rattle.cpc_types.specs.Declaring.{AreDeclared};
ghost use Rattle.cpc_types.specs.Integral.{AreIntegral, AreTold, tag_integral, declared_integral};

use crate::integers::fields_integers;
use cpc_base::{Name, NoMemory};
use cpc_tree::program::Item;
use cpc_types_structs::{Declared, Index, Structs, name_of};
use std::alloc::Global;

/// What items declare, of which a number is in scope: the last of them that declares each name; structs, and the first that
/// declares and that defines each name; and for each item whether the cells of the struct that it declares are all integers.
pub(crate) struct Items {
    names: Index,
    declared: Declared,
    integral: Vec<bool>,
}

impl Drop for Items {
    fn drop(self) {
        let Items {
            names,
            declared,
            integral,
        } = self;
        drop(names);
        drop(declared);
        drop(integral);
    }
}

// Whether the struct that an item declares has cells that are all integers, where these items are in scope.
fn declared_integral(item: &Item, items: &Items) -> bool
    requires { IsIndex items.now.declared.structs.tags }
    ensures { (names : Names) (p : Program) → AreSizes items.now.declared.structs names p → AreIntegral items.now names p → result ≡ declared_integral names p item.now }
{
    match item {
        Item::Struct { fields, .. } => fields_integers(fields, items),
        _ => false,
    }
}

impl Items {
    /// All the items of a list are in scope. `NoMemory` is want of memory.
    pub(crate) fn of(alloc: Global, list: &[Item]) -> Result<Items, NoMemory>
        ensures declared { IfOk result (λ items. AreDeclared list.now items) }
        ensures told { IfOk result (λ items. AreTold list.now items) }
        ensures all { IfOk result (λ items. items.names.count ≡ length list.now) }
    {
        let mut items = Items {
            names: Index::new(alloc),
            declared: Declared::new(alloc),
            integral: Vec::new(alloc),
        };
        for i in 0..list.len() {
            items.append(list, i)?;
        }
        Ok(items)
    }

    // One more item of a list comes into scope, in which all those before it are.
    fn append(&mut self, list: &[Item], place: usize) -> Result<(), NoMemory>
        requires within { place < length list.now }
        requires declared { AreDeclared (take place list.now) self.old }
        requires told { AreTold (take place list.now) self.old }
        requires all { self.old.names.count ≡ place }
        ensures declared { OnOk result (AreDeclared (take (place + 1) list.now) self.new) }
        ensures told { OnOk result (AreTold (take (place + 1) list.now) self.new) }
        ensures all { OnOk result (self.new.names.count ≡ place + 1) }
    {
        let item = &list[place];
        let integral = declared_integral(item, self);
        self.names.push(name_of(item))?;
        self.declared.append(item, place)?;
        self.integral.push(integral)?;
        Ok(())
    }

    /// The first `count` items are in scope.
    pub(crate) fn enter(&mut self, count: usize)
        requires names { IsIndex self.old.names }
        requires tags { IsIndex self.old.declared.structs.tags }
        requires named { count ≤ length self.old.names.names.items }
        requires tagged { count ≤ length self.old.declared.structs.tags.names.items }
        ensures names { IsIndex self.new.names }
        ensures same_names { self.new.names.names.items ≡ self.old.names.names.items }
        ensures declares { (xs : List Item) → Declares xs self.old.declared → Declares xs self.new.declared }
        ensures same_flags { self.new.integral.items ≡ self.old.integral.items }
        ensures name_count { self.new.names.count ≡ count }
        ensures tag_count { self.new.declared.structs.tags.count ≡ count }
    {
        self.names.enter(count);
        self.declared.enter(count);
    }

    /// Their structs.
    pub(crate) fn structs(&self) -> &Structs
        ensures { result.now ≡ self.now.declared.structs }
    {
        &self.declared.structs
    }

    /// Their structs, and the first that declares and that defines each name, and nothing else of them.
    pub(crate) fn into_declared(self) -> Declared
        ensures { result ≡ self.declared }
    {
        let Items {
            names,
            declared,
            integral,
        } = self;
        drop(names);
        drop(integral);
        declared
    }

    /// Whether one of them, in scope or not, defines a function of a name.
    pub(crate) fn is_defined(&self, name: Name) -> bool
        ensures { result ≡ is_some (place_at self.now.declared.defined name.0) }
    {
        self.declared.defined.at(name).is_some()
    }

    /// The last item in scope that declares the name of a variable or a function, in the list of the items.
    pub(crate) fn named<'p>(&self, list: &'p [Item], name: Name) -> Option<&'p Item>
        requires { IsIndex self.now.names }
        ensures { option_map (λ x. x.now) result ≡ item_at list.now (last_below self.now.names.count self.now.names.names.items name.0) }
    {
        match self.names.place(name) {
            Some(place) => list.get(place),
            None => None,
        }
    }

    /// The last item in scope that declares a tag, in the list of the items.
    pub(crate) fn tagged<'p>(&self, list: &'p [Item], tag: Name) -> Option<&'p Item>
        requires { IsIndex self.now.declared.structs.tags }
        ensures { option_map (λ x. x.now) result ≡ item_at list.now (tag_place self.now.declared.structs tag) }
    {
        match self.declared.structs.tagged(tag) {
            Some(place) => list.get(place),
            None => None,
        }
    }

    /// Whether the struct that has a tag has cells that are all integers.
    pub(crate) fn is_integral(&self, tag: Name) -> bool
        requires { IsIndex self.now.declared.structs.tags }
        ensures { result ≡ tag_integral self.now tag }
    {
        match self.declared.structs.tagged(tag) {
            Some(place) => match self.integral.get(place) {
                Some(integral) => *integral,
                None => false,
            },
            None => false,
        }
    }
}
