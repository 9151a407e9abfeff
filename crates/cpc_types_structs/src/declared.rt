//! What items declare.
ghost use Rattle.std.specs.Prelude.{◌≡◌, ◌+◌, ◌≤◌, List, ◌++◌, ◌∷◌, [], OnOk, length};
ghost use Rattle.cpc_tree.specs.declared.program.Item.{Item};
ghost use Rattle.cpc_types_structs.specs.Declares.{Declares};
ghost use Rattle.cpc_types_structs.specs.Indexed.{IsIndex};

use crate::items::{definition_of, name_of};
use crate::places::Places;
use crate::structs::Structs;
use cpc_base::NoMemory;
use cpc_tree::program::Item;
use std::alloc::Global;

/// What the items of a list declare: structs, of which a number is in scope; and, in scope or not, the first item that
/// declares each name, and the first that defines a function of each.
pub struct Declared {
    /// The structs.
    pub structs: Structs,
    /// The first item that declares the name of a variable or a function.
    pub named: Places,
    /// The first item that defines a function of a name.
    pub defined: Places,
}

impl Drop for Declared {
    fn drop(self) {
        let Declared {
            structs,
            named,
            defined,
        } = self;
        drop(structs);
        drop(named);
        drop(defined);
    }
}

impl Declared {
    /// What an empty list of items declares: nothing.
    pub fn new(alloc: Global) -> Self
        ensures declares { Declares [] result }
        ensures count { result.structs.tags.count ≡ 0 }
    {
        Declared {
            structs: Structs::new(alloc),
            named: Places::new(alloc),
            defined: Places::new(alloc),
        }
    }

    /// One more item, of this number, comes into scope, in which all those before it are. `NoMemory` is want of memory.
    pub fn append(&mut self, item: &Item, place: usize) -> Result<(), NoMemory>
        requires index { IsIndex self.old.structs.tags }
        requires all { self.old.structs.tags.count ≡ length self.old.structs.tags.names.items }
        ensures declares { OnOk result ((xs : List Item) → place ≡ length xs → Declares xs self.old → Declares (xs ++ item.now ∷ []) self.new) }
        ensures count { OnOk result (self.new.structs.tags.count ≡ self.old.structs.tags.count + 1) }
    {
        self.structs.append(item)?;
        self.named.keep_first(name_of(item), place)?;
        self.defined.keep_first(definition_of(item), place)?;
        Ok(())
    }

    /// The first `count` items are in scope.
    pub fn enter(&mut self, count: usize)
        requires index { IsIndex self.old.structs.tags }
        requires within { count ≤ length self.old.structs.tags.names.items }
        ensures declares { (xs : List Item) → Declares xs self.old → Declares xs self.new }
        ensures count { self.new.structs.tags.count ≡ count }
    {
        self.structs.enter(count);
    }
}
