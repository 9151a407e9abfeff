//! An index by name: which of the items in scope declares a name last.
ghost use Rattle.std.specs.Prelude.{◌≡◌, ◌+◌, ◌<◌, ◌≤◌, ◌++◌, ◌∷◌, [], OnOk, length};
ghost use Rattle.cpc_types_structs.specs.Indexed.{IsIndex};
ghost use Rattle.cpc_shapes.specs.Indexed.{last_below};

use cpc_base::{Name, NoMemory};
use std::alloc::Global;

/// The names that items declare, one for each item at most, and how many of the items are in scope. `last` has for
/// each name the last item in scope that declares it, `before` for each item what `last` had for its name before it.
pub struct Index {
    names: Vec<Option<Name>>,
    before: Vec<Option<usize>>,
    last: Vec<Option<usize>>,
    count: usize,
}

impl Drop for Index {
    fn drop(self) {
        let Index {
            names,
            before,
            last,
            count: _,
        } = self;
        drop(names);
        drop(before);
        drop(last);
    }
}

impl Index {
    /// No item.
    pub fn new(alloc: Global) -> Self
        ensures index { IsIndex result }
        ensures names { result.names.items ≡ [] }
        ensures count { result.count ≡ 0 }
    {
        Index {
            names: Vec::new(alloc),
            before: Vec::new(alloc),
            last: Vec::new(alloc),
            count: 0,
        }
    }

    /// The number of the last item in scope that declares a name.
    pub fn place(&self, name: Name) -> Option<usize>
        requires { IsIndex self.now }
        ensures { result ≡ last_below self.now.count self.now.names.items name.0 }
    {
        let found = self.last.get(name.0 as usize)?;
        *found
    }

    // Makes room for a name.
    #[tactic(auto, using(std::proofs::lemmas::Grind::common_steps, cpc_shapes::proofs::Indexes::more_room))]
    fn admit(&mut self, name: Name) -> Result<(), NoMemory>
        requires { IsIndex self.old }
        ensures index { OnOk result (IsIndex self.new) }
        ensures room { OnOk result (name.0 < length self.new.last.items) }
        ensures names { OnOk result (self.new.names.items ≡ self.old.names.items) }
        ensures count { OnOk result (self.new.count ≡ self.old.count) }
    {
        while self.last.len() as u64 <= name.0 {
            self.last.push(None)?;
        }
        Ok(())
    }

    /// One more item, which declares this name or none, comes into scope, in which all the others are. `NoMemory` is want of memory.
    pub fn push(&mut self, name: Option<Name>) -> Result<(), NoMemory>
        requires index { IsIndex self.old }
        requires all { self.old.count ≡ length self.old.names.items }
        ensures index { OnOk result (IsIndex self.new) }
        ensures names { OnOk result (self.new.names.items ≡ self.old.names.items ++ name ∷ []) }
        ensures count { OnOk result (self.new.count ≡ self.old.count + 1) }
    {
        let before = match name {
            Some(name) => {
                self.admit(name)?;
                self.place(name)
            }
            None => None,
        };
        self.before.push(before)?;
        self.names.push(name)?;
        self.forward();
        Ok(())
    }

    // The next item comes into scope.
    #[tactic(auto, using(std::proofs::lemmas::Grind::common_steps, cpc_shapes::proofs::Indexes::forward_none, cpc_shapes::proofs::Indexes::forward_some))]
    fn forward(&mut self)
        requires index { IsIndex self.old }
        requires more { self.old.count < length self.old.names.items }
        ensures index { IsIndex self.new }
        ensures names { self.new.names.items ≡ self.old.names.items }
        ensures count { self.new.count ≡ self.old.count + 1 }
    {
        if let Some(name) = self.names[self.count] {
            self.last[name.0 as usize] = Some(self.count);
        }
        self.count += 1;
    }

    // The last item leaves the scope.
    #[tactic(auto, using(std::proofs::lemmas::Grind::common_steps, cpc_shapes::proofs::Indexes::back_none, cpc_shapes::proofs::Indexes::back_some))]
    fn back(&mut self)
        requires index { IsIndex self.old }
        requires some { 0 < self.old.count }
        ensures index { IsIndex self.new }
        ensures names { self.new.names.items ≡ self.old.names.items }
        ensures count { self.old.count ≡ self.new.count + 1 }
    {
        self.count -= 1;
        if let Some(name) = self.names[self.count] {
            self.last[name.0 as usize] = self.before[self.count];
        }
    }

    /// The first `count` items are in scope.
    pub fn enter(&mut self, count: usize)
        requires index { IsIndex self.old }
        requires within { count ≤ length self.old.names.items }
        ensures index { IsIndex self.new }
        ensures names { self.new.names.items ≡ self.old.names.items }
        ensures count { self.new.count ≡ count }
    {
        while self.count < count {
            self.forward();
        }
        while count < self.count {
            self.back();
        }
    }
}
