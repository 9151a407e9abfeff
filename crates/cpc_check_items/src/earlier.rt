//! What earlier items declare of names.
ghost use Rattle.std.specs.Prelude.{◌≡◌, ℕ, ◌∷◌, ◌++◌, [], OnOk, Some, cond, nat_eq};
ghost use Rattle.std.specs.HashMap as hash;
ghost use Rattle.cpc_tree.specs.Erase.{Names, item_of};
ghost use Rattle.cpc_tree.specs.Syntax.{Program};
ghost use Rattle.cpc_check_rules.specs.Apart.{AreApart};

use crate::joins::with;
use crate::signatures::Signature;
use cpc_base::{Name, NoMemory};
use cpc_tree::program::Item;
use std::alloc::Global;
use std::collections::HashMap;

/// What earlier items declare of a name.
#[derive(Clone, Copy)]
pub(crate) enum Past<'p> {
    /// Functions alone, all of the host or none: as the first of them, with a body where one has it, and whether all
    /// agree with the first.
    Functions {
        declared: Signature<'p>,
        is_same: bool,
    },
    /// A variable, or functions of the host beside others, so that no function can be declared beside them.
    Taken,
}

/// What the items before a place of a program declare of each name.
#[derive(Drop)]
pub struct Earlier<'p> {
    past: HashMap<u64, Past<'p>>,
}

impl<'p> Earlier<'p> {
    ghost use Rattle.cpc_check_items.specs.Pasts.{AreEarlier, joined};

    /// No item.
    pub fn new(alloc: Global) -> Self
        ensures { (names : Names) → AreEarlier names [] result }
    {
        Earlier {
            past: HashMap::new(alloc),
        }
    }

    /// What is declared of a name.
    pub(crate) fn past(&self, name: Name) -> Option<Past<'p>>
        ensures { result ≡ hash.get nat_eq self.now.past name.0 }
    {
        match self.past.get(&name.0) {
            Some(past) => Some(*past),
            None => None,
        }
    }

    // Puts what is declared of a name.
    fn put(&mut self, name: Name, past: Past<'p>) -> Result<(), NoMemory>
        ensures { OnOk result ((q : ℕ) → hash.get nat_eq self.new.past q ≡ cond (nat_eq name.0 q) (Some past.entry) (hash.get nat_eq self.old.past q)) }
    {
        self.past.insert(name.0, past)?;
        Ok(())
    }

    // Puts one more declaration of a function.
    fn declare(&mut self, name: Name, new: Signature<'p>) -> Result<(), NoMemory>
        ensures { OnOk result ((names : Names) → AreApart names → (q : ℕ) → hash.get nat_eq self.new.past q ≡ cond (nat_eq name.0 q) (Some (joined names (hash.get nat_eq self.old.past name.0) new.entry)) (hash.get nat_eq self.old.past q)) }
    {
        let past = with(self.past(name), new);
        self.put(name, past)
    }

    /// One more item of a program. `NoMemory` is want of memory.
    pub fn add(&mut self, item: &'p Item) -> Result<(), NoMemory>
        ensures { OnOk result ((names : Names) → AreApart names → (before : Program) → AreEarlier names before self.old → AreEarlier names (before ++ item_of names item.now ∷ []) self.new) }
    {
        match item {
            Item::Struct { .. } => Ok(()),
            Item::Global { word, .. } => {
                self.put(word.name, Past::Taken)?;
                Ok(())
            }
            Item::Prototype {
                mode,
                word,
                result: given,
                parameters,
                ..
            } => {
                let new = Signature {
                    mode: *mode,
                    result: given,
                    parameters,
                    is_defined: false,
                };
                self.declare(word.name, new)?;
                Ok(())
            }
            Item::Function(function) => {
                self.declare(function.word.name, Signature::of(function))?;
                Ok(())
            }
        }
    }
}
