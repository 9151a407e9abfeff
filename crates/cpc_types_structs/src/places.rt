//! For each name the number of an item that declares it.
ghost use Rattle.std.specs.Prelude.{◌≡◌, ℕ, ◌<◌, OnOk, None, Some, length, if◌then◌else◌};
ghost use Rattle.cpc_shapes.specs.Indexed.{is_name};
ghost use Rattle.cpc_types_structs.specs.Placed.{place_at, or_place};

use cpc_base::{Name, NoMemory};
use std::alloc::Global;

/// A number for each name, or none.
#[derive(Drop)]
pub struct Places {
    numbers: Vec<Option<usize>>,
}

impl Places {
    /// No name has a number.
    pub fn new(alloc: Global) -> Self
        ensures { (x : ℕ) → place_at result x ≡ None }
    {
        Places {
            numbers: Vec::new(alloc),
        }
    }

    /// The number of a name.
    pub fn at(&self, name: Name) -> Option<usize>
        ensures { result ≡ place_at self.now name.0 }
    {
        let found = self.numbers.get(name.0 as usize)?;
        *found
    }

    // Makes room for a name.
    #[tactic(auto, using(std::proofs::lemmas::Grind::common_steps, crate::proofs::Numbers::more_room))]
    fn admit(&mut self, name: Name) -> Result<(), NoMemory>
        ensures same { OnOk result ((x : ℕ) → place_at self.new x ≡ place_at self.old x) }
        ensures room { OnOk result (name.0 < length self.new.numbers.items) }
    {
        while self.numbers.len() as u64 <= name.0 {
            self.numbers.push(None)?;
        }
        Ok(())
    }

    // A name gets this number.
    #[tactic(auto, using(std::proofs::lemmas::Grind::common_steps, crate::proofs::Numbers::one_set))]
    fn set(&mut self, name: Name, number: usize) -> Result<(), NoMemory>
        ensures { OnOk result ((x : ℕ) → place_at self.new x ≡ (if is_name x (Some name) then Some number else place_at self.old x)) }
    {
        self.admit(name)?;
        self.numbers[name.0 as usize] = Some(number);
        Ok(())
    }

    /// A name gets this number, where it has none yet. `NoMemory` is want of memory.
    pub fn keep_first(&mut self, name: Option<Name>, number: usize) -> Result<(), NoMemory>
        ensures { OnOk result ((x : ℕ) → place_at self.new x ≡ or_place (place_at self.old x) (if is_name x name then Some number else None)) }
    {
        let Some(name) = name else {
            return Ok(());
        };
        match self.at(name) {
            Some(_) => Ok(()),
            None => self.set(name, number),
        }
    }
}
