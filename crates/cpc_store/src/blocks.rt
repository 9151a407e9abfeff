//! The blocks of one class, found by number.
ghost use Rattle.std.specs.Prelude.{◌≡◌, ◌+◌, ◌<◌, ◌≤◌, ◌^◌, [], ◌∷◌, ◌++◌, length, map, IfOk, OnOk, OnErr, Some, slice_get, slice_set, None};
ghost use Rattle.std.specs.Option.{option_map};
ghost use Rattle.std.specs.List.{All};
ghost use Rattle.cpc_num.specs.declared.kinds.Fault.TheVariants as Fault;
ghost use Rattle.cpc_store.specs.Store as S;
ghost use Rattle.cpc_store.specs.Seen.{seen, seen_result, result_with, IsLawful};

use crate::values::{Scalar, Value};
use cpc_base::NoMemory;
use cpc_num::Fault;
use std::alloc::Global;
use std::collections::HashMap;
use std::marker::Model;

/// The live blocks by number, and how many were made.
#[derive(Drop)]
pub(crate) struct Blocks {
    made: u64,
    live: HashMap<u64, Vec<Value>>,
}

impl Model for Blocks {
    ghost use Rattle.std.specs.Prelude.{nat_eq};
    ghost use Rattle.std.specs.HashMap as hash;
    ghost use Rattle.cpc_base.specs.declared.names.Name.{Name};
    ghost use Rattle.cpc_store.specs.Store.{BlocksOf};

    ghost Value = { BlocksOf Name };

    ghost use Rattle.cpc_store.specs.Blocks.{blocks_seen, IsClass};

    ghost view = { λ b. blocks_seen b.made (hash.get nat_eq b.live) };

    ghost invariant = { λ b. IsClass b.made (hash.get nat_eq b.live) };
}

impl Blocks {
    /// No block.
    pub(crate) fn new(alloc: Global) -> Self
        ensures { result ≡ [] }
    {
        Blocks {
            made: 0,
            live: HashMap::new(alloc),
        }
    }

    /// How many blocks were ever made.
    pub(crate) fn made(&self) -> u64
        ensures { result ≡ length self.now }
    {
        self.made
    }

    /// Makes a block of unset cells, with the next number.
    pub(crate) fn make(&mut self, alloc: Global, cells: usize) -> Result<u64, NoMemory>
        requires { length self.old + 1 < 2 ^ 63 }
        ensures number { IfOk result (λ n. n ≡ length self.old) }
        ensures ok { OnOk result (self.new ≡ self.old ++ Some (S.unset_cells cells) ∷ []) }
        ensures err { OnErr result (self.new ≡ self.old) }
    {
        let number = self.made;
        let unset = vec![in alloc; Value::Unset; cells]?;
        self.live.insert(number, unset)?;
        self.made = number + 1;
        Ok(number)
    }

    /// How many cells a live block has.
    pub(crate) fn size(&self, number: u64) -> Option<u64>
        ensures { result ≡ option_map length (S.live (slice_get self.now number)) }
    {
        match self.live.get(&number) {
            Some(cells) => Some(cells.len() as u64),
            None => None,
        }
    }

    /// The value of a cell of a live block, where it fits what is wanted.
    pub(crate) fn load(&self, number: u64, offset: u64, wanted: Scalar) -> Result<Value, Fault>
        ensures value { seen_result result ≡ S.load_block wanted (S.live (slice_get self.now number)) offset }
        ensures lawful { IfOk result (λ v. IsLawful (seen v)) }
    {
        match self.live.get(&number) {
            Some(cells) => load_cell(cells, offset, wanted),
            None => Err(Fault::Freed),
        }
    }

    /// Writes a cell of a live block.
    pub(crate) fn save(&mut self, number: u64, offset: u64, value: Value) -> Result<(), Fault>
        requires { IsLawful (seen value) }
        ensures value { result_with self.new result ≡ S.save_in (S.live (slice_get self.old number)) self.old number offset (seen value) }
        ensures err { OnErr result (self.new ≡ self.old) }
    {
        match self.live.get_mut(&number) {
            Some(cells) => save_cell(cells, offset, value),
            None => Err(Fault::Freed),
        }
    }

    /// Frees a live block, and says how many cells it had.
    pub(crate) fn remove(&mut self, number: u64) -> Option<u64>
        ensures size { result ≡ option_map length (S.live (slice_get self.old number)) }
        ensures freed { self.new ≡ slice_set self.old number None }
    {
        match self.live.remove(&number) {
            Some(cells) => Some(cells.len() as u64),
            None => None,
        }
    }
}

/// Whether a cell that is to hold values of the scalar may hold this one; an unset one it may.
pub fn suits(wanted: Scalar, value: Value) -> bool
    ensures { result ≡ S.suits wanted (seen value) }
{
    match (wanted, value) {
        (_, Value::Unset) => true,
        (Scalar::Int(wanted), Value::Int(kind, _)) => wanted == kind,
        (Scalar::Pointer | Scalar::Code, Value::Null) => true,
        (Scalar::Pointer, Value::At(..)) => true,
        (Scalar::Code, Value::Code(_)) => true,
        (Scalar::Cond, Value::Cond(_)) => true,
        _ => false,
    }
}

fn load_cell(cells: &Vec<Value>, offset: u64, wanted: Scalar) -> Result<Value, Fault>
    requires { All (λ v. IsLawful (seen v)) cells.now.items }
    ensures value { seen_result result ≡ S.load_block wanted (Some (map seen cells.now.items)) offset }
    ensures lawful { IfOk result (λ v. IsLawful (seen v)) }
{
    if offset >= cells.len() as u64 {
        return Err(Fault::Bounds);
    }
    let value = cells[offset as usize];
    if suits(wanted, value) {
        Ok(value)
    } else {
        Err(Fault::Kind)
    }
}

fn save_cell(cells: &mut Vec<Value>, offset: u64, value: Value) -> Result<(), Fault>
    requires lawful_cells { All (λ v. IsLawful (seen v)) cells.old.items }
    requires lawful_value { IsLawful (seen value) }
    ensures value { result_with cells.new.items result ≡ S.save_cell cells.old.items offset value }
    ensures err { OnErr result (cells.new.items ≡ cells.old.items) }
    ensures lawful { All (λ v. IsLawful (seen v)) cells.new.items }
{
    if offset >= cells.len() as u64 {
        return Err(Fault::Bounds);
    }
    cells[offset as usize] = value;
    Ok(())
}
