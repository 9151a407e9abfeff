//! The cells of a block, read as integers.
ghost use Rattle.std.specs.Prelude.{◌≡◌, List, Some, IfOk, IfSome};
ghost use Rattle.std.specs.List.{All};
ghost use Rattle.cpc_base.specs.declared.names.Name.{Name};
ghost use Rattle.cpc_store.specs.Store as S;
ghost use Rattle.cpc_store.specs.Seen.{seen, IsLawful};
ghost use Rattle.cpc_sections.specs.Reads.{cell_at, ReadKind, ReadAs, ReadsAs};

use cpc_base::NoMemory;
use cpc_num::Kind;
use cpc_store::{Block, Scalar, Store, Value};
use std::alloc::Global;

// The value of a cell, where it is unset or an integer of the kind.
fn read_kind(store: &Store, block: Block, offset: u64, kind: Kind) -> Option<Value>
    ensures value { (v : S.ValueOf Name) → cell_at (S.cells_of block.class block.number store.now) offset ≡ Some v → ReadKind kind result v }
    ensures lawful { IfSome result (λ v. IsLawful (seen v)) }
{
    match store.load(block, offset, Scalar::Int(kind)) {
        Ok(value) => Some(value),
        Err(_) => None,
    }
}

// The value of a cell, where it is unset or an integer.
fn read_one(store: &Store, block: Block, offset: u64) -> Option<Value>
    ensures value { (v : S.ValueOf Name) → cell_at (S.cells_of block.class block.number store.now) offset ≡ Some v → ReadAs result v }
    ensures lawful { IfSome result (λ v. IsLawful (seen v)) }
{
    let int = read_kind(store, block, offset, Kind::Int);
    if int.is_some() {
        return int;
    }
    let long = read_kind(store, block, offset, Kind::Long);
    if long.is_some() {
        return long;
    }
    let char = read_kind(store, block, offset, Kind::Char);
    if char.is_some() {
        return char;
    }
    let byte = read_kind(store, block, offset, Kind::UChar);
    if byte.is_some() {
        return byte;
    }
    let unsigned = read_kind(store, block, offset, Kind::UInt);
    if unsigned.is_some() {
        return unsigned;
    }
    read_kind(store, block, offset, Kind::ULong)
}

/// The cells of a live block, where each is unset or an integer; nothing where one holds anything else. Of a block that is
/// not live nothing is said.
///
/// `NoMemory` is want of memory.
pub fn read_integers(
    alloc: Global,
    store: &Store,
    block: Block,
) -> Result<Option<Vec<Value>>, NoMemory>
    ensures value { IfOk result (λ read. (cells : List (S.ValueOf Name)) → S.cells_of block.class block.number store.now ≡ Some cells → ReadsAs read cells) }
    ensures lawful { IfOk result (λ read. IfSome read (λ cells. All (λ v. IsLawful (seen v)) cells.items)) }
{
    let Some(size) = store.size(block) else {
        return Ok(None);
    };
    let mut cells = Vec::new(alloc);
    for k in 0..size {
        match read_one(store, block, k) {
            Some(value) => cells.push(value)?,
            None => return Ok(None),
        }
    }
    Ok(Some(cells))
}
