//! The offsets of the fields of structs.
ghost use Rattle.std.specs.Prelude.{◌≡◌, IfOk, map, option_map, slice_get};
ghost use Rattle.cpc_tree.specs.Erase.{Names, field_of};
ghost use Rattle.cpc_tree.specs.Syntax.{Program};
ghost use Rattle.cpc_eval_index.specs.Offsets.{offsets_from, item_offsets, offset_rows, AreOffsets};
ghost use Rattle.cpc_types_structs.specs.Indexed.{IsIndex};
ghost use Rattle.cpc_types_structs.specs.Sized.{AreSizes};
ghost use Rattle.cpc_types_structs.specs.Structs.{AreAllStructs};

use cpc_base::NoMemory;
use cpc_tree::program::{Field, Item};
use cpc_types_structs::Structs;
use std::alloc::Global;

/// For each item a row of the offsets of the fields of the struct that it declares, as far as the fields before them are
/// complete; u64::MAX stands for every greater number. An item that is no struct has an empty row.
pub(crate) struct Offsets {
    rows: Vec<Vec<u64>>,
}

impl Drop for Offsets {
    fn drop(self) {
        let Offsets { rows } = self;
        drop(rows);
    }
}

// The offsets of fields. `NoMemory` is want of memory.
fn fields_offsets(alloc: Global, fields: &[Field], structs: &Structs) -> Result<Vec<u64>, NoMemory>
    requires { IsIndex structs.now.tags }
    ensures { IfOk result (λ row. (names : Names) (p : Program) → AreSizes structs.now names p → row.items ≡ offsets_from p 0 (map (field_of names) fields.now)) }
{
    let mut row = Vec::new(alloc);
    let mut offset: u64 = 0;
    for field in fields {
        row.push(offset)?;
        let Some(count) = structs.measure(&field.of) else {
            return Ok(row);
        };
        offset = offset.saturating_add(count);
    }
    Ok(row)
}

// The offsets of the fields of the struct that an item declares. `NoMemory` is want of memory.
fn item_offsets(alloc: Global, item: &Item, structs: &Structs) -> Result<Vec<u64>, NoMemory>
    requires { IsIndex structs.now.tags }
    ensures { IfOk result (λ row. (names : Names) (p : Program) → AreSizes structs.now names p → row.items ≡ item_offsets names p item.now) }
{
    match item {
        Item::Struct { fields, .. } => fields_offsets(alloc, fields, structs),
        _ => Ok(Vec::new(alloc)),
    }
}

impl Offsets {
    /// Those of the structs that the items of a list declare, all of which are in scope. `NoMemory` is want of memory.
    pub(crate) fn of(alloc: Global, list: &[Item], structs: &Structs) -> Result<Offsets, NoMemory>
        requires { AreAllStructs list.now structs.now }
        ensures { IfOk result (λ offsets. AreOffsets list.now offsets) }
    {
        let mut rows = Vec::new(alloc);
        for item in list {
            let row = item_offsets(alloc, item, structs)?;
            rows.push(row)?;
        }
        Ok(Offsets { rows })
    }

    /// The row of the item of a number.
    pub(crate) fn row(&self, place: usize) -> Option<&[u64]>
        ensures { option_map (λ row. row.now) result ≡ slice_get (offset_rows self.now) place }
    {
        match self.rows.get(place) {
            Some(row) => Some(row),
            None => None,
        }
    }
}
