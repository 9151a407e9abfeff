//! The tables of the functions that a list of items defines.
ghost use Rattle.std.specs.Prelude.{◌≡◌, IfOk, None, get_or, option_map};
ghost use Rattle.cpc_eval_index.specs.Bodies.{AreFunctionTables, IsItemTable};

use cpc_base::NoMemory;
use cpc_eval_locals::FunctionTable;
use cpc_tree::program::Item;
use std::alloc::Global;

// The table of the function that an item defines. `NoMemory` is want of memory.
fn item_table(alloc: Global, item: &Item) -> Result<Option<FunctionTable>, NoMemory>
    ensures { IfOk result (λ row. IsItemTable item.now row) }
{
    match item {
        Item::Function(function) => {
            let table = FunctionTable::of(alloc, function)?;
            Ok(Some(table))
        }
        _ => Ok(None),
    }
}

/// The table of the function that each item of a list defines. `NoMemory` is want of memory.
pub(crate) fn function_tables(
    alloc: Global,
    list: &[Item],
) -> Result<Vec<Option<FunctionTable>>, NoMemory>
    ensures { IfOk result (λ rows. AreFunctionTables list.now rows.items) }
{
    let mut rows = Vec::new(alloc);
    for item in list {
        let row = item_table(alloc, item)?;
        rows.push(row)?;
    }
    Ok(rows)
}

/// The table at a place of a row, if there is one.
pub(crate) fn table_at(rows: &[Option<FunctionTable>], place: usize) -> Option<&FunctionTable>
    ensures { option_map (λ table. table.now) result ≡ get_or rows.now place None }
{
    match rows.get(place) {
        Some(row) => row.as_ref(),
        None => None,
    }
}
