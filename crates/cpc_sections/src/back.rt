//! Cells that go back through a pointer.
ghost use Rattle.std.specs.Prelude.{◌≡◌, ◌<◌, ◌^◌};
ghost use Rattle.std.specs.List.{All};
ghost use Rattle.cpc_tree.specs.Erase.{Names};
ghost use Rattle.cpc_store.specs.Seen.{seen, result_with, IsLawful};
ghost use Rattle.cpc_meaning.specs.Answer.{of_result};
ghost use Rattle.cpc_meaning.specs.Copies as C;
ghost use Rattle.cpc_eval_values.specs.Shown.{value_of, values_of, store_of};

use cpc_num::Fault;
use cpc_store::{Block, Store, Value};

// Writes cells of a block from an offset on.
fn write_back(block: Block, offset: u64, cells: &[Value], store: &mut Store) -> Result<(), Fault>
    requires offset { offset < 2 ^ 63 }
    requires cells { All (λ v. IsLawful (seen v)) cells.now }
    ensures { (names : Names) → C.write_back (values_of names cells.now) block.class block.number offset (store_of names store.old) ≡ of_result (result_with (store_of names store.new) result) }
{
    for (k, value) in cells.iter().enumerate() {
        store.save(block, offset + k as u64, *value)?;
    }
    Ok(())
}

/// Writes cells through a pointer, one behind another. What is no pointer to a cell takes none.
///
/// - `Freed`: the block is not live.
/// - `Bounds`: it has too few cells.
pub fn write_to(pointer: Value, cells: &[Value], store: &mut Store) -> Result<(), Fault>
    requires pointer { IsLawful (seen pointer) }
    requires cells { All (λ v. IsLawful (seen v)) cells.now }
    ensures { (names : Names) → C.write_to (value_of names pointer) (values_of names cells.now) (store_of names store.old) ≡ of_result (result_with (store_of names store.new) result) }
{
    match pointer {
        Value::At(block, offset) => write_back(block, offset, cells, store),
        _ => Ok(()),
    }
}
