//! What a section begins with: its store, and the arguments of its function.
ghost use Rattle.std.specs.Prelude.{◌≡◌, ◌∷◌, IfOk};
ghost use Rattle.std.specs.List.{All};
ghost use Rattle.cpc_tree.specs.Erase.{Names};
ghost use Rattle.cpc_store.specs.Seen.{seen, IsLawful};
ghost use Rattle.cpc_meaning.specs.Section.{copy_store, copy_pointer};
ghost use Rattle.cpc_eval_values.specs.Shown.{value_of, values_of, store_of};
ghost use Rattle.cpc_sections.specs.Jobs.{IsLawfulJob};

use cpc_base::NoMemory;
use cpc_run_globals::make_block;
use cpc_sections::{COPY, Job};
use cpc_store::{Store, Value};
use std::alloc::Global;

/// A store that holds a copy of these cells alone, or no block where there are none.
///
/// `NoMemory` is want of memory, or of numbers for so many cells.
pub(crate) fn first_store(alloc: Global, cells: &[Value]) -> Result<Store, NoMemory>
    requires { All (λ v. IsLawful (seen v)) cells.now }
    ensures { IfOk result (λ store. (names : Names) → store_of names store ≡ copy_store (values_of names cells.now)) }
{
    let mut store = Store::new(alloc);
    if cells.is_empty() {
        return Ok(store);
    }
    make_block(alloc, cells, &mut store)?;
    Ok(store)
}

// The pointer to a copy of these cells: null where there are none.
fn first_pointer(cells: &[Value]) -> Value
    ensures pointer { (names : Names) → value_of names result ≡ copy_pointer (values_of names cells.now) }
    ensures lawful { IsLawful (seen result) }
{
    if cells.is_empty() {
        return Value::Null;
    }
    Value::At(COPY, 0)
}

/// The pointer to the copy, and the other arguments of a job.
///
/// `NoMemory` is want of memory.
pub(crate) fn first_arguments(alloc: Global, job: &Job) -> Result<Vec<Value>, NoMemory>
    requires { IsLawfulJob job.now }
    ensures row { IfOk result (λ args. (names : Names) → values_of names args.items ≡ copy_pointer (values_of names job.now.cells.items) ∷ values_of names job.now.args.items) }
    ensures lawful { IfOk result (λ args. All (λ v. IsLawful (seen v)) args.items) }
{
    let mut args = Vec::new(alloc);
    args.push(first_pointer(&job.cells))?;
    args.extend_from_slice(&job.args)?;
    Ok(args)
}
