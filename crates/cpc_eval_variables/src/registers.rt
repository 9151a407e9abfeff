//! The variables of a function in their order, and which of them are registers.
ghost use Rattle.std.specs.Prelude.{◌≡◌, ℕ, ◌<◌, false, length, get_or, IfOk};
ghost use Rattle.cpc_tree.specs.Erase.{Names, function_of};
ghost use Rattle.cpc_tree.specs.Lists.{holds_number};
ghost use Rattle.cpc_tree.specs.Registers as R;
ghost use Rattle.cpc_eval_variables.specs.Kept.{kept_from, kept_types, kept_of, types_kept};
ghost use Rattle.cpc_eval_variables.specs.Told.{IsTold};
ghost use Rattle.cpc_eval_variables.specs.Typed.{types_in, types_of};

use crate::walk::Walk;
use cpc_base::{NoMemory, unset};
use cpc_tree::program::{CType, Function};
use std::alloc::Global;

/// A parameter or a local of a function: its type, and whether it is a register. One that is no register has a block of
/// cells.
#[derive(Clone, Copy)]
pub struct Variable<'f> {
    pub of: &'f CType,
    pub is_register: bool,
}

// For each number below the count whether it is one of these.
fn marked(alloc: Global, count: usize, numbers: &[usize]) -> Result<Vec<bool>, NoMemory>
    ensures length { IfOk result (λ flags. length flags.items ≡ count) }
    ensures flags { IfOk result (λ flags. (k : ℕ) → k < count → get_or flags.items k false ≡ holds_number numbers.now k) }
{
    let mut flags = unset(alloc, count)?;
    for number in numbers {
        if *number < flags.len() {
            flags[*number] = true;
        }
    }
    Ok(flags)
}

// The variables of these types, where `&` is applied to these.
fn kept<'f>(
    alloc: Global,
    types: &[&'f CType],
    addressed: &[usize],
) -> Result<Vec<Variable<'f>>, NoMemory>
    ensures { IfOk result (λ kept. (names : Names) → kept_of names kept.items ≡ kept_types addressed.now 0 (types_of names types.now)) }
{
    let flags = marked(alloc, types.len(), addressed)?;
    let mut kept = Vec::new(alloc);
    for i in 0..types.len() {
        let of = types[i];
        kept.push(Variable {
            of,
            is_register: of.is_scalar() && !flags[i],
        })?;
    }
    Ok(kept)
}

/// The variables of a function in order: its parameters, and then its locals in the order of the text; a register is one
/// of a scalar type to whose name `&` is never applied. `NoMemory` is want of memory.
pub fn variables<'f>(alloc: Global, function: &'f Function) -> Result<Vec<Variable<'f>>, NoMemory>
    ensures kept { IfOk result (λ kept. (names : Names) → IsTold names function.now.parameters.items
        → kept_of names kept.items ≡ kept_from (function_of names function.now) 0 (R.variables (function_of names function.now))) }
    ensures types { IfOk result (λ kept. (names : Names) → types_kept (kept_of names kept.items) ≡ types_in (R.variables (function_of names function.now))) }
{
    let walk = Walk::of(alloc, function)?;
    kept(alloc, &walk.types, &walk.addressed)
}
