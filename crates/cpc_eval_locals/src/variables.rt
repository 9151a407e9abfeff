//! The variables of a function, with copies of their types.
ghost use Rattle.std.specs.Prelude.{◌≡◌, IfOk};
ghost use Rattle.cpc_tree.specs.Erase.{Names, type_of, function_of};
ghost use Rattle.cpc_tree.specs.Registers as R;
ghost use Rattle.cpc_eval_variables.specs.Kept.{kept_from, kept_of, types_kept};
ghost use Rattle.cpc_eval_variables.specs.Told.{IsTold};
ghost use Rattle.cpc_eval_variables.specs.Typed.{types_in};
ghost use Rattle.cpc_eval_locals.specs.Kept.{kept_by, kept_one};

use cpc_base::NoMemory;
use cpc_eval_variables::{Variable as Found, variables};
use cpc_shapes::copy_of;
use cpc_tree::program::{CType, Function};
use std::alloc::Global;

/// A parameter or a local of a function: its type, and whether it is a register. One that is no register has a block of
/// cells.
#[derive(Drop)]
pub struct Variable {
    pub of: CType,
    pub is_register: bool,
}

// A variable, with a copy of its type. `NoMemory` is want of memory.
fn copied(alloc: Global, found: Found<'_>) -> Result<Variable, NoMemory>
    ensures { IfOk result (λ variable. (names : Names) → kept_one names variable ≡ (type_of names found.entry.of.now, found.entry.is_register)) }
{
    let of = copy_of(alloc, found.of)?;
    Ok(Variable {
        of,
        is_register: found.is_register,
    })
}

// Variables, with copies of their types. `NoMemory` is want of memory.
fn all_copied(alloc: Global, found: &[Found<'_>]) -> Result<Vec<Variable>, NoMemory>
    ensures { IfOk result (λ all. (names : Names) → kept_by names all.items ≡ kept_of names found.now) }
{
    let mut all = Vec::new(alloc);
    for variable in found {
        let variable = copied(alloc, *variable)?;
        all.push(variable)?;
    }
    Ok(all)
}

/// The variables of a function in order: its parameters, and then its locals in the order of the text. `NoMemory` is want of
/// memory.
pub(crate) fn variables_of(alloc: Global, function: &Function) -> Result<Vec<Variable>, NoMemory>
    ensures kept { IfOk result (λ all. (names : Names) → IsTold names function.now.parameters.items
        → kept_by names all.items ≡ kept_from (function_of names function.now) 0 (R.variables (function_of names function.now))) }
    ensures types { IfOk result (λ all. (names : Names) → types_kept (kept_by names all.items) ≡ types_in (R.variables (function_of names function.now))) }
{
    let found = variables(alloc, function)?;
    all_copied(alloc, &found)
}
