//! The arguments of a call, as its first frame has them.
ghost use Rattle.std.specs.Prelude.{◌≡◌, ◌++◌, map, slice_get, Some, IfOk, OnOk};
ghost use Rattle.cpc_tree.specs.Erase as E;
ghost use Rattle.cpc_tree.specs.Erase.{Table, field_of};
ghost use Rattle.cpc_tree.specs.Registers as R;
ghost use Rattle.cpc_tree.specs.Syntax as S;
ghost use Rattle.cpc_convert_routines.specs.Routines as Q;
ghost use Rattle.cpc_convert_routines.specs.Routines.{Routine};
ghost use Rattle.cpc_convert_names.specs.Called.{variables_in};
ghost use Rattle.cpc_chains_lines.specs.Around.{Stands};
ghost use Rattle.cpc_chains_items.specs.Passed.{passed_one, passed_always};

use crate::parts::field;
use cpc_base::NoMemory;
use cpc_chains_lines::{Around, local};
use cpc_forms_code::Variable;
use cpc_shapes::copy_of;
use cpc_tree::program::Field;
use std::alloc::Global;

// A parameter of a scalar type behind others. `NoMemory` is want of memory.
fn pass_value(
    alloc: Global,
    around: Around<'_>,
    fields: &mut Vec<Field>,
    number: usize,
    variable: &Variable<'_>,
) -> Result<(), NoMemory>
    ensures { OnOk result ((source : Table) (from to : E.Names) (p : S.Program) (r : Routine) → Stands source from to p r around.entry
        → slice_get (variables_in around.entry.called.now.lifted.now) number ≡ Some variable.now
        → map (field_of to) fields.new.items ≡ map (field_of to) fields.old.items ++ passed_always number (slice_get (R.variables r.function) number)) }
{
    let of = copy_of(alloc, variable.of)?;
    fields.push(field(around.place, local(around, number), of))?;
    Ok(())
}

// A parameter behind others, where its value is passed. `NoMemory` is want of memory.
fn pass(
    alloc: Global,
    around: Around<'_>,
    fields: &mut Vec<Field>,
    number: usize,
) -> Result<(), NoMemory>
    ensures { OnOk result ((source : Table) (from to : E.Names) (p : S.Program) (r : Routine) → Stands source from to p r around.entry
        → map (field_of to) fields.new.items ≡ map (field_of to) fields.old.items ++ passed_one number (slice_get (R.variables r.function) number)) }
{
    let variables = around.called.variables();
    if number >= variables.len() {
        return Ok(());
    }
    let variable = &variables[number];
    if !variable.of.is_scalar() {
        return Ok(());
    }
    pass_value(alloc, around, fields, number, variable)?;
    Ok(())
}

/// The parameters of a function, as they are passed. `NoMemory` is want of memory.
pub(crate) fn passed(alloc: Global, around: Around<'_>) -> Result<Vec<Field>, NoMemory>
    ensures { IfOk result (λ fs. (source : Table) (from to : E.Names) (p : S.Program) (r : Routine) → Stands source from to p r around.entry
        → map (field_of to) fs.items ≡ Q.passed r.function) }
{
    let mut fields = Vec::new(alloc);
    for number in 0..around.called.function().parameters.len() {
        pass(alloc, around, &mut fields, number)?;
    }
    Ok(fields)
}
