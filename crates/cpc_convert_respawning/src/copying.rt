//! Copies of rows of fields and of parameters.
ghost use Rattle.std.specs.Prelude.{◌≡◌, map, IfOk};
ghost use Rattle.cpc_tree.specs.Erase as E;
ghost use Rattle.cpc_tree.specs.Erase.{field_of, parameter_of};

use cpc_base::NoMemory;
use cpc_shapes::copy_of;
use cpc_tree::program::{Field, Parameter};
use std::alloc::Global;

// A field once more. `NoMemory` is want of memory.
fn copy_field(alloc: Global, field: &Field) -> Result<Field, NoMemory>
    ensures { IfOk result (λ f. (to : E.Names) → field_of to f ≡ field_of to field.now) }
{
    Ok(Field {
        word: field.word,
        of: copy_of(alloc, &field.of)?,
    })
}

/// Fields once more. `NoMemory` is want of memory.
pub fn copy_fields(alloc: Global, fields: &[Field]) -> Result<Vec<Field>, NoMemory>
    ensures { IfOk result (λ fs. (to : E.Names) → map (field_of to) fs.items ≡ map (field_of to) fields.now) }
{
    let mut all = Vec::new(alloc);
    for field in fields {
        all.push(copy_field(alloc, field)?)?;
    }
    Ok(all)
}

// A parameter once more. `NoMemory` is want of memory.
fn copy_parameter(alloc: Global, parameter: &Parameter) -> Result<Parameter, NoMemory>
    ensures { IfOk result (λ p. (to : E.Names) → parameter_of to p ≡ parameter_of to parameter.now) }
{
    Ok(Parameter {
        word: parameter.word,
        of: copy_of(alloc, &parameter.of)?,
    })
}

/// Parameters once more. `NoMemory` is want of memory.
pub fn copy_parameters(alloc: Global, parameters: &[Parameter]) -> Result<Vec<Parameter>, NoMemory>
    ensures { IfOk result (λ ps. (to : E.Names) → map (parameter_of to) ps.items ≡ map (parameter_of to) parameters.now) }
{
    let mut all = Vec::new(alloc);
    for parameter in parameters {
        all.push(copy_parameter(alloc, parameter)?)?;
    }
    Ok(all)
}
