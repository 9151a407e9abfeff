//! Parts of items that are made.
ghost use Rattle.std.specs.Prelude.{◌≡◌, ◌∷◌, [], Some, map, IfOk};
ghost use Rattle.cpc_tree.specs.Erase as E;
ghost use Rattle.cpc_tree.specs.Erase.{Table, type_of, field_of, parameter_of};
ghost use Rattle.cpc_tree.specs.Syntax as S;
ghost use Rattle.cpc_chains_store_laws.specs.Driver as D;
ghost use Rattle.cpc_convert_routines.specs.Names.{pointer_name};
ghost use Rattle.cpc_chains_event.specs.Pieces as P;
ghost use Rattle.cpc_chains_event.specs.Pieces.{called_so};
ghost use Rattle.cpc_convert_names.specs.Book.{IsBook};

use cpc_base::{Name, NoMemory, Place};
use cpc_chains_lines::any_pointer;
use cpc_convert_names::Book;
use cpc_shapes::copy_of;
use cpc_tree::program::{CType, Field, Parameter, Word};
use std::alloc::Global;

/// A field.
pub(crate) fn field(place: Place, name: Name, of: CType) -> Field
    ensures { (to : E.Names) → field_of to result ≡ called_so (to name) (type_of to of) }
{
    Field {
        word: Word { place, name },
        of,
    }
}

/// A parameter with a name.
pub(crate) fn parameter(place: Place, name: Name, of: CType) -> Parameter
    ensures { (to : E.Names) → parameter_of to result ≡ P.parameter_of (called_so (to name) (type_of to of)) }
{
    Parameter {
        word: Some(Word { place, name }),
        of,
    }
}

// The type of the code of a piece. `NoMemory` is want of memory.
fn piece_type(alloc: Global) -> Result<CType, NoMemory>
    ensures { IfOk result (λ t. (to : E.Names) → type_of to t ≡ D.piece_type) }
{
    let given = Box::new(alloc, any_pointer(alloc)?)?;
    let mut parameters = Vec::new(alloc);
    parameters.push(any_pointer(alloc)?)?;
    Ok(CType::Code {
        result: given,
        parameters,
    })
}

/// The fields that each frame begins with, where a value of this type arrives. `NoMemory` is want of memory.
pub(crate) fn head_fields(
    alloc: Global,
    place: Place,
    book: &Book<'_>,
    of: CType,
) -> Result<Vec<Field>, NoMemory>
    ensures { IfOk result (λ fs. (source : Table) (to : E.Names) → IsBook source to book.now → map (field_of to) fs.items ≡ D.head_fields (type_of to of) []) }
{
    let mut fields = Vec::new(alloc);
    fields.push(field(place, book.own.code, piece_type(alloc)?))?;
    fields.push(field(place, book.own.next, any_pointer(alloc)?))?;
    fields.push(field(place, book.own.value, of))?;
    Ok(fields)
}

/// The parameter of a piece. `NoMemory` is want of memory.
pub(crate) fn pointer_parameters(
    alloc: Global,
    place: Place,
    book: &Book<'_>,
) -> Result<Vec<Parameter>, NoMemory>
    ensures { IfOk result (λ ps. (source : Table) (to : E.Names) → IsBook source to book.now → map (parameter_of to) ps.items ≡ P.parameter_of (called_so pointer_name D.any_pointer) ∷ []) }
{
    let mut parameters = Vec::new(alloc);
    parameters.push(parameter(place, book.own.pointer, any_pointer(alloc)?))?;
    Ok(parameters)
}

// A field as a parameter. `NoMemory` is want of memory.
fn parameter_at(alloc: Global, field: &Field) -> Result<Parameter, NoMemory>
    ensures { IfOk result (λ p. (to : E.Names) → parameter_of to p ≡ P.parameter_of (field_of to field.now)) }
{
    Ok(Parameter {
        word: Some(field.word),
        of: copy_of(alloc, &field.of)?,
    })
}

/// Fields as parameters. `NoMemory` is want of memory.
pub(crate) fn parameters_of(alloc: Global, fields: &[Field]) -> Result<Vec<Parameter>, NoMemory>
    ensures { IfOk result (λ ps. (to : E.Names) → map (parameter_of to) ps.items ≡ map P.parameter_of (map (field_of to) fields.now)) }
{
    let mut parameters = Vec::new(alloc);
    for field in fields {
        parameters.push(parameter_at(alloc, field)?)?;
    }
    Ok(parameters)
}
