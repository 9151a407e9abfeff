//! How names are read.
ghost use Rattle.std.specs.Prelude.{◌≡◌, ℕ, Bool, Some, IfOk};
ghost use Rattle.cpc_tree.specs.Erase as E;
ghost use Rattle.cpc_tree.specs.Erase.{expr_of};
ghost use Rattle.cpc_convert_image_laws.specs.Images.{image_named};
ghost use Rattle.cpc_convert_image_laws.specs.Locals.{reading_of};
ghost use Rattle.cpc_convert_images.specs.Readings.{AreRead, Reads, readings_by};

use cpc_base::{Name, NoMemory};
use cpc_forms_code::{Variable, slot};
use cpc_tree::program::{Expr, Word};
use std::alloc::Global;

/// The variables of a function, their locals, and the innermost variable in scope. Where none is in scope, names stay.
#[derive(Clone, Copy)]
pub struct Readings<'a> {
    pub variables: &'a [Variable<'a>],
    pub locals: &'a [Name],
    pub scope: Option<usize>,
}

// A variable in its local: a register is read there, a box as the field of the struct to which the local points.
fn in_local(alloc: Global, word: Word, local: Name, is_register: bool) -> Result<Expr, NoMemory>
    ensures { IfOk result (λ x. (to : E.Names) → expr_of to x ≡ image_named (Some (reading_of is_register (to local) (to word.name))) (to word.name)) }
{
    let place = word.place;
    let name = Expr::Name(Word { place, name: local });
    if is_register {
        return Ok(name);
    }
    Ok(Expr::Arrow {
        place,
        operand: Box::new(alloc, name)?,
        field: word,
    })
}

// A name, where names are in scope. `NoMemory` is want of memory.
fn read_inside(alloc: Global, word: Word, readings: Readings<'_>) -> Result<Expr, NoMemory>
    ensures { IfOk result (λ x. (from to : E.Names) (marks : ℕ → Bool) → AreRead from to marks readings.entry → from word.name ≡ to word.name
        → expr_of to x ≡ image_named (readings_by from marks readings.entry (from word.name)) (from word.name)) }
{
    match slot(readings.variables, readings.scope, word.name) {
        None => Ok(Expr::Name(word)),
        Some(k) => match readings.variables.get(k) {
            None => Ok(Expr::Name(word)),
            Some(variable) => match readings.locals.get(k) {
                None => Ok(Expr::Name(word)),
                Some(local) => {
                    let made = in_local(alloc, word, *local, variable.is_register)?;
                    Ok(made)
                }
            },
        },
    }
}

/// A name, as it is read. `NoMemory` is want of memory.
pub(crate) fn read_name(alloc: Global, word: Word, readings: Readings<'_>) -> Result<Expr, NoMemory>
    ensures { IfOk result (λ x. (from to : E.Names) (marks : ℕ → Bool) → Reads from to marks readings.entry → from word.name ≡ to word.name
        → expr_of to x ≡ image_named (readings_by from marks readings.entry (from word.name)) (from word.name)) }
{
    match readings.scope {
        None => Ok(Expr::Name(word)),
        Some(_) => {
            let made = read_inside(alloc, word, readings)?;
            Ok(made)
        }
    }
}
