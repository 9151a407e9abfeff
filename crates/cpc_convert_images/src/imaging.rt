//! Images of expressions.
ghost use Rattle.std.specs.Prelude.{◌≡◌, ℕ, Bool, IfOk, option_map};
ghost use Rattle.cpc_tree.specs.Erase as E;
ghost use Rattle.cpc_tree.specs.Erase.{expr_of, exprs_of};
ghost use Rattle.cpc_convert_image_laws.specs.Images as I;
ghost use Rattle.cpc_convert_images.specs.Readings.{Reads, readings_by};

use crate::readings::{Readings, read_name};
use cpc_base::NoMemory;
use cpc_shapes::copy_of;
use cpc_tree::program::{Expr, Operand};
use std::alloc::Global;

/// An expression with each name as it is read. `NoMemory` is want of memory.
#[cycle(imaged)]
pub fn image(alloc: Global, e: &Expr, readings: Readings<'_>) -> Result<Expr, NoMemory>
    ensures { IfOk result (λ x. (from to : E.Names) (marks : ℕ → Bool) → Reads from to marks readings.entry → expr_of from e.now ≡ expr_of to e.now
        → expr_of to x ≡ I.image (readings_by from marks readings.entry) (expr_of from e.now)) }
{
    match e {
        Expr::Name(word) => read_name(alloc, *word, readings),
        Expr::Integer { place, kind, value } => Ok(Expr::Integer {
            place: *place,
            kind: *kind,
            value: *value,
        }),
        Expr::Character { place, value } => Ok(Expr::Character {
            place: *place,
            value: *value,
        }),
        Expr::Text { place, bytes } => Ok(Expr::Text {
            place: *place,
            bytes: Vec::from_slice(alloc, bytes)?,
        }),
        Expr::Unary { place, op, operand } => Ok(Expr::Unary {
            place: *place,
            op: *op,
            operand: boxed(alloc, operand, readings)?,
        }),
        Expr::Binary {
            place,
            op,
            left,
            right,
        } => {
            let left = boxed(alloc, left, readings)?;
            let right = boxed(alloc, right, readings)?;
            Ok(Expr::Binary {
                place: *place,
                op: *op,
                left,
                right,
            })
        }
        Expr::And { place, left, right } => {
            let left = boxed(alloc, left, readings)?;
            let right = boxed(alloc, right, readings)?;
            Ok(Expr::And {
                place: *place,
                left,
                right,
            })
        }
        Expr::Or { place, left, right } => {
            let left = boxed(alloc, left, readings)?;
            let right = boxed(alloc, right, readings)?;
            Ok(Expr::Or {
                place: *place,
                left,
                right,
            })
        }
        Expr::Choose {
            place,
            test,
            yes,
            no,
        } => {
            let test = boxed(alloc, test, readings)?;
            let yes = boxed(alloc, yes, readings)?;
            let no = boxed(alloc, no, readings)?;
            Ok(Expr::Choose {
                place: *place,
                test,
                yes,
                no,
            })
        }
        Expr::Cast {
            place,
            target,
            operand,
        } => {
            let operand = boxed(alloc, operand, readings)?;
            Ok(Expr::Cast {
                place: *place,
                target: copy_of(alloc, target)?,
                operand,
            })
        }
        Expr::SizeOf { place, target } => Ok(Expr::SizeOf {
            place: *place,
            target: copy_of(alloc, target)?,
        }),
        Expr::Index {
            place,
            operand,
            index,
        } => {
            let operand = boxed(alloc, operand, readings)?;
            let index = boxed(alloc, index, readings)?;
            Ok(Expr::Index {
                place: *place,
                operand,
                index,
            })
        }
        Expr::Member {
            place,
            operand,
            field,
        } => Ok(Expr::Member {
            place: *place,
            operand: boxed(alloc, operand, readings)?,
            field: *field,
        }),
        Expr::Arrow {
            place,
            operand,
            field,
        } => Ok(Expr::Arrow {
            place: *place,
            operand: boxed(alloc, operand, readings)?,
            field: *field,
        }),
        Expr::CallIn {
            place,
            function,
            arguments,
        } => {
            let function = boxed(alloc, function, readings)?;
            let arguments = images(alloc, arguments, readings)?;
            Ok(Expr::CallIn {
                place: *place,
                function,
                arguments,
            })
        }
    }
}

// The image of an expression, in a box.
#[cycle(imaged)]
fn boxed(alloc: Global, e: &Expr, readings: Readings<'_>) -> Result<Box<Expr>, NoMemory>
    ensures { IfOk result (λ x. (from to : E.Names) (marks : ℕ → Bool) → Reads from to marks readings.entry → expr_of from e.now ≡ expr_of to e.now
        → expr_of to x.value ≡ I.image (readings_by from marks readings.entry) (expr_of from e.now)) }
{
    let made = image(alloc, e, readings)?;
    let made = Box::new(alloc, made)?;
    Ok(made)
}

/// The images of a row of expressions. `NoMemory` is want of memory.
#[cycle(imaged)]
pub fn images(alloc: Global, row: &[Expr], readings: Readings<'_>) -> Result<Vec<Expr>, NoMemory>
    ensures { IfOk result (λ xs. (from to : E.Names) (marks : ℕ → Bool) → Reads from to marks readings.entry → exprs_of from row.now ≡ exprs_of to row.now
        → exprs_of to xs.items ≡ I.images (readings_by from marks readings.entry) (exprs_of from row.now)) }
{
    let mut all = Vec::new(alloc);
    for e in row {
        let made = image(alloc, e, readings)?;
        all.push(made)?;
    }
    Ok(all)
}

/// The image of an expression that may be absent. `NoMemory` is want of memory.
pub fn image_if(
    alloc: Global,
    e: &Option<Operand>,
    readings: Readings<'_>,
) -> Result<Option<Operand>, NoMemory>
    ensures { IfOk result (λ x. (from to : E.Names) (marks : ℕ → Bool) → Reads from to marks readings.entry → option_map (expr_of from) e.now ≡ option_map (expr_of to) e.now
        → option_map (expr_of to) x ≡ I.image_if (readings_by from marks readings.entry) (option_map (expr_of from) e.now)) }
{
    match e {
        Some(e) => {
            let made = image(alloc, e.expr(), readings)?;
            Ok(Some(Operand::new(made)))
        }
        None => Ok(None),
    }
}
