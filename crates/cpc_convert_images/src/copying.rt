//! Copies of expressions.
ghost use Rattle.std.specs.Prelude.{◌≡◌, None, IfOk, option_map};
ghost use Rattle.cpc_tree.specs.Erase.{Names, expr_of, exprs_of};

use crate::imaging::{image, image_if, images};
use crate::readings::Readings;
use cpc_base::NoMemory;
use cpc_tree::program::{Expr, Operand};
use std::alloc::Global;

// No variable is in scope.
fn unread() -> Readings<'static>
    ensures { result.scope ≡ None }
{
    Readings {
        variables: &[],
        locals: &[],
        scope: None,
    }
}

/// An expression once more. `NoMemory` is want of memory.
pub fn copy(alloc: Global, e: &Expr) -> Result<Expr, NoMemory>
    ensures { IfOk result (λ x. (names : Names) → expr_of names x ≡ expr_of names e.now) }
{
    let made = image(alloc, e, unread())?;
    Ok(made)
}

/// A row of expressions once more. `NoMemory` is want of memory.
pub fn copies(alloc: Global, row: &[Expr]) -> Result<Vec<Expr>, NoMemory>
    ensures { IfOk result (λ xs. (names : Names) → exprs_of names xs.items ≡ exprs_of names row.now) }
{
    let made = images(alloc, row, unread())?;
    Ok(made)
}

/// An expression that may be absent once more. `NoMemory` is want of memory.
pub fn copy_if(alloc: Global, e: &Option<Operand>) -> Result<Option<Operand>, NoMemory>
    ensures { IfOk result (λ x. (names : Names) → option_map (expr_of names) x ≡ option_map (expr_of names) e.now) }
{
    let made = image_if(alloc, e, unread())?;
    Ok(made)
}
