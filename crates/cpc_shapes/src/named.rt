//! Which expressions are names.
ghost use Rattle.std.specs.Prelude.{◌≡◌};
ghost use Rattle.cpc_tree.specs.Erase.{Names, expr_of};
ghost use Rattle.cpc_shapes.specs.Forms.{is_named};

use cpc_tree::program::Expr;

/// Whether an expression is a name.
pub fn is_named(e: &Expr) -> bool
    ensures { (names : Names) → result ≡ is_named (expr_of names e.now) }
{
    match e {
        Expr::Name(_) => true,
        _ => false,
    }
}
