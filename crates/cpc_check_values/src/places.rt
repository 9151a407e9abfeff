//! Where expressions begin.
ghost use Rattle.std.specs.Prelude.{◌≡◌};
ghost use Rattle.cpc_tree.specs.Erase.{Names};
ghost use Rattle.cpc_tree.specs.Locate.{located_expr};
ghost use Rattle.cpc_check_rules.specs.Operators as O;

use cpc_base::Place;
use cpc_tree::program::Expr;

/// The first token of an expression, after parentheses round it.
pub fn first_place(e: &Expr) -> Place
    ensures { (names : Names) → result ≡ O.first (located_expr names e.now) }
{
    match e {
        Expr::Name(word) => word.place,
        Expr::Integer { place, .. } => *place,
        Expr::Character { place, .. } => *place,
        Expr::Text { place, .. } => *place,
        Expr::Unary { place, .. } => *place,
        Expr::Cast { place, .. } => *place,
        Expr::SizeOf { place, .. } => *place,
        Expr::Binary { left, .. } => first_place(left),
        Expr::And { left, .. } => first_place(left),
        Expr::Or { left, .. } => first_place(left),
        Expr::Choose { test, .. } => first_place(test),
        Expr::Index { operand, .. } => first_place(operand),
        Expr::Member { operand, .. } => first_place(operand),
        Expr::Arrow { operand, .. } => first_place(operand),
        Expr::CallIn { function, .. } => first_place(function),
    }
}
