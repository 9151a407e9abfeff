//! `break` and `continue` that stand in no loop.
ghost use Rattle.std.specs.Prelude.{◌≡◌};
ghost use Rattle.cpc_tree.specs.Erase.{Names};
ghost use Rattle.cpc_tree.specs.Locate.{located_stmt, located_list};
ghost use Rattle.cpc_check_rules.specs.FunctionRules.{stray_breaks, stray_in};
ghost use Rattle.cpc_check_rules.specs.Noted.{noted, first_of};

use cpc_check_rules::{First, Rule};
use cpc_tree::program::Statement;

/// Notes each `break` and `continue` that has no loop around it.
#[cycle(strays)]
pub fn loop_rules(first: &mut First, body: &Statement)
    ensures { (names : Names) → first_of first.new ≡ noted (first_of first.old) (stray_breaks (located_stmt names body.now)) }
{
    match body {
        Statement::Block { inner, .. } => stray_row(first, inner),
        Statement::If { yes, no, .. } => {
            loop_rules(first, yes);
            match no {
                Some(no) => loop_rules(first, no),
                None => {}
            }
        }
        Statement::Label { inner, .. } => loop_rules(first, inner),
        Statement::Break { place } | Statement::Continue { place } => {
            first.note(*place, Rule::Stray)
        }
        _ => {}
    }
}

/// Notes those of a row of statements.
#[cycle(strays)]
fn stray_row(first: &mut First, row: &[Statement])
    ensures { (names : Names) → first_of first.new ≡ noted (first_of first.old) (stray_in (located_list names row.now)) }
{
    for s in row {
        loop_rules(first, s);
    }
}
