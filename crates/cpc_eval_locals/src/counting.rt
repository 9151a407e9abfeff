//! How many locals statements declare. Numbers stand still at `u64::MAX`.
ghost use Rattle.std.specs.Prelude.{◌≡◌, length};
ghost use Rattle.cpc_tree.specs.Erase.{Names, stmt_of, list_of};
ghost use Rattle.cpc_tree.specs.Points as P;
ghost use Rattle.cpc_eval_values.specs.Counted.{capped};

use cpc_tree::program::Statement;

/// How many locals a statement declares.
#[cycle(declared)]
pub(crate) fn declared(statement: &Statement) -> u64
    ensures { (names : Names) → result ≡ capped (P.declared (stmt_of names statement.now)) }
{
    match statement {
        Statement::Block { inner, .. } => declared_in(inner),
        Statement::Declare { .. } => 1,
        Statement::If { yes, no, .. } => {
            let count = declared(yes);
            match no {
                Some(no) => count.saturating_add(declared(no)),
                None => count,
            }
        }
        Statement::While { body, .. } | Statement::DoWhile { body, .. } => declared(body),
        Statement::For { first, body, .. } => declared_in(first).saturating_add(declared(body)),
        Statement::Label { inner, .. } => declared(inner),
        _ => 0,
    }
}

// How many locals the statements of a row declare.
#[cycle(declared)]
fn declared_in(row: &[Statement]) -> u64
    ensures { (names : Names) → result ≡ capped (length (P.locals_in (list_of names row.now))) }
{
    let mut count = 0u64;
    for statement in row {
        count = count.saturating_add(declared(statement));
    }
    count
}
