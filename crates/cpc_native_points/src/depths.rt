//! How deep the points of statements stand. Numbers stand still at `usize::MAX`.
ghost use Rattle.std.specs.Prelude.{◌≡◌};
ghost use Rattle.cpc_tree.specs.Erase.{Names, stmt_of, list_of, maybe_at};
ghost use Rattle.cpc_native_points.specs.Depth.{depth, depth_row, depth_arm, capped};

use cpc_tree::program::Statement;

/// The most parts that the path of a point of a statement has.
#[cycle(measured)]
pub(crate) fn depth_of(s: &Statement) -> usize
    ensures { (names : Names) → result ≡ capped (depth (stmt_of names s.now)) }
{
    match s {
        Statement::Block { inner, .. } => depth_of_row(inner),
        Statement::If { yes, no, .. } => {
            let most = depth_of(yes).max(depth_of_arm(no));
            most.saturating_add(1)
        }
        Statement::While { body, .. } | Statement::DoWhile { body, .. } => {
            depth_of(body).saturating_add(1)
        }
        Statement::For {
            first,
            step,
            body,
            ..
        } => {
            let most = depth_of_arm(step).max(depth_of(body));
            depth_of_row(first).max(most.saturating_add(1))
        }
        Statement::Label { inner, .. } => depth_of(inner).saturating_add(1),
        _ => 0,
    }
}

// The same of a path that begins with one of a row.
#[cycle(measured)]
fn depth_of_row(row: &[Statement]) -> usize
    ensures { (names : Names) → result ≡ capped (depth_row (list_of names row.now)) }
{
    let mut most = 0usize;
    for s in row {
        most = most.max(depth_of(s).saturating_add(1));
    }
    most
}

// The same of a path in an arm or a step that may be absent.
#[cycle(measured)]
fn depth_of_arm(arm: &Option<Box<Statement>>) -> usize
    ensures { (names : Names) → result ≡ capped (depth_arm (maybe_at names arm.now)) }
{
    match arm {
        Some(s) => depth_of(s),
        None => 0,
    }
}
