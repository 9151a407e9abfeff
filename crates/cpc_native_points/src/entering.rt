//! Where statements begin: paths that are put behind a path that has room for them.
ghost use Rattle.std.specs.Prelude.{◌≡◌, ◌≤◌, ◌+◌, ◌++◌, ◌∷◌, [], length, vec_len, vec_capacity};
ghost use Rattle.cpc_tree.specs.Erase.{Names, stmt_of, list_of};
ghost use Rattle.cpc_tree.specs.Points as P;
ghost use Rattle.cpc_native_points.specs.Seen.{path_of};
ghost use Rattle.cpc_native_points.specs.Parts.{entered};
ghost use Rattle.cpc_native_points.specs.Depth.{numbers};

use crate::parts::Part;
use cpc_tree::program::Statement;

/// Puts the path to where the statement begins behind the path.
#[cycle(entered)]
pub(crate) fn enter(s: &Statement, path: &mut Vec<Part>)
    requires room { vec_len path.old + length (P.enter (stmt_of numbers s.now)) ≤ vec_capacity path.old }
    ensures items { (names : Names) → path_of path.new.items ≡ path_of path.old.items ++ P.enter (stmt_of names s.now) }
    ensures capacity { vec_capacity path.new ≡ vec_capacity path.old }
{
    match s {
        Statement::Block { inner, .. } => enter_row(inner, path, None),
        Statement::If { .. } => path.push_reserved(Part::Test),
        Statement::While { .. } => path.push_reserved(Part::Test),
        Statement::DoWhile { body, .. } => {
            path.push_reserved(Part::Body);
            enter(body, path)
        }
        Statement::For { first, .. } => enter_row(first, path, Some(Part::Test)),
        Statement::Label { inner, .. } => {
            path.push_reserved(Part::Body);
            enter(inner, path)
        }
        _ => {}
    }
}

/// The same of the first of a row, or else of a part that stands in for it.
#[cycle(entered)]
fn enter_row(row: &[Statement], path: &mut Vec<Part>, otherwise: Option<Part>)
    requires room { vec_len path.old + length (entered (list_of numbers row.now) otherwise) ≤ vec_capacity path.old }
    ensures items { (names : Names) → path_of path.new.items ≡ path_of path.old.items ++ entered (list_of names row.now) otherwise }
    ensures capacity { vec_capacity path.new ≡ vec_capacity path.old }
{
    match row {
        [s, ..] => {
            path.push_reserved(Part::Nth(0));
            enter(s, path)
        }
        [] => match otherwise {
            Some(part) => path.push_reserved(part),
            None => {}
        },
    }
}
