//! Control in a body: where it begins, where it goes, and what stands where it is.
ghost use Rattle.std.specs.Prelude.{◌≡◌, ◌≤◌, ◌+◌, ◌-◌, suc, length, ◌∷◌, [], ℕ, IfSome, vec_len, vec_capacity};
ghost use Rattle.cpc_tree.specs.Erase.{Names, stmt_of};
ghost use Rattle.cpc_tree.specs.Points as P;
ghost use Rattle.cpc_check_rules.specs.Apart.{AreApart};
ghost use Rattle.cpc_native_points.specs.Bodies.{body_of};
ghost use Rattle.cpc_native_points.specs.Seen.{part_of, path_of, point_of};
ghost use Rattle.cpc_native_points.specs.Depth.{deep, numbers};
ghost use Rattle.cpc_native_points.specs.Leads.{Leads, Goes, HasRoom, begun};
ghost use Rattle.cpc_native_points.specs.Finds.{found_of, test_of};

use crate::entering::enter;
use crate::labels::Labels;
use crate::moves::{Move, child, nth, step};
use crate::parts::{Part, Phase, Point};
use cpc_base::Name;
use cpc_tree::program::{Expr, Statement};

/// What stands at a path.
#[derive(Clone, Copy)]
pub enum Found<'a> {
    /// A simple statement.
    Simple(&'a Statement),
    /// A statement that does nothing.
    Empty,
    /// A test; a `for` may have none.
    Test(Option<&'a Expr>),
    /// No simple statement and no test: there is no such point.
    Nothing,
}

/// What stands at a statement that no part of is taken.
fn simple(s: &Statement) -> Found<'_>
    ensures { (names : Names) → found_of names result ≡ P.found (stmt_of names s.now) [] }
{
    match s {
        Statement::Block { inner, .. } => match nth(inner, 0) {
            None => Found::Empty,
            Some(_) => Found::Nothing,
        },
        Statement::If { .. }
        | Statement::While { .. }
        | Statement::DoWhile { .. }
        | Statement::For { .. }
        | Statement::Label { .. } => Found::Nothing,
        _ => Found::Simple(s),
    }
}

/// What stands at a part that is no statement.
fn test_at(s: &Statement, part: Part) -> Found<'_>
    ensures { (names : Names) → found_of names result ≡ test_of (stmt_of names s.now) (part_of part) }
{
    match part {
        Part::Test => match s {
            Statement::If { test, .. }
            | Statement::While { test, .. }
            | Statement::DoWhile { test, .. } => Found::Test(Some(test.expr())),
            Statement::For { test, .. } => match test {
                Some(test) => Found::Test(Some(test.expr())),
                None => Found::Test(None),
            },
            _ => Found::Nothing,
        },
        _ => Found::Nothing,
    }
}

/// What stands at a path in a statement.
pub fn standing<'a>(s: &'a Statement, path: &[Part]) -> Found<'a>
    ensures { (names : Names) → found_of names result ≡ P.found (stmt_of names s.now) (path_of path.now) }
{
    match path.split_first() {
        None => simple(s),
        Some((part, rest)) => match child(s, *part) {
            Some(inner) => standing(inner, rest),
            None => {
                if rest.is_empty() {
                    test_at(s, *part)
                } else {
                    Found::Nothing
                }
            }
        },
    }
}

/// Puts the point where the body begins. It has room for every path of the body, and keeps it.
pub fn begin(body: &Statement, point: &mut Point)
    requires room { deep body.now ≤ vec_capacity point.old.path }
    ensures point { (names : Names) → point_of point.new ≡ P.begin (stmt_of names body.now) }
    ensures room { vec_capacity point.new.path ≡ vec_capacity point.old.path }
{
    point.path.clear();
    point.phase = Phase::Here;
    enter(body, &mut point.path)
}

/// Puts other parts in place of so many at the end of the path, which has room for them.
fn replace(path: &mut Vec<Part>, dropped: usize, part: Part, target: Option<&Statement>)
    requires room { (vec_len path.old - dropped) + suc (length (begun numbers target)) ≤ vec_capacity path.old }
    ensures path { (names : Names) (m : P.Move) → Goes (path_of path.old.items) dropped (part_of part ∷ begun names target.entry) m → m ≡ P.Into (path_of path.new.items) }
    ensures capacity { vec_capacity path.new ≡ vec_capacity path.old }
{
    let kept = path.len().saturating_sub(dropped);
    path.truncate(kept);
    path.push_reserved(part);
    match target {
        Some(target) => enter(target, path),
        None => {}
    }
}

/// Puts the point where a move in the body leads. It has room for every path of the body.
fn go(labels: &Labels<'_>, point: &mut Point, m: Move<'_>)
    requires room { deep (body_of labels.now) ≤ vec_capacity point.old.path }
    requires fits { HasRoom (vec_capacity point.old.path) (vec_len point.old.path) m }
    ensures point { (names : Names) (w : P.Move) → AreApart names → Leads names (path_of point.old.path.items) m.entry w → IfSome (P.arrived (stmt_of names (body_of labels.now)) w) (λ q. point_of point.new ≡ q) }
    ensures room { vec_capacity point.new.path ≡ vec_capacity point.old.path }
{
    match m {
        Move::Into {
            dropped,
            part,
            target,
        } => {
            point.phase = Phase::Here;
            replace(&mut point.path, dropped, part, target)
        }
        Move::ToLabel(label) => {
            point.phase = Phase::Here;
            labels.find(label, &mut point.path)
        }
        _ => point.phase = Phase::End,
    }
}

/// Puts the point where control goes from it in the body with these labels, when a test there holds or not; at the end of
/// the body it is the end. From an arrival control goes where it goes from the statement. Where there is no way on, nothing
/// is said. The point has room for every path of the body, and keeps it; so no memory is taken.
pub fn after(labels: &Labels<'_>, point: &mut Point, holds: bool)
    requires room { deep (body_of labels.now) ≤ vec_capacity point.old.path }
    ensures point { (names : Names) → AreApart names → IfSome (P.next_point (stmt_of names (body_of labels.now)) (point_of point.old) holds) (λ q. point_of point.new ≡ q) }
    ensures room { vec_capacity point.new.path ≡ vec_capacity point.old.path }
{
    match point.phase {
        Phase::End => {}
        Phase::Here | Phase::Arrival => {
            let m = step(labels.body(), &point.path, holds);
            go(labels, point, m)
        }
    }
}
