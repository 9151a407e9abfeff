//! Where control goes inside a statement.
ghost use Rattle.std.specs.Prelude.{◌≡◌, ◌∷◌, suc, length};
ghost use Rattle.cpc_tree.specs.Erase.{Names, stmt_of, list_of};
ghost use Rattle.cpc_tree.specs.Points as P;
ghost use Rattle.cpc_native_points.specs.Parts as S;
ghost use Rattle.cpc_native_points.specs.Seen.{part_of, path_of, maybe_seen};
ghost use Rattle.cpc_native_points.specs.Leads.{Leads, begun};

use crate::parts::Part;
use cpc_base::Name;
use cpc_tree::program::Statement;

/// Where control goes from a point of a statement.
#[derive(Clone, Copy)]
pub(crate) enum Move<'a> {
    /// To a part of a statement on the path, or to where the statement begins that is this part. So many parts at the
    /// end of the path are given up for it.
    Into {
        dropped: usize,
        part: Part,
        target: Option<&'a Statement>,
    },
    /// Out at the statement's end.
    Out,
    /// To a label.
    ToLabel(Name),
    /// Out of the innermost loop.
    Broken,
    /// To the end of the body of the innermost loop.
    Continued,
    /// Nowhere: there is no such point, or the function is left.
    Nowhere,
}

/// The n-th of a row of statements.
pub(crate) fn nth(row: &[Statement], n: usize) -> Option<&Statement>
    ensures { (names : Names) → maybe_seen names result ≡ S.nth (list_of names row.now) n }
{
    if n < row.len() { Some(&row[n]) } else { None }
}

/// The statement that a part is, if it is one.
pub(crate) fn child(s: &Statement, part: Part) -> Option<&Statement>
    ensures { (names : Names) → maybe_seen names result ≡ S.child (stmt_of names s.now) (part_of part) }
{
    match s {
        Statement::Block { inner, .. } => match part {
            Part::Nth(n) => nth(inner, n),
            _ => None,
        },
        Statement::If { yes, no, .. } => match part {
            Part::Yes => Some(yes),
            Part::No => match no {
                Some(no) => Some(no),
                None => None,
            },
            _ => None,
        },
        Statement::While { body, .. } | Statement::DoWhile { body, .. } => match part {
            Part::Body => Some(body),
            _ => None,
        },
        Statement::For {
            first,
            step,
            body,
            ..
        } => match part {
            Part::Nth(n) => nth(first, n),
            Part::Step => match step {
                Some(step) => Some(step),
                None => None,
            },
            Part::Body => Some(body),
            _ => None,
        },
        Statement::Label { inner, .. } => match part {
            Part::Body => Some(inner),
            _ => None,
        },
        _ => None,
    }
}

/// The statement at a path in a statement, if one stands there.
pub(crate) fn statement_at<'p>(s: &'p Statement, path: &[Part]) -> Option<&'p Statement>
    ensures { (names : Names) → maybe_seen names result ≡ S.statement_at (stmt_of names s.now) (path_of path.now) }
{
    let mut at = s;
    for part in path {
        at = child(at, *part)?;
    }
    Some(at)
}

/// Where control goes from a statement that no part of is taken.
fn leaf<'a>(s: &Statement) -> Move<'a>
    ensures { (names : Names) (path : P.Path) → Leads names path result (S.leaf (stmt_of names s.now)) }
{
    match s {
        Statement::Block { inner, .. } => match nth(inner, 0) {
            None => Move::Out,
            Some(_) => Move::Nowhere,
        },
        Statement::Empty { .. }
        | Statement::Declare { .. }
        | Statement::Assign { .. }
        | Statement::Call { .. }
        | Statement::Detach { .. }
        | Statement::Spawn { .. } => Move::Out,
        Statement::Goto { label, .. } => Move::ToLabel(label.name),
        Statement::Break { .. } => Move::Broken,
        Statement::Continue { .. } => Move::Continued,
        _ => Move::Nowhere,
    }
}

/// To a part, in place of so many at the end of the path.
fn into<'a>(dropped: usize, part: Part, target: Option<&'a Statement>) -> Move<'a>
    ensures { (names : Names) (path : P.Path) → dropped ≡ length path → Leads names path result (P.Into (part_of part ∷ begun names target.entry)) }
{
    Move::Into {
        dropped,
        part,
        target,
    }
}

/// To where the statement begins that is a part, or else out.
fn enter_part<'a>(dropped: usize, part: Part, target: Option<&'a Statement>) -> Move<'a>
    ensures { (names : Names) (path : P.Path) → dropped ≡ length path → Leads names path result (S.enter_part (part_of part) (maybe_seen names target.entry)) }
{
    match target {
        Some(_) => into(dropped, part, target),
        None => Move::Out,
    }
}

/// To where the statement after the n-th of a row begins, or else out.
fn enter_next(dropped: usize, row: &[Statement], n: usize) -> Move<'_>
    ensures { (names : Names) (path : P.Path) → dropped ≡ length path → Leads names path result (S.enter_part (P.Nth (suc n)) (S.nth (list_of names row.now) (suc n))) }
{
    if n < row.len() {
        enter_part(dropped, Part::Nth(n + 1), nth(row, n + 1))
    } else {
        Move::Out
    }
}

/// Where control goes when it comes out.
fn or_out<'a>(inner: Move<'a>, next: Move<'a>) -> Move<'a>
    ensures { (names : Names) (path : P.Path) (m n : P.Move) → Leads names path inner.entry m → Leads names path next.entry n → Leads names path result (P.or_out m n) }
{
    match inner {
        Move::Out => next,
        _ => inner,
    }
}

/// Out of the body of a loop.
fn loop_out<'a>(inner: Move<'a>, next: Move<'a>) -> Move<'a>
    ensures { (names : Names) (path : P.Path) (m n : P.Move) → Leads names path inner.entry m → Leads names path next.entry n → Leads names path result (P.loop_out m n) }
{
    match inner {
        Move::Out | Move::Continued => next,
        Move::Broken => Move::Out,
        _ => inner,
    }
}

/// The first, or else the second.
fn or_else<'a>(first: Move<'a>, second: Move<'a>) -> Move<'a>
    ensures { (names : Names) (path : P.Path) (m n : P.Move) → Leads names path first.entry m → Leads names path second.entry n → Leads names path result (S.or_else m n) }
{
    match first {
        Move::Nowhere => second,
        _ => first,
    }
}

/// Where control goes from the test of a statement, when it holds or not.
fn tested(s: &Statement, dropped: usize, holds: bool) -> Move<'_>
    ensures { (names : Names) (path : P.Path) → dropped ≡ length path → Leads names path result (S.tested (stmt_of names s.now) P.TheTest holds) }
{
    match s {
        Statement::If { yes, no, .. } => {
            if holds {
                into(dropped, Part::Yes, Some(yes))
            } else {
                match no {
                    Some(no) => into(dropped, Part::No, Some(no)),
                    None => Move::Out,
                }
            }
        }
        Statement::While { body, .. }
        | Statement::DoWhile { body, .. }
        | Statement::For { body, .. } => {
            if holds {
                into(dropped, Part::Body, Some(body))
            } else {
                Move::Out
            }
        }
        _ => Move::Nowhere,
    }
}

/// Where control goes from a part that is no statement.
fn at_part(s: &Statement, part: Part, dropped: usize, holds: bool) -> Move<'_>
    ensures { (names : Names) (path : P.Path) → dropped ≡ length path → Leads names path result (S.tested (stmt_of names s.now) (part_of part) holds) }
{
    match part {
        Part::Test => tested(s, dropped, holds),
        _ => Move::Nowhere,
    }
}

/// Where control goes from a part that is a statement, where it is known how it leaves that. `dropped` is how many parts
/// the path has from this one on.
fn out_of<'a>(s: &'a Statement, part: Part, dropped: usize, inner: Move<'a>) -> Move<'a>
    ensures { (names : Names) (rest : P.Path) (m : P.Move) → dropped ≡ length (part_of part ∷ rest) → Leads names rest inner.entry m
        → Leads names (part_of part ∷ rest) result (S.out_of (stmt_of names s.now) (part_of part) m) }
{
    let test = into(dropped, Part::Test, None);
    match s {
        Statement::Block { inner: row, .. } => match part {
            Part::Nth(n) => or_out(inner, enter_next(dropped, row, n)),
            _ => Move::Nowhere,
        },
        Statement::If { .. } => inner,
        Statement::Label { .. } => inner,
        Statement::While { .. } => loop_out(inner, test),
        Statement::DoWhile { .. } => loop_out(inner, test),
        Statement::For { first, step, .. } => match part {
            Part::Nth(n) => or_out(or_out(inner, enter_next(dropped, first, n)), test),
            Part::Step => or_out(inner, test),
            Part::Body => match step {
                Some(step) => loop_out(inner, into(dropped, Part::Step, Some(step))),
                None => loop_out(inner, test),
            },
            _ => Move::Nowhere,
        },
        _ => Move::Nowhere,
    }
}

/// Where control goes from the point at a path, when a test there holds or not.
pub(crate) fn step<'a>(s: &'a Statement, path: &[Part], holds: bool) -> Move<'a>
    ensures { (names : Names) → Leads names (path_of path.now) result (P.after (stmt_of names s.now) (path_of path.now) holds) }
{
    match path.split_first() {
        None => leaf(s),
        Some((part, rest)) => match child(s, *part) {
            Some(inner) => out_of(s, *part, path.len(), step(inner, rest, holds)),
            None => or_else(leaf(s), at_part(s, *part, path.len(), holds)),
        },
    }
}
