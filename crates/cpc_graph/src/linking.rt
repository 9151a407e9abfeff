//! Where control goes on from each point of a body, one after the other in the order of the text.
ghost use Rattle.std.specs.Prelude.{◌≡◌, ℕ, ◌+◌, ◌++◌, ◌∷◌, [], List, Option, Some, None, OnOk, IfOk};
ghost use Rattle.cpc_base.specs.Bytes.{Text};
ghost use Rattle.cpc_tree.specs.Erase.{Names, stmt_of, list_of, maybe_at};
ghost use Rattle.cpc_tree.specs.Syntax.{Block};
ghost use Rattle.cpc_forms.specs.Table.{test_of};
ghost use Rattle.cpc_graph.specs.Ends.{ends_of, ends_in, ends_arm};
ghost use Rattle.cpc_graph.specs.Headers.{IsHeader};
ghost use Rattle.cpc_graph.specs.Labels.{FindsLabels};
ghost use Rattle.cpc_graph.specs.Ways.{way, ways_of, ways_in, ways_arm, header_ways, one_way, onward_seen};

use crate::labels::Labels;
use crate::numbers::{first, is_last, rest};
use crate::onward::{Onward, Way, going_to, looping, only, to_arm, to_rest, turn};
use cpc_base::{NoMemory, behind, is_none};
use cpc_tree::program::Statement;
use std::alloc::Global;

/// The number of the test of a `for`, that at which its body begins, and what is left of the numbers that were noted.
#[derive(Clone, Copy)]
struct Header<'e> {
    test: usize,
    start: usize,
    left: &'e [usize],
}

// One more way.
fn push(way: Way, ways: &mut Vec<Way>) -> Result<(), NoMemory>
    ensures { OnOk result (ways.new.items ≡ ways.old.items ++ way ∷ []) }
{
    ways.push(way)?;
    Ok(())
}

// The ways from a call or a section, and from the arrival of its value.
fn push_call(w: Onward<'_>, ways: &mut Vec<Way>) -> Result<(), NoMemory>
    ensures { OnOk result (ways.new.items ≡ ways.old.items ++ record { yes = w.entry.next; no = w.entry.next } ∷ record { yes = w.entry.next; no = w.entry.next } ∷ []) }
{
    push(only(w.next), ways)?;
    push(only(w.next), ways)
}

// The way from a statement that is one point.
fn simple(s: &Statement, w: Onward<'_>) -> Way
    ensures { (names : Names) (label : Text → Option ℕ) → FindsLabels names w.entry.labels.now label → result ≡ one_way (stmt_of names s.now) (onward_seen label w.entry) }
{
    match s {
        Statement::Goto { label, .. } => only(w.labels.number(label.name)),
        Statement::Break { .. } => only(w.broken),
        Statement::Continue { .. } => only(w.continued),
        Statement::Return { .. } => only(None),
        _ => only(w.next),
    }
}

/// The ways from the points of a statement whose first one has this number, where these numbers were noted of it and of what comes behind
/// it; what is left of them. `NoMemory` is want of memory.
#[cycle(linked)]
pub(crate) fn link<'e>(
    s: &Statement,
    n: usize,
    ends: &'e [usize],
    w: Onward<'_>,
    ways: &mut Vec<Way>,
) -> Result<&'e [usize], NoMemory>
    ensures left { IfOk result (λ left. (names : Names) (more : List ℕ) → ends.now ≡ ends_of (stmt_of names s.now) n ++ more → left.now ≡ more) }
    ensures ways { OnOk result ((names : Names) (label : Text → Option ℕ) (more : List ℕ) → FindsLabels names w.entry.labels.now label → ends.now ≡ ends_of (stmt_of names s.now) n ++ more
        → ways.new.items ≡ ways.old.items ++ ways_of (stmt_of names s.now) n (onward_seen label w.entry)) }
{
    match s {
        Statement::Block { inner, .. } => link_block(inner, n, ends, w, ways),
        Statement::Call { .. } | Statement::Detach { .. } => {
            push_call(w, ways)?;
            Ok(ends)
        }
        Statement::If { yes, no, .. } => {
            let start = behind(n)?;
            let other = first(ends);
            push(
                Way {
                    yes: Some(start),
                    no: to_arm(no, other, w.next),
                },
                ways,
            )?;
            let ends = link(yes, start, rest(ends), w, ways)?;
            link_arm(no, other, ends, w, ways)
        }
        Statement::While { body, .. } => {
            let start = behind(n)?;
            push(
                Way {
                    yes: Some(start),
                    no: w.next,
                },
                ways,
            )?;
            link(body, start, ends, looping(n, w), ways)
        }
        Statement::DoWhile { body, .. } => {
            let ends = link(body, n, rest(ends), looping(first(ends), w), ways)?;
            push(
                Way {
                    yes: Some(n),
                    no: w.next,
                },
                ways,
            )?;
            Ok(ends)
        }
        Statement::For {
            first,
            step,
            body,
            ..
        } => {
            let header = link_header(first, n, ends, w, ways)?;
            let after = behind(header.test)?;
            let left = link_arm(step, after, header.left, going_to(header.test, w), ways)?;
            let turn = turn(step, header.test, after);
            link(body, header.start, left, looping(turn, w), ways)
        }
        Statement::Label { inner, .. } => link(inner, n, ends, w, ways),
        _ => {
            push(simple(s, w), ways)?;
            Ok(ends)
        }
    }
}

// The same of a block; one without statements is itself a point.
#[cycle(linked)]
fn link_block<'e>(
    row: &[Statement],
    n: usize,
    ends: &'e [usize],
    w: Onward<'_>,
    ways: &mut Vec<Way>,
) -> Result<&'e [usize], NoMemory>
    ensures left { IfOk result (λ left. (names : Names) (more : List ℕ) → ends.now ≡ ends_of (Block (list_of names row.now)) n ++ more → left.now ≡ more) }
    ensures ways { OnOk result ((names : Names) (label : Text → Option ℕ) (more : List ℕ) → FindsLabels names w.entry.labels.now label → ends.now ≡ ends_of (Block (list_of names row.now)) n ++ more
        → ways.new.items ≡ ways.old.items ++ ways_of (Block (list_of names row.now)) n (onward_seen label w.entry)) }
{
    if is_none(row) {
        push(only(w.next), ways)?;
        Ok(ends)
    } else {
        link_row(row, n, ends, w, ways)
    }
}

// The same of the first part of a `for` and its test.
#[cycle(linked)]
fn link_header<'e>(
    row: &[Statement],
    n: usize,
    ends: &'e [usize],
    w: Onward<'_>,
    ways: &mut Vec<Way>,
) -> Result<Header<'e>, NoMemory>
    ensures header { IfOk result (λ header. (names : Names) (start : ℕ) (more : List ℕ) → ends.now ≡ test_of (list_of names row.now) n ∷ (ends_in (list_of names row.now) n ++ (start ∷ more))
        → IsHeader header (list_of names row.now) n start more) }
    ensures ways { OnOk result ((names : Names) (label : Text → Option ℕ) (start : ℕ) (more : List ℕ) → FindsLabels names w.entry.labels.now label
        → ends.now ≡ test_of (list_of names row.now) n ∷ (ends_in (list_of names row.now) n ++ (start ∷ more))
        → ways.new.items ≡ ways.old.items ++ header_ways (list_of names row.now) n start (onward_seen label w.entry)) }
{
    let test = first(ends);
    let left = link_row(row, n, rest(ends), going_to(test, w), ways)?;
    let start = first(left);
    push(
        Way {
            yes: Some(start),
            no: w.next,
        },
        ways,
    )?;
    let left = rest(left);
    Ok(Header { test, start, left })
}

// The same of a row of statements, each of whose numbers was noted.
#[cycle(linked)]
fn link_row<'e>(
    row: &[Statement],
    n: usize,
    ends: &'e [usize],
    w: Onward<'_>,
    ways: &mut Vec<Way>,
) -> Result<&'e [usize], NoMemory>
    ensures left { IfOk result (λ left. (names : Names) (more : List ℕ) → ends.now ≡ ends_in (list_of names row.now) n ++ more → left.now ≡ more) }
    ensures ways { OnOk result ((names : Names) (label : Text → Option ℕ) (more : List ℕ) → FindsLabels names w.entry.labels.now label → ends.now ≡ ends_in (list_of names row.now) n ++ more
        → ways.new.items ≡ ways.old.items ++ ways_in (list_of names row.now) n (onward_seen label w.entry)) }
{
    let mut next = n;
    let mut left = ends;
    for (i, s) in row.iter().enumerate() {
        let after = first(left);
        let to = to_rest(is_last(row, i), after, w);
        left = link(s, next, rest(left), to, ways)?;
        next = after;
    }
    Ok(left)
}

// The same of a statement that may be absent.
#[cycle(linked)]
fn link_arm<'e>(
    arm: &Option<Box<Statement>>,
    n: usize,
    ends: &'e [usize],
    w: Onward<'_>,
    ways: &mut Vec<Way>,
) -> Result<&'e [usize], NoMemory>
    ensures left { IfOk result (λ left. (names : Names) (more : List ℕ) → ends.now ≡ ends_arm (maybe_at names arm.now) n ++ more → left.now ≡ more) }
    ensures ways { OnOk result ((names : Names) (label : Text → Option ℕ) (more : List ℕ) → FindsLabels names w.entry.labels.now label → ends.now ≡ ends_arm (maybe_at names arm.now) n ++ more
        → ways.new.items ≡ ways.old.items ++ ways_arm (maybe_at names arm.now) n (onward_seen label w.entry)) }
{
    match arm {
        Some(s) => link(s, n, ends, w, ways),
        None => Ok(ends),
    }
}

/// The ways from all points of a body with these numbers and labels, whose end has this number. `NoMemory` is want of memory.
pub(crate) fn body_ways(
    alloc: Global,
    body: &Statement,
    ends: &[usize],
    end: usize,
    labels: &Labels,
) -> Result<Vec<Way>, NoMemory>
    ensures { IfOk result (λ ways. (names : Names) (label : Text → Option ℕ) → FindsLabels names labels.now label → ends.now ≡ ends_of (stmt_of names body.now) 0
        → ways.items ≡ ways_of (stmt_of names body.now) 0 (record { next = Some end; broken = None; continued = None; label = label }) ++ way None None ∷ []) }
{
    let mut ways = Vec::new(alloc);
    let onward = Onward {
        next: Some(end),
        broken: None,
        continued: None,
        labels,
    };
    link(body, 0, ends, onward, &mut ways)?;
    push(only(None), &mut ways)?;
    Ok(ways)
}
