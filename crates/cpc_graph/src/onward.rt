//! Where control goes on.
ghost use Rattle.std.specs.Prelude.{◌≡◌, ◌+◌, ℕ, Option, if◌then◌else◌};
ghost use Rattle.cpc_base.specs.Bytes.{Text};
ghost use Rattle.cpc_tree.specs.Erase.{Names, maybe_at};
ghost use Rattle.cpc_forms.specs.Table as T;
ghost use Rattle.cpc_graph.specs.Ways.{way, onward_seen};

use crate::labels::Labels;
use cpc_tree::program::Statement;

/// The numbers of the nodes to which control goes from a node, as a test there holds or not.
#[derive(Clone, Copy)]
pub(crate) struct Way {
    pub(crate) yes: Option<usize>,
    pub(crate) no: Option<usize>,
}

/// The numbers of where control goes on: past the end of a statement, out of the loop around it, to its next turn, and to a label.
#[derive(Clone, Copy)]
pub(crate) struct Onward<'l> {
    pub(crate) next: Option<usize>,
    pub(crate) broken: Option<usize>,
    pub(crate) continued: Option<usize>,
    pub(crate) labels: &'l Labels,
}

/// To this number, whatever a test says.
pub(crate) fn only(to: Option<usize>) -> Way
    ensures { result ≡ way to to }
{
    Way { yes: to, no: to }
}

/// Past the end to this number.
pub(crate) fn going_to<'l>(n: usize, w: Onward<'l>) -> Onward<'l>
    ensures onward { (label : Text → Option ℕ) → onward_seen label result ≡ T.going_to n (onward_seen label w.entry) }
    ensures labels { result.labels.now ≡ w.entry.labels.now }
{
    Onward {
        next: Some(n),
        broken: w.broken,
        continued: w.continued,
        labels: w.labels,
    }
}

/// In the body of a loop whose next turn begins at this number.
pub(crate) fn looping<'l>(n: usize, w: Onward<'l>) -> Onward<'l>
    ensures onward { (label : Text → Option ℕ) → onward_seen label result ≡ T.looping n (onward_seen label w.entry) }
    ensures labels { result.labels.now ≡ w.entry.labels.now }
{
    Onward {
        next: Some(n),
        broken: w.next,
        continued: Some(n),
        labels: w.labels,
    }
}

/// From a statement of a row to the rest, which begins at this number.
pub(crate) fn to_rest<'l>(is_last: bool, n: usize, w: Onward<'l>) -> Onward<'l>
    ensures onward { (label : Text → Option ℕ) → onward_seen label result ≡ (if is_last then onward_seen label w.entry else T.going_to n (onward_seen label w.entry)) }
    ensures labels { result.labels.now ≡ w.entry.labels.now }
{
    if is_last { w } else { going_to(n, w) }
}

/// To an arm that begins at this number, or past it.
pub(crate) fn to_arm(arm: &Option<Box<Statement>>, n: usize, past: Option<usize>) -> Option<usize>
    ensures { (names : Names) → result ≡ T.to_arm (maybe_at names arm.now) n past }
{
    match arm {
        Some(_) => Some(n),
        None => past,
    }
}

/// Where the next turn of a `for` begins, whose test has this number, and the step the number behind it.
pub(crate) fn turn(step: &Option<Box<Statement>>, test: usize, behind: usize) -> usize
    ensures { (names : Names) → behind ≡ test + 1 → result ≡ T.turn (maybe_at names step.now) test }
{
    match step {
        Some(_) => behind,
        None => test,
    }
}
