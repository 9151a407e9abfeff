//! What a name stands for at a path, by the marks of a body. Numbers stand still at `u64::MAX`.
ghost use Rattle.std.specs.Prelude.{◌≡◌, ◌+◌, ◌<◌, ◌^◌, ◌∷◌, length, List, Some, slice_get};
ghost use Rattle.cpc_base.specs.Bytes.{Text};
ghost use Rattle.cpc_tree.specs.Erase.{Names, type_of};
ghost use Rattle.cpc_tree.specs.Points.{Path};
ghost use Rattle.cpc_shapes.specs.Apart.{AreApart};
ghost use Rattle.cpc_native_points.specs.Seen.{part_of, path_of};
ghost use Rattle.cpc_eval_locals.specs.Marks as M;
ghost use Rattle.cpc_eval_locals.specs.Seen.{own_seen, mark_seen, marks_seen};
ghost use Rattle.cpc_eval_locals.specs.Locals.{held_of, way_of, look_from, look_next};

use crate::marks::{Key, Mark, Own};
use cpc_base::Name;
use cpc_native_points::Part;
use cpc_tree::program::CType;
use std::cmp::Ordering;

/// A parameter or a local variable of a function: its number among them all, counted from 0, and its type.
#[derive(Clone, Copy)]
pub struct Local<'p> {
    pub slot: u64,
    pub of: &'p CType,
}

/// How deep a path was followed, how many locals come before, and what the name stands for there.
#[derive(Clone, Copy)]
pub(crate) struct Reached<'p> {
    pub(crate) depth: usize,
    pub(crate) count: u64,
    pub(crate) held: Option<Local<'p>>,
}

/// How a path goes at a part of a statement.
#[derive(Clone, Copy)]
enum Way {
    /// Into it.
    Down,
    /// Past it; a local that it is stays in scope.
    Stays,
    /// Past it, out of its scope.
    Leaves,
    /// Elsewhere.
    Off,
}

/// What comes behind a mark.
#[derive(Clone, Copy)]
enum Next<'p> {
    /// The next mark.
    Goes(Reached<'p>),
    /// Nothing: the name stands for this.
    Ends(Option<Local<'p>>),
}

// How a path that goes on with the k-th of a row goes at its n-th.
fn row_way(n: usize, k: usize) -> Way
    ensures { (p : Path) → way_of result p ≡ M.row_way n k p }
{
    match n.cmp(&k) {
        Ordering::Less => Way::Stays,
        Ordering::Equal => Way::Down,
        Ordering::Greater => Way::Off,
    }
}

// How a path goes at a part.
fn way_at(key: Key, part: Part) -> Way
    ensures { (p : Path) → way_of result p ≡ M.way key (part_of part ∷ p) }
{
    match key {
        Key::Row(n) => match part {
            Part::Nth(k) => row_way(n, k),
            _ => Way::Off,
        },
        Key::Head(n) => match part {
            Part::Nth(k) => row_way(n, k),
            Part::Test | Part::Step | Part::Body => Way::Stays,
            _ => Way::Off,
        },
        Key::Yes => match part {
            Part::Yes => Way::Down,
            Part::No => Way::Leaves,
            _ => Way::Off,
        },
        Key::No => match part {
            Part::No => Way::Down,
            _ => Way::Off,
        },
        Key::Body => match part {
            Part::Body => Way::Down,
            _ => Way::Off,
        },
    }
}

/// What a name stands for behind a local, where so many come before it.
pub(crate) fn own_after<'p>(
    own: Option<Own<'p>>,
    name: Name,
    count: u64,
    held: Option<Local<'p>>,
) -> Option<Local<'p>>
    ensures { (names : Names) → AreApart names → held_of names result ≡ M.own_after (names name) count (held_of names held.entry) (own_seen names own.entry) }
{
    match own {
        Some(own) => {
            if own.name.0 == name.0 {
                Some(Local {
                    slot: count,
                    of: own.of,
                })
            } else {
                held
            }
        }
        None => held,
    }
}

// The part at a depth of a path.
fn part_at(path: &[Part], depth: usize) -> Option<Part>
    ensures part { result ≡ slice_get path.now depth }
    ensures few { length path.now < 2 ^ 64 }
{
    // No slice is longer than a usize can say.
    let _ = path.len();
    path.get(depth).copied()
}

// A mark as deep as the path was followed, where this part comes.
fn at_part<'p>(mark: &'p Mark, part: Part, name: Name, at: Reached<'p>) -> Next<'p>
    requires room { at.depth + 1 < 2 ^ 64 }
    ensures { (names : Names) → AreApart names → (path : List Part) (rest : List M.Mark) → at.entry.depth ≡ mark.now.depth → slice_get path at.entry.depth ≡ Some part
        → look_next names (names name) path result rest ≡ look_from names (names name) path at.entry (mark_seen names mark.now ∷ rest) }
{
    let count = at.count.saturating_add(mark.count);
    let own = own_after(mark.own(), name, at.count, at.held);
    match way_at(mark.key, part) {
        Way::Down => Next::Goes(Reached {
            depth: at.depth + 1,
            count: at.count,
            held: own,
        }),
        Way::Stays => Next::Goes(Reached {
            depth: at.depth,
            count,
            held: own,
        }),
        Way::Leaves => Next::Goes(Reached {
            depth: at.depth,
            count,
            held: at.held,
        }),
        Way::Off => Next::Ends(at.held),
    }
}

// A mark as deep as the path was followed.
fn level<'p>(mark: &'p Mark, path: &[Part], name: Name, at: Reached<'p>) -> Next<'p>
    ensures { (names : Names) → AreApart names → (rest : List M.Mark) → at.entry.depth ≡ mark.now.depth
        → look_next names (names name) path.now result rest ≡ look_from names (names name) path.now at.entry (mark_seen names mark.now ∷ rest) }
{
    match part_at(path, at.depth) {
        Some(part) => at_part(mark, part, name, at),
        None => Next::Ends(at.held),
    }
}

// One mark.
fn over<'p>(mark: &'p Mark, path: &[Part], name: Name, at: Reached<'p>) -> Next<'p>
    ensures { (names : Names) → AreApart names → (rest : List M.Mark) → look_next names (names name) path.now result rest ≡ look_from names (names name) path.now at.entry (mark_seen names mark.now ∷ rest) }
{
    match at.depth.cmp(&mark.depth) {
        Ordering::Less => Next::Goes(at),
        Ordering::Equal => level(mark, path, name, at),
        Ordering::Greater => Next::Ends(at.held),
    }
}

/// What a name stands for at a path, by marks, from what was reached on.
pub(crate) fn look<'p>(
    marks: &'p [Mark],
    path: &[Part],
    name: Name,
    before: Reached<'p>,
) -> Option<Local<'p>>
    ensures { (names : Names) → AreApart names → held_of names result ≡ look_from names (names name) path.now before.entry (marks_seen names marks.now) }
{
    let mut at = before;
    for mark in marks {
        match over(mark, path, name, at) {
            Next::Goes(next) => at = next,
            Next::Ends(held) => return held,
        }
    }
    at.held
}
