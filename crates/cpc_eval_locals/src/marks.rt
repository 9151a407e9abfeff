//! The statements of a body that declare locals, themselves or in their parts, in the order of the text.
ghost use Rattle.std.specs.Prelude.{◌≡◌, ◌++◌, ◌+◌, suc, IfOk, OnOk};
ghost use Rattle.cpc_tree.specs.Erase.{Names, stmt_of, list_of, maybe_at};
ghost use Rattle.cpc_eval_locals.specs.Marks as M;
ghost use Rattle.cpc_eval_locals.specs.Seen.{declared_seen, own_seen, marks_seen};

use crate::counting::declared;
use cpc_base::{Name, NoMemory, behind};
use cpc_shapes::copy_of;
use cpc_tree::program::{CType, Statement};
use std::alloc::Global;

/// Which part of the statement around it a statement is.
#[derive(Clone, Copy)]
pub(crate) enum Key {
    /// The n-th statement of a block.
    Row(usize),
    /// The n-th of the first part of a `for`, in scope in all that follows there.
    Head(usize),
    /// The arm of an `if` that is taken where the test holds.
    Yes,
    /// The other arm of an `if`.
    No,
    /// The body of a loop, or the statement that a label is put before.
    Body,
}

/// A local that is declared.
#[derive(Clone, Copy)]
pub(crate) struct Own<'p> {
    pub(crate) name: Name,
    pub(crate) of: &'p CType,
}

/// A local that is declared, with a copy of its type.
#[derive(Drop)]
pub(crate) struct Declared {
    pub(crate) name: Name,
    pub(crate) of: CType,
}

/// A statement that declares locals: how deep it stands, which part it is of the statement around it, how many locals it
/// declares in all, and the one that it is.
#[derive(Drop)]
pub(crate) struct Mark {
    pub(crate) depth: usize,
    pub(crate) key: Key,
    pub(crate) count: u64,
    pub(crate) own: Option<Declared>,
}

impl Mark {
    /// The local that the statement is.
    pub(crate) fn own(&self) -> Option<Own<'_>>
        ensures { (names : Names) → own_seen names result ≡ declared_seen names self.now.own }
    {
        match &self.own {
            Some(own) => Some(Own {
                name: own.name,
                of: &own.of,
            }),
            None => None,
        }
    }
}

/// The local that a statement is.
pub(crate) fn own_of(s: &Statement) -> Option<Own<'_>>
    ensures { (names : Names) → own_seen names result ≡ M.own_of (stmt_of names s.now) }
{
    match s {
        Statement::Declare { word, of, .. } => Some(Own {
            name: word.name,
            of,
        }),
        _ => None,
    }
}

// The local that a statement is, with a copy of its type. `NoMemory` is want of memory.
fn declared_by(alloc: Global, s: &Statement) -> Result<Option<Declared>, NoMemory>
    ensures { IfOk result (λ own. (names : Names) → declared_seen names own ≡ M.own_of (stmt_of names s.now)) }
{
    match own_of(s) {
        Some(own) => {
            let of = copy_of(alloc, own.of)?;
            Ok(Some(Declared { name: own.name, of }))
        }
        None => Ok(None),
    }
}

// Which part the n-th of a row is.
fn row_key(heads: bool, n: usize) -> Key
    ensures { result ≡ M.row_key heads n }
{
    if heads { Key::Head(n) } else { Key::Row(n) }
}

// Marks a statement that is this part, and its parts, where it declares some.
#[cycle(marked)]
fn note(
    alloc: Global,
    s: &Statement,
    key: Key,
    depth: usize,
    marks: &mut Vec<Mark>,
) -> Result<(), NoMemory>
    ensures { OnOk result ((names : Names) → marks_seen names marks.new.items ≡ marks_seen names marks.old.items ++ M.marked key depth (stmt_of names s.now) (M.marks (suc depth) (stmt_of names s.now))) }
{
    let count = declared(s);
    if count == 0 {
        return Ok(());
    }
    let inner = behind(depth)?;
    let own = declared_by(alloc, s)?;
    marks.push(Mark {
        depth,
        key,
        count,
        own,
    })?;
    mark_parts(alloc, s, inner, marks)
}

/// Marks the parts of a statement, which stand so deep. `NoMemory` is want of memory.
#[cycle(marked)]
pub(crate) fn mark_parts(
    alloc: Global,
    s: &Statement,
    depth: usize,
    marks: &mut Vec<Mark>,
) -> Result<(), NoMemory>
    ensures { OnOk result ((names : Names) → marks_seen names marks.new.items ≡ marks_seen names marks.old.items ++ M.marks depth (stmt_of names s.now)) }
{
    match s {
        Statement::Block { inner, .. } => mark_row(alloc, inner, false, depth, marks),
        Statement::If { yes, no, .. } => {
            note(alloc, yes, Key::Yes, depth, marks)?;
            mark_arm(alloc, no, depth, marks)
        }
        Statement::While { body, .. } | Statement::DoWhile { body, .. } => {
            note(alloc, body, Key::Body, depth, marks)
        }
        Statement::For { first, body, .. } => {
            mark_row(alloc, first, true, depth, marks)?;
            note(alloc, body, Key::Body, depth, marks)
        }
        Statement::Label { inner, .. } => note(alloc, inner, Key::Body, depth, marks),
        _ => Ok(()),
    }
}

// Marks a row of statements.
#[cycle(marked)]
fn mark_row(
    alloc: Global,
    row: &[Statement],
    heads: bool,
    depth: usize,
    marks: &mut Vec<Mark>,
) -> Result<(), NoMemory>
    ensures { OnOk result ((names : Names) → marks_seen names marks.new.items ≡ marks_seen names marks.old.items ++ M.marks_row heads depth 0 (list_of names row.now)) }
{
    for (n, s) in row.iter().enumerate() {
        note(alloc, s, row_key(heads, n), depth, marks)?;
    }
    Ok(())
}

// Marks an arm that may be absent.
#[cycle(marked)]
fn mark_arm(
    alloc: Global,
    arm: &Option<Box<Statement>>,
    depth: usize,
    marks: &mut Vec<Mark>,
) -> Result<(), NoMemory>
    ensures { OnOk result ((names : Names) → marks_seen names marks.new.items ≡ marks_seen names marks.old.items ++ M.marks_arm depth (maybe_at names arm.now)) }
{
    match arm {
        Some(s) => note(alloc, s, Key::No, depth, marks),
        None => Ok(()),
    }
}
