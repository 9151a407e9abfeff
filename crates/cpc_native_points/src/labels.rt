//! Where the labels of a body lead, by a table that is made once.
ghost use Rattle.std.specs.Prelude.{◌≡◌, ◌≤◌, ◌+◌, ◌∷◌, ◌++◌, length, ℕ, None, Some, if◌then◌else◌, IfOk, IfSome, OnOk, bytes_eq, vec_len, vec_capacity};
ghost use Rattle.cpc_tree.specs.Erase.{Names, stmt_of, list_of, maybe_at};
ghost use Rattle.cpc_tree.specs.Syntax.{Stmt, Present};
ghost use Rattle.cpc_tree.specs.Points as P;
ghost use Rattle.cpc_check_rules.specs.Apart.{AreApart};
ghost use Rattle.cpc_native_points.specs.Depth as D;
ghost use Rattle.cpc_native_points.specs.Depth.{numbers};
ghost use Rattle.cpc_native_points.specs.Parts.{child, nth, statement_at};
ghost use Rattle.cpc_native_points.specs.Seen.{part_of, path_of};
ghost use Rattle.cpc_native_points.specs.Tabled.{AreLabels, Gathers, Grows, IsBodyTable};

use crate::depths::depth_of;
use crate::entering::enter;
use crate::moves::statement_at;
use crate::parts::Part;
use crate::table::{Table, climb};
use cpc_base::{Name, NoMemory};
use cpc_tree::program::Statement;
use std::alloc::Global;

/// Where the labels of a body lead, and how deep it is: numbers alone, which can be kept beside the body.
#[derive(Drop)]
pub struct BodyTable {
    pub(crate) table: Table,
    pub(crate) depth: usize,
}

/// The labels of a body, by its table. Finding one takes a time that grows with how deep it stands, and not with the length
/// of the body.
#[derive(Clone, Copy)]
pub struct Labels<'p> {
    body: &'p Statement,
    table: &'p BodyTable,
    ghost tabled: { ∥ IsBodyTable body.now table.now ∥₁ },
}

// Adds the labels in a statement of this number.
#[cycle(gathered)]
fn gather(s: &Statement, at: Option<usize>, table: &mut Table) -> Result<(), NoMemory>
    ensures kept { OnOk result (Grows table.old table.new) }
    ensures led { OnOk result ((names : Names) → AreApart names → Gathers names table.old table.new at (stmt_of names s.now) (λ l. P.labelled l (stmt_of names s.now))) }
{
    match s {
        Statement::Block { inner, .. } => gather_row(inner, at, table),
        Statement::If { yes, no, .. } => {
            gather_part(yes, Part::Yes, at, table)?;
            gather_arm(no, at, table)
        }
        Statement::While { body, .. }
        | Statement::DoWhile { body, .. }
        | Statement::For { body, .. } => gather_part(body, Part::Body, at, table),
        Statement::Label { label, inner } => gather_behind(label.name, inner, at, table),
        _ => Ok(()),
    }
}

// Those in a statement that is a part of the one of this number.
#[cycle(gathered)]
fn gather_part(
    s: &Statement,
    part: Part,
    at: Option<usize>,
    table: &mut Table,
) -> Result<(), NoMemory>
    ensures kept { OnOk result (Grows table.old table.new) }
    ensures led { OnOk result ((names : Names) (around : Stmt) → AreApart names → child around (part_of part) ≡ Present (stmt_of names s.now)
        → Gathers names table.old table.new at around (λ l. P.path_under (part_of part) (P.labelled l (stmt_of names s.now)))) }
{
    let number = table.add(part, at)?;
    gather(s, Some(number), table)
}

// Those in an arm that may be absent.
#[cycle(gathered)]
fn gather_arm(
    arm: &Option<Box<Statement>>,
    at: Option<usize>,
    table: &mut Table,
) -> Result<(), NoMemory>
    ensures kept { OnOk result (Grows table.old table.new) }
    ensures led { OnOk result ((names : Names) (around : Stmt) → AreApart names → child around P.TheNo ≡ maybe_at names arm.now
        → Gathers names table.old table.new at around (λ l. P.path_under P.TheNo (P.labelled_arm l (maybe_at names arm.now)))) }
{
    match arm {
        Some(s) => gather_part(s, Part::No, at, table),
        None => Ok(()),
    }
}

// A label, and those in what it is put before.
#[cycle(gathered)]
fn gather_behind(
    label: Name,
    inner: &Statement,
    at: Option<usize>,
    table: &mut Table,
) -> Result<(), NoMemory>
    ensures kept { OnOk result (Grows table.old table.new) }
    ensures led { OnOk result ((names : Names) (around : Stmt) → AreApart names → child around P.TheBody ≡ Present (stmt_of names inner.now)
        → Gathers names table.old table.new at around
        (λ l. if bytes_eq (names label) l then Some (P.TheBody ∷ P.enter (stmt_of names inner.now)) else P.path_under P.TheBody (P.labelled l (stmt_of names inner.now)))) }
{
    let node = table.add(Part::Body, at)?;
    table.put(label, node)?;
    gather(inner, Some(node), table)
}

// Those in a row of statements.
#[cycle(gathered)]
fn gather_row(row: &[Statement], at: Option<usize>, table: &mut Table) -> Result<(), NoMemory>
    ensures kept { OnOk result (Grows table.old table.new) }
    ensures led { OnOk result ((names : Names) (around : Stmt) → AreApart names → ((n : ℕ) → child around (P.Nth n) ≡ nth (list_of names row.now) n)
        → Gathers names table.old table.new at around (λ l. P.labelled_in l (list_of names row.now))) }
{
    for (n, s) in row.iter().enumerate() {
        gather_part(s, Part::Nth(n), at, table)?;
    }
    Ok(())
}

// The table of a body.
fn table_of(alloc: Global, body: &Statement) -> Result<Table, NoMemory>
    ensures { IfOk result (λ table. AreLabels body.now table) }
{
    let mut table = Table::new(alloc);
    gather(body, None, &mut table)?;
    Ok(table)
}

impl BodyTable {
    /// The table of a body. `NoMemory` is want of memory.
    pub fn of(alloc: Global, body: &Statement) -> Result<BodyTable, NoMemory>
        ensures { IfOk result (λ table. IsBodyTable body.now table) }
    {
        let table = table_of(alloc, body)?;
        let depth = depth_of(body);
        Ok(BodyTable { table, depth })
    }
}

// Puts where the statement at a path of a body begins behind the path, which has room for it.
fn enter_at(body: &Statement, path: &mut Vec<Part>)
    requires room { (s : Stmt) → statement_at (stmt_of numbers body.now) (path_of path.old.items) ≡ Present s → vec_len path.old + length (P.enter s) ≤ vec_capacity path.old }
    ensures items { (names : Names) (s : Stmt) → statement_at (stmt_of names body.now) (path_of path.old.items) ≡ Present s → path_of path.new.items ≡ path_of path.old.items ++ P.enter s }
    ensures capacity { vec_capacity path.new ≡ vec_capacity path.old }
{
    match statement_at(body, path) {
        Some(inner) => enter(inner, path),
        None => {}
    }
}

impl<'p> Labels<'p> {
    ghost use Rattle.cpc_native_points.specs.Bodies.{body_of};

    /// The labels of a body, by a table of it.
    pub fn over(body: &'p Statement, table: &'p BodyTable) -> Labels<'p>
        requires { ∥ IsBodyTable body.now table.now ∥₁ }
        ensures { body_of result ≡ body.now }
    {
        Labels { body, table }
    }

    /// The body.
    pub(crate) fn body(&self) -> &'p Statement
        ensures { result.now ≡ body_of self.now }
    {
        self.body
    }

    /// How deep the body is: the most parts that the path of a point of it has. `usize::MAX` stands for every greater
    /// number. It takes no memory.
    pub fn depth(&self) -> usize
        ensures { (names : Names) → result ≡ D.capped (D.depth (stmt_of names (body_of self.now))) }
    {
        self.table.depth
    }

    /// Puts the path where a label leads. It has room for every path of the body. Where the body has no label of this name,
    /// nothing is said.
    pub(crate) fn find(&self, label: Name, path: &mut Vec<Part>)
        requires room { D.deep (body_of self.now) ≤ vec_capacity path.old }
        ensures path { (names : Names) → AreApart names → IfSome (P.labelled (names label) (stmt_of names (body_of self.now))) (λ q. path_of path.new.items ≡ q) }
        ensures capacity { vec_capacity path.new ≡ vec_capacity path.old }
    {
        path.clear();
        let table = &self.table.table;
        match table.place(label) {
            Some(number) => {
                climb(&table.nodes, Some(number), path);
                enter_at(self.body, path)
            }
            None => {}
        }
    }
}
