//! Where the statements of a body end, and where its labels stand, noted in the order of the text.
ghost use Rattle.std.specs.Prelude.{◌≡◌, ◌+◌, ◌++◌, ◌∷◌, [], ◌<◌, length, IfOk, OnOk, slice_set};
ghost use Rattle.cpc_tree.specs.Erase.{Names, stmt_of, list_of, maybe_at};
ghost use Rattle.cpc_tree.specs.Syntax.{Block};
ghost use Rattle.cpc_forms.specs.Order.{points_of, points_in, points_arm};
ghost use Rattle.cpc_forms.specs.Table.{labels_of, labels_in, labels_arm, test_of, body_of};
ghost use Rattle.cpc_graph.specs.Ends.{ends_of, ends_in, ends_arm, header_ends, step_ends};
ghost use Rattle.cpc_graph.specs.Labels.{labels_seen};

use cpc_base::{Name, NoMemory, behind, is_none};
use cpc_tree::program::Statement;
use std::alloc::Global;

/// A label, and the number of the node behind it.
#[derive(Clone, Copy)]
pub(crate) struct Mark {
    pub(crate) name: Name,
    pub(crate) number: usize,
}

/// The numbers behind statements, of each before those of the statements in it, and the labels.
#[derive(Drop)]
pub(crate) struct Marks {
    pub(crate) ends: Vec<usize>,
    pub(crate) labels: Vec<Mark>,
}

impl Marks {
    /// Nothing is noted.
    pub(crate) fn new(alloc: Global) -> Marks
        ensures ends { result.ends.items ≡ [] }
        ensures labels { result.labels.items ≡ [] }
    {
        Marks {
            ends: Vec::new(alloc),
            labels: Vec::new(alloc),
        }
    }

    // Leaves room for a number; its place.
    fn begin(&mut self) -> Result<usize, NoMemory>
        ensures place { IfOk result (λ place. place ≡ length self.old.ends.items) }
        ensures ends { OnOk result (self.new.ends.items ≡ self.old.ends.items ++ 0 ∷ []) }
        ensures labels { self.new.labels.items ≡ self.old.labels.items }
    {
        let place = self.ends.len();
        self.ends.push(0)?;
        Ok(place)
    }

    // Puts a number into its place.
    fn end(&mut self, place: usize, number: usize)
        requires { place < length self.old.ends.items }
        ensures ends { self.new.ends.items ≡ slice_set self.old.ends.items place number }
        ensures labels { self.new.labels.items ≡ self.old.labels.items }
    {
        self.ends[place] = number;
    }

    /// A statement whose first node has this number; the number behind its last one.
    #[cycle(marked)]
    pub(crate) fn statement(&mut self, s: &Statement, n: usize) -> Result<usize, NoMemory>
        ensures number { IfOk result (λ after. (names : Names) → after ≡ n + length (points_of (stmt_of names s.now))) }
        ensures ends { OnOk result ((names : Names) → self.new.ends.items ≡ self.old.ends.items ++ ends_of (stmt_of names s.now) n) }
        ensures labels { OnOk result ((names : Names) → labels_seen names self.new.labels.items ≡ labels_seen names self.old.labels.items ++ labels_of (stmt_of names s.now) n) }
    {
        match s {
            Statement::Block { inner, .. } => self.block(inner, n),
            Statement::Call { .. } | Statement::Detach { .. } => {
                let arrival = behind(n)?;
                behind(arrival)
            }
            Statement::If { yes, no, .. } => {
                let start = behind(n)?;
                let after = self.noted(yes, start)?;
                self.arm(no, after)
            }
            Statement::While { body, .. } => {
                let start = behind(n)?;
                self.statement(body, start)
            }
            Statement::DoWhile { body, .. } => {
                let test = self.noted(body, n)?;
                behind(test)
            }
            Statement::For {
                first,
                step,
                body,
                ..
            } => {
                let test = self.header(first, n)?;
                let start = self.step(step, test)?;
                self.statement(body, start)
            }
            Statement::Label { label, inner } => {
                self.label(label.name, n)?;
                self.statement(inner, n)
            }
            _ => behind(n),
        }
    }

    // A label before a statement whose first node has this number.
    fn label(&mut self, name: Name, number: usize) -> Result<(), NoMemory>
        ensures ends { self.new.ends.items ≡ self.old.ends.items }
        ensures labels { OnOk result ((names : Names) → labels_seen names self.new.labels.items ≡ labels_seen names self.old.labels.items ++ (names name, number) ∷ []) }
    {
        self.labels.push(Mark { name, number })?;
        Ok(())
    }

    // A statement, with the number behind it noted before those in it.
    #[cycle(marked)]
    fn noted(&mut self, s: &Statement, n: usize) -> Result<usize, NoMemory>
        ensures number { IfOk result (λ after. (names : Names) → after ≡ n + length (points_of (stmt_of names s.now))) }
        ensures ends { OnOk result ((names : Names) → self.new.ends.items ≡ self.old.ends.items ++ (n + length (points_of (stmt_of names s.now))) ∷ ends_of (stmt_of names s.now) n) }
        ensures labels { OnOk result ((names : Names) → labels_seen names self.new.labels.items ≡ labels_seen names self.old.labels.items ++ labels_of (stmt_of names s.now) n) }
    {
        let place = self.begin()?;
        let after = self.statement(s, n)?;
        self.end(place, after);
        Ok(after)
    }

    // A block; one without statements is itself a point.
    #[cycle(marked)]
    fn block(&mut self, row: &[Statement], n: usize) -> Result<usize, NoMemory>
        ensures number { IfOk result (λ after. (names : Names) → after ≡ n + length (points_of (Block (list_of names row.now)))) }
        ensures ends { OnOk result ((names : Names) → self.new.ends.items ≡ self.old.ends.items ++ ends_of (Block (list_of names row.now)) n) }
        ensures labels { OnOk result ((names : Names) → labels_seen names self.new.labels.items ≡ labels_seen names self.old.labels.items ++ labels_of (Block (list_of names row.now)) n) }
    {
        if is_none(row) {
            behind(n)
        } else {
            self.row(row, n)
        }
    }

    // A row of statements, each with the number behind it.
    #[cycle(marked)]
    fn row(&mut self, row: &[Statement], n: usize) -> Result<usize, NoMemory>
        ensures number { IfOk result (λ after. (names : Names) → after ≡ n + length (points_in (list_of names row.now))) }
        ensures ends { OnOk result ((names : Names) → self.new.ends.items ≡ self.old.ends.items ++ ends_in (list_of names row.now) n) }
        ensures labels { OnOk result ((names : Names) → labels_seen names self.new.labels.items ≡ labels_seen names self.old.labels.items ++ labels_in (list_of names row.now) n) }
    {
        let mut next = n;
        for s in row {
            next = self.noted(s, next)?;
        }
        Ok(next)
    }

    // A statement that may be absent.
    #[cycle(marked)]
    fn arm(&mut self, arm: &Option<Box<Statement>>, n: usize) -> Result<usize, NoMemory>
        ensures number { IfOk result (λ after. (names : Names) → after ≡ n + length (points_arm (maybe_at names arm.now))) }
        ensures ends { OnOk result ((names : Names) → self.new.ends.items ≡ self.old.ends.items ++ ends_arm (maybe_at names arm.now) n) }
        ensures labels { OnOk result ((names : Names) → labels_seen names self.new.labels.items ≡ labels_seen names self.old.labels.items ++ labels_arm (maybe_at names arm.now) n) }
    {
        match arm {
            Some(s) => self.statement(s, n),
            None => Ok(n),
        }
    }

    // The first part of a `for`, in which no label counts; the number of the test behind it, which is noted before.
    #[cycle(marked)]
    fn header(&mut self, first: &[Statement], n: usize) -> Result<usize, NoMemory>
        ensures number { IfOk result (λ test. (names : Names) → test ≡ test_of (list_of names first.now) n) }
        ensures ends { OnOk result ((names : Names) → self.new.ends.items ≡ self.old.ends.items ++ header_ends (list_of names first.now) n) }
        ensures labels { OnOk result ((names : Names) → labels_seen names self.new.labels.items ≡ labels_seen names self.old.labels.items) }
    {
        let count = self.labels.len();
        let place = self.begin()?;
        let test = self.row(first, n)?;
        self.end(place, test);
        self.labels.truncate(count);
        Ok(test)
    }

    // The step of a `for` whose test has this number; no label counts in it. The number at which the body begins, which is noted before.
    #[cycle(marked)]
    fn step(&mut self, step: &Option<Box<Statement>>, test: usize) -> Result<usize, NoMemory>
        ensures number { IfOk result (λ start. (names : Names) → start ≡ body_of (maybe_at names step.now) test) }
        ensures ends { OnOk result ((names : Names) → self.new.ends.items ≡ self.old.ends.items ++ step_ends (maybe_at names step.now) test) }
        ensures labels { OnOk result ((names : Names) → labels_seen names self.new.labels.items ≡ labels_seen names self.old.labels.items) }
    {
        let count = self.labels.len();
        let place = self.begin()?;
        let after = behind(test)?;
        let start = self.arm(step, after)?;
        self.end(place, start);
        self.labels.truncate(count);
        Ok(start)
    }
}
