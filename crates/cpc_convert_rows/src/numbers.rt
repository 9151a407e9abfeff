//! The numbers of a piece's rows, in their order.
ghost use Rattle.std.specs.Prelude.{◌≡◌, ℕ, List, Some, ◌++◌, ◌∷◌, [], length, IfOk, OnOk};
ghost use Rattle.cpc_forms.specs.Flow.{Place};
ghost use Rattle.cpc_tree.specs.Syntax.{Program};
ghost use Rattle.cpc_convert_routines.specs.Routines.{Routine};
ghost use Rattle.cpc_chains_event.specs.Rows as R;
ghost use Rattle.cpc_convert_rows.specs.Marks.{AreMarked};
ghost use Rattle.cpc_convert_rows.specs.Numbers.{AreLeaders};
ghost use Rattle.cpc_convert_rows.specs.Steps.{IsStepped, step_at};

use crate::marks::{add_if, is_marked, is_unmarked, mark, marked, unmarked};
use crate::stepped::Stepped;
use cpc_base::NoMemory;
use std::alloc::Global;

// Numbers so far, marked.
#[derive(Drop)]
struct Placed {
    all: Vec<usize>,
    marks: Vec<u8>,
}

impl Placed {
    // One more number. `NoMemory` is want of memory.
    fn add(&mut self, number: usize) -> Result<(), NoMemory>
        ensures long { OnOk result (length self.new.marks.items ≡ length self.old.marks.items) }
        ensures marks { OnOk result (AreMarked self.old.marks.items self.old.all.items → AreMarked self.new.marks.items self.new.all.items) }
        ensures all { OnOk result (self.new.all.items ≡ self.old.all.items ++ number ∷ []) }
    {
        self.all.push(number)?;
        mark(&mut self.marks, number);
        Ok(())
    }

    // One more number, if it is one of these leaders and has no place yet. `NoMemory` is want of memory.
    fn add_leader(&mut self, leaders: &[u8], number: usize) -> Result<(), NoMemory>
        ensures long { OnOk result (length self.new.marks.items ≡ length self.old.marks.items) }
        ensures marks { OnOk result (AreMarked self.old.marks.items self.old.all.items → AreMarked self.new.marks.items self.new.all.items) }
        ensures all { OnOk result ((stubs : List ℕ) → AreMarked leaders.now stubs → length self.old.marks.items ≡ length leaders.now → AreLeaders (length leaders.now) stubs → AreMarked self.old.marks.items self.old.all.items
            → self.new.all.items ≡ self.old.all.items ++ R.stub_behind stubs self.old.all.items (Some number)) }
    {
        if is_marked(leaders, number) {
            if is_marked(&self.marks, number) {
                return Ok(());
            }
            return self.add(number);
        }
        Ok(())
    }

    // The same, where there may be none. `NoMemory` is want of memory.
    fn add_some(&mut self, leaders: &[u8], to: Option<usize>) -> Result<(), NoMemory>
        ensures long { OnOk result (length self.new.marks.items ≡ length self.old.marks.items) }
        ensures marks { OnOk result (AreMarked self.old.marks.items self.old.all.items → AreMarked self.new.marks.items self.new.all.items) }
        ensures all { OnOk result ((stubs : List ℕ) → AreMarked leaders.now stubs → length self.old.marks.items ≡ length leaders.now → AreLeaders (length leaders.now) stubs → AreMarked self.old.marks.items self.old.all.items
            → self.new.all.items ≡ self.old.all.items ++ R.stub_behind stubs self.old.all.items to) }
    {
        match to {
            Some(number) => self.add_leader(leaders, number),
            None => Ok(()),
        }
    }

    // A node, and the leader behind it if it is the first to fall to it. `NoMemory` is want of memory.
    fn add_node(
        &mut self,
        stepped: &Stepped<'_>,
        leaders: &[u8],
        node: usize,
    ) -> Result<(), NoMemory>
        ensures long { OnOk result (length self.new.marks.items ≡ length self.old.marks.items) }
        ensures marks { OnOk result (AreMarked self.old.marks.items self.old.all.items → AreMarked self.new.marks.items self.new.all.items) }
        ensures all { OnOk result ((r : Routine) (stubs : List ℕ) → IsStepped r stepped.now → AreMarked leaders.now stubs → length self.old.marks.items ≡ length leaders.now → AreLeaders (length leaders.now) stubs
            → AreMarked self.old.marks.items self.old.all.items → self.new.all.items ≡ (self.old.all.items ++ node ∷ []) ++ R.stub_behind stubs (self.old.all.items ++ node ∷ []) (step_at r node).falls) }
    {
        self.add(node)?;
        self.add_some(leaders, stepped.step(node).falls)
    }
    // The numbers, and then the leaders that are not among them. `NoMemory` is want of memory.
    fn completed(self, leaders: &[usize]) -> Result<Vec<usize>, NoMemory>
        ensures { IfOk result (λ all. AreMarked self.marks.items self.all.items → AreLeaders (length self.marks.items) leaders.now → all.items ≡ R.completed leaders.now self.all.items) }
    {
        let mut all = self.all;
        let marks = self.marks;
        for leader in leaders {
            add_if(is_unmarked(&marks, *leader), *leader, &mut all)?;
        }
        Ok(all)
    }
}

/// The numbers of a piece's rows: its nodes, each leader to which it goes behind the first node that falls to it, and then the other
/// leaders; `nodes` are those of the piece that have rows, and `leaders` the others' to which it goes. `NoMemory` is want of memory.
pub fn row_numbers(
    alloc: Global,
    stepped: &Stepped<'_>,
    nodes: &[usize],
    leaders: &[usize],
) -> Result<Vec<usize>, NoMemory>
    ensures { IfOk result (λ all. (p : Program) (r : Routine) (l : Place) → IsStepped r stepped.now → nodes.now ≡ R.rows_nodes r.split l → leaders.now ≡ R.stubs_of r l → all.items ≡ R.numbers_of p r l) }
{
    let count = stepped.steps.len();
    let flags = marked(alloc, count, leaders)?;
    let mut placed = Placed {
        all: Vec::new(alloc),
        marks: unmarked(alloc, count)?,
    };
    for node in nodes {
        placed.add_node(stepped, &flags, *node)?;
    }
    placed.completed(leaders)
}
