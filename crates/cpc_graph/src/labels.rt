//! The numbers of labels, by name.
ghost use Rattle.std.specs.Prelude.{◌≡◌, IfOk, OnOk, Some, None, cond, nat_eq};
ghost use Rattle.std.specs.HashMap as hash;
ghost use Rattle.cpc_base.specs.declared.names.Name as N;
ghost use Rattle.cpc_graph.specs.Labels.{AreLabels, number_at};

use crate::marks::Mark;
use cpc_base::{Name, NoMemory};
use std::alloc::Global;
use std::collections::HashMap;

/// For each label of a function the number of the node behind it.
#[derive(Drop)]
pub(crate) struct Labels {
    numbers: HashMap<u64, usize>,
}

impl Labels {
    // No labels.
    fn new(alloc: Global) -> Labels
        ensures { (x : N.Name) → number_at result x ≡ None }
    {
        Labels {
            numbers: HashMap::new(alloc),
        }
    }

    /// These labels, of which the first counts where a name stands twice. `NoMemory` is want of memory.
    pub(crate) fn of(alloc: Global, marks: Vec<Mark>) -> Result<Labels, NoMemory>
        ensures { IfOk result (AreLabels marks.items) }
    {
        let mut labels = Labels::new(alloc);
        let mut marks = marks;
        while let Some(mark) = marks.pop() {
            labels.put(mark.name, mark.number)?;
        }
        Ok(labels)
    }

    // A label has this number, whatever it had before.
    fn put(&mut self, name: Name, number: usize) -> Result<(), NoMemory>
        ensures { OnOk result ((x : N.Name) → number_at self.new x ≡ cond (nat_eq name.0 x.0) (Some number) (number_at self.old x)) }
    {
        self.numbers.insert(name.0, number)?;
        Ok(())
    }

    /// The number of a label.
    pub(crate) fn number(&self, name: Name) -> Option<usize>
        ensures { result ≡ number_at self.now name }
    {
        match self.numbers.get(&name.0) {
            Some(number) => Some(*number),
            None => None,
        }
    }
}
