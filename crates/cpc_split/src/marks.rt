//! Marks of owners, which are spread along the ways.
ghost use Rattle.std.specs.Prelude.{◌≡◌, ℕ, ◌<◌, length, OnOk};
ghost use Rattle.cpc_forms.specs.Flow.{as_list};
ghost use Rattle.cpc_forms.specs.Spread as S;
ghost use Rattle.cpc_split.specs.Steps.{step_leads};
ghost use Rattle.cpc_split.specs.Seen.{place_of, spread_of};

use crate::steps::Step;
use cpc_base::NoMemory;
use cpc_forms_code::Owner;

/// The owner of each node, where it is known, and the nodes from which it is still to be handed on.
#[derive(Drop)]
pub(crate) struct Marks {
    pub(crate) owners: Vec<Option<Owner>>,
    pub(crate) waiting: Vec<usize>,
}

impl Marks {
    /// An owner is handed on to a node, where none is known of it. `NoMemory` is want of memory.
    pub(crate) fn visit(&mut self, node: usize, owner: Owner) -> Result<(), NoMemory>
        requires { node < length self.old.owners.items }
        ensures spread { OnOk result (spread_of self.new ≡ S.visit node (place_of owner) (spread_of self.old)) }
        ensures length { OnOk result (length self.new.owners.items ≡ length self.old.owners.items) }
    {
        match self.owners[node] {
            Some(_) => Ok(()),
            None => {
                self.owners[node] = Some(owner);
                self.waiting.push(node)?;
                Ok(())
            }
        }
    }

    // The same, where there may be no node.
    fn visit_some(&mut self, to: Option<usize>, owner: Owner) -> Result<(), NoMemory>
        requires { (m : ℕ) → to ≡ Some m → m < length self.old.owners.items }
        ensures spread { OnOk result (spread_of self.new ≡ S.visit_all (as_list to) (place_of owner) (spread_of self.old)) }
        ensures length { OnOk result (length self.new.owners.items ≡ length self.old.owners.items) }
    {
        match to {
            Some(node) => self.visit(node, owner),
            None => Ok(()),
        }
    }

    /// An owner is handed on to the nodes of a step.
    pub(crate) fn visit_step(&mut self, step: Step, owner: Owner) -> Result<(), NoMemory>
        requires yes { (m : ℕ) → step.yes ≡ Some m → m < length self.old.owners.items }
        requires no { (m : ℕ) → step.no ≡ Some m → m < length self.old.owners.items }
        requires call { (m : ℕ) → step.call ≡ Some m → m < length self.old.owners.items }
        ensures spread { OnOk result (spread_of self.new ≡ S.visit_all (step_leads step) (place_of owner) (spread_of self.old)) }
        ensures length { OnOk result (length self.new.owners.items ≡ length self.old.owners.items) }
    {
        self.visit_some(step.yes, owner)?;
        self.visit_some(step.no, owner)?;
        self.visit_some(step.call, owner)
    }
}
