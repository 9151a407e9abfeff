//! The ways between the owners of a function, and what they use.
ghost use Rattle.std.specs.Prelude.{◌≡◌, ◌++◌, length, map, option_map, OnOk, IfOk};
ghost use Rattle.cpc_tree.specs.Erase.{Names};
ghost use Rattle.cpc_check_rules.specs.Apart.{AreApart};
ghost use Rattle.cpc_forms_code.specs.Seen.{AreNamed};
ghost use Rattle.cpc_forms_code.specs.Points.{variable_seen};
ghost use Rattle.cpc_forms_code.specs.Graphs.{node_seen};
ghost use Rattle.cpc_forms_code.specs.Splits.{place_of, places_of};
ghost use Rattle.cpc_forms_code.specs.Lifts.{boxes_among};
ghost use Rattle.cpc_lift_closures.specs.Rows.{links_of};
ghost use Rattle.cpc_lift.specs.Gathered.{node_ways, node_uses, ways_along, uses_along};

use crate::links::{add_ways, number};
use crate::names::Scoped;
use crate::uses::add_uses;
use cpc_base::NoMemory;
use cpc_forms_code::{Node, Owner, Variable, keep_unless};
use cpc_lift_closures::Link;
use std::alloc::Global;

/// The ways between owners, and the variables that owners use.
pub(crate) struct Gathered {
    pub(crate) ways: Vec<Link>,
    pub(crate) uses: Vec<Link>,
}

impl Drop for Gathered {
    fn drop(self) {
        let Gathered { ways, uses } = self;
        drop(ways);
        drop(uses);
    }
}

/// The boxes among variables, by their numbers in order. `NoMemory` is want of memory.
pub(crate) fn boxes(alloc: Global, variables: &[Variable<'_>]) -> Result<Vec<usize>, NoMemory>
    ensures { IfOk result (λ boxes. (names : Names) → boxes.items ≡ boxes_among 0 (map (variable_seen names) variables.now)) }
{
    let mut boxes = Vec::new(alloc);
    for i in 0..variables.len() {
        keep_unless(variables[i].is_register, i, &mut boxes)?;
    }
    Ok(boxes)
}

impl Gathered {
    // Adds those of a node, where it has an owner.
    fn add(
        &mut self,
        alloc: Global,
        node: &Node<'_>,
        owner: Option<Owner>,
        owners: &[Option<Owner>],
        variables: &[Variable<'_>],
        boxes: &[usize],
    ) -> Result<(), NoMemory>
        ensures ways { OnOk result ((names : Names) → links_of self.new.ways.items ≡ links_of self.old.ways.items ++ node_ways (places_of owners.now) (option_map place_of owner) (node_seen names variables.now node.now)) }
        ensures uses { OnOk result ((names : Names) → AreApart names → AreNamed names variables.now
            → links_of self.new.uses.items ≡ links_of self.old.uses.items ++ node_uses boxes.now (option_map place_of owner) (node_seen names variables.now node.now)) }
    {
        match owner {
            Some(owner) => {
                let from = number(owner)?;
                let at = Scoped {
                    variables,
                    scope: node.scope,
                };
                add_ways(node, owner, owners, &mut self.ways)?;
                add_uses(alloc, from, node.stood, &at, boxes, &mut self.uses)
            }
            None => Ok(()),
        }
    }

    /// Those of these nodes, which have these owners, with these variables of which these are boxes. `NoMemory` is want of memory.
    pub(crate) fn of(
        alloc: Global,
        nodes: &[Node<'_>],
        owners: &[Option<Owner>],
        variables: &[Variable<'_>],
        boxes: &[usize],
    ) -> Result<Gathered, NoMemory>
        requires { length nodes.now ≡ length owners.now }
        ensures ways { IfOk result (λ all. (names : Names) → links_of all.ways.items ≡ ways_along (places_of owners.now) (map (node_seen names variables.now) nodes.now) (places_of owners.now)) }
        ensures uses { IfOk result (λ all. (names : Names) → AreApart names → AreNamed names variables.now
            → links_of all.uses.items ≡ uses_along boxes.now (map (node_seen names variables.now) nodes.now) (places_of owners.now)) }
    {
        let mut all = Gathered {
            ways: Vec::new(alloc),
            uses: Vec::new(alloc),
        };
        for i in 0..nodes.len() {
            all.add(alloc, &nodes[i], owners[i], owners, variables, boxes)?;
        }
        Ok(all)
    }
}
