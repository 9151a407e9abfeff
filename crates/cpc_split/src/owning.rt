//! Who owns each node.
ghost use Rattle.std.specs.Prelude.{◌≡◌, ℕ, ◌<◌, true, false, [], length, get_or, IfOk, OnOk};
ghost use Rattle.cpc_forms.specs.Flow.{Inside, is_leader};
ghost use Rattle.cpc_forms.specs.Split.{owners_from, leaders_from};
ghost use Rattle.cpc_forms.specs.Spread.{IsSpread, left_to_do};
ghost use Rattle.cpc_split.specs.Steps.{flow_by};
ghost use Rattle.cpc_split.specs.Seen.{places_of, spread_of};

use crate::beginning::{begun, leader_numbers};
use crate::counting::step_at;
use crate::leading::leaders;
use crate::marks::Marks;
use crate::steps::Step;
use cpc_base::NoMemory;
use cpc_forms_code::Owner;
use std::alloc::Global;

// The last node that waits hands on its owner; whether one waited.
fn turn(marks: &mut Marks, entry: usize, steps: &[Step]) -> Result<bool, NoMemory>
    requires inside { Inside (flow_by entry steps.now) }
    requires spread { IsSpread (flow_by entry steps.now) (spread_of marks.old) }
    ensures spread { OnOk result (IsSpread (flow_by entry steps.now) (spread_of marks.new)) }
    ensures less { IfOk result (λ goes. goes ≡ true → left_to_do (spread_of marks.new) < left_to_do (spread_of marks.old)) }
    ensures ends { IfOk result (λ goes. goes ≡ false → marks.new.waiting.items ≡ []) }
{
    match marks.waiting.pop() {
        Some(node) => {
            if let Some(owner) = marks.owners[node] {
                let step = step_at(entry, steps, node);
                marks.visit_step(step, owner)?;
            }
            Ok(true)
        }
        None => Ok(false),
    }
}

// The owner of each node, where it is known which nodes are leaders.
fn owners(
    alloc: Global,
    entry: usize,
    steps: &[Step],
    leads: &[bool],
) -> Result<Vec<Option<Owner>>, NoMemory>
    requires inside { Inside (flow_by entry steps.now) }
    requires length { length leads.now ≡ length steps.now }
    requires flags { (k : ℕ) → k < length steps.now → get_or leads.now k false ≡ is_leader (flow_by entry steps.now) k }
    ensures { IfOk result (λ owners. places_of owners.items ≡ owners_from (flow_by entry steps.now) 0 (length steps.now)) }
{
    let mut marks = begun(alloc, entry, leads)?;
    while turn(&mut marks, entry, steps)? {}
    Ok(marks.owners)
}

/// What a function falls into: the owner of each node, and the leaders in the order of their numbers. A node without an owner is one to
/// which control never comes; of those to which it never comes, a leader owns itself and what it alone leads to.
#[derive(Drop)]
pub struct Pieces {
    pub owners: Vec<Option<Owner>>,
    pub leaders: Vec<usize>,
}

/// The owners and leaders of a function that begins at `entry`. `NoMemory` is want of memory.
pub fn split_steps(alloc: Global, entry: usize, steps: &[Step]) -> Result<Pieces, NoMemory>
    requires { Inside (flow_by entry steps.now) }
    ensures owners { IfOk result (λ pieces. places_of pieces.owners.items ≡ owners_from (flow_by entry steps.now) 0 (length steps.now)) }
    ensures leaders { IfOk result (λ pieces. pieces.leaders.items ≡ leaders_from (flow_by entry steps.now) 0 (length steps.now)) }
{
    let leads = leaders(alloc, entry, steps)?;
    let owners = owners(alloc, entry, steps, &leads)?;
    let leaders = leader_numbers(alloc, &leads)?;
    Ok(Pieces { owners, leaders })
}
