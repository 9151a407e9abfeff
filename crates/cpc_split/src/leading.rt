//! Which nodes are leaders.
ghost use Rattle.std.specs.Prelude.{◌≡◌, ℕ, ◌<◌, false, ◌||◌, nat_le, length, get_or, IfOk};
ghost use Rattle.cpc_forms.specs.Flow.{Inside, is_leader};
ghost use Rattle.cpc_forms.specs.Marks.{counted};
ghost use Rattle.cpc_split.specs.Steps.{flow_by};

use crate::counting::{counts, step_at};
use crate::steps::Step;
use cpc_base::NoMemory;
use std::alloc::Global;

// Whether a node leads, where control may resume, to which so many places lead.
fn leads(resumes: bool, count: usize) -> bool
    ensures { result ≡ (resumes || nat_le 2 count) }
{
    resumes || 2 <= count
}

// Whether a node of these is a leader.
fn is_leader(entry: usize, steps: &[Step], counts: &[usize], node: usize) -> bool
    requires inside { Inside (flow_by entry steps.now) }
    requires within { node < length steps.now }
    requires length { length counts.now ≡ length steps.now }
    requires counts { (k : ℕ) → get_or counts.now k 0 ≡ counted (flow_by entry steps.now) k (length steps.now) }
    ensures { result ≡ is_leader (flow_by entry steps.now) node }
{
    let step = step_at(entry, steps, node);
    leads(step.resumes, counts[node])
}

/// For each node whether it is a leader.
pub(crate) fn leaders(alloc: Global, entry: usize, steps: &[Step]) -> Result<Vec<bool>, NoMemory>
    requires { Inside (flow_by entry steps.now) }
    ensures length { IfOk result (λ flags. length flags.items ≡ length steps.now) }
    ensures flags { IfOk result (λ flags. (k : ℕ) → k < length steps.now → get_or flags.items k false ≡ is_leader (flow_by entry steps.now) k) }
{
    let counts = counts(alloc, entry, steps)?;
    let mut flags = Vec::new(alloc);
    for i in 0..steps.len() {
        flags.push(is_leader(entry, steps, &counts, i))?;
    }
    Ok(flags)
}
