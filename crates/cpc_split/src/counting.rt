//! How many places lead to each node.
ghost use Rattle.std.specs.Prelude.{◌≡◌, ℕ, ◌+◌, ◌<◌, true, not, ◌&&◌, length, get_or, slice_get, IfOk};
ghost use Rattle.cpc_tree.specs.Lists.{holds_number};
ghost use Rattle.cpc_forms.specs.Flow.{as_list, Inside};
ghost use Rattle.cpc_forms.specs.Marks.{one_if, counted};
ghost use Rattle.cpc_split.specs.Steps.{step_leads, flow_by, same_number};

use crate::steps::Step;
use cpc_base::NoMemory;
use std::alloc::Global;

// Whether these are one number.
fn are_same(one: Option<usize>, other: Option<usize>) -> bool
    ensures { result ≡ same_number one other }
{
    match (one, other) {
        (Some(one), Some(other)) => one == other,
        _ => false,
    }
}

// One more place leads to a node, where it is new.
fn count_one(counts: &mut [usize], to: Option<usize>, is_new: bool)
    requires within { (m : ℕ) → to ≡ Some m → m < length counts.old }
    requires room { (m : ℕ) → get_or counts.old m 0 < usize.MAX }
    ensures { (k : ℕ) → get_or counts.new k 0 ≡ get_or counts.old k 0 + one_if (is_new && holds_number (as_list to) k) }
{
    if is_new {
        if let Some(node) = to {
            counts[node] += 1;
        }
    }
}

// One more place leads to the nodes of a step, to each of them once.
#[tactic(auto, using(std::proofs::lemmas::Grind::common_steps, crate::proofs::Once::once))]
fn count_step(counts: &mut [usize], step: Step)
    requires yes { (m : ℕ) → step.yes ≡ Some m → m < length counts.old }
    requires no { (m : ℕ) → step.no ≡ Some m → m < length counts.old }
    requires call { (m : ℕ) → step.call ≡ Some m → m < length counts.old }
    requires room { (m : ℕ) → get_or counts.old m 0 + 2 < usize.MAX }
    ensures { (k : ℕ) → get_or counts.new k 0 ≡ get_or counts.old k 0 + one_if (holds_number (step_leads step) k) }
{
    let no_is_new = !are_same(step.yes, step.no);
    let call_is_new = !are_same(step.yes, step.call) && !are_same(step.no, step.call);
    count_one(counts, step.yes, true);
    count_one(counts, step.no, no_is_new);
    count_one(counts, step.call, call_is_new);
}

/// Where control goes from a node of these.
#[tactic(auto, using(std::proofs::lemmas::Grind::common_steps, crate::proofs::Once::step_inside))]
pub(crate) fn step_at(entry: usize, steps: &[Step], node: usize) -> Step
    requires inside { Inside (flow_by entry steps.now) }
    requires within { node < length steps.now }
    ensures value { slice_get steps.now node ≡ Some result }
    ensures yes { (m : ℕ) → result.yes ≡ Some m → m < length steps.now }
    ensures no { (m : ℕ) → result.no ≡ Some m → m < length steps.now }
    ensures call { (m : ℕ) → result.call ≡ Some m → m < length steps.now }
{
    let _entry = entry;
    steps[node]
}

/// For each node how many places lead to it, of a function that begins at `entry`.
pub(crate) fn counts(alloc: Global, entry: usize, steps: &[Step]) -> Result<Vec<usize>, NoMemory>
    requires { Inside (flow_by entry steps.now) }
    ensures length { IfOk result (λ counts. length counts.items ≡ length steps.now) }
    ensures counts { IfOk result (λ counts. (k : ℕ) → get_or counts.items k 0 ≡ counted (flow_by entry steps.now) k (length steps.now)) }
{
    let mut counts = vec![in alloc; 0usize; steps.len()]?;
    count_one(&mut counts, Some(entry), true);
    for i in 0..steps.len() {
        let step = step_at(entry, steps, i);
        count_step(&mut counts, step);
    }
    Ok(counts)
}
