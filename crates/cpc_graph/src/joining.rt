//! Nodes, from boxed points and the ways from there.
ghost use Rattle.std.specs.Prelude.{◌≡◌, ◌+◌, length, map, IfOk, List};
ghost use Rattle.cpc_tree.specs.Erase.{Names};
ghost use Rattle.cpc_forms_code.specs.declared.boxed.Variable as V;
ghost use Rattle.cpc_forms_code.specs.Seen.{manner_seen, stood_seen, scope_seen};
ghost use Rattle.cpc_forms_code.specs.Points.{point_seen};
ghost use Rattle.cpc_forms_code.specs.Graphs.{node_seen};
ghost use Rattle.cpc_meaning.specs.Ways.{arrives_later, only_if};
ghost use Rattle.cpc_graph.specs.Joined.{goes_at, arrival_at, node_on, joined};

use crate::onward::Way;
use cpc_base::{NoMemory, behind};
use cpc_forms_code::{BoxedPoint, Manner, Node, Stood};
use std::alloc::Global;

// Whether the value of what is left so arrives later.
fn arrives_later(manner: Manner) -> bool
    ensures { result ≡ arrives_later (manner_seen manner) }
{
    match manner {
        Manner::InPlace => false,
        Manner::ByFrame | Manner::AsCps => true,
    }
}

// A number, where it is so.
fn only_if(so: bool, number: Option<usize>) -> Option<usize>
    ensures { result ≡ only_if so number }
{
    if so { number } else { None }
}

// Whether control goes on from there in the step itself, as a test holds or not.
#[tactic(auto, using(crate::proofs::Nodes::in_step, crate::proofs::Nodes::test_step))]
fn goes(point: BoxedPoint<'_>, holds: bool) -> bool
    ensures { (names : Names) → result ≡ goes_at (stood_seen names point.entry.stood) (manner_seen point.entry.manner) holds }
{
    match point.stood {
        Stood::Test(None) => holds,
        Stood::End => false,
        Stood::Arrival(_) => arrives_later(point.manner),
        Stood::Simple(_) | Stood::Empty | Stood::Test(Some(_)) => !arrives_later(point.manner),
    }
}

// The number of the arrival behind this one, if there is one.
fn arrival(point: BoxedPoint<'_>, number: usize) -> Option<usize>
    ensures { (names : Names) → result ≡ arrival_at (stood_seen names point.entry.stood) (manner_seen point.entry.manner) number }
{
    match point.stood {
        Stood::Simple(_) | Stood::Empty | Stood::Test(_) => only_if(
            arrives_later(point.manner),
            Some(number),
        ),
        Stood::Arrival(_) | Stood::End => None,
    }
}

// The node of a point, where control would go on these ways, and to this number where a value arrives.
fn node<'a>(point: BoxedPoint<'a>, way: Way, number: usize) -> Node<'a>
    ensures { (names : Names) (vs : List V.Variable) → node_seen names vs result ≡ node_on (stood_seen names point.entry.stood) (scope_seen names vs point.entry.scope) (manner_seen point.entry.manner) way number }
{
    Node {
        stood: point.stood,
        scope: point.scope,
        manner: point.manner,
        yes: only_if(goes(point, true), way.yes),
        no: only_if(goes(point, false), way.no),
        arrival: arrival(point, number),
    }
}

/// The nodes of these points, from which control goes these ways. `NoMemory` is want of memory.
pub(crate) fn nodes<'a>(
    alloc: Global,
    points: &[BoxedPoint<'a>],
    ways: &[Way],
) -> Result<Vec<Node<'a>>, NoMemory>
    ensures { IfOk result (λ nodes. (names : Names) (vs : List V.Variable) → length points.now ≡ length ways.now → map (node_seen names vs) nodes.items ≡ joined 0 (map (point_seen names vs) points.now) ways.now) }
{
    let mut nodes = Vec::new(alloc);
    for (i, point) in points.iter().enumerate() {
        if i < ways.len() {
            nodes.push(node(*point, ways[i], i + 1))?;
        }
    }
    Ok(nodes)
}
