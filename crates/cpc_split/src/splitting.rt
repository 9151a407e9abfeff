//! Split programs: the owners of nodes and the leaders, function by function.
ghost use Rattle.std.specs.Prelude.{◌≡◌, List, map, IfOk};
ghost use Rattle.cpc_tree.specs.Erase.{Names};
ghost use Rattle.cpc_forms.specs.Flow.{resumes_at};
ghost use Rattle.cpc_forms_code.specs.declared.boxed.Variable as V;
ghost use Rattle.cpc_forms_code.specs.Seen.{manner_seen, stood_seen};
ghost use Rattle.cpc_forms_code.specs.Graphs.{node_seen};
ghost use Rattle.cpc_split.specs.Steps.{call_of, step_of};

use crate::owning::split_steps;
use crate::steps::Step;
use cpc_base::NoMemory;
use cpc_forms_code::{Graph, GraphFunction, Manner, Node, SplitFunction, SplitProgram, Stood};
use std::alloc::Global;

// The arrival, except of a cps statement.
fn call(manner: Manner, arrival: Option<usize>) -> Option<usize>
    ensures { result ≡ call_of (manner_seen manner) arrival }
{
    match manner {
        Manner::AsCps => None,
        Manner::InPlace | Manner::ByFrame => arrival,
    }
}

// Whether a wait ends where this stands.
fn resumes(stood: Stood<'_>, manner: Manner) -> bool
    ensures { (names : Names) → result ≡ resumes_at (stood_seen names stood.entry) (manner_seen manner) }
{
    match stood {
        Stood::Arrival(_) => match manner {
            Manner::AsCps => true,
            Manner::InPlace | Manner::ByFrame => false,
        },
        Stood::Simple(_) | Stood::Empty | Stood::Test(_) | Stood::End => false,
    }
}

// Where control goes from a node.
fn step(node: &Node<'_>) -> Step
    ensures { (names : Names) (vs : List V.Variable) → result ≡ step_of (node_seen names vs node.now) }
{
    Step {
        yes: node.yes,
        no: node.no,
        call: call(node.manner, node.arrival),
        resumes: resumes(node.stood, node.manner),
    }
}

// Where control goes from these nodes.
fn steps(alloc: Global, nodes: &[Node<'_>]) -> Result<Vec<Step>, NoMemory>
    ensures { IfOk result (λ steps. (names : Names) (vs : List V.Variable) → steps.items ≡ map step_of (map (node_seen names vs) nodes.now)) }
{
    let mut steps = Vec::new(alloc);
    for node in nodes {
        steps.push(step(node))?;
    }
    Ok(steps)
}

// A function with the owners of its nodes.
fn split_function<'a>(
    alloc: Global,
    graph: &'a GraphFunction<'a>,
) -> Result<SplitFunction<'a>, NoMemory>
    ensures { IfOk result (λ s. s.graph.now ≡ graph.now) }
{
    let steps = steps(alloc, &graph.nodes)?;
    let found = split_steps(alloc, 0, &steps)?;
    Ok(SplitFunction {
        graph,
        owners: found.owners,
        leaders: found.leaders,
    })
}

/// The cps functions of a program with the owners of their nodes. `NoMemory` is want of memory.
pub fn split<'a>(alloc: Global, source: &'a Graph<'a>) -> Result<SplitProgram<'a>, NoMemory>
    ensures source { IfOk result (λ s. s.source.now ≡ source.now.source.now) }
    ensures functions { IfOk result (λ s. map (λ f. f.graph.now) s.functions.items ≡ source.now.functions.items) }
{
    let mut functions = Vec::new(alloc);
    for function in &source.functions {
        functions.push(split_function(alloc, function)?)?;
    }
    Ok(SplitProgram {
        source: source.source,
        functions,
    })
}
