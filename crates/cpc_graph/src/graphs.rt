//! The graphs of a program.
ghost use Rattle.std.specs.Prelude.{◌≡◌, IfOk, map};

use crate::joining::nodes;
use crate::labels::Labels;
use crate::linking::body_ways;
use crate::marks::Marks;
use cpc_base::NoMemory;
use cpc_forms_code::{Boxed, BoxedFunction, Graph, GraphFunction};
use std::alloc::Global;

// The graph of a function.
fn graph_function<'a>(
    alloc: Global,
    boxed: &'a BoxedFunction<'a>,
) -> Result<GraphFunction<'a>, NoMemory>
    ensures { IfOk result (λ g. g.boxed.now ≡ boxed.now) }
{
    let mut marks = Marks::new(alloc);
    let end = marks.statement(&boxed.function.body, 0)?;
    let labels = Labels::of(alloc, marks.labels)?;
    let ways = body_ways(alloc, &boxed.function.body, &marks.ends, end, &labels)?;
    let nodes = nodes(alloc, &boxed.points, &ways)?;
    Ok(GraphFunction { boxed, nodes })
}

/// The graphs of the cps functions of a program. `NoMemory` is want of memory.
pub fn graph<'a>(alloc: Global, boxed: &'a Boxed<'a>) -> Result<Graph<'a>, NoMemory>
    ensures source { IfOk result (λ g. g.source.now ≡ boxed.now.source.now) }
    ensures functions { IfOk result (λ g. map (λ f. f.boxed.now) g.functions.items ≡ boxed.now.functions.items) }
{
    let mut functions = Vec::new(alloc);
    for function in &boxed.functions {
        functions.push(graph_function(alloc, function)?)?;
    }
    Ok(Graph {
        source: boxed.source,
        functions,
    })
}
