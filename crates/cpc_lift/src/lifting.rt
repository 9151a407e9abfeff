//! Lifted programs: the closures of owners, function by function.
ghost use Rattle.std.specs.Prelude.{◌≡◌, IfOk, map};

use crate::gathering::{Gathered, boxes};
use cpc_base::NoMemory;
use cpc_forms_code::{LiftedFunction, LiftedProgram, SplitFunction, SplitProgram};
use cpc_lift_closures::closures;
use std::alloc::Global;

// A function with the closures of its owners.
fn lift_function<'a>(
    alloc: Global,
    split: &'a SplitFunction<'a>,
) -> Result<LiftedFunction<'a>, NoMemory>
    ensures { IfOk result (λ l. l.split.now ≡ split.now) }
{
    let graph = split.graph;
    let variables = &graph.boxed.variables;
    let boxes = boxes(alloc, variables)?;
    let all = Gathered::of(alloc, &graph.nodes, &split.owners, variables, &boxes)?;
    let owners = graph.nodes.len() + 1;
    let closures = closures(alloc, owners, variables.len(), &all.ways, &all.uses)?;
    Ok(LiftedFunction { split, closures })
}

/// The cps functions of a program with the closures of their owners. `NoMemory` is want of memory.
pub fn lift<'a>(alloc: Global, source: &'a SplitProgram<'a>) -> Result<LiftedProgram<'a>, NoMemory>
    ensures source { IfOk result (λ l. l.source.now ≡ source.now.source.now) }
    ensures functions { IfOk result (λ l. map (λ f. f.split.now) l.functions.items ≡ source.now.functions.items) }
{
    let mut functions = Vec::new(alloc);
    for function in &source.functions {
        functions.push(lift_function(alloc, function)?)?;
    }
    Ok(LiftedProgram {
        source: source.source,
        functions,
    })
}
