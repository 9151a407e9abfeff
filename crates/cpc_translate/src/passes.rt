//! The passes, one behind another: each lends its form to the next.
ghost use Rattle.std.specs.Prelude.{IfOk};
ghost use Rattle.cpc_tree.specs.Erase.{program_of};
ghost use Rattle.cpc_printer.specs.Style.{IsPrint};
ghost use Rattle.cpc_chains_event.specs.Converted as E;
ghost use Rattle.cpc_chains_code.specs.Laws.{AreOf};
ghost use Rattle.cpc_translate.specs.Passes.{IsGiven, AreOfBoxed, AreOfGraph, AreOfSplit};

use cpc_base::NoMemory;
use cpc_chains_code::convert;
use cpc_forms_code::{Boxed, Graph, LiftedProgram, SplitProgram};
use cpc_graph::graph;
use cpc_lift::lift;
use cpc_printer::print;
use cpc_split::split;
use std::alloc::Global;

// The text of the event program of a lifted one.
fn lifted_text(alloc: Global, lifted: &LiftedProgram<'_>) -> Result<Vec<u8>, NoMemory>
    requires given { IsGiven lifted.now.source.now }
    requires functions { AreOf lifted.now }
    ensures { IfOk result (λ printed. IsPrint printed.items (E.converted (program_of lifted.now.source.now))) }
{
    let event = convert(alloc, lifted)?;
    print(alloc, &event)
}

// The text of the event program of a split one.
fn split_text(alloc: Global, split: &SplitProgram<'_>) -> Result<Vec<u8>, NoMemory>
    requires given { IsGiven split.now.source.now }
    requires functions { AreOfSplit split.now }
    ensures { IfOk result (λ printed. IsPrint printed.items (E.converted (program_of split.now.source.now))) }
{
    let lifted = lift(alloc, split)?;
    lifted_text(alloc, &lifted)
}

// The text of the event program of the graphs of one.
fn graph_text(alloc: Global, graph: &Graph<'_>) -> Result<Vec<u8>, NoMemory>
    requires given { IsGiven graph.now.source.now }
    requires functions { AreOfGraph graph.now }
    ensures { IfOk result (λ printed. IsPrint printed.items (E.converted (program_of graph.now.source.now))) }
{
    let split = split(alloc, graph)?;
    split_text(alloc, &split)
}

/// The text of the event program of a boxed one. `NoMemory` is want of memory.
pub(crate) fn boxed_text(alloc: Global, boxed: &Boxed<'_>) -> Result<Vec<u8>, NoMemory>
    requires given { IsGiven boxed.now.source.now }
    requires functions { AreOfBoxed boxed.now }
    ensures { IfOk result (λ printed. IsPrint printed.items (E.converted (program_of boxed.now.source.now))) }
{
    let graph = graph(alloc, boxed)?;
    graph_text(alloc, &graph)
}
