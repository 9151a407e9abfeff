//! That the steps of a graph's nodes have its flow.
ghost use Rattle.cpc_split.specs.Steps.{StepsAreNodes, StepsSplit};

/// The flow of a graph is that of its nodes' steps.
pub fn steps_are_nodes()
    ensures law { StepsAreNodes }
{}

/// So the owners and leaders by the steps of a function's graph are those of the split graph.
pub fn steps_split()
    ensures law { StepsSplit }
{}
