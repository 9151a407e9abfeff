//! Lifted functions as texts.
use crate::sheet::Sheet;
use cpc_base::{Names, NoMemory};
use cpc_box::boxed;
use cpc_check::Checked;
use cpc_forms_code::{
    Boxed, Graph, LiftedFunction, LiftedProgram, Manner, Node, Owner, SplitProgram, Stood, Variable,
};
use cpc_graph::graph;
use cpc_lift::lift;
use cpc_native_laws::is_spelled;
use cpc_split::split;
use cpc_tree::program::Statement;
use std::alloc::Global;

// A simple statement in a word or two.
fn statement_word(s: &Statement) -> &'static str {
    match s {
        Statement::Empty { .. } => "empty",
        Statement::Declare { .. } => "declare",
        Statement::Assign { .. } => "assign",
        Statement::Call { .. } => "call",
        Statement::Detach { .. } => "section",
        Statement::Spawn { .. } => "spawn",
        Statement::Goto { .. } => "goto",
        Statement::Break { .. } => "break",
        Statement::Continue { .. } => "continue",
        Statement::Return { .. } => "return",
        _ => "no simple statement",
    }
}

// What stands at a node.
fn stood_word(stood: Stood<'_>) -> &'static str {
    match stood {
        Stood::Simple(s) => statement_word(s),
        Stood::Empty => "empty block",
        Stood::Test(Some(_)) => "test",
        Stood::Test(None) => "for without a test",
        Stood::Arrival(_) => "arrival",
        Stood::End => "end",
    }
}

// How it is left.
fn manner_word(manner: Manner) -> &'static str {
    match manner {
        Manner::InPlace => "in place",
        Manner::ByFrame => "by frame",
        Manner::AsCps => "as cps",
    }
}

// How a variable is kept.
fn kept_word(is_register: bool) -> &'static str {
    if is_register { "register" } else { "box" }
}

// An owner, or a dash where there is none.
fn show_owner(owner: Option<Owner>, to: &mut Sheet) -> Result<(), NoMemory> {
    match owner {
        Some(Owner::Start) => to.say("start"),
        Some(Owner::Leader(node)) => {
            to.say("leader ")?;
            to.number(node)
        }
        None => to.say("-"),
    }
}

// The text of a variable's name.
fn show_name(variable: &Variable<'_>, names: &Names, to: &mut Sheet) -> Result<(), NoMemory> {
    match variable.name {
        Some(name) => to.put(names.text(name).unwrap_or(b"?")),
        None => to.say("-"),
    }
}

// A variable of a number.
fn show_variable(
    number: usize,
    variable: &Variable<'_>,
    names: &Names,
    to: &mut Sheet,
) -> Result<(), NoMemory> {
    to.say("  variable ")?;
    to.number(number)?;
    to.say(": ")?;
    show_name(variable, names, to)?;
    to.say(", ")?;
    to.say(kept_word(variable.is_register))?;
    to.say("\n")
}

// A node of a number, which has this owner.
fn show_node(
    number: usize,
    node: &Node<'_>,
    owner: Option<Owner>,
    to: &mut Sheet,
) -> Result<(), NoMemory> {
    to.say("  node ")?;
    to.number(number)?;
    to.say(": ")?;
    to.say(stood_word(node.stood))?;
    to.say(", ")?;
    to.say(manner_word(node.manner))?;
    to.say(", yes ")?;
    to.maybe(node.yes)?;
    to.say(", no ")?;
    to.maybe(node.no)?;
    to.say(", arrival ")?;
    to.maybe(node.arrival)?;
    to.say(", owner ")?;
    show_owner(owner, to)?;
    to.say("\n")
}

// What an owner keeps, by its place among the closures.
fn show_closure(
    owner: Owner,
    place: usize,
    closures: &[Vec<usize>],
    to: &mut Sheet,
) -> Result<(), NoMemory> {
    to.say("  ")?;
    show_owner(Some(owner), to)?;
    to.say(" keeps:")?;
    if place < closures.len() {
        for variable in &closures[place] {
            to.say(" ")?;
            to.number(*variable)?;
        }
    }
    to.say("\n")
}

// The variables of a function.
fn show_variables(
    variables: &[Variable<'_>],
    names: &Names,
    to: &mut Sheet,
) -> Result<(), NoMemory> {
    for i in 0..variables.len() {
        show_variable(i, &variables[i], names, to)?;
    }
    Ok(())
}

// The nodes of a function, with their owners.
fn show_nodes(
    nodes: &[Node<'_>],
    owners: &[Option<Owner>],
    to: &mut Sheet,
) -> Result<(), NoMemory> {
    for i in 0..nodes.len() {
        if i < owners.len() {
            show_node(i, &nodes[i], owners[i], to)?;
        }
    }
    Ok(())
}

// The closures of the start and of the leaders.
fn show_closures(
    leaders: &[usize],
    closures: &[Vec<usize>],
    to: &mut Sheet,
) -> Result<(), NoMemory> {
    show_closure(Owner::Start, 0, closures, to)?;
    for leader in leaders {
        show_closure(
            Owner::Leader(*leader),
            leader.saturating_add(1),
            closures,
            to,
        )?;
    }
    Ok(())
}

// A function.
fn show_function(
    function: &LiftedFunction<'_>,
    names: &Names,
    to: &mut Sheet,
) -> Result<(), NoMemory> {
    let split = function.split;
    let graph = split.graph;
    let boxed = graph.boxed;
    to.put(names.text(boxed.function.word.name).unwrap_or(b"?"))?;
    to.say("\n")?;
    show_variables(&boxed.variables, names, to)?;
    show_nodes(&graph.nodes, &split.owners, to)?;
    show_closures(&split.leaders, &function.closures, to)
}

// The functions of a lifted program.
fn lifted_shown(alloc: Global, lifted: &LiftedProgram<'_>) -> Result<Vec<u8>, NoMemory> {
    let mut sheet = Sheet::new(alloc);
    for function in &lifted.functions {
        show_function(function, &lifted.source.names, &mut sheet)?;
    }
    Ok(sheet.into_bytes())
}

// Those of a split one.
fn split_shown(alloc: Global, split: &SplitProgram<'_>) -> Result<Vec<u8>, NoMemory> {
    let lifted = lift(alloc, split)?;
    lifted_shown(alloc, &lifted)
}

// Those of the graphs of one.
fn graph_shown(alloc: Global, graph: &Graph<'_>) -> Result<Vec<u8>, NoMemory> {
    let split = split(alloc, graph)?;
    split_shown(alloc, &split)
}

// Those of a boxed one.
fn boxed_shown(alloc: Global, boxed: &Boxed<'_>) -> Result<Vec<u8>, NoMemory> {
    let graph = graph(alloc, boxed)?;
    graph_shown(alloc, &graph)
}

/// What the passes make of the cps functions of a program. `NoMemory` is want of memory.
pub(crate) fn checked_shown(alloc: Global, checked: &Checked) -> Result<Vec<u8>, NoMemory> {
    is_spelled(checked);
    let boxed = boxed(alloc, &checked.program, checked.index())?;
    boxed_shown(alloc, &boxed)
}
