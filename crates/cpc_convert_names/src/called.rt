//! The names of what is made of a cps function.
ghost use Rattle.std.specs.Prelude.{◌≡◌, ◌<◌, ◌++◌, decimal, map, length, slice_get, Some, option_map, IfOk, OnOk};
ghost use Rattle.cpc_tree.specs.Erase as E;
ghost use Rattle.cpc_tree.specs.Erase.{Table, in_table, text_of};
ghost use Rattle.cpc_tree.specs.Registers.{or_empty};
ghost use Rattle.cpc_convert_common.specs.Converted.{marked};
ghost use Rattle.cpc_convert_routines.specs.Names.{variable_name, node_label, leader_name, start_name, value_tag, box_tag};
ghost use Rattle.cpc_forms_code.specs.declared.boxed.Variable.{Variable};
ghost use Rattle.cpc_convert_names.specs.Tables.{HasGrown, Spells};
ghost use Rattle.cpc_convert_names.specs.Counted.{counted, called_of, locals_from};
ghost use Rattle.cpc_convert_names.specs.Called as C;
ghost use Rattle.cpc_convert_names.specs.Called.{AreCalled, IsNamed};

use crate::interned::{interned, marked_name, numbered_name, spawner};
use cpc_base::{Name, Names, NoMemory};
use cpc_forms_code::{LiftedFunction, Node, Variable};
use cpc_tree::program::Function;
use std::alloc::Global;

/// The names of what is made of a cps function.
pub struct Called<'a> {
    pub lifted: &'a LiftedFunction<'a>,
    /// What a spawn calls.
    pub spawner: Name,
    /// The piece that a call enters, and the tag of its frames.
    pub start: Name,
    /// The tag of any frame at which the value of the function arrives.
    pub value: Name,
    /// For each node the piece that it would have as a leader, and the tag of that piece's frames.
    pub pieces: Vec<Name>,
    /// The label of each node.
    pub labels: Vec<Name>,
    /// The local of each variable.
    pub locals: Vec<Name>,
    /// For each variable the tag that its box would have.
    pub tags: Vec<Name>,
}

impl Drop for Called<'_> {
    fn drop(self) {
        let Called {
            lifted: _,
            spawner: _,
            start: _,
            value: _,
            pieces,
            labels,
            locals,
            tags,
        } = self;
        drop(pieces);
        drop(labels);
        drop(locals);
        drop(tags);
    }
}

// The names of so many numbers: a text with two underscores, a word and the number behind it. `NoMemory` is want of memory.
fn numbered_names(
    alloc: Global,
    names: &mut Names,
    of: Name,
    word: &[u8],
    count: usize,
) -> Result<Vec<Name>, NoMemory>
    ensures grown { OnOk result (HasGrown names.old names.new) }
    ensures are { IfOk result (λ all. (source : Table) (to : E.Names) → HasGrown source names.old → Spells names.new to → in_table source of ≡ to of
        → map (text_of to) all.items ≡ counted (λ k. marked (to of) (word.now ++ decimal k)) 0 count) }
{
    let mut all = Vec::new(alloc);
    for number in 0..count {
        let name = numbered_name(alloc, names, of, word, number)?;
        all.push(name)?;
    }
    Ok(all)
}

// The piece that a call of a function enters. `NoMemory` is want of memory.
#[tactic(auto, unfolding(cpc_convert_routines::specs::Names::start_name))]
fn start(alloc: Global, names: &mut Names, of: Name) -> Result<Name, NoMemory>
    ensures grown { OnOk result (HasGrown names.old names.new) }
    ensures is { IfOk result (λ n. (source : Table) (to : E.Names) → HasGrown source names.old → Spells names.new to → in_table source of ≡ to of → to n ≡ start_name (to of)) }
{
    let name = marked_name(alloc, names, of, b"start")?;
    Ok(name)
}

// The tag of the frames at which the value of a function arrives. `NoMemory` is want of memory.
#[tactic(auto, unfolding(cpc_convert_routines::specs::Names::value_tag))]
fn value(alloc: Global, names: &mut Names, of: Name) -> Result<Name, NoMemory>
    ensures grown { OnOk result (HasGrown names.old names.new) }
    ensures is { IfOk result (λ n. (source : Table) (to : E.Names) → HasGrown source names.old → Spells names.new to → in_table source of ≡ to of → to n ≡ value_tag (to of)) }
{
    let name = marked_name(alloc, names, of, b"value")?;
    Ok(name)
}

// The pieces that so many nodes of a function would have. `NoMemory` is want of memory.
#[tactic(auto, unfolding(cpc_convert_routines::specs::Names::leader_name))]
fn pieces(alloc: Global, names: &mut Names, of: Name, count: usize) -> Result<Vec<Name>, NoMemory>
    ensures grown { OnOk result (HasGrown names.old names.new) }
    ensures are { IfOk result (λ all. (source : Table) (to : E.Names) → HasGrown source names.old → Spells names.new to → in_table source of ≡ to of → map (text_of to) all.items ≡ counted (leader_name (to of)) 0 count) }
{
    let all = numbered_names(alloc, names, of, b"at", count)?;
    Ok(all)
}

// The tags that the boxes of so many variables of a function would have. `NoMemory` is want of memory.
#[tactic(auto, unfolding(cpc_convert_routines::specs::Names::box_tag))]
fn tags(alloc: Global, names: &mut Names, of: Name, count: usize) -> Result<Vec<Name>, NoMemory>
    ensures grown { OnOk result (HasGrown names.old names.new) }
    ensures are { IfOk result (λ all. (source : Table) (to : E.Names) → HasGrown source names.old → Spells names.new to → in_table source of ≡ to of → map (text_of to) all.items ≡ counted (box_tag (to of)) 0 count) }
{
    let all = numbered_names(alloc, names, of, b"box", count)?;
    Ok(all)
}

// The label of a node. `NoMemory` is want of memory.
#[tactic(auto, unfolding(cpc_convert_routines::specs::Names::node_label))]
fn label(alloc: Global, names: &mut Names, number: usize) -> Result<Name, NoMemory>
    ensures grown { OnOk result (HasGrown names.old names.new) }
    ensures is { IfOk result (λ name. (to : E.Names) → Spells names.new to → to name ≡ node_label number) }
{
    let text = format!(in alloc; "at{number}__")?;
    let name = interned(alloc, names, text.as_bytes())?;
    Ok(name)
}

// The labels of so many nodes. `NoMemory` is want of memory.
fn labels(alloc: Global, names: &mut Names, count: usize) -> Result<Vec<Name>, NoMemory>
    ensures grown { OnOk result (HasGrown names.old names.new) }
    ensures are { IfOk result (λ all. (to : E.Names) → Spells names.new to → map (text_of to) all.items ≡ counted node_label 0 count) }
{
    let mut all = Vec::new(alloc);
    for number in 0..count {
        let name = label(alloc, names, number)?;
        all.push(name)?;
    }
    Ok(all)
}

// The local of a variable of this number, which may have no name. `NoMemory` is want of memory.
#[tactic(auto, unfolding(cpc_convert_routines::specs::Names::variable_name))]
fn local(
    alloc: Global,
    names: &mut Names,
    of: Option<Name>,
    number: usize,
) -> Result<Name, NoMemory>
    ensures grown { OnOk result (HasGrown names.old names.new) }
    ensures is { IfOk result (λ n. (source : Table) (to : E.Names) → HasGrown source names.old → Spells names.new to → or_empty (option_map (text_of (in_table source)) of) ≡ or_empty (option_map (text_of to) of)
        → to n ≡ variable_name number (or_empty (option_map (text_of to) of))) }
{
    match of {
        Some(of) => {
            let name = numbered_name(alloc, names, of, b"", number)?;
            Ok(name)
        }
        None => {
            let text = format!(in alloc; "__{number}")?;
            let name = interned(alloc, names, text.as_bytes())?;
            Ok(name)
        }
    }
}

// The locals of variables. `NoMemory` is want of memory.
fn locals(
    alloc: Global,
    names: &mut Names,
    variables: &[Variable<'_>],
) -> Result<Vec<Name>, NoMemory>
    ensures grown { OnOk result (HasGrown names.old names.new) }
    ensures are { IfOk result (λ all. (source : Table) (to : E.Names) → HasGrown source names.old → Spells names.new to → map (called_of (in_table source)) variables.now ≡ map (called_of to) variables.now
        → map (text_of to) all.items ≡ locals_from to 0 variables.now) }
{
    let mut all = Vec::new(alloc);
    for number in 0..variables.len() {
        let name = local(alloc, names, variables[number].name, number)?;
        all.push(name)?;
    }
    Ok(all)
}

impl<'a> Called<'a> {
    /// The names of what is made of a function, which the table then has. `NoMemory` is want of memory.
    pub(crate) fn of(
        alloc: Global,
        names: &mut Names,
        lifted: &'a LiftedFunction<'a>,
    ) -> Result<Called<'a>, NoMemory>
        ensures grown { OnOk result (HasGrown names.old names.new) }
        ensures lifted { IfOk result (λ c. c.lifted.now ≡ lifted.now) }
        ensures are { IfOk result (λ c. (source : Table) (to : E.Names) → HasGrown source names.old → Spells names.new to → IsNamed source to lifted.now → AreCalled to c) }
    {
        let boxed = lifted.split.graph.boxed;
        let nodes = lifted.split.graph.nodes.len();
        let count = boxed.variables.len();
        let of = boxed.function.word.name;
        let spawner = spawner(alloc, names, of)?;
        let start = start(alloc, names, of)?;
        let value = value(alloc, names, of)?;
        let pieces = pieces(alloc, names, of, nodes)?;
        let labels = labels(alloc, names, nodes)?;
        let locals = locals(alloc, names, &boxed.variables)?;
        let tags = tags(alloc, names, of, count)?;
        Ok(Called {
            lifted,
            spawner,
            start,
            value,
            pieces,
            labels,
            locals,
            tags,
        })
    }

    /// The function.
    pub fn function(&self) -> &'a Function
        ensures { result.now ≡ C.function_in self.now.lifted.now }
    {
        self.lifted.split.graph.boxed.function
    }

    /// Its variables, the parameters first.
    pub fn variables(&self) -> &'a [Variable<'a>]
        ensures { result.now ≡ C.variables_in self.now.lifted.now }
    {
        &self.lifted.split.graph.boxed.variables
    }

    /// Its nodes.
    pub fn nodes(&self) -> &'a [Node<'a>]
        ensures { result.now ≡ C.nodes_in self.now.lifted.now }
    {
        &self.lifted.split.graph.nodes
    }

    /// The piece that a node would have as a leader.
    pub fn piece(&self, number: usize) -> Name
        ensures { (to : E.Names) → AreCalled to self.now → number < length (C.nodes_in self.now.lifted.now) → to result ≡ leader_name (C.name_in to self.now.lifted.now) number }
    {
        match self.pieces.get(number) {
            Some(name) => *name,
            None => self.start,
        }
    }

    /// The label of a node.
    pub fn label(&self, number: usize) -> Name
        ensures { (to : E.Names) → AreCalled to self.now → number < length (C.nodes_in self.now.lifted.now) → to result ≡ node_label number }
    {
        match self.labels.get(number) {
            Some(name) => *name,
            None => self.start,
        }
    }

    /// The local of a variable.
    pub fn local(&self, number: usize) -> Name
        ensures { (to : E.Names) (v : Variable) → AreCalled to self.now → slice_get (C.variables_in self.now.lifted.now) number ≡ Some v → to result ≡ variable_name number (called_of to v) }
    {
        match self.locals.get(number) {
            Some(name) => *name,
            None => self.start,
        }
    }

    /// The tag that the box of a variable would have.
    pub fn tag(&self, number: usize) -> Name
        ensures { (to : E.Names) → AreCalled to self.now → number < length (C.variables_in self.now.lifted.now) → to result ≡ box_tag (C.name_in to self.now.lifted.now) number }
    {
        match self.tags.get(number) {
            Some(name) => *name,
            None => self.start,
        }
    }
}
