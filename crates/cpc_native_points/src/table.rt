//! A table of the labels of a body: the number of what each is put before, and the way to that.
ghost use Rattle.std.specs.Prelude.{◌≡◌, ◌<◌, ◌-◌, ◌∷◌, ◌++◌, [], ℕ, List, length, slice_get, None, Some, IfOk, OnOk, cond, nat_eq, vec_len, vec_capacity};
ghost use Rattle.cpc_native_points.specs.Tabled.{HasWay, IsWay, or_place, place_at};

use crate::parts::Part;
use cpc_base::{Name, NoMemory};
use std::alloc::Global;
use std::collections::HashMap;

/// A statement in a body: which part it is of the statement around it, and the number of that one, if it is not the body.
#[derive(Clone, Copy)]
pub(crate) struct Node {
    pub(crate) part: Part,
    pub(crate) above: Option<usize>,
}

/// The statements in a body, numbered in the order of the text, and the numbers of those that labels are put before.
pub(crate) struct Table {
    pub(crate) nodes: Vec<Node>,
    places: HashMap<u64, usize>,
}

impl Drop for Table {
    fn drop(self) {
        let Table { nodes, places } = self;
        drop(nodes);
        drop(places);
    }
}

impl Table {
    /// No statement, and no label.
    pub(crate) fn new(alloc: Global) -> Self
        ensures nodes { result.nodes.items ≡ [] }
        ensures places { (x : ℕ) → place_at result x ≡ None }
    {
        Table {
            nodes: Vec::new(alloc),
            places: HashMap::new(alloc),
        }
    }

    /// One more statement, and its number. `NoMemory` is want of memory.
    pub(crate) fn add(&mut self, part: Part, above: Option<usize>) -> Result<usize, NoMemory>
        ensures number { IfOk result (λ number. number ≡ length self.old.nodes.items) }
        ensures nodes { OnOk result (self.new.nodes.items ≡ self.old.nodes.items ++ record { part = part; above = above } ∷ []) }
        ensures places { (x : ℕ) → place_at self.new x ≡ place_at self.old x }
    {
        let number = self.nodes.len();
        self.nodes.push(Node { part, above })?;
        Ok(number)
    }

    /// The number of the statement that the label of a name is put before.
    pub(crate) fn place(&self, name: Name) -> Option<usize>
        ensures { result ≡ place_at self.now name.0 }
    {
        match self.places.get(&name.0) {
            Some(place) => Some(*place),
            None => None,
        }
    }

    // The label of a name is put before the statement of this number, whatever it was before.
    fn set(&mut self, name: Name, place: usize) -> Result<(), NoMemory>
        ensures nodes { self.new.nodes.items ≡ self.old.nodes.items }
        ensures places { OnOk result ((x : ℕ) → place_at self.new x ≡ cond (nat_eq name.0 x) (Some place) (place_at self.old x)) }
    {
        self.places.insert(name.0, place)?;
        Ok(())
    }

    /// A label is put before the statement of this number, unless there was one of its name. `NoMemory` is want of memory.
    pub(crate) fn put(&mut self, name: Name, place: usize) -> Result<(), NoMemory>
        ensures nodes { self.new.nodes.items ≡ self.old.nodes.items }
        ensures places { OnOk result ((x : ℕ) → place_at self.new x ≡ or_place (place_at self.old x) (cond (nat_eq name.0 x) (Some place) None)) }
    {
        match self.place(name) {
            Some(_) => Ok(()),
            None => self.set(name, place),
        }
    }
}

// The statement of a number.
fn node_at(nodes: &[Node], number: usize) -> Node
    requires { number < length nodes.now }
    ensures { slice_get nodes.now number ≡ Some result }
{
    nodes[number]
}

/// Puts the way to a statement behind the path, which has room for it: the parts to take, from the body on.
pub(crate) fn climb(nodes: &[Node], at: Option<usize>, path: &mut Vec<Part>)
    requires { ∥ HasWay nodes.now at (vec_capacity path.old - vec_len path.old) ∥₁ }
    ensures items { (way : List Part) → IsWay nodes.now at way → path.new.items ≡ path.old.items ++ way }
    ensures capacity { vec_capacity path.new ≡ vec_capacity path.old }
{
    match at {
        None => {}
        Some(number) => {
            let node = node_at(nodes, number);
            climb(nodes, node.above, path);
            path.push_reserved(node.part);
        }
    }
}
