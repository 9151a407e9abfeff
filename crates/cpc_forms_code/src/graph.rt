//! The flow graphs of cps functions.
ghost use Rattle.std.specs.Prelude.{◌≡◌, map};
ghost use Rattle.cpc_forms_code.specs.Graphs.{IsGraph};
ghost use Rattle.cpc_forms_code.specs.Programs.{cps_functions};

use crate::boxed::{BoxedFunction, Manner, Stood};
use cpc_tree::program::Program;

/// What stands at a node, the innermost variable in scope, and how it is left; the numbers of the nodes that come next, as a test there
/// holds or not, and of the node where its value arrives.
#[derive(Clone, Copy)]
pub struct Node<'a> {
    pub stood: Stood<'a>,
    pub scope: Option<usize>,
    pub manner: Manner,
    pub yes: Option<usize>,
    pub no: Option<usize>,
    pub arrival: Option<usize>,
}

/// A cps function with a node for each of its points, in the order of the text. It begins at node 0.
#[derive(Drop)]
pub struct GraphFunction<'a> {
    pub boxed: &'a BoxedFunction<'a>,
    pub nodes: Vec<Node<'a>>,
    pub ghost formed: { ∥ IsGraph boxed.now nodes.items ∥₁ },
}

/// A program with the graphs of its cps functions, in the order of the text.
#[derive(Drop)]
pub struct Graph<'a> {
    pub source: &'a Program,
    pub functions: Vec<GraphFunction<'a>>,
    pub ghost whole: { ∥ map (λ f. f.boxed.now.function.now) functions.items ≡ cps_functions source.now.items.items ∥₁ },
}
