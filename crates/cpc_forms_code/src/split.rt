//! Graphs whose nodes have owners.
ghost use Rattle.std.specs.Prelude.{◌≡◌, map};
ghost use Rattle.cpc_forms_code.specs.Splits.{IsSplit};
ghost use Rattle.cpc_forms_code.specs.Programs.{cps_functions};

use crate::graph::GraphFunction;
use cpc_tree::program::Program;

/// The start of a function, or a leader, by its number.
#[derive(Clone, Copy)]
pub enum Owner {
    Start,
    Leader(usize),
}

/// A cps function with the owner of each node, and the leaders in the order of their numbers. A node without an owner is one to which
/// control never comes; of those to which it never comes, a leader owns itself and what it alone leads to.
pub struct SplitFunction<'a> {
    pub graph: &'a GraphFunction<'a>,
    pub owners: Vec<Option<Owner>>,
    pub leaders: Vec<usize>,
    pub ghost formed: { ∥ IsSplit graph.now owners.items leaders.items ∥₁ },
}

impl Drop for SplitFunction<'_> {
    fn drop(self) {
        let SplitFunction {
            graph: _,
            owners,
            leaders,
        } = self;
        drop(owners);
        drop(leaders);
    }
}

/// A program whose cps functions are split, in the order of the text.
#[derive(Drop)]
pub struct SplitProgram<'a> {
    pub source: &'a Program,
    pub functions: Vec<SplitFunction<'a>>,
    pub ghost whole: { ∥ map (λ f. f.graph.now.boxed.now.function.now) functions.items ≡ cps_functions source.now.items.items ∥₁ },
}
