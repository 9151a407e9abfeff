//! Split programs with the closures of their owners.
ghost use Rattle.std.specs.Prelude.{◌≡◌, map};
ghost use Rattle.cpc_forms_code.specs.Lifts.{IsLifted};
ghost use Rattle.cpc_forms_code.specs.Programs.{cps_functions};

use crate::split::SplitFunction;
use cpc_tree::program::Program;

/// A cps function with the closures of its owners: the variables that the frames of a piece keep, by their numbers in order. The first row
/// is that of the start, and behind it there is one for each node, whether it is a leader or not.
#[derive(Drop)]
pub struct LiftedFunction<'a> {
    pub split: &'a SplitFunction<'a>,
    pub closures: Vec<Vec<usize>>,
    pub ghost formed: { ∥ IsLifted split.now (map (λ row. row.items) closures.items) ∥₁ },
}

/// A program with the closures of its cps functions, in the order of the text.
#[derive(Drop)]
pub struct LiftedProgram<'a> {
    pub source: &'a Program,
    pub functions: Vec<LiftedFunction<'a>>,
    pub ghost whole: { ∥ map (λ f. f.split.now.graph.now.boxed.now.function.now) functions.items ≡ cps_functions source.now.items.items ∥₁ },
}
