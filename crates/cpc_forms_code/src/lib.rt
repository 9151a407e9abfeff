//! The forms through which a program of threads goes on its way to an event program, as code has them. Each borrows from the one before
//! it, and all of them from the trees of the source: nothing is copied. Each says of itself that it is what the definitions make of its source.
#![tactic(auto)]

mod boxed;
mod graph;
mod lifted;
mod numbers;
mod scopes;
mod split;

pub use boxed::{Boxed, BoxedFunction, BoxedPoint, Manner, Stood, Variable};
pub use graph::{Graph, GraphFunction, Node};
pub use lifted::{LiftedFunction, LiftedProgram};
pub use numbers::{is_next, keep_unless};
pub use scopes::slot;
pub use split::{Owner, SplitFunction, SplitProgram};
