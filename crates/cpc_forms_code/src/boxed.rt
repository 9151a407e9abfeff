//! The boxed form: which variables are registers, which names are in scope at each point, and how each statement is left.
ghost use Rattle.std.specs.Prelude.{◌≡◌, map};
ghost use Rattle.cpc_forms_code.specs.Points.{IsBoxed};
ghost use Rattle.cpc_forms_code.specs.Programs.{cps_functions};

use cpc_base::Name;
use cpc_tree::program::{CType, Expr, Function, Program, Statement};

/// How a statement is left.
#[derive(Clone, Copy)]
pub enum Manner {
    /// In its own step.
    InPlace,
    /// Over the frame of the function that it calls.
    ByFrame,
    /// As a cps statement, which waits.
    AsCps,
}

/// A variable of a function.
#[derive(Clone, Copy)]
pub struct Variable<'a> {
    /// Its name; a parameter may have none.
    pub name: Option<Name>,
    pub of: &'a CType,
    /// Whether it is a register. Any other variable has a block, a box.
    pub is_register: bool,
    /// The innermost of the variables in whose scope it is declared, by its number.
    pub outer: Option<usize>,
}

/// What stands at a point.
#[derive(Clone, Copy)]
pub enum Stood<'a> {
    /// A simple statement.
    Simple(&'a Statement),
    /// A block without statements.
    Empty,
    /// A test; a `for` may have none.
    Test(Option<&'a Expr>),
    /// A call or a section at which its value arrives.
    Arrival(&'a Statement),
    /// The end of the body.
    End,
}

/// A point of a function: what stands there, the innermost variable in scope by its number, and how it is left. The point of an arrival
/// has the manner of its statement.
#[derive(Clone, Copy)]
pub struct BoxedPoint<'a> {
    pub stood: Stood<'a>,
    pub scope: Option<usize>,
    pub manner: Manner,
}

/// A cps function: its variables in order, the parameters first, and its points in the order of the text, the end last.
pub struct BoxedFunction<'a> {
    pub source: &'a Program,
    pub function: &'a Function,
    pub variables: Vec<Variable<'a>>,
    pub points: Vec<BoxedPoint<'a>>,
    pub ghost formed: { ∥ IsBoxed source.now function.now variables.items points.items ∥₁ },
}

impl Drop for BoxedFunction<'_> {
    fn drop(self) {
        let BoxedFunction {
            source: _,
            function: _,
            variables,
            points,
        } = self;
        drop(variables);
        drop(points);
    }
}

/// A program whose cps functions are boxed, in the order of the text.
#[derive(Drop)]
pub struct Boxed<'a> {
    pub source: &'a Program,
    pub functions: Vec<BoxedFunction<'a>>,
    pub ghost whole: { ∥ map (λ f. f.function.now) functions.items ≡ cps_functions source.now.items.items ∥₁ },
}
