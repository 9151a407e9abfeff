//! What is read of an expression.
ghost use Rattle.std.specs.Prelude.{◌≡◌, IfOk, IfErr};
ghost use Rattle.cpc_parser_types.specs.declared.refusal.Refusal.TheVariants.{Memory};
ghost use Rattle.cpc_tree.specs.Erase.{Names};
ghost use Rattle.cpc_tree.specs.Locate.{located_expr};
ghost use Rattle.cpc_parser_expressions.specs.Shapes.{whole, extra};
ghost use Rattle.cpc_parser_expressions.specs.ShapeViews.{shape_of, apart_of};
ghost use Rattle.cpc_parser_expressions.specs.ExprReaders.{inside, opened, call_count};

use cpc_base::Place;
use cpc_parser_types::{Refusal, boxed, refused};
use cpc_tree::program::Expr;
use std::alloc::Global;

/// Which calls are taken apart. A call that is taken apart counts nothing in the nesting, until more is put round it.
#[derive(Clone, Copy)]
pub enum Apart {
    /// None: a call is an expression.
    Never,
    /// One that is the whole, and in no parentheses.
    Bare,
    /// One that is the whole, in any parentheses.
    Bracketed,
}

/// What was read of an expression.
#[derive(Drop)]
pub enum Shape {
    /// A call taken apart. `place` is that of its bracket.
    Call {
        place: Place,
        function: Expr,
        arguments: Vec<Expr>,
    },
    /// A postfix expression.
    Postfix(Expr),
    /// Any other.
    Other(Expr),
}

impl Shape {
    /// How much the expression counts more than the shape.
    pub fn extra(&self) -> usize
        ensures { (names : Names) → result ≡ extra (shape_of names self.now) }
    {
        match self {
            Shape::Call { .. } => 1,
            _ => 0,
        }
    }

    /// The expression.
    pub fn whole(self, alloc: Global) -> Result<Expr, Refusal>
        ensures is { IfOk result (λ e. (names : Names) → located_expr names e ≡ whole (shape_of names self)) }
        ensures out { IfErr result (λ e. e ≡ Memory) }
    {
        match self {
            Shape::Call {
                place,
                function,
                arguments,
            } => {
                let function = match boxed(alloc, function) {
                    Ok(read) => read,
                    Err(refusal) => return refused(arguments, refusal),
                };
                Ok(Expr::CallIn {
                    place,
                    function,
                    arguments,
                })
            }
            Shape::Postfix(expr) => Ok(expr),
            Shape::Other(expr) => Ok(expr),
        }
    }
}

/// Which calls are taken apart inside parentheses.
pub fn inside(apart: Apart) -> Apart
    ensures { apart_of result ≡ inside (apart_of apart) }
{
    match apart {
        Apart::Never => Apart::Never,
        Apart::Bare => Apart::Never,
        Apart::Bracketed => Apart::Bracketed,
    }
}

/// How much a call counts itself.
pub fn call_count(apart: Apart) -> usize
    ensures { result ≡ call_count (apart_of apart) }
{
    match apart {
        Apart::Never => 1,
        Apart::Bare => 0,
        Apart::Bracketed => 0,
    }
}

/// What was read, in parentheses.
pub fn opened(shape: Shape) -> Shape
    ensures { (names : Names) → shape_of names result ≡ opened (shape_of names shape) }
{
    match shape {
        Shape::Other(expr) => Shape::Postfix(expr),
        Shape::Postfix(expr) => Shape::Postfix(expr),
        Shape::Call {
            place,
            function,
            arguments,
        } => Shape::Call {
            place,
            function,
            arguments,
        },
    }
}
