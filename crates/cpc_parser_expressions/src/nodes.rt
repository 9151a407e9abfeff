//! Builds the trees of expressions.
ghost use Rattle.std.specs.Prelude.{◌≡◌, IfOk, IfErr};
ghost use Rattle.cpc_parser_types.specs.declared.refusal.Refusal.TheVariants.{Memory};
ghost use Rattle.cpc_tree.specs.Erase.{Names, type_of};
ghost use Rattle.cpc_tree.specs.Locate.{located_expr, located_exprs, ident};
ghost use Rattle.cpc_tree.specs.Located.{LUnary, LCast, LChoose, LIndex, LMember, LArrow};
ghost use Rattle.cpc_tree.specs.ExprGrammar.{operated};
ghost use Rattle.cpc_parser_types.specs.Views.{operator_of};
ghost use Rattle.cpc_parser_expressions.specs.ExprReaders.{called};
ghost use Rattle.cpc_parser_expressions.specs.ShapeViews.{shape_of, apart_of};

use crate::shape::{Apart, Shape};
use cpc_base::Place;
use cpc_parser_types::{Operator, Refusal, boxed, refused};
use cpc_tree::program::{CType, Expr, UnaryOp, Word};
use std::alloc::Global;

/// The expression of an operator and two operands.
pub fn operated(
    alloc: Global,
    op: Operator,
    place: Place,
    left: Expr,
    right: Expr,
) -> Result<Expr, Refusal>
    ensures is { IfOk result (λ e. (names : Names) → located_expr names e ≡ operated place (operator_of op) (located_expr names left) (located_expr names right)) }
    ensures out { IfErr result (λ e. e ≡ Memory) }
{
    let left = match boxed(alloc, left) {
        Ok(read) => read,
        Err(refusal) => return refused(right, refusal),
    };
    let right = match boxed(alloc, right) {
        Ok(read) => read,
        Err(refusal) => return refused(left, refusal),
    };
    Ok(match op {
        Operator::Binary(op) => Expr::Binary {
            place,
            op,
            left,
            right,
        },
        Operator::And => Expr::And { place, left, right },
        Operator::Or => Expr::Or { place, left, right },
    })
}

/// The expression of an operator and its operand.
pub fn signed(alloc: Global, op: UnaryOp, place: Place, operand: Expr) -> Result<Expr, Refusal>
    ensures is { IfOk result (λ e. (names : Names) → located_expr names e ≡ LUnary place op (located_expr names operand)) }
    ensures out { IfErr result (λ e. e ≡ Memory) }
{
    let operand = Box::new(alloc, operand)?;
    Ok(Expr::Unary { place, op, operand })
}

/// A cast.
pub fn cast(alloc: Global, place: Place, target: CType, operand: Expr) -> Result<Expr, Refusal>
    ensures is { IfOk result (λ e. (names : Names) → located_expr names e ≡ LCast place (type_of names target) (located_expr names operand)) }
    ensures out { IfErr result (λ e. e ≡ Memory) }
{
    let operand = match boxed(alloc, operand) {
        Ok(read) => read,
        Err(refusal) => return refused(target, refusal),
    };
    Ok(Expr::Cast {
        place,
        target,
        operand,
    })
}

/// A choice.
pub fn chosen(alloc: Global, place: Place, test: Expr, yes: Expr, no: Expr) -> Result<Expr, Refusal>
    ensures is { IfOk result (λ e. (names : Names) → located_expr names e ≡ LChoose place (located_expr names test) (located_expr names yes) (located_expr names no)) }
    ensures out { IfErr result (λ e. e ≡ Memory) }
{
    let test = match boxed(alloc, test) {
        Ok(read) => read,
        Err(refusal) => return refused((yes, no), refusal),
    };
    let yes = match boxed(alloc, yes) {
        Ok(read) => read,
        Err(refusal) => return refused((test, no), refusal),
    };
    let no = match boxed(alloc, no) {
        Ok(read) => read,
        Err(refusal) => return refused((test, yes), refusal),
    };
    Ok(Expr::Choose {
        place,
        test,
        yes,
        no,
    })
}

/// A call, taken apart or not.
pub fn call(
    alloc: Global,
    apart: Apart,
    place: Place,
    function: Expr,
    arguments: Vec<Expr>,
) -> Result<Shape, Refusal>
    ensures is { IfOk result (λ s. (names : Names) → shape_of names s ≡ called (apart_of apart) place (located_expr names function) (located_exprs names arguments.items)) }
    ensures out { IfErr result (λ e. e ≡ Memory) }
{
    match apart {
        Apart::Never => {
            let function = match boxed(alloc, function) {
                Ok(read) => read,
                Err(refusal) => return refused(arguments, refusal),
            };
            Ok(Shape::Postfix(Expr::CallIn {
                place,
                function,
                arguments,
            }))
        }
        Apart::Bare => Ok(Shape::Call {
            place,
            function,
            arguments,
        }),
        Apart::Bracketed => Ok(Shape::Call {
            place,
            function,
            arguments,
        }),
    }
}

/// An element.
pub fn indexed(alloc: Global, place: Place, operand: Expr, index: Expr) -> Result<Expr, Refusal>
    ensures is { IfOk result (λ e. (names : Names) → located_expr names e ≡ LIndex place (located_expr names operand) (located_expr names index)) }
    ensures out { IfErr result (λ e. e ≡ Memory) }
{
    let operand = match boxed(alloc, operand) {
        Ok(read) => read,
        Err(refusal) => return refused(index, refusal),
    };
    let index = match boxed(alloc, index) {
        Ok(read) => read,
        Err(refusal) => return refused(operand, refusal),
    };
    Ok(Expr::Index {
        place,
        operand,
        index,
    })
}

/// A field of a struct.
pub fn member(alloc: Global, place: Place, operand: Expr, field: Word) -> Result<Expr, Refusal>
    ensures is { IfOk result (λ e. (names : Names) → located_expr names e ≡ LMember place (located_expr names operand) (ident names field)) }
    ensures out { IfErr result (λ e. e ≡ Memory) }
{
    let operand = Box::new(alloc, operand)?;
    Ok(Expr::Member {
        place,
        operand,
        field,
    })
}

/// A field of what a pointer points to.
pub fn arrow(alloc: Global, place: Place, operand: Expr, field: Word) -> Result<Expr, Refusal>
    ensures is { IfOk result (λ e. (names : Names) → located_expr names e ≡ LArrow place (located_expr names operand) (ident names field)) }
    ensures out { IfErr result (λ e. e ≡ Memory) }
{
    let operand = Box::new(alloc, operand)?;
    Ok(Expr::Arrow {
        place,
        operand,
        field,
    })
}
