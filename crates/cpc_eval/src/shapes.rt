//! Types of expressions, by references into the trees.
ghost use Rattle.std.specs.Prelude.{◌≡◌, option_map};
ghost use Rattle.cpc_tree.specs.Erase.{Names, type_of};
ghost use Rattle.cpc_tree.specs.Typing as T;
ghost use Rattle.cpc_meaning.specs.Layout as L;
ghost use Rattle.cpc_eval.specs.Shapes.{shape_of, shapes_of, typed_of};

use cpc_eval_values::scalar_of;
use cpc_num::Kind;
use cpc_store::Scalar;
use cpc_tree::program::{CType, Parameter};

/// A type, by references into a tree.
#[derive(Clone, Copy)]
pub enum Shape<'a> {
    /// A type that stands in the tree.
    Given(&'a CType),
    /// An integer type.
    Int(Kind),
    /// A pointer to a type.
    PointerTo(&'a CType),
    /// The type of a function that has this result and these parameters.
    CodeOf {
        result: &'a CType,
        parameters: &'a [Parameter],
    },
}

/// The type of an expression: of a value, or of a place.
#[derive(Clone, Copy)]
pub enum Typed<'a> {
    Value(Shape<'a>),
    Place(&'a CType),
}

/// The kind of an integer type.
pub(crate) fn kind_of(shape: Shape) -> Option<Kind>
    ensures { (names : Names) → result ≡ T.integer (shape_of names shape.entry) }
{
    match shape {
        Shape::Given(CType::Int(kind)) => Some(*kind),
        Shape::Int(kind) => Some(kind),
        _ => None,
    }
}

/// What a pointer type points to.
pub(crate) fn pointee(shape: Shape) -> Option<&CType>
    ensures { (names : Names) → option_map (λ to. type_of names to.now) result ≡ T.target (shape_of names shape.entry) }
{
    match shape {
        Shape::Given(CType::Pointer(to)) => Some(to),
        Shape::PointerTo(to) => Some(to),
        _ => None,
    }
}

/// What the one cell of a scalar type holds; `None` for another type.
pub(crate) fn scalar(shape: Shape) -> Option<Scalar>
    ensures { (names : Names) → result ≡ L.scalar_of (shape_of names shape.entry) }
{
    match shape {
        Shape::Given(of) => scalar_of(of),
        Shape::Int(kind) => Some(Scalar::Int(kind)),
        Shape::PointerTo(_) => Some(Scalar::Pointer),
        Shape::CodeOf { .. } => Some(Scalar::Code),
    }
}

/// The type of a pointer to a place of a type: of an array, to its element.
pub(crate) fn pointer_shape(of: &CType) -> Shape<'_>
    ensures { (names : Names) → shape_of names result ≡ T.pointer_type (type_of names of.now) }
{
    match of {
        CType::Array(element, _) => Shape::PointerTo(element),
        _ => Shape::PointerTo(of),
    }
}

/// The type of a value, or of what a place gives where it is used as a value.
pub(crate) fn used(typed: Typed) -> Option<Shape>
    ensures { (names : Names) → shapes_of names result ≡ T.used (typed_of names typed.entry) }
{
    match typed {
        Typed::Value(shape) => Some(shape),
        Typed::Place(of) => match of {
            CType::Array(element, _) => Some(Shape::PointerTo(element)),
            CType::Struct(_) => None,
            _ => Some(Shape::Given(of)),
        },
    }
}
