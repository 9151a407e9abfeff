//! The types of the forms of expressions by those of their parts, and of expressions that are not evaluated.
ghost use Rattle.std.specs.Prelude.{◌≡◌, Bool, true, Option, Some, option_map};
ghost use Rattle.cpc_num.specs.declared.kinds.Kind.TheVariants as K;
ghost use Rattle.cpc_tree.specs.Erase.{Names, expr_of, type_of};
ghost use Rattle.cpc_tree.specs.Syntax.{Ty, Program, TyInt};
ghost use Rattle.cpc_tree.specs.declared.program.UnaryOp.TheVariants as U;
ghost use Rattle.cpc_shapes.specs.Found.{used_of};
ghost use Rattle.cpc_eval_index.specs.Sized.{capped_field};
ghost use Rattle.cpc_tree.specs.Typing as T;
ghost use Rattle.cpc_check_rules.specs.Apart.{AreApart};
ghost use Rattle.cpc_eval_index.specs.Indexed.{items_of};
ghost use Rattle.cpc_eval_index.specs.Meanings.{meant_if};
ghost use Rattle.cpc_shapes.specs.Forms.{unary_of, binary_of, choice_of, index_of, member_of, arrow_of};
ghost use Rattle.cpc_meaning.specs.Eval as E;
ghost use Rattle.cpc_eval.specs.Around.{context_of, IsToldIn, type_in, type_within};
ghost use Rattle.cpc_eval.specs.Shapes.{shape_of, shapes_of, types_of, field_among, Agrees};

use crate::around::Around;
use crate::shapes::{Shape, Typed, kind_of, pointee, pointer_shape, used};
use cpc_base::Name;
use cpc_eval_index::{Index, Meant};
use cpc_num::{Kind, Op, common, promoted};
use cpc_shapes::is_named;
use cpc_tree::program::{CType, Expr, Mode, UnaryOp};

/// The type of an expression, where it has one; where it has none there may be any. It takes no memory.
#[cycle(typing)]
pub(crate) fn typed<'a>(e: &'a Expr, around: &Around<'a>) -> Option<Typed<'a>>
    ensures { (names : Names) → IsToldIn names around.now → Agrees (types_of names result) (type_in (context_of names around.now) (expr_of names e.now)) }
{
    match e {
        Expr::Name(word) => name_type(around.meant(word.name)),
        Expr::Integer { kind, .. } => int_value(*kind),
        Expr::Character { .. } => int_value(Kind::Int),
        Expr::SizeOf { .. } => int_value(Kind::ULong),
        Expr::And { .. } => int_value(Kind::Int),
        Expr::Or { .. } => int_value(Kind::Int),
        Expr::Cast { target, .. } => Some(Typed::Value(Shape::Given(target))),
        Expr::Text { .. } => None,
        Expr::CallIn { .. } => None,
        Expr::Unary { .. } => typed_within(e, around),
        Expr::Binary { .. } => typed_within(e, around),
        Expr::Choose { .. } => typed_within(e, around),
        Expr::Index { .. } => typed_within(e, around),
        Expr::Member { .. } => typed_within(e, around),
        Expr::Arrow { .. } => typed_within(e, around),
    }
}

// The type of an expression that depends on those of its parts.
#[cycle(typing)]
fn typed_within<'a>(e: &'a Expr, around: &Around<'a>) -> Option<Typed<'a>>
    ensures { (names : Names) → IsToldIn names around.now → Agrees (types_of names result) (type_within (context_of names around.now) (expr_of names e.now)) }
{
    match e {
        Expr::Unary { op, operand, .. } => {
            unary_form(*op, is_named(operand), typed(operand, around))
        }
        Expr::Binary {
            op,
            left,
            right,
            ..
        } => binary_form(*op, typed(left, around), typed(right, around)),
        Expr::Choose { yes, no, .. } => choice_form(typed(yes, around), typed(no, around)),
        Expr::Index { operand, index, .. } => {
            index_form(typed(operand, around), typed(index, around))
        }
        Expr::Member { operand, field, .. } => {
            member_form(typed(operand, around), field.name, around.index)
        }
        Expr::Arrow { operand, field, .. } => {
            arrow_form(typed(operand, around), field.name, around.index)
        }
        _ => None,
    }
}

/// A value of an integer type.
pub(crate) fn int_value<'a>(kind: Kind) -> Option<Typed<'a>>
    ensures { (names : Names) → types_of names result ≡ Some (T.AValue (TyInt kind)) }
{
    Some(Typed::Value(Shape::Int(kind)))
}

/// The type of what a name stands for: a variable is a place, a native or detached function a value. A cps or extern function
/// has none.
pub(crate) fn name_type(meant: Option<Meant>) -> Option<Typed>
    ensures { (names : Names) → types_of names result ≡ T.type_named (meant_if names meant.entry) }
{
    match meant {
        Some(Meant::Local { of, .. }) => Some(Typed::Place(of)),
        Some(Meant::Global { of, .. }) => Some(Typed::Place(of)),
        Some(
            Meant::Function {
                mode,
                result: given,
                parameters,
            },
        ) => match mode {
            Mode::Native | Mode::Detached => Some(Typed::Value(Shape::CodeOf {
                result: given,
                parameters,
            })),
            Mode::Cps | Mode::Extern => None,
        },
        None => None,
    }
}

/// The type of what is used as a value: of an array, a pointer to its element. A struct has none.
pub fn used_if(typed: Option<Typed>) -> Option<Shape>
    ensures { (names : Names) → shapes_of names result ≡ used_of (types_of names typed.entry) }
{
    match typed {
        Some(typed) => used(typed),
        None => None,
    }
}

/// The type of a place; a value has none.
pub fn place_of(typed: Option<Typed>) -> Option<&CType>
    ensures { (names : Names) → option_map (λ t. type_of names t.now) result ≡ E.and_then (types_of names typed.entry) T.typed_place }
{
    match typed {
        Some(Typed::Place(of)) => Some(of),
        _ => None,
    }
}

/// An operator on one operand, of which it is told whether it is a name.
pub(crate) fn unary_form(op: UnaryOp, named: bool, operand: Option<Typed>) -> Option<Typed>
    ensures { (names : Names) → Agrees (types_of names result) (unary_of op named (types_of names operand.entry)) }
{
    match op {
        UnaryOp::Minus | UnaryOp::Plus | UnaryOp::Complement => sign_form(used_if(operand)),
        UnaryOp::Not => int_value(Kind::Int),
        UnaryOp::Dereference => target_form(used_if(operand)),
        UnaryOp::AddressOf => match operand {
            Some(Typed::Place(of)) => Some(Typed::Value(pointer_shape(of))),
            Some(Typed::Value(shape)) => Some(Typed::Value(shape)),
            None => None,
        },
    }
}

// `-`, `+` and `~`: the promoted kind.
fn sign_form(shape: Option<Shape>) -> Option<Typed>
    ensures { (names : Names) (d : T.Typed) → shapes_of names shape.entry ≡ T.used d → Agrees (types_of names result) (T.unary_type U.Minus d) }
{
    match shape {
        Some(shape) => match kind_of(shape) {
            Some(kind) => int_value(promoted(kind)),
            None => None,
        },
        None => None,
    }
}

// `*`: what a pointer points to.
fn target_form(shape: Option<Shape>) -> Option<Typed>
    ensures { (names : Names) (d : T.Typed) → shapes_of names shape.entry ≡ T.used d → types_of names result ≡ T.unary_type U.Dereference d }
{
    match shape {
        Some(shape) => match pointee(shape) {
            Some(to) => Some(Typed::Place(to)),
            None => None,
        },
        None => None,
    }
}

// The common type of two integers.
fn common_form<'a>(left: Shape<'a>, right: Shape<'a>) -> Option<Typed<'a>>
    ensures { (names : Names) → types_of names result ≡ option_map T.AValue (T.common_type (shape_of names left.entry) (shape_of names right.entry)) }
{
    match kind_of(left) {
        Some(j) => match kind_of(right) {
            Some(k) => int_value(common(j, k)),
            None => None,
        },
        None => None,
    }
}

// A sum: a moved pointer, or an integer.
fn sum_form<'a>(left: Shape<'a>, right: Shape<'a>) -> Option<Typed<'a>>
    ensures { (names : Names) (p : Program) → Agrees (types_of names result) (option_map T.AValue (T.sum_type p (shape_of names left.entry) (shape_of names right.entry))) }
{
    match pointee(left) {
        Some(_) => Some(Typed::Value(left)),
        None => match pointee(right) {
            Some(_) => Some(Typed::Value(right)),
            None => common_form(left, right),
        },
    }
}

// A difference: a moved pointer, a distance, or an integer.
fn difference_form<'a>(left: Shape<'a>, right: Shape<'a>) -> Option<Typed<'a>>
    ensures { (names : Names) (p : Program) → Agrees (types_of names result) (option_map T.AValue (T.difference_type p (shape_of names left.entry) (shape_of names right.entry))) }
{
    match pointee(left) {
        Some(_) => match pointee(right) {
            Some(_) => int_value(Kind::Long),
            None => Some(Typed::Value(left)),
        },
        None => common_form(left, right),
    }
}

// A shift: the promoted left kind.
fn shift_form(left: Shape) -> Option<Typed>
    ensures { (names : Names) (u : Ty) → Agrees (types_of names result) (option_map T.AValue (T.shift_type (shape_of names left.entry) u)) }
{
    match kind_of(left) {
        Some(kind) => int_value(promoted(kind)),
        None => None,
    }
}

// An operator on two values.
fn operator_form<'a>(op: Op, left: Shape<'a>, right: Shape<'a>) -> Option<Typed<'a>>
    ensures { (names : Names) (p : Program) (m n : Bool) → Agrees (types_of names result) (option_map T.AValue (T.binary_type p op m n (shape_of names left.entry) (shape_of names right.entry))) }
{
    match op {
        Op::Add => sum_form(left, right),
        Op::Sub => difference_form(left, right),
        Op::Shl | Op::Shr => shift_form(left),
        Op::Lt | Op::Le | Op::Gt | Op::Ge | Op::Eq | Op::Ne => int_value(Kind::Int),
        Op::Mul | Op::Div | Op::Rem | Op::BitAnd | Op::BitXor | Op::BitOr => {
            common_form(left, right)
        }
    }
}

/// An operator on two operands.
pub(crate) fn binary_form<'a>(
    op: Op,
    left: Option<Typed<'a>>,
    right: Option<Typed<'a>>,
) -> Option<Typed<'a>>
    ensures { (names : Names) (p : Program) (m n : Bool) → Agrees (types_of names result) (binary_of p op m n (types_of names left.entry) (types_of names right.entry)) }
{
    match used_if(left) {
        None => None,
        Some(t) => match used_if(right) {
            None => None,
            Some(u) => operator_form(op, t, u),
        },
    }
}

/// `?:`: the common type of two integers, or else the reference of the two.
pub(crate) fn choice_form<'a>(yes: Option<Typed<'a>>, no: Option<Typed<'a>>) -> Option<Typed<'a>>
    ensures { (names : Names) (m n : Bool) (c : Option T.Typed) → (m ≡ true → types_of names yes.entry ≡ Some (T.AValue (TyInt K.Int)))
        → Agrees (types_of names result) (choice_of m n c (types_of names yes.entry) (types_of names no.entry)) }
{
    match used_if(yes) {
        None => None,
        Some(t) => match used_if(no) {
            None => None,
            Some(u) => match kind_of(t) {
                None => Some(Typed::Value(t)),
                Some(_) => match kind_of(u) {
                    None => Some(Typed::Value(u)),
                    Some(_) => common_form(t, u),
                },
            },
        },
    }
}

/// An element.
pub(crate) fn index_form<'a>(left: Option<Typed<'a>>, right: Option<Typed<'a>>) -> Option<Typed<'a>>
    ensures { (names : Names) (p : Program) → Agrees (types_of names result) (index_of p (types_of names left.entry) (types_of names right.entry)) }
{
    match used_if(left) {
        None => None,
        Some(t) => match pointee(t) {
            Some(to) => Some(Typed::Place(to)),
            None => match used_if(right) {
                None => None,
                Some(u) => target_form(Some(u)),
            },
        },
    }
}

/// The offset and the type of a field of a struct type.
pub(crate) fn field_of<'a>(
    of: Option<&'a CType>,
    name: Name,
    index: &Index<'a>,
) -> Option<(u64, &'a CType)>
    ensures { (names : Names) → AreApart names → option_map (λ f. (f.0, type_of names f.1.now)) result
        ≡ capped_field (field_among (items_of names index.now) (option_map (λ t. type_of names t.now) of.entry) (names name)) }
{
    match of {
        Some(CType::Struct(tag)) => index.field(*tag, name),
        _ => None,
    }
}

// A field of a struct type.
fn field_form<'a>(of: Option<&'a CType>, name: Name, index: &Index<'a>) -> Option<Typed<'a>>
    ensures { (names : Names) → AreApart names → types_of names result ≡ T.field_type (items_of names index.now) (option_map (λ t. type_of names t.now) of.entry) (names name) }
{
    match field_of(of, name, index) {
        Some((_, of)) => Some(Typed::Place(of)),
        None => None,
    }
}

// A field of a place.
fn member_form<'a>(operand: Option<Typed<'a>>, name: Name, index: &Index<'a>) -> Option<Typed<'a>>
    ensures { (names : Names) → AreApart names → Agrees (types_of names result) (member_of (items_of names index.now) (types_of names operand.entry) (names name)) }
{
    field_form(place_of(operand), name, index)
}

// A field of what a pointer points to.
fn arrow_form<'a>(operand: Option<Typed<'a>>, name: Name, index: &Index<'a>) -> Option<Typed<'a>>
    ensures { (names : Names) → AreApart names → Agrees (types_of names result) (arrow_of (items_of names index.now) (types_of names operand.entry) (names name)) }
{
    match used_if(operand) {
        Some(shape) => field_form(pointee(shape), name, index),
        None => None,
    }
}

/// What a pointer points to that is used as a value.
pub(crate) fn pointee_of(shape: Option<Shape>) -> Option<&CType>
    ensures { (names : Names) → option_map (λ t. type_of names t.now) result ≡ E.and_then (shapes_of names shape.entry) T.target }
{
    match shape {
        Some(shape) => pointee(shape),
        None => None,
    }
}
