//! The types of operators, and of what they work on.
ghost use Rattle.std.specs.Prelude.{◌≡◌, IfOk, is_some, if◌then◌else◌, ◌&&◌, ◌||◌, option_map};
ghost use Rattle.cpc_tree.specs.Erase.{Names, type_of, expr_of};
ghost use Rattle.cpc_check_rules.specs.Apart.{AreApart};
ghost use Rattle.cpc_shapes.specs.Listed.{optional_of};
ghost use Rattle.cpc_tree.specs.Typing.{AValue, APlace};
ghost use Rattle.cpc_tree.specs.Typing as T;
ghost use Rattle.cpc_tree.specs.Syntax.{TyInt, Program};
ghost use Rattle.cpc_shapes.specs.Shapes.{is_void};
ghost use Rattle.cpc_types.specs.Found.{found_of};
ghost use Rattle.cpc_shapes.specs.Found.{used_of, pointed, can_move};

use cpc_base::NoMemory;
use cpc_num::{Kind, Op, common, promoted};
use cpc_shapes::{
    copy_of, is_condvar, is_reference, is_testable, is_void, kind_of, pointer_to, same_type,
};
use cpc_tree::program::{CType, Expr, UnaryOp};
use std::alloc::Global;

/// The type of an expression: of a value, or of a place. An expression that has no type is none of them.
#[derive(Drop)]
pub enum TypeFound {
    /// A value of this type.
    Value(CType),
    /// A place that holds this type.
    Place(CType),
    /// No type.
    Absent,
}

/// Whether an expression is the literal 0.
pub fn is_null(e: &Expr) -> bool
    ensures { (names : Names) → result ≡ T.is_null (expr_of names e.now) }
{
    match e {
        Expr::Integer {
            kind: Kind::Int,
            value,
            ..
        } => value.unsigned_abs() == 0,
        _ => false,
    }
}

/// The type of a value, or of what a place gives where it is used as a value.
pub fn used(found: TypeFound) -> Option<CType>
    ensures { (names : Names) → optional_of names result ≡ used_of (found_of names found) }
{
    match found {
        TypeFound::Value(of) => Some(of),
        TypeFound::Place(of) => of.read(),
        TypeFound::Absent => None,
    }
}

#[tactic(auto, using(std::proofs::lemmas::Grind::common_steps, cpc_shapes::proofs::OperatorParts::common_some, cpc_shapes::proofs::OperatorParts::common_left, cpc_shapes::proofs::OperatorParts::common_right))]
fn common_type(t: &CType, u: &CType) -> Option<CType>
    ensures { (names : Names) → optional_of names result ≡ T.common_type (type_of names t.now) (type_of names u.now) }
{
    match kind_of(t) {
        None => None,
        Some(j) => match kind_of(u) {
            None => None,
            Some(k) => Some(CType::Int(common(j, k))),
        },
    }
}

/// What the pointer of a sum or a difference points to.
#[tactic(auto, using(std::proofs::lemmas::Grind::common_steps, cpc_shapes::proofs::OperatorParts::pointed_left, cpc_shapes::proofs::OperatorParts::pointed_right))]
pub(crate) fn moved<'t>(t: &'t CType, u: &'t CType) -> Option<&'t CType>
    ensures { (names : Names) → option_map (λ to. type_of names to.now) result ≡ pointed (type_of names t.now) (type_of names u.now) }
{
    match t.pointee() {
        Some(to) => Some(to),
        None => u.pointee(),
    }
}

// A pointer can be moved where what it points to is complete.
fn movable(alloc: Global, to: &CType, complete: bool) -> Result<Option<CType>, NoMemory>
    ensures { IfOk result (λ moved. (names : Names) (p : Program) → complete ≡ is_some (T.size p (type_of names to.now)) → optional_of names moved ≡ T.movable p (type_of names to.now)) }
{
    if complete {
        let pointer = pointer_to(alloc, to)?;
        Ok(Some(pointer))
    } else {
        Ok(None)
    }
}

/// The type of a sum: an integer, or a moved pointer.
#[tactic(auto, using(std::proofs::lemmas::Grind::common_steps, cpc_shapes::proofs::OperatorParts::sum_left, cpc_shapes::proofs::OperatorParts::sum_left_other, cpc_shapes::proofs::OperatorParts::sum_right, cpc_shapes::proofs::OperatorParts::sum_right_other, cpc_shapes::proofs::OperatorParts::sum_common))]
pub(crate) fn sum_type(
    alloc: Global,
    t: &CType,
    u: &CType,
    complete: bool,
) -> Result<Option<CType>, NoMemory>
    ensures { IfOk result (λ sum. (names : Names) (p : Program) → complete ≡ can_move p (type_of names t.now) (type_of names u.now) → optional_of names sum ≡ T.sum_type p (type_of names t.now) (type_of names u.now)) }
{
    match t.pointee() {
        Some(to) => match kind_of(u) {
            Some(_) => movable(alloc, to, complete),
            None => Ok(None),
        },
        None => match u.pointee() {
            Some(to) => match kind_of(t) {
                Some(_) => movable(alloc, to, complete),
                None => Ok(None),
            },
            None => Ok(common_type(t, u)),
        },
    }
}

// An integer, a moved pointer, or a distance.
#[tactic(auto, using(std::proofs::lemmas::Grind::common_steps, cpc_shapes::proofs::OperatorParts::difference_common, cpc_shapes::proofs::OperatorParts::difference_far, cpc_shapes::proofs::OperatorParts::difference_moved, cpc_shapes::proofs::OperatorParts::difference_other))]
fn difference_type(
    alloc: Global,
    t: &CType,
    u: &CType,
    complete: bool,
) -> Result<Option<CType>, NoMemory>
    ensures { IfOk result (λ rest. (names : Names) → AreApart names → (p : Program) → complete ≡ can_move p (type_of names t.now) (type_of names u.now) → optional_of names rest ≡ T.difference_type p (type_of names t.now) (type_of names u.now)) }
{
    match t.pointee() {
        None => Ok(common_type(t, u)),
        Some(to) => match u.pointee() {
            Some(other) => Ok(distance_type(to, other, complete)),
            None => match kind_of(u) {
                Some(_) => movable(alloc, to, complete),
                None => Ok(None),
            },
        },
    }
}

fn distance_type(to: &CType, other: &CType, complete: bool) -> Option<CType>
    ensures { (names : Names) → AreApart names → optional_of names result ≡ (if T.same_type (type_of names to.now) (type_of names other.now) && complete then Some (TyInt Kind.Long) else None) }
{
    if same_type(to, other) && complete {
        Some(CType::Int(Kind::Long))
    } else {
        None
    }
}

// An int, where a condition holds.
fn int_if(holds: bool) -> Option<CType>
    ensures { (names : Names) → optional_of names result ≡ (if holds then Some (TyInt Kind.Int) else None) }
{
    if holds {
        Some(CType::Int(Kind::Int))
    } else {
        None
    }
}

#[tactic(auto, using(std::proofs::lemmas::Grind::common_steps, cpc_shapes::proofs::OperatorParts::order_far, cpc_shapes::proofs::OperatorParts::order_near, cpc_shapes::proofs::OperatorParts::order_one_pointer, cpc_shapes::proofs::OperatorParts::order_none, cpc_shapes::proofs::OperatorParts::order_one_integer))]
fn order_type(t: &CType, u: &CType) -> Option<CType>
    ensures { (names : Names) → AreApart names → optional_of names result ≡ T.order_type (type_of names t.now) (type_of names u.now) }
{
    match t.pointee() {
        Some(to) => match u.pointee() {
            Some(other) => int_if(same_type(to, other)),
            None => None,
        },
        None => match kind_of(t) {
            Some(_) => match kind_of(u) {
                Some(_) => Some(CType::Int(Kind::Int)),
                None => None,
            },
            None => None,
        },
    }
}

/// Whether pointers to these can be told equal, and one be assigned to the other: either is void, or they are one.
pub(crate) fn are_alike(a: &CType, b: &CType) -> bool
    ensures { (names : Names) → AreApart names → result ≡ ((is_void (type_of names a.now) || is_void (type_of names b.now)) || T.same_type (type_of names a.now) (type_of names b.now)) }
{
    if is_void(a) {
        true
    } else {
        is_void(b) || same_type(a, b)
    }
}

#[tactic(auto, using(std::proofs::lemmas::Grind::common_steps, cpc_shapes::proofs::OperatorParts::comparable_integer, cpc_shapes::proofs::OperatorParts::comparable_pointers, cpc_shapes::proofs::OperatorParts::comparable_pointer, cpc_shapes::proofs::OperatorParts::comparable_code, cpc_shapes::proofs::OperatorParts::comparable_condvar))]
fn are_comparable(t: &CType, u: &CType) -> bool
    ensures { (names : Names) → AreApart names → result ≡ T.are_comparable (type_of names t.now) (type_of names u.now) }
{
    match t {
        CType::Int(_) => kind_of(u).is_some(),
        CType::Pointer(a) => match u.pointee() {
            Some(b) => are_alike(a, b),
            None => false,
        },
        CType::Code { .. } => same_type(t, u),
        CType::Condvar => is_condvar(u),
        CType::Void | CType::Struct(_) | CType::Array(_, _) => false,
    }
}

fn equality_type(left_null: bool, right_null: bool, t: &CType, u: &CType) -> Option<CType>
    ensures { (names : Names) → AreApart names → optional_of names result ≡ T.equality_type left_null right_null (type_of names t.now) (type_of names u.now) }
{
    let left_fits = left_null && is_reference(u);
    let right_fits = right_null && is_reference(t);
    int_if(are_comparable(t, u) || left_fits || right_fits)
}

#[tactic(auto, using(std::proofs::lemmas::Grind::common_steps, cpc_shapes::proofs::OperatorParts::shift_some, cpc_shapes::proofs::OperatorParts::shift_left, cpc_shapes::proofs::OperatorParts::shift_right))]
fn shift_type(t: &CType, u: &CType) -> Option<CType>
    ensures { (names : Names) → optional_of names result ≡ T.shift_type (type_of names t.now) (type_of names u.now) }
{
    match kind_of(t) {
        None => None,
        Some(j) => match kind_of(u) {
            None => None,
            Some(_) => Some(CType::Int(promoted(j))),
        },
    }
}

/// The type of an operator on two values. `complete` tells whether what the pointer points to is, where one is moved.
pub(crate) fn binary_type(
    alloc: Global,
    op: Op,
    nulls: (bool, bool),
    t: &CType,
    u: &CType,
    complete: bool,
) -> Result<Option<CType>, NoMemory>
    ensures { IfOk result (λ found. (names : Names) → AreApart names → (p : Program) → complete ≡ can_move p (type_of names t.now) (type_of names u.now) → optional_of names found ≡ T.binary_type p op nulls.0 nulls.1 (type_of names t.now) (type_of names u.now)) }
{
    match op {
        Op::Add => sum_type(alloc, t, u, complete),
        Op::Sub => difference_type(alloc, t, u, complete),
        Op::Shl | Op::Shr => Ok(shift_type(t, u)),
        Op::Lt | Op::Le | Op::Gt | Op::Ge => Ok(order_type(t, u)),
        Op::Eq | Op::Ne => Ok(equality_type(nulls.0, nulls.1, t, u)),
        Op::Mul | Op::Div | Op::Rem | Op::BitAnd | Op::BitXor | Op::BitOr => Ok(common_type(t, u)),
    }
}

/// The type of `?:`. `yes_null` and `no_null` tell which arms are the literal 0.
#[tactic(auto, using(std::proofs::lemmas::Grind::common_steps, cpc_shapes::proofs::OperatorParts::choice_same, cpc_shapes::proofs::OperatorParts::choice_other))]
pub(crate) fn choice_type(yes_null: bool, no_null: bool, t: CType, u: CType) -> Option<CType>
    ensures { (names : Names) → AreApart names → optional_of names result ≡ T.choice_type yes_null no_null (type_of names t) (type_of names u) }
{
    match common_type(&t, &u) {
        Some(of) => Some(of),
        None => {
            if is_reference(&t) && (same_type(&t, &u) || no_null) {
                Some(t)
            } else if yes_null && is_reference(&u) {
                Some(u)
            } else {
                None
            }
        }
    }
}

/// Whether a value can be cast to a type. `null` tells whether it is the literal 0.
pub(crate) fn can_cast(null: bool, t: &CType, u: &CType) -> bool
    ensures { (names : Names) → (if result then Some (type_of names t.now) else None) ≡ T.cast_type null (type_of names t.now) (type_of names u.now) }
{
    match t {
        CType::Int(_) => kind_of(u).is_some(),
        CType::Pointer(_) => null || u.pointee().is_some(),
        CType::Code { .. } => null,
        _ => false,
    }
}

/// `&` of a variable, or of a function's name.
pub(crate) fn address_type(alloc: Global, found: TypeFound) -> Result<TypeFound, NoMemory>
    ensures { IfOk result (λ value. (names : Names) → found_of names value ≡ option_map T.address_type (found_of names found)) }
{
    match found {
        TypeFound::Place(of) => Ok(TypeFound::Value(of.pointer(alloc)?)),
        TypeFound::Value(of) => Ok(TypeFound::Value(of)),
        TypeFound::Absent => Ok(TypeFound::Absent),
    }
}

/// Whether an expression can be tested.
pub(crate) fn is_tested(found: TypeFound) -> bool
    ensures { (names : Names) → result ≡ is_some (T.tested_type (found_of names found)) }
{
    match used(found) {
        Some(of) => is_testable(&of),
        None => false,
    }
}

fn sign_type(found: TypeFound) -> TypeFound
    ensures { (names : Names) → found_of names result ≡ T.sign_type UnaryOp.Minus (found_of names found) }
{
    match used(found) {
        Some(of) => match &of {
            CType::Int(kind) => TypeFound::Value(CType::Int(promoted(*kind))),
            _ => TypeFound::Absent,
        },
        None => TypeFound::Absent,
    }
}

fn target_type(found: TypeFound) -> TypeFound
    ensures { (names : Names) → found_of names result ≡ T.sign_type UnaryOp.Dereference (found_of names found) }
{
    match used(found) {
        None => TypeFound::Absent,
        Some(of) => place_at(of.target()),
    }
}

/// A place of a type, where there is one.
pub(crate) fn place_at(of: Option<CType>) -> TypeFound
    ensures { (names : Names) → found_of names result ≡ option_map APlace (optional_of names of) }
{
    match of {
        Some(of) => TypeFound::Place(of),
        None => TypeFound::Absent,
    }
}

/// A value of a type, where there is one.
pub(crate) fn value_of(of: Option<CType>) -> TypeFound
    ensures { (names : Names) → found_of names result ≡ option_map AValue (optional_of names of) }
{
    match of {
        Some(of) => TypeFound::Value(of),
        None => TypeFound::Absent,
    }
}

/// An int, where a condition holds.
pub(crate) fn int_where(holds: bool) -> TypeFound
    ensures { (names : Names) → found_of names result ≡ (if holds then Some (AValue (TyInt Kind.Int)) else None) }
{
    if holds {
        TypeFound::Value(CType::Int(Kind::Int))
    } else {
        TypeFound::Absent
    }
}

/// The type of an operator on one operand.
pub(crate) fn unary_type(
    alloc: Global,
    op: UnaryOp,
    found: TypeFound,
) -> Result<TypeFound, NoMemory>
    ensures { IfOk result (λ typed. (names : Names) → found_of names typed ≡ T.sign_type op (found_of names found)) }
{
    match op {
        UnaryOp::Minus | UnaryOp::Plus | UnaryOp::Complement => Ok(sign_type(found)),
        UnaryOp::Not => Ok(int_where(is_tested(found))),
        UnaryOp::Dereference => Ok(target_type(found)),
        UnaryOp::AddressOf => match found {
            TypeFound::Place(of) => Ok(TypeFound::Value(of.pointer(alloc)?)),
            _ => Ok(TypeFound::Absent),
        },
    }
}
