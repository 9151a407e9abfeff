//! The types of the forms of expression by those of their parts.
ghost use Rattle.std.specs.Prelude.{◌≡◌, IfOk, Option, is_some, option_map};
ghost use Rattle.cpc_tree.specs.Erase.{Names, type_of, expr_of};
ghost use Rattle.cpc_check_rules.specs.Apart.{AreApart};
ghost use Rattle.cpc_num.specs.declared.kinds.Kind.TheVariants.{ULong};
ghost use Rattle.cpc_tree.specs.Typing as T;
ghost use Rattle.cpc_check_rules.specs.Scopes as R;
ghost use Rattle.cpc_tree.specs.Syntax.{ESizeOf};
ghost use Rattle.cpc_types.specs.Found.{found_of};
ghost use Rattle.cpc_shapes.specs.Found.{can_move};
ghost use Rattle.cpc_shapes.specs.Listed.{optional_of};
ghost use Rattle.cpc_shapes.specs.Forms.{is_named, unary_of, binary_of, choice_of, cast_of, index_of, member_of, arrow_of, of_both, element_of};
ghost use Rattle.cpc_types.specs.Scoped.{scope_of};

use crate::fields::field_type;
use crate::operators::{
    TypeFound, address_type, binary_type, can_cast, choice_type, int_where, is_tested, moved,
    place_at, sum_type, unary_type, used, value_of,
};
use crate::scope::Scope;
use crate::sizes::is_complete;
use cpc_base::{Name, NoMemory};
use cpc_num::{Kind, Op};
use cpc_shapes::copy_of;
use cpc_tree::program::{CType, Expr, UnaryOp};
use std::alloc::Global;

// Whether what the pointer of a sum or a difference points to is complete.
fn can_move(t: &CType, u: &CType, scope: &Scope) -> bool
    ensures { (names : Names) → AreApart names → result ≡ can_move (scope_of names scope.now).items (type_of names t.now) (type_of names u.now) }
{
    match moved(t, u) {
        Some(to) => is_complete(to, scope),
        None => false,
    }
}

/// An operator on one operand. `named` tells whether it is a name. `NoMemory` is want of memory.
pub fn unary_form(
    alloc: Global,
    op: UnaryOp,
    named: bool,
    found: TypeFound,
) -> Result<TypeFound, NoMemory>
    ensures { IfOk result (λ form. (names : Names) → found_of names form ≡ unary_of op named (found_of names found)) }
{
    match op {
        UnaryOp::AddressOf => {
            if named {
                address_type(alloc, found)
            } else {
                unary_type(alloc, op, found)
            }
        }
        _ => unary_type(alloc, op, found),
    }
}

/// An operator on two operands. `nulls` tells which of them are the literal 0. `NoMemory` is want of memory.
pub fn binary_form(
    alloc: Global,
    op: Op,
    nulls: (bool, bool),
    left: TypeFound,
    right: TypeFound,
    scope: &Scope,
) -> Result<TypeFound, NoMemory>
    ensures { IfOk result (λ form. (names : Names) → AreApart names → found_of names form ≡ binary_of (scope_of names scope.now).items op nulls.0 nulls.1 (found_of names left) (found_of names right)) }
{
    let t = used(left);
    let u = used(right);
    operated(alloc, op, nulls, &t, &u, scope)
}

// An operator on two values of these types.
fn operated(
    alloc: Global,
    op: Op,
    nulls: (bool, bool),
    t: &Option<CType>,
    u: &Option<CType>,
    scope: &Scope,
) -> Result<TypeFound, NoMemory>
    ensures { IfOk result (λ form. (names : Names) → AreApart names → found_of names form ≡ option_map T.AValue (of_both (optional_of names t.now) (optional_of names u.now) (T.binary_type (scope_of names scope.now).items op nulls.0 nulls.1))) }
{
    match t {
        Some(t) => match u {
            Some(u) => {
                let found = binary_type(alloc, op, nulls, t, u, can_move(t, u, scope))?;
                Ok(value_of(found))
            }
            None => Ok(TypeFound::Absent),
        },
        None => Ok(TypeFound::Absent),
    }
}

/// `&&` and `||`.
#[tactic(auto, using(std::proofs::lemmas::Grind::common_steps, cpc_shapes::proofs::FormParts::tested_both))]
pub fn test_form(left: TypeFound, right: TypeFound) -> TypeFound
    ensures { (names : Names) → found_of names result ≡ T.test_type (found_of names left) (found_of names right) }
{
    let first = is_tested(left);
    let second = is_tested(right);
    int_where(second && first)
}

/// `?:`. `nulls` tells which of the two arms are the literal 0.
pub fn choice_form(nulls: (bool, bool), test: TypeFound, yes: TypeFound, no: TypeFound) -> TypeFound
    ensures { (names : Names) → AreApart names → found_of names result ≡ choice_of nulls.0 nulls.1 (found_of names test) (found_of names yes) (found_of names no) }
{
    tested_form(nulls, is_tested(test), yes, no)
}

/// `?:`, where `tested` tells whether what stands before the `?` can be tested.
pub(crate) fn tested_form(
    nulls: (bool, bool),
    tested: bool,
    yes: TypeFound,
    no: TypeFound,
) -> TypeFound
    ensures { (names : Names) (test : Option T.Typed) → AreApart names → tested ≡ is_some (T.tested_type test) → found_of names result ≡ choice_of nulls.0 nulls.1 test (found_of names yes) (found_of names no) }
{
    let t = used(yes);
    let u = used(no);
    if tested {
        value_of(chosen(nulls, t, u))
    } else {
        TypeFound::Absent
    }
}

// The type of `?:` by those of its arms.
fn chosen(nulls: (bool, bool), t: Option<CType>, u: Option<CType>) -> Option<CType>
    ensures { (names : Names) → AreApart names → optional_of names result ≡ of_both (optional_of names t) (optional_of names u) (T.choice_type nulls.0 nulls.1) }
{
    match t {
        Some(t) => match u {
            Some(u) => choice_type(nulls.0, nulls.1, t, u),
            None => None,
        },
        None => None,
    }
}

/// A cast. `null` tells whether the operand is the literal 0. `NoMemory` is want of memory.
#[tactic(auto, using(std::proofs::lemmas::Grind::common_steps, cpc_shapes::proofs::FormParts::cast_some, cpc_shapes::proofs::FormParts::cast_none))]
pub fn cast_form(
    alloc: Global,
    of: &CType,
    null: bool,
    found: TypeFound,
) -> Result<TypeFound, NoMemory>
    ensures { IfOk result (λ form. (names : Names) → found_of names form ≡ cast_of null (type_of names of.now) (found_of names found)) }
{
    let Some(u) = used(found) else {
        return Ok(TypeFound::Absent);
    };
    if can_cast(null, of, &u) {
        Ok(TypeFound::Value(copy_of(alloc, of)?))
    } else {
        Ok(TypeFound::Absent)
    }
}

/// `sizeof`.
#[tactic(auto, using(std::proofs::lemmas::Grind::common_steps, cpc_shapes::proofs::FormParts::size_typed))]
pub fn size_form(of: &CType, scope: &Scope) -> TypeFound
    ensures { (names : Names) → AreApart names → found_of names result ≡ R.typed (scope_of names scope.now) (ESizeOf (type_of names of.now)) }
{
    if is_complete(of, scope) {
        TypeFound::Value(CType::Int(Kind::ULong))
    } else {
        TypeFound::Absent
    }
}

/// An element. `NoMemory` is want of memory.
pub fn index_form(
    alloc: Global,
    operand: TypeFound,
    index: TypeFound,
    scope: &Scope,
) -> Result<TypeFound, NoMemory>
    ensures { IfOk result (λ form. (names : Names) → AreApart names → found_of names form ≡ index_of (scope_of names scope.now).items (found_of names operand) (found_of names index)) }
{
    let t = used(operand);
    let u = used(index);
    element(alloc, &t, &u, scope)
}

// An element of a value of the first type, where the index has the second.
#[tactic(auto, using(std::proofs::lemmas::Grind::common_steps, cpc_shapes::proofs::FormParts::element_some, cpc_shapes::proofs::FormParts::element_none))]
fn element(
    alloc: Global,
    t: &Option<CType>,
    u: &Option<CType>,
    scope: &Scope,
) -> Result<TypeFound, NoMemory>
    ensures { IfOk result (λ form. (names : Names) → AreApart names → found_of names form ≡ of_both (optional_of names t.now) (optional_of names u.now) (element_of (scope_of names scope.now).items)) }
{
    match t {
        Some(t) => match u {
            Some(u) => match sum_type(alloc, t, u, can_move(t, u, scope))? {
                Some(sum) => Ok(place_at(sum.target())),
                None => Ok(TypeFound::Absent),
            },
            None => Ok(TypeFound::Absent),
        },
        None => Ok(TypeFound::Absent),
    }
}

/// A field of a place. `NoMemory` is want of memory.
pub fn member_form(
    alloc: Global,
    found: TypeFound,
    field: Name,
    scope: &Scope,
) -> Result<TypeFound, NoMemory>
    ensures { IfOk result (λ form. (names : Names) → AreApart names → found_of names form ≡ member_of (scope_of names scope.now).items (found_of names found) (names field)) }
{
    match found {
        TypeFound::Place(of) => field_type(alloc, Some(of), field, scope),
        TypeFound::Value(_) => Ok(TypeFound::Absent),
        TypeFound::Absent => Ok(TypeFound::Absent),
    }
}

/// A field of what a pointer points to. `NoMemory` is want of memory.
#[tactic(auto, using(std::proofs::lemmas::Grind::common_steps, cpc_shapes::proofs::FormParts::arrow_some, cpc_shapes::proofs::FormParts::arrow_none))]
pub fn arrow_form(
    alloc: Global,
    found: TypeFound,
    field: Name,
    scope: &Scope,
) -> Result<TypeFound, NoMemory>
    ensures { IfOk result (λ form. (names : Names) → AreApart names → found_of names form ≡ arrow_of (scope_of names scope.now).items (found_of names found) (names field)) }
{
    match used(found) {
        Some(of) => field_type(alloc, of.target(), field, scope),
        None => Ok(TypeFound::Absent),
    }
}
