//! What was found of the parts of an expression.
ghost use Rattle.std.specs.Prelude.{◌≡◌, is_some, option_map};
ghost use Rattle.cpc_tree.specs.Erase.{Names, type_of};
ghost use Rattle.cpc_tree.specs.Typing as T;
ghost use Rattle.cpc_check_rules.specs.Apart.{AreApart};
ghost use Rattle.cpc_check_rules.specs.Operators as O;
ghost use Rattle.cpc_check_rules.specs.Calls as C;
ghost use Rattle.cpc_types.specs.Found.{found_of};
ghost use Rattle.cpc_types.specs.Scoped.{scope_of};
ghost use Rattle.cpc_check_values.specs.Parts.{place_of};

use cpc_num::Op;
use cpc_shapes::same_type;
use cpc_tree::program::CType;
use cpc_types::{Scope, TypeFound, cells};

/// Whether an expression has a type.
pub(crate) fn is_typed(found: &TypeFound) -> bool
    ensures { (names : Names) → result ≡ is_some (found_of names found.now) }
{
    match found {
        TypeFound::Value(_) => true,
        TypeFound::Place(_) => true,
        TypeFound::Absent => false,
    }
}

/// Whether an expression is an integer where it is used as a value.
pub(crate) fn is_integer(found: &TypeFound) -> bool
    ensures { (names : Names) → result ≡ C.is_integer_used (O.used_of (found_of names found.now)) }
{
    match found {
        TypeFound::Value(CType::Int(_)) => true,
        TypeFound::Place(CType::Int(_)) => true,
        _ => false,
    }
}

/// What an expression points to where it is used as a value.
pub(crate) fn pointed(found: &TypeFound) -> Option<&CType>
    ensures { (names : Names) → option_map (λ to. type_of names to.now) result ≡ O.pointed (O.used_of (found_of names found.now)) }
{
    match found {
        TypeFound::Value(CType::Pointer(to)) => Some(to),
        TypeFound::Place(CType::Pointer(to)) => Some(to),
        TypeFound::Place(CType::Array(of, _)) => Some(of),
        _ => None,
    }
}

/// The type of a place.
pub(crate) fn place_of(found: &TypeFound) -> Option<&CType>
    ensures { (names : Names) → option_map (λ of. type_of names of.now) result ≡ place_of (found_of names found.now) }
{
    match found {
        TypeFound::Place(of) => Some(of),
        TypeFound::Value(_) => None,
        TypeFound::Absent => None,
    }
}

// Whether an expression points to void, or to an incomplete or an oversized type.
fn is_unmeasured(found: &TypeFound, scope: &Scope) -> bool
    ensures { (names : Names) → AreApart names → result ≡ O.is_unmeasured (scope_of names scope.now) (O.used_of (found_of names found.now)) }
{
    match pointed(found) {
        Some(to) => cells(to, scope).is_none(),
        None => false,
    }
}

// Whether a sum moves such a pointer.
fn moves_unmeasured(left: &TypeFound, right: &TypeFound, scope: &Scope) -> bool
    ensures { (names : Names) → AreApart names → result ≡ O.moves_unmeasured (scope_of names scope.now) (O.used_of (found_of names left.now)) (O.used_of (found_of names right.now)) }
{
    if is_integer(right) {
        is_unmeasured(left, scope)
    } else {
        is_integer(left) && is_unmeasured(right, scope)
    }
}

// Whether a difference moves such a pointer, or is the distance of two.
fn between_unmeasured(left: &TypeFound, right: &TypeFound, scope: &Scope) -> bool
    ensures { (names : Names) → AreApart names → result ≡ O.between_unmeasured (scope_of names scope.now) (O.used_of (found_of names left.now)) (O.used_of (found_of names right.now)) }
{
    match pointed(left) {
        Some(to) => match pointed(right) {
            Some(other) => same_type(to, other) && cells(to, scope).is_none(),
            None => is_integer(right) && cells(to, scope).is_none(),
        },
        None => false,
    }
}

/// Whether an operator is a sum or a difference that moves a pointer to what has no size, or is the distance of two.
pub(crate) fn is_incomplete_sum(op: Op, left: &TypeFound, right: &TypeFound, scope: &Scope) -> bool
    ensures { (names : Names) → AreApart names → result ≡ O.is_incomplete_sum (scope_of names scope.now) op (found_of names left.now) (found_of names right.now) }
{
    match op {
        Op::Add => moves_unmeasured(left, right, scope),
        Op::Sub => between_unmeasured(left, right, scope),
        _ => false,
    }
}
