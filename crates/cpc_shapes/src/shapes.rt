//! The parts of types, and whether two types are one.
ghost use Rattle.std.specs.Prelude.{◌≡◌, ◌==◌, option_map};
ghost use Rattle.cpc_tree.specs.Erase.{Names, type_of};
ghost use Rattle.cpc_check_rules.specs.Apart.{AreApart};
ghost use Rattle.cpc_shapes.specs.Listed.{listed_of};
ghost use Rattle.cpc_tree.specs.Typing as T;
ghost use Rattle.cpc_shapes.specs.Shapes.{is_void, is_condvar, element, code_parts};

use cpc_base::Name;
use cpc_num::{Kind, same_kind};
use cpc_tree::program::CType;

/// Whether a type is `void`.
pub fn is_void(of: &CType) -> bool
    ensures { (names : Names) → result ≡ is_void (type_of names of.now) }
{
    match of {
        CType::Void => true,
        _ => false,
    }
}

/// Whether a type is that of conditions.
pub fn is_condvar(of: &CType) -> bool
    ensures { (names : Names) → result ≡ is_condvar (type_of names of.now) }
{
    match of {
        CType::Condvar => true,
        _ => false,
    }
}

/// The kind of an integer type; of any other type nothing.
pub fn kind_of(of: &CType) -> Option<Kind>
    ensures { (names : Names) → result ≡ T.integer (type_of names of.now) }
{
    match of {
        CType::Int(kind) => Some(*kind),
        _ => None,
    }
}

/// The tag of a struct type; of any other type nothing.
pub fn tag_of(of: &CType) -> Option<Name>
    ensures { (names : Names) → option_map names result ≡ T.struct_tag (type_of names of.now) }
{
    match of {
        CType::Struct(tag) => Some(*tag),
        _ => None,
    }
}

/// The elements of an array type, and how many there are.
fn elements(of: &CType) -> Option<(&CType, u64)>
    ensures { (names : Names) → option_map (λ a. (type_of names a.0.now, a.1)) result ≡ element (type_of names of.now) }
{
    match of {
        CType::Array(of, length) => Some((of, *length)),
        _ => None,
    }
}

/// The result and the parameters of a code type; of any other type nothing.
#[tactic(auto, using(std::proofs::lemmas::Grind::common_steps, crate::proofs::CodeParts::code_is))]
pub fn signature(of: &CType) -> Option<(&CType, &[CType])>
    ensures { (names : Names) → option_map (λ a. (type_of names a.0.now, listed_of names a.1.now)) result ≡ code_parts (type_of names of.now) }
{
    match of {
        CType::Code {
            result: given,
            parameters,
        } => Some((given, parameters)),
        _ => None,
    }
}

/// Whether values of the type can be tested: integers and pointers, to functions too (C11 6.8.4.1).
pub fn is_testable(of: &CType) -> bool
    ensures { (names : Names) → result ≡ T.is_testable (type_of names of.now) }
{
    match of {
        CType::Int(_) => true,
        CType::Pointer(_) => true,
        CType::Code { .. } => true,
        _ => false,
    }
}

/// Whether the type is a pointer, to a function too: beside it a literal 0 is null (C11 6.3.2.3).
pub fn is_reference(of: &CType) -> bool
    ensures { (names : Names) → result ≡ T.is_reference (type_of names of.now) }
{
    match of {
        CType::Pointer(_) => true,
        CType::Code { .. } => true,
        _ => false,
    }
}

/// Whether two types are one.
#[tactic(auto, using(std::proofs::lemmas::Grind::common_steps, crate::proofs::CodeParts::code_is))]
#[cycle(sameness)]
pub fn same_type(a: &CType, b: &CType) -> bool
    ensures { (names : Names) → AreApart names → result ≡ T.same_type (type_of names a.now) (type_of names b.now) }
{
    match a {
        CType::Void => is_void(b),
        CType::Int(j) => match kind_of(b) {
            Some(k) => same_kind(*j, k),
            None => false,
        },
        CType::Condvar => is_condvar(b),
        CType::Pointer(t) => match b.pointee() {
            Some(u) => same_type(t, u),
            None => false,
        },
        CType::Code {
            result: given,
            parameters,
        } => match signature(b) {
            Some((other, others)) => same_type(given, other) && same_types(parameters, others),
            None => false,
        },
        CType::Struct(t) => match tag_of(b) {
            Some(u) => t.0 == u.0,
            None => false,
        },
        CType::Array(t, m) => match elements(b) {
            Some((u, n)) => same_type(t, u) && *m == n,
            None => false,
        },
    }
}

#[cycle(sameness)]
fn same_types(list: &[CType], others: &[CType]) -> bool
    ensures { (names : Names) → AreApart names → result ≡ T.same_types (listed_of names list.now) (listed_of names others.now) }
{
    if list.len() != others.len() {
        return false;
    }
    for (i, of) in list.iter().enumerate() {
        if !same_type(of, &others[i]) {
            return false;
        }
    }
    true
}
