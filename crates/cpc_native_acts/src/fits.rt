//! Whether values are those that a primitive takes.
ghost use Rattle.std.specs.Prelude.{◌≡◌, ◌↔◌, IsTrue, Some, map};
ghost use Rattle.std.specs.List.{All};
ghost use Rattle.cpc_store.specs.Seen.{seen};
ghost use Rattle.cpc_native_acts.specs.Taken.{is_set, is_integer, is_taken_as, are_taken, IsLong};

use cpc_eval_values::Taken;
use cpc_num::Kind;
use cpc_store::{Value, suits};

// Whether a value is set.
fn is_set(value: Value) -> bool
    ensures { result ≡ is_set (seen value) }
{
    match value {
        Value::Unset => false,
        _ => true,
    }
}

// Whether a value is an integer.
fn is_integer(value: Value) -> bool
    ensures { result ≡ is_integer (seen value) }
{
    match value {
        Value::Int(_, _) => true,
        _ => false,
    }
}

// Whether a value is one that is taken.
fn is_taken_as(taken: Taken, value: Value) -> bool
    ensures { result ≡ is_taken_as taken (seen value) }
{
    match taken {
        Taken::AnyInteger => is_integer(value),
        Taken::SetOf(scalar) => is_set(value) && suits(scalar, value),
        Taken::FreeOf(scalar) => suits(scalar, value),
    }
}

/// Whether values are those that are taken, from left to right, one for each.
pub(crate) fn are_taken(takes: &[Taken], values: &[Value]) -> bool
    ensures { result ≡ are_taken (map Some takes.now) values.now }
{
    if takes.len() != values.len() {
        return false;
    }
    for i in 0..takes.len() {
        if !is_taken_as(takes[i], values[i]) {
            return false;
        }
    }
    true
}

// Whether a value is one of long.
fn is_long(value: Value) -> bool
    ensures { IsTrue result ↔ IsLong value }
{
    match value {
        Value::Int(kind, _) => kind == Kind::Long,
        _ => false,
    }
}

/// Whether all values are of long.
pub(crate) fn are_long(values: &[Value]) -> bool
    ensures { IsTrue result ↔ All IsLong values.now }
{
    values.iter().all(|value| is_long(*value))
}
