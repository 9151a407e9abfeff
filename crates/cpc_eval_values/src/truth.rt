//! Tests on values.
ghost use Rattle.std.specs.Prelude.{◌≡◌, IfOk};
ghost use Rattle.cpc_tree.specs.Erase.{Names};
ghost use Rattle.cpc_check_rules.specs.Apart.{AreApart};
ghost use Rattle.cpc_store.specs.Seen.{seen, IsLawful};
ghost use Rattle.cpc_meaning.specs.Eval as E;
ghost use Rattle.cpc_eval_values.specs.Meets.{Meets};
ghost use Rattle.cpc_eval_values.specs.Shown.{value_of, shown};

use cpc_num::{Fault, Kind};
use cpc_store::Value;

/// Whether a test on the value holds: a number is not 0, a reference is not null.
///
/// `Unset`: the value is unset.
pub fn holds(value: Value) -> Result<bool, Fault>
    ensures { (names : Names) → Meets result (E.holds (value_of names value)) }
{
    match value {
        Value::Unset => Err(Fault::Unset),
        Value::Int(_, number) => Ok(number != 0),
        Value::Null => Ok(false),
        Value::At(_, _) | Value::Code(_) => Ok(true),
        Value::Cond(_) => Err(Fault::Kind),
    }
}

/// A truth value: the `int` 1 or 0.
pub fn truth_value(holds: bool) -> Value
    ensures value { (names : Names) → value_of names result ≡ E.truth_value holds }
    ensures lawful { IsLawful (seen result) }
{
    if holds {
        Value::Int(Kind::Int, 1)
    } else {
        Value::Int(Kind::Int, 0)
    }
}

/// `!` (C11 6.5.3.3p5).
///
/// `Unset`: the value is unset.
pub fn negated(value: Value) -> Result<Value, Fault>
    ensures value { (names : Names) → Meets (shown names result) (E.negated (value_of names value)) }
    ensures lawful { IfOk result (λ v. IsLawful (seen v)) }
{
    let test = holds(value)?;
    Ok(truth_value(!test))
}

/// Whether two references are one: both null, or the same cell, function or condition.
pub fn same_value(left: Value, right: Value) -> bool
    ensures { (names : Names) → AreApart names → result ≡ E.same_value (value_of names left) (value_of names right) }
{
    match left {
        Value::Null => match right {
            Value::Null => true,
            _ => false,
        },
        Value::At(block, offset) => match right {
            Value::At(other, place) => block == other && offset == place,
            _ => false,
        },
        Value::Code(name) => match right {
            Value::Code(other) => name.0 == other.0,
            _ => false,
        },
        Value::Cond(number) => match right {
            Value::Cond(other) => number == other,
            _ => false,
        },
        _ => false,
    }
}
