//! Values as a place takes them.
ghost use Rattle.std.specs.Prelude.{IfOk, option_map};
ghost use Rattle.cpc_tree.specs.Erase.{Names, type_of};
ghost use Rattle.cpc_store.specs.Seen.{seen, IsLawful};
ghost use Rattle.cpc_eval_values.specs.Meets.{Meets};
ghost use Rattle.cpc_eval_values.specs.Shown.{value_of, shown};
ghost use Rattle.cpc_eval.specs.Values.{assigned_if};

use cpc_eval_values::assigned;
use cpc_num::Fault;
use cpc_store::Value;
use cpc_tree::program::CType;

/// A value converted to the type of a place, as an assignment does. It takes no memory.
///
/// What is no place, or takes no such value, may give any value or any fault; elsewhere there is no fault.
pub fn assigned_at(of: Option<&CType>, value: Value) -> Result<Value, Fault>
    requires { IsLawful (seen value) }
    ensures value { (names : Names) → Meets (shown names result) (assigned_if (option_map (λ t. type_of names t.now) of.entry) (value_of names value)) }
    ensures lawful { IfOk result (λ v. IsLawful (seen v)) }
{
    match of {
        Some(of) => assigned(of, value),
        None => Err(Fault::Kind),
    }
}
