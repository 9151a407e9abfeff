//! Values of expressions, and faults among the stops of a call that takes memory.
ghost use Rattle.std.specs.Prelude.{◌≡◌, false, IfOk};
ghost use Rattle.std.specs.Result.{result_map_both};
ghost use Rattle.cpc_tree.specs.Erase.{Names, expr_of};
ghost use Rattle.cpc_store.specs.Seen.{seen, IsLawful};
ghost use Rattle.cpc_meaning.specs.Eval as E;
ghost use Rattle.cpc_eval_index.specs.Indexed.{items_of};
ghost use Rattle.cpc_eval.specs.Around.{context_of, IsToldIn};
ghost use Rattle.cpc_eval.specs.Numbers.{HasNumbers};
ghost use Rattle.cpc_eval.specs.Spots.{AreLawful};
ghost use Rattle.cpc_native_plans.specs.Stops.{MeetsOr, wants_memory, value_shown};

use cpc_base::Stop;
use cpc_eval::Around;
use cpc_num::Fault;
use cpc_store::Value;
use cpc_tree::program::Expr;

/// A fault as a stop.
pub fn stopped<T>(given: Result<T, Fault>) -> Result<T, Stop<Fault>>
    ensures { result ≡ result_map_both (λ x. x) Stop.Fault given }
{
    match given {
        Ok(value) => Ok(value),
        Err(fault) => Err(Stop::Fault(fault)),
    }
}

/// The value of an expression; its faults are those of `cpc_eval`.
#[tactic(auto, using(crate::proofs::Stopping::wants_stopped))]
pub(crate) fn value<'a>(e: &'a Expr, around: &Around<'a>) -> Result<Value, Stop<Fault>>
    requires { AreLawful around.now.slots.now }
    ensures value { (names : Names) → IsToldIn names around.now → HasNumbers (items_of names around.now.index.now) (expr_of names e.now)
        → MeetsOr (value_shown names result) (E.value (context_of names around.now) (expr_of names e.now)) }
    ensures lawful { IfOk result (λ v. IsLawful (seen v)) }
    ensures memory { wants_memory result ≡ false }
{
    stopped(cpc_eval::value(e, around))
}
