//! What expressions give: a value or a place, and with it the type of the expression.
ghost use Rattle.std.specs.Prelude.{Option, IfOk};
ghost use Rattle.cpc_tree.specs.Erase.{Names};
ghost use Rattle.cpc_tree.specs.Typing as T;
ghost use Rattle.cpc_store.specs.Seen.{seen, IsLawful};
ghost use Rattle.cpc_store.specs.Store as S;
ghost use Rattle.cpc_meaning.specs.Answer.{Answer};
ghost use Rattle.cpc_meaning.specs.Eval as E;
ghost use Rattle.cpc_eval_values.specs.Meets.{Meets};
ghost use Rattle.cpc_eval_values.specs.Shown.{shown};
ghost use Rattle.cpc_eval.specs.Results.{given_shown, located_shown};
ghost use Rattle.cpc_eval.specs.Shapes.{types_of, Agrees};
ghost use Rattle.cpc_eval.specs.Spots.{spot_shown, IsLawfulSpot};

use crate::places::Spot;
use crate::shapes::Typed;
use cpc_num::Fault;
use cpc_store::Value;

/// What an expression gives: its value, and its type, where it has one; where it has none there may be any.
#[derive(Clone, Copy)]
pub struct Given<'a> {
    pub value: Value,
    pub typed: Option<Typed<'a>>,
}

/// Where a place is, and its type, likewise.
#[derive(Clone, Copy)]
pub struct Located<'a> {
    pub spot: Spot,
    pub typed: Option<Typed<'a>>,
}

/// A value with a type.
pub(crate) fn with_type<'a>(
    value: Result<Value, Fault>,
    typed: Option<Typed<'a>>,
) -> Result<Given<'a>, Fault>
    requires { IfOk value (λ v. IsLawful (seen v)) }
    ensures value { (names : Names) (a : Answer S.Value) → Meets (shown names value) a → Meets (given_shown names result) a }
    ensures typed { (names : Names) (o : Option T.Typed) → Agrees (types_of names typed.entry) o → IfOk result (λ g. Agrees (types_of names g.typed) o) }
    ensures lawful { IfOk result (λ g. IsLawful (seen g.value)) }
{
    match value {
        Ok(value) => Ok(Given { value, typed }),
        Err(fault) => Err(fault),
    }
}

/// A place with a type.
pub(crate) fn placed<'a>(
    spot: Result<Spot, Fault>,
    typed: Option<Typed<'a>>,
) -> Result<Located<'a>, Fault>
    requires { IfOk spot (λ spot. IsLawfulSpot spot) }
    ensures value { (a : Answer E.Spot) → Meets (spot_shown spot) a → Meets (located_shown result) a }
    ensures typed { (names : Names) (o : Option T.Typed) → Agrees (types_of names typed.entry) o → IfOk result (λ l. Agrees (types_of names l.typed) o) }
    ensures lawful { IfOk result (λ l. IsLawfulSpot l.spot) }
{
    match spot {
        Ok(spot) => Ok(Located { spot, typed }),
        Err(fault) => Err(fault),
    }
}
