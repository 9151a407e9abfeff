//! What names give: a value, a place or an address, with its type.
ghost use Rattle.std.specs.Prelude.{IfOk};
ghost use Rattle.cpc_tree.specs.Erase.{Names};
ghost use Rattle.cpc_tree.specs.Syntax.{ENamed, EUnary};
ghost use Rattle.cpc_tree.specs.declared.program.UnaryOp.TheVariants as U;
ghost use Rattle.cpc_store.specs.Seen.{seen, IsLawful};
ghost use Rattle.cpc_meaning.specs.Eval as E;
ghost use Rattle.cpc_eval_values.specs.Meets.{Meets};
ghost use Rattle.cpc_eval.specs.Around.{context_of, IsToldIn, type_in};
ghost use Rattle.cpc_eval.specs.Results.{given_shown, located_shown};
ghost use Rattle.cpc_eval.specs.Shapes.{types_of, Agrees};
ghost use Rattle.cpc_eval.specs.Spots.{AreLawful, IsLawfulSpot};

use crate::around::Around;
use crate::places::{address_named, spot_named, value_named};
use crate::results::{Given, Located, placed, with_type};
use crate::typing::{name_type, unary_form};
use cpc_base::Name;
use cpc_num::Fault;
use cpc_tree::program::UnaryOp;

/// The value of a name.
///
/// - `Freed`, `Bounds`, `Kind`: as of a load.
pub(crate) fn given_name<'a>(name: Name, around: &Around<'a>) -> Result<Given<'a>, Fault>
    requires { AreLawful around.now.slots.now }
    ensures value { (names : Names) → IsToldIn names around.now → Meets (given_shown names result) (E.value (context_of names around.now) (ENamed (names name))) }
    ensures typed { (names : Names) → IsToldIn names around.now → IfOk result (λ g. Agrees (types_of names g.typed) (type_in (context_of names around.now) (ENamed (names name)))) }
    ensures lawful { IfOk result (λ g. IsLawful (seen g.value)) }
{
    let meant = around.meant(name);
    with_type(
        value_named(around.slots, around.store, name, meant),
        name_type(meant),
    )
}

/// Where the variable of a name is: a register in its slot, another one at the first cell of its block.
///
/// What is no variable, or has no slot, may give any place or any fault; elsewhere there is no fault.
pub fn located_name<'a>(name: Name, around: &Around<'a>) -> Result<Located<'a>, Fault>
    ensures value { (names : Names) → IsToldIn names around.now → Meets (located_shown result) (E.place (context_of names around.now) (ENamed (names name))) }
    ensures typed { (names : Names) → IsToldIn names around.now → IfOk result (λ l. Agrees (types_of names l.typed) (type_in (context_of names around.now) (ENamed (names name)))) }
    ensures lawful { IfOk result (λ l. IsLawfulSpot l.spot) }
{
    let meant = around.meant(name);
    placed(spot_named(around.slots, meant), name_type(meant))
}

/// The address of a variable, or the code of a function.
pub(crate) fn address_of_name<'a>(name: Name, around: &Around<'a>) -> Result<Given<'a>, Fault>
    ensures value { (names : Names) → IsToldIn names around.now → Meets (given_shown names result) (E.value (context_of names around.now) (EUnary U.AddressOf (ENamed (names name)))) }
    ensures typed { (names : Names) → IsToldIn names around.now → IfOk result (λ g. Agrees (types_of names g.typed) (type_in (context_of names around.now) (EUnary U.AddressOf (ENamed (names name))))) }
    ensures lawful { IfOk result (λ g. IsLawful (seen g.value)) }
{
    let meant = around.meant(name);
    with_type(
        address_named(around.slots, name, meant),
        unary_form(UnaryOp::AddressOf, true, name_type(meant)),
    )
}
