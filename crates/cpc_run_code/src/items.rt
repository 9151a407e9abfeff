//! What the loop takes up: the call of `main`, and callbacks.
ghost use Rattle.std.specs.Prelude.{◌≡◌, true};
ghost use Rattle.cpc_tree.specs.Erase.{Names};
ghost use Rattle.cpc_num.specs.declared.kinds.Kind.TheVariants.{Int};
ghost use Rattle.cpc_tree.specs.Syntax.{TyInt};
ghost use Rattle.cpc_store.specs.Seen.{seen, IsLawful};
ghost use Rattle.cpc_store.specs.Store as S;
ghost use Rattle.cpc_meaning.specs.Answer.{Gives};
ghost use Rattle.cpc_meaning.specs.Eval.{assigned};
ghost use Rattle.cpc_eval_values.specs.Shown.{value_of};
ghost use Rattle.cpc_run_code.specs.Taken.{is_lawful};

use cpc_base::Name;
use cpc_num::{Kind, convert};
use cpc_store::Value;

/// A function with its pointer, which is lawful.
#[derive(Clone, Copy)]
pub struct Callback {
    pub function: Name,
    pub pointer: Value,
    ghost lawful: { is_lawful (seen pointer) ≡ true },
}

impl Callback {
    /// Of these.
    #[tactic(auto, using(crate::proofs::Lawful::lawful_passes))]
    pub fn of(function: Name, pointer: Value) -> Callback
        requires { IsLawful (seen pointer) }
        ensures function { result.function ≡ function }
        ensures pointer { result.pointer ≡ pointer }
    {
        Callback { function, pointer }
    }
}

/// What the loop takes up.
#[derive(Clone, Copy)]
pub enum Item {
    /// The call of `main` at the start.
    Main,
    /// A function with its pointer.
    With(Callback),
}

/// The result of a wait as a callback gets it, an int.
pub fn waited_for(value: Value) -> Value
    ensures value { (names : Names) (w : S.Value) → assigned (TyInt Int) (value_of names value) ≡ Gives w → value_of names result ≡ w }
    ensures lawful { IsLawful (seen result) }
{
    match value {
        Value::Int(_, number) => Value::Int(Kind::Int, convert(Kind::Int, number)),
        _ => Value::Unset,
    }
}
