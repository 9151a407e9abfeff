//! What may be assigned to what.
ghost use Rattle.std.specs.Prelude.{◌≡◌, IfOk};
ghost use Rattle.cpc_tree.specs.Erase.{Names, type_of, expr_of};
ghost use Rattle.cpc_check_rules.specs.Apart.{AreApart};
ghost use Rattle.cpc_check_rules.specs.Scopes as R;
ghost use Rattle.cpc_types.specs.Scoped.{scope_of};

use crate::expressions::typing;
use crate::operators::{are_alike, is_null, used};
use crate::scope::Scope;
use cpc_base::NoMemory;
use cpc_shapes::{is_condvar, kind_of, same_type};
use cpc_tree::program::{CType, Expr};
use std::alloc::Global;

/// Whether a value of the type u may be written to a type. `null` tells whether it is the literal 0.
#[tactic(auto, using(std::proofs::lemmas::Grind::common_steps, crate::proofs::Taking::integer_takes, crate::proofs::Taking::pointer_takes, crate::proofs::Taking::pointer_takes_other, crate::proofs::Taking::code_takes, crate::proofs::Taking::condvar_takes))]
pub fn takes_value(t: &CType, null: bool, u: &CType) -> bool
    ensures { (names : Names) → AreApart names → result ≡ R.takes_value (type_of names t.now) null (type_of names u.now) }
{
    match t {
        CType::Int(_) => kind_of(u).is_some(),
        CType::Pointer(to) => match u.pointee() {
            Some(other) => null || are_alike(to, other),
            None => null,
        },
        CType::Code { .. } => null || same_type(t, u),
        CType::Condvar => is_condvar(u),
        CType::Void | CType::Struct(_) | CType::Array(_, _) => false,
    }
}

/// Whether an expression is assignable to a type in a scope: where it has a type, as the rules of assignment have it.
/// `NoMemory` is want of memory.
pub fn assignable(
    alloc: Global,
    target: &CType,
    from: &Expr,
    scope: &Scope,
) -> Result<bool, NoMemory>
    ensures { IfOk result (λ fits. (names : Names) → AreApart names → fits ≡ R.is_assignable (scope_of names scope.now) (type_of names target.now) (expr_of names from.now)) }
{
    let found = typing(alloc, from, scope)?;
    match used(found) {
        Some(of) => Ok(takes_value(target, is_null(from), &of)),
        None => Ok(false),
    }
}
