//! Whether the cells of types are all integers.
ghost use Rattle.std.specs.Prelude.{◌≡◌, map};
ghost use Rattle.cpc_tree.specs.Erase.{Names, type_of, field_of};
ghost use Rattle.cpc_tree.specs.Syntax.{Program};
ghost use Rattle.cpc_tree.specs.Typing as T;
ghost use Rattle.cpc_check_rules.specs.Apart.{AreApart};
ghost use Rattle.cpc_check_rules.specs.Calls as C;
ghost use Rattle.cpc_types_structs.specs.Indexed.{IsIndex};
ghost use Rattle.cpc_types_structs.specs.Sized.{AreSizes};
ghost use Rattle.cpc_types.specs.Integral.{AreIntegral, have_integers};
ghost use Rattle.cpc_types.specs.Scoped.{scope_of};

use crate::items::Items;
use crate::scope::Scope;
use cpc_tree::program::{CType, Field};

/// Whether a type is complete and its cells are all integers.
#[tactic(auto, using(std::proofs::lemmas::Grind::common_steps, crate::proofs::Integrals::array_integers, crate::proofs::Integrals::empty_integers))]
pub(crate) fn are_integers(of: &CType, items: &Items) -> bool
    requires { IsIndex items.now.declared.structs.tags }
    ensures { (names : Names) (p : Program) → AreSizes items.now.declared.structs names p → AreIntegral items.now names p → result ≡ C.are_integers (T.cells p (type_of names of.now)) }
{
    match of {
        CType::Int(_) => true,
        CType::Struct(tag) => items.is_integral(*tag),
        CType::Array(of, length) => {
            if *length == 0 {
                items.structs().measure(of).is_some()
            } else {
                are_integers(of, items)
            }
        }
        _ => false,
    }
}

/// Whether fields are complete and their cells are all integers.
pub(crate) fn fields_integers(fields: &[Field], items: &Items) -> bool
    requires { IsIndex items.now.declared.structs.tags }
    ensures { (names : Names) (p : Program) → AreSizes items.now.declared.structs names p → AreIntegral items.now names p → result ≡ have_integers p (map (field_of names) fields.now) }
{
    for field in fields {
        if !are_integers(&field.of, items) {
            return false;
        }
    }
    true
}

/// Whether a type is complete and its cells are all integers.
pub fn has_integers(of: &CType, scope: &Scope) -> bool
    ensures { (names : Names) → AreApart names → result ≡ C.are_integers (T.cells (scope_of names scope.now).items (type_of names of.now)) }
{
    are_integers(of, scope.items())
}
