//! How many cells types have.
ghost use Rattle.std.specs.Prelude.{◌≡◌, map, is_some};
ghost use Rattle.cpc_tree.specs.Erase.{Names, type_of, field_of};
ghost use Rattle.cpc_check_rules.specs.Apart.{AreApart};
ghost use Rattle.cpc_tree.specs.Typing as T;
ghost use Rattle.cpc_check_rules.specs.Scopes as R;
ghost use Rattle.cpc_check_rules.specs.ItemRules as IR;
ghost use Rattle.cpc_shapes.specs.Counted.{fields_count};
ghost use Rattle.cpc_types.specs.Scoped.{scope_of};

use crate::scope::Scope;
use cpc_tree::program::{CType, Field};

/// A struct or an array has so many cells at most.
pub const CELL_LIMIT: u64 = 65536;

/// The number of cells of a type that is complete and has 65,536 at most.
#[tactic(auto, using(std::proofs::lemmas::Grind::common_steps, crate::proofs::Limits::measured_within, crate::proofs::Limits::measured_over, crate::proofs::Limits::measured_none))]
pub fn cells(of: &CType, scope: &Scope) -> Option<u64>
    ensures { (names : Names) → AreApart names → result ≡ R.measured (scope_of names scope.now) (type_of names of.now) }
{
    match scope.structs().measure(of) {
        Some(count) => {
            if count <= CELL_LIMIT {
                Some(count)
            } else {
                None
            }
        }
        None => None,
    }
}

/// Whether a variable may have the type: it has one cell at least, and 65,536 at most.
#[tactic(auto, using(std::proofs::lemmas::Grind::common_steps, crate::proofs::Limits::sized_some, crate::proofs::Limits::sized_none))]
pub fn is_sized(of: &CType, scope: &Scope) -> bool
    ensures { (names : Names) → AreApart names → result ≡ R.is_sized (scope_of names scope.now) (type_of names of.now) }
{
    match scope.structs().measure(of) {
        Some(count) => 0 < count && count <= CELL_LIMIT,
        None => false,
    }
}

/// Whether fields that are complete have more cells together than a struct may have.
#[tactic(auto, using(std::proofs::lemmas::Grind::common_steps, crate::proofs::Limits::over_some, crate::proofs::Limits::over_none))]
pub fn are_oversized(fields: &[Field], scope: &Scope) -> bool
    ensures { (names : Names) → AreApart names → result ≡ IR.is_oversized (fields_count (scope_of names scope.now).items (map (field_of names) fields.now)) }
{
    match scope.structs().fields_size(fields) {
        Some(count) => CELL_LIMIT < count,
        None => false,
    }
}

/// Whether a type is complete.
#[tactic(auto, using(std::proofs::lemmas::Grind::common_steps, crate::proofs::Limits::complete_is))]
pub(crate) fn is_complete(of: &CType, scope: &Scope) -> bool
    ensures { (names : Names) → AreApart names → result ≡ is_some (T.size (scope_of names scope.now).items (type_of names of.now)) }
{
    scope.structs().measure(of).is_some()
}
