//! The types of fields.
ghost use Rattle.std.specs.Prelude.{◌≡◌, IfOk, map};
ghost use Rattle.cpc_tree.specs.Erase.{Names, field_of};
ghost use Rattle.cpc_check_rules.specs.Apart.{AreApart};
ghost use Rattle.cpc_shapes.specs.Listed.{optional_of};
ghost use Rattle.cpc_tree.specs.Typing as T;
ghost use Rattle.cpc_types.specs.Found.{found_of};
ghost use Rattle.cpc_shapes.specs.Found.{field_place};
ghost use Rattle.cpc_types.specs.Scoped.{scope_of};

use crate::operators::TypeFound;
use crate::scope::Scope;
use crate::sizes::is_complete;
use cpc_base::{Name, NoMemory};
use cpc_shapes::{copy_of, tag_of};
use cpc_tree::program::{CType, Field};
use std::alloc::Global;

// The type of a field among these, each of those before it complete.
fn field_in(
    alloc: Global,
    fields: &[Field],
    name: Name,
    scope: &Scope,
) -> Result<TypeFound, NoMemory>
    ensures { IfOk result (λ found. (names : Names) → AreApart names → found_of names found ≡ field_place (scope_of names scope.now).items (map (field_of names) fields.now) (names name)) }
{
    for field in fields {
        if field.word.name.0 == name.0 {
            return Ok(TypeFound::Place(copy_of(alloc, &field.of)?));
        }
        if !is_complete(&field.of, scope) {
            return Ok(TypeFound::Absent);
        }
    }
    Ok(TypeFound::Absent)
}

/// The type of a field of a struct type.
#[tactic(auto, using(std::proofs::lemmas::Grind::common_steps, crate::proofs::FieldPlaces::field_found, crate::proofs::FieldPlaces::field_absent, crate::proofs::FieldPlaces::field_by_tag, crate::proofs::FieldPlaces::field_elsewhere))]
pub(crate) fn field_type(
    alloc: Global,
    of: Option<CType>,
    name: Name,
    scope: &Scope,
) -> Result<TypeFound, NoMemory>
    ensures { IfOk result (λ found. (names : Names) → AreApart names → found_of names found ≡ T.field_type (scope_of names scope.now).items (optional_of names of) (names name)) }
{
    match of {
        None => Ok(TypeFound::Absent),
        Some(of) => match tag_of(&of) {
            Some(tag) => match scope.fields(tag) {
                Some(fields) => field_in(alloc, fields, name, scope),
                None => Ok(TypeFound::Absent),
            },
            None => Ok(TypeFound::Absent),
        },
    }
}
