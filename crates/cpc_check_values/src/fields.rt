//! What fields break.
ghost use Rattle.std.specs.Prelude.{◌≡◌, IfOk, OnOk, option_map};
ghost use Rattle.cpc_tree.specs.Erase.{Names, type_of};
ghost use Rattle.cpc_tree.specs.Locate.{ident};
ghost use Rattle.cpc_check_rules.specs.Apart.{AreApart};
ghost use Rattle.cpc_check_rules.specs.Operators as O;
ghost use Rattle.cpc_check_rules.specs.Noted.{noted, first_of};
ghost use Rattle.cpc_types.specs.Found.{found_of};
ghost use Rattle.cpc_shapes.specs.Forms as F;
ghost use Rattle.cpc_types.specs.Scoped.{scope_of};
ghost use Rattle.cpc_check_values.specs.Bases.{base_of, base_breaks};

use crate::parts::{is_typed, place_of, pointed};
use cpc_base::{NoMemory, Place};
use cpc_check_rules::{First, Rule};
use cpc_tree::program::{CType, Word};
use cpc_types::{Scope, TypeFound, arrow_form, member_form};
use std::alloc::Global;

/// What a field is taken of.
#[derive(Clone, Copy)]
pub(crate) enum Base {
    /// A struct with its fields.
    Fields,
    /// A struct that is not complete, or void.
    Incomplete,
    /// No struct.
    Other,
}

// What a field is taken of, by its type.
fn base_of(of: Option<&CType>, scope: &Scope) -> Base
    ensures { (names : Names) → AreApart names → base_of (scope_of names scope.now) (option_map (λ t. type_of names t.now) of.entry) ≡ result }
{
    match of {
        Some(CType::Struct(tag)) => match scope.fields(*tag) {
            Some(_) => Base::Fields,
            None => Base::Incomplete,
        },
        Some(CType::Void) => Base::Incomplete,
        _ => Base::Other,
    }
}

// Notes what a field breaks that is taken of this.
fn note_field(first: &mut First, base: Base, place: Place, field: Word, whole: &TypeFound)
    ensures { (names : Names) → first_of first.new ≡ noted (first_of first.old) (base_breaks base place field.place (found_of names whole.now)) }
{
    match base {
        Base::Fields => first.note_if(!is_typed(whole), field.place, Rule::NoField),
        Base::Incomplete => first.note(place, Rule::Incomplete),
        Base::Other => first.note(place, Rule::Disagree),
    }
}

/// A field of a place: its type, and what it breaks. `NoMemory` is want of memory.
pub(crate) fn member_rules(
    alloc: Global,
    first: &mut First,
    found: TypeFound,
    place: Place,
    field: Word,
    scope: &Scope,
) -> Result<TypeFound, NoMemory>
    ensures typed { IfOk result (λ whole. (names : Names) → AreApart names → found_of names whole ≡ F.member_of (scope_of names scope.now).items (found_of names found) (names field.name)) }
    ensures noted { OnOk result ((names : Names) → AreApart names → first_of first.new ≡ noted (first_of first.old) (O.member_breaks (scope_of names scope.now) (found_of names found) place (ident names field) (F.member_of (scope_of names scope.now).items (found_of names found) (names field.name)))) }
{
    let typed = is_typed(&found);
    let base = base_of(place_of(&found), scope);
    let whole = member_form(alloc, found, field.name, scope)?;
    if typed {
        note_field(first, base, place, field, &whole);
    }
    Ok(whole)
}

/// A field of what a pointer points to: its type, and what it breaks. `NoMemory` is want of memory.
pub(crate) fn arrow_rules(
    alloc: Global,
    first: &mut First,
    found: TypeFound,
    place: Place,
    field: Word,
    scope: &Scope,
) -> Result<TypeFound, NoMemory>
    ensures typed { IfOk result (λ whole. (names : Names) → AreApart names → found_of names whole ≡ F.arrow_of (scope_of names scope.now).items (found_of names found) (names field.name)) }
    ensures noted { OnOk result ((names : Names) → AreApart names → first_of first.new ≡ noted (first_of first.old) (O.arrow_breaks (scope_of names scope.now) (found_of names found) place (ident names field) (F.arrow_of (scope_of names scope.now).items (found_of names found) (names field.name)))) }
{
    let typed = is_typed(&found);
    let base = base_of(pointed(&found), scope);
    let whole = arrow_form(alloc, found, field.name, scope)?;
    if typed {
        note_field(first, base, place, field, &whole);
    }
    Ok(whole)
}
