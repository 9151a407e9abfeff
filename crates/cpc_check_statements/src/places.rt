//! What is written to.
ghost use Rattle.std.specs.Prelude.{◌≡◌, IfOk, OnOk};
ghost use Rattle.cpc_tree.specs.Erase.{Names, type_of};
ghost use Rattle.cpc_tree.specs.Locate.{located_expr};
ghost use Rattle.cpc_tree.specs.Typing.{APlace};
ghost use Rattle.cpc_check_rules.specs.Apart.{Spells};
ghost use Rattle.cpc_check_rules.specs.Operators as O;
ghost use Rattle.cpc_check_rules.specs.StmtRules as S;
ghost use Rattle.cpc_check_rules.specs.Noted.{noted, first_of};
ghost use Rattle.cpc_types.specs.Found.{found_of};
ghost use Rattle.cpc_check_values.specs.Stands.{where_of};

use cpc_base::{NoMemory, Place};
use cpc_check_rules::{First, Rule};
use cpc_check_values::{Where, first_place, value_rules};
use cpc_tree::program::{CType, Expr};
use cpc_types::TypeFound;
use std::alloc::Global;

// Whether a place of the type is written to whole.
fn is_writable(of: &CType) -> bool
    ensures { (names : Names) → result ≡ S.is_writable (APlace (type_of names of.now)) }
{
    match of {
        CType::Array(_, _) | CType::Struct(_) => false,
        _ => true,
    }
}

// Notes what has a type and is no place that can be written to.
fn note_place(first: &mut First, found: &TypeFound, place: Place)
    ensures { (names : Names) → first_of first.new ≡ noted (first_of first.old) (S.place_breaks (found_of names found.now) place) }
{
    match found {
        TypeFound::Value(_) => first.note(place, Rule::NoPlace),
        TypeFound::Place(of) => first.note_if(!is_writable(of), place, Rule::NoPlace),
        TypeFound::Absent => {}
    }
}

/// The type of what is written to, and notes what it breaks. `NoMemory` is want of memory.
pub(crate) fn target_rules(
    alloc: Global,
    first: &mut First,
    target: &Expr,
    w: &Where,
) -> Result<TypeFound, NoMemory>
    ensures typed { IfOk result (λ found. (names : Names) → Spells w.now.names.now names → found_of names found ≡ O.typed_at (where_of names w.now) (located_expr names target.now)) }
    ensures noted { OnOk result ((names : Names) → Spells w.now.names.now names → first_of first.new ≡ noted (first_of first.old) (S.target_breaks (where_of names w.now) (located_expr names target.now))) }
{
    let found = value_rules(alloc, first, target, w)?;
    note_place(first, &found, first_place(target));
    Ok(found)
}
