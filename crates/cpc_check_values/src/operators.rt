//! What operators break.
ghost use Rattle.std.specs.Prelude.{◌≡◌, IfOk, OnOk, ◌&&◌, is_some, [], ◌∷◌, if◌then◌else◌};
ghost use Rattle.std.specs.Option.{is_none};
ghost use Rattle.cpc_check_rules.specs.declared.rule.Rule.TheVariants.{Incomplete};
ghost use Rattle.cpc_check_rules.specs.Rule.{at_if};
ghost use Rattle.cpc_check_rules.specs.Scopes as R;
ghost use Rattle.cpc_tree.specs.Syntax.{ESizeOf};
ghost use Rattle.cpc_check_values.specs.Parts.{unary_breaks};
ghost use Rattle.cpc_tree.specs.Erase.{Names, type_of};
ghost use Rattle.cpc_tree.specs.Typing as T;
ghost use Rattle.cpc_check_rules.specs.Apart.{AreApart};
ghost use Rattle.cpc_check_rules.specs.Operators as O;
ghost use Rattle.cpc_check_rules.specs.Noted.{noted, first_of};
ghost use Rattle.cpc_types.specs.Found.{found_of};
ghost use Rattle.cpc_shapes.specs.Forms as F;
ghost use Rattle.cpc_types.specs.Scoped.{scope_of};

use crate::parts::{is_incomplete_sum, is_typed};
use cpc_base::{NoMemory, Place};
use cpc_check_rules::{First, Rule};
use cpc_num::Op;
use cpc_tree::program::{CType, UnaryOp};
use cpc_types::{
    Scope, TypeFound, binary_form, cast_form, cells, choice_form, index_form, size_form, test_form,
    unary_form,
};
use std::alloc::Global;

// Notes an operator that has no type, where its operands have types.
fn note_untyped(first: &mut First, typed: bool, whole: &TypeFound, place: Place)
    ensures { (names : Names) → first_of first.new ≡ noted (first_of first.old) (O.no_rule typed (found_of names whole.now) place) }
{
    first.note_if(typed && !is_typed(whole), place, Rule::Disagree);
}

/// An operator on one operand: its type, and what it breaks. `named` tells whether the operand is a name, `places` are
/// where the operator stands and where the operand begins. `NoMemory` is want of memory.
pub(crate) fn unary_rules(
    alloc: Global,
    first: &mut First,
    op: UnaryOp,
    named: bool,
    found: TypeFound,
    places: (Place, Place),
) -> Result<TypeFound, NoMemory>
    ensures typed { IfOk result (λ whole. (names : Names) → found_of names whole ≡ F.unary_of op named (found_of names found)) }
    ensures noted { OnOk result ((names : Names) → first_of first.new ≡ noted (first_of first.old) (unary_breaks op (found_of names found) (F.unary_of op named (found_of names found)) places.0 places.1)) }
{
    let typed = is_typed(&found);
    let whole = unary_form(alloc, op, named, found)?;
    match op {
        UnaryOp::AddressOf => {
            first.note_if(typed && !is_typed(&whole), places.1, Rule::NoPlace);
        }
        _ => note_untyped(first, typed, &whole, places.0),
    }
    Ok(whole)
}

// Notes what an operator on two values breaks. `incomplete` tells whether it moves a pointer to what has no size.
fn note_binary(first: &mut First, incomplete: bool, typed: bool, whole: &TypeFound, place: Place)
    ensures { (names : Names) → first_of first.new ≡ noted (first_of first.old) (if incomplete then (place, Incomplete) ∷ [] else O.no_rule typed (found_of names whole.now) place) }
{
    if incomplete {
        first.note(place, Rule::Incomplete);
    } else {
        note_untyped(first, typed, whole, place);
    }
}

/// An operator on two values: its type, and what it breaks. `nulls` tells which of them are the literal 0. `NoMemory` is
/// want of memory.
pub fn binary_rules(
    alloc: Global,
    first: &mut First,
    op: Op,
    nulls: (bool, bool),
    operands: (TypeFound, TypeFound),
    place: Place,
    scope: &Scope,
) -> Result<TypeFound, NoMemory>
    ensures typed { IfOk result (λ whole. (names : Names) → AreApart names → found_of names whole ≡ F.binary_of (scope_of names scope.now).items op nulls.0 nulls.1 (found_of names operands.0) (found_of names operands.1)) }
    ensures noted { OnOk result ((names : Names) → AreApart names → first_of first.new ≡ noted (first_of first.old) (O.binary_breaks (scope_of names scope.now) op (found_of names operands.0) (found_of names operands.1) (F.binary_of (scope_of names scope.now).items op nulls.0 nulls.1 (found_of names operands.0) (found_of names operands.1)) place)) }
{
    let (left, right) = operands;
    let incomplete = is_incomplete_sum(op, &left, &right, scope);
    let typed = is_typed(&left) && is_typed(&right);
    let whole = binary_form(alloc, op, nulls, left, right, scope)?;
    note_binary(first, incomplete, typed, &whole, place);
    Ok(whole)
}

/// An element: its type, and what it breaks. `NoMemory` is want of memory.
pub(crate) fn index_rules(
    alloc: Global,
    first: &mut First,
    operand: TypeFound,
    index: TypeFound,
    place: Place,
    scope: &Scope,
) -> Result<TypeFound, NoMemory>
    ensures typed { IfOk result (λ whole. (names : Names) → AreApart names → found_of names whole ≡ F.index_of (scope_of names scope.now).items (found_of names operand) (found_of names index)) }
    ensures noted { OnOk result ((names : Names) → AreApart names → first_of first.new ≡ noted (first_of first.old) (O.binary_breaks (scope_of names scope.now) Op.Add (found_of names operand) (found_of names index) (F.index_of (scope_of names scope.now).items (found_of names operand) (found_of names index)) place)) }
{
    let incomplete = is_incomplete_sum(Op::Add, &operand, &index, scope);
    let typed = is_typed(&operand) && is_typed(&index);
    let whole = index_form(alloc, operand, index, scope)?;
    note_binary(first, incomplete, typed, &whole, place);
    Ok(whole)
}

/// `&&` and `||`: their type, and what they break.
pub(crate) fn test_rules(
    first: &mut First,
    left: TypeFound,
    right: TypeFound,
    place: Place,
) -> TypeFound
    ensures typed { (names : Names) → found_of names result ≡ T.test_type (found_of names left) (found_of names right) }
    ensures noted { (names : Names) → first_of first.new ≡ noted (first_of first.old) (O.no_rule (is_some (found_of names left) && is_some (found_of names right)) (T.test_type (found_of names left) (found_of names right)) place) }
{
    let typed = is_typed(&left) && is_typed(&right);
    let whole = test_form(left, right);
    note_untyped(first, typed, &whole, place);
    whole
}

/// `?:`: its type, and what it breaks. `nulls` tells which of the two arms are the literal 0.
pub(crate) fn choice_rules(
    first: &mut First,
    nulls: (bool, bool),
    test: TypeFound,
    arms: (TypeFound, TypeFound),
    place: Place,
) -> TypeFound
    ensures typed { (names : Names) → AreApart names → found_of names result ≡ F.choice_of nulls.0 nulls.1 (found_of names test) (found_of names arms.0) (found_of names arms.1) }
    ensures noted { (names : Names) → AreApart names → first_of first.new ≡ noted (first_of first.old) (O.no_rule (is_some (found_of names test) && (is_some (found_of names arms.0) && is_some (found_of names arms.1))) (F.choice_of nulls.0 nulls.1 (found_of names test) (found_of names arms.0) (found_of names arms.1)) place) }
{
    let (yes, no) = arms;
    let typed = is_typed(&test) && (is_typed(&yes) && is_typed(&no));
    let whole = choice_form(nulls, test, yes, no);
    note_untyped(first, typed, &whole, place);
    whole
}

/// A cast: its type, and what it breaks. `null` tells whether the operand is the literal 0. `NoMemory` is want of memory.
pub(crate) fn cast_rules(
    alloc: Global,
    first: &mut First,
    of: &CType,
    null: bool,
    found: TypeFound,
    place: Place,
) -> Result<TypeFound, NoMemory>
    ensures typed { IfOk result (λ whole. (names : Names) → found_of names whole ≡ F.cast_of null (type_of names of.now) (found_of names found)) }
    ensures noted { OnOk result ((names : Names) → first_of first.new ≡ noted (first_of first.old) (O.no_rule (is_some (found_of names found)) (F.cast_of null (type_of names of.now) (found_of names found)) place)) }
{
    let typed = is_typed(&found);
    let whole = cast_form(alloc, of, null, found)?;
    note_untyped(first, typed, &whole, place);
    Ok(whole)
}

/// `sizeof`: its type, and what it breaks.
pub(crate) fn size_rules(first: &mut First, of: &CType, place: Place, scope: &Scope) -> TypeFound
    ensures typed { (names : Names) → AreApart names → found_of names result ≡ R.typed (scope_of names scope.now) (ESizeOf (type_of names of.now)) }
    ensures noted { (names : Names) → AreApart names → first_of first.new ≡ noted (first_of first.old) (at_if (is_none (R.measured (scope_of names scope.now) (type_of names of.now))) place Incomplete) }
{
    first.note_if(cells(of, scope).is_none(), place, Rule::Incomplete);
    size_form(of, scope)
}
