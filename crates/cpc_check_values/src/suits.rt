//! Whether arguments are as they are wanted.
ghost use Rattle.std.specs.Prelude.{◌≡◌, [], ◌∷◌, IfOk, OnOk, Some, map, option_map};
ghost use Rattle.cpc_tree.specs.Erase.{Names, type_of};
ghost use Rattle.cpc_tree.specs.Located.{bare_expr};
ghost use Rattle.cpc_tree.specs.Locate.{located_expr};
ghost use Rattle.cpc_tree.specs.Syntax.{TyVoid, TyInt};
ghost use Rattle.cpc_tree.specs.Typing as T;
ghost use Rattle.cpc_tree.specs.Primitives as P;
ghost use Rattle.cpc_check_rules.specs.Apart.{AreApart};
ghost use Rattle.cpc_check_rules.specs.Scopes as R;
ghost use Rattle.cpc_check_rules.specs.Calls as C;
ghost use Rattle.cpc_check_rules.specs.Noted.{noted, first_of};
ghost use Rattle.cpc_types.specs.Found.{found_of};
ghost use Rattle.cpc_types.specs.Scoped.{scope_of};
ghost use Rattle.cpc_check_values.specs.Wants.{want_of};
ghost use Rattle.cpc_check_values.specs.Walked.{is_wanted_text};

use crate::called::section_named;
use crate::parts::{is_integer, is_typed};
use crate::places::first_place;
use crate::wants::Wanted;
use cpc_base::NoMemory;
use cpc_check_rules::{First, Rule};
use cpc_num::Kind;
use cpc_tree::program::{CType, Expr};
use cpc_types::{Meant, Scope, TypeFound, is_null, takes_value, used};
use std::alloc::Global;

// Whether an expression of which this was found is assignable to a type.
#[tactic(auto, using(std::proofs::lemmas::Grind::common_steps, cpc_tree::proofs::Places::bare_located))]
fn takes_found(of: &CType, e: &Expr, found: TypeFound) -> bool
    ensures { (names : Names) → AreApart names → (d : T.Typed) → found_of names found ≡ Some d → result ≡ R.takes_typed (type_of names of.now) (bare_expr (located_expr names e.now)) d }
{
    match used(found) {
        Some(u) => takes_value(of, is_null(e), &u),
        None => false,
    }
}

// Whether an expression is the name of a function.
fn is_function_name(e: &Expr, scope: &Scope) -> bool
    ensures { (names : Names) → AreApart names → result ≡ C.is_function_name (scope_of names scope.now) (located_expr names e.now) }
{
    match e {
        Expr::Name(word) => match scope.meant(word.name) {
            Meant::Function { .. } => true,
            _ => false,
        },
        _ => false,
    }
}

// The type `void *`.
fn any_pointer(alloc: Global) -> Result<CType, NoMemory>
    ensures { IfOk result (λ of. (names : Names) → type_of names of ≡ P.any_pointer) }
{
    Ok(CType::Pointer(Box::new(alloc, CType::Void)?))
}

// The parameters of a function that takes a `void *` and an `int`.
fn callback_parameters(alloc: Global) -> Result<Vec<CType>, NoMemory>
    ensures { IfOk result (λ types. (names : Names) → map (type_of names) types.items ≡ P.any_pointer ∷ TyInt Kind.Int ∷ []) }
{
    let mut parameters = Vec::new(alloc);
    parameters.push(any_pointer(alloc)?)?;
    parameters.push(CType::Int(Kind::Int))?;
    Ok(parameters)
}

// The type of a function that takes a `void *` and an `int`, and gives nothing.
#[tactic(auto, using(std::proofs::lemmas::Grind::common_steps, cpc_shapes::proofs::CodeParts::code_is))]
fn callback_type(alloc: Global) -> Result<CType, NoMemory>
    ensures { IfOk result (λ of. (names : Names) → type_of names of ≡ T.function_type TyVoid (P.any_pointer ∷ TyInt Kind.Int ∷ [])) }
{
    let parameters = callback_parameters(alloc)?;
    Ok(CType::Code {
        result: Box::new(alloc, CType::Void)?,
        parameters,
    })
}

// Whether an argument that has a type is as it is wanted.
fn suits(
    alloc: Global,
    want: Wanted,
    e: &Expr,
    found: TypeFound,
    scope: &Scope,
) -> Result<bool, NoMemory>
    ensures { IfOk result (λ fits. (names : Names) → AreApart names → (d : T.Typed) → found_of names found ≡ Some d → fits ≡ C.suits (scope_of names scope.now) (want_of names want.entry) (located_expr names e.now) d) }
{
    match want {
        Wanted::AnyInteger => Ok(is_integer(&found)),
        Wanted::Of(of) => Ok(takes_found(of, e, found)),
        Wanted::Int => Ok(takes_found(&CType::Int(Kind::Int), e, found)),
        Wanted::Long => Ok(takes_found(&CType::Int(Kind::Long), e, found)),
        Wanted::Condvar => Ok(takes_found(&CType::Condvar, e, found)),
        Wanted::Pointer => Ok(takes_found(&any_pointer(alloc)?, e, found)),
        Wanted::Callback => {
            if is_function_name(e, scope) {
                Ok(takes_found(&callback_type(alloc)?, e, found))
            } else {
                Ok(false)
            }
        }
        Wanted::Text => Ok(false),
        Wanted::Section => Ok(section_named(Some(e), scope).is_some()),
        Wanted::Anything => Ok(true),
    }
}

/// Notes an argument that has a type, and is not as it is wanted. `NoMemory` is want of memory.
pub(crate) fn suit_rules(
    alloc: Global,
    first: &mut First,
    want: Wanted,
    e: &Expr,
    found: TypeFound,
    scope: &Scope,
) -> Result<(), NoMemory>
    ensures { OnOk result ((names : Names) → AreApart names → first_of first.new ≡ noted (first_of first.old) (C.suit_breaks (scope_of names scope.now) (want_of names want.entry) (located_expr names e.now) (found_of names found))) }
{
    if is_typed(&found) {
        let fits = suits(alloc, want, e, found, scope)?;
        first.note_if(!fits, first_place(e), Rule::Disagree);
    }
    Ok(())
}

/// Whether an argument is a string that is wanted.
pub(crate) fn is_wanted_text(want: Option<Wanted>, e: &Expr) -> bool
    ensures { (names : Names) → result ≡ is_wanted_text (option_map (want_of names) want.entry) (located_expr names e.now) }
{
    match want {
        Some(Wanted::Text) => match e {
            Expr::Text { .. } => true,
            _ => false,
        },
        _ => false,
    }
}
