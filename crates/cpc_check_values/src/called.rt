//! What is called, and what naming it breaks.
ghost use Rattle.std.specs.Prelude.{◌≡◌, ◌++◌, Some, map, option_map, slice_get, if◌then◌else◌};
ghost use Rattle.cpc_tree.specs.Syntax.{TyInt};
ghost use Rattle.cpc_shapes.specs.Listed.{optional_of};
ghost use Rattle.cpc_tree.specs.Erase.{Names as Spelling, type_of, parameter_of};
ghost use Rattle.cpc_tree.specs.Locate.{located_expr, located_exprs};
ghost use Rattle.cpc_tree.specs.PrimitiveNames.{primitive_of};
ghost use Rattle.cpc_tree.specs.Typing as T;
ghost use Rattle.cpc_check_rules.specs.declared.rule.Rule.TheVariants.{NotClosed};
ghost use Rattle.cpc_check_rules.specs.Apart.{AreApart, Spells};
ghost use Rattle.cpc_check_rules.specs.Rule.{Broken, at_if};
ghost use Rattle.cpc_check_rules.specs.ExprRules as E;
ghost use Rattle.cpc_check_rules.specs.Scopes as R;
ghost use Rattle.cpc_check_rules.specs.Operators as O;
ghost use Rattle.cpc_check_rules.specs.Calls as C;
ghost use Rattle.cpc_check_rules.specs.Noted.{noted, first_of};
ghost use Rattle.cpc_types.specs.Found.{found_of};
ghost use Rattle.cpc_types.specs.Scoped.{scope_of};
ghost use Rattle.cpc_check_values.specs.Wants.{wants_of, callee_of, section_callee_of};
ghost use Rattle.cpc_check_values.specs.Stands.{where_of};
ghost use Rattle.cpc_check_values.specs.Walked.{count_breaks};
ghost use Rattle.cpc_check_values.specs.Named.{callee_or, callee_breaks, breaks_or};

use crate::names::is_detached;
use crate::parts::is_typed;
use crate::primitives::{gives_up, is_closed, is_rt};
use crate::wants::Callee;
use crate::wheres::Where;
use cpc_base::{Dialect, Name, Place};
use cpc_check_rules::{First, Rule, primitive_at};
use cpc_num::Kind;
use cpc_tree::primitive::Primitive;
use cpc_tree::program::{CType, Expr, Mode, Parameter};
use cpc_types::{Meant, Scope, TypeFound, has_integers, used};

// Whether a type is that of a pointer to cells that are all integers.
fn points_to_integers(of: &CType, scope: &Scope) -> bool
    ensures { (names : Spelling) → AreApart names → result ≡ C.points_to_integers (scope_of names scope.now) (type_of names of.now) }
{
    match of {
        CType::Pointer(to) => has_integers(to, scope),
        _ => false,
    }
}

// Whether a type is that of integers.
fn is_integer_type(of: &CType) -> bool
    ensures { (names : Spelling) → result ≡ C.is_integer (type_of names of.now) }
{
    match of {
        CType::Int(_) => true,
        _ => false,
    }
}

// Whether parameters are all integers.
fn are_integers(parameters: &[Parameter]) -> bool
    ensures { (names : Spelling) → result ≡ C.all_integers (map T.parameter_type (map (parameter_of names) parameters.now)) }
{
    for parameter in parameters {
        if !is_integer_type(&parameter.of) {
            return false;
        }
    }
    true
}

// Whether a function of a section has these parameters.
fn takes_section(parameters: &[Parameter], scope: &Scope) -> bool
    ensures { (names : Spelling) → AreApart names → result ≡ C.takes_section (scope_of names scope.now) (map T.parameter_type (map (parameter_of names) parameters.now)) }
{
    match parameters.first() {
        Some(first) => points_to_integers(&first.of, scope) && are_integers(&parameters[1..]),
        None => false,
    }
}

// Whether a function of a section is this.
fn is_section(mode: Mode, given: &CType, parameters: &[Parameter], scope: &Scope) -> bool
    ensures { (names : Spelling) → AreApart names → (if result then C.Takes (wants_of names parameters.now) (TyInt Kind.Int) else C.NoCallee) ≡ C.section_callee (scope_of names scope.now) (T.AFunction mode (type_of names given.now) (map T.parameter_type (map (parameter_of names) parameters.now))) }
{
    match mode {
        Mode::Detached => match given {
            CType::Int(Kind::Int) => takes_section(parameters, scope),
            _ => false,
        },
        _ => false,
    }
}

/// The parameters of the function of a section that a name stands for.
pub(crate) fn section_parameters<'s>(name: Name, scope: &'s Scope) -> Option<&'s [Parameter]>
    ensures { (names : Spelling) → AreApart names → section_callee_of names (option_map (λ ps. ps.now) result) ≡ C.section_callee (scope_of names scope.now) (R.meant (scope_of names scope.now) (names name)) }
{
    match scope.meant(name) {
        Meant::Function {
            mode,
            result: given,
            parameters,
        } => {
            if is_section(mode, given, parameters, scope) {
                Some(parameters)
            } else {
                None
            }
        }
        _ => None,
    }
}

/// The parameters of the function of a section that an expression names.
pub(crate) fn section_named<'s>(e: Option<&Expr>, scope: &'s Scope) -> Option<&'s [Parameter]>
    ensures { (names : Spelling) → AreApart names → section_callee_of names (option_map (λ ps. ps.now) result) ≡ C.section_of (scope_of names scope.now) (option_map (λ x. located_expr names x.now) e.entry) }
{
    match e {
        Some(Expr::Name(word)) => section_parameters(word.name, scope),
        _ => None,
    }
}

// The third of the arguments.
fn third(arguments: &[Expr]) -> Option<&Expr>
    ensures { option_map (λ e. e.now) result ≡ slice_get arguments.now 2 }
{
    arguments.get(2)
}

// A primitive, called with these arguments.
fn primitive_callee<'s>(primitive: Primitive, arguments: &[Expr], scope: &'s Scope) -> Callee<'s>
    ensures callee { (names : Spelling) → AreApart names → callee_of names result ≡ C.unmeant_callee (scope_of names scope.now) (Some (primitive_of primitive)) (located_exprs names arguments.now) }
    ensures breaks { (names : Spelling) (w : O.Where) (q : Place) → callee_breaks w q result ≡ C.primitive_breaks w q (primitive_of primitive) }
{
    match primitive {
        Primitive::RtDetach => Callee::Primitive {
            primitive,
            section: section_named(third(arguments), scope),
            given: arguments.len(),
        },
        _ => Callee::Primitive {
            primitive,
            section: None,
            given: arguments.len(),
        },
    }
}

/// The function or the primitive that is called by its name; `None` where something else is called. A name that stands
/// for nothing is `Unknown`.
pub(crate) fn named_callee<'w>(
    function: &Expr,
    arguments: &[Expr],
    w: &'w Where,
) -> Option<Callee<'w>>
    ensures callee { (names : Spelling) → Spells w.now.names.now names → callee_or names result (C.code_callee (O.used_of (O.typed_at (where_of names w.now) (located_expr names function.now)))) ≡ C.callee (where_of names w.now) (located_expr names function.now) (located_exprs names arguments.now) }
    ensures breaks { (names : Spelling) → Spells w.now.names.now names → (parts : Broken) → breaks_or (where_of names w.now) (O.first (located_expr names function.now)) result (C.pointer_breaks (where_of names w.now) (located_expr names function.now) parts) ≡ E.called_breaks (where_of names w.now) (located_expr names function.now) parts }
{
    let Expr::Name(word) = function else {
        return None;
    };
    match w.scope.meant(word.name) {
        Meant::Local(_) | Meant::Global(_) => None,
        Meant::Function {
            mode,
            result: given,
            parameters,
        } => Some(Callee::Function {
            mode,
            result: given,
            parameters,
        }),
        Meant::Nothing => match primitive_at(w.names, word.name) {
            Some(primitive) => Some(primitive_callee(primitive, arguments, w.scope)),
            None => Some(Callee::Unknown),
        },
    }
}

// Notes what calling a primitive by its name breaks.
fn note_primitive(first: &mut First, place: Place, primitive: Primitive, w: &Where)
    ensures { (names : Spelling) → first_of first.new ≡ noted (first_of first.old) (C.primitive_breaks (where_of names w.now) place (primitive_of primitive)) }
{
    let gives_up = gives_up(primitive);
    let in_events = w.dialect == Dialect::Event;
    first.note_if(gives_up && !w.mode.is_cps(), place, Rule::CpsInNative);
    first.note_if(
        is_detached(w.mode) && !is_closed(primitive),
        place,
        Rule::NotClosed,
    );
    first.note_if(is_rt(primitive) && !in_events, place, Rule::RtCall);
    first.note_if(gives_up && in_events, place, Rule::CpsForm);
}

// Notes what calling a function of a mode by its name breaks.
fn note_function(first: &mut First, place: Place, mode: Mode, w: &Where)
    ensures { (names : Spelling) → first_of first.new ≡ noted (first_of first.old) (C.function_breaks (where_of names w.now) place mode) }
{
    first.note_if(mode.is_cps() && !w.mode.is_cps(), place, Rule::CpsInNative);
    first.note_if(
        is_detached(w.mode) && !is_detached(mode),
        place,
        Rule::NotClosed,
    );
}

/// Notes what calling something by its name breaks.
pub(crate) fn named_rules(first: &mut First, place: Place, callee: &Callee, w: &Where)
    ensures { (names : Spelling) → first_of first.new ≡ noted (first_of first.old) (callee_breaks (where_of names w.now) place callee.now) }
{
    match callee {
        Callee::Function { mode, .. } => note_function(first, place, *mode, w),
        Callee::Primitive { primitive, .. } => note_primitive(first, place, *primitive, w),
        Callee::Unknown => first.note(place, Rule::Undeclared),
        Callee::Section { .. } | Callee::Code { .. } | Callee::NoCode => {}
    }
}

// What is called by a pointer of a type.
fn code_callee<'s>(of: Option<CType>) -> Callee<'s>
    ensures { (names : Spelling) → callee_of names result ≡ C.code_callee (optional_of names of) }
{
    let Some(of) = of else {
        return Callee::NoCode;
    };
    match of.into_code() {
        Some((result, parameters)) => Callee::Code { result, parameters },
        None => Callee::NoCode,
    }
}

/// What is called by a pointer of which this was found, and notes what calling it breaks.
pub(crate) fn pointer_rules<'s>(
    first: &mut First,
    place: Place,
    found: TypeFound,
    w: &Where,
) -> Callee<'s>
    ensures callee { (names : Spelling) → callee_of names result ≡ C.code_callee (O.used_of (found_of names found)) }
    ensures noted { (names : Spelling) → first_of first.new ≡ noted (first_of first.old) (at_if (O.is_detached w.now.mode) place NotClosed ++ C.no_code (found_of names found) place) }
{
    first.note_if(is_detached(w.mode), place, Rule::NotClosed);
    let typed = is_typed(&found);
    let callee = code_callee(used(found));
    first.note_if(typed && !callee.is_code(), place, Rule::Disagree);
    callee
}

/// Notes a number of arguments that is not the one that is wanted.
pub(crate) fn note_count(first: &mut First, callee: &Callee, count: usize, place: Place)
    ensures { (names : Spelling) → first_of first.new ≡ noted (first_of first.old) (count_breaks (callee_of names callee.now) count place) }
{
    match callee.count() {
        Some(wanted) => first.note_if(count != wanted, place, Rule::WrongNumber),
        None => {}
    }
}
