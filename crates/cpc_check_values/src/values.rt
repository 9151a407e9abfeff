//! What expressions and calls break. An expression is walked once: its type comes of the types of its parts.
ghost use Rattle.std.specs.Prelude.{◌≡◌, IfOk, OnOk, length, option_map};
ghost use Rattle.cpc_tree.specs.Erase.{Names};
ghost use Rattle.cpc_tree.specs.Locate.{located_expr, located_exprs};
ghost use Rattle.cpc_check_rules.specs.Apart.{Spells};
ghost use Rattle.cpc_check_rules.specs.Operators as O;
ghost use Rattle.cpc_check_rules.specs.Calls as C;
ghost use Rattle.cpc_check_rules.specs.ExprRules as E;
ghost use Rattle.cpc_check_rules.specs.Noted.{noted, first_of};
ghost use Rattle.cpc_types.specs.Found.{found_of};
ghost use Rattle.cpc_shapes.specs.Listed.{optional_of};
ghost use Rattle.cpc_check_values.specs.Wants.{want_of, callee_of};
ghost use Rattle.cpc_check_values.specs.Stands.{where_of};
ghost use Rattle.cpc_check_values.specs.Walked.{narrow_breaks, narrow_typed, wide_breaks, wide_typed, inside_breaks, logical_breaks, logical_typed, wanted_breaks};

use crate::called::{named_callee, named_rules, note_count, pointer_rules};
use crate::fields::{arrow_rules, member_rules};
use crate::names::name_rules;
use crate::operators::{
    binary_rules, cast_rules, choice_rules, index_rules, size_rules, test_rules, unary_rules,
};
use crate::places::first_place;
use crate::suits::{is_wanted_text, suit_rules};
use crate::wants::{Callee, Wanted};
use crate::wheres::Where;
use cpc_base::NoMemory;
use cpc_check_rules::{First, Rule};
use cpc_num::Kind;
use cpc_shapes::is_named;
use cpc_tree::program::{CType, Expr};
use cpc_types::{TypeFound, is_null, name_type};
use std::alloc::Global;

/// The type of an expression that is used as a value or a place, and notes what it breaks. `NoMemory` is want of memory.
#[cycle(values)]
pub fn value_rules(
    alloc: Global,
    first: &mut First,
    e: &Expr,
    w: &Where,
) -> Result<TypeFound, NoMemory>
    ensures typed { IfOk result (λ found. (names : Names) → Spells w.now.names.now names → found_of names found ≡ O.typed_at (where_of names w.now) (located_expr names e.now)) }
    ensures noted { OnOk result ((names : Names) → Spells w.now.names.now names → first_of first.new ≡ noted (first_of first.old) (E.expr_breaks (where_of names w.now) (located_expr names e.now))) }
{
    match e {
        Expr::Name(word) => {
            name_rules(first, *word, w);
            name_type(alloc, word.name, w.scope)
        }
        Expr::Integer { kind, .. } => Ok(TypeFound::Value(CType::Int(*kind))),
        Expr::Character { .. } => Ok(TypeFound::Value(CType::Int(Kind::Int))),
        Expr::Text { place, .. } => {
            first.note(*place, Rule::Disagree);
            Ok(TypeFound::Absent)
        }
        Expr::SizeOf { place, target: of } => Ok(size_rules(first, of, *place, w.scope)),
        Expr::CallIn { .. } => {
            inside_rules(alloc, first, e, w)?;
            Ok(TypeFound::Absent)
        }
        Expr::Unary { .. } | Expr::Cast { .. } | Expr::Member { .. } | Expr::Arrow { .. } => {
            narrow_rules(alloc, first, e, w)
        }
        Expr::Binary { .. } | Expr::Index { .. } => wide_rules(alloc, first, e, w),
        Expr::And { .. } | Expr::Or { .. } | Expr::Choose { .. } => {
            logical_rules(alloc, first, e, w)
        }
    }
}

// An expression with one operand.
#[cycle(values)]
fn narrow_rules(
    alloc: Global,
    first: &mut First,
    e: &Expr,
    w: &Where,
) -> Result<TypeFound, NoMemory>
    ensures typed { IfOk result (λ found. (names : Names) → Spells w.now.names.now names → found_of names found ≡ narrow_typed (where_of names w.now) (located_expr names e.now)) }
    ensures noted { OnOk result ((names : Names) → Spells w.now.names.now names → first_of first.new ≡ noted (first_of first.old) (narrow_breaks (where_of names w.now) (located_expr names e.now))) }
{
    match e {
        Expr::Unary { place, op, operand } => {
            let found = value_rules(alloc, first, operand, w)?;
            let places = (*place, first_place(operand));
            unary_rules(alloc, first, *op, is_named(operand), found, places)
        }
        Expr::Cast {
            place,
            target: of,
            operand,
        } => {
            let found = value_rules(alloc, first, operand, w)?;
            cast_rules(alloc, first, of, is_null(operand), found, *place)
        }
        Expr::Member {
            place,
            operand,
            field,
        } => {
            let found = value_rules(alloc, first, operand, w)?;
            member_rules(alloc, first, found, *place, *field, w.scope)
        }
        Expr::Arrow {
            place,
            operand,
            field,
        } => {
            let found = value_rules(alloc, first, operand, w)?;
            arrow_rules(alloc, first, found, *place, *field, w.scope)
        }
        _ => Ok(TypeFound::Absent),
    }
}

// An expression with two operands that are used as values.
#[cycle(values)]
fn wide_rules(alloc: Global, first: &mut First, e: &Expr, w: &Where) -> Result<TypeFound, NoMemory>
    ensures typed { IfOk result (λ found. (names : Names) → Spells w.now.names.now names → found_of names found ≡ wide_typed (where_of names w.now) (located_expr names e.now)) }
    ensures noted { OnOk result ((names : Names) → Spells w.now.names.now names → first_of first.new ≡ noted (first_of first.old) (wide_breaks (where_of names w.now) (located_expr names e.now))) }
{
    match e {
        Expr::Binary {
            place,
            op,
            left,
            right,
        } => {
            let a = value_rules(alloc, first, left, w)?;
            let b = value_rules(alloc, first, right, w)?;
            let nulls = (is_null(left), is_null(right));
            binary_rules(alloc, first, *op, nulls, (a, b), *place, w.scope)
        }
        Expr::Index {
            place,
            operand,
            index,
        } => {
            let a = value_rules(alloc, first, operand, w)?;
            let b = value_rules(alloc, first, index, w)?;
            index_rules(alloc, first, a, b, *place, w.scope)
        }
        _ => Ok(TypeFound::Absent),
    }
}

// `&&`, `||` and `?:`.
#[cycle(values)]
fn logical_rules(
    alloc: Global,
    first: &mut First,
    e: &Expr,
    w: &Where,
) -> Result<TypeFound, NoMemory>
    ensures typed { IfOk result (λ found. (names : Names) → Spells w.now.names.now names → found_of names found ≡ logical_typed (where_of names w.now) (located_expr names e.now)) }
    ensures noted { OnOk result ((names : Names) → Spells w.now.names.now names → first_of first.new ≡ noted (first_of first.old) (logical_breaks (where_of names w.now) (located_expr names e.now))) }
{
    match e {
        Expr::And { place, left, right } => {
            let a = value_rules(alloc, first, left, w)?;
            let b = value_rules(alloc, first, right, w)?;
            Ok(test_rules(first, a, b, *place))
        }
        Expr::Or { place, left, right } => {
            let a = value_rules(alloc, first, left, w)?;
            let b = value_rules(alloc, first, right, w)?;
            Ok(test_rules(first, a, b, *place))
        }
        Expr::Choose {
            place,
            test,
            yes,
            no,
        } => {
            let tested = value_rules(alloc, first, test, w)?;
            let a = value_rules(alloc, first, yes, w)?;
            let b = value_rules(alloc, first, no, w)?;
            let nulls = (is_null(yes), is_null(no));
            Ok(choice_rules(first, nulls, tested, (a, b), *place))
        }
        _ => Ok(TypeFound::Absent),
    }
}

// A call in an expression.
#[cycle(values)]
fn inside_rules(alloc: Global, first: &mut First, e: &Expr, w: &Where) -> Result<(), NoMemory>
    ensures { OnOk result ((names : Names) → Spells w.now.names.now names → first_of first.new ≡ noted (first_of first.old) (inside_breaks (where_of names w.now) (located_expr names e.now))) }
{
    match e {
        Expr::CallIn {
            function,
            arguments,
            ..
        } => {
            let function: &Expr = function;
            let arguments: &[Expr] = arguments;
            let place = first_place(function);
            first.note(place, Rule::CallInside);
            let callee = called_rules(alloc, first, function, arguments, w)?;
            note_count(first, &callee, arguments.len(), place);
            argument_rules(alloc, first, &callee, arguments, w)
        }
        _ => Ok(()),
    }
}

// What is called with these arguments, and notes what naming or reaching it breaks.
#[cycle(values)]
fn called_rules<'w>(
    alloc: Global,
    first: &mut First,
    function: &Expr,
    arguments: &[Expr],
    w: &'w Where,
) -> Result<Callee<'w>, NoMemory>
    ensures callee { IfOk result (λ callee. (names : Names) → Spells w.now.names.now names → callee_of names callee ≡ C.callee (where_of names w.now) (located_expr names function.now) (located_exprs names arguments.now)) }
    ensures noted { OnOk result ((names : Names) → Spells w.now.names.now names → first_of first.new ≡ noted (first_of first.old) (E.called_breaks (where_of names w.now) (located_expr names function.now) (E.expr_breaks (where_of names w.now) (located_expr names function.now)))) }
{
    let place = first_place(function);
    match named_callee(function, arguments, w) {
        Some(callee) => {
            named_rules(first, place, &callee, w);
            Ok(callee)
        }
        None => {
            let found = value_rules(alloc, first, function, w)?;
            Ok(pointer_rules(first, place, found, w))
        }
    }
}

/// Notes what arguments break, each beside what is wanted. `NoMemory` is want of memory.
#[cycle(values)]
pub(crate) fn argument_rules(
    alloc: Global,
    first: &mut First,
    callee: &Callee,
    arguments: &[Expr],
    w: &Where,
) -> Result<(), NoMemory>
    ensures { OnOk result ((names : Names) → Spells w.now.names.now names → first_of first.new ≡ noted (first_of first.old) (E.args_breaks (where_of names w.now) (C.wanted (callee_of names callee.now)) (located_exprs names arguments.now))) }
{
    for (i, argument) in arguments.iter().enumerate() {
        argument_rule(alloc, first, callee.wanted(i), argument, w)?;
    }
    Ok(())
}

// Notes what an argument breaks, beside what is wanted.
#[cycle(values)]
fn argument_rule(
    alloc: Global,
    first: &mut First,
    want: Option<Wanted>,
    e: &Expr,
    w: &Where,
) -> Result<(), NoMemory>
    ensures { OnOk result ((names : Names) → Spells w.now.names.now names → first_of first.new ≡ noted (first_of first.old) (wanted_breaks (where_of names w.now) (option_map (want_of names) want.entry) (located_expr names e.now))) }
{
    if is_wanted_text(want, e) {
        return Ok(());
    }
    let found = value_rules(alloc, first, e, w)?;
    match want {
        Some(want) => suit_rules(alloc, first, want, e, found, w.scope),
        None => Ok(()),
    }
}

/// The type of a call's result, where a function is called, and notes what the call breaks. `NoMemory` is want of memory.
pub fn call_rules(
    alloc: Global,
    first: &mut First,
    function: &Expr,
    arguments: &[Expr],
    w: &Where,
) -> Result<Option<CType>, NoMemory>
    ensures given { IfOk result (λ of. (names : Names) → Spells w.now.names.now names → optional_of names of ≡ C.result (C.callee (where_of names w.now) (located_expr names function.now) (located_exprs names arguments.now))) }
    ensures noted { OnOk result ((names : Names) → Spells w.now.names.now names → first_of first.new ≡ noted (first_of first.old) (E.call_breaks (where_of names w.now) (located_expr names function.now) (located_exprs names arguments.now))) }
{
    let callee = called_rules(alloc, first, function, arguments, w)?;
    note_count(first, &callee, arguments.len(), first_place(function));
    argument_rules(alloc, first, &callee, arguments, w)?;
    callee.result(alloc)
}
