//! The values of expressions, and where they are, with their types.
ghost use Rattle.std.specs.Prelude.{IfOk};
ghost use Rattle.cpc_tree.specs.Erase.{Names, expr_of};
ghost use Rattle.cpc_store.specs.Seen.{seen, IsLawful};
ghost use Rattle.cpc_tree.specs.Syntax.{EUnary};
ghost use Rattle.cpc_tree.specs.declared.program.UnaryOp.TheVariants.{AddressOf};
ghost use Rattle.cpc_meaning.specs.Eval as E;
ghost use Rattle.cpc_eval_values.specs.Meets.{Meets};
ghost use Rattle.cpc_eval_values.specs.Shown.{shown};
ghost use Rattle.cpc_eval.specs.Around.{context_of, IsToldIn, type_in};
ghost use Rattle.cpc_eval.specs.Numbers.{HasNumbers};
ghost use Rattle.cpc_eval.specs.Results.{given_shown, located_shown};
ghost use Rattle.cpc_eval.specs.Shapes.{types_of, Agrees};
ghost use Rattle.cpc_eval.specs.Spots.{AreLawful, IsLawfulSpot};
ghost use Rattle.cpc_eval.specs.Values.{unary_value, operator_value, branch_value, place_value, test_value};

use crate::around::Around;
use crate::named::{address_of_name, given_name, located_name};
use crate::operands::{at_shape, integer, operate_on, size_of, tested, truth};
use crate::places::{field_spot, pointed, pointer_to, read};
use crate::results::{Given, Located, placed, with_type};
use crate::shapes::{Shape, Typed};
use crate::typing::{
    binary_form, choice_form, index_form, int_value, place_of, pointee_of, typed, unary_form,
    used_if,
};
use cpc_eval_values::{apply, at_type, holds};
use cpc_num::{Fault, Kind, Op};
use cpc_shapes::is_named;
use cpc_store::Value;
use cpc_tree::program::{Expr, UnaryOp};

/// The value of an expression. It takes no memory.
///
/// `Unset`, `Null`, `Freed`, `Bounds`, `Kind`, `Compare`, `Overflow`, `Divide`, `Shift`: the first fault of its operators,
/// its operands from left to right. An expression of no type may give any value or any fault.
pub fn value<'a>(e: &'a Expr, around: &Around<'a>) -> Result<Value, Fault>
    requires { AreLawful around.now.slots.now }
    ensures value { (names : Names) → IsToldIn names around.now → HasNumbers (context_of names around.now).program (expr_of names e.now)
        → Meets (shown names result) (E.value (context_of names around.now) (expr_of names e.now)) }
    ensures lawful { IfOk result (λ v. IsLawful (seen v)) }
{
    match given(e, around) {
        Ok(given) => Ok(given.value),
        Err(fault) => Err(fault),
    }
}

/// The value of an expression, and its type. It takes no memory.
///
/// The faults are those of `value`.
#[cycle(giving)]
pub fn given<'a>(e: &'a Expr, around: &Around<'a>) -> Result<Given<'a>, Fault>
    requires { AreLawful around.now.slots.now }
    ensures value { (names : Names) → IsToldIn names around.now → HasNumbers (context_of names around.now).program (expr_of names e.now)
        → Meets (given_shown names result) (E.value (context_of names around.now) (expr_of names e.now)) }
    ensures typed { (names : Names) → IsToldIn names around.now → IfOk result (λ g. Agrees (types_of names g.typed) (type_in (context_of names around.now) (expr_of names e.now))) }
    ensures lawful { IfOk result (λ g. IsLawful (seen g.value)) }
{
    match e {
        Expr::Name(word) => given_name(word.name, around),
        Expr::Integer { kind, value, .. } => Ok(Given {
            value: integer(*kind, *value),
            typed: int_value(*kind),
        }),
        Expr::Character { value, .. } => Ok(Given {
            value: integer(Kind::Int, *value),
            typed: int_value(Kind::Int),
        }),
        Expr::SizeOf { target, .. } => {
            with_type(size_of(around.index, target), int_value(Kind::ULong))
        }
        Expr::Text { .. } => Err(Fault::Kind),
        Expr::CallIn { .. } => Err(Fault::Kind),
        Expr::Unary { .. } => given_by_sign(e, around),
        Expr::Binary { .. } => given_by_operator(e, around),
        Expr::Cast { .. } => given_by_operator(e, around),
        Expr::And { .. } => given_by_branches(e, around),
        Expr::Or { .. } => given_by_branches(e, around),
        Expr::Choose { .. } => given_by_branches(e, around),
        Expr::Index { .. } => given_there(e, around),
        Expr::Member { .. } => given_there(e, around),
        Expr::Arrow { .. } => given_there(e, around),
    }
}

// The value of an operator on one operand.
#[cycle(giving)]
fn given_by_sign<'a>(e: &'a Expr, around: &Around<'a>) -> Result<Given<'a>, Fault>
    requires { AreLawful around.now.slots.now }
    ensures value { (names : Names) → IsToldIn names around.now → HasNumbers (context_of names around.now).program (expr_of names e.now)
        → Meets (given_shown names result) (unary_value (context_of names around.now) (expr_of names e.now)) }
    ensures typed { (names : Names) → IsToldIn names around.now → IfOk result (λ g. Agrees (types_of names g.typed) (type_in (context_of names around.now) (expr_of names e.now))) }
    ensures lawful { IfOk result (λ g. IsLawful (seen g.value)) }
{
    match e {
        Expr::Unary { op, operand, .. } => match op {
            UnaryOp::Dereference => given_there(e, around),
            UnaryOp::AddressOf => address(operand, around),
            _ => {
                let inner = given(operand, around)?;
                let of = unary_form(*op, is_named(operand), inner.typed);
                with_type(apply(*op, inner.value), of)
            }
        },
        _ => Err(Fault::Kind),
    }
}

// The address of a place, or the code of a function.
#[cycle(giving)]
fn address<'a>(e: &'a Expr, around: &Around<'a>) -> Result<Given<'a>, Fault>
    requires { AreLawful around.now.slots.now }
    ensures value { (names : Names) → IsToldIn names around.now → HasNumbers (context_of names around.now).program (expr_of names e.now)
        → Meets (given_shown names result) (E.value (context_of names around.now) (EUnary AddressOf (expr_of names e.now))) }
    ensures typed { (names : Names) → IsToldIn names around.now → IfOk result (λ g. Agrees (types_of names g.typed) (type_in (context_of names around.now) (EUnary AddressOf (expr_of names e.now)))) }
    ensures lawful { IfOk result (λ g. IsLawful (seen g.value)) }
{
    match e {
        Expr::Name(word) => address_of_name(word.name, around),
        _ => {
            let there = located(e, around)?;
            let of = unary_form(UnaryOp::AddressOf, is_named(e), there.typed);
            with_type(pointer_to(there.spot), of)
        }
    }
}

// The value of an operator on two operands, or of a cast.
#[cycle(giving)]
fn given_by_operator<'a>(e: &'a Expr, around: &Around<'a>) -> Result<Given<'a>, Fault>
    requires { AreLawful around.now.slots.now }
    ensures value { (names : Names) → IsToldIn names around.now → HasNumbers (context_of names around.now).program (expr_of names e.now)
        → Meets (given_shown names result) (operator_value (context_of names around.now) (expr_of names e.now)) }
    ensures typed { (names : Names) → IsToldIn names around.now → IfOk result (λ g. Agrees (types_of names g.typed) (type_in (context_of names around.now) (expr_of names e.now))) }
    ensures lawful { IfOk result (λ g. IsLawful (seen g.value)) }
{
    match e {
        Expr::Binary {
            op,
            left,
            right,
            ..
        } => {
            let first = given(left, around)?;
            let second = given(right, around)?;
            let of = binary_form(*op, first.typed, second.typed);
            with_type(operate_on(*op, first, second, around), of)
        }
        Expr::Cast {
            target,
            operand,
            ..
        } => {
            let inner = given(operand, around)?;
            let of = Some(Typed::Value(Shape::Given(target)));
            with_type(at_type(target, inner.value), of)
        }
        _ => Err(Fault::Kind),
    }
}

// The value of an expression that evaluates one of two operands by a test.
#[cycle(giving)]
fn given_by_branches<'a>(e: &'a Expr, around: &Around<'a>) -> Result<Given<'a>, Fault>
    requires { AreLawful around.now.slots.now }
    ensures value { (names : Names) → IsToldIn names around.now → HasNumbers (context_of names around.now).program (expr_of names e.now)
        → Meets (given_shown names result) (branch_value (context_of names around.now) (expr_of names e.now)) }
    ensures typed { (names : Names) → IsToldIn names around.now → IfOk result (λ g. Agrees (types_of names g.typed) (type_in (context_of names around.now) (expr_of names e.now))) }
    ensures lawful { IfOk result (λ g. IsLawful (seen g.value)) }
{
    match e {
        Expr::And { left, right, .. } => {
            if test(left, around)? {
                let second = given(right, around)?;
                tested(second.value)
            } else {
                Ok(truth(false))
            }
        }
        Expr::Or { left, right, .. } => {
            if test(left, around)? {
                Ok(truth(true))
            } else {
                let second = given(right, around)?;
                tested(second.value)
            }
        }
        // The arm that is not evaluated counts for the type too.
        Expr::Choose {
            test: t,
            yes,
            no,
            ..
        } => {
            if test(t, around)? {
                let arm = given(yes, around)?;
                let of = choice_form(arm.typed, typed(no, around));
                with_type(at_shape(used_if(of), arm.value), of)
            } else {
                let arm = given(no, around)?;
                let of = choice_form(typed(yes, around), arm.typed);
                with_type(at_shape(used_if(of), arm.value), of)
            }
        }
        _ => Err(Fault::Kind),
    }
}

// Whether a test holds.
#[cycle(giving)]
fn test<'a>(e: &'a Expr, around: &Around<'a>) -> Result<bool, Fault>
    requires { AreLawful around.now.slots.now }
    ensures { (names : Names) → IsToldIn names around.now → HasNumbers (context_of names around.now).program (expr_of names e.now)
        → Meets result (test_value (context_of names around.now) (expr_of names e.now)) }
{
    let given = given(e, around)?;
    holds(given.value)
}

// The value of a place that is no name.
#[cycle(giving)]
fn given_there<'a>(e: &'a Expr, around: &Around<'a>) -> Result<Given<'a>, Fault>
    requires { AreLawful around.now.slots.now }
    ensures value { (names : Names) → IsToldIn names around.now → HasNumbers (context_of names around.now).program (expr_of names e.now)
        → Meets (given_shown names result) (place_value (context_of names around.now) (expr_of names e.now)) }
    ensures typed { (names : Names) → IsToldIn names around.now → IfOk result (λ g. Agrees (types_of names g.typed) (type_in (context_of names around.now) (expr_of names e.now))) }
    ensures lawful { IfOk result (λ g. IsLawful (seen g.value)) }
{
    let there = located(e, around)?;
    let value = read(
        around.slots,
        around.store,
        place_of(there.typed),
        there.spot,
    );
    with_type(value, there.typed)
}

/// Where a place is, and its type. It takes no memory.
///
/// The faults are those of `value`.
#[cycle(giving)]
pub fn located<'a>(e: &'a Expr, around: &Around<'a>) -> Result<Located<'a>, Fault>
    requires { AreLawful around.now.slots.now }
    ensures value { (names : Names) → IsToldIn names around.now → HasNumbers (context_of names around.now).program (expr_of names e.now)
        → Meets (located_shown result) (E.place (context_of names around.now) (expr_of names e.now)) }
    ensures typed { (names : Names) → IsToldIn names around.now → IfOk result (λ l. Agrees (types_of names l.typed) (type_in (context_of names around.now) (expr_of names e.now))) }
    ensures lawful { IfOk result (λ l. IsLawfulSpot l.spot) }
{
    match e {
        Expr::Name(word) => located_name(word.name, around),
        Expr::Unary { op, operand, .. } => match op {
            UnaryOp::Dereference => {
                let inner = given(operand, around)?;
                let of = unary_form(*op, is_named(operand), inner.typed);
                placed(pointed(inner.value), of)
            }
            _ => Err(Fault::Kind),
        },
        Expr::Index { operand, index, .. } => {
            let first = given(operand, around)?;
            let second = given(index, around)?;
            let sum = operate_on(Op::Add, first, second, around)?;
            placed(pointed(sum), index_form(first.typed, second.typed))
        }
        Expr::Member { operand, field, .. } => {
            let inner = located(operand, around)?;
            let start = pointer_to(inner.spot)?;
            field_spot(
                around.store,
                around.index,
                place_of(inner.typed),
                field.name,
                start,
            )
        }
        Expr::Arrow { operand, field, .. } => {
            let inner = given(operand, around)?;
            let of = pointee_of(used_if(inner.typed));
            field_spot(around.store, around.index, of, field.name, inner.value)
        }
        _ => Err(Fault::Kind),
    }
}
