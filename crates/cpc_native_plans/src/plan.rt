//! What is to be done where a frame stands, the arguments of a call not evaluated yet. Nothing is changed and no memory is taken.
ghost use Rattle.std.specs.Prelude.{◌≡◌, true, false, IfOk, Some, option_map};
ghost use Rattle.cpc_tree.specs.Erase.{Names as Texts, type_of, stmt_of, expr_of, exprs_of};
ghost use Rattle.cpc_tree.specs.Syntax as Y;
ghost use Rattle.cpc_tree.specs.Points as P;
ghost use Rattle.cpc_check_rules.specs.Apart.{Spells};
ghost use Rattle.cpc_store.specs.Seen.{seen, IsLawful};
ghost use Rattle.cpc_meaning.specs.Act as M;
ghost use Rattle.cpc_eval_values.specs.Shown.{value_of};
ghost use Rattle.cpc_eval_index.specs.Indexed.{items_of};
ghost use Rattle.cpc_native_points.specs.Finds.{found_of};
ghost use Rattle.cpc_eval.specs.Around.{context_of, IsToldIn};
ghost use Rattle.cpc_eval.specs.Numbers.{HasNumbers, MaybeNumbers, AllNumbers, StmtNumbers, FoundNumbers};
ghost use Rattle.cpc_eval.specs.Spots.{AreLawful};
ghost use Rattle.cpc_native_builtins.specs.Served.{calls_served, is_served_stmt, is_served_found, is_served_program};
ghost use Rattle.cpc_native_plans.specs.Calls.{calls_known, calls_moded, calls_unmeant};
ghost use Rattle.cpc_native_plans.specs.Parts.{is_call, is_call_found};
ghost use Rattle.cpc_native_plans.specs.Parts.{goes_on};
ghost use Rattle.cpc_native_plans.specs.Plans.{Lays, IsLawfulPlan, IsServedPlan, is_plain, is_call_plan};

use crate::places::{aimed, aimed_at, returned, right_value, test_held};
use cpc_base::{Name, Names};
use cpc_check_rules::primitive_at;
use cpc_eval::{Around, Shape, Spot, given, used_if, value};
use cpc_eval_index::Meant;
use cpc_native_builtins::Call;
use cpc_native_points::Found;
use cpc_num::{Fault, Op};
use cpc_store::Value;
use cpc_tree::program::{CType, Expr, Function, Mode, Operand, Statement, Word};

/// What is to be done. Arguments are evaluated afterwards: they are kept where a step is made, and passed over where it
/// is told ahead what a step does to the live cells.
#[derive(Clone, Copy)]
pub enum Plan<'a> {
    /// Control goes on, as a test holds or not.
    Passes(bool),
    /// A value is written to a place, and control goes on.
    Writes(Spot, Value),
    /// The function is entered that a value of this type is the code of.
    Calls(Value, Shape<'a>, &'a [Expr]),
    /// The function of this name is entered.
    Enters(Name, &'a Function, &'a [Expr]),
    /// The function is left.
    Leaves(Value),
    /// The machine is asked.
    Asks(Call, &'a [Expr]),
}

// An assignment.
fn assigns<'a>(
    target: &'a Expr,
    op: Option<Op>,
    right: &'a Expr,
    around: &Around<'a>,
) -> Result<Plan<'a>, Fault>
    requires { AreLawful around.now.slots.now }
    ensures value { (names : Texts) → IsToldIn names around.now → HasNumbers (items_of names around.now.index.now) (expr_of names target.now) → HasNumbers (items_of names around.now.index.now) (expr_of names right.now)
        → Lays names (context_of names around.now) result (M.assigns (context_of names around.now) (expr_of names target.now) (M.right_side op (expr_of names target.now) (expr_of names right.now))) }
    ensures lawful { IfOk result (λ p. IsLawfulPlan p) }
    ensures served { IfOk result (λ p. IsServedPlan p) }
    ensures call { IfOk result (λ p. is_call_plan p ≡ false) }
{
    let given = right_value(op, target, right, around)?;
    let (spot, written) = aimed(target, given, around)?;
    Ok(Plan::Writes(spot, written))
}

// A declaration: what a local starts with is assigned to it.
fn declares<'a>(
    word: Word,
    start: &'a Option<Operand>,
    around: &Around<'a>,
) -> Result<Plan<'a>, Fault>
    requires { AreLawful around.now.slots.now }
    ensures value { (names : Texts) (result_type : Y.Ty) (t : Y.Ty) → IsToldIn names around.now → MaybeNumbers (items_of names around.now.index.now) (option_map (expr_of names) start.now)
        → Lays names (context_of names around.now) result (M.simple_act (context_of names around.now) result_type (Y.Declare (names word.name) t (option_map (expr_of names) start.now))) }
    ensures lawful { IfOk result (λ p. IsLawfulPlan p) }
    ensures served { IfOk result (λ p. IsServedPlan p) }
    ensures call { IfOk result (λ p. is_call_plan p ≡ false) }
{
    match start {
        Some(start) => {
            let given = value(start.expr(), around)?;
            let (spot, written) = aimed_at(word.name, given, around)?;
            Ok(Plan::Writes(spot, written))
        }
        None => Ok(Plan::Passes(true)),
    }
}

// A call of a value.
fn calls_value<'a>(
    function: &'a Expr,
    arguments: &'a [Expr],
    around: &Around<'a>,
) -> Result<Plan<'a>, Fault>
    requires { AreLawful around.now.slots.now }
    ensures value { (names : Texts) → IsToldIn names around.now → HasNumbers (items_of names around.now.index.now) (expr_of names function.now) → AllNumbers (items_of names around.now.index.now) (exprs_of names arguments.now)
        → Lays names (context_of names around.now) result (M.calls_value (context_of names around.now) (expr_of names function.now) (exprs_of names arguments.now)) }
    ensures lawful { IfOk result (λ p. IsLawfulPlan p) }
    ensures served { IfOk result (λ p. IsServedPlan p) }
{
    let called = given(function, around)?;
    match used_if(called.typed) {
        Some(shape) => Ok(Plan::Calls(called.value, shape, arguments)),
        None => Err(Fault::Kind),
    }
}

// A call of a function of the program.
fn calls_function<'a>(
    name: Name,
    function: &'a Expr,
    arguments: &'a [Expr],
    around: &Around<'a>,
) -> Result<Plan<'a>, Fault>
    requires { AreLawful around.now.slots.now }
    ensures value { (names : Texts) → IsToldIn names around.now → expr_of names function.now ≡ Y.ENamed (names name) → AllNumbers (items_of names around.now.index.now) (exprs_of names arguments.now)
        → Lays names (context_of names around.now) result (calls_known (context_of names around.now) (names name) (exprs_of names arguments.now)) }
    ensures lawful { IfOk result (λ p. IsLawfulPlan p) }
    ensures served { IfOk result (λ p. IsServedPlan p) }
{
    match around.index.function(name) {
        Some(known) => Ok(Plan::Enters(name, known, arguments)),
        None => calls_value(function, arguments, around),
    }
}

// A call of a name that stands for a function in this mode.
fn calls_item<'a>(
    mode: Mode,
    name: Name,
    function: &'a Expr,
    arguments: &'a [Expr],
    around: &Around<'a>,
) -> Result<Plan<'a>, Fault>
    requires { AreLawful around.now.slots.now }
    ensures value { (names : Texts) → IsToldIn names around.now → expr_of names function.now ≡ Y.ENamed (names name) → AllNumbers (items_of names around.now.index.now) (exprs_of names arguments.now)
        → Lays names (context_of names around.now) result (calls_moded (context_of names around.now) (names name) (exprs_of names arguments.now) mode) }
    ensures lawful { IfOk result (λ p. IsLawfulPlan p) }
    ensures served { IfOk result (λ p. IsServedPlan p) }
{
    match mode {
        Mode::Extern => Ok(Plan::Asks(Call::Host(name), arguments)),
        _ => calls_function(name, function, arguments, around),
    }
}

// A call of a name that stands for nothing else: of a primitive.
fn calls_primitive<'a>(
    name: Name,
    function: &'a Expr,
    arguments: &'a [Expr],
    around: &Around<'a>,
    texts: &Names,
) -> Result<Plan<'a>, Fault>
    requires { AreLawful around.now.slots.now }
    ensures value { (names : Texts) → IsToldIn names around.now → Spells texts.now names → expr_of names function.now ≡ Y.ENamed (names name) → calls_served (Y.ENamed (names name)) ≡ true → AllNumbers (items_of names around.now.index.now) (exprs_of names arguments.now)
        → Lays names (context_of names around.now) result (calls_unmeant (context_of names around.now) (names name) (exprs_of names arguments.now)) }
    ensures lawful { IfOk result (λ p. IsLawfulPlan p) }
    ensures served { IfOk result (λ p. (names : Texts) → Spells texts.now names → calls_served (Y.ENamed (names name)) ≡ true → IsServedPlan p) }
{
    match primitive_at(texts, name) {
        Some(builtin) => Ok(Plan::Asks(Call::Builtin(builtin), arguments)),
        None => calls_value(function, arguments, around),
    }
}

// A call of a name.
fn calls_named<'a>(
    name: Name,
    function: &'a Expr,
    arguments: &'a [Expr],
    around: &Around<'a>,
    texts: &Names,
) -> Result<Plan<'a>, Fault>
    requires { AreLawful around.now.slots.now }
    ensures value { (names : Texts) → IsToldIn names around.now → Spells texts.now names → is_served_program (items_of names around.now.index.now) ≡ true → expr_of names function.now ≡ Y.ENamed (names name) → calls_served (Y.ENamed (names name)) ≡ true → AllNumbers (items_of names around.now.index.now) (exprs_of names arguments.now)
        → Lays names (context_of names around.now) result (M.calls_expr (context_of names around.now) (Y.ENamed (names name)) (exprs_of names arguments.now)) }
    ensures lawful { IfOk result (λ p. IsLawfulPlan p) }
    ensures served { IfOk result (λ p. (names : Texts) → Spells texts.now names → calls_served (Y.ENamed (names name)) ≡ true → IsServedPlan p) }
{
    match around.meant(name) {
        Some(Meant::Local { .. }) => calls_value(function, arguments, around),
        Some(Meant::Global { .. }) => calls_value(function, arguments, around),
        Some(Meant::Function { mode, .. }) => {
            calls_item(mode, name, function, arguments, around)
        }
        None => calls_primitive(name, function, arguments, around, texts),
    }
}

// A call.
fn calls<'a>(
    function: &'a Expr,
    arguments: &'a [Expr],
    around: &Around<'a>,
    texts: &Names,
) -> Result<Plan<'a>, Fault>
    requires { AreLawful around.now.slots.now }
    ensures value { (names : Texts) → IsToldIn names around.now → Spells texts.now names → is_served_program (items_of names around.now.index.now) ≡ true → calls_served (expr_of names function.now) ≡ true
        → HasNumbers (items_of names around.now.index.now) (expr_of names function.now) → AllNumbers (items_of names around.now.index.now) (exprs_of names arguments.now)
        → Lays names (context_of names around.now) result (M.calls_expr (context_of names around.now) (expr_of names function.now) (exprs_of names arguments.now)) }
    ensures lawful { IfOk result (λ p. IsLawfulPlan p) }
    ensures served { IfOk result (λ p. (names : Texts) → Spells texts.now names → calls_served (expr_of names function.now) ≡ true → IsServedPlan p) }
{
    match function {
        Expr::Name(word) => calls_named(word.name, function, arguments, around, texts),
        _ => calls_value(function, arguments, around),
    }
}

// A return.
fn returns<'a>(
    of: &CType,
    given: &'a Option<Operand>,
    around: &Around<'a>,
) -> Result<Plan<'a>, Fault>
    requires { AreLawful around.now.slots.now }
    ensures value { (names : Texts) → IsToldIn names around.now → MaybeNumbers (items_of names around.now.index.now) (option_map (expr_of names) given.now)
        → Lays names (context_of names around.now) result (M.returns (context_of names around.now) (type_of names of.now) (option_map (expr_of names) given.now)) }
    ensures lawful { IfOk result (λ p. IsLawfulPlan p) }
    ensures served { IfOk result (λ p. IsServedPlan p) }
    ensures call { IfOk result (λ p. is_call_plan p ≡ false) }
{
    let value = returned(of, given, around)?;
    Ok(Plan::Leaves(value))
}

// A simple statement.
#[tactic(auto, using(crate::proofs::Stopping::never_called))]
fn simple<'a>(
    of: &CType,
    statement: &'a Statement,
    around: &Around<'a>,
    texts: &Names,
) -> Result<Plan<'a>, Fault>
    requires { AreLawful around.now.slots.now }
    ensures value { (names : Texts) → IsToldIn names around.now → Spells texts.now names → is_served_program (items_of names around.now.index.now) ≡ true → is_served_stmt (stmt_of names statement.now) ≡ true → StmtNumbers (items_of names around.now.index.now) (stmt_of names statement.now)
        → Lays names (context_of names around.now) result (M.simple_act (context_of names around.now) (type_of names of.now) (stmt_of names statement.now)) }
    ensures lawful { IfOk result (λ p. IsLawfulPlan p) }
    ensures served { IfOk result (λ p. (names : Texts) → Spells texts.now names → is_served_stmt (stmt_of names statement.now) ≡ true → IsServedPlan p) }
    ensures call { IfOk result (λ p. (names : Texts) → is_call_plan p ≡ true → is_call (stmt_of names statement.now) ≡ true) }
{
    match statement {
        Statement::Declare { word, start, .. } => declares(*word, start, around),
        Statement::Assign {
            target,
            op,
            value,
            ..
        } => assigns(target.expr(), *op, value.expr(), around),
        Statement::Call {
            function,
            arguments,
            ..
        } => calls(function.expr(), arguments, around, texts),
        Statement::Detach { .. } => Err(Fault::Kind),
        Statement::Spawn { .. } => Err(Fault::Kind),
        Statement::Return { value, .. } => returns(of, value, around),
        _ => Ok(Plan::Passes(true)),
    }
}

// A test.
fn tests<'a>(test: Option<&'a Expr>, around: &Around<'a>) -> Result<Plan<'a>, Fault>
    requires { AreLawful around.now.slots.now }
    ensures value { (names : Texts) → IsToldIn names around.now → MaybeNumbers (items_of names around.now.index.now) (option_map (λ e. expr_of names e.now) test.entry)
        → Lays names (context_of names around.now) result (M.test_act (context_of names around.now) (option_map (λ e. expr_of names e.now) test.entry)) }
    ensures lawful { IfOk result (λ p. IsLawfulPlan p) }
    ensures served { IfOk result (λ p. IsServedPlan p) }
    ensures call { IfOk result (λ p. is_call_plan p ≡ false) }
{
    let holds = test_held(test, around)?;
    Ok(Plan::Passes(holds))
}

/// What is to be done at what stands at a point, in a function with this result.
///
/// The faults are those of `cpc_eval`, and `Unset` of a test.
#[tactic(auto, using(crate::proofs::Stopping::never_called))]
pub fn found<'a>(
    of: &CType,
    there: Found<'a>,
    around: &Around<'a>,
    texts: &Names,
) -> Result<Plan<'a>, Fault>
    requires { AreLawful around.now.slots.now }
    ensures value { (names : Texts) → IsToldIn names around.now → Spells texts.now names → is_served_program (items_of names around.now.index.now) ≡ true → is_served_found (found_of names there.entry) ≡ true → FoundNumbers (items_of names around.now.index.now) (found_of names there.entry)
        → Lays names (context_of names around.now) result (M.found_act (context_of names around.now) (type_of names of.now) (found_of names there.entry)) }
    ensures lawful { IfOk result (λ p. IsLawfulPlan p) }
    ensures served { IfOk result (λ p. (names : Texts) → Spells texts.now names → is_served_found (found_of names there.entry) ≡ true → IsServedPlan p) }
    ensures call { IfOk result (λ p. (names : Texts) → is_call_plan p ≡ true → is_call_found (found_of names there.entry) ≡ true) }
{
    match there {
        Found::Simple(statement) => simple(of, statement, around, texts),
        Found::Empty => Ok(Plan::Passes(true)),
        Found::Test(test) => tests(test, around),
        Found::Nothing => Err(Fault::Kind),
    }
}

// A value for a place that may be absent.
fn delivers<'a>(
    target: &'a Option<Operand>,
    given: Value,
    around: &Around<'a>,
) -> Result<Plan<'a>, Fault>
    requires slots { AreLawful around.now.slots.now }
    requires given { IsLawful (seen given) }
    ensures value { (names : Texts) → IsToldIn names around.now → MaybeNumbers (items_of names around.now.index.now) (option_map (expr_of names) target.now)
        → Lays names (context_of names around.now) result (goes_on (M.deliver (context_of names around.now) (option_map (expr_of names) target.now) (value_of names given))) }
    ensures lawful { IfOk result (λ p. IsLawfulPlan p) }
    ensures served { IfOk result (λ p. IsServedPlan p) }
    ensures plain { IfOk result (λ p. is_plain p ≡ true) }
{
    match target {
        Some(target) => {
            let (spot, written) = aimed(target.expr(), given, around)?;
            Ok(Plan::Writes(spot, written))
        }
        None => Ok(Plan::Passes(true)),
    }
}

// A value for the place of a statement.
fn delivers_to<'a>(
    statement: &'a Statement,
    given: Value,
    around: &Around<'a>,
) -> Result<Plan<'a>, Fault>
    requires slots { AreLawful around.now.slots.now }
    requires given { IsLawful (seen given) }
    ensures value { (names : Texts) → IsToldIn names around.now → StmtNumbers (items_of names around.now.index.now) (stmt_of names statement.now)
        → Lays names (context_of names around.now) result (M.arrives (context_of names around.now) (P.Simple (stmt_of names statement.now)) (Some (value_of names given))) }
    ensures lawful { IfOk result (λ p. IsLawfulPlan p) }
    ensures served { IfOk result (λ p. IsServedPlan p) }
    ensures plain { IfOk result (λ p. is_plain p ≡ true) }
{
    match statement {
        Statement::Call { target, .. } => delivers(target, given, around),
        Statement::Detach { target, .. } => delivers(target, given, around),
        Statement::Spawn { .. } => Ok(Plan::Passes(true)),
        _ => Err(Fault::Kind),
    }
}

/// What is to be done with a value that arrives at what stands at a point.
///
/// The faults are those of `cpc_eval`.
pub fn arrives<'a>(there: Found<'a>, given: Value, around: &Around<'a>) -> Result<Plan<'a>, Fault>
    requires slots { AreLawful around.now.slots.now }
    requires given { IsLawful (seen given) }
    ensures value { (names : Texts) → IsToldIn names around.now → FoundNumbers (items_of names around.now.index.now) (found_of names there.entry)
        → Lays names (context_of names around.now) result (M.arrives (context_of names around.now) (found_of names there.entry) (Some (value_of names given))) }
    ensures lawful { IfOk result (λ p. IsLawfulPlan p) }
    ensures served { IfOk result (λ p. IsServedPlan p) }
    ensures plain { IfOk result (λ p. is_plain p ≡ true) }
{
    match there {
        Found::Simple(statement) => delivers_to(statement, given, around),
        _ => Err(Fault::Kind),
    }
}
