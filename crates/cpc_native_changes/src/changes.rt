//! What a step of a frame does to the live cells, told before it is made. Nothing is changed and no memory is taken.
ghost use Rattle.std.specs.Prelude.{◌≡◌, true, List, Option, Some, IfSome, option_map};
ghost use Rattle.cpc_tree.specs.Erase.{Names as Texts, type_of, stmt_of, exprs_of, function_of};
ghost use Rattle.cpc_tree.specs.Points as P;
ghost use Rattle.cpc_tree.specs.Typing as T;
ghost use Rattle.cpc_check_rules.specs.Apart.{AreApart, Spells};
ghost use Rattle.cpc_store.specs.Store as S;
ghost use Rattle.cpc_meaning.specs.Act as M;
ghost use Rattle.cpc_meaning.specs.Eval as E;
ghost use Rattle.cpc_eval_values.specs.Shown.{value_of, store_of};
ghost use Rattle.cpc_eval_index.specs.Indexed.{items_of, IsOwn};
ghost use Rattle.cpc_native_points.specs.Finds.{found_of};
ghost use Rattle.cpc_eval.specs.Around.{context_of, IsToldIn};
ghost use Rattle.cpc_eval.specs.Numbers.{AllNumbers, StmtNumbers, FoundNumbers};
ghost use Rattle.cpc_eval.specs.Shapes.{shape_of};
ghost use Rattle.cpc_eval.specs.Spots.{AreLawful};
ghost use Rattle.cpc_native_builtins.specs.Served.{is_served_stmt, is_served_found, is_served_program};
ghost use Rattle.cpc_native_frames.specs.Frames.{IsWellFrame, RiseFrom};
ghost use Rattle.cpc_native_stood.specs.Stood.{stood_of, context_in, IsTexts, IsServing};
ghost use Rattle.cpc_native_plans.specs.Calls.{calls_code, entering};
ghost use Rattle.cpc_native_plans.specs.Plans.{planned, asks_for, IsSound};
ghost use Rattle.cpc_native_frames.specs.Made.{slots_of};
ghost use Rattle.cpc_native_changes.specs.Foreseen.{Foresees, EntersOwnly, Tells, told_of};

use crate::looked::{code_entered, is_passed};
use crate::requested::requested;
use cpc_base::{Name, Names};
use cpc_eval::{Around, Shape};
use cpc_eval_index::Index;
use cpc_native_builtins::Call;
use cpc_native_frames::{Frame, slots_cells};
use cpc_native_plans::{Plan, Row};
use cpc_native_points::{Found, Phase, standing};
use cpc_store::{Store, Value};
use cpc_tree::program::{CType, Expr, Function, Statement};

/// What a step of a frame does to the live cells.
#[derive(Clone, Copy)]
pub enum Change<'p> {
    /// As many stay live; so too where the step faults.
    Stays,
    /// A function is entered, whose variables are made.
    Enters(&'p Function),
    /// The function is left, and its variables are dropped.
    Leaves,
    /// A block of so many cells is made; `u64::MAX` stands for every greater number.
    Makes(u64),
    /// A block of so many cells is freed.
    Frees(u64),
}

// The function of a name.
fn function_at<'p>(index: &Index<'p>, name: Name) -> Option<&'p Function>
    ensures value { (names : Texts) → AreApart names → option_map (λ f. function_of names f.now) result ≡ T.function_named (items_of names index.now) (names name) }
    ensures own { IfSome result (λ function. IsOwn index.now function.now) }
{
    index.function(name)
}

// The function of a name is entered.
fn entered<'a>(name: Name, around: &Around<'a>) -> Change<'a>
    ensures value { (names : Texts) (stood : M.Stood) (arguments : List S.Value) → IsToldIn names around.now
        → Foresees names (context_of names around.now) stood result (entering (context_of names around.now) (names name, arguments)) }
    ensures own { EntersOwnly around.now.index.now result }
{
    match function_at(around.index, name) {
        Some(function) => Change::Enters(function),
        None => Change::Stays,
    }
}

// The function that a value of this type is the code of is called.
fn calls<'a>(
    called: Value,
    shape: Shape<'a>,
    arguments: &'a [Expr],
    around: &Around<'a>,
) -> Change<'a>
    requires { AreLawful around.now.slots.now }
    ensures value { (names : Texts) (stood : M.Stood) → IsToldIn names around.now → AllNumbers (items_of names around.now.index.now) (exprs_of names arguments.now)
        → Foresees names (context_of names around.now) stood result (calls_code (context_of names around.now) (shape_of names shape.entry) (value_of names called) (exprs_of names arguments.now)) }
    ensures own { EntersOwnly around.now.index.now result }
{
    match code_entered(called, shape, arguments, around) {
        Some(name) => entered(name, around),
        None => Change::Stays,
    }
}

// The function of a name is called.
fn enters<'a>(
    name: Name,
    function: &'a Function,
    arguments: &'a [Expr],
    around: &Around<'a>,
) -> Change<'a>
    requires { AreLawful around.now.slots.now }
    ensures value { (names : Texts) (stood : M.Stood) → IsToldIn names around.now → Some (function_of names function.now) ≡ T.function_named (items_of names around.now.index.now) (names name) → AllNumbers (items_of names around.now.index.now) (exprs_of names arguments.now)
        → Foresees names (context_of names around.now) stood result (M.calls (context_of names around.now) (function_of names function.now) (exprs_of names arguments.now)) }
    ensures own { EntersOwnly around.now.index.now result }
{
    if is_passed(Row::Parameters(&function.parameters), arguments, around) {
        entered(name, around)
    } else {
        Change::Stays
    }
}

// A call is left.
fn left<'a>(around: &Around<'a>) -> Change<'a>
    requires { RiseFrom 0 around.now.slots.now }
    ensures value { (names : Texts) (c : E.Context) (stood : M.Stood) (v : S.Value) → c.slots ≡ slots_of names around.now.slots.now → c.store ≡ store_of names around.now.store.now → Foresees names c stood result (M.leaves c v) }
    ensures own { EntersOwnly around.now.index.now result }
{
    match slots_cells(around.slots, around.store) {
        Some(_) => Change::Leaves,
        None => Change::Stays,
    }
}

// The machine is asked, by what stands there. A function of the host changes nothing.
fn asks<'a>(call: Call, there: Found<'a>, arguments: &'a [Expr], around: &Around<'a>) -> Change<'a>
    requires { AreLawful around.now.slots.now }
    ensures value { (names : Texts) → IsToldIn names around.now → FoundNumbers (items_of names around.now.index.now) (found_of names there.entry) → AllNumbers (items_of names around.now.index.now) (exprs_of names arguments.now)
        → Foresees names (context_of names around.now) (M.AtStatement (found_of names there.entry)) result (asks_for names (context_of names around.now) call (exprs_of names arguments.now)) }
    ensures own { EntersOwnly around.now.index.now result }
{
    match call {
        Call::Builtin(builtin) => requested(builtin, there, arguments, around),
        Call::Host(_) => Change::Stays,
    }
}

// What a plan for what stands there comes to.
fn comes_to<'a>(plan: Plan<'a>, there: Found<'a>, around: &Around<'a>) -> Change<'a>
    requires slots { AreLawful around.now.slots.now }
    requires rise { RiseFrom 0 around.now.slots.now }
    ensures value { (names : Texts) → IsToldIn names around.now → FoundNumbers (items_of names around.now.index.now) (found_of names there.entry) → IsSound names (context_of names around.now) plan.entry
        → Foresees names (context_of names around.now) (M.AtStatement (found_of names there.entry)) result (planned names (context_of names around.now) plan.entry) }
    ensures own { EntersOwnly around.now.index.now result }
{
    match plan {
        Plan::Passes(_) => Change::Stays,
        Plan::Writes(_, _) => Change::Stays,
        Plan::Calls(called, shape, arguments) => calls(called, shape, arguments, around),
        Plan::Enters(name, function, arguments) => enters(name, function, arguments, around),
        Plan::Leaves(_) => left(around),
        Plan::Asks(call, arguments) => asks(call, there, arguments, around),
    }
}

// What stands at a point, in a function with this result, by the plan of a step.
fn by_plan<'a>(of: &CType, there: Found<'a>, around: &Around<'a>, texts: &Names) -> Change<'a>
    requires slots { AreLawful around.now.slots.now }
    requires rise { RiseFrom 0 around.now.slots.now }
    ensures value { (names : Texts) → IsToldIn names around.now → Spells texts.now names → is_served_program (items_of names around.now.index.now) ≡ true → is_served_found (found_of names there.entry) ≡ true → FoundNumbers (items_of names around.now.index.now) (found_of names there.entry)
        → Foresees names (context_of names around.now) (M.AtStatement (found_of names there.entry)) result (M.found_act (context_of names around.now) (type_of names of.now) (found_of names there.entry)) }
    ensures own { EntersOwnly around.now.index.now result }
{
    match cpc_native_plans::found(of, there, around, texts) {
        Ok(plan) => comes_to(plan, there, around),
        Err(_) => Change::Stays,
    }
}

// A simple statement. One that neither calls nor returns leaves as many cells, whatever its expressions are, which are not looked at.
fn simple<'a>(
    of: &CType,
    statement: &'a Statement,
    around: &Around<'a>,
    texts: &Names,
) -> Change<'a>
    requires slots { AreLawful around.now.slots.now }
    requires rise { RiseFrom 0 around.now.slots.now }
    ensures value { (names : Texts) → IsToldIn names around.now → Spells texts.now names → is_served_program (items_of names around.now.index.now) ≡ true → is_served_stmt (stmt_of names statement.now) ≡ true → StmtNumbers (items_of names around.now.index.now) (stmt_of names statement.now)
        → Foresees names (context_of names around.now) (M.AtStatement (P.Simple (stmt_of names statement.now))) result (M.simple_act (context_of names around.now) (type_of names of.now) (stmt_of names statement.now)) }
    ensures own { EntersOwnly around.now.index.now result }
{
    match statement {
        Statement::Call { .. } => by_plan(of, Found::Simple(statement), around, texts),
        Statement::Return { .. } => by_plan(of, Found::Simple(statement), around, texts),
        _ => Change::Stays,
    }
}

// What stands at a point, in a function with this result.
fn found<'a>(of: &CType, there: Found<'a>, around: &Around<'a>, texts: &Names) -> Change<'a>
    requires slots { AreLawful around.now.slots.now }
    requires rise { RiseFrom 0 around.now.slots.now }
    ensures value { (names : Texts) → IsToldIn names around.now → Spells texts.now names → is_served_program (items_of names around.now.index.now) ≡ true → is_served_found (found_of names there.entry) ≡ true → FoundNumbers (items_of names around.now.index.now) (found_of names there.entry)
        → Foresees names (context_of names around.now) (M.AtStatement (found_of names there.entry)) result (M.found_act (context_of names around.now) (type_of names of.now) (found_of names there.entry)) }
    ensures own { EntersOwnly around.now.index.now result }
{
    match there {
        Found::Simple(statement) => simple(of, statement, around, texts),
        _ => Change::Stays,
    }
}

// A change, with a function by its name.
enum Told {
    Stays,
    Enters(Name),
    Leaves,
    Makes(u64),
    Frees(u64),
}

// A change, with the function that is entered by its name.
fn by_name(change: Change) -> Told
    ensures { result ≡ told_of change.entry }
{
    match change {
        Change::Stays => Told::Stays,
        Change::Enters(function) => Told::Enters(function.word.name),
        Change::Leaves => Told::Leaves,
        Change::Makes(cells) => Told::Makes(cells),
        Change::Frees(cells) => Told::Frees(cells),
    }
}

// What a step of a frame does to the live cells. What arrives makes and frees no block.
fn ahead(index: &Index<'_>, texts: &Names, frame: &Frame<'_>, store: &Store) -> Told
    requires { IsWellFrame index.now frame.now }
    ensures { (names : Texts) (o : Option S.Value) → IsTexts names index.now texts.now frame.now → IsServing names index.now frame.now
        → Tells names (context_in names index.now frame.now store.now) (stood_of names frame.now) result
        (M.act (context_in names index.now frame.now store.now) (type_of names frame.now.function.now.result) o (stood_of names frame.now)) }
{
    let around = Around {
        index,
        function: frame.function,
        path: &frame.point.path,
        slots: &frame.slots,
        store,
    };
    match frame.point.phase {
        Phase::Here => {
            let there = standing(&frame.function.body, &frame.point.path);
            by_name(found(&frame.function.result, there, &around, texts))
        }
        Phase::Arrival => Told::Stays,
        Phase::End => by_name(left(&around)),
    }
}

/// What a step of a frame does to the live cells, whatever value is arriving. Nothing is changed and no memory is taken.
pub fn foreseen<'p>(
    index: &Index<'p>,
    texts: &Names,
    frame: &Frame<'_>,
    store: &Store,
) -> Change<'p>
    requires { IsWellFrame index.now frame.now }
    ensures value { (names : Texts) (o : Option S.Value) → IsTexts names index.now texts.now frame.now → IsServing names index.now frame.now
        → Foresees names (context_in names index.now frame.now store.now) (stood_of names frame.now) result
        (M.act (context_in names index.now frame.now store.now) (type_of names frame.now.function.now.result) o (stood_of names frame.now)) }
    ensures own { EntersOwnly index.now result }
{
    match ahead(index, texts, frame, store) {
        Told::Enters(name) => match function_at(index, name) {
            Some(function) => Change::Enters(function),
            None => Change::Stays,
        },
        Told::Stays => Change::Stays,
        Told::Leaves => Change::Leaves,
        Told::Makes(cells) => Change::Makes(cells),
        Told::Frees(cells) => Change::Frees(cells),
    }
}
