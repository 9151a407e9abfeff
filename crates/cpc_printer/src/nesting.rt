//! How deep the print of a program nests in the plain style.
ghost use Rattle.std.specs.Prelude.{◌≡◌, max, false, nat_lt, not, map, option_map};
ghost use Rattle.cpc_tree.specs.Erase.{Names, type_of, expr_of, exprs_of, stmt_of, list_of, maybe_at, parameter_of, field_of, item_of, program_of};
ghost use Rattle.cpc_tree.specs.TypePrint.{params_depth};
ghost use Rattle.cpc_tree.specs.StmtPrint.{block_depth, simple_depth, first_depth, step_depth, maybe_depth, local_depth};
ghost use Rattle.cpc_tree.specs.ItemPrint.{fields_depth, head_depth, body_depth, item_depth, program_depth};
ghost use Rattle.cpc_printer.specs.Depths.{capped};
ghost use Rattle.cpc_printer.specs.Nesting.{place_depth, jump_depth, nested_depth, stmt_nest};

use crate::depth::{
    arguments_depth, declarator_depth, deeper, deepest, expression_depth, parameter_depth,
    star_count,
};
use crate::rank::Rank;
use cpc_tree::program::{CType, Field, Function, Item, Operand, Parameter, Program, Statement};

/// How deep an expression that can be absent nests.
fn maybe_depth(e: &Option<Operand>) -> u64
    ensures { (names : Names) → result ≡ capped (maybe_depth false (option_map (expr_of names) e.now)) }
{
    match e {
        None => 0,
        Some(e) => expression_depth(Rank::Whole, e.expr()),
    }
}

/// How deep the place that a value goes to nests.
fn place_depth(target: &Option<Operand>) -> u64
    ensures { (names : Names) → result ≡ capped (place_depth (option_map (expr_of names) target.now)) }
{
    match target {
        None => 0,
        Some(target) => expression_depth(Rank::Unary, target.expr()),
    }
}

/// How deep a local nests.
#[tactic(auto, using(std::proofs::lemmas::Grind::common_steps, crate::proofs::DepthRows::declarator_is))]
fn local_depth(of: &CType, start: &Option<Operand>) -> u64
    ensures { (names : Names) → result ≡ capped (local_depth false (type_of names of.now) (option_map (expr_of names) start.now)) }
{
    let depth = declarator_depth(of);
    match start {
        None => deeper(depth),
        Some(start) => deeper(deepest(
            depth,
            deepest(1, expression_depth(Rank::Whole, start.expr())),
        )),
    }
}

/// How deep a statement without its semicolon nests.
#[tactic(auto, using(std::proofs::lemmas::Grind::common_steps, crate::proofs::NestRows::call_nest, crate::proofs::NestRows::detach_nest))]
fn simple_depth(s: &Statement) -> u64
    ensures { (names : Names) → result ≡ capped (simple_depth false (stmt_of names s.now)) }
{
    match s {
        Statement::Declare { of, start, .. } => local_depth(of, start),
        Statement::Assign { target, value, .. } => {
            let before = expression_depth(Rank::Unary, target.expr());
            deeper(deepest(before, expression_depth(Rank::Whole, value.expr())))
        }
        Statement::Call {
            target,
            function,
            arguments,
            ..
        } => {
            let called = expression_depth(Rank::Postfix, function.expr());
            let depth = deepest(called, arguments_depth(arguments));
            deeper(deepest(place_depth(target), depth))
        }
        Statement::Detach {
            target,
            arguments,
            ..
        } => {
            let before = place_depth(target);
            deeper(deepest(before, arguments_depth(arguments)))
        }
        _ => 0,
    }
}

/// How deep a statement with no other in it nests.
fn jump_depth(s: &Statement) -> u64
    ensures { (names : Names) → result ≡ capped (jump_depth (stmt_of names s.now)) }
{
    match s {
        Statement::Spawn { arguments, .. } => deeper(arguments_depth(arguments)),
        Statement::Return { value, .. } => deeper(maybe_depth(value)),
        Statement::Empty { .. }
        | Statement::Goto { .. }
        | Statement::Break { .. }
        | Statement::Continue { .. } => 1,
        _ => simple_depth(s),
    }
}

/// How deep a statement nests.
#[tactic(auto, using(std::proofs::lemmas::Grind::common_steps, crate::proofs::NestRows::stmt_is))]
#[cycle(stacks)]
fn statement_depth(s: &Statement) -> u64
    ensures { (names : Names) → result ≡ capped (stmt_nest (stmt_of names s.now)) }
{
    match s {
        Statement::Block { inner, .. } => deeper(block_depth(inner)),
        Statement::If { test, yes, no, .. } => {
            let before = deepest(
                expression_depth(Rank::Whole, test.expr()),
                statement_depth(yes),
            );
            match no {
                None => deeper(before),
                Some(no) => deeper(deepest(before, statement_depth(no))),
            }
        }
        Statement::For {
            first,
            test,
            step,
            body,
            ..
        } => {
            let head = head_parts_depth(first, test, step);
            deeper(deepest(head, statement_depth(body)))
        }
        _ => nested_depth(s),
    }
}

/// How deep a loop with one part, a statement behind a label, or one with no other in it nests.
#[tactic(auto, using(std::proofs::lemmas::Grind::common_steps, crate::proofs::NestRows::stmt_is))]
#[cycle(stacks)]
fn nested_depth(s: &Statement) -> u64
    ensures { (names : Names) → result ≡ capped (nested_depth (stmt_of names s.now)) }
{
    match s {
        Statement::While { test, body, .. } | Statement::DoWhile { body, test, .. } => {
            let depth = expression_depth(Rank::Whole, test.expr());
            deeper(deepest(depth, statement_depth(body)))
        }
        Statement::Label { inner, .. } => deeper(statement_depth(inner)),
        _ => jump_depth(s),
    }
}

/// How deep the statements of a block nest.
#[cycle(stacks)]
fn block_depth(inner: &[Statement]) -> u64
    ensures { (names : Names) → result ≡ capped (block_depth false (list_of names inner.now)) }
{
    let mut depth = 0;
    for s in inner {
        depth = deepest(depth, statement_depth(s));
    }
    depth
}

/// How deep the three parts of a `for` nest.
fn head_parts_depth(
    first: &[Statement],
    test: &Option<Operand>,
    step: &Option<Box<Statement>>,
) -> u64
    ensures { (names : Names) → result ≡ capped (max (first_depth false (list_of names first.now)) (max (maybe_depth false (option_map (expr_of names) test.now)) (step_depth false (maybe_at names step.now)))) }
{
    let depth = deepest(maybe_depth(test), step_depth(step));
    deepest(first_depth(first), depth)
}

/// How deep the last part of a `for` nests.
fn step_depth(step: &Option<Box<Statement>>) -> u64
    ensures { (names : Names) → result ≡ capped (step_depth false (maybe_at names step.now)) }
{
    match step {
        None => 0,
        Some(step) => simple_depth(step),
    }
}

/// How deep the first part of a `for` nests.
fn first_depth(first: &[Statement]) -> u64
    ensures { (names : Names) → result ≡ capped (first_depth false (list_of names first.now)) }
{
    let mut depth = 0;
    for s in first {
        depth = deepest(depth, simple_depth(s));
    }
    depth
}

/// How deep the body of a function nests.
fn body_depth(body: &Statement) -> u64
    ensures { (names : Names) → result ≡ capped (body_depth false (stmt_of names body.now)) }
{
    match body {
        Statement::Block { inner, .. } => deeper(block_depth(inner)),
        _ => 0,
    }
}

/// How deep the head of a function nests.
fn head_depth(given: &CType, list: &[Parameter]) -> u64
    ensures { (names : Names) → result ≡ capped (head_depth false (type_of names given.now) (map (parameter_of names) list.now)) }
{
    deepest(star_count(given), parameters_depth(list))
}

/// How deep the parameters of a function nest.
fn parameters_depth(list: &[Parameter]) -> u64
    ensures { (names : Names) → result ≡ capped (params_depth false (map (parameter_of names) list.now)) }
{
    let mut depth = 0;
    for parameter in list {
        depth = deepest(depth, parameter_depth(&parameter.of));
    }
    depth
}

/// How deep the fields of a struct nest.
fn fields_depth(list: &[Field]) -> u64
    ensures { (names : Names) → result ≡ capped (fields_depth false (map (field_of names) list.now)) }
{
    let mut depth = 0;
    for field in list {
        depth = deepest(depth, declarator_depth(&field.of));
    }
    depth
}

/// How deep an item nests.
#[tactic(auto, using(std::proofs::lemmas::Grind::common_steps, crate::proofs::NestRows::item_struct, crate::proofs::NestRows::item_global, crate::proofs::NestRows::item_prototype, crate::proofs::NestRows::item_function))]
fn item_depth(item: &Item) -> u64
    ensures { (names : Names) → result ≡ capped (item_depth false (item_of names item.now)) }
{
    match item {
        Item::Struct { fields, .. } => fields_depth(fields),
        Item::Global { of, start, .. } => deepest(declarator_depth(of), maybe_depth(start)),
        Item::Prototype {
            result: given,
            parameters,
            ..
        } => head_depth(given, parameters),
        Item::Function(function) => function_depth(function),
    }
}

/// How deep a function nests.
fn function_depth(function: &Function) -> u64
    ensures { (names : Names) → result ≡ capped (max (head_depth false (type_of names function.now.result) (map (parameter_of names) function.now.parameters.items)) (body_depth false (stmt_of names function.now.body))) }
{
    let head = head_depth(&function.result, &function.parameters);
    deepest(head, body_depth(&function.body))
}

/// How deep items nest.
fn items_depth(list: &[Item]) -> u64
    ensures { (names : Names) → result ≡ capped (program_depth false (map (item_of names) list.now)) }
{
    let mut depth = 0;
    for item in list {
        depth = deepest(depth, item_depth(item));
    }
    depth
}

/// Whether the plain print of a program nests no deeper than a limit.
pub(crate) fn fits(program: &Program, limit: u32) -> bool
    ensures { result ≡ not (nat_lt limit (program_depth false (program_of program.now))) }
{
    items_depth(&program.items) <= u64::from(limit)
}
