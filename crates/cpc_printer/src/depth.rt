//! How deep a print nests in the plain style, where it says so exactly up to the greatest `u64`.
ghost use Rattle.std.specs.Prelude.{◌≡◌, ◌+◌, max, false};
ghost use Rattle.cpc_tree.specs.Erase.{Names, type_of, expr_of, exprs_of};
ghost use Rattle.cpc_tree.specs.TypePrint.{star_count, types_depth};
ghost use Rattle.cpc_tree.specs.ExprPrint.{expr_depth, args_depth};
ghost use Rattle.cpc_printer.specs.Types.{listed_types};
ghost use Rattle.cpc_printer.specs.Ranks.{rank_of};
ghost use Rattle.cpc_printer.specs.Depths.{capped, declarator_nest, param_nest, inner_depth, postfix_depth};

use crate::expressions::rank_of;
use crate::rank::{Rank, TOP_TIER, tier_below, tier_of};
use cpc_tree::program::{CType, Expr};

/// One level deeper.
pub(crate) fn deeper(depth: u64) -> u64
    ensures { result ≡ capped (depth + 1) }
{
    depth.saturating_add(1)
}

/// The greater of two depths.
pub(crate) fn deepest(a: u64, b: u64) -> u64
    ensures { result ≡ max a b }
{
    if a < b { b } else { a }
}

/// How many pointers stand over a type.
pub(crate) fn star_count(of: &CType) -> u64
    ensures { (names : Names) → result ≡ capped (star_count (type_of names of.now)) }
{
    match of {
        CType::Pointer(to) => deeper(star_count(to)),
        _ => 0,
    }
}

/// How deep a declarator nests.
#[cycle(nesting)]
pub(crate) fn declarator_depth(of: &CType) -> u64
    ensures { (names : Names) → result ≡ capped (declarator_nest (type_of names of.now)) }
{
    match of {
        CType::Array(of, _) => star_count(of),
        CType::Code {
            result: given,
            parameters,
        } => deepest(star_count(given), deeper(types_depth(parameters))),
        _ => star_count(of),
    }
}

/// How deep the parameters of a type nest.
#[cycle(nesting)]
fn types_depth(list: &[CType]) -> u64
    ensures { (names : Names) → result ≡ capped (types_depth false (listed_types names list.now)) }
{
    let mut depth = 0;
    for of in list {
        depth = deepest(depth, parameter_depth(of));
    }
    depth
}

/// How deep a parameter nests.
#[cycle(nesting)]
pub(crate) fn parameter_depth(of: &CType) -> u64
    ensures { (names : Names) → result ≡ capped (param_nest (type_of names of.now)) }
{
    match of {
        CType::Array(_, _) => 0,
        _ => declarator_depth(of),
    }
}

/// How deep an expression nests where a rank is asked for.
#[tactic(auto, using(std::proofs::lemmas::Grind::common_steps, crate::proofs::DepthRows::depth_round))]
#[cycle(depths)]
pub(crate) fn expression_depth(asked: Rank, e: &Expr) -> u64
    ensures { (names : Names) → result ≡ capped (expr_depth false (rank_of asked) (expr_of names e.now)) }
{
    let depth = deeper(operands_depth(e));
    if rank_of(e).is_loose(asked) {
        deeper(depth)
    } else {
        depth
    }
}

/// How deep what stands in an expression nests.
#[cycle(depths)]
fn operands_depth(e: &Expr) -> u64
    ensures { (names : Names) → result ≡ capped (inner_depth (expr_of names e.now)) }
{
    match e {
        Expr::Unary { operand, .. } => expression_depth(Rank::Tier(0), operand),
        Expr::Binary {
            op,
            left,
            right,
            ..
        } => {
            let before = expression_depth(Rank::Tier(tier_of(*op)), left);
            deepest(before, expression_depth(Rank::Tier(tier_below(*op)), right))
        }
        Expr::And { left, right, .. } => {
            let before = expression_depth(Rank::Tier(9), left);
            deepest(before, expression_depth(Rank::Tier(8), right))
        }
        Expr::Or { left, right, .. } => {
            let before = expression_depth(Rank::Tier(10), left);
            deepest(before, expression_depth(Rank::Tier(9), right))
        }
        Expr::Choose { test, yes, no, .. } => {
            let first = expression_depth(Rank::Tier(TOP_TIER), test);
            let second = expression_depth(Rank::Whole, yes);
            deepest(first, deepest(second, expression_depth(Rank::Whole, no)))
        }
        Expr::Cast {
            target,
            operand,
            ..
        } => {
            let before = declarator_depth(target);
            deepest(before, expression_depth(Rank::Tier(0), operand))
        }
        _ => postfix_depth(e),
    }
}

/// How deep what stands in an expression with no operator before or between its operands nests.
#[cycle(depths)]
fn postfix_depth(e: &Expr) -> u64
    ensures { (names : Names) → result ≡ capped (postfix_depth (expr_of names e.now)) }
{
    match e {
        Expr::SizeOf { target, .. } => declarator_depth(target),
        Expr::Index { operand, index, .. } => {
            let before = expression_depth(Rank::Postfix, operand);
            deepest(before, expression_depth(Rank::Whole, index))
        }
        Expr::Member { operand, .. } | Expr::Arrow { operand, .. } => {
            expression_depth(Rank::Postfix, operand)
        }
        Expr::CallIn {
            function,
            arguments,
            ..
        } => {
            let before = expression_depth(Rank::Postfix, function);
            deepest(before, arguments_depth(arguments))
        }
        _ => 0,
    }
}

/// How deep the arguments of a call nest.
#[cycle(depths)]
pub(crate) fn arguments_depth(list: &[Expr]) -> u64
    ensures { (names : Names) → result ≡ capped (args_depth false (exprs_of names list.now)) }
{
    let mut depth = 0;
    for e in list {
        depth = deepest(depth, expression_depth(Rank::Whole, e));
    }
    depth
}
