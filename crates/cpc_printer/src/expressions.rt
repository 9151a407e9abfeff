//! Expressions (C11 6.5), with parentheses only where another tree would else be read.
ghost use Rattle.std.specs.Prelude.{◌≡◌, [], ◌∷◌, ◌++◌, OnOk};
ghost use Rattle.cpc_tree.specs.Erase.{Names, text_of, type_of, expr_of, exprs_of};
ghost use Rattle.cpc_tree.specs.Tokens.{Mark, Named, Quoted};
ghost use Rattle.cpc_tree.specs.ExprGrammar.{Postfix, Whole};
ghost use Rattle.cpc_tree.specs.TypePrint.{type_row};
ghost use Rattle.cpc_tree.specs.ExprPrint.{expr_row, args_row};
ghost use Rattle.cpc_tree.specs.StmtPrint.{call_row};
ghost use Rattle.cpc_tree.specs.declared.token.Punctuator.TheVariants as P;
ghost use Rattle.cpc_printer_layout.specs.Sheets.{row_of};
ghost use Rattle.cpc_printer.specs.Ranks.{rank_of};
ghost use Rattle.cpc_printer.specs.Expressions.{rank_at, infix_row, postfix_row};

use crate::rank::{Rank, TOP_TIER, mark_of, tier_below, tier_of, unary_mark};
use crate::types::type_name;
use cpc_base::NoMemory;
use cpc_printer_layout::{Lexeme, Sheet};
use cpc_tree::program::{CType, Expr};
use cpc_tree::token::{Keyword, Punctuator};
use std::alloc::Global;

/// How closely an expression binds.
pub(crate) fn rank_of(e: &Expr) -> Rank
    ensures { (names : Names) → rank_of result ≡ rank_at (expr_of names e.now) }
{
    match e {
        Expr::Name(_) | Expr::Integer { .. } | Expr::Character { .. } | Expr::Text { .. } => {
            Rank::Primary
        }
        Expr::Unary { .. } | Expr::SizeOf { .. } => Rank::Unary,
        Expr::Binary { op, .. } => Rank::Tier(tier_of(*op)),
        Expr::And { .. } => Rank::Tier(9),
        Expr::Or { .. } => Rank::Tier(10),
        Expr::Choose { .. } => Rank::Whole,
        Expr::Cast { .. } => Rank::Tier(0),
        Expr::Index { .. } | Expr::Member { .. } | Expr::Arrow { .. } | Expr::CallIn { .. } => {
            Rank::Postfix
        }
    }
}

/// The tokens of an expression where a rank is asked for.
#[tactic(auto, using(std::proofs::lemmas::Grind::common_steps, crate::proofs::ExprRows::expr_round))]
#[cycle(operands)]
pub(crate) fn expression(
    out: &mut Sheet,
    alloc: Global,
    asked: Rank,
    e: &Expr,
) -> Result<(), NoMemory>
    ensures row { OnOk result ((names : Names) → row_of names out.new ≡ row_of names out.old ++ expr_row out.old.is_tight (rank_of asked) (expr_of names e.now)) }
    ensures style { out.new.is_tight ≡ out.old.is_tight }
{
    let is_round = rank_of(e).is_loose(asked);
    out.mark_if(is_round, Punctuator::LeftParen)?;
    bare(out, alloc, e)?;
    out.mark_if(is_round, Punctuator::RightParen)
}

/// An expression without parentheses round it.
#[tactic(auto, using(std::proofs::lemmas::Grind::common_steps, crate::proofs::ExprRows::bare_named, crate::proofs::ExprRows::bare_integer, crate::proofs::ExprRows::bare_character, crate::proofs::ExprRows::bare_text, crate::proofs::ExprRows::bare_unary, crate::proofs::ExprRows::bare_cast, crate::proofs::ExprRows::bare_sizeof))]
#[cycle(operands)]
fn bare(out: &mut Sheet, alloc: Global, e: &Expr) -> Result<(), NoMemory>
    ensures row { OnOk result ((names : Names) → row_of names out.new ≡ row_of names out.old ++ expr_row out.old.is_tight Whole (expr_of names e.now)) }
    ensures style { out.new.is_tight ≡ out.old.is_tight }
{
    match e {
        Expr::Name(word) => out.name(word.name),
        Expr::Integer { kind, value, .. } => out.put(Lexeme::Integer(*kind, *value)),
        Expr::Character { value, .. } => out.put(Lexeme::Character(*value)),
        Expr::Text { bytes, .. } => text(out, alloc, bytes),
        Expr::Unary { op, operand, .. } => {
            out.mark(unary_mark(*op))?;
            expression(out, alloc, Rank::Tier(0), operand)
        }
        Expr::Cast {
            target,
            operand,
            ..
        } => {
            bracketed_type(out, target)?;
            expression(out, alloc, Rank::Tier(0), operand)
        }
        Expr::SizeOf { target, .. } => {
            out.word(Keyword::Sizeof)?;
            bracketed_type(out, target)
        }
        _ => infix(out, alloc, e),
    }
}

/// An expression with an operator between its operands, or behind its first.
#[tactic(auto, using(std::proofs::lemmas::Grind::common_steps, crate::proofs::ExprRows::bare_binary, crate::proofs::ExprRows::bare_and, crate::proofs::ExprRows::bare_or, crate::proofs::ExprRows::bare_choose))]
#[cycle(operands)]
fn infix(out: &mut Sheet, alloc: Global, e: &Expr) -> Result<(), NoMemory>
    ensures row { OnOk result ((names : Names) → row_of names out.new ≡ row_of names out.old ++ infix_row out.old.is_tight (expr_of names e.now)) }
    ensures style { out.new.is_tight ≡ out.old.is_tight }
{
    match e {
        Expr::Binary {
            op,
            left,
            right,
            ..
        } => {
            operand(out, alloc, Rank::Tier(tier_of(*op)), left, mark_of(*op))?;
            expression(out, alloc, Rank::Tier(tier_below(*op)), right)
        }
        Expr::And { left, right, .. } => {
            operand(out, alloc, Rank::Tier(9), left, Punctuator::AndAnd)?;
            expression(out, alloc, Rank::Tier(8), right)
        }
        Expr::Or { left, right, .. } => {
            operand(out, alloc, Rank::Tier(10), left, Punctuator::OrOr)?;
            expression(out, alloc, Rank::Tier(9), right)
        }
        Expr::Choose { test, yes, no, .. } => {
            operand(out, alloc, Rank::Tier(TOP_TIER), test, Punctuator::Question)?;
            operand(out, alloc, Rank::Whole, yes, Punctuator::Colon)?;
            expression(out, alloc, Rank::Whole, no)
        }
        _ => postfix(out, alloc, e),
    }
}

/// An operand and the mark behind it.
#[cycle(operands)]
fn operand(
    out: &mut Sheet,
    alloc: Global,
    asked: Rank,
    e: &Expr,
    mark: Punctuator,
) -> Result<(), NoMemory>
    ensures row { OnOk result ((names : Names) → row_of names out.new ≡ row_of names out.old ++ (expr_row out.old.is_tight (rank_of asked) (expr_of names e.now) ++ Mark mark ∷ [])) }
    ensures style { out.new.is_tight ≡ out.old.is_tight }
{
    expression(out, alloc, asked, e)?;
    out.between(mark)
}

/// An index, a field or a call.
#[tactic(auto, using(std::proofs::lemmas::Grind::common_steps, crate::proofs::ExprRows::bare_index, crate::proofs::ExprRows::bare_member, crate::proofs::ExprRows::bare_arrow))]
#[cycle(operands)]
fn postfix(out: &mut Sheet, alloc: Global, e: &Expr) -> Result<(), NoMemory>
    ensures row { OnOk result ((names : Names) → row_of names out.new ≡ row_of names out.old ++ postfix_row out.old.is_tight (expr_of names e.now)) }
    ensures style { out.new.is_tight ≡ out.old.is_tight }
{
    match e {
        Expr::Index { operand, index, .. } => {
            expression(out, alloc, Rank::Postfix, operand)?;
            indexed(out, alloc, index)
        }
        Expr::Member { operand, field, .. } => {
            expression(out, alloc, Rank::Postfix, operand)?;
            out.mark(Punctuator::Dot)?;
            out.name(field.name)
        }
        Expr::Arrow { operand, field, .. } => {
            expression(out, alloc, Rank::Postfix, operand)?;
            out.mark(Punctuator::Arrow)?;
            out.name(field.name)
        }
        Expr::CallIn {
            function,
            arguments,
            ..
        } => {
            expression(out, alloc, Rank::Postfix, function)?;
            bracketed_arguments(out, alloc, arguments)
        }
        _ => Ok(()),
    }
}

/// An index in its brackets.
#[cycle(operands)]
fn indexed(out: &mut Sheet, alloc: Global, index: &Expr) -> Result<(), NoMemory>
    ensures row { OnOk result ((names : Names) → row_of names out.new ≡ row_of names out.old ++ Mark P.LeftBracket ∷ (expr_row out.old.is_tight Whole (expr_of names index.now) ++ Mark P.RightBracket ∷ [])) }
    ensures style { out.new.is_tight ≡ out.old.is_tight }
{
    out.mark(Punctuator::LeftBracket)?;
    expression(out, alloc, Rank::Whole, index)?;
    out.mark(Punctuator::RightBracket)
}

/// A string.
fn text(out: &mut Sheet, alloc: Global, bytes: &[u8]) -> Result<(), NoMemory>
    ensures row { OnOk result ((names : Names) → row_of names out.new ≡ row_of names out.old ++ Quoted bytes.now ∷ []) }
    ensures style { out.new.is_tight ≡ out.old.is_tight }
{
    let copied = bytes.to_vec(alloc)?;
    out.put(Lexeme::Text(copied))
}

/// A type in its brackets.
fn bracketed_type(out: &mut Sheet, of: &CType) -> Result<(), NoMemory>
    ensures row { OnOk result ((names : Names) → row_of names out.new ≡ row_of names out.old ++ Mark P.LeftParen ∷ (type_row out.old.is_tight (type_of names of.now) ++ Mark P.RightParen ∷ [])) }
    ensures style { out.new.is_tight ≡ out.old.is_tight }
{
    out.mark(Punctuator::LeftParen)?;
    type_name(out, of)?;
    out.mark(Punctuator::RightParen)
}

/// What stands between the brackets of a call, with them.
#[cycle(operands)]
pub(crate) fn bracketed_arguments(
    out: &mut Sheet,
    alloc: Global,
    list: &[Expr],
) -> Result<(), NoMemory>
    ensures row { OnOk result ((names : Names) → row_of names out.new ≡ row_of names out.old ++ Mark P.LeftParen ∷ (args_row out.old.is_tight (exprs_of names list.now) ++ Mark P.RightParen ∷ [])) }
    ensures style { out.new.is_tight ≡ out.old.is_tight }
{
    out.mark(Punctuator::LeftParen)?;
    arguments_of(out, alloc, list)?;
    out.mark(Punctuator::RightParen)
}

/// Expressions with commas between them.
#[tactic(auto, using(std::proofs::lemmas::Grind::common_steps, crate::proofs::ExprRows::args_none, crate::proofs::ExprRows::args_some, crate::proofs::ExprRows::args_end, crate::proofs::ExprRows::args_more))]
#[cycle(operands)]
fn arguments_of(out: &mut Sheet, alloc: Global, list: &[Expr]) -> Result<(), NoMemory>
    ensures row { OnOk result ((names : Names) → row_of names out.new ≡ row_of names out.old ++ args_row out.old.is_tight (exprs_of names list.now)) }
    ensures style { out.new.is_tight ≡ out.old.is_tight }
{
    match list.split_first() {
        None => Ok(()),
        Some((first, rest)) => {
            expression(out, alloc, Rank::Whole, first)?;
            for next in rest {
                out.mark(Punctuator::Comma)?;
                out.blank();
                expression(out, alloc, Rank::Whole, next)?;
            }
            Ok(())
        }
    }
}

/// A call, in no parentheses.
pub(crate) fn call(
    out: &mut Sheet,
    alloc: Global,
    function: &Expr,
    arguments: &[Expr],
) -> Result<(), NoMemory>
    ensures row { OnOk result ((names : Names) → row_of names out.new ≡ row_of names out.old ++ call_row out.old.is_tight (expr_of names function.now) (exprs_of names arguments.now)) }
    ensures style { out.new.is_tight ≡ out.old.is_tight }
{
    expression(out, alloc, Rank::Postfix, function)?;
    bracketed_arguments(out, alloc, arguments)
}
