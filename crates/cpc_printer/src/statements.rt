//! Statements (C11 6.8).
ghost use Rattle.std.specs.Prelude.{◌≡◌, [], ◌∷◌, ◌++◌, OnOk, option_map};
ghost use Rattle.cpc_tree.specs.Erase.{Names, text_of, type_of, expr_of, exprs_of, stmt_of, list_of, maybe_at};
ghost use Rattle.cpc_tree.specs.Syntax.{AndStmt};
ghost use Rattle.cpc_tree.specs.Tokens.{Word, Mark, Named};
ghost use Rattle.cpc_tree.specs.ExprGrammar.{Unary, Whole};
ghost use Rattle.cpc_tree.specs.TypePrint.{base_row};
ghost use Rattle.cpc_tree.specs.ExprPrint.{expr_row};
ghost use Rattle.cpc_tree.specs.StmtPrint.{stmt_row, block_row, simple_row, first_row, locals_row, step_row, maybe_row, local_row, section_row, assignment_mark, mark_row};
ghost use Rattle.cpc_tree.specs.declared.token.Keyword.TheVariants as K;
ghost use Rattle.cpc_tree.specs.declared.token.Punctuator.TheVariants as P;
ghost use Rattle.cpc_printer_layout.specs.Sheets.{row_of};
ghost use Rattle.cpc_printer.specs.Statements.{nested_row, jump_row, place_row, further_row, for_row, parts_row};

use crate::expressions::{bracketed_arguments, call, expression};
use crate::rank::{Rank, assigning_mark};
use crate::types::{base, variable};
use cpc_base::{Name, NoMemory};
use cpc_num::Op;
use cpc_printer_layout::Sheet;
use cpc_tree::program::{CType, Expr, Operand, Statement};
use cpc_tree::token::{Keyword, Punctuator};
use std::alloc::Global;

/// A statement, or the declaration of one local, on lines of its own.
#[cycle(sentences)]
pub(crate) fn statement(out: &mut Sheet, alloc: Global, s: &Statement) -> Result<(), NoMemory>
    ensures row { OnOk result ((names : Names) → row_of names out.new ≡ row_of names out.old ++ stmt_row out.old.is_tight (stmt_of names s.now)) }
    ensures style { out.new.is_tight ≡ out.old.is_tight }
{
    match s {
        Statement::Block { inner, .. } => block(out, alloc, inner),
        Statement::If { test, yes, no, .. } => {
            condition(out, alloc, Keyword::If, test.expr())?;
            body(out, alloc, yes)?;
            match no {
                None => Ok(()),
                Some(no) => {
                    behind(out, yes);
                    otherwise(out, alloc, no)
                }
            }
        }
        Statement::For {
            first,
            test,
            step,
            body: inner,
            ..
        } => {
            for_head(out, alloc, first, test, step)?;
            body(out, alloc, inner)
        }
        _ => nested(out, alloc, s),
    }
}

/// A loop, a statement behind a label, or one with no other in it.
#[tactic(auto, using(std::proofs::lemmas::Grind::common_steps, crate::proofs::StmtRows::stmt_while, crate::proofs::StmtRows::stmt_do, crate::proofs::StmtRows::stmt_label))]
#[cycle(sentences)]
fn nested(out: &mut Sheet, alloc: Global, s: &Statement) -> Result<(), NoMemory>
    ensures row { OnOk result ((names : Names) → row_of names out.new ≡ row_of names out.old ++ nested_row out.old.is_tight (stmt_of names s.now)) }
    ensures style { out.new.is_tight ≡ out.old.is_tight }
{
    match s {
        Statement::While {
            test,
            body: inner,
            ..
        } => {
            condition(out, alloc, Keyword::While, test.expr())?;
            body(out, alloc, inner)
        }
        Statement::DoWhile {
            body: inner,
            test,
            ..
        } => {
            out.word(Keyword::Do)?;
            body(out, alloc, inner)?;
            behind(out, inner);
            condition(out, alloc, Keyword::While, test.expr())?;
            out.mark(Punctuator::Semicolon)
        }
        Statement::Label { label, inner } => {
            label_head(out, label.name)?;
            statement(out, alloc, inner)
        }
        _ => jump(out, alloc, s),
    }
}

/// A block with its braces, each statement on a line of its own.
#[cycle(sentences)]
pub(crate) fn block(out: &mut Sheet, alloc: Global, inner: &[Statement]) -> Result<(), NoMemory>
    ensures row { OnOk result ((names : Names) → row_of names out.new ≡ row_of names out.old ++ Mark P.LeftBrace ∷ (block_row out.old.is_tight (list_of names inner.now) ++ Mark P.RightBrace ∷ [])) }
    ensures style { out.new.is_tight ≡ out.old.is_tight }
{
    out.mark(Punctuator::LeftBrace)?;
    out.set_in();
    statements(out, alloc, inner)?;
    out.set_out();
    out.line();
    out.mark(Punctuator::RightBrace)
}

/// Statements, each on a line of its own.
#[tactic(auto, using(std::proofs::lemmas::Grind::common_steps, crate::proofs::StmtRows::block_end, crate::proofs::StmtRows::block_more))]
#[cycle(sentences)]
fn statements(out: &mut Sheet, alloc: Global, inner: &[Statement]) -> Result<(), NoMemory>
    ensures row { OnOk result ((names : Names) → row_of names out.new ≡ row_of names out.old ++ block_row out.old.is_tight (list_of names inner.now)) }
    ensures style { out.new.is_tight ≡ out.old.is_tight }
{
    for s in inner {
        out.line();
        statement(out, alloc, s)?;
    }
    Ok(())
}

/// A statement inside another: a block and `;` on the line, else further in on the next.
#[cycle(sentences)]
fn body(out: &mut Sheet, alloc: Global, s: &Statement) -> Result<(), NoMemory>
    ensures row { OnOk result ((names : Names) → row_of names out.new ≡ row_of names out.old ++ stmt_row out.old.is_tight (stmt_of names s.now)) }
    ensures style { out.new.is_tight ≡ out.old.is_tight }
{
    match s {
        Statement::Block { .. } | Statement::Empty { .. } => {
            out.blank();
            statement(out, alloc, s)
        }
        _ => {
            out.set_in();
            out.line();
            statement(out, alloc, s)?;
            out.set_out();
            Ok(())
        }
    }
}

/// What stands behind the body of an `if`: `else` and its own body, another `if` on its line.
#[cycle(sentences)]
fn otherwise(out: &mut Sheet, alloc: Global, no: &Statement) -> Result<(), NoMemory>
    ensures row { OnOk result ((names : Names) → row_of names out.new ≡ row_of names out.old ++ Word K.Else ∷ stmt_row out.old.is_tight (stmt_of names no.now)) }
    ensures style { out.new.is_tight ≡ out.old.is_tight }
{
    out.word(Keyword::Else)?;
    match no {
        Statement::If { .. } => {
            out.blank();
            statement(out, alloc, no)
        }
        _ => body(out, alloc, no),
    }
}

/// The blank or line before the word behind a body.
fn behind(out: &mut Sheet, s: &Statement)
    ensures row { (names : Names) → row_of names out.new ≡ row_of names out.old }
    ensures style { out.new.is_tight ≡ out.old.is_tight }
{
    match s {
        Statement::Block { .. } | Statement::Empty { .. } => out.blank(),
        _ => out.line(),
    }
}

/// A word and what it tests, in brackets.
fn condition(out: &mut Sheet, alloc: Global, word: Keyword, test: &Expr) -> Result<(), NoMemory>
    ensures row { OnOk result ((names : Names) → row_of names out.new ≡ row_of names out.old ++ Word word ∷ Mark P.LeftParen ∷ (expr_row out.old.is_tight Whole (expr_of names test.now) ++ Mark P.RightParen ∷ [])) }
    ensures style { out.new.is_tight ≡ out.old.is_tight }
{
    out.word(word)?;
    out.blank();
    out.mark(Punctuator::LeftParen)?;
    expression(out, alloc, Rank::Whole, test)?;
    out.mark(Punctuator::RightParen)
}

/// A label, one level further left, and a new line.
fn label_head(out: &mut Sheet, label: Name) -> Result<(), NoMemory>
    ensures row { OnOk result ((names : Names) → row_of names out.new ≡ row_of names out.old ++ Named (text_of names label) ∷ Mark P.Colon ∷ []) }
    ensures style { out.new.is_tight ≡ out.old.is_tight }
{
    out.label_line();
    out.name(label)?;
    out.mark(Punctuator::Colon)?;
    out.line();
    Ok(())
}

/// The word `for` and its three parts in brackets.
fn for_head(
    out: &mut Sheet,
    alloc: Global,
    first: &[Statement],
    test: &Option<Operand>,
    step: &Option<Box<Statement>>,
) -> Result<(), NoMemory>
    ensures row { OnOk result ((names : Names) → row_of names out.new ≡ row_of names out.old ++ for_row out.old.is_tight (list_of names first.now) (option_map (expr_of names) test.now) (maybe_at names step.now)) }
    ensures style { out.new.is_tight ≡ out.old.is_tight }
{
    out.word(Keyword::For)?;
    out.blank();
    out.mark(Punctuator::LeftParen)?;
    first_part(out, alloc, first)?;
    further_parts(out, alloc, test, step)
}

/// The second and the third part of a `for`.
fn further_parts(
    out: &mut Sheet,
    alloc: Global,
    test: &Option<Operand>,
    step: &Option<Box<Statement>>,
) -> Result<(), NoMemory>
    ensures row { OnOk result ((names : Names) → row_of names out.new ≡ row_of names out.old ++ parts_row out.old.is_tight (option_map (expr_of names) test.now) (maybe_at names step.now)) }
    ensures style { out.new.is_tight ≡ out.old.is_tight }
{
    out.mark(Punctuator::Semicolon)?;
    maybe(out, alloc, test)?;
    out.mark(Punctuator::Semicolon)?;
    last_part(out, alloc, step)?;
    out.mark(Punctuator::RightParen)
}

/// An expression that can be absent.
fn maybe(out: &mut Sheet, alloc: Global, e: &Option<Operand>) -> Result<(), NoMemory>
    ensures row { OnOk result ((names : Names) → row_of names out.new ≡ row_of names out.old ++ maybe_row out.old.is_tight (option_map (expr_of names) e.now)) }
    ensures style { out.new.is_tight ≡ out.old.is_tight }
{
    match e {
        None => Ok(()),
        Some(e) => {
            out.blank();
            expression(out, alloc, Rank::Whole, e.expr())
        }
    }
}

/// The last part of a `for`.
fn last_part(out: &mut Sheet, alloc: Global, step: &Option<Box<Statement>>) -> Result<(), NoMemory>
    ensures row { OnOk result ((names : Names) → row_of names out.new ≡ row_of names out.old ++ step_row out.old.is_tight (maybe_at names step.now)) }
    ensures style { out.new.is_tight ≡ out.old.is_tight }
{
    match step {
        None => Ok(()),
        Some(step) => {
            out.blank();
            simple(out, alloc, step)
        }
    }
}

/// A statement with no other in it, and its semicolon.
#[tactic(auto, using(std::proofs::lemmas::Grind::common_steps, crate::proofs::StmtRows::jump_spawn, crate::proofs::StmtRows::jump_goto, crate::proofs::StmtRows::jump_return, crate::proofs::StmtRows::jump_break, crate::proofs::StmtRows::jump_continue, crate::proofs::StmtRows::jump_empty))]
fn jump(out: &mut Sheet, alloc: Global, s: &Statement) -> Result<(), NoMemory>
    ensures row { OnOk result ((names : Names) → row_of names out.new ≡ row_of names out.old ++ jump_row out.old.is_tight (stmt_of names s.now)) }
    ensures style { out.new.is_tight ≡ out.old.is_tight }
{
    match s {
        Statement::Empty { .. } => out.mark(Punctuator::Semicolon),
        Statement::Spawn {
            function,
            arguments,
            ..
        } => {
            out.word(Keyword::CpcSpawn)?;
            out.blank();
            out.name(function.name)?;
            bracketed_arguments(out, alloc, arguments)?;
            out.mark(Punctuator::Semicolon)
        }
        Statement::Goto { label, .. } => {
            out.word(Keyword::Goto)?;
            out.blank();
            out.name(label.name)?;
            out.mark(Punctuator::Semicolon)
        }
        Statement::Break { .. } => alone(out, Keyword::Break),
        Statement::Continue { .. } => alone(out, Keyword::Continue),
        Statement::Return { value, .. } => {
            out.word(Keyword::Return)?;
            maybe(out, alloc, value)?;
            out.mark(Punctuator::Semicolon)
        }
        _ => {
            simple(out, alloc, s)?;
            out.mark(Punctuator::Semicolon)
        }
    }
}

/// A statement of one word.
fn alone(out: &mut Sheet, word: Keyword) -> Result<(), NoMemory>
    ensures row { OnOk result ((names : Names) → row_of names out.new ≡ row_of names out.old ++ Word word ∷ Mark P.Semicolon ∷ []) }
    ensures style { out.new.is_tight ≡ out.old.is_tight }
{
    out.word(word)?;
    out.mark(Punctuator::Semicolon)
}

/// A statement without its semicolon.
#[tactic(auto, using(std::proofs::lemmas::Grind::common_steps, crate::proofs::StmtRows::simple_call, crate::proofs::StmtRows::simple_detach))]
fn simple(out: &mut Sheet, alloc: Global, s: &Statement) -> Result<(), NoMemory>
    ensures row { OnOk result ((names : Names) → row_of names out.new ≡ row_of names out.old ++ simple_row out.old.is_tight (stmt_of names s.now)) }
    ensures style { out.new.is_tight ≡ out.old.is_tight }
{
    match s {
        Statement::Declare {
            word,
            of,
            start,
            ..
        } => declared(out, alloc, word.name, of, start),
        Statement::Assign {
            target,
            op,
            value,
            ..
        } => assigned(out, alloc, target.expr(), *op, value.expr()),
        Statement::Call {
            target,
            function,
            arguments,
            ..
        } => {
            place(out, alloc, target)?;
            call(out, alloc, function.expr(), arguments)
        }
        Statement::Detach {
            target,
            function,
            arguments,
            ..
        } => {
            place(out, alloc, target)?;
            section(out, alloc, function.name, arguments)
        }
        _ => Ok(()),
    }
}

/// The declaration of a local: its base type, the local, and what it starts with.
fn declared(
    out: &mut Sheet,
    alloc: Global,
    name: Name,
    of: &CType,
    start: &Option<Operand>,
) -> Result<(), NoMemory>
    ensures row { OnOk result ((names : Names) → row_of names out.new ≡ row_of names out.old ++ (base_row (type_of names of.now) ++ local_row out.old.is_tight (text_of names name) (type_of names of.now) (option_map (expr_of names) start.now))) }
    ensures style { out.new.is_tight ≡ out.old.is_tight }
{
    base(out, of)?;
    local(out, alloc, name, of, start)
}

/// An assignment, by an operator or by none.
fn assigned(
    out: &mut Sheet,
    alloc: Global,
    target: &Expr,
    op: Option<Op>,
    value: &Expr,
) -> Result<(), NoMemory>
    ensures row { OnOk result ((names : Names) → row_of names out.new ≡ row_of names out.old ++ (expr_row out.old.is_tight Unary (expr_of names target.now) ++ (mark_row (assignment_mark op) ++ expr_row out.old.is_tight Whole (expr_of names value.now)))) }
    ensures style { out.new.is_tight ≡ out.old.is_tight }
{
    expression(out, alloc, Rank::Unary, target)?;
    assignment(out, op)?;
    expression(out, alloc, Rank::Whole, value)
}

/// The mark of an assignment, with a blank on each side.
fn assignment(out: &mut Sheet, op: Option<Op>) -> Result<(), NoMemory>
    ensures row { OnOk result ((names : Names) → row_of names out.new ≡ row_of names out.old ++ mark_row (assignment_mark op)) }
    ensures style { out.new.is_tight ≡ out.old.is_tight }
{
    match op {
        None => out.between(Punctuator::Equal),
        Some(op) => match assigning_mark(op) {
            None => Ok(()),
            Some(mark) => out.between(mark),
        },
    }
}

/// The place that a value goes to, and `=`.
fn place(out: &mut Sheet, alloc: Global, target: &Option<Operand>) -> Result<(), NoMemory>
    ensures row { OnOk result ((names : Names) → row_of names out.new ≡ row_of names out.old ++ place_row out.old.is_tight (option_map (expr_of names) target.now)) }
    ensures style { out.new.is_tight ≡ out.old.is_tight }
{
    match target {
        None => Ok(()),
        Some(target) => {
            expression(out, alloc, Rank::Unary, target.expr())?;
            out.between(Punctuator::Equal)
        }
    }
}

/// A section: a call of a detached function.
fn section(
    out: &mut Sheet,
    alloc: Global,
    function: Name,
    arguments: &[Expr],
) -> Result<(), NoMemory>
    ensures row { OnOk result ((names : Names) → row_of names out.new ≡ row_of names out.old ++ section_row out.old.is_tight (text_of names function) (exprs_of names arguments.now)) }
    ensures style { out.new.is_tight ≡ out.old.is_tight }
{
    out.word(Keyword::CpcDetached)?;
    out.blank();
    out.name(function)?;
    bracketed_arguments(out, alloc, arguments)
}

/// A local behind its base type, and what it starts with.
pub(crate) fn local(
    out: &mut Sheet,
    alloc: Global,
    name: Name,
    of: &CType,
    start: &Option<Operand>,
) -> Result<(), NoMemory>
    ensures row { OnOk result ((names : Names) → row_of names out.new ≡ row_of names out.old ++ local_row out.old.is_tight (text_of names name) (type_of names of.now) (option_map (expr_of names) start.now)) }
    ensures style { out.new.is_tight ≡ out.old.is_tight }
{
    variable(out, name, of)?;
    match start {
        None => Ok(()),
        Some(start) => {
            out.between(Punctuator::Equal)?;
            expression(out, alloc, Rank::Whole, start.expr())
        }
    }
}

/// The first part of a `for`: a declaration of locals, or one statement.
#[tactic(auto, using(std::proofs::lemmas::Grind::common_steps, crate::proofs::StmtRows::first_declare))]
fn first_part(out: &mut Sheet, alloc: Global, list: &[Statement]) -> Result<(), NoMemory>
    ensures row { OnOk result ((names : Names) → row_of names out.new ≡ row_of names out.old ++ first_row out.old.is_tight (list_of names list.now)) }
    ensures style { out.new.is_tight ≡ out.old.is_tight }
{
    match list.split_first() {
        None => Ok(()),
        Some((first, rest)) => begun(out, alloc, first, rest),
    }
}

/// The first part of a `for` that has a statement.
#[tactic(auto, using(std::proofs::lemmas::Grind::common_steps, crate::proofs::StmtRows::first_declare))]
fn begun(
    out: &mut Sheet,
    alloc: Global,
    first: &Statement,
    rest: &[Statement],
) -> Result<(), NoMemory>
    ensures row { OnOk result ((names : Names) → row_of names out.new ≡ row_of names out.old ++ first_row out.old.is_tight (AndStmt (stmt_of names first.now) (list_of names rest.now))) }
    ensures style { out.new.is_tight ≡ out.old.is_tight }
{
    simple(out, alloc, first)?;
    match first {
        Statement::Declare { .. } => further_locals(out, alloc, rest),
        _ => Ok(()),
    }
}

/// Further locals of a declaration.
#[tactic(auto, using(std::proofs::lemmas::Grind::common_steps, crate::proofs::StmtRows::locals_end, crate::proofs::StmtRows::locals_more))]
fn further_locals(out: &mut Sheet, alloc: Global, rest: &[Statement]) -> Result<(), NoMemory>
    ensures row { OnOk result ((names : Names) → row_of names out.new ≡ row_of names out.old ++ locals_row out.old.is_tight (list_of names rest.now)) }
    ensures style { out.new.is_tight ≡ out.old.is_tight }
{
    for s in rest {
        further(out, alloc, s)?;
    }
    Ok(())
}

/// A further local. A call or section to the local before it is what that local begins with.
fn further(out: &mut Sheet, alloc: Global, s: &Statement) -> Result<(), NoMemory>
    ensures row { OnOk result ((names : Names) → row_of names out.new ≡ row_of names out.old ++ further_row out.old.is_tight (stmt_of names s.now)) }
    ensures style { out.new.is_tight ≡ out.old.is_tight }
{
    match s {
        Statement::Declare {
            word,
            of,
            start,
            ..
        } => {
            out.mark(Punctuator::Comma)?;
            local(out, alloc, word.name, of, start)
        }
        Statement::Call {
            function,
            arguments,
            ..
        } => {
            out.between(Punctuator::Equal)?;
            call(out, alloc, function.expr(), arguments)
        }
        Statement::Detach {
            function,
            arguments,
            ..
        } => {
            out.between(Punctuator::Equal)?;
            section(out, alloc, function.name, arguments)
        }
        _ => Ok(()),
    }
}
