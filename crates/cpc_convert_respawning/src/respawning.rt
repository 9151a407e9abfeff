//! Statements once more, in which each spawn is a call of the spawner.
ghost use Rattle.std.specs.Prelude.{◌≡◌, Option, Some, None, IfOk, option_map};
ghost use Rattle.cpc_tree.specs.Erase as E;
ghost use Rattle.cpc_tree.specs.Erase.{Table, in_table, type_of, expr_of, exprs_of, stmt_of, list_of, maybe_at};
ghost use Rattle.cpc_tree.specs.Syntax as S;
ghost use Rattle.cpc_convert_common.specs.Converted.{respawned, respawned_all, respawned_arm};
ghost use Rattle.cpc_convert_names.specs.Book.{IsBook};

use cpc_base::{NoMemory, Place};
use cpc_convert_images::{copies, copy, copy_if};
use cpc_convert_names::Book;
use cpc_num::Op;
use cpc_shapes::copy_of;
use cpc_tree::program::{CType, Expr, Operand, Statement, Word};
use std::alloc::Global;

// A declaration once more. `NoMemory` is want of memory.
fn declared(
    alloc: Global,
    place: Place,
    word: Word,
    of: &CType,
    start: &Option<Operand>,
) -> Result<Statement, NoMemory>
    ensures { IfOk result (λ s. (names : E.Names) → stmt_of names s ≡ S.Declare (names word.name) (type_of names of.now) (option_map (expr_of names) start.now)) }
{
    Ok(Statement::Declare {
        place,
        word,
        of: copy_of(alloc, of)?,
        start: copy_if(alloc, start)?,
    })
}

// An assignment once more. `NoMemory` is want of memory.
fn assigned(
    alloc: Global,
    place: Place,
    operator: Place,
    target: &Expr,
    op: Option<Op>,
    value: &Expr,
) -> Result<Statement, NoMemory>
    ensures { IfOk result (λ s. (names : E.Names) → stmt_of names s ≡ S.Assign (expr_of names target.now) op (expr_of names value.now)) }
{
    Ok(Statement::Assign {
        place,
        operator,
        target: Operand::new(copy(alloc, target)?),
        op,
        value: Operand::new(copy(alloc, value)?),
    })
}

// A return once more. `NoMemory` is want of memory.
fn returned(alloc: Global, place: Place, value: &Option<Operand>) -> Result<Statement, NoMemory>
    ensures { IfOk result (λ s. (names : E.Names) → stmt_of names s ≡ S.Return (option_map (expr_of names) value.now)) }
{
    Ok(Statement::Return {
        place,
        value: copy_if(alloc, value)?,
    })
}

// A call once more. `NoMemory` is want of memory.
fn called(
    alloc: Global,
    place: Place,
    operator: Place,
    target: &Option<Operand>,
    function: &Expr,
    arguments: &[Expr],
) -> Result<Statement, NoMemory>
    ensures { IfOk result (λ s. (names : E.Names) → stmt_of names s ≡ S.Call (option_map (expr_of names) target.now) (expr_of names function.now) (exprs_of names arguments.now)) }
{
    Ok(Statement::Call {
        place,
        operator,
        target: copy_if(alloc, target)?,
        function: Operand::new(copy(alloc, function)?),
        arguments: copies(alloc, arguments)?,
    })
}

// A section once more. `NoMemory` is want of memory.
fn detached(
    alloc: Global,
    place: Place,
    operator: Place,
    keyword: Place,
    target: &Option<Operand>,
    function: Word,
    arguments: &[Expr],
) -> Result<Statement, NoMemory>
    ensures { IfOk result (λ s. (names : E.Names) → stmt_of names s ≡ S.Detach (option_map (expr_of names) target.now) (names function.name) (exprs_of names arguments.now)) }
{
    Ok(Statement::Detach {
        place,
        operator,
        keyword,
        target: copy_if(alloc, target)?,
        function,
        arguments: copies(alloc, arguments)?,
    })
}

// What a spawn becomes: a call of the spawner. `NoMemory` is want of memory.
fn spawner_called(
    alloc: Global,
    book: &Book<'_>,
    place: Place,
    function: Word,
    arguments: &[Expr],
) -> Result<Statement, NoMemory>
    ensures { IfOk result (λ s. (table : Table) (to : E.Names) → IsBook table to book.now → in_table table function.name ≡ to function.name → stmt_of to s ≡ respawned (S.Spawn (to function.name) (exprs_of to arguments.now))) }
{
    let name = book.spawner(function.name);
    Ok(Statement::Call {
        place,
        operator: place,
        target: None,
        function: Operand::new(Expr::Name(Word { place, name })),
        arguments: copies(alloc, arguments)?,
    })
}

/// A statement whose spawns are calls of the spawners. `NoMemory` is want of memory.
#[cycle(respawned)]
pub fn respawn(alloc: Global, book: &Book<'_>, statement: &Statement) -> Result<Statement, NoMemory>
    ensures { IfOk result (λ s. (table : Table) (to : E.Names) → IsBook table to book.now → stmt_of (in_table table) statement.now ≡ stmt_of to statement.now → stmt_of to s ≡ respawned (stmt_of to statement.now)) }
{
    match statement {
        Statement::Block { place, inner } => {
            let inner = respawn_all(alloc, book, inner)?;
            Ok(Statement::Block {
                place: *place,
                inner,
            })
        }
        Statement::Empty { place } => Ok(Statement::Empty { place: *place }),
        Statement::Declare {
            place,
            word,
            of,
            start,
        } => declared(alloc, *place, *word, of, start),
        Statement::Assign {
            place,
            operator,
            target,
            op,
            value,
        } => assigned(alloc, *place, *operator, target.expr(), *op, value.expr()),
        Statement::Call {
            place,
            operator,
            target,
            function,
            arguments,
        } => called(alloc, *place, *operator, target, function.expr(), arguments),
        Statement::Detach {
            place,
            operator,
            keyword,
            target,
            function,
            arguments,
        } => detached(
            alloc, *place, *operator, *keyword, target, *function, arguments,
        ),
        Statement::Spawn {
            place,
            function,
            arguments,
        } => spawner_called(alloc, book, *place, *function, arguments),
        Statement::If {
            place,
            test,
            yes,
            no,
        } => {
            let test = copy(alloc, test.expr())?;
            let yes = respawn_boxed(alloc, book, yes)?;
            let no = respawn_arm(alloc, book, no)?;
            Ok(Statement::If {
                place: *place,
                test: Operand::new(test),
                yes,
                no,
            })
        }
        Statement::While { place, test, body } => {
            let test = copy(alloc, test.expr())?;
            let body = respawn_boxed(alloc, book, body)?;
            Ok(Statement::While {
                place: *place,
                test: Operand::new(test),
                body,
            })
        }
        Statement::DoWhile { place, body, test } => {
            let test = copy(alloc, test.expr())?;
            let body = respawn_boxed(alloc, book, body)?;
            Ok(Statement::DoWhile {
                place: *place,
                body,
                test: Operand::new(test),
            })
        }
        Statement::For {
            place,
            first,
            test,
            step,
            body,
        } => {
            let test = copy_if(alloc, test)?;
            let first = respawn_all(alloc, book, first)?;
            let step = respawn_arm(alloc, book, step)?;
            let body = respawn_boxed(alloc, book, body)?;
            Ok(Statement::For {
                place: *place,
                first,
                test,
                step,
                body,
            })
        }
        Statement::Goto { place, label } => Ok(Statement::Goto {
            place: *place,
            label: *label,
        }),
        Statement::Label { label, inner } => {
            let inner = respawn_boxed(alloc, book, inner)?;
            Ok(Statement::Label {
                label: *label,
                inner,
            })
        }
        Statement::Break { place } => Ok(Statement::Break { place: *place }),
        Statement::Continue { place } => Ok(Statement::Continue { place: *place }),
        Statement::Return { place, value } => returned(alloc, *place, value),
    }
}

// A statement, in a box.
#[cycle(respawned)]
fn respawn_boxed(
    alloc: Global,
    book: &Book<'_>,
    statement: &Statement,
) -> Result<Box<Statement>, NoMemory>
    ensures { IfOk result (λ s. (table : Table) (to : E.Names) → IsBook table to book.now → stmt_of (in_table table) statement.now ≡ stmt_of to statement.now → stmt_of to s.value ≡ respawned (stmt_of to statement.now)) }
{
    let made = respawn(alloc, book, statement)?;
    let made = Box::new(alloc, made)?;
    Ok(made)
}

// A statement that may be absent.
#[cycle(respawned)]
fn respawn_arm(
    alloc: Global,
    book: &Book<'_>,
    arm: &Option<Box<Statement>>,
) -> Result<Option<Box<Statement>>, NoMemory>
    ensures { IfOk result (λ s. (table : Table) (to : E.Names) → IsBook table to book.now → maybe_at (in_table table) arm.now ≡ maybe_at to arm.now → maybe_at to s ≡ respawned_arm (maybe_at to arm.now)) }
{
    match arm {
        Some(statement) => {
            let made = respawn_boxed(alloc, book, statement)?;
            Ok(Some(made))
        }
        None => Ok(None),
    }
}

// A row of statements.
#[cycle(respawned)]
fn respawn_all(
    alloc: Global,
    book: &Book<'_>,
    row: &[Statement],
) -> Result<Vec<Statement>, NoMemory>
    ensures { IfOk result (λ ss. (table : Table) (to : E.Names) → IsBook table to book.now → list_of (in_table table) row.now ≡ list_of to row.now → list_of to ss.items ≡ respawned_all (list_of to row.now)) }
{
    let mut all = Vec::new(alloc);
    for statement in row {
        let made = respawn(alloc, book, statement)?;
        all.push(made)?;
    }
    Ok(all)
}
