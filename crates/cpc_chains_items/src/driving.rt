//! The driver.
ghost use Rattle.std.specs.Prelude.{◌≡◌, ◌++◌, ◌∷◌, [], None, Some, map, codes, IfOk, OnOk};
ghost use Rattle.cpc_tree.specs.Erase as E;
ghost use Rattle.cpc_tree.specs.Erase.{Table, expr_of, stmt_of, parameter_of};
ghost use Rattle.cpc_tree.specs.Syntax as S;
ghost use Rattle.cpc_chains_store_laws.specs.Driver as D;
ghost use Rattle.cpc_chains_event.specs.Pieces as P;
ghost use Rattle.cpc_chains_event.specs.Pieces.{called_so};
ghost use Rattle.cpc_convert_names.specs.Book.{IsBook};
ghost use Rattle.cpc_chains_items.specs.Listed.{listed};

use crate::items::Items;
use crate::parts::parameter;
use cpc_base::{NoMemory, Place};
use cpc_chains_lines::{any_pointer, field, named, to_struct, zero};
use cpc_convert_names::Book;
use cpc_num::{Kind, Op};
use cpc_tree::program::{CType, Expr, Operand, Parameter, Statement, Word};
use std::alloc::Global;

// `f__ != 0`. `NoMemory` is want of memory.
fn is_taken(alloc: Global, place: Place, book: &Book<'_>) -> Result<Expr, NoMemory>
    ensures { IfOk result (λ x. (source : Table) (to : E.Names) → IsBook source to book.now → expr_of to x ≡ D.is_taken) }
{
    let left = Box::new(alloc, named(place, book.own.taken))?;
    let right = Box::new(alloc, zero(place))?;
    Ok(Expr::Binary {
        place,
        op: Op::Ne,
        left,
        right,
    })
}

// `f__ = f__->code__(f__);`. `NoMemory` is want of memory.
fn takes_up(alloc: Global, place: Place, book: &Book<'_>) -> Result<Statement, NoMemory>
    ensures { IfOk result (λ s. (source : Table) (to : E.Names) → IsBook source to book.now → stmt_of to s ≡ D.takes_up) }
{
    let taken = book.own.taken;
    let function = field(alloc, place, named(place, taken), book.own.code)?;
    let mut arguments = Vec::new(alloc);
    arguments.push(named(place, taken))?;
    Ok(Statement::Call {
        place,
        operator: place,
        target: Some(Operand::new(named(place, taken))),
        function: Operand::new(function),
        arguments,
    })
}

// `while (f__ != 0) f__ = f__->code__(f__);`. `NoMemory` is want of memory.
fn go_round(alloc: Global, place: Place, book: &Book<'_>) -> Result<Statement, NoMemory>
    ensures { IfOk result (λ s. (source : Table) (to : E.Names) → IsBook source to book.now → stmt_of to s ≡ S.While D.is_taken D.takes_up) }
{
    let test = is_taken(alloc, place, book)?;
    let body = Box::new(alloc, takes_up(alloc, place, book)?)?;
    Ok(Statement::While {
        place,
        test: Operand::new(test),
        body,
    })
}

// `struct frame__ *f__ = k__;`. `NoMemory` is want of memory.
fn take(alloc: Global, place: Place, book: &Book<'_>) -> Result<Statement, NoMemory>
    ensures { IfOk result (λ s. (source : Table) (to : E.Names) → IsBook source to book.now → stmt_of to s ≡ S.Declare D.taken_name (S.TyPointer (S.TyStruct D.frame_tag)) (Some (S.ENamed (codes "k__")))) }
{
    let name = book.own.taken;
    Ok(Statement::Declare {
        place,
        word: Word { place, name },
        of: to_struct(alloc, book.own.any_frame)?,
        start: Some(Operand::new(named(place, book.own.pointer))),
    })
}

// `f__->value__ = r__;`. `NoMemory` is want of memory.
fn answer(alloc: Global, place: Place, book: &Book<'_>) -> Result<Statement, NoMemory>
    ensures { IfOk result (λ s. (source : Table) (to : E.Names) → IsBook source to book.now → stmt_of to s ≡ S.Assign (S.EArrow D.taken D.value_field) None (S.ENamed (codes "r__"))) }
{
    let taken = named(place, book.own.taken);
    Ok(Statement::Assign {
        place,
        operator: place,
        target: Operand::new(field(alloc, place, taken, book.own.value)?),
        op: None,
        value: Operand::new(named(place, book.own.answer)),
    })
}

// The body of the driver. `NoMemory` is want of memory.
fn drive_body(alloc: Global, place: Place, book: &Book<'_>) -> Result<Statement, NoMemory>
    ensures { IfOk result (λ s. (source : Table) (to : E.Names) → IsBook source to book.now → stmt_of to s ≡ D.drive_function.body) }
{
    let mut inner = Vec::new(alloc);
    inner.push(take(alloc, place, book)?)?;
    inner.push(answer(alloc, place, book)?)?;
    inner.push(go_round(alloc, place, book)?)?;
    Ok(Statement::Block { place, inner })
}

// The parameters of the driver: the frame, and the result of a wait. `NoMemory` is want of memory.
fn drive_parameters(
    alloc: Global,
    place: Place,
    book: &Book<'_>,
) -> Result<Vec<Parameter>, NoMemory>
    ensures { IfOk result (λ ps. (source : Table) (to : E.Names) → IsBook source to book.now → map (parameter_of to) ps.items ≡ D.drive_function.parameters) }
{
    let mut parameters = Vec::new(alloc);
    parameters.push(parameter(place, book.own.pointer, any_pointer(alloc)?))?;
    parameters.push(parameter(place, book.own.answer, CType::Int(Kind::Int)))?;
    Ok(parameters)
}

impl Items {
    /// The driver. `NoMemory` is want of memory.
    pub fn driver(&mut self, alloc: Global, place: Place, book: &Book<'_>) -> Result<(), NoMemory>
        ensures { OnOk result ((source : Table) (to : E.Names) → IsBook source to book.now → listed to self.new ≡ listed to self.old ++ S.FunctionItem D.drive_function ∷ []) }
    {
        let parameters = drive_parameters(alloc, place, book)?;
        let body = drive_body(alloc, place, book)?;
        self.add_function(place, book.own.drive, CType::Void, parameters, body)
    }
}
