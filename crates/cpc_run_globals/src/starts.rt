//! What the cells of a global hold at the start.
ghost use Rattle.std.specs.Prelude.{◌≡◌, ◌-ℤ◌, pos, Some, map, option_map, IfOk, IfSome};
ghost use Rattle.std.specs.List.{All};
ghost use Rattle.cpc_num.specs.Number as N;
ghost use Rattle.cpc_store.specs.Seen.{seen, IsLawful};
ghost use Rattle.cpc_tree.specs.Erase.{Names, expr_of};
ghost use Rattle.cpc_meaning.specs.Start as M;
ghost use Rattle.cpc_eval_values.specs.Shown.{value_of, values_of};
ghost use Rattle.cpc_run_globals.specs.Starts.{text_cell, only_kind, minus_number, start_number, number_cells};

use cpc_base::NoMemory;
use cpc_num::{Kind, convert};
use cpc_store::{Scalar, Value};
use cpc_tree::program::{Expr, Operand, UnaryOp};
use std::alloc::Global;

// What a cell holds that nothing is written for.
fn zero_of(scalar: Scalar) -> Value
    ensures value { (names : Names) → value_of names result ≡ M.zero_of scalar }
    ensures lawful { IsLawful (seen result) }
{
    match scalar {
        Scalar::Int(kind) => Value::Int(kind, 0),
        Scalar::Pointer | Scalar::Code => Value::Null,
        Scalar::Cond => Value::Unset,
    }
}

// The cells of a global for which nothing is written.
fn zeros(alloc: Global, row: &[Scalar]) -> Result<Vec<Value>, NoMemory>
    ensures value { IfOk result (λ cells. (names : Names) → values_of names cells.items ≡ map M.zero_of row.now) }
    ensures lawful { IfOk result (λ cells. All (λ v. IsLawful (seen v)) cells.items) }
{
    let mut cells = Vec::new(alloc);
    for scalar in row {
        cells.push(zero_of(*scalar))?;
    }
    Ok(cells)
}

// What the i-th of the cells over which a string is written holds.
fn text_cell(bytes: &[u8], i: usize, scalar: Scalar) -> Value
    ensures value { (names : Names) → value_of names result ≡ text_cell bytes.now i scalar }
    ensures lawful { IsLawful (seen result) }
{
    match bytes.get(i) {
        Some(byte) => Value::Int(Kind::Char, convert(Kind::Char, *byte as i128)),
        None => zero_of(scalar),
    }
}

// The cells of a global with a string: its bytes, one a cell, and those behind it as if nothing were written.
fn text_cells(alloc: Global, bytes: &[u8], row: &[Scalar]) -> Result<Vec<Value>, NoMemory>
    ensures value { IfOk result (λ cells. (names : Names) → values_of names cells.items ≡ M.text_over bytes.now (map M.zero_of row.now)) }
    ensures lawful { IfOk result (λ cells. All (λ v. IsLawful (seen v)) cells.items) }
{
    let mut cells = Vec::new(alloc);
    for i in 0..row.len() {
        cells.push(text_cell(bytes, i, row[i]))?;
    }
    Ok(cells)
}

// A number with its sign changed, as a value of the kind.
fn opposite(kind: Kind, value: i128) -> i128
    ensures { result ≡ N.convert kind (pos 0 -ℤ value) }
{
    if value == i128::MIN {
        return 0;
    }
    convert(kind, 0 - value)
}

// The number, of this kind, that a minus before this literal gives.
fn minus(operand: &Expr, kind: Kind) -> Option<i128>
    ensures value { (names : Names) → result ≡ minus_number kind (expr_of names operand.now) }
    ensures kept { IfSome result (N.IsOf kind) }
{
    match operand {
        Expr::Integer {
            kind: own,
            value,
            ..
        } => Some(convert(kind, opposite(*own, *value))),
        _ => None,
    }
}

// The number, of this kind, that is written.
fn number(start: &Expr, kind: Kind) -> Option<i128>
    ensures value { (names : Names) → result ≡ start_number kind (expr_of names start.now) }
    ensures kept { IfSome result (N.IsOf kind) }
{
    match start {
        Expr::Integer { value, .. } => Some(convert(kind, *value)),
        Expr::Character { value, .. } => Some(convert(kind, *value)),
        Expr::Unary {
            op: UnaryOp::Minus,
            operand,
            ..
        } => minus(operand, kind),
        _ => None,
    }
}

// The one cell of an integer, with its number, or with 0.
fn number_cells(alloc: Global, kind: Kind, number: Option<i128>) -> Result<Vec<Value>, NoMemory>
    requires { IfSome number (N.IsOf kind) }
    ensures value { IfOk result (λ cells. (names : Names) → values_of names cells.items ≡ number_cells kind number) }
    ensures lawful { IfOk result (λ cells. All (λ v. IsLawful (seen v)) cells.items) }
{
    let value = match number {
        Some(value) => Value::Int(kind, value),
        None => zero_of(Scalar::Int(kind)),
    };
    let mut cells = Vec::new(alloc);
    cells.push(value)?;
    Ok(cells)
}

// The kind of an integer that is the only cell.
fn only_kind(row: &[Scalar]) -> Option<Kind>
    ensures { result ≡ only_kind row.now }
{
    match row {
        [Scalar::Int(kind)] => Some(*kind),
        _ => None,
    }
}

// The cells of a global for which this is written.
fn written(alloc: Global, start: &Expr, row: &[Scalar]) -> Result<Vec<Value>, NoMemory>
    ensures value { IfOk result (λ cells. (names : Names) → values_of names cells.items ≡ M.start_cells (Some (expr_of names start.now)) row.now) }
    ensures lawful { IfOk result (λ cells. All (λ v. IsLawful (seen v)) cells.items) }
{
    match start.text() {
        Some(bytes) => text_cells(alloc, bytes, row),
        None => match only_kind(row) {
            Some(kind) => number_cells(alloc, kind, number(start, kind)),
            None => zeros(alloc, row),
        },
    }
}

/// The cells of a global by what is written for it and what they hold. `NoMemory` is want of memory.
pub(crate) fn start_cells(
    alloc: Global,
    start: &Option<Operand>,
    row: &[Scalar],
) -> Result<Vec<Value>, NoMemory>
    ensures value { IfOk result (λ cells. (names : Names) → values_of names cells.items ≡ M.start_cells (option_map (expr_of names) start.now) row.now) }
    ensures lawful { IfOk result (λ cells. All (λ v. IsLawful (seen v)) cells.items) }
{
    match start {
        Some(start) => written(alloc, start.expr(), row),
        None => zeros(alloc, row),
    }
}
