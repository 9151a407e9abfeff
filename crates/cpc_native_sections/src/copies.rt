//! The cells that are copied for a section when it is submitted.
ghost use Rattle.std.specs.Prelude.{◌≡◌, ◌∷◌, ◌<◌, ◌^◌, IfOk, Some, map, option_map, reverse};
ghost use Rattle.std.specs.List.{All};
ghost use Rattle.cpc_tree.specs.Erase.{Names, type_of, item_of, function_of};
ghost use Rattle.cpc_tree.specs.Syntax as S;
ghost use Rattle.cpc_tree.specs.Typing.{function_named, parameter_types};
ghost use Rattle.cpc_check_rules.specs.Apart.{AreApart};
ghost use Rattle.cpc_store.specs.Seen.{seen, IsLawful};
ghost use Rattle.cpc_meaning.specs.Copies as C;
ghost use Rattle.cpc_eval_values.specs.Shown.{value_of, store_of};
ghost use Rattle.cpc_native.specs.Stops.{MeetsOr, row_shown};
ghost use Rattle.cpc_run_globals.specs.Layouts.{AreLayouts};
ghost use Rattle.cpc_native_sections.specs.Pointed.{pointed_type, or_named};

use cpc_base::{Name, Stop};
use cpc_num::Fault;
use cpc_run_globals::Layouts;
use cpc_store::{Block, Scalar, Store, Value};
use cpc_tree::program::{CType, Function, Item, Program};
use std::alloc::Global;

// The function that an item defines, if it is of this name.
fn defines(item: &Item, name: Name) -> Option<&Function>
    ensures { (names : Names) → AreApart names → (items : S.Program) → function_named (item_of names item.now ∷ items) (names name) ≡ or_named (option_map (λ f. function_of names f.now) result) items (names name) }
{
    match item {
        Item::Function(function) => {
            if function.word.name == name {
                return Some(function);
            }
            None
        }
        _ => None,
    }
}

// The first function of this name that is among items.
fn defined(items: &[Item], name: Name) -> Option<&Function>
    ensures { (names : Names) → AreApart names → option_map (λ f. function_of names f.now) result ≡ function_named (map (item_of names) items.now) (names name) }
{
    for item in items {
        let found = defines(item, name);
        if found.is_some() {
            return found;
        }
    }
    None
}

// The type to which the first parameter of a function points.
fn pointed_type(function: &Function) -> Option<&CType>
    ensures { (names : Names) → option_map (λ t. type_of names t.now) result ≡ pointed_type (parameter_types (function_of names function.now)) }
{
    match function.parameters.first() {
        Some(parameter) => parameter.of.pointee(),
        None => None,
    }
}

// Cells of a block from an offset on, each as what it is declared to hold.
fn copied(
    alloc: Global,
    row: &[Scalar],
    block: Block,
    offset: u64,
    store: &Store,
) -> Result<Vec<Value>, Stop<Fault>>
    requires { offset < 2 ^ 63 }
    ensures value { (names : Names) → MeetsOr (row_shown names result) (C.copied row.now block.class block.number offset (store_of names store.now)) }
    ensures lawful { IfOk result (λ cells. All (λ v. IsLawful (seen v)) cells.items) }
{
    let mut cells = Vec::new(alloc);
    for (k, scalar) in row.iter().enumerate() {
        match store.load(block, offset + k as u64, *scalar) {
            Ok(value) => cells.push(value)?,
            Err(fault) => return Err(Stop::Fault(fault)),
        }
    }
    Ok(cells)
}

/// The cells to which a pointer points that is the first argument of a section of a function: as many as the type of the
/// function's first parameter has, and none for null. Where the program has no such function, or its first parameter is no
/// pointer to a complete type, nothing is said.
///
/// - `Memory`: want of memory.
/// - `Fault`: of a cell, as `Store::load` has it.
pub fn copy_of(
    alloc: Global,
    program: &Program,
    layouts: &Layouts<'_>,
    function: Name,
    pointer: Value,
    store: &Store,
) -> Result<Vec<Value>, Stop<Fault>>
    requires { IsLawful (seen pointer) }
    ensures value { let items = program.now.items.items in (names : Names) → AreApart names → AreLayouts layouts.now names (reverse (map (item_of names) items))
        → (g : S.Function) → function_named (map (item_of names) items) (names function) ≡ Some g
        → MeetsOr (row_shown names result) (C.copy_of (map (item_of names) items) g (value_of names pointer) (store_of names store.now)) }
    ensures lawful { IfOk result (λ cells. All (λ v. IsLawful (seen v)) cells.items) }
{
    let Value::At(block, offset) = pointer else {
        return Ok(Vec::new(alloc));
    };
    let Some(function) = defined(&program.items, function) else {
        return Ok(Vec::new(alloc));
    };
    let Some(of) = pointed_type(function) else {
        return Ok(Vec::new(alloc));
    };
    match layouts.of_type(alloc, of)? {
        Some(row) => copied(alloc, &row, block, offset, store),
        None => Ok(Vec::new(alloc)),
    }
}
