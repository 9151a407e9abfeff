//! What is asked of the types of a program: the cells of structs that are as large as they may be and larger, what has a
//! type, and what may be written to one.
use cpc_base::{Dialect, Names, NoMemory};
use cpc_lexer::{end_of_text, tokens};
use cpc_num::Kind;
use cpc_parser::parse;
use cpc_tree::program::{CType, Item, Operand, Program};
use cpc_types::{Scope, TypeFound, assignable, cells, typing};
use std::alloc::Global;
use std::test::Fail;

static GLOBALS: &[u8] = b"int *p = 0; int n = 7; \
    struct s { int a[65535]; int b; }; struct s v; \
    struct t { struct s v; int c; }; struct t *w;";

/// What is found of these globals.
#[derive(Clone, Copy, PartialEq, Eq)]
struct Found {
    of_seven: bool,
    null_to_pointer: bool,
    seven_to_pointer: bool,
    null_to_int: bool,
    within: Option<u64>,
    above: Option<u64>,
}

// The type and the start of the global that is the item of this number.
fn global(program: &Program, number: usize) -> Option<(&CType, Option<&Operand>)> {
    match program.items.get(number) {
        Some(Item::Global { of, start, .. }) => Some((of, start.as_ref())),
        _ => None,
    }
}

// The type that a pointer points to.
fn pointed(of: &CType) -> &CType {
    match of {
        CType::Pointer(to) => to,
        _ => of,
    }
}

fn asked(alloc: Global, program: &Program) -> Result<Option<Found>, NoMemory> {
    let scope = Scope::of(alloc, program)?;
    let (Some((pointer, Some(null))), Some((int, Some(seven)))) = (
        global(program, 0),
        global(program, 1),
    ) else {
        return Ok(None);
    };
    let (Some((large, _)), Some((to_larger, _))) = (global(program, 3), global(program, 5)) else {
        return Ok(None);
    };
    Ok(Some(Found {
        of_seven: matches!(
            &typing(alloc, seven.expr(), &scope)?,
            TypeFound::Value(CType::Int(Kind::Int))
        ),
        null_to_pointer: assignable(alloc, pointer, null.expr(), &scope)?,
        seven_to_pointer: assignable(alloc, pointer, seven.expr(), &scope)?,
        null_to_int: assignable(alloc, int, null.expr(), &scope)?,
        within: cells(large, &scope),
        above: cells(pointed(to_larger), &scope),
    }))
}

fn globals_found(alloc: Global) -> Option<Found> {
    let mut names = Names::new(alloc);
    let Ok(list) = tokens(alloc, GLOBALS, Dialect::Cpc, &mut names) else {
        return None;
    };
    match parse(alloc, &list, end_of_text(GLOBALS), Dialect::Cpc, names) {
        Ok(program) => match asked(alloc, &program) {
            Ok(found) => found,
            Err(NoMemory) => None,
        },
        Err(_) => None,
    }
}

#[test]
fn types_and_cells(rt: HostRuntime) -> Result<(), Fail> {
    let due = Found {
        of_seven: true,
        null_to_pointer: true,
        seven_to_pointer: false,
        null_to_int: true,
        within: Some(65_536),
        above: None,
    };
    assert!(rt; globals_found(rt.alloc()) == Some(due));
    Ok(())
}
