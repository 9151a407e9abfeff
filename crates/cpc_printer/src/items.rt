//! The parts of a program (C11 6.9), a declaration for each.
ghost use Rattle.std.specs.Prelude.{◌≡◌, [], ◌∷◌, ◌++◌, OnOk, map};
ghost use Rattle.cpc_tree.specs.Erase.{Names, text_of, type_of, stmt_of, field_of, parameter_of, function_of, item_of};
ghost use Rattle.cpc_tree.specs.Tokens.{Word, Mark, Named};
ghost use Rattle.cpc_tree.specs.TypePrint.{params_row};
ghost use Rattle.cpc_tree.specs.ItemPrint.{mode_row, fields_row, head_row, body_row, item_row, program_row};
ghost use Rattle.cpc_tree.specs.declared.token.Keyword.TheVariants as K;
ghost use Rattle.cpc_tree.specs.declared.token.Punctuator.TheVariants as P;
ghost use Rattle.cpc_printer_layout.specs.Sheets.{row_of};
ghost use Rattle.cpc_printer.specs.Items.{function_row, field_row};

use crate::statements::{block, local};
use crate::types::{base, parameters, stars, variable};
use cpc_base::{Name, NoMemory};
use cpc_printer_layout::Sheet;
use cpc_tree::program::{CType, Field, Function, Item, Mode, Parameter, Statement};
use cpc_tree::token::{Keyword, Punctuator};
use std::alloc::Global;

/// The items of a program, with an empty line round structs and functions.
#[tactic(auto, using(std::proofs::lemmas::Grind::common_steps, crate::proofs::ItemRows::program_none, crate::proofs::ItemRows::program_some))]
pub(crate) fn items(out: &mut Sheet, alloc: Global, list: &[Item]) -> Result<(), NoMemory>
    ensures row { OnOk result ((names : Names) → row_of names out.new ≡ row_of names out.old ++ program_row out.old.is_tight (map (item_of names) list.now)) }
    ensures style { out.new.is_tight ≡ out.old.is_tight }
{
    match list.split_first() {
        None => Ok(()),
        Some((first, rest)) => {
            item(out, alloc, first)?;
            further_items(out, alloc, has_body(first), rest)
        }
    }
}

/// Further items, behind one that is long or not.
#[tactic(auto, using(std::proofs::lemmas::Grind::common_steps, crate::proofs::ItemRows::program_end, crate::proofs::ItemRows::program_more))]
fn further_items(
    out: &mut Sheet,
    alloc: Global,
    mut is_long: bool,
    rest: &[Item],
) -> Result<(), NoMemory>
    ensures row { OnOk result ((names : Names) → row_of names out.new ≡ row_of names out.old ++ program_row out.old.is_tight (map (item_of names) rest.now)) }
    ensures style { out.new.is_tight ≡ out.old.is_tight }
{
    for next in rest {
        let is_next_long = has_body(next);
        set_apart(out, is_long || is_next_long);
        item(out, alloc, next)?;
        is_long = is_next_long;
    }
    Ok(())
}

/// The lines between two items.
fn set_apart(out: &mut Sheet, is_far: bool)
    ensures row { (names : Names) → row_of names out.new ≡ row_of names out.old }
    ensures style { out.new.is_tight ≡ out.old.is_tight }
{
    if is_far {
        out.paragraph();
    } else {
        out.line();
    }
}

fn has_body(item: &Item) -> bool {
    matches!(item, Item::Struct { .. } | Item::Function(_))
}

/// An item on lines of its own.
#[tactic(auto, using(std::proofs::lemmas::Grind::common_steps, crate::proofs::ItemRows::item_struct, crate::proofs::ItemRows::item_global, crate::proofs::ItemRows::item_prototype, crate::proofs::ItemRows::item_function))]
fn item(out: &mut Sheet, alloc: Global, item: &Item) -> Result<(), NoMemory>
    ensures row { OnOk result ((names : Names) → row_of names out.new ≡ row_of names out.old ++ item_row out.old.is_tight (item_of names item.now)) }
    ensures style { out.new.is_tight ≡ out.old.is_tight }
{
    match item {
        Item::Struct { tag, fields } => structure(out, tag.name, fields),
        Item::Global { word, of, start } => {
            base(out, of)?;
            local(out, alloc, word.name, of, start)?;
            out.mark(Punctuator::Semicolon)
        }
        Item::Prototype {
            mode,
            word,
            result: given,
            parameters,
            ..
        } => {
            mode_word(out, *mode)?;
            head(out, word.name, given, parameters)?;
            out.mark(Punctuator::Semicolon)
        }
        Item::Function(function) => defined(out, alloc, function),
    }
}

/// A struct.
fn structure(out: &mut Sheet, tag: Name, list: &[Field]) -> Result<(), NoMemory>
    ensures row { OnOk result ((names : Names) → row_of names out.new ≡ row_of names out.old ++ Word K.Struct ∷ Named (text_of names tag) ∷ Mark P.LeftBrace ∷ (fields_row out.old.is_tight (map (field_of names) list.now) ++ Mark P.RightBrace ∷ Mark P.Semicolon ∷ [])) }
    ensures style { out.new.is_tight ≡ out.old.is_tight }
{
    tag_head(out, tag)?;
    out.set_in();
    fields(out, list)?;
    out.set_out();
    out.line();
    out.mark(Punctuator::RightBrace)?;
    out.mark(Punctuator::Semicolon)
}

/// A struct's tag, from its word to its brace.
fn tag_head(out: &mut Sheet, tag: Name) -> Result<(), NoMemory>
    ensures row { OnOk result ((names : Names) → row_of names out.new ≡ row_of names out.old ++ Word K.Struct ∷ Named (text_of names tag) ∷ Mark P.LeftBrace ∷ []) }
    ensures style { out.new.is_tight ≡ out.old.is_tight }
{
    out.word(Keyword::Struct)?;
    out.blank();
    out.name(tag)?;
    out.blank();
    out.mark(Punctuator::LeftBrace)
}

/// The fields of a struct, each on a line of its own.
#[tactic(auto, using(std::proofs::lemmas::Grind::common_steps, crate::proofs::ItemRows::fields_end, crate::proofs::ItemRows::fields_more))]
fn fields(out: &mut Sheet, list: &[Field]) -> Result<(), NoMemory>
    ensures row { OnOk result ((names : Names) → row_of names out.new ≡ row_of names out.old ++ fields_row out.old.is_tight (map (field_of names) list.now)) }
    ensures style { out.new.is_tight ≡ out.old.is_tight }
{
    for of in list {
        field(out, of)?;
    }
    Ok(())
}

/// A field on a line of its own.
fn field(out: &mut Sheet, field: &Field) -> Result<(), NoMemory>
    ensures row { OnOk result ((names : Names) → row_of names out.new ≡ row_of names out.old ++ field_row out.old.is_tight (field_of names field.now)) }
    ensures style { out.new.is_tight ≡ out.old.is_tight }
{
    out.line();
    base(out, &field.of)?;
    variable(out, field.word.name, &field.of)?;
    out.mark(Punctuator::Semicolon)
}

/// A function with its body.
fn defined(out: &mut Sheet, alloc: Global, function: &Function) -> Result<(), NoMemory>
    ensures row { OnOk result ((names : Names) → row_of names out.new ≡ row_of names out.old ++ function_row out.old.is_tight (function_of names function.now)) }
    ensures style { out.new.is_tight ≡ out.old.is_tight }
{
    mode_word(out, function.mode)?;
    head(
        out,
        function.word.name,
        &function.result,
        &function.parameters,
    )?;
    out.line();
    function_body(out, alloc, &function.body)
}

/// The body of a function, which is a block.
fn function_body(out: &mut Sheet, alloc: Global, body: &Statement) -> Result<(), NoMemory>
    ensures row { OnOk result ((names : Names) → row_of names out.new ≡ row_of names out.old ++ body_row out.old.is_tight (stmt_of names body.now)) }
    ensures style { out.new.is_tight ≡ out.old.is_tight }
{
    match body {
        Statement::Block { inner, .. } => block(out, alloc, inner),
        _ => Ok(()),
    }
}

/// The head of a function behind how it runs: its result, its name and its parameters.
fn head(out: &mut Sheet, name: Name, given: &CType, list: &[Parameter]) -> Result<(), NoMemory>
    ensures row { OnOk result ((names : Names) → row_of names out.new ≡ row_of names out.old ++ head_row out.old.is_tight (text_of names name) (type_of names given.now) (map (parameter_of names) list.now)) }
    ensures style { out.new.is_tight ≡ out.old.is_tight }
{
    base(out, given)?;
    out.blank();
    stars(out, given)?;
    out.name(name)?;
    bracketed_parameters(out, list)
}

/// The parameters of a function in their brackets.
fn bracketed_parameters(out: &mut Sheet, list: &[Parameter]) -> Result<(), NoMemory>
    ensures row { OnOk result ((names : Names) → row_of names out.new ≡ row_of names out.old ++ Mark P.LeftParen ∷ (params_row out.old.is_tight (map (parameter_of names) list.now) ++ Mark P.RightParen ∷ [])) }
    ensures style { out.new.is_tight ≡ out.old.is_tight }
{
    out.mark(Punctuator::LeftParen)?;
    parameters(out, list)?;
    out.mark(Punctuator::RightParen)
}

/// How a function runs.
fn mode_word(out: &mut Sheet, mode: Mode) -> Result<(), NoMemory>
    ensures row { OnOk result ((names : Names) → row_of names out.new ≡ row_of names out.old ++ mode_row mode) }
    ensures style { out.new.is_tight ≡ out.old.is_tight }
{
    match mode {
        Mode::Native => Ok(()),
        Mode::Extern => spaced(out, Keyword::Extern),
        Mode::Cps => spaced(out, Keyword::Cps),
        Mode::Detached => spaced(out, Keyword::Detached),
    }
}

/// A keyword and a blank.
fn spaced(out: &mut Sheet, word: Keyword) -> Result<(), NoMemory>
    ensures row { OnOk result ((names : Names) → row_of names out.new ≡ row_of names out.old ++ Word word ∷ []) }
    ensures style { out.new.is_tight ≡ out.old.is_tight }
{
    out.word(word)?;
    out.blank();
    Ok(())
}
