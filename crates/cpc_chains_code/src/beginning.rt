//! The `main` of an event program.
ghost use Rattle.std.specs.Prelude.{◌≡◌, ◌++◌, bytes_eq, option_map, OnOk};
ghost use Rattle.cpc_tree.specs.Erase as E;
ghost use Rattle.cpc_tree.specs.Erase.{in_table};
ghost use Rattle.cpc_tree.specs.Syntax as S;
ghost use Rattle.cpc_tree.specs.Typing.{function_named};
ghost use Rattle.cpc_meaning.specs.Start.{main_name};
ghost use Rattle.cpc_meaning.specs.Threads.{is_cps};
ghost use Rattle.cpc_chains_event.specs.Converted.{main_if};
ghost use Rattle.cpc_convert_names.specs.Called.{name_in};
ghost use Rattle.cpc_convert_names.specs.Book.{find};
ghost use Rattle.cpc_chains_items.specs.Listed.{listed};
ghost use Rattle.cpc_chains_code.specs.Given.{AreGiven};

use crate::parts::around;
use cpc_base::{Names, NoMemory};
use cpc_chains_items::Items;
use cpc_convert_names::{Book, Called};
use cpc_tree::names::is_main as is_named_main;
use std::alloc::Global;

// Whether a function is `main`.
fn is_main(texts: &Names, called: &Called<'_>) -> bool
    ensures { result ≡ bytes_eq (name_in (in_table texts.now) called.now.lifted.now) main_name }
{
    is_named_main(texts, called.function().word.name)
}

// The first cps function that is `main`.
fn main_among<'b, 'a>(texts: &Names, functions: &'b [Called<'a>]) -> Option<&'b Called<'a>>
    ensures { option_map (λ c. c.now) result ≡ find (in_table texts.now) functions.now main_name }
{
    for called in functions {
        if is_main(texts, called) {
            return Some(called);
        }
    }
    None
}

/// `main`, where that of the source is a cps function. `NoMemory` is want of memory.
pub(crate) fn add_main<'a>(
    alloc: Global,
    items: &mut Items,
    texts: &'a Names,
    book: &'a Book<'a>,
) -> Result<(), NoMemory>
    ensures { OnOk result ((from to : E.Names) (p : S.Program) → AreGiven texts.now from to p book.now
        → listed to items.new ≡ listed to items.old ++ main_if (is_cps (function_named p main_name))) }
{
    match main_among(texts, &book.functions) {
        Some(called) => {
            items.main(alloc, around(texts, book, called))?;
            Ok(())
        }
        None => Ok(()),
    }
}
