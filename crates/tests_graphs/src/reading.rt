//! A text as a program that breaks no rule.
ghost use Rattle.std.specs.Prelude.{◌<◌, IfOk};
ghost use Rattle.cpc_base.specs.declared.stop.Dialect.TheVariants as D;
ghost use Rattle.cpc_tree.specs.Grammar.{Parses};
ghost use Rattle.cpc_tree.specs.Locate.{located};
ghost use Rattle.cpc_check.specs.Accepted.{IsWithin};

use cpc_base::{Dialect, Names, Place, Stop, are_bytes};
use cpc_check::{Checked, check};
use cpc_lexer::{end_of_text, tokens};
use cpc_parser::parse;
use cpc_tree::program::Program;
use std::alloc::Global;

// A text as a program, whatever rules it breaks; or the place of its fault.
fn parsed(alloc: Global, text: &[u8]) -> Result<Program, Stop<Place>>
    ensures program { IfOk result (λ p. Parses D.Cpc text.now (located p)) }
    ensures within { IfOk result (λ p. IsWithin p) }
{
    let mut names = Names::new(alloc);
    let tokens = match tokens(alloc, text, Dialect::Cpc, &mut names) {
        Ok(tokens) => tokens,
        Err(Stop::Memory) => return Err(Stop::Memory),
        Err(Stop::Fault(fault)) => return Err(Stop::Fault(fault.place)),
    };
    match parse(
        alloc,
        tokens.as_slice(),
        end_of_text(text),
        Dialect::Cpc,
        names,
    ) {
        Ok(program) => Ok(program),
        Err(Stop::Memory) => Err(Stop::Memory),
        Err(Stop::Fault(fault)) => Err(Stop::Fault(fault.place)),
    }
}

/// The program of a text.
///
/// # Errors
///
/// `Stop::Fault` with the place of the first fault or broken rule, `Stop::Memory` for want of memory.
pub(crate) fn read(alloc: Global, text: &[u8]) -> Result<Checked, Stop<Place>> {
    are_bytes(text);
    let program = parsed(alloc, text)?;
    match check(alloc, program, Dialect::Cpc) {
        Ok(checked) => Ok(checked),
        Err((_, Stop::Memory)) => Err(Stop::Memory),
        Err((_, Stop::Fault(breach))) => Err(Stop::Fault(breach.place)),
    }
}
