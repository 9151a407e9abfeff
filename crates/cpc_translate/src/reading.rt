//! A text as a program that breaks no rule.
ghost use Rattle.std.specs.Prelude.{◌≡◌, ◌≢◌, ◌<◌, All, IfOk, Err};
ghost use Rattle.cpc_base.specs.declared.stop.Stop.TheVariants.{Fault};
ghost use Rattle.cpc_tree.specs.Erase.{program_of};
ghost use Rattle.cpc_tree.specs.Grammar.{Parses};
ghost use Rattle.cpc_tree.specs.Locate.{located};
ghost use Rattle.cpc_tree.specs.Located.{LProgram, bare};
ghost use Rattle.cpc_check.specs.Accepted.{Accepts, IsWithin};
ghost use Rattle.cpc_translate.specs.Refusals.{IsTextFault, uncut_as, unread_as};
ghost use Rattle.cpc_check_rules.specs.declared.first.Breach.{Breach};
ghost use Rattle.cpc_translate.specs.declared.fault.TextFault.{TextFault};
ghost use Rattle.cpc_translate.specs.declared.fault.TextFault.TheVariants.{Check};

use crate::fault::TextFault;
use cpc_base::{Dialect, Names, NoMemory, Stop, are_bytes};
use cpc_check::{Checked, check};
use cpc_lexer::{LexFault, end_of_text, tokens};
use cpc_parser::parse;
use cpc_parser_types::ParseFault;
use cpc_tree::program::Program;
use std::alloc::Global;

// The refusal of a text that is not cut.
fn uncut(stop: Stop<LexFault>) -> Stop<TextFault>
    ensures { result ≡ uncut_as stop }
{
    match stop {
        Stop::Memory => Stop::Memory,
        Stop::Fault(fault) => Stop::Fault(TextFault::Lex(fault)),
    }
}

// The refusal of a text whose tokens are no program.
fn unread(stop: Stop<ParseFault>) -> Stop<TextFault>
    ensures { result ≡ unread_as stop }
{
    match stop {
        Stop::Memory => Stop::Memory,
        Stop::Fault(fault) => Stop::Fault(TextFault::Parse(fault)),
    }
}

/// A text as a program, whatever rules it breaks.
pub(crate) fn parsed(
    alloc: Global,
    text: &[u8],
    dialect: Dialect,
) -> Result<Program, Stop<TextFault>>
    ensures program { IfOk result (λ p. Parses dialect text.now (located p)) }
    ensures within { IfOk result (λ p. IsWithin p) }
    ensures refused { (fault : TextFault) → result ≡ Err (Fault fault) → IsTextFault dialect text.now fault }
    // It is refused for no rule.
    ensures ruled { (breach : Breach) → result ≢ Err (Fault (Check breach)) }
{
    let mut names = Names::new(alloc);
    let tokens = match tokens(alloc, text, dialect, &mut names) {
        Ok(tokens) => tokens,
        Err(stop) => return Err(uncut(stop)),
    };
    match parse(alloc, tokens.as_slice(), end_of_text(text), dialect, names) {
        Ok(program) => Ok(program),
        Err(stop) => Err(unread(stop)),
    }
}

/// The program of a text, which breaks no rule of the dialect.
///
/// # Errors
///
/// `Stop::Fault` with the fault of the text: that of its cut into tokens where there is one, else that of its grammar, else
/// the first rule that is broken. `Stop::Memory` for want of memory.
pub fn read(alloc: Global, text: &[u8], dialect: Dialect) -> Result<Checked, Stop<TextFault>>
    ensures accepted { IfOk result (λ c. Accepts dialect text.now (located c.program)) }
    ensures dialect { IfOk result (λ c. c.dialect ≡ dialect) }
    ensures within { IfOk result (λ c. IsWithin c.program) }
    ensures refused { (fault : TextFault) → result ≡ Err (Fault fault) → IsTextFault dialect text.now fault }
    ensures bytes { All (λ b. b < 256) text.now }
{
    are_bytes(text);
    let program = parsed(alloc, text, dialect)?;
    match check(alloc, program, dialect) {
        Ok(checked) => Ok(checked),
        Err((_, Stop::Memory)) => Err(Stop::Memory),
        Err((_, Stop::Fault(breach))) => Err(Stop::Fault(TextFault::Check(breach))),
    }
}

/// The program of a text, of which it is known that it is accepted. `NoMemory` is want of memory.
pub(crate) fn read_again(alloc: Global, text: &[u8], dialect: Dialect) -> Result<Checked, NoMemory>
    requires { (p : LProgram) × Accepts dialect text.now p }
    ensures accepted { IfOk result (λ c. Accepts dialect text.now (located c.program)) }
    ensures dialect { IfOk result (λ c. c.dialect ≡ dialect) }
    ensures within { IfOk result (λ c. IsWithin c.program) }
    ensures equal { (p : LProgram) → Accepts dialect text.now p → IfOk result (λ c. program_of c.program ≡ bare p) }
{
    match read(alloc, text, dialect) {
        Ok(checked) => Ok(checked),
        Err(Stop::Memory) => Err(NoMemory),
        Err(Stop::Fault(_)) => unreachable!(),
    }
}
