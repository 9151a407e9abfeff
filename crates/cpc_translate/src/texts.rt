//! What a text is, told without its program.
ghost use Rattle.std.specs.Prelude.{◌≡◌, ◌≢◌, IfOk, OnOk, Err};
ghost use Rattle.cpc_base.specs.declared.stop.Stop.TheVariants.{Fault};
ghost use Rattle.cpc_tree.specs.Erase.{program_of};
ghost use Rattle.cpc_tree.specs.Grammar.{Parses};
ghost use Rattle.cpc_tree.specs.Locate.{located};
ghost use Rattle.cpc_tree.specs.declared.program.Program.{Program};
ghost use Rattle.cpc_printer.specs.Style.{IsPrint};
ghost use Rattle.cpc_check.specs.Accepted.{Accepts};
ghost use Rattle.cpc_translate.specs.Refusals.{IsTextFault};
ghost use Rattle.cpc_check_rules.specs.declared.first.Breach.{Breach};
ghost use Rattle.cpc_translate.specs.declared.fault.TextFault.{TextFault};
ghost use Rattle.cpc_translate.specs.declared.fault.TextFault.TheVariants.{Check};

use crate::fault::TextFault;
use crate::reading::{parsed, read};
use cpc_base::{Dialect, NoMemory, Stop};
use cpc_printer::print;
use std::alloc::Global;

/// Whether a text is a program of the dialect that breaks no rule. Nothing of it is kept.
///
/// # Errors
///
/// `Stop::Fault` with the fault of the text, `Stop::Memory` for want of memory, as `read` has them.
pub fn accept(alloc: Global, text: &[u8], dialect: Dialect) -> Result<(), Stop<TextFault>>
    ensures accepted { OnOk result ((p : Program) × Accepts dialect text.now (located p)) }
    ensures refused { (fault : TextFault) → result ≡ Err (Fault fault) → IsTextFault dialect text.now fault }
{
    let checked = read(alloc, text, dialect)?;
    drop(checked);
    Ok(())
}

/// A text once more, as the printer lays its program out, whatever rules that breaks.
///
/// # Errors
///
/// `Stop::Fault` with the fault of a text that is not cut into tokens, or whose tokens are no program of the dialect.
/// `Stop::Memory` for want of memory.
pub fn laid_out(alloc: Global, text: &[u8], dialect: Dialect) -> Result<Vec<u8>, Stop<TextFault>>
    ensures printed { IfOk result (λ bytes. (p : Program) × (Parses dialect text.now (located p) × IsPrint bytes.items (program_of p))) }
    ensures refused { (fault : TextFault) → result ≡ Err (Fault fault) → IsTextFault dialect text.now fault }
    // It is refused for no rule.
    ensures ruled { (breach : Breach) → result ≢ Err (Fault (Check breach)) }
{
    let program = parsed(alloc, text, dialect)?;
    match print(alloc, &program) {
        Ok(bytes) => Ok(bytes),
        Err(NoMemory) => Err(Stop::Memory),
    }
}
