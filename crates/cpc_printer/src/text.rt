//! The text of a program.
ghost use Rattle.std.specs.Prelude.{◌<◌, IfOk, All};
ghost use Rattle.cpc_base.specs.Bytes.{Text};
ghost use Rattle.cpc_base.specs.declared.stop.Dialect.{Dialect};
ghost use Rattle.cpc_tree.specs.Erase.{program_of};
ghost use Rattle.cpc_tree.specs.Grammar.{Parses};
ghost use Rattle.cpc_tree.specs.Locate.{located};
ghost use Rattle.cpc_printer.specs.Style.{IsPrint, ReadsBack};

use crate::items::items;
use crate::nesting::fits;
use cpc_base::NoMemory;
use cpc_printer_layout::{Sheet, text};
use cpc_tree::program::Program;
use std::alloc::Global;

/// How deep a text may nest that is read again.
const DEEPEST: u32 = 256;

/// The text of a program as C, which is cut and read as an equal program where some text is read as this one (`back`).
///
/// Each declaration has a line of its own, and blocks are set in by four blanks. No parenthesis in it can be dropped.
/// Where it would nest too deep to be read, the outermost pointers of parameters are written as arrays.
///
/// # Errors
///
/// `NoMemory` for want of memory.
pub fn print(alloc: Global, program: &Program) -> Result<Vec<u8>, NoMemory>
    // The text is that of the program's tokens, in its style.
    ensures row { IfOk result (λ bytes. IsPrint bytes.items (program_of program.now)) }
    // Of a program that a text is read as, the print is read as an equal program, in the same dialect.
    ensures back { IfOk result (λ bytes. (dialect : Dialect) (text : Text) → All (λ b. b < 256) text → Parses dialect text (located program.now) → ReadsBack dialect bytes.items (program_of program.now)) }
{
    let mut sheet = Sheet::new(alloc, !fits(program, DEEPEST));
    items(&mut sheet, alloc, &program.items)?;
    text(alloc, &program.names, &sheet)
}
