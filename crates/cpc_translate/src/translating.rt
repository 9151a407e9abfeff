//! A text as a program, and as the event program that is printed of it.
ghost use Rattle.std.specs.Prelude.{◌≡◌, IfOk, Err};
ghost use Rattle.cpc_base.specs.declared.stop.Dialect.TheVariants as D;
ghost use Rattle.cpc_base.specs.declared.stop.Stop.TheVariants.{Fault};
ghost use Rattle.cpc_tree.specs.Erase.{program_of};
ghost use Rattle.cpc_tree.specs.Locate.{located};
ghost use Rattle.cpc_meaning.specs.Runs.{SameRuns, Within};
ghost use Rattle.cpc_printer.specs.Style.{IsPrint};
ghost use Rattle.cpc_check.specs.Accepted.{Accepts};
ghost use Rattle.cpc_chains_event.specs.Converted.{converted};
ghost use Rattle.cpc_chains_laws.specs.Shape.Shape.{Shape};
ghost use Rattle.cpc_chains_laws.specs.Leak.Laws.{NoLeak};
ghost use Rattle.cpc_translate.specs.Refusals.{IsTextFault};
ghost use Rattle.cpc_translate.specs.declared.fault.TextFault.{TextFault};

use crate::events::event_text;
use crate::fault::TextFault;
use crate::reading::{read, read_again};
use cpc_base::{Dialect, NoMemory, Stop};
use cpc_chains_laws::{converted_has_the_same_runs, converted_rests_with_held_frames};
use cpc_check::Checked;
use std::alloc::Global;

/// A program, the text that is printed of its event program, and the program that this is read as.
#[derive(Drop)]
pub struct Translated {
    /// The program of the text.
    pub source: Checked,
    /// What is printed of its event program.
    pub printed: Vec<u8>,
    /// The event program that this is read as.
    pub read_back: Checked,
}

/// The translation of a text of the dialect Cpc: an event program that has the same runs, within the cost, and the shape: native
/// functions and globals stay, and each cps function becomes its spawner, and one function for its start and for each point where
/// a thread of it may begin to run again, or to which two ways lead in its text. Wherever nothing runs in it, it holds no more frames,
/// and no more live cells, than the threads need in the state that they are in then, by the cost of their steps.
///
/// # Errors
///
/// `Stop::Fault` with the fault of a text that is not accepted. `Stop::Memory` for want of memory.
pub fn translate(alloc: Global, text: &[u8]) -> Result<Translated, Stop<TextFault>>
    ensures source { IfOk result (λ t. Accepts D.Cpc text.now (located t.source.program)) }
    ensures printed { IfOk result (λ t. Accepts D.Event t.printed.items (located t.read_back.program)) }
    // It is a row of the tokens that the printer writes of that program, with nothing but blanks between them.
    ensures print { IfOk result (λ t. IsPrint t.printed.items (program_of t.read_back.program)) }
    ensures dialects { IfOk result (λ t. (t.source.dialect ≡ D.Cpc) × (t.read_back.dialect ≡ D.Event)) }
    ensures equal { IfOk result (λ t. program_of t.read_back.program ≡ converted (program_of t.source.program)) }
    ensures same { IfOk result (λ t. SameRuns (program_of t.source.program) (program_of t.read_back.program)) }
    ensures within { IfOk result (λ t. Within (program_of t.source.program) (program_of t.read_back.program)) }
    ensures shape { IfOk result (λ t. Shape (program_of t.source.program) (program_of t.read_back.program)) }
    ensures no_leak { IfOk result (λ t. NoLeak (program_of t.source.program) (program_of t.read_back.program)) }
    ensures refused { (fault : TextFault) → result ≡ Err (Fault fault) → IsTextFault D.Cpc text.now fault }
{
    converted_has_the_same_runs();
    converted_rests_with_held_frames();
    let source = read(alloc, text, Dialect::Cpc)?;
    let printed = match event_text(alloc, &source.program, source.index()) {
        Ok(printed) => printed,
        Err(NoMemory) => return Err(Stop::Memory),
    };
    match read_again(alloc, printed.as_slice(), Dialect::Event) {
        Ok(read_back) => Ok(Translated {
            source,
            printed,
            read_back,
        }),
        Err(NoMemory) => Err(Stop::Memory),
    }
}
