//! The text of a program's event program.
ghost use Rattle.std.specs.Prelude.{◌≡◌, [], IfOk};
ghost use Rattle.cpc_base.specs.declared.stop.Dialect.TheVariants as D;
ghost use Rattle.cpc_tree.specs.Erase.{program_of};
ghost use Rattle.cpc_tree.specs.Locate.{located};
ghost use Rattle.cpc_printer.specs.Style.{IsPrint};
ghost use Rattle.cpc_check_rules.specs.Rules.{breaks};
ghost use Rattle.cpc_check.specs.Accepted.{IsRead, IsWithin};
ghost use Rattle.cpc_chains_event.specs.Converted as E;
ghost use Rattle.cpc_eval_index.specs.Indexed.{program_items};
ghost use Rattle.cpc_forms_code.specs.Programs.{IsSpeakable};

use crate::passes::boxed_text;
use cpc_base::NoMemory;
use cpc_box::boxed;
use cpc_check::are_distinct;
use cpc_eval_index::Index;
use cpc_tree::program::Program;
use std::alloc::Global;

// There are texts that tell the names of a program that is accepted.
fn is_speakable(source: &Program)
    requires read { IsRead D.Cpc (located source.now) }
    requires within { IsWithin source.now }
    ensures { IsSpeakable source.now }
{
    are_distinct(&source.names);
}

/// The text of the event program of a program, by its index: its variables become registers or boxes, its cps functions graphs, split where threads may
/// begin to run, and each owner keeps what it needs; of that come frames and pieces. `NoMemory` is want of memory.
pub(crate) fn event_text(
    alloc: Global,
    source: &Program,
    index: Index<'_>,
) -> Result<Vec<u8>, NoMemory>
    requires read { IsRead D.Cpc (located source.now) }
    requires unbroken { breaks D.Cpc (located source.now) ≡ [] }
    requires within { IsWithin source.now }
    requires index { program_items index ≡ source.now.items.items }
    ensures { IfOk result (λ printed. IsPrint printed.items (E.converted (program_of source.now))) }
{
    is_speakable(source);
    let boxed = boxed(alloc, source, index)?;
    boxed_text(alloc, &boxed)
}
