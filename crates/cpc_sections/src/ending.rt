//! A section that returned.
ghost use Rattle.std.specs.Prelude.{IfOk};
ghost use Rattle.cpc_tree.specs.Erase.{Names};
ghost use Rattle.cpc_store.specs.Seen.{seen, IsLawful};
ghost use Rattle.cpc_meaning.specs.Section.{section_gave, copy_left};
ghost use Rattle.cpc_eval_values.specs.Shown.{value_of, store_of};
ghost use Rattle.cpc_sections.specs.Jobs.{EndsAs, IsLawfulEnd};

use crate::job::SectionEnd;
use crate::read::read_integers;
use cpc_base::{Name, NoMemory};
use cpc_num::Fault;
use cpc_store::{Block, Class, Store, Value};
use std::alloc::Global;

/// The block of the copy, which is the one static block of a section's store.
pub const COPY: Block = Block {
    class: Class::Static,
    number: 0,
};

/// The end of a section of this function that returned a value: with the cells of its copy, where it has one; or a fault, where
/// one of them holds something other than an integer. Where its copy is gone nothing is said.
///
/// `NoMemory` is want of memory.
pub fn ended(
    alloc: Global,
    store: &Store,
    function: Name,
    no_copy: bool,
    value: Value,
) -> Result<SectionEnd, NoMemory>
    requires { IsLawful (seen value) }
    ensures end { IfOk result (λ end. (names : Names) → EndsAs names end (section_gave (names function) (value_of names value) (copy_left no_copy (store_of names store.now)))) }
    ensures lawful { IfOk result (λ end. IsLawfulEnd end) }
{
    if no_copy {
        return Ok(SectionEnd::Gave(value, Vec::new(alloc)));
    }
    match read_integers(alloc, store, COPY)? {
        Some(cells) => Ok(SectionEnd::Gave(value, cells)),
        None => Ok(SectionEnd::Faulted(Fault::Kind, function)),
    }
}
