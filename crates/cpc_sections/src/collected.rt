//! Sections that are over, with the cells that go back.
ghost use Rattle.std.specs.Prelude.{◌≡◌};
ghost use Rattle.cpc_tree.specs.Erase.{Names};
ghost use Rattle.cpc_store.specs.Store as S;
ghost use Rattle.cpc_meaning.specs.Copies as C;
ghost use Rattle.cpc_eval_values.specs.Shown.{store_of};
ghost use Rattle.cpc_sections.specs.Jobs.{job_of, end_of};
ghost use Rattle.cpc_sections.specs.Backs.{one_collected, IsLawfulFinished};

use crate::back::write_to;
use crate::job::{Job, SectionEnd};
use cpc_base::Name;
use cpc_num::Fault;
use cpc_store::{Store, Value};

/// A section with its end.
#[derive(Drop)]
pub struct Finished {
    pub job: Job,
    pub end: SectionEnd,
}

/// What sections came to together.
#[derive(Drop)]
pub enum Collected {
    /// The values of all, in the order in which they were told.
    AllGave(Vec<Value>),
    /// The fault that comes first in that order, in the function of this name.
    OneFailed(Fault, Name),
}

/// The value of a section, whose cells go back; or its fault, or that of the cells, with the function in which it came.
pub fn collect_one(store: &mut Store, finished: &Finished) -> Result<Value, (Fault, Name)>
    requires { IsLawfulFinished finished.now }
    ensures { (names : Names) (rest : S.Store → C.Collected) → C.collected rest (job_of names finished.now.job) (store_of names store.old) (end_of names finished.now.end) ≡ one_collected names rest (store_of names store.new) result }
{
    match &finished.end {
        SectionEnd::Gave(value, cells) => match write_to(finished.job.pointer, cells, store) {
            Ok(()) => Ok(*value),
            Err(fault) => Err((fault, finished.job.function)),
        },
        SectionEnd::Faulted(fault, function) => Err((*fault, *function)),
    }
}
