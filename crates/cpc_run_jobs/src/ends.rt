//! Sections that a poll tells: the end of each is asked for, and its cells go back.
ghost use Rattle.std.specs.Prelude.{◌≡◌, ℕ, ◌∷◌, List, Some, IsSome, IfOk, map};
ghost use Rattle.cpc_base.specs.declared.poll.Event.{Event};
ghost use Rattle.cpc_tree.specs.Erase.{Names, item_of};
ghost use Rattle.cpc_tree.specs.declared.program.Program.{Program};
ghost use Rattle.cpc_meaning.specs.Agenda as A;
ghost use Rattle.cpc_meaning.specs.Copies as C;
ghost use Rattle.cpc_meaning.specs.Section as M;
ghost use Rattle.cpc_meaning.specs.Trees.{trees};
ghost use Rattle.cpc_eval_values.specs.Shown.{values_of, store_of};
ghost use Rattle.cpc_run_sections.specs.Runs.{Runs};
ghost use Rattle.cpc_sections.specs.Backs.{CollectsAs, collected_of};
ghost use Rattle.cpc_run_jobs.specs.Held.{AreHeld, IfAllGave, are_out, left_out};
ghost use Rattle.cpc_run_jobs.specs.Telling.{Reached, ReachedNext};

use crate::out::Out;
use cpc_base::{Event, Name, NoMemory};
use cpc_num::Fault;
use cpc_run_sections::Sections;
use cpc_sections::{Collected, Finished, collect_one};
use cpc_store::{Store, Value};
use std::alloc::Global;

// An event is told. The section that it names is taken out, its cells go back once it is over, and its value is put behind the
// others; or its fault is handed out, or that of the cells, with the function in which it came.
fn told<S: Sections>(
    out: &mut Out,
    event: Event,
    store: &mut Store,
    values: &mut Vec<Value>,
    sections: &mut S,
) -> Result<Option<(Fault, Name)>, NoMemory>
    requires { IsSome S.program }
    ensures { IfOk result (λ failed. (p : Program) → S.program ≡ Some p → let items = p.items.items in (names : Names) → Runs names p.names (map (item_of names) items)
        → (jobs : List M.Job) (made : ℕ) (whole : C.Collected) (last : List ℕ) (rest : List Event)
        → Reached names (trees (map (item_of names) items)) S.bound jobs made whole last out.old (values_of names values.old.items) (store_of names store.old) (event ∷ rest)
        → ReachedNext names failed whole (Reached names (trees (map (item_of names) items)) S.bound jobs made whole last out.new (values_of names values.new.items) (store_of names store.new) rest)) }
{
    let Event::Done(number) = event else {
        return Ok(None);
    };
    let Some(job) = out.take(number) else {
        return Ok(None);
    };
    let end = sections.finish(&job)?;
    match collect_one(store, &Finished { job, end }) {
        Ok(value) => {
            values.push(value)?;
            Ok(None)
        }
        Err(failed) => Ok(Some(failed)),
    }
}

/// What the sections come to that these events name, each of which is taken out: their values, once the cells of each went back; or
/// the first fault, of a section, or of the cells that it gave back. What an event names that is not out is passed over.
///
/// `NoMemory` is want of memory, of whoever ran a section too.
pub(crate) fn all_told<S: Sections>(
    alloc: Global,
    out: &mut Out,
    events: &[Event],
    store: &mut Store,
    sections: &mut S,
) -> Result<Collected, NoMemory>
    requires { IsSome S.program }
    ensures collected { IfOk result (λ told. (p : Program) → S.program ≡ Some p → let items = p.items.items in (names : Names) → Runs names p.names (map (item_of names) items)
        → (jobs : List M.Job) (made : ℕ) (outs : List ℕ) → AreHeld names out.old jobs made outs
        → CollectsAs (collected_of names (store_of names store.new) told) (C.collect (trees (map (item_of names) items)) S.bound jobs (are_out (A.completed events.now) outs) (store_of names store.old))) }
    ensures holds { IfOk result (λ told. (p : Program) → S.program ≡ Some p → let items = p.items.items in (names : Names) → Runs names p.names (map (item_of names) items)
        → (jobs : List M.Job) (made : ℕ) (outs : List ℕ) → AreHeld names out.old jobs made outs
        → IfAllGave told (AreHeld names out.new jobs made (left_out (A.completed events.now) outs))) }
{
    let mut values = Vec::new(alloc);
    let mut rest = events;
    'events: while let Some((event, tail)) = rest.split_first() {
        if let Some((fault, function)) = told(out, *event, store, &mut values, sections)? {
            return Ok(Collected::OneFailed(fault, function));
        }
        rest = tail;
    }
    Ok(Collected::AllGave(values))
}
