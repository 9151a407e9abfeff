//! Detached sections: those that the running code submits, and those that a poll tells.
ghost use Rattle.std.specs.Prelude.{◌≡◌, ◌++◌, ◌∷◌, ◌<◌, [], length, IfOk, None, true, false};
ghost use Rattle.std.specs.List.{All};
ghost use Rattle.cpc_base.specs.Bytes.{Text};
ghost use Rattle.cpc_check_rules.specs.Apart.{Spells};
ghost use Rattle.cpc_tree.specs.Erase.{Names as Spelling};
ghost use Rattle.cpc_tree.specs.Lists.{first_or, rest_of};
ghost use Rattle.cpc_tree.specs.Primitives as R;
ghost use Rattle.cpc_history_marks.specs.Views.{told_of};
ghost use Rattle.cpc_store.specs.Seen.{seen, IsLawful};
ghost use Rattle.cpc_store.specs.Store.{Unset as NoValue};
ghost use Rattle.cpc_meaning.specs.Events.{callbacks, event_primitive};
ghost use Rattle.cpc_meaning.specs.Trees.{trees};
ghost use Rattle.cpc_agenda_turns.specs.Laws.{turned};
ghost use Rattle.cpc_agenda_turns.specs.Turns as N;
ghost use Rattle.cpc_eval_values.specs.Shown.{value_of, values_of};
ghost use Rattle.cpc_run_code.specs.NativeActsTaken.{IsAskedWith};
ghost use Rattle.cpc_run_jobs.specs.Holding.{IsAssigned};
ghost use Rattle.cpc_run_code.specs.Code.{stack_in};
ghost use Rattle.cpc_run.specs.Going.{HasCallback, IsKnownCode, KnowsSection};
ghost use Rattle.cpc_run.specs.Sections.{submitted};
ghost use Rattle.cpc_run_code.specs.Taken.{IsCode};
ghost use Rattle.cpc_run.specs.States.{States, Stands, Fits, IsSteady, GoesSteady, TurnsSteady, CountsPolls, Keeps, Did, DidTurn, Acted, settles, program_in, callback_of, lists_in, polls_in};

use crate::looped::Loop;
use crate::step::Step;
use cpc_base::{Name, Names, NoMemory, Stop};
use cpc_history_marks::Told;
use cpc_run_code::{Callback, Item, Request};
use cpc_run_jobs::Sections;
use cpc_run_shown::{Outcome, put_poll, put_section};
use cpc_sections::Collected;
use cpc_store::{Store, Value};
use std::alloc::Global;

// The first of some values, or an unset one, and those behind it.
fn parted(values: &[Value]) -> (Value, &[Value])
    requires lawful { All (λ v. IsLawful (seen v)) values.now }
    ensures first { (names : Spelling) → value_of names result.0 ≡ first_or NoValue (values_of names values.now) }
    ensures rest { (names : Spelling) → values_of names result.1.now ≡ rest_of (values_of names values.now) }
    ensures lawful_first { IsLawful (seen result.0) }
    ensures lawful_rest { All (λ v. IsLawful (seen v)) result.1.now }
{
    match values.split_first() {
        Some((first, rest)) => (*first, rest),
        None => (Value::Unset, values),
    }
}

impl<'p> Loop<'p> {
    /// A section is submitted, whose callback waits until a poll tells it.
    pub(crate) fn detaches<S: Sections>(
        &mut self,
        alloc: Global,
        table: &Names,
        request: &Request,
        sections: &mut S,
        pending: &mut Vec<u8>,
    ) -> Result<Option<Outcome>, NoMemory>
        requires steady { IsSteady self.old }
        requires running { self.old.running ≡ true }
        requires takes { IsAskedWith R.RtDetach request.now.args.items }
        requires callback { HasCallback R.RtDetach request.now.args.items }
        requires known { KnowsSection table.now request.now.args.items }
        requires lawful { All (λ v. IsLawful (seen v)) request.now.args.items }
        ensures keeps { Keeps self.old self.new }
        ensures steady { GoesSteady result self.new }
        ensures did { (names : Spelling) → Fits names self.old → Spells table.now names → (sent : Text) (s : States) → Acted names self.old request.now.function (sent ++ pending.old.items) s s
            → Did names result self.new (sent ++ pending.new.items) s (settles names self.old s (event_primitive (trees (program_in names self.old)) R.RtDetach (values_of names request.now.args.items) (stack_in names self.old.machine) s)) }
    {
        match request.args.as_slice() {
            [callback, pointer, called, arguments @ ..] => {
                let function = request.function;
                self.detaches_at(
                    alloc,
                    table,
                    (*callback, *pointer),
                    *called,
                    arguments,
                    function,
                    sections,
                    pending,
                )
            }
            _ => unreachable!(),
        }
    }

    // A section of a function with its arguments is submitted, whose callback gets a pointer.
    fn detaches_at<S: Sections>(
        &mut self,
        alloc: Global,
        table: &Names,
        callback: (Value, Value),
        called: Value,
        arguments: &[Value],
        function: Name,
        sections: &mut S,
        pending: &mut Vec<u8>,
    ) -> Result<Option<Outcome>, NoMemory>
        requires steady { IsSteady self.old }
        requires running { self.old.running ≡ true }
        requires takes { IsAskedWith R.RtDetach (callback.0 ∷ callback.1 ∷ called ∷ arguments.now) }
        requires callback { IsCode (seen callback.0) }
        requires known { IsKnownCode table.now called }
        requires pointer { IsLawful (seen callback.1) }
        requires lawful { All (λ v. IsLawful (seen v)) arguments.now }
        ensures keeps { Keeps self.old self.new }
        ensures steady { GoesSteady result self.new }
        ensures did { (names : Spelling) → Fits names self.old → Spells table.now names → (sent : Text) (s : States) → Acted names self.old function (sent ++ pending.old.items) s s
            → Did names result self.new (sent ++ pending.new.items) s (settles names self.old s (event_primitive (trees (program_in names self.old)) R.RtDetach (value_of names callback.0 ∷ value_of names callback.1 ∷ value_of names called ∷ values_of names arguments.now) (stack_in names self.old.machine) s)) }
    {
        let Value::Code(back) = callback.0 else {
            unreachable!();
        };
        let Value::Code(called) = called else {
            unreachable!();
        };
        let item = Item::With(Callback::of(back, callback.1));
        self.submits(
            alloc, table, item, called, arguments, function, sections, pending,
        )
    }

    // A section of a function is submitted, with the cells that its first argument leads to, and an item waits for it.
    fn submits<S: Sections>(
        &mut self,
        alloc: Global,
        table: &Names,
        item: Item,
        called: Name,
        arguments: &[Value],
        function: Name,
        sections: &mut S,
        pending: &mut Vec<u8>,
    ) -> Result<Option<Outcome>, NoMemory>
        requires steady { IsSteady self.old }
        requires running { self.old.running ≡ true }
        requires known { called.0 < length table.now }
        requires lawful { All (λ v. IsLawful (seen v)) arguments.now }
        ensures keeps { Keeps self.old self.new }
        ensures steady { GoesSteady result self.new }
        ensures did { (names : Spelling) → Fits names self.old → Spells table.now names → (sent : Text) (s : States) → Acted names self.old function (sent ++ pending.old.items) s s
            → Did names result self.new (sent ++ pending.new.items) s (settles names self.old s (submitted (trees (program_in names self.old)) (names called) (values_of names arguments.now) (callback_of names item) (stack_in names self.old.machine) s)) }
    {
        let Some(text) = table.text(called) else {
            unreachable!();
        };
        if !self.turns.agenda.has_numbers() {
            return Err(NoMemory);
        }
        let number = match self.turns.agenda.section(item) {
            Ok(number) => number,
            Err((_, Stop::Fault(fault))) => return Ok(Some(Outcome::Failed(fault, function))),
            Err((_, Stop::Memory)) => return Err(NoMemory),
        };
        let (pointer, others) = parted(arguments);
        let store = self.machine.store();
        match self
            .jobs
            .submit(alloc, number, called, pointer, others, store, sections)
        {
            Ok(()) => {
                put_section(self.trace, alloc, number, text, pending)?;
                self.reply(alloc, function, Value::Unset)
            }
            Err(Stop::Fault(fault)) => Ok(Some(Outcome::Failed(fault, function))),
            Err(Stop::Memory) => Err(NoMemory),
        }
    }

    /// The next poll is taken, once the sections that it tells have run, each on its own copy; or one of them failed. Those that are
    /// not over are waited for. What goes out for the poll is put behind `pending`.
    pub(crate) fn polls<S: Sections>(
        &mut self,
        alloc: Global,
        told: &Told,
        sections: &mut S,
        pending: &mut Vec<u8>,
    ) -> Result<Step, NoMemory>
        requires steady { IsSteady self.old }
        requires idle { self.old.running ≡ false }
        requires assigned { IsAssigned S.program S.bound self.old.jobs }
        requires round { (names : Spelling) → (lists_in names self.old).round ≡ [] }
        requires wants { (names : Spelling) → N.WantsPoll (told_of told.now) (lists_in names self.old) (polls_in self.old) }
        ensures keeps { Keeps self.old self.new }
        ensures steady { TurnsSteady result self.new }
        ensures polls { IfOk result (λ r. CountsPolls r self.old) }
        ensures did { (names : Spelling) → Fits names self.old → (sent : Text) (s : States) → Stands names self.old (sent ++ pending.old.items) s
            → DidTurn names result self.new (sent ++ pending.new.items) s (settles names self.old s (turned (callbacks (program_in names self.old)) (N.Poll (told_of told.now)) s s.agenda)) }
    {
        put_poll(self.trace, alloc, self.turns.polls, pending)?;
        let mut store = self.machine.replace_store(Store::new(alloc));
        let collected = self.jobs.finish(alloc, &told.events, &mut store, sections);
        self.machine.replace_store(store);
        match collected? {
            Collected::AllGave(values) => {
                self.turns.poll(values.as_slice())?;
                Ok(Step::On)
            }
            Collected::OneFailed(fault, function) => Ok(Step::Broke(fault, function)),
        }
    }
}
