//! The loop: what runs, what is ready, and a step of them.
ghost use Rattle.std.specs.Prelude.{◌≡◌, List, ℤ, [], ◌++◌, ◌<◌, ◌≤◌, ◌^◌, None, Some, IfOk, IfErr, OnOk, true, false};
ghost use Rattle.cpc_base.specs.Bytes.{Text};
ghost use Rattle.cpc_check_rules.specs.Apart.{Spells};
ghost use Rattle.cpc_tree.specs.Erase.{Names as Spelling};
ghost use Rattle.std.specs.List.{All};
ghost use Rattle.cpc_store.specs.Seen.{seen, IsLawful};
ghost use Rattle.cpc_meaning.specs.Events.{starts_callback, callbacks};
ghost use Rattle.cpc_meaning.specs.Machine.{turns, runs, try_step, code_step, reply};
ghost use Rattle.cpc_meaning.specs.Trees.{trees};
ghost use Rattle.cpc_eval_values.specs.Shown.{value_of, values_of};
ghost use Rattle.cpc_run_jobs.specs.Holding.{IsAssigned};
ghost use Rattle.cpc_run.specs.Answers.{CameAnswered};
ghost use Rattle.cpc_run_code.specs.Code.{stack_in};
ghost use Rattle.cpc_run.specs.Going.{Goes};
ghost use Rattle.cpc_run.specs.Shorts.{Counts, IsBeyond};
ghost use Rattle.cpc_run.specs.declared.step.Step.TheVariants.{On};
ghost use Rattle.cpc_run.specs.States.{States, Stands, Within, Fits, IsSteady, GoesSteady, TurnsSteady, CountsPolls, Keeps, Did, CameTo, DidTurn, Acted, settles, program_in, callback_of, lists_in};

use crate::step::Step;
use cpc_agenda_turns::{Turned, Turns};
use cpc_base::{Name, Names, NoMemory};
use cpc_hosts::{HostRule, HostTable, Kept};
use cpc_run_code::{Code, Item, Short, Stepped, above, waited_for};
use cpc_run_jobs::{Jobs, Sections};
use cpc_run_shown::Outcome;
use cpc_store::Value;
use std::alloc::Global;

/// A run that goes on: the running code, what is ready and what waits, the sections that are out, and the polls that are left.
pub(crate) struct Loop<'p> {
    /// The code, its store and its stack.
    pub machine: Code<'p>,
    /// Whether a stack runs.
    pub running: bool,
    /// What is ready, what is left of the round, what waits, and the polls that are left.
    pub turns: Turns<'p, Item>,
    /// The sections that are out.
    pub jobs: Jobs<'p>,
    /// How many polls the history has.
    pub polls: u64,
    /// Whether a trace is wanted, in place of what is put out.
    pub trace: bool,
    /// The name of `main`.
    pub main: Name,
}

impl Drop for Loop<'_> {
    fn drop(self) {
        let Loop {
            machine,
            running: _,
            turns,
            jobs,
            polls: _,
            trace: _,
            main: _,
        } = self;
        drop(machine);
        drop(turns);
        drop(jobs);
    }
}

impl<'p> Loop<'p> {
    /// The value of a request arrives where the code asked, in a function; or that fails. It takes no memory: the result
    /// has the form that it has for every request.
    pub(crate) fn reply(
        &mut self,
        alloc: Global,
        function: Name,
        value: Value,
    ) -> Result<Option<Outcome>, NoMemory>
        requires steady { IsSteady self.old }
        requires running { self.old.running ≡ true }
        requires lawful { IsLawful (seen value) }
        ensures keeps { Keeps self.old self.new }
        ensures steady { GoesSteady result self.new }
        ensures stays { IfOk result (λ o. o ≡ None → (self.new.running ≡ true) × (self.new.turns ≡ self.old.turns)) }
        ensures did { (names : Spelling) → Fits names self.old → (printed : Text) (s t : States) → Acted names self.old function printed s t
            → Did names result self.new printed s (settles names self.old s (reply (trees (program_in names self.old)) (stack_in names self.old.machine) (value_of names value) t)) }
    {
        match self.machine.answer(alloc, value) {
            Ok(()) => Ok(None),
            Err(fault) => Ok(Some(Outcome::Failed(fault, function))),
        }
    }

    // Nothing runs and the round is over: the run ends, or what is ready becomes the round, before which the next poll is taken
    // where something is outstanding. What goes out for the poll is put behind `pending`.
    fn turn<S: Sections>(
        &mut self,
        alloc: Global,
        sections: &mut S,
        pending: &mut Vec<u8>,
    ) -> Result<Step, NoMemory>
        requires steady { IsSteady self.old }
        requires idle { self.old.running ≡ false }
        requires assigned { IsAssigned S.program S.bound self.old.jobs }
        requires round { (names : Spelling) → (lists_in names self.old).round ≡ [] }
        ensures keeps { Keeps self.old self.new }
        ensures steady { TurnsSteady result self.new }
        ensures polls { IfOk result (λ r. CountsPolls r self.old) }
        ensures did { (names : Spelling) → Fits names self.old → (sent : Text) (s : States) → Stands names self.old (sent ++ pending.old.items) s
            → DidTurn names result self.new (sent ++ pending.new.items) s (settles names self.old s (turns (callbacks (program_in names self.old)) s)) }
    {
        match self.turns.turn(alloc)? {
            Turned::Round => Ok(Step::On),
            Turned::Poll(told) => self.polls(alloc, told, sections, pending),
            Turned::Ended(waiters) => Ok(Step::Over(Outcome::Ended(waiters))),
            Turned::HistoryEnded => Ok(Step::Over(Outcome::HistoryEnded)),
            Turned::BadHistory(section) => Ok(Step::Over(Outcome::BadHistory(section))),
        }
    }

    // Nothing runs: an item that was the first of the round is taken.
    #[tactic(auto, using(cpc_run_code::proofs::Lawful::passed_lawful))]
    fn take(&mut self, alloc: Global, item: Item, waited: Value, cap: u64) -> Result<(), Short>
        requires steady { IsSteady self.old }
        requires idle { self.old.running ≡ false }
        requires cap { cap < 2 ^ 62 }
        ensures keeps { Keeps self.old self.new }
        ensures steady { OnOk result (IsSteady self.new) }
        ensures short { IfErr result (λ short. (names : Spelling) → Fits names self.old → (sent : Text) (s : States) → Stands names self.old sent s → Counts (IsBeyond cap short) (settles names self.old s (starts_callback (trees (program_in names self.old)) (callback_of names item) (value_of names waited) s))) }
        ensures capped { OnOk result ((names : Spelling) → Fits names self.old → (sent : Text) (s : States) → Stands names self.old sent s → Counts (λ cells. cells ≤ cap) (settles names self.old s (starts_callback (trees (program_in names self.old)) (callback_of names item) (value_of names waited) s))) }
        ensures did { OnOk result ((names : Spelling) → Fits names self.old → (printed : Text) (s : States) → Stands names self.old printed s
            → CameTo names On self.new printed s (settles names self.old s (starts_callback (trees (program_in names self.old)) (callback_of names item) (value_of names waited) s))) }
    {
        match item {
            Item::Main => {
                let main = self.main;
                self.starts(alloc, main, &[], cap)
            }
            Item::With(callback) => {
                let arguments = [callback.pointer, waited_for(waited)];
                self.starts(alloc, callback.function, &arguments, cap)
            }
        }
    }

    // Nothing runs: a function is called, unless that would leave more live cells than the cap.
    fn starts(
        &mut self,
        alloc: Global,
        function: Name,
        arguments: &[Value],
        cap: u64,
    ) -> Result<(), Short>
        requires steady { IsSteady self.old }
        requires idle { self.old.running ≡ false }
        requires lawful { All (λ v. IsLawful (seen v)) arguments.now }
        requires cap { cap < 2 ^ 62 }
        ensures keeps { Keeps self.old self.new }
        ensures steady { OnOk result (IsSteady self.new) }
        ensures short { IfErr result (λ short. (names : Spelling) → Fits names self.old → (sent : Text) (s : States) → Stands names self.old sent s → Counts (IsBeyond cap short) (settles names self.old s (runs (trees (program_in names self.old)) (names function) (values_of names arguments.now) s))) }
        ensures capped { OnOk result ((names : Spelling) → Fits names self.old → (sent : Text) (s : States) → Stands names self.old sent s → Counts (λ cells. cells ≤ cap) (settles names self.old s (runs (trees (program_in names self.old)) (names function) (values_of names arguments.now) s))) }
        ensures did { OnOk result ((names : Spelling) → Fits names self.old → (printed : Text) (s : States) → Stands names self.old printed s
            → CameTo names On self.new printed s (settles names self.old s (runs (trees (program_in names self.old)) (names function) (values_of names arguments.now) s))) }
    {
        if let Some(short) = above(self.machine.cells_with(function), cap) {
            return Err(short);
        }
        self.machine.call(alloc, function, arguments)?;
        self.running = true;
        Ok(())
    }

    /// A step of the running code, with what it asks for, unless it would leave more live cells than the cap, which is told as
    /// short. What goes out is put behind `pending`. The answers that hosts give in it are those of its marks: one that cannot
    /// arrive leaves none.
    pub(crate) fn goes_on<R: HostRule, S: Sections>(
        &mut self,
        alloc: Global,
        table: &Names,
        hosts: &HostTable<R>,
        sections: &mut S,
        pending: &mut Vec<u8>,
        cap: u64,
    ) -> Result<Option<Outcome>, Short>
        requires steady { IsSteady self.old }
        requires running { self.old.running ≡ true }
        requires goes { Goes table.now (⟦<HostTable<R> as Kept>⟧.names hosts.now) cap self.old }
        requires rule { ⟦<HostTable<R> as Kept>⟧.keeps hosts.now }
        requires cap { cap < 2 ^ 62 }
        ensures keeps { Keeps self.old self.new }
        ensures steady { GoesSteady result self.new }
        ensures short { IfErr result (λ short. (names : Spelling) → Fits names self.old → (sent : Text) (s : States) → Within cap s → Stands names self.old sent s → Counts (IsBeyond cap short) (settles names self.old s (code_step (callbacks (program_in names self.old)) s (stack_in names self.old.machine)))) }
        ensures capped { OnOk result ((names : Spelling) → Fits names self.old → (sent : Text) (s : States) → Within cap s → Stands names self.old sent s → Counts (λ cells. cells ≤ cap) (settles names self.old s (code_step (callbacks (program_in names self.old)) s (stack_in names self.old.machine)))) }
        ensures did { IfOk result (λ r. (said : List ℤ) × ((names : Spelling) → Fits names self.old → Spells table.now names → (sent : Text) (s : States) → Within cap s → Stands names self.old (sent ++ pending.old.items) s
            → (rest : List ℤ) → s.history.answers ≡ said ++ rest
            → CameAnswered names R.answers said rest r self.new (sent ++ pending.new.items) s (settles names self.old s (code_step (callbacks (program_in names self.old)) s (stack_in names self.old.machine))))) }
    {
        if let Some(short) = above(self.machine.next_cells(), cap) {
            return Err(short);
        }
        match self.machine.step(alloc)? {
            Stepped::Went => Ok(None),
            Stepped::Returned(_) => {
                self.running = false;
                Ok(None)
            }
            Stepped::Asked(request) => {
                Ok(self.asked(alloc, table, hosts, &request, sections, pending)?)
            }
            Stepped::Faulted(fault, function) => Ok(Some(Outcome::Failed(fault, function))),
        }
    }

    /// Nothing runs: the next of the round is taken, or the loop turns. What goes out is put behind `pending`. A step that would
    /// leave more live cells than the cap is not made, and told as short.
    pub(crate) fn schedules<S: Sections>(
        &mut self,
        alloc: Global,
        sections: &mut S,
        pending: &mut Vec<u8>,
        cap: u64,
    ) -> Result<Step, Short>
        requires steady { IsSteady self.old }
        requires idle { self.old.running ≡ false }
        requires assigned { IsAssigned S.program S.bound self.old.jobs }
        requires cap { cap < 2 ^ 62 }
        ensures keeps { Keeps self.old self.new }
        ensures steady { TurnsSteady result self.new }
        ensures polls { IfOk result (λ r. CountsPolls r self.old) }
        ensures short { IfErr result (λ short. (names : Spelling) → Fits names self.old → (sent : Text) (s : States) → Within cap s → Stands names self.old sent s → Counts (IsBeyond cap short) (try_step (callbacks (program_in names self.old)) s)) }
        ensures capped { OnOk result ((names : Spelling) → Fits names self.old → (sent : Text) (s : States) → Within cap s → Stands names self.old sent s → Counts (λ cells. cells ≤ cap) (try_step (callbacks (program_in names self.old)) s)) }
        ensures did { (names : Spelling) → Fits names self.old → (sent : Text) (s : States) → Within cap s → Stands names self.old (sent ++ pending.old.items) s
            → DidTurn names result self.new (sent ++ pending.new.items) s (try_step (callbacks (program_in names self.old)) s) }
    {
        match self.turns.agenda.next() {
            Some((item, waited)) => {
                self.take(alloc, item, waited, cap)?;
                Ok(Step::On)
            }
            None => Ok(self.turn(alloc, sections, pending)?),
        }
    }
}
