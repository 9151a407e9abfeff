//! One step of a run, within the cap on live cells.
ghost use Rattle.std.specs.Prelude.{◌≡◌, true, false, List, ℤ, Ok, IfOk, ◌++◌, ◌-◌, ◌+◌, ◌<◌, ◌≤◌, ◌^◌, length, min};
ghost use Rattle.cpc_base.specs.Bytes.{Text};
ghost use Rattle.cpc_check_rules.specs.Apart.{Spells};
ghost use Rattle.cpc_tree.specs.Erase.{Names as Spelling};
ghost use Rattle.cpc_meaning.specs.Agenda.{needs_poll};
ghost use Rattle.cpc_meaning.specs.Events.{callbacks};
ghost use Rattle.cpc_meaning.specs.Machine.{try_step};
ghost use Rattle.cpc_meaning.specs.Runs.{live_cells};
ghost use Rattle.cpc_run_jobs.specs.Holding.{IsAssigned};
ghost use Rattle.cpc_run.specs.Answers.{MadeAnswered};
ghost use Rattle.cpc_run.specs.Going.{Goes};
ghost use Rattle.cpc_run.specs.States.{States, Stands, Within, Fits, IsSteady, Keeps, program_in, lists_in};
ghost use Rattle.cpc_run.specs.Reports.{MadeSo, MadePolls, MadeSteady};

use crate::looped::Loop;
use crate::step::Step;
use cpc_base::{Name, Names, NoMemory};
use cpc_hosts::{HostRule, HostTable, Kept};
use cpc_num::Fault;
use cpc_run_code::Short;
use cpc_run_jobs::Sections;
use cpc_run_shown::Outcome;
use std::alloc::Global;

// How many bytes wait before they are written, where no poll is taken.
const CHUNK: usize = 4096;

/// What a step within a cap came to.
#[derive(Clone, Copy)]
pub(crate) enum Made {
    /// The run goes on, with so many live cells.
    On(u64),
    /// The run is over, and no poll was taken.
    Over(Outcome),
    /// The run is over: a poll was taken, and a section that it tells failed, in the code of a function.
    Broke(Fault, Name),
    /// The step would leave so many live cells, more than the cap.
    Full(u64),
}

impl<'p> Loop<'p> {
    /// The live cells. `u64::MAX` stands for every greater number.
    pub(crate) fn cells(&self) -> u64
        requires steady { IsSteady self.now }
        ensures { (names : Spelling) (printed : Text) (s : States) → Stands names self.now printed s → result ≡ min (live_cells s) (2 ^ 64 - 1) }
    {
        self.machine.live_cells()
    }

    /// How many polls were taken.
    pub(crate) fn taken(&self) -> u64
        requires steady { IsSteady self.now }
        ensures { result + length self.now.turns.polls.now ≡ self.now.polls }
    {
        self.polls - self.turns.polls.len() as u64
    }

    /// How many bytes may wait before they are written: none where the next step may take a poll.
    pub(crate) fn most_held(&self) -> usize
        ensures none { (names : Spelling) → self.now.running ≡ false → needs_poll (lists_in names self.now) ≡ true → result ≡ 0 }
        ensures most { result ≤ 4096 }
    {
        if self.running {
            return CHUNK;
        }
        if self.turns.agenda.needs_poll() {
            0
        } else {
            CHUNK
        }
    }

    /// A step of the run, unless it would leave too many cells. What it puts out is put behind `pending`.
    pub(crate) fn make<R: HostRule, S: Sections>(
        &mut self,
        alloc: Global,
        table: &Names,
        hosts: &HostTable<R>,
        sections: &mut S,
        pending: &mut Vec<u8>,
        cap: u64,
    ) -> Result<Made, NoMemory>
        requires steady { IsSteady self.old }
        requires goes { Goes table.now (⟦<HostTable<R> as Kept>⟧.names hosts.now) cap self.old }
        requires assigned { IsAssigned S.program S.bound self.old.jobs }
        requires rule { ⟦<HostTable<R> as Kept>⟧.keeps hosts.now }
        requires cap { cap < 2 ^ 62 }
        ensures keeps { Keeps self.old self.new }
        ensures steady { MadeSteady result self.new }
        ensures polls { IfOk result (λ m. MadePolls m self.old) }
        ensures made { IfOk result (λ m. (said : List ℤ) × ((names : Spelling) → Fits names self.old → Spells table.now names → (sent : Text) (s : States) → Within cap s → Stands names self.old (sent ++ pending.old.items) s
            → (rest : List ℤ) → s.history.answers ≡ said ++ rest
            → MadeSo names cap (Ok m) self.new (sent ++ pending.old.items) (sent ++ pending.new.items) s (try_step (callbacks (program_in names self.old)) s) × MadeAnswered R.answers said rest m s (try_step (callbacks (program_in names self.old)) s))) }
    {
        if self.running {
            return self.runs(alloc, table, hosts, sections, pending, cap);
        }
        self.idles(alloc, sections, pending, cap)
    }

    // A step of the running code.
    fn runs<R: HostRule, S: Sections>(
        &mut self,
        alloc: Global,
        table: &Names,
        hosts: &HostTable<R>,
        sections: &mut S,
        pending: &mut Vec<u8>,
        cap: u64,
    ) -> Result<Made, NoMemory>
        requires steady { IsSteady self.old }
        requires running { self.old.running ≡ true }
        requires goes { Goes table.now (⟦<HostTable<R> as Kept>⟧.names hosts.now) cap self.old }
        requires rule { ⟦<HostTable<R> as Kept>⟧.keeps hosts.now }
        requires cap { cap < 2 ^ 62 }
        ensures keeps { Keeps self.old self.new }
        ensures steady { MadeSteady result self.new }
        ensures polls { IfOk result (λ m. MadePolls m self.old) }
        ensures made { IfOk result (λ m. (said : List ℤ) × ((names : Spelling) → Fits names self.old → Spells table.now names → (sent : Text) (s : States) → Within cap s → Stands names self.old (sent ++ pending.old.items) s
            → (rest : List ℤ) → s.history.answers ≡ said ++ rest
            → MadeSo names cap (Ok m) self.new (sent ++ pending.old.items) (sent ++ pending.new.items) s (try_step (callbacks (program_in names self.old)) s) × MadeAnswered R.answers said rest m s (try_step (callbacks (program_in names self.old)) s))) }
    {
        let mut text = Vec::new(alloc);
        match self.goes_on(alloc, table, hosts, sections, &mut text, cap) {
            // What a step put out that fails does not go out.
            Ok(Some(outcome)) => Ok(Made::Over(outcome)),
            Ok(None) => {
                pending.extend_from_slice(text.as_slice())?;
                Ok(Made::On(self.cells()))
            }
            Err(Short::Beyond(cells)) => Ok(Made::Full(cells)),
            Err(Short::Memory) => Err(NoMemory),
        }
    }

    // A step where nothing runs.
    fn idles<S: Sections>(
        &mut self,
        alloc: Global,
        sections: &mut S,
        pending: &mut Vec<u8>,
        cap: u64,
    ) -> Result<Made, NoMemory>
        requires steady { IsSteady self.old }
        requires idle { self.old.running ≡ false }
        requires assigned { IsAssigned S.program S.bound self.old.jobs }
        requires cap { cap < 2 ^ 62 }
        ensures keeps { Keeps self.old self.new }
        ensures steady { MadeSteady result self.new }
        ensures polls { IfOk result (λ m. MadePolls m self.old) }
        ensures made { IfOk result (λ m. (names : Spelling) → Fits names self.old → (sent : Text) (s : States) → Within cap s → Stands names self.old (sent ++ pending.old.items) s
            → MadeSo names cap (Ok m) self.new (sent ++ pending.old.items) (sent ++ pending.new.items) s (try_step (callbacks (program_in names self.old)) s)) }
    {
        let mut text = Vec::new(alloc);
        match self.schedules(alloc, sections, &mut text, cap) {
            Ok(Step::Over(outcome)) => Ok(Made::Over(outcome)),
            Ok(Step::Broke(fault, function)) => {
                pending.extend_from_slice(text.as_slice())?;
                Ok(Made::Broke(fault, function))
            }
            Ok(Step::On) => {
                pending.extend_from_slice(text.as_slice())?;
                Ok(Made::On(self.cells()))
            }
            Err(Short::Beyond(cells)) => Ok(Made::Full(cells)),
            Err(Short::Memory) => Err(NoMemory),
        }
    }
}
