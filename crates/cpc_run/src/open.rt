//! The first state of a run.
ghost use Rattle.std.specs.Prelude.{◌≡◌, [], ◌∷◌, None, Some, IfOk, IfSome, IfNone, map, true, slice_get};
ghost use Rattle.cpc_tree.specs.Erase.{Names as Spelling, in_table, item_of, program_of};
ghost use Rattle.cpc_tree.specs.Syntax.{Function, Program as Bare};
ghost use Rattle.cpc_tree.specs.Typing.{function_named};
ghost use Rattle.cpc_meaning.specs.History.{polls_fit};
ghost use Rattle.cpc_history_marks.specs.Views.{told_of};
ghost use Rattle.cpc_meaning.specs.Start.{main_name};
ghost use Rattle.cpc_eval_index.specs.Indexed.{program_items};
ghost use Rattle.cpc_run_jobs.specs.Holding.{IsAssigned};
ghost use Rattle.cpc_run_code.specs.Code.{Given};
ghost use Rattle.cpc_run.specs.States.{IsSteady};
ghost use Rattle.cpc_run.specs.Reports.{Opened, history_of};

use crate::looped::Loop;
use cpc_agenda::Agenda;
use cpc_agenda_turns::Turns;
use cpc_base::{Name, Names, NoMemory};
use cpc_eval_index::Index;
use cpc_history_marks::Told;
use cpc_run_code::{Code, Item};
use cpc_run_globals::{Layouts, globals};
use cpc_run_jobs::Jobs;
use cpc_tree::names::is_main;
use cpc_tree::program::{Item as Declared, Program};
use std::alloc::Global;

// The name of `main`, where a function has it.
fn main_of(program: &Program) -> Option<Name>
    ensures some { IfSome result (λ name. slice_get program.now.names name.0 ≡ Some main_name) }
    ensures none { IfNone result (function_named (program_of program.now) main_name ≡ None) }
{
    let mut rest = program.items.as_slice();
    while let Some((item, tail)) = rest.split_first() {
        if let Some(name) = main_in(&program.names, item) {
            return Some(name);
        }
        rest = tail;
    }
    None
}

// The name of a function that an item declares, where it is that of `main`.
fn main_in(names: &Names, item: &Declared) -> Option<Name>
    ensures some { IfSome result (λ name. slice_get names.now name.0 ≡ Some main_name) }
    ensures none { IfNone result ((rest : Bare) → function_named (item_of (in_table names.now) item.now ∷ rest) main_name ≡ function_named rest main_name) }
{
    let Declared::Function(function) = item else {
        return None;
    };
    let name = function.word.name;
    if is_main(names, name) {
        return Some(name);
    }
    None
}

impl<'p> Loop<'p> {
    /// A run of a program in its first state, over a history of these polls, where a section may make so many steps: nothing
    /// runs, and the call of `main` is ready. The index is of the program.
    /// `NoMemory` is want of memory.
    pub(crate) fn open(
        alloc: Global,
        program: &'p Program,
        index: Index<'p>,
        polls: &'p [Told],
        section_steps: u64,
        trace: bool,
    ) -> Result<Loop<'p>, NoMemory>
        requires index { program_items index ≡ program.now.items.items }
        requires polls { polls_fit (map told_of polls.now) ≡ true }
        requires main { (f : Function) × (function_named (program_of program.now) main_name ≡ Some f) }
        ensures steady { IfOk result (λ l. IsSteady l) }
        ensures trace { IfOk result (λ l. l.trace ≡ trace) }
        ensures assigned { IfOk result (λ l. IsAssigned (Some program.now) section_steps l.jobs) }
        ensures opened { IfOk result (λ l. (names : Spelling) → Given names program.now → Opened names program.now (history_of polls.now section_steps) l) }
    {
        let Some(main) = main_of(program) else {
            unreachable!();
        };
        let layouts = Layouts::over(index);
        let store = globals(alloc, program, &layouts)?;
        let machine = Code::new(alloc, program, index, store);
        let jobs = Jobs::new(alloc, program, layouts, section_steps);
        let mut agenda = Agenda::new(alloc);
        match agenda.ready(Item::Main) {
            Ok(()) => Ok(Loop {
                machine,
                running: false,
                turns: Turns { agenda, polls },
                jobs,
                polls: polls.len() as u64,
                trace,
                main,
            }),
            Err(_) => Err(NoMemory),
        }
    }
}
