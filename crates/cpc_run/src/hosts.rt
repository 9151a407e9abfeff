//! Functions of the host: the first that a table has not, and calls of them.
ghost use Rattle.std.specs.Prelude.{◌≡◌, ◌++◌, ◌<◌, List, ℤ, length, IfOk, true, option_map};
ghost use Rattle.std.specs.List.{All};
ghost use Rattle.cpc_base.specs.Bytes.{Text};
ghost use Rattle.cpc_check_rules.specs.Apart.{Spells};
ghost use Rattle.cpc_tree.specs.Erase.{Names as Spelling, in_table, item_of, program_of};
ghost use Rattle.cpc_meaning.specs.Answer.{Gives};
ghost use Rattle.cpc_meaning.specs.Machine as M;
ghost use Rattle.cpc_meaning.specs.Trees.{trees};
ghost use Rattle.cpc_eval_values.specs.Shown.{values_of};
ghost use Rattle.cpc_run_code.specs.NativeActsTaken.{IsLong};
ghost use Rattle.cpc_hosts.specs.Tables.{is_there};
ghost use Rattle.cpc_store.specs.Seen.{seen, IsLawful};
ghost use Rattle.cpc_run_code.specs.Code.{stack_in};
ghost use Rattle.cpc_run_code.specs.Taken.{IsNumber};
ghost use Rattle.cpc_run.specs.Hosts as H;
ghost use Rattle.cpc_run.specs.States.{States, Fits, IsSteady, GoesSteady, Keeps, Acted, settles, program_in};
ghost use Rattle.cpc_run.specs.Answers.{CameAnswered};

use crate::looped::Loop;
use crate::waits::long;
use cpc_base::{Name, Names, NoMemory};
use cpc_hosts::{HostRule, HostTable, Kept};
use cpc_num::Kind;
use cpc_run_code::Request;
use cpc_run_shown::{Outcome, put_host};
use cpc_store::Value;
use cpc_tree::names::text_of;
use cpc_tree::program::{Item, Mode, Program};
use std::alloc::Global;

// The name of an item that declares a function of the host which a table has not, with its arity.
fn missing_item<R: HostRule>(names: &Names, item: &Item, hosts: &HostTable<R>) -> Option<Name>
    ensures { option_map (in_table names.now) result ≡ H.missing_item (⟦<HostTable<R> as Kept>⟧.names hosts.now) (item_of (in_table names.now) item.now) }
{
    let Item::Prototype {
        mode,
        word,
        parameters,
        ..
    } = item
    else {
        return None;
    };
    if *mode != Mode::Extern || hosts.has(text_of(names, word.name), parameters.len()) {
        return None;
    }
    Some(word.name)
}

/// The first function of the host, by declaration, that a program declares and a table has not, with its arity. It takes no
/// memory.
pub fn missing_host<R: HostRule>(program: &Program, hosts: &HostTable<R>) -> Option<Name>
    ensures { option_map (in_table program.now.names) result ≡ H.missing_of (⟦<HostTable<R> as Kept>⟧.names hosts.now) (program_of program.now) }
{
    let mut rest = program.items.as_slice();
    while let Some((item, tail)) = rest.split_first() {
        let missing = missing_item(&program.names, item, hosts);
        if missing.is_some() {
            return missing;
        }
        rest = tail;
    }
    None
}

// The numbers of values of long.
fn longs(alloc: Global, values: &[Value]) -> Result<Vec<i64>, NoMemory>
    requires { All (λ v. IsNumber (seen v)) values.now }
    ensures { IfOk result (λ numbers. (names : Spelling) → M.ints_of (values_of names values.now) ≡ Gives numbers.items) }
{
    let mut numbers = Vec::new(alloc);
    for value in values {
        numbers.push(long(*value))?;
    }
    Ok(numbers)
}

impl<'p> Loop<'p> {
    /// A function of the host is called, and its answer arrives where the code asked.
    pub(crate) fn calls_host<R: HostRule>(
        &mut self,
        alloc: Global,
        table: &Names,
        hosts: &HostTable<R>,
        name: Name,
        request: &Request,
        pending: &mut Vec<u8>,
    ) -> Result<Option<Outcome>, NoMemory>
        requires steady { IsSteady self.old }
        requires running { self.old.running ≡ true }
        requires takes { All IsLong request.now.args.items }
        requires known { name.0 < length table.now }
        requires there { is_there (in_table table.now name) (length request.now.args.items) (⟦<HostTable<R> as Kept>⟧.names hosts.now) ≡ true }
        requires lawful { All (λ v. IsLawful (seen v)) request.now.args.items }
        requires rule { ⟦<HostTable<R> as Kept>⟧.keeps hosts.now }
        ensures keeps { Keeps self.old self.new }
        ensures steady { GoesSteady result self.new }
        ensures did { IfOk result (λ r. (said : List ℤ) × ((names : Spelling) → Fits names self.old → Spells table.now names → (sent : Text) (s : States) → Acted names self.old request.now.function (sent ++ pending.old.items) s s
            → (rest : List ℤ) → s.history.answers ≡ said ++ rest
            → CameAnswered names R.answers said rest r self.new (sent ++ pending.new.items) s (settles names self.old s (M.host_call (trees (program_in names self.old)) (names name) (values_of names request.now.args.items) (stack_in names self.old.machine) s)))) }
    {
        let numbers = longs(alloc, request.args.as_slice())?;
        let Some(text) = table.text(name) else {
            unreachable!();
        };
        let Some(answer) = hosts.call(text, numbers.as_slice()) else {
            unreachable!();
        };
        put_host(self.trace, alloc, text, numbers, answer, pending)?;
        self.reply(
            alloc,
            request.function,
            Value::Int(Kind::Long, answer as i128),
        )
    }
}
