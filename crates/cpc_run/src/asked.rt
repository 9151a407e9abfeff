//! What the running code asks of the loop, acted on and answered in the step that asks.
ghost use Rattle.std.specs.Prelude.{◌≡◌, ◌++◌, List, ℤ, IfOk, Some, true, map, [], ◌∷◌};
ghost use Rattle.std.specs.List.{All};
ghost use Rattle.cpc_base.specs.Bytes.{Text};
ghost use Rattle.cpc_check_rules.specs.Apart.{Spells};
ghost use Rattle.cpc_tree.specs.Erase.{Names as Spelling};
ghost use Rattle.cpc_tree.specs.Primitives as Q;
ghost use Rattle.cpc_run_code.specs.NativeActsTaken.{IsAskedWith, IsCalledWith};
ghost use Rattle.cpc_tree.specs.PrimitiveNames.{primitive_of};
ghost use Rattle.cpc_native_builtins.specs.Served.{is_served, IsServedCall};
ghost use Rattle.cpc_store.specs.Seen.{seen, IsLawful};
ghost use Rattle.cpc_meaning.specs.Events.{callbacks};
ghost use Rattle.cpc_meaning.specs.Machine.{asked_by, primitive, prints, byte_of};
ghost use Rattle.cpc_meaning.specs.Trees.{trees};
ghost use Rattle.cpc_eval_values.specs.Shown.{value_of, values_of};
ghost use Rattle.cpc_meaning_laws.specs.Pointer.Made.{IsMadeCode};
ghost use Rattle.cpc_run_code.specs.Code.{stack_in};
ghost use Rattle.cpc_run.specs.Going.{CallHasBlock, CallsBack, CallsThere, HasBlock, HasCallback, KnowsNames, KnowsSection};
ghost use Rattle.cpc_run_code.specs.Stacks.{request_of};
ghost use Rattle.cpc_run.specs.States.{States, Came, Fits, IsSteady, GoesSteady, Keeps, Did, Acted, settles, program_in};
ghost use Rattle.cpc_run.specs.Answers.{CameAnswered};

use crate::looped::Loop;
use cpc_base::{Name, Names, NoMemory};
use cpc_hosts::{HostRule, HostTable, Kept};
use cpc_native_builtins::Call;
use cpc_run_code::Request;
use cpc_run_jobs::Sections;
use cpc_run_shown::{Outcome, put_output};
use cpc_store::{Class, Value};
use cpc_tree::primitive::Primitive;
use std::alloc::{AllocError, Global};

// A value modulo 256.
fn byte(value: &Value) -> u8
    ensures { (names : Spelling) → result ≡ byte_of (value_of names value.now) }
{
    match value {
        Value::Int(_, number) => number.rem_euclid(256) as u8,
        _ => 0,
    }
}

// Values modulo 256.
fn bytes(alloc: Global, values: &[Value]) -> Result<Vec<u8>, AllocError>
    ensures { IfOk result (λ text. (names : Spelling) → text.items ≡ map byte_of (values_of names values.now)) }
{
    let mut text = Vec::new(alloc);
    for value in values {
        text.push(byte(value))?;
    }
    Ok(text)
}

impl<'p> Loop<'p> {
    // Bytes go out.
    fn prints(
        &mut self,
        alloc: Global,
        function: Name,
        text: &[u8],
        pending: &mut Vec<u8>,
    ) -> Result<Option<Outcome>, NoMemory>
        requires steady { IsSteady self.old }
        requires running { self.old.running ≡ true }
        ensures keeps { Keeps self.old self.new }
        ensures steady { GoesSteady result self.new }
        ensures did { (names : Spelling) → Fits names self.old → (sent : Text) (s : States) → Acted names self.old function (sent ++ pending.old.items) s s
            → Did names result self.new (sent ++ pending.new.items) s (settles names self.old s (prints (trees (program_in names self.old)) (stack_in names self.old.machine) text.now s)) }
    {
        put_output(self.trace, alloc, text, pending)?;
        self.reply(alloc, function, Value::Unset)
    }

    // Bytes, or a number on a line.
    fn puts(
        &mut self,
        alloc: Global,
        request: &Request,
        pending: &mut Vec<u8>,
    ) -> Result<Option<Outcome>, NoMemory>
        requires steady { IsSteady self.old }
        requires running { self.old.running ≡ true }
        requires takes { IsAskedWith Q.Puts request.now.args.items }
        ensures keeps { Keeps self.old self.new }
        ensures steady { GoesSteady result self.new }
        ensures did { (names : Spelling) → Fits names self.old → (sent : Text) (s : States) → Acted names self.old request.now.function (sent ++ pending.old.items) s s
            → Did names result self.new (sent ++ pending.new.items) s (settles names self.old s (primitive (callbacks (program_in names self.old)) Q.Puts (values_of names request.now.args.items) (stack_in names self.old.machine) s)) }
    {
        let text = bytes(alloc, request.args.as_slice())?;
        self.prints(alloc, request.function, text.as_slice(), pending)
    }

    // A byte.
    fn putc(
        &mut self,
        alloc: Global,
        request: &Request,
        pending: &mut Vec<u8>,
    ) -> Result<Option<Outcome>, NoMemory>
        requires steady { IsSteady self.old }
        requires running { self.old.running ≡ true }
        requires takes { IsAskedWith Q.Putc request.now.args.items }
        ensures keeps { Keeps self.old self.new }
        ensures steady { GoesSteady result self.new }
        ensures did { (names : Spelling) → Fits names self.old → (sent : Text) (s : States) → Acted names self.old request.now.function (sent ++ pending.old.items) s s
            → Did names result self.new (sent ++ pending.new.items) s (settles names self.old s (primitive (callbacks (program_in names self.old)) Q.Putc (values_of names request.now.args.items) (stack_in names self.old.machine) s)) }
    {
        match request.args.as_slice() {
            [value] => self.puts_byte(alloc, *value, request.function, pending),
            _ => unreachable!(),
        }
    }

    // The byte of a value.
    fn puts_byte(
        &mut self,
        alloc: Global,
        value: Value,
        function: Name,
        pending: &mut Vec<u8>,
    ) -> Result<Option<Outcome>, NoMemory>
        requires steady { IsSteady self.old }
        requires running { self.old.running ≡ true }
        ensures keeps { Keeps self.old self.new }
        ensures steady { GoesSteady result self.new }
        ensures did { (names : Spelling) → Fits names self.old → (sent : Text) (s : States) → Acted names self.old function (sent ++ pending.old.items) s s
            → Did names result self.new (sent ++ pending.new.items) s (settles names self.old s (prints (trees (program_in names self.old)) (stack_in names self.old.machine) (byte_of (value_of names value) ∷ []) s)) }
    {
        self.prints(alloc, function, &[byte(&value)], pending)
    }

    // A number on a line.
    fn print(
        &mut self,
        alloc: Global,
        request: &Request,
        pending: &mut Vec<u8>,
    ) -> Result<Option<Outcome>, NoMemory>
        requires steady { IsSteady self.old }
        requires running { self.old.running ≡ true }
        requires takes { IsAskedWith Q.Print request.now.args.items }
        ensures keeps { Keeps self.old self.new }
        ensures steady { GoesSteady result self.new }
        ensures did { (names : Spelling) → Fits names self.old → (sent : Text) (s : States) → Acted names self.old request.now.function (sent ++ pending.old.items) s s
            → Did names result self.new (sent ++ pending.new.items) s (settles names self.old s (primitive (callbacks (program_in names self.old)) Q.Print (values_of names request.now.args.items) (stack_in names self.old.machine) s)) }
    {
        match request.args.as_slice() {
            [value] => self.prints_number(alloc, *value, request.function, pending),
            _ => unreachable!(),
        }
    }

    // The number of a value on a line.
    fn prints_number(
        &mut self,
        alloc: Global,
        value: Value,
        function: Name,
        pending: &mut Vec<u8>,
    ) -> Result<Option<Outcome>, NoMemory>
        requires steady { IsSteady self.old }
        requires running { self.old.running ≡ true }
        requires takes { IsAskedWith Q.Print (value ∷ []) }
        ensures keeps { Keeps self.old self.new }
        ensures steady { GoesSteady result self.new }
        ensures did { (names : Spelling) → Fits names self.old → (sent : Text) (s : States) → Acted names self.old function (sent ++ pending.old.items) s s
            → Did names result self.new (sent ++ pending.new.items) s (settles names self.old s (primitive (callbacks (program_in names self.old)) Q.Print (value_of names value ∷ []) (stack_in names self.old.machine) s)) }
    {
        let Value::Int(_, number) = value else {
            unreachable!();
        };
        let line = format!(in alloc; "{number}\n")?;
        self.prints(alloc, function, line.as_bytes(), pending)
    }

    // The run is left with a number.
    fn exits(&self, request: &Request) -> Outcome
        requires { IsAskedWith Q.Exit request.now.args.items }
        ensures { (names : Spelling) (new : Loop) (printed : Text) (s : States)
            → Came names (Some result) new printed s (settles names self.now s (primitive (callbacks (program_in names self.now)) Q.Exit (values_of names request.now.args.items) (stack_in names self.now.machine) s)) }
    {
        match request.args.as_slice() {
            [value] => self.exits_with(*value),
            _ => unreachable!(),
        }
    }

    // The run is left with the number of a value.
    fn exits_with(&self, value: Value) -> Outcome
        requires { IsAskedWith Q.Exit (value ∷ []) }
        ensures { (names : Spelling) (new : Loop) (printed : Text) (s : States)
            → Came names (Some result) new printed s (settles names self.now s (primitive (callbacks (program_in names self.now)) Q.Exit (value_of names value ∷ []) (stack_in names self.now.machine) s)) }
    {
        let Value::Int(_, number) = value else {
            unreachable!();
        };
        Outcome::Exited(number)
    }

    // A primitive is acted on and answered; or the run is over. What goes out is put behind `pending`.
    fn calls_builtin<S: Sections>(
        &mut self,
        alloc: Global,
        table: &Names,
        builtin: Primitive,
        request: &Request,
        sections: &mut S,
        pending: &mut Vec<u8>,
    ) -> Result<Option<Outcome>, NoMemory>
        requires steady { IsSteady self.old }
        requires running { self.old.running ≡ true }
        requires served { is_served (primitive_of builtin) ≡ true }
        requires takes { IsAskedWith (primitive_of builtin) request.now.args.items }
        requires callback { HasCallback (primitive_of builtin) request.now.args.items }
        requires known { KnowsSection table.now request.now.args.items }
        requires room { HasBlock self.old request.now.function (primitive_of builtin) request.now.args.items }
        requires lawful { All (λ v. IsLawful (seen v)) request.now.args.items }
        ensures keeps { Keeps self.old self.new }
        ensures steady { GoesSteady result self.new }
        ensures did { (names : Spelling) → Fits names self.old → Spells table.now names → (sent : Text) (s : States) → IsMadeCode s.store (stack_in names self.old.machine) → Acted names self.old request.now.function (sent ++ pending.old.items) s s
            → Did names result self.new (sent ++ pending.new.items) s (settles names self.old s (primitive (callbacks (program_in names self.old)) (primitive_of builtin) (values_of names request.now.args.items) (stack_in names self.old.machine) s)) }
    {
        match builtin {
            Primitive::Print => self.print(alloc, request, pending),
            Primitive::Putc => self.putc(alloc, request, pending),
            Primitive::Puts => self.puts(alloc, request, pending),
            Primitive::Now => self.tells_time(alloc, request),
            Primitive::CondNew => self.makes_condition(alloc, request),
            Primitive::CondFree => self.frees_condition(alloc, request),
            Primitive::Signal => self.signals(alloc, request),
            Primitive::SignalAll => self.signals_all(alloc, request),
            Primitive::Exit => Ok(Some(self.exits(request))),
            Primitive::Malloc => self.allocates(alloc, Class::Heap, request),
            Primitive::Free => self.frees(alloc, Class::Heap, request),
            Primitive::RtFrame => self.allocates(alloc, Class::Frame, request),
            Primitive::RtBox => self.allocates(alloc, Class::Auto, request),
            Primitive::RtFrameFree => self.frees(alloc, Class::Frame, request),
            Primitive::RtUnbox => self.frees(alloc, Class::Auto, request),
            Primitive::RtReady => self.readies(alloc, request),
            Primitive::RtWait => self.waits(alloc, request, pending),
            Primitive::RtSleep => self.sleeps(alloc, request, pending),
            Primitive::RtIo => self.awaits(alloc, request, pending),
            Primitive::RtDetach => self.detaches(alloc, table, request, sections, pending),
            // Primitives of threads, for which no code of an event program asks.
            Primitive::Yield | Primitive::Sleep | Primitive::IoWait | Primitive::Wait =>
                unreachable!(),
        }
    }

    /// A request of the running code is acted on and answered; or the run is over. What goes out is put behind `pending`.
    pub(crate) fn asked<R: HostRule, S: Sections>(
        &mut self,
        alloc: Global,
        table: &Names,
        hosts: &HostTable<R>,
        request: &Request,
        sections: &mut S,
        pending: &mut Vec<u8>,
    ) -> Result<Option<Outcome>, NoMemory>
        requires steady { IsSteady self.old }
        requires running { self.old.running ≡ true }
        requires served { IsServedCall request.now.call }
        requires takes { IsCalledWith request.now.call request.now.args.items }
        requires callback { CallsBack request.now.call request.now.args.items }
        requires known { KnowsNames table.now request.now.call request.now.args.items }
        requires there { CallsThere (⟦<HostTable<R> as Kept>⟧.names hosts.now) table.now request.now.call request.now.args.items }
        requires room { CallHasBlock self.old request.now.function request.now.call request.now.args.items }
        requires lawful { All (λ v. IsLawful (seen v)) request.now.args.items }
        requires rule { ⟦<HostTable<R> as Kept>⟧.keeps hosts.now }
        ensures keeps { Keeps self.old self.new }
        ensures steady { GoesSteady result self.new }
        ensures did { IfOk result (λ r. (said : List ℤ) × ((names : Spelling) → Fits names self.old → Spells table.now names → (sent : Text) (s : States) → IsMadeCode s.store (stack_in names self.old.machine) → Acted names self.old request.now.function (sent ++ pending.old.items) s s
            → (rest : List ℤ) → s.history.answers ≡ said ++ rest
            → CameAnswered names R.answers said rest r self.new (sent ++ pending.new.items) s (settles names self.old s (asked_by (callbacks (program_in names self.old)) (stack_in names self.old.machine) s (request_of names request.now).asked (request_of names request.now).arguments)))) }
    {
        match request.call {
            Call::Builtin(builtin) => {
                self.calls_builtin(alloc, table, builtin, request, sections, pending)
            }
            Call::Host(name) => self.calls_host(alloc, table, hosts, name, request, pending),
        }
    }
}
