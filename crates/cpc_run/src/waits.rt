//! Callbacks that the running code makes ready, and those that it lets wait.
ghost use Rattle.std.specs.Prelude.{◌≡◌, ◌++◌, [], ◌∷◌, true, None};
ghost use Rattle.std.specs.List.{All};
ghost use Rattle.cpc_base.specs.Bytes.{Text};
ghost use Rattle.cpc_tree.specs.Erase.{Names};
ghost use Rattle.cpc_tree.specs.Primitives as R;
ghost use Rattle.cpc_tree.specs.Texts.{output_of};
ghost use Rattle.cpc_history_marks.specs.Views.{mark_of};
ghost use Rattle.cpc_store.specs.Seen.{seen, IsLawful};
ghost use Rattle.cpc_store.specs.Store.{Unset as NoValue};
ghost use Rattle.cpc_meaning.specs.Answer.{Gives};
ghost use Rattle.cpc_meaning.specs.Events.{event_primitive};
ghost use Rattle.cpc_meaning.specs.Machine as M;
ghost use Rattle.cpc_meaning.specs.Trees.{trees};
ghost use Rattle.cpc_eval_values.specs.Shown.{value_of, values_of};
ghost use Rattle.cpc_run_code.specs.NativeActsTaken.{IsAskedWith};
ghost use Rattle.cpc_run_code.specs.Code.{stack_in};
ghost use Rattle.cpc_run.specs.Going.{HasCallback};
ghost use Rattle.cpc_run_code.specs.Taken.{IsCode, IsNumber};
ghost use Rattle.cpc_run.specs.States.{States, Fits, IsSteady, GoesSteady, Keeps, Did, Acted, settles, program_in};

use crate::looped::Loop;
use cpc_base::{Direction, Name, NoMemory, Stop};
use cpc_history_marks::Mark;
use cpc_run_code::{Callback, Item, Request};
use cpc_run_shown::{Outcome, put_wait};
use cpc_store::Value;
use std::alloc::Global;

/// The number of an integer that is one of `long`.
pub(crate) fn long(value: Value) -> i64
    requires { IsNumber (seen value) }
    ensures { (names : Names) → M.int_of (value_of names value) ≡ Gives result }
{
    let Value::Int(_, number) = value else {
        unreachable!();
    };
    number as i64
}

// 0 is reading, any other number writing.
fn direction(way: i64) -> Direction
    ensures { result ≡ M.direction_of way }
{
    if way == 0 {
        return Direction::Read;
    }
    Direction::Write
}

impl<'p> Loop<'p> {
    // A mark is put, and what the running code asked has no value.
    fn marks(
        &mut self,
        alloc: Global,
        mark: &Mark,
        function: Name,
        pending: &mut Vec<u8>,
    ) -> Result<Option<Outcome>, NoMemory>
        requires steady { IsSteady self.old }
        requires running { self.old.running ≡ true }
        requires silent { output_of (mark_of mark.now) ≡ [] }
        ensures keeps { Keeps self.old self.new }
        ensures steady { GoesSteady result self.new }
        ensures did { (names : Names) → Fits names self.old → (sent : Text) (s t : States) → Acted names self.old function (sent ++ pending.old.items) s t
            → Did names result self.new (sent ++ pending.new.items) s (settles names self.old s (M.reply (trees (program_in names self.old)) (stack_in names self.old.machine) NoValue (M.marks (mark_of mark.now) t))) }
    {
        put_wait(self.trace, alloc, mark, pending)?;
        self.reply(alloc, function, Value::Unset)
    }

    /// A callback becomes ready.
    pub(crate) fn readies(
        &mut self,
        alloc: Global,
        request: &Request,
    ) -> Result<Option<Outcome>, NoMemory>
        requires steady { IsSteady self.old }
        requires running { self.old.running ≡ true }
        requires takes { IsAskedWith R.RtReady request.now.args.items }
        requires callback { HasCallback R.RtReady request.now.args.items }
        requires lawful { All (λ v. IsLawful (seen v)) request.now.args.items }
        ensures keeps { Keeps self.old self.new }
        ensures steady { GoesSteady result self.new }
        ensures did { (names : Names) → Fits names self.old → (printed : Text) (s : States) → Acted names self.old request.now.function printed s s
            → Did names result self.new printed s (settles names self.old s (event_primitive (trees (program_in names self.old)) R.RtReady (values_of names request.now.args.items) (stack_in names self.old.machine) s)) }
    {
        match request.args.as_slice() {
            [callback, pointer] => {
                self.readies_callback(alloc, *callback, *pointer, request.function)
            }
            _ => unreachable!(),
        }
    }

    // A function with its pointer becomes ready.
    fn readies_callback(
        &mut self,
        alloc: Global,
        callback: Value,
        pointer: Value,
        function: Name,
    ) -> Result<Option<Outcome>, NoMemory>
        requires steady { IsSteady self.old }
        requires running { self.old.running ≡ true }
        requires callback { IsCode (seen callback) }
        requires pointer { IsLawful (seen pointer) }
        ensures keeps { Keeps self.old self.new }
        ensures steady { GoesSteady result self.new }
        ensures did { (names : Names) → Fits names self.old → (printed : Text) (s : States) → Acted names self.old function printed s s
            → Did names result self.new printed s (settles names self.old s (event_primitive (trees (program_in names self.old)) R.RtReady (value_of names callback ∷ value_of names pointer ∷ []) (stack_in names self.old.machine) s)) }
    {
        let Value::Code(called) = callback else {
            unreachable!();
        };
        match self
            .turns
            .agenda
            .ready(Item::With(Callback::of(called, pointer)))
        {
            Ok(()) => self.reply(alloc, function, Value::Unset),
            Err(_) => Err(NoMemory),
        }
    }

    /// A callback waits on a condition.
    pub(crate) fn waits(
        &mut self,
        alloc: Global,
        request: &Request,
        pending: &mut Vec<u8>,
    ) -> Result<Option<Outcome>, NoMemory>
        requires steady { IsSteady self.old }
        requires running { self.old.running ≡ true }
        requires takes { IsAskedWith R.RtWait request.now.args.items }
        requires callback { HasCallback R.RtWait request.now.args.items }
        requires lawful { All (λ v. IsLawful (seen v)) request.now.args.items }
        ensures keeps { Keeps self.old self.new }
        ensures steady { GoesSteady result self.new }
        ensures did { (names : Names) → Fits names self.old → (sent : Text) (s : States) → Acted names self.old request.now.function (sent ++ pending.old.items) s s
            → Did names result self.new (sent ++ pending.new.items) s (settles names self.old s (event_primitive (trees (program_in names self.old)) R.RtWait (values_of names request.now.args.items) (stack_in names self.old.machine) s)) }
    {
        match request.args.as_slice() {
            [cond, callback, pointer] => {
                let function = request.function;
                self.waits_on(alloc, *cond, *callback, *pointer, function, pending)
            }
            _ => unreachable!(),
        }
    }

    // A function with its pointer waits on the condition of a value.
    fn waits_on(
        &mut self,
        alloc: Global,
        cond: Value,
        callback: Value,
        pointer: Value,
        function: Name,
        pending: &mut Vec<u8>,
    ) -> Result<Option<Outcome>, NoMemory>
        requires steady { IsSteady self.old }
        requires running { self.old.running ≡ true }
        requires takes { IsAskedWith R.RtWait (cond ∷ callback ∷ pointer ∷ []) }
        requires callback { IsCode (seen callback) }
        requires pointer { IsLawful (seen pointer) }
        ensures keeps { Keeps self.old self.new }
        ensures steady { GoesSteady result self.new }
        ensures did { (names : Names) → Fits names self.old → (sent : Text) (s : States) → Acted names self.old function (sent ++ pending.old.items) s s
            → Did names result self.new (sent ++ pending.new.items) s (settles names self.old s (event_primitive (trees (program_in names self.old)) R.RtWait (value_of names cond ∷ value_of names callback ∷ value_of names pointer ∷ []) (stack_in names self.old.machine) s)) }
    {
        let Value::Cond(number) = cond else {
            unreachable!();
        };
        let Value::Code(called) = callback else {
            unreachable!();
        };
        if !self.turns.agenda.has_numbers() {
            return Err(NoMemory);
        }
        match self
            .turns
            .agenda
            .wait(number, Item::With(Callback::of(called, pointer)))
        {
            Ok(()) => self.marks(alloc, &Mark::Wait(number), function, pending),
            Err((_, Stop::Fault(fault))) => Ok(Some(Outcome::Failed(fault, function))),
            Err((_, Stop::Memory)) => Err(NoMemory),
        }
    }

    /// A callback waits for a time.
    pub(crate) fn sleeps(
        &mut self,
        alloc: Global,
        request: &Request,
        pending: &mut Vec<u8>,
    ) -> Result<Option<Outcome>, NoMemory>
        requires steady { IsSteady self.old }
        requires running { self.old.running ≡ true }
        requires takes { IsAskedWith R.RtSleep request.now.args.items }
        requires callback { HasCallback R.RtSleep request.now.args.items }
        requires lawful { All (λ v. IsLawful (seen v)) request.now.args.items }
        ensures keeps { Keeps self.old self.new }
        ensures steady { GoesSteady result self.new }
        ensures did { (names : Names) → Fits names self.old → (sent : Text) (s : States) → Acted names self.old request.now.function (sent ++ pending.old.items) s s
            → Did names result self.new (sent ++ pending.new.items) s (settles names self.old s (event_primitive (trees (program_in names self.old)) R.RtSleep (values_of names request.now.args.items) (stack_in names self.old.machine) s)) }
    {
        match request.args.as_slice() {
            [length, callback, pointer] => {
                let function = request.function;
                self.sleeps_for(alloc, *length, *callback, *pointer, function, pending)
            }
            _ => unreachable!(),
        }
    }

    // A function with its pointer waits for a length of time; a negative one is a fault.
    fn sleeps_for(
        &mut self,
        alloc: Global,
        length: Value,
        callback: Value,
        pointer: Value,
        function: Name,
        pending: &mut Vec<u8>,
    ) -> Result<Option<Outcome>, NoMemory>
        requires steady { IsSteady self.old }
        requires running { self.old.running ≡ true }
        requires length { IsNumber (seen length) }
        requires callback { IsCode (seen callback) }
        requires pointer { IsLawful (seen pointer) }
        ensures keeps { Keeps self.old self.new }
        ensures steady { GoesSteady result self.new }
        ensures did { (names : Names) → Fits names self.old → (sent : Text) (s : States) → Acted names self.old function (sent ++ pending.old.items) s s
            → Did names result self.new (sent ++ pending.new.items) s (settles names self.old s (event_primitive (trees (program_in names self.old)) R.RtSleep (value_of names length ∷ value_of names callback ∷ value_of names pointer ∷ []) (stack_in names self.old.machine) s)) }
    {
        let micros = long(length);
        let Value::Code(called) = callback else {
            unreachable!();
        };
        if !self.turns.agenda.has_numbers() {
            return Err(NoMemory);
        }
        match self
            .turns
            .agenda
            .sleep(micros, Item::With(Callback::of(called, pointer)))
        {
            Ok(()) => self.marks(alloc, &Mark::Sleep(micros), function, pending),
            Err((_, Stop::Fault(fault))) => Ok(Some(Outcome::Failed(fault, function))),
            Err((_, Stop::Memory)) => Err(NoMemory),
        }
    }

    /// A callback waits for a descriptor.
    pub(crate) fn awaits(
        &mut self,
        alloc: Global,
        request: &Request,
        pending: &mut Vec<u8>,
    ) -> Result<Option<Outcome>, NoMemory>
        requires steady { IsSteady self.old }
        requires running { self.old.running ≡ true }
        requires takes { IsAskedWith R.RtIo request.now.args.items }
        requires callback { HasCallback R.RtIo request.now.args.items }
        requires lawful { All (λ v. IsLawful (seen v)) request.now.args.items }
        ensures keeps { Keeps self.old self.new }
        ensures steady { GoesSteady result self.new }
        ensures did { (names : Names) → Fits names self.old → (sent : Text) (s : States) → Acted names self.old request.now.function (sent ++ pending.old.items) s s
            → Did names result self.new (sent ++ pending.new.items) s (settles names self.old s (event_primitive (trees (program_in names self.old)) R.RtIo (values_of names request.now.args.items) (stack_in names self.old.machine) s)) }
    {
        match request.args.as_slice() {
            [descriptor, way, callback, pointer] => {
                let function = request.function;
                self.awaits_at(
                    alloc,
                    (*descriptor, *way),
                    *callback,
                    *pointer,
                    function,
                    pending,
                )
            }
            _ => unreachable!(),
        }
    }

    // A function with its pointer waits for a descriptor in a direction.
    fn awaits_at(
        &mut self,
        alloc: Global,
        place: (Value, Value),
        callback: Value,
        pointer: Value,
        function: Name,
        pending: &mut Vec<u8>,
    ) -> Result<Option<Outcome>, NoMemory>
        requires steady { IsSteady self.old }
        requires running { self.old.running ≡ true }
        requires descriptor { IsNumber (seen place.0) }
        requires way { IsNumber (seen place.1) }
        requires callback { IsCode (seen callback) }
        requires pointer { IsLawful (seen pointer) }
        ensures keeps { Keeps self.old self.new }
        ensures steady { GoesSteady result self.new }
        ensures did { (names : Names) → Fits names self.old → (sent : Text) (s : States) → Acted names self.old function (sent ++ pending.old.items) s s
            → Did names result self.new (sent ++ pending.new.items) s (settles names self.old s (event_primitive (trees (program_in names self.old)) R.RtIo (value_of names place.0 ∷ value_of names place.1 ∷ value_of names callback ∷ value_of names pointer ∷ []) (stack_in names self.old.machine) s)) }
    {
        let descriptor = long(place.0);
        let number = long(place.1);
        let Value::Code(called) = callback else {
            unreachable!();
        };
        if !self.turns.agenda.has_numbers() {
            return Err(NoMemory);
        }
        let way = direction(number);
        let item = Item::With(Callback::of(called, pointer));
        match self.turns.agenda.io(alloc, descriptor, way, item) {
            Ok(()) => self.marks(alloc, &Mark::Io(descriptor, way), function, pending),
            Err(_) => Err(NoMemory),
        }
    }
}
