//! What the running code asks of the clock and of conditions.
ghost use Rattle.std.specs.Prelude.{◌≡◌, [], ◌∷◌, true, None};
ghost use Rattle.cpc_base.specs.Bytes.{Text};
ghost use Rattle.cpc_tree.specs.Erase.{Names};
ghost use Rattle.cpc_tree.specs.Primitives as R;
ghost use Rattle.cpc_meaning.specs.Events.{callbacks};
ghost use Rattle.cpc_meaning.specs.Machine.{primitive};
ghost use Rattle.cpc_eval_values.specs.Shown.{value_of, values_of};
ghost use Rattle.cpc_run_code.specs.NativeActsTaken.{IsAskedWith};
ghost use Rattle.cpc_run_code.specs.Code.{stack_in};
ghost use Rattle.cpc_run.specs.States.{States, Fits, IsSteady, GoesSteady, Keeps, Did, Acted, settles, program_in};

use crate::looped::Loop;
use cpc_base::{Name, NoMemory, Stop};
use cpc_num::Kind;
use cpc_run_code::Request;
use cpc_run_shown::Outcome;
use cpc_store::Value;
use std::alloc::Global;

impl<'p> Loop<'p> {
    /// The greatest clock that was told.
    pub(crate) fn tells_time(
        &mut self,
        alloc: Global,
        request: &Request,
    ) -> Result<Option<Outcome>, NoMemory>
        requires steady { IsSteady self.old }
        requires running { self.old.running ≡ true }
        requires takes { IsAskedWith R.Now request.now.args.items }
        ensures keeps { Keeps self.old self.new }
        ensures steady { GoesSteady result self.new }
        ensures did { (names : Names) → Fits names self.old → (printed : Text) (s : States) → Acted names self.old request.now.function printed s s
            → Did names result self.new printed s (settles names self.old s (primitive (callbacks (program_in names self.old)) R.Now (values_of names request.now.args.items) (stack_in names self.old.machine) s)) }
    {
        match request.args.as_slice() {
            [] => self.replies_time(alloc, request.function),
            _ => unreachable!(),
        }
    }

    // The clock is a long: it is at most 2^53.
    fn replies_time(&mut self, alloc: Global, function: Name) -> Result<Option<Outcome>, NoMemory>
        requires steady { IsSteady self.old }
        requires running { self.old.running ≡ true }
        ensures keeps { Keeps self.old self.new }
        ensures steady { GoesSteady result self.new }
        ensures did { (names : Names) → Fits names self.old → (printed : Text) (s : States) → Acted names self.old function printed s s
            → Did names result self.new printed s (settles names self.old s (primitive (callbacks (program_in names self.old)) R.Now [] (stack_in names self.old.machine) s)) }
    {
        let time = self.turns.agenda.now() as i128;
        self.reply(alloc, function, Value::Int(Kind::Long, time))
    }

    /// A new condition.
    pub(crate) fn makes_condition(
        &mut self,
        alloc: Global,
        request: &Request,
    ) -> Result<Option<Outcome>, NoMemory>
        requires steady { IsSteady self.old }
        requires running { self.old.running ≡ true }
        requires takes { IsAskedWith R.CondNew request.now.args.items }
        ensures keeps { Keeps self.old self.new }
        ensures steady { GoesSteady result self.new }
        ensures did { (names : Names) → Fits names self.old → (printed : Text) (s : States) → Acted names self.old request.now.function printed s s
            → Did names result self.new printed s (settles names self.old s (primitive (callbacks (program_in names self.old)) R.CondNew (values_of names request.now.args.items) (stack_in names self.old.machine) s)) }
    {
        match request.args.as_slice() {
            [] => self.replies_condition(alloc, request.function),
            _ => unreachable!(),
        }
    }

    // A new condition, where there are numbers left.
    fn replies_condition(
        &mut self,
        alloc: Global,
        function: Name,
    ) -> Result<Option<Outcome>, NoMemory>
        requires steady { IsSteady self.old }
        requires running { self.old.running ≡ true }
        ensures keeps { Keeps self.old self.new }
        ensures steady { GoesSteady result self.new }
        ensures did { (names : Names) → Fits names self.old → (printed : Text) (s : States) → Acted names self.old function printed s s
            → Did names result self.new printed s (settles names self.old s (primitive (callbacks (program_in names self.old)) R.CondNew [] (stack_in names self.old.machine) s)) }
    {
        if !self.turns.agenda.has_numbers() {
            return Err(NoMemory);
        }
        let cond = self.turns.agenda.cond_new(alloc)?;
        self.reply(alloc, function, Value::Cond(cond))
    }

    /// A condition on which nobody waits is released.
    pub(crate) fn frees_condition(
        &mut self,
        alloc: Global,
        request: &Request,
    ) -> Result<Option<Outcome>, NoMemory>
        requires steady { IsSteady self.old }
        requires running { self.old.running ≡ true }
        requires takes { IsAskedWith R.CondFree request.now.args.items }
        ensures keeps { Keeps self.old self.new }
        ensures steady { GoesSteady result self.new }
        ensures did { (names : Names) → Fits names self.old → (printed : Text) (s : States) → Acted names self.old request.now.function printed s s
            → Did names result self.new printed s (settles names self.old s (primitive (callbacks (program_in names self.old)) R.CondFree (values_of names request.now.args.items) (stack_in names self.old.machine) s)) }
    {
        match request.args.as_slice() {
            [cond] => self.frees_cond(alloc, *cond, request.function),
            _ => unreachable!(),
        }
    }

    // The condition of a value is released.
    fn frees_cond(
        &mut self,
        alloc: Global,
        cond: Value,
        function: Name,
    ) -> Result<Option<Outcome>, NoMemory>
        requires steady { IsSteady self.old }
        requires running { self.old.running ≡ true }
        requires takes { IsAskedWith R.CondFree (cond ∷ []) }
        ensures keeps { Keeps self.old self.new }
        ensures steady { GoesSteady result self.new }
        ensures did { (names : Names) → Fits names self.old → (printed : Text) (s : States) → Acted names self.old function printed s s
            → Did names result self.new printed s (settles names self.old s (primitive (callbacks (program_in names self.old)) R.CondFree (value_of names cond ∷ []) (stack_in names self.old.machine) s)) }
    {
        let Value::Cond(number) = cond else {
            unreachable!();
        };
        match self.turns.agenda.cond_free(number) {
            Ok(()) => self.reply(alloc, function, Value::Unset),
            Err(fault) => Ok(Some(Outcome::Failed(fault, function))),
        }
    }

    /// The longest waiter of a condition becomes ready, if there is one.
    pub(crate) fn signals(
        &mut self,
        alloc: Global,
        request: &Request,
    ) -> Result<Option<Outcome>, NoMemory>
        requires steady { IsSteady self.old }
        requires running { self.old.running ≡ true }
        requires takes { IsAskedWith R.Signal request.now.args.items }
        ensures keeps { Keeps self.old self.new }
        ensures steady { GoesSteady result self.new }
        ensures did { (names : Names) → Fits names self.old → (printed : Text) (s : States) → Acted names self.old request.now.function printed s s
            → Did names result self.new printed s (settles names self.old s (primitive (callbacks (program_in names self.old)) R.Signal (values_of names request.now.args.items) (stack_in names self.old.machine) s)) }
    {
        match request.args.as_slice() {
            [cond] => self.signals_cond(alloc, *cond, request.function),
            _ => unreachable!(),
        }
    }

    // The longest waiter of the condition of a value becomes ready.
    fn signals_cond(
        &mut self,
        alloc: Global,
        cond: Value,
        function: Name,
    ) -> Result<Option<Outcome>, NoMemory>
        requires steady { IsSteady self.old }
        requires running { self.old.running ≡ true }
        requires takes { IsAskedWith R.Signal (cond ∷ []) }
        ensures keeps { Keeps self.old self.new }
        ensures steady { GoesSteady result self.new }
        ensures did { (names : Names) → Fits names self.old → (printed : Text) (s : States) → Acted names self.old function printed s s
            → Did names result self.new printed s (settles names self.old s (primitive (callbacks (program_in names self.old)) R.Signal (value_of names cond ∷ []) (stack_in names self.old.machine) s)) }
    {
        let Value::Cond(number) = cond else {
            unreachable!();
        };
        match self.turns.agenda.signal(number) {
            Ok(()) => self.reply(alloc, function, Value::Unset),
            Err(Stop::Fault(fault)) => Ok(Some(Outcome::Failed(fault, function))),
            Err(Stop::Memory) => Err(NoMemory),
        }
    }

    /// All waiters of a condition become ready, in waiting order.
    pub(crate) fn signals_all(
        &mut self,
        alloc: Global,
        request: &Request,
    ) -> Result<Option<Outcome>, NoMemory>
        requires steady { IsSteady self.old }
        requires running { self.old.running ≡ true }
        requires takes { IsAskedWith R.SignalAll request.now.args.items }
        ensures keeps { Keeps self.old self.new }
        ensures steady { GoesSteady result self.new }
        ensures did { (names : Names) → Fits names self.old → (printed : Text) (s : States) → Acted names self.old request.now.function printed s s
            → Did names result self.new printed s (settles names self.old s (primitive (callbacks (program_in names self.old)) R.SignalAll (values_of names request.now.args.items) (stack_in names self.old.machine) s)) }
    {
        match request.args.as_slice() {
            [cond] => self.signals_each(alloc, *cond, request.function),
            _ => unreachable!(),
        }
    }

    // All waiters of the condition of a value become ready.
    fn signals_each(
        &mut self,
        alloc: Global,
        cond: Value,
        function: Name,
    ) -> Result<Option<Outcome>, NoMemory>
        requires steady { IsSteady self.old }
        requires running { self.old.running ≡ true }
        requires takes { IsAskedWith R.SignalAll (cond ∷ []) }
        ensures keeps { Keeps self.old self.new }
        ensures steady { GoesSteady result self.new }
        ensures did { (names : Names) → Fits names self.old → (printed : Text) (s : States) → Acted names self.old function printed s s
            → Did names result self.new printed s (settles names self.old s (primitive (callbacks (program_in names self.old)) R.SignalAll (value_of names cond ∷ []) (stack_in names self.old.machine) s)) }
    {
        let Value::Cond(number) = cond else {
            unreachable!();
        };
        match self.turns.agenda.signal_all(number) {
            Ok(()) => self.reply(alloc, function, Value::Unset),
            Err(Stop::Fault(fault)) => Ok(Some(Outcome::Failed(fault, function))),
            Err(Stop::Memory) => Err(NoMemory),
        }
    }
}
