//! The machine: calls upon each other, and what the innermost one does next.
ghost use Rattle.std.specs.Prelude.{◌≡◌, ℕ, ◌+◌, ◌-◌, ◌<◌, ◌≤◌, ◌^◌, min, true, [], ◌∷◌, Option, Some, None, Ok, IfOk, OnOk, OnErr};
ghost use Rattle.std.specs.List.{All};
ghost use Rattle.cpc_tree.specs.Erase.{Names as Texts, function_of};
ghost use Rattle.cpc_tree.specs.Points as T;
ghost use Rattle.cpc_tree.specs.Typing.{function_named};
ghost use Rattle.cpc_tree.specs.Syntax as X;
ghost use Rattle.cpc_store.specs.Store as S;
ghost use Rattle.cpc_store.specs.Seen.{seen, result_with, IsLawful};
ghost use Rattle.cpc_meaning.specs.Answer as A;
ghost use Rattle.cpc_meaning.specs.Plain as P;
ghost use Rattle.cpc_meaning.specs.Runs as L;
ghost use Rattle.cpc_meaning.specs.Trees.{trees};
ghost use Rattle.cpc_eval_values.specs.Meets.{Meets};
ghost use Rattle.cpc_eval_values.specs.Shown.{value_of, values_of, store_of};
ghost use Rattle.cpc_eval_index.specs.Indexed.{items_of, IsOwn};
ghost use Rattle.cpc_native_points.specs.Seen.{path_of};
ghost use Rattle.cpc_native_frames.specs.Back.{IsAsBefore, CanTakeBack};
ghost use Rattle.cpc_native_frames.specs.Frames.{frame_of, IsWellFrame};
ghost use Rattle.cpc_native_acts.specs.Acts.{act_of, IsLawfulAct, IsLawfulIf, EntersOwn, enters_act, AsksServed as ActServed, AsksTaken as ActTaken};
ghost use Rattle.cpc_meaning.specs.Act as M;
ghost use Rattle.cpc_native_frames.specs.Made.{slots_of};
ghost use Rattle.cpc_native.specs.Stacks.{fault_of};
ghost use Rattle.cpc_tree.specs.Points.{Point};
ghost use Rattle.cpc_check_rules.specs.Apart.{AreApart};
ghost use Rattle.cpc_meaning_laws.specs.Cell.Cells.{call_cells};
ghost use Rattle.cpc_meaning.specs.Events.{Callback};
ghost use Rattle.cpc_meaning.specs.Machine.{State};
ghost use Rattle.cpc_meaning.specs.Runs.{live_cells};

use crate::calls::Calls;
use crate::going::go_on;
use crate::next::counted;
use cpc_base::{Name, Names, NoMemory, Stop};
use cpc_eval_index::Index;
use cpc_native_acts::{Act, step};
use cpc_native_builtins::Call;
use cpc_native_changes::foreseen;
use cpc_native_frames::{Frame, call_cells, enter, leave};
use cpc_num::Fault;
use cpc_store::{Block, Class, Store, Value};
use cpc_tree::program::Function;
use std::alloc::Global;
use std::mem;

/// What code asks of the loop: a primitive or a function of the host, with its converted arguments, which are what it takes, in
/// a function.
#[derive(Drop)]
pub struct Request {
    pub call: Call,
    pub args: Vec<Value>,
    pub function: Name,
}

/// What a step comes to.
#[derive(Drop)]
pub enum Stepped {
    /// The code goes on.
    Went,
    /// The outermost call was left with this value.
    Returned(Value),
    /// The code asks; it waits until it is answered.
    Asked(Request),
    /// A fault in the function of this name.
    Faulted(Fault, Name),
}

/// The calls of a program's functions upon each other, and the store that they share.
pub struct Machine<'p> {
    index: Index<'p>,
    texts: &'p Names,
    store: Store,
    calls: Calls<'p>,
    arriving: Option<Value>,
}

impl Drop for Machine<'_> {
    fn drop(self) {
        let Machine {
            index: _,
            texts: _,
            store,
            calls,
            arriving: _,
        } = self;
        drop(store);
        drop(calls);
    }
}

// The fault that a step comes to.
fn fault_of(stepped: &Stepped) -> Option<Fault>
    ensures { result ≡ fault_of stepped.now }
{
    match stepped {
        Stepped::Faulted(fault, _) => Some(*fault),
        _ => None,
    }
}

impl<'p> Machine<'p> {
    ghost use Rattle.cpc_native.specs.Stacks.{frames_of, stack_of, done_of, went, TellsRunning};
    ghost use Rattle.cpc_native.specs.Next.{FreesAlone, IsStateOf, LeavesSo, LeavesAtMost};
    ghost use Rattle.cpc_native.specs.Room.{HasPlace};
    ghost use Rattle.cpc_native.specs.Runs.{Runs};
    ghost use Rattle.cpc_native.specs.Well.{AreWell, IsWell, BackAfter, AskedBy, TellsFunction, Unchanged, IsSameBut, EndsEmpty, AsksServed, AsksTaken, IsOver, IsLawfulStep, StandsAgain, StandsBelow, SameCalls, IsIdle, StandsAtCall, IsStoreAsBefore};

    /// A machine with this store in which nothing runs. The texts are those of the names of the program that the index is of.
    pub fn new(alloc: Global, index: Index<'p>, texts: &'p Names, store: Store) -> Self
        ensures index { result.index ≡ index.entry }
        ensures texts { result.texts ≡ texts.entry }
        ensures store { result.store ≡ store }
        ensures calls { result.calls.frames.items ≡ [] }
        ensures arriving { result.arriving ≡ None }
        ensures well { IsWell result }
    {
        Machine {
            index,
            texts,
            store,
            calls: Calls::new(alloc),
            arriving: None,
        }
    }

    // Puts a call of a function upon the frames.
    fn push(
        &mut self,
        alloc: Global,
        function: &'p Function,
        arguments: &[Value],
    ) -> Result<(), NoMemory>
        requires calls { AreWell self.old.index self.old.calls.frames.items }
        requires own { IsOwn self.old.index function.now }
        requires lawful { All (λ v. IsLawful (seen v)) arguments.now }
        ensures made { OnOk result ((names : Texts) → Runs names self.old.texts.now (items_of names self.old.index) → (a : P.Frame T.Point × S.Store)
            → P.make_frame (trees (items_of names self.old.index)) (function_of names function.now) (values_of names arguments.now) (store_of names self.old.store) ≡ A.Gives a
            → (frames_of names self.new.calls.frames.items ≡ a.0 ∷ frames_of names self.old.calls.frames.items) × (store_of names self.new.store ≡ a.1)) }
        ensures arriving { OnOk result (self.new.arriving ≡ None) }
        ensures err { OnErr result (SameCalls self.old self.new) }
        ensures store { OnErr result (IsStoreAsBefore self.old self.new) }
        ensures well { OnOk result (IsWell self.new) }
        ensures index { self.new.index ≡ self.old.index }
        ensures texts { self.new.texts ≡ self.old.texts }
    {
        let frame = enter(alloc, &self.index, function, arguments, &mut self.store)?;
        match self.calls.make_room(&frame) {
            Ok(()) => {
                self.calls.put_back(frame);
                self.arriving = None;
                Ok(())
            }
            Err(error) => {
                // Its blocks are live, so this does not fault.
                let _ = leave(&frame.slots, &mut self.store);
                Err(error)
            }
        }
    }

    // Control goes on in the frame, as a test there holds or not.
    fn go_on(&mut self, mut frame: Frame<'p>, holds: bool) -> Stepped
        requires calls { AreWell self.old.index self.old.calls.frames.items }
        requires frame { IsWellFrame self.old.index frame }
        requires place { HasPlace self.old.calls frame }
        ensures meets { (names : Texts) → Runs names self.old.texts.now (items_of names self.old.index) → Meets (done_of names self.new result)
            (P.perform (trees (items_of names self.old.index)) (store_of names self.old.store) (frame_of names frame.entry) (frames_of names self.old.calls.frames.items) (M.GoesOn holds (store_of names self.old.store) (slots_of names frame.entry.slots.items))) }
        ensures well { IsWell self.new }
        ensures went { result ≡ Stepped.Went }
        ensures index { self.new.index ≡ self.old.index }
        ensures texts { self.new.texts ≡ self.old.texts }
    {
        go_on(&self.index, frame.function, &mut frame.point, holds);
        self.calls.put_back(frame);
        self.arriving = None;
        Stepped::Went
    }

    // The frame waits for the one of the function that it calls, which stands upon it.
    fn put_upon(&mut self, mut frame: Frame<'p>, callee: Frame<'p>) -> Result<(), NoMemory>
        requires calls { AreWell self.old.index self.old.calls.frames.items }
        requires frame { IsWellFrame self.old.index frame }
        requires callee { IsWellFrame self.old.index callee }
        requires place { HasPlace self.old.calls frame }
        requires arriving { IsLawfulIf self.old.arriving }
        ensures frames { OnOk result ((names : Texts) → frames_of names self.new.calls.frames.items
            ≡ frame_of names callee.entry ∷ P.moved_to (frame_of names frame.entry) (T.Arrival (path_of frame.entry.point.path.items)) ∷ frames_of names self.old.calls.frames.items) }
        ensures store { OnOk result (self.new.store ≡ self.old.store) }
        ensures arriving { OnOk result (self.new.arriving ≡ None) }
        ensures well { IsWell self.new }
        ensures err { OnErr result (StandsAgain frame.entry self.old self.new) }
        ensures back { OnErr result ((names : Texts) (s : S.Store) → CanTakeBack (slots_of names callee.entry.slots.items) s (store_of names self.old.store) → IsAsBefore s (store_of names self.new.store)) }
        ensures index { self.new.index ≡ self.old.index }
        ensures texts { self.new.texts ≡ self.old.texts }
    {
        match self.calls.reserve(&frame, &callee) {
            Ok(()) => {
                frame.point.arrive();
                self.calls.put_back(frame);
                self.calls.put_back(callee);
                self.arriving = None;
                Ok(())
            }
            Err(error) => {
                self.calls.put_back(frame);
                // Its blocks are live, so this does not fault.
                let _ = leave(&callee.slots, &mut self.store);
                Err(error)
            }
        }
    }

    // The frame waits, and a function is entered.
    fn enter(
        &mut self,
        alloc: Global,
        frame: Frame<'p>,
        function: &'p Function,
        arguments: &[Value],
    ) -> Result<Stepped, NoMemory>
        requires calls { AreWell self.old.index self.old.calls.frames.items }
        requires frame { IsWellFrame self.old.index frame }
        requires place { HasPlace self.old.calls frame }
        requires arriving { IsLawfulIf self.old.arriving }
        requires own { IsOwn self.old.index function.now }
        requires lawful { All (λ v. IsLawful (seen v)) arguments.now }
        ensures meets { IfOk result (λ stepped. (names : Texts) → Runs names self.old.texts.now (items_of names self.old.index) → Meets (done_of names self.new stepped)
            (P.perform (trees (items_of names self.old.index)) (store_of names self.old.store) (frame_of names frame.entry) (frames_of names self.old.calls.frames.items) (M.Enters (function_of names function.now) (values_of names arguments.now)))) }
        ensures err { OnErr result (StandsAgain frame.entry self.old self.new) }
        ensures store { OnErr result (IsStoreAsBefore self.old self.new) }
        ensures well { IsWell self.new }
        ensures went { IfOk result (λ stepped. stepped ≡ Stepped.Went) }
        ensures index { self.new.index ≡ self.old.index }
        ensures texts { self.new.texts ≡ self.old.texts }
    {
        match enter(alloc, &self.index, function, arguments, &mut self.store) {
            Ok(callee) => {
                self.put_upon(frame, callee)?;
                Ok(Stepped::Went)
            }
            Err(error) => {
                self.calls.put_back(frame);
                Err(error)
            }
        }
    }

    // A frame was left with a value, which arrives below it.
    fn leave(&mut self, given: Value) -> Stepped
        requires calls { AreWell self.old.index self.old.calls.frames.items }
        requires given { IsLawful (seen given) }
        ensures meets { (names : Texts) → done_of names self.new result ≡ Ok (P.returned_to (frames_of names self.old.calls.frames.items) (value_of names given) (store_of names self.old.store)) }
        ensures well { IsWell self.new }
        ensures lawful { IsLawfulStep result }
        ensures over { IsOver result }
        ensures empty { EndsEmpty result self.new }
        ensures index { self.new.index ≡ self.old.index }
        ensures texts { self.new.texts ≡ self.old.texts }
    {
        if self.calls.is_empty() {
            self.arriving = None;
            return Stepped::Returned(given);
        }
        self.arriving = Some(given);
        Stepped::Went
    }

    // What the act of a frame leads to, which stands above the others.
    fn perform(
        &mut self,
        alloc: Global,
        frame: Frame<'p>,
        act: Act<'p>,
    ) -> Result<Stepped, NoMemory>
        requires calls { AreWell self.old.index self.old.calls.frames.items }
        requires frame { IsWellFrame self.old.index frame }
        requires place { HasPlace self.old.calls frame }
        requires arriving { IsLawfulIf self.old.arriving }
        requires lawful { IsLawfulAct act }
        requires own { EntersOwn self.old.index act }
        ensures meets { IfOk result (λ stepped. (names : Texts) → Runs names self.old.texts.now (items_of names self.old.index) → Meets (done_of names self.new stepped)
            (P.perform (trees (items_of names self.old.index)) (store_of names self.old.store) (frame_of names frame.entry) (frames_of names self.old.calls.frames.items) (act_of names frame.entry.slots.items self.old.store act.entry))) }
        ensures err { OnErr result (StandsAgain frame.entry self.old self.new × (enters_act act.entry ≡ true)) }
        ensures store { OnErr result (IsStoreAsBefore self.old self.new) }
        ensures well { IsWell self.new }
        ensures lawful { IfOk result (λ stepped. IsLawfulStep stepped) }
        ensures told { IfOk result (λ stepped. TellsFunction stepped frame.entry) }
        ensures back { IfOk result (λ stepped. BackAfter stepped frame.entry self.old self.new) }
        ensures asked { IfOk result (λ stepped. AskedBy act.entry stepped) }
        ensures empty { IfOk result (λ stepped. EndsEmpty stepped self.new) }
        ensures served { IfOk result (λ stepped. ActServed act.entry → AsksServed stepped) }
        ensures takes { IfOk result (λ stepped. ActTaken act.entry → AsksTaken stepped) }
        ensures index { self.new.index ≡ self.old.index }
        ensures texts { self.new.texts ≡ self.old.texts }
    {
        match act {
            Act::GoesOn(holds) => Ok(self.go_on(frame, holds)),
            Act::Enters(function, arguments) => self.enter(alloc, frame, function, &arguments),
            Act::Leaves(value) => Ok(self.leave(value)),
            Act::Asks(call, args) => {
                let function = frame.function.word.name;
                self.calls.put_back(frame);
                Ok(Stepped::Asked(Request {
                    call,
                    args,
                    function,
                }))
            }
        }
    }

    /// Runs a call of the function of this name alone, whatever ran before. Where the program has no such function, nothing
    /// is said.
    ///
    /// `NoMemory` is want of memory, or of numbers for so many cells; then nothing runs, and the store is as it was, but for the
    /// numbers of blocks that were made and freed.
    pub fn call(
        &mut self,
        alloc: Global,
        function: Name,
        arguments: &[Value],
    ) -> Result<(), NoMemory>
        requires { All (λ v. IsLawful (seen v)) arguments.now }
        ensures runs { OnOk result ((names : Texts) → Runs names self.old.texts.now (items_of names self.old.index) → (g : X.Function) (a : P.Frame T.Point × S.Store)
            → function_named (items_of names self.old.index) (names function) ≡ Some g → P.make_frame (trees (items_of names self.old.index)) g (values_of names arguments.now) (store_of names self.old.store) ≡ A.Gives a
            → (stack_of names self.new ≡ P.stack_of a.0) × (store_of names self.new.store ≡ a.1)) }
        ensures err { OnErr result (IsIdle self.new) }
        ensures store { OnErr result (IsStoreAsBefore self.old self.new) }
        ensures well { OnOk result (IsWell self.new) }
        ensures index { self.new.index ≡ self.old.index }
        ensures texts { self.new.texts ≡ self.old.texts }
    {
        self.calls.clear();
        self.arriving = None;
        match self.index.function(function) {
            Some(function) => {
                self.push(alloc, function, arguments)?;
                Ok(())
            }
            None => Ok(()),
        }
    }

    /// A step of the innermost call, by the definition of native code. A step that asks or faults changes nothing; the
    /// name that it tells is that of the function whose code runs. Where nothing runs, nothing is said.
    ///
    /// `NoMemory` is want of memory, or of numbers for so many cells, and comes only where a call stands. Then the calls stand as
    /// they were, and so does what arrives; the store is as it was, but for the numbers of blocks that were made and freed.
    pub fn step(&mut self, alloc: Global) -> Result<Stepped, NoMemory>
        requires { IsWell self.old }
        ensures meets { IfOk result (λ stepped. (names : Texts) → Runs names self.old.texts.now (items_of names self.old.index)
            → Meets (done_of names self.new stepped) (P.plain (trees (items_of names self.old.index)) (store_of names self.old.store) (stack_of names self.old))) }
        ensures err { OnErr result (StandsBelow self.old self.new) }
        ensures stack { OnErr result ((names : Texts) → stack_of names self.new ≡ stack_of names self.old) }
        ensures store { OnErr result (IsStoreAsBefore self.old self.new) }
        ensures refused { OnErr result (StandsAtCall self.old) }
        ensures well { IsWell self.new }
        ensures lawful { IfOk result (λ stepped. IsLawfulStep stepped) }
        ensures told { IfOk result (λ stepped. (names : Texts) → TellsRunning names self.old stepped) }
        ensures kept { IfOk result (λ stepped. Unchanged stepped self.old self.new) }
        ensures empty { IfOk result (λ stepped. EndsEmpty stepped self.new) }
        ensures served { IfOk result (λ stepped. (names : Texts) → Runs names self.old.texts.now (items_of names self.old.index) → AsksServed stepped) }
        ensures takes { IfOk result (λ stepped. AsksTaken stepped) }
        ensures index { self.new.index ≡ self.old.index }
        ensures texts { self.new.texts ≡ self.old.texts }
    {
        let Some(mut frame) = self.calls.take() else {
            return Ok(Stepped::Went);
        };
        match step(
            alloc,
            &self.index,
            self.texts,
            &mut frame,
            &mut self.store,
            self.arriving,
        ) {
            Ok(act) => {
                let stepped = self.perform(alloc, frame, act)?;
                Ok(stepped)
            }
            Err(Stop::Memory) => {
                self.calls.put_back(frame);
                Err(NoMemory)
            }
            Err(Stop::Fault(fault)) => {
                let function = frame.function.word.name;
                self.calls.put_back(frame);
                Ok(Stepped::Faulted(fault, function))
            }
        }
    }

    /// The answer to what the innermost call asks, in the step that asked: the value arrives there, and control goes on.
    /// Where it asks nothing, nothing is said. It takes no memory.
    ///
    /// A fault is that of the place for the value. It leaves the store as it was; of the calls nothing is said after it.
    pub fn answer(&mut self, alloc: Global, value: Value) -> Result<(), Fault>
        requires well { IsWell self.old }
        requires value { IsLawful (seen value) }
        ensures meets { (names : Texts) → Runs names self.old.texts.now (items_of names self.old.index)
            → Meets (went names self.new result) (P.answered (trees (items_of names self.old.index)) (store_of names self.old.store) (stack_of names self.old) (value_of names value)) }
        ensures store { OnErr result (self.new.store ≡ self.old.store) }
        ensures well { IsWell self.new }
        ensures index { self.new.index ≡ self.old.index }
        ensures texts { self.new.texts ≡ self.old.texts }
    {
        let Some(mut frame) = self.calls.take() else {
            return Ok(());
        };
        frame.point.arrive();
        self.calls.put_back(frame);
        self.arriving = Some(value);
        match self.step(alloc) {
            Ok(stepped) => match fault_of(&stepped) {
                Some(fault) => Err(fault),
                None => Ok(()),
            },
            // No call stands where a value arrives.
            Err(_) => unreachable!(),
        }
    }

    /// How many cells are live: those of the blocks of the store, and one for each register; u64::MAX stands for every greater number.
    pub fn live_cells(&self) -> u64
        ensures { (names : Texts) → result ≡ min (S.store_cells (store_of names self.now.store) + L.frames_registers (stack_of names self.now).frames) (2 ^ 64 - 1) }
    {
        self.store
            .live_cells()
            .saturating_add(self.calls.registers())
    }

    /// How many cells are live once the next step is made, what it asks for included, told before it is made. A step that
    /// faults leaves those that there are. Where nothing runs, those that are live now. `u64::MAX` stands for every greater
    /// number. No memory is taken. The number is exact where nothing takes the value of a freed block, as in every program
    /// that breaks no rule (`next`), and wherever it is more than is live now (`more`); within a cap it is never too small
    /// (`within`). That is told of states with fewer than 2^62 live cells.
    pub fn next_cells(&self) -> u64
        requires { IsWell self.now }
        ensures next { (names : Texts) (s : State Point Callback) → IsStateOf names self.now s → FreesAlone (trees (items_of names self.now.index)) s.store (stack_of names self.now) → LeavesSo names self.now s result }
        ensures more { (names : Texts) (s : State Point Callback) → IsStateOf names self.now s → live_cells s < result → LeavesSo names self.now s result }
        ensures within { (names : Texts) (s : State Point Callback) → IsStateOf names self.now s → (cap : ℕ) → cap < 2 ^ 62 → live_cells s ≤ cap → result ≤ cap → LeavesAtMost names self.now s cap }
        ensures idle { self.now.calls.frames.items ≡ [] → (names : Texts) → result ≡ min (S.store_cells (store_of names self.now.store)) (2 ^ 64 - 1) }
    {
        let live = self.live_cells();
        let Some(frame) = self.calls.last() else {
            return live;
        };
        let change = foreseen(&self.index, self.texts, frame, &self.store);
        counted(live, change, &self.index, &frame.slots, &self.store)
    }

    /// How many cells are live once a function of this name is called, where nothing runs; where the program has none, those
    /// that are live now. `u64::MAX` stands for every greater number. No memory is taken.
    pub fn cells_with(&self, function: Name) -> u64
        ensures some { (names : Texts) → AreApart names → (g : X.Function) → function_named (items_of names self.now.index) (names function) ≡ Some g
            → result ≡ min (S.store_cells (store_of names self.now.store) + L.frames_registers (stack_of names self.now).frames + call_cells (items_of names self.now.index) g) (2 ^ 64 - 1) }
        ensures none { (names : Texts) → AreApart names → function_named (items_of names self.now.index) (names function) ≡ None
            → result ≡ min (S.store_cells (store_of names self.now.store) + L.frames_registers (stack_of names self.now).frames) (2 ^ 64 - 1) }
    {
        let live = self.live_cells();
        match self.index.locals(function) {
            Some(locals) => live.saturating_add(call_cells(&self.index, &locals)),
            None => live,
        }
    }

    /// The store.
    pub fn store(&self) -> &Store
        ensures { result.now ≡ self.now.store }
    {
        &self.store
    }

    /// Puts another store in the place of the one that is there, which is handed out.
    pub fn replace_store(&mut self, store: Store) -> Store
        requires well { IsWell self.old }
        ensures value { result ≡ self.old.store }
        ensures store { self.new.store ≡ store }
        ensures well { IsWell self.new }
        ensures same { IsSameBut self.old self.new }
    {
        mem::replace(&mut self.store, store)
    }

    /// Makes the next block of a class in the store, its cells unset.
    ///
    /// An error leaves the machine as it was.
    pub fn alloc(&mut self, alloc: Global, class: Class, cells: u64) -> Result<Block, NoMemory>
        requires well { IsWell self.old }
        requires live { S.store_cells self.old.store + cells < 2 ^ 63 }
        requires made { S.next_block class self.old.store + 1 < 2 ^ 63 }
        ensures block { IfOk result (λ b. b ≡ record { class = class; number = S.next_block class self.old.store }) }
        ensures ok { OnOk result (self.new.store ≡ S.alloc class (S.unset_cells cells) self.old.store) }
        ensures err { OnErr result (self.new.store ≡ self.old.store) }
        ensures well { IsWell self.new }
        ensures same { IsSameBut self.old self.new }
    {
        self.store.alloc(alloc, class, cells)
    }

    /// Drops a block of a class of the store, to whose first cell a pointer points. `Null` drops nothing.
    ///
    /// `Unset`, `BadFree`: as `Store::free` has them.
    pub fn free(&mut self, class: Class, what: Value) -> Result<(), Fault>
        requires well { IsWell self.old }
        requires what { IsLawful (seen what) }
        ensures value { result_with self.new.store result ≡ S.free class (seen what) self.old.store }
        ensures err { OnErr result (self.new.store ≡ self.old.store) }
        ensures well { IsWell self.new }
        ensures same { IsSameBut self.old self.new }
    {
        self.store.free(class, what)
    }
}
