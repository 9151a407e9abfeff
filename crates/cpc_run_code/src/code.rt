//! The machine of code by the texts of names: what it runs, its store and its stack.
ghost use Rattle.std.specs.Prelude.{◌≡◌, ℕ, map, ◌+◌, ◌<◌, ◌≤◌, ◌^◌, ◌-◌, IfOk, OnOk, OnErr, min, Some, None};
ghost use Rattle.std.specs.List.{All};
ghost use Rattle.cpc_tree.specs.Erase.{Names as Spelling, item_of};
ghost use Rattle.cpc_tree.specs.Typing.{function_named};
ghost use Rattle.cpc_tree.specs.Syntax as T;
ghost use Rattle.cpc_tree.specs.Points.{Point};
ghost use Rattle.cpc_meaning.specs.Answer.{Gives};
ghost use Rattle.cpc_meaning.specs.Plain as P;
ghost use Rattle.cpc_meaning.specs.Events.{Callback, callbacks};
ghost use Rattle.cpc_meaning.specs.Machine.{State, try_step};
ghost use Rattle.cpc_meaning.specs.Runs.{frames_registers, live_cells};
ghost use Rattle.cpc_meaning_laws.specs.Pointer.Made.{IsMadeCode};
ghost use Rattle.cpc_meaning_laws.specs.Cell.Cells.{call_cells};
ghost use Rattle.cpc_meaning.specs.Trees.{trees};
ghost use Rattle.cpc_store.specs.Seen.{seen, result_with, IsLawful};
ghost use Rattle.cpc_store.specs.Store as S;
ghost use Rattle.cpc_eval_values.specs.Shown.{value_of, values_of, store_of};
ghost use Rattle.cpc_native.specs.Back.{IsAsBefore};
ghost use Rattle.cpc_native.specs.Next.{FreesAlone};
ghost use Rattle.cpc_native.specs.Well.{IsLawfulStep, AsksServed, AsksTaken};
ghost use Rattle.cpc_eval_index.specs.Indexed.{program_items};
ghost use Rattle.cpc_run_code.specs.Code.{items_in, store_in, stack_in, IsIdle, IsWell, Runs, StandsAtCall, StepIs, AnswerIs, AskedIn, FaultsIn, EndsIdle, Given};

use cpc_base::{Name, Names, NoMemory};
use cpc_eval_index::Index;
use cpc_native::{Machine, Stepped};
use cpc_num::Fault;
use cpc_store::{Block, Class, Store, Value};
use cpc_tree::program::Program;
use std::alloc::Global;

/// The running code.
#[derive(Drop)]
pub struct Code<'p> {
    machine: Machine<'p>,
}

impl<'p> Code<'p> {
    /// Nothing runs. The index is of the program.
    pub fn new(alloc: Global, program: &'p Program, index: Index<'p>, store: Store) -> Code<'p>
        requires index { program_items index ≡ program.now.items.items }
        ensures store { (names : Spelling) → store_in names result ≡ store_of names store }
        ensures items { (names : Spelling) → items_in names result ≡ map (item_of names) program.now.items.items }
        ensures runs { (names : Spelling) → Given names program.now → Runs names result }
        ensures idle { IsIdle result }
        ensures well { IsWell result }
    {
        let machine = Machine::new(alloc, index, &program.names, store);
        Code { machine }
    }

    /// A function is called, at the bottom of the stack. `NoMemory` is want of memory; then nothing runs, and the store is as it was, but
    /// for the numbers of blocks that were made and freed.
    pub fn call(&mut self, alloc: Global, function: Name, args: &[Value]) -> Result<(), NoMemory>
        requires lawful { All (λ v. IsLawful (seen v)) args.now }
        ensures items { (names : Spelling) → items_in names self.new ≡ items_in names self.old }
        ensures runs { (names : Spelling) → Runs names self.old → Runs names self.new }
        ensures well { OnOk result (IsWell self.new) }
        ensures entered { OnOk result ((names : Spelling) → Runs names self.old → (g : T.Function) (frame : P.Frame Point) (t : S.Store)
            → function_named (items_in names self.old) (names function) ≡ Some g
            → P.make_frame (trees (items_in names self.old)) g (values_of names args.now) (store_in names self.old) ≡ Gives (frame, t)
            → (stack_in names self.new ≡ P.stack_of frame) × (store_in names self.new ≡ t)) }
        ensures idle { OnErr result (IsIdle self.new) }
        ensures store { OnErr result ((names : Spelling) → IsAsBefore (store_in names self.old) (store_in names self.new)) }
    {
        self.machine.call(alloc, function, args)
    }

    /// A step of the running code. A step that asks or faults leaves stack and store as they were.
    ///
    /// `NoMemory` is want of memory, and comes only where a call stands; then the stack is as it was, and so is the store, but for the
    /// numbers of blocks that were made and freed.
    pub fn step(&mut self, alloc: Global) -> Result<Stepped, NoMemory>
        requires well { IsWell self.old }
        ensures items { (names : Spelling) → items_in names self.new ≡ items_in names self.old }
        ensures runs { (names : Spelling) → Runs names self.old → Runs names self.new }
        ensures well { IsWell self.new }
        ensures lawful { IfOk result (λ stepped. IsLawfulStep stepped) }
        ensures idle { IfOk result (λ stepped. EndsIdle stepped self.new) }
        ensures asked { IfOk result (λ stepped. (names : Spelling) → AskedIn names self.old self.new stepped) }
        ensures faulted { IfOk result (λ stepped. (names : Spelling) → FaultsIn names self.old self.new stepped) }
        ensures served { IfOk result (λ stepped. (names : Spelling) → Runs names self.old → AsksServed stepped) }
        ensures takes { IfOk result (λ stepped. AsksTaken stepped) }
        ensures did { (names : Spelling) → Runs names self.old → StepIs names self.new result (P.plain (trees (items_in names self.old)) (store_in names self.old) (stack_in names self.old)) }
        ensures refused { OnErr result (StandsAtCall self.old) }
        ensures stack { OnErr result ((names : Spelling) → stack_in names self.new ≡ stack_in names self.old) }
        ensures store { OnErr result ((names : Spelling) → IsAsBefore (store_in names self.old) (store_in names self.new)) }
    {
        self.machine.step(alloc)
    }

    /// The value of a request arrives, in the step that asked. It takes no memory.
    ///
    /// A fault is that of the place for the value. It leaves the store as it was; of the stack nothing is said after it.
    pub fn answer(&mut self, alloc: Global, value: Value) -> Result<(), Fault>
        requires well { IsWell self.old }
        requires lawful { IsLawful (seen value) }
        ensures items { (names : Spelling) → items_in names self.new ≡ items_in names self.old }
        ensures runs { (names : Spelling) → Runs names self.old → Runs names self.new }
        ensures well { IsWell self.new }
        ensures answered { (names : Spelling) → Runs names self.old → AnswerIs names self.new result (P.answered (trees (items_in names self.old)) (store_in names self.old) (stack_in names self.old) (value_of names value)) }
        ensures store { OnErr result ((names : Spelling) → store_in names self.new ≡ store_in names self.old) }
    {
        self.machine.answer(alloc, value)
    }

    /// The cells of live blocks, and the registers of the running code; `u64::MAX` stands for every greater number.
    pub fn live_cells(&self) -> u64
        ensures { (names : Spelling) → result ≡ min (S.store_cells (store_in names self.now) + frames_registers (stack_in names self.now).frames) (2 ^ 64 - 1) }
    {
        self.machine.live_cells()
    }

    /// How many cells are live once the next step is made, what it asks for included; `u64::MAX` stands for every greater
    /// number. It is exact where nothing takes the value of a freed block (`next`), and wherever it is more than is live now (`more`);
    /// within a cap it is never too small (`within`). That is told of states with fewer than 2^62 live cells.
    pub fn next_cells(&self) -> u64
        requires well { IsWell self.now }
        ensures next { (names : Spelling) (s : State Point Callback) → Runs names self.now → s.store ≡ store_in names self.now → s.running ≡ Some (stack_in names self.now) → IsMadeCode s.store (stack_in names self.now)
            → live_cells s < 2 ^ 62 → FreesAlone (trees (items_in names self.now)) s.store (stack_in names self.now) → (t : State Point Callback) → try_step (callbacks (items_in names self.now)) s ≡ Some t → result ≡ min (live_cells t) (2 ^ 64 - 1) }
        ensures more { (names : Spelling) (s : State Point Callback) → Runs names self.now → s.store ≡ store_in names self.now → s.running ≡ Some (stack_in names self.now) → IsMadeCode s.store (stack_in names self.now)
            → live_cells s < 2 ^ 62 → live_cells s < result → (t : State Point Callback) → try_step (callbacks (items_in names self.now)) s ≡ Some t → result ≡ min (live_cells t) (2 ^ 64 - 1) }
        ensures within { (names : Spelling) (s : State Point Callback) → Runs names self.now → s.store ≡ store_in names self.now → s.running ≡ Some (stack_in names self.now) → IsMadeCode s.store (stack_in names self.now)
            → (cap : ℕ) → cap < 2 ^ 62 → live_cells s ≤ cap → result ≤ cap → (t : State Point Callback) → try_step (callbacks (items_in names self.now)) s ≡ Some t → live_cells t ≤ cap }
    {
        self.machine.next_cells()
    }

    /// How many cells are live once a function of this name is called, where nothing runs; where the program has none, those
    /// that are live now. `u64::MAX` stands for every greater number.
    pub fn cells_with(&self, function: Name) -> u64
        ensures some { (names : Spelling) → Runs names self.now → (g : T.Function) → function_named (items_in names self.now) (names function) ≡ Some g
            → result ≡ min (S.store_cells (store_in names self.now) + frames_registers (stack_in names self.now).frames + call_cells (items_in names self.now) g) (2 ^ 64 - 1) }
        ensures none { (names : Spelling) → Runs names self.now → function_named (items_in names self.now) (names function) ≡ None
            → result ≡ min (S.store_cells (store_in names self.now) + frames_registers (stack_in names self.now).frames) (2 ^ 64 - 1) }
    {
        self.machine.cells_with(function)
    }

    /// How many blocks of a class were made.
    pub fn made(&self, class: Class) -> u64
        ensures { (names : Spelling) → result ≡ S.next_block class (store_in names self.now) }
    {
        self.machine.store().made(class)
    }

    /// The store, to be read.
    pub fn store(&self) -> &Store
        ensures { (names : Spelling) → store_of names result.now ≡ store_in names self.now }
    {
        self.machine.store()
    }

    /// Puts another store in the place of the one that is there, which is handed out.
    pub fn replace_store(&mut self, store: Store) -> Store
        requires well { IsWell self.old }
        ensures value { (names : Spelling) → store_of names result ≡ store_in names self.old }
        ensures store { (names : Spelling) → store_in names self.new ≡ store_of names store }
        ensures items { (names : Spelling) → items_in names self.new ≡ items_in names self.old }
        ensures runs { (names : Spelling) → Runs names self.old → Runs names self.new }
        ensures stack { (names : Spelling) → stack_in names self.new ≡ stack_in names self.old }
        ensures idle { IsIdle self.old → IsIdle self.new }
        ensures well { IsWell self.new }
    {
        self.machine.replace_store(store)
    }

    /// Makes the next block of a class, its cells unset. `NoMemory` is want of memory, and leaves the store as it was.
    pub fn alloc(&mut self, alloc: Global, class: Class, cells: u64) -> Result<Block, NoMemory>
        requires well { IsWell self.old }
        requires live { (names : Spelling) → S.store_cells (store_in names self.old) + cells < 2 ^ 63 }
        requires made { (names : Spelling) → S.next_block class (store_in names self.old) + 1 < 2 ^ 63 }
        ensures items { (names : Spelling) → items_in names self.new ≡ items_in names self.old }
        ensures runs { (names : Spelling) → Runs names self.old → Runs names self.new }
        ensures stack { (names : Spelling) → stack_in names self.new ≡ stack_in names self.old }
        ensures well { IsWell self.new }
        ensures block { IfOk result (λ b. (names : Spelling) → b ≡ record { class = class; number = S.next_block class (store_in names self.old) }) }
        ensures ok { OnOk result ((names : Spelling) → store_in names self.new ≡ S.alloc class (S.unset_cells cells) (store_in names self.old)) }
        ensures err { OnErr result ((names : Spelling) → store_in names self.new ≡ store_in names self.old) }
    {
        self.machine.alloc(alloc, class, cells)
    }

    /// Drops a block of the class. A fault leaves the store as it was.
    pub fn free(&mut self, class: Class, what: Value) -> Result<(), Fault>
        requires well { IsWell self.old }
        requires lawful { IsLawful (seen what) }
        ensures items { (names : Spelling) → items_in names self.new ≡ items_in names self.old }
        ensures runs { (names : Spelling) → Runs names self.old → Runs names self.new }
        ensures stack { (names : Spelling) → stack_in names self.new ≡ stack_in names self.old }
        ensures well { IsWell self.new }
        ensures value { (names : Spelling) → result_with (store_in names self.new) result ≡ S.free class (value_of names what) (store_in names self.old) }
        ensures err { OnErr result ((names : Spelling) → store_in names self.new ≡ store_in names self.old) }
    {
        self.machine.free(class, what)
    }
}
