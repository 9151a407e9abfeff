//! Blocks that the running code asks for, and frees.
ghost use Rattle.std.specs.Prelude.{◌≡◌, ◌++◌, ◌+◌, ◌<◌, ◌^◌, None, Some, OnOk, true, [], ◌∷◌, length};
ghost use Rattle.std.specs.List.{All};
ghost use Rattle.cpc_base.specs.Bytes.{Text};
ghost use Rattle.cpc_tree.specs.Erase.{Names};
ghost use Rattle.cpc_tree.specs.Primitives as R;
ghost use Rattle.cpc_store.specs.Seen.{seen, IsLawful};
ghost use Rattle.cpc_store.specs.Store.{alloc as made_block, store_cells, unset_cells};
ghost use Rattle.cpc_store.specs.declared.values.Class.TheVariants.{Static};
ghost use Rattle.cpc_meaning.specs.Machine.{replies, with_store};
ghost use Rattle.cpc_meaning.specs.Section.{allocated, freed};
ghost use Rattle.cpc_meaning.specs.Trees.{trees};
ghost use Rattle.cpc_eval_values.specs.Shown.{value_of, values_of};
ghost use Rattle.cpc_meaning_laws.specs.Pointer.Made.{IsMadeCode};
ghost use Rattle.cpc_run_code.specs.NativeActsTaken.{IsTaken};
ghost use Rattle.cpc_run_code.specs.Code.{store_in, stack_in};
ghost use Rattle.cpc_run.specs.Going.{HasRoom, HasRoomFor};
ghost use Rattle.cpc_run_code.specs.Taken.{IsNumber};
ghost use Rattle.cpc_run.specs.States.{States, Stands, Fits, IsSteady, GoesSteady, Keeps, Did, Acted, settles, program_in};

use crate::looped::Loop;
use cpc_base::{Name, NoMemory};
use cpc_num::Fault;
use cpc_run_code::Request;
use cpc_run_shown::Outcome;
use cpc_store::{Block, Class, Value};
use std::alloc::Global;

// Below this a class has numbers left for its blocks.
const MOST_BLOCKS: u64 = 1 << 62;

impl<'p> Loop<'p> {
    /// A block of so many cells.
    pub(crate) fn allocates(
        &mut self,
        alloc: Global,
        class: Class,
        request: &Request,
    ) -> Result<Option<Outcome>, NoMemory>
        requires steady { IsSteady self.old }
        requires running { self.old.running ≡ true }
        requires takes { IsTaken (R.long ∷ []) request.now.args.items }
        requires room { HasRoomFor self.old request.now.function class request.now.args.items }
        requires lawful { All (λ v. IsLawful (seen v)) request.now.args.items }
        requires class { ¬ (class ≡ Static) }
        ensures keeps { Keeps self.old self.new }
        ensures steady { GoesSteady result self.new }
        ensures did { (names : Names) → Fits names self.old → (printed : Text) (s : States) (v : _) → values_of names request.now.args.items ≡ v ∷ [] → IsMadeCode s.store (stack_in names self.old.machine) → Acted names self.old request.now.function printed s s
            → Did names result self.new printed s (settles names self.old s (replies (trees (program_in names self.old)) (stack_in names self.old.machine) (allocated class v s.store) s)) }
    {
        match request.args.as_slice() {
            [count] => self.allocates_cells(alloc, class, *count, request.function),
            _ => unreachable!(),
        }
    }

    // A block of a number of cells; a negative one is a fault. The pointer arrives before the block is made, which no pointer
    // of a run tells apart: where it cannot arrive, the step fails, however great the block would be.
    fn allocates_cells(
        &mut self,
        alloc: Global,
        class: Class,
        count: Value,
        function: Name,
    ) -> Result<Option<Outcome>, NoMemory>
        requires steady { IsSteady self.old }
        requires running { self.old.running ≡ true }
        requires count { IsNumber (seen count) }
        requires room { HasRoom self.old function class count }
        requires class { ¬ (class ≡ Static) }
        ensures keeps { Keeps self.old self.new }
        ensures steady { GoesSteady result self.new }
        ensures did { (names : Names) → Fits names self.old → (printed : Text) (s : States) → IsMadeCode s.store (stack_in names self.old.machine) → Acted names self.old function printed s s
            → Did names result self.new printed s (settles names self.old s (replies (trees (program_in names self.old)) (stack_in names self.old.machine) (allocated class (value_of names count) s.store) s)) }
    {
        let Value::Int(_, count) = count else {
            unreachable!();
        };
        if count < 0 {
            return Ok(Some(Outcome::Failed(Fault::Length, function)));
        }
        let number = self.machine.made(class);
        let pointer = Value::At(Block { class, number }, 0);
        let gone = self.reply(alloc, function, pointer)?;
        if gone.is_some() {
            return Ok(gone);
        }
        self.makes(alloc, class, count as u64)?;
        Ok(None)
    }

    // Makes the next block of a class. `NoMemory` is want of memory, or of numbers for so many blocks.
    fn makes(&mut self, alloc: Global, class: Class, cells: u64) -> Result<(), NoMemory>
        requires steady { IsSteady self.old }
        requires running { self.old.running ≡ true }
        requires room { (names : Names) × (store_cells (store_in names self.old.machine) + cells < 2 ^ 63) }
        ensures keeps { Keeps self.old self.new }
        ensures steady { IsSteady self.new }
        ensures running { self.new.running ≡ self.old.running }
        ensures made { OnOk result ((names : Names) (printed : Text) (s : States) → Stands names self.old printed s → Stands names self.new printed (with_store s (made_block class (unset_cells cells) s.store))) }
    {
        if self.machine.made(class) >= MOST_BLOCKS {
            return Err(NoMemory);
        }
        self.machine.alloc(alloc, class, cells)?;
        Ok(())
    }

    /// A block is freed.
    pub(crate) fn frees(
        &mut self,
        alloc: Global,
        class: Class,
        request: &Request,
    ) -> Result<Option<Outcome>, NoMemory>
        requires steady { IsSteady self.old }
        requires running { self.old.running ≡ true }
        requires takes { length request.now.args.items ≡ 1 }
        requires lawful { All (λ v. IsLawful (seen v)) request.now.args.items }
        ensures keeps { Keeps self.old self.new }
        ensures steady { GoesSteady result self.new }
        ensures did { (names : Names) → Fits names self.old → (printed : Text) (s : States) (v : _) → values_of names request.now.args.items ≡ v ∷ [] → Acted names self.old request.now.function printed s s
            → Did names result self.new printed s (settles names self.old s (replies (trees (program_in names self.old)) (stack_in names self.old.machine) (freed class v s.store) s)) }
    {
        match request.args.as_slice() {
            [what] => self.frees_block(alloc, class, *what, request.function),
            _ => unreachable!(),
        }
    }

    // The block that a value points to is freed.
    fn frees_block(
        &mut self,
        alloc: Global,
        class: Class,
        what: Value,
        function: Name,
    ) -> Result<Option<Outcome>, NoMemory>
        requires steady { IsSteady self.old }
        requires running { self.old.running ≡ true }
        requires lawful { IsLawful (seen what) }
        ensures keeps { Keeps self.old self.new }
        ensures steady { GoesSteady result self.new }
        ensures did { (names : Names) → Fits names self.old → (printed : Text) (s : States) → Acted names self.old function printed s s
            → Did names result self.new printed s (settles names self.old s (replies (trees (program_in names self.old)) (stack_in names self.old.machine) (freed class (value_of names what) s.store) s)) }
    {
        match self.machine.free(class, what) {
            Ok(()) => self.reply(alloc, function, Value::Unset),
            Err(fault) => Ok(Some(Outcome::Failed(fault, function))),
        }
    }
}
