//! What names stand for at a place of a program: the items so far, and the blocks round the place.
ghost use Rattle.std.specs.Prelude.{◌≡◌};
ghost use Rattle.std.proofs.Props.{props};
ghost use Rattle.cpc_tree.specs.Erase.{Names, type_of, field_of, item_of};
ghost use Rattle.cpc_check_rules.specs.Apart.{AreApart};
ghost use Rattle.cpc_types.specs.Declaring.{AreDeclared};
ghost use Rattle.cpc_types.specs.Integral.{AreTold};

use crate::blocks::Blocks;
use crate::items::Items;
use crate::meant::{Meant, meaning};
use cpc_base::{Name, NoMemory};
use cpc_tree::program::{CType, Field, Function, Program};
use cpc_types_structs::{Declared, Structs, fields_of};
use std::alloc::Global;

/// What is in scope at a place of a program: the items so far, and the blocks, the innermost last.
pub struct Scope<'p> {
    alloc: Global,
    program: &'p Program,
    items: Items,
    blocks: Blocks,
    ghost declared: { AreDeclared program.now.items.items items } by { Prim.hlevel props },
    ghost told: { AreTold program.now.items.items items } by { Prim.hlevel props },
}

impl Drop for Scope<'_> {
    fn drop(self) {
        let Scope {
            alloc: _,
            program: _,
            items,
            blocks,
        } = self;
        drop(items);
        drop(blocks);
    }
}

impl<'p> Scope<'p> {
    ghost use Rattle.std.specs.Prelude.{◌≡◌, ◌≤◌, IfOk, OnOk, OnErr, [], length, map, option_map};
    ghost use Rattle.cpc_tree.specs.Typing as T;
    ghost use Rattle.cpc_check_rules.specs.ItemRules as I;
    ghost use Rattle.cpc_check_rules.specs.Scopes as R;
    ghost use Rattle.cpc_types.specs.Blocks.{without_block, with_parameters};
    ghost use Rattle.cpc_types_structs.specs.Indexed.{IsIndex};
    ghost use Rattle.cpc_types_structs.specs.Sized.{AreSizes};
    ghost use Rattle.cpc_types_structs.specs.Declares.{AreAllDeclared};
    ghost use Rattle.cpc_types.specs.Integral.{AreIntegral};
    ghost use Rattle.cpc_types.specs.Meanings.{meant_of};
    ghost use Rattle.cpc_types.specs.Scoped.{all_items, first_items, items_of, scope_of};

    /// All items of a program are in scope, and no block. `NoMemory` is want of memory.
    pub fn of(alloc: Global, program: &'p Program) -> Result<Scope<'p>, NoMemory>
        ensures scope { IfOk result (λ scope. (names : Names) → scope_of names scope ≡ record { items = map (item_of names) program.now.items.items; blocks = [] }) }
        ensures all { IfOk result (λ scope. all_items scope ≡ program.now.items.items) }
    {
        let items = Items::of(alloc, &program.items)?;
        Ok(Scope {
            alloc,
            program,
            items,
            blocks: Blocks::new(alloc),
        })
    }

    /// Drops all blocks. The first `count` items are in scope, of which there are so many.
    pub fn enter_items(&mut self, count: u64)
        requires { count ≤ length (all_items self.old) }
        ensures scope { (names : Names) → scope_of names self.new ≡ record { items = first_items names count (all_items self.old); blocks = [] } }
        ensures all { all_items self.new ≡ all_items self.old }
    {
        self.blocks.clear();
        self.items.enter(count as usize);
    }

    /// Drops all blocks, and begins one that holds the parameters of a function that have names. `NoMemory` is want of
    /// memory, and leaves the scope as it was.
    pub fn enter_function(&mut self, function: &Function) -> Result<(), NoMemory>
        ensures ok { OnOk result ((names : Names) → scope_of names self.new ≡ with_parameters names (R.with_block (record { items = items_of names self.old; blocks = [] })) function.now.parameters.items) }
        ensures err { OnErr result ((names : Names) → scope_of names self.new ≡ scope_of names self.old) }
        ensures items { (names : Names) → items_of names self.new ≡ items_of names self.old }
        ensures all { all_items self.new ≡ all_items self.old }
    {
        self.blocks.enter(self.alloc, &function.parameters)
    }

    /// Begins an inner block. `NoMemory` is want of memory, and leaves the scope as it was.
    pub fn enter_block(&mut self) -> Result<(), NoMemory>
        ensures ok { OnOk result ((names : Names) → scope_of names self.new ≡ R.with_block (scope_of names self.old)) }
        ensures err { OnErr result ((names : Names) → scope_of names self.new ≡ scope_of names self.old) }
        ensures all { all_items self.new ≡ all_items self.old }
    {
        self.blocks.begin()
    }

    /// Declares a name in the innermost block. `NoMemory` is want of memory, and leaves the scope as it was.
    pub fn declare(&mut self, name: Name, of: &CType) -> Result<(), NoMemory>
        ensures ok { OnOk result ((names : Names) → scope_of names self.new ≡ R.with_name (scope_of names self.old) (record { called = names name; type = type_of names of.now })) }
        ensures err { OnErr result ((names : Names) → scope_of names self.new ≡ scope_of names self.old) }
        ensures all { all_items self.new ≡ all_items self.old }
    {
        self.blocks.declare(self.alloc, name, of)
    }

    /// Drops the innermost block, where there is one.
    pub fn leave_block(&mut self)
        ensures scope { (names : Names) → scope_of names self.new ≡ without_block (scope_of names self.old) }
        ensures all { all_items self.new ≡ all_items self.old }
    {
        self.blocks.leave();
    }

    /// Whether the innermost block has a name.
    pub fn is_here(&self, name: Name) -> bool
        ensures { (names : Names) → AreApart names → result ≡ R.is_here (scope_of names self.now).blocks (names name) }
    {
        self.blocks.is_here(name)
    }

    /// What a name stands for: its last entry in the innermost block that has it, or else the last item in scope that
    /// declares it.
    pub fn meant(&self, name: Name) -> Meant<'_>
        ensures { (names : Names) → AreApart names → meant_of names result ≡ R.meant (scope_of names self.now) (names name) }
    {
        match self.blocks.local(name) {
            Some(of) => Meant::Local(of),
            None => match self.items.named(&self.program.items, name) {
                Some(item) => meaning(item),
                None => Meant::Nothing,
            },
        }
    }

    /// Whether some item of the whole program, in scope or not, is a function of the name with a body.
    pub fn is_defined(&self, name: Name) -> bool
        ensures { (names : Names) → AreApart names → result ≡ I.is_function (names name) (map (item_of names) (all_items self.now)) }
    {
        self.items.is_defined(name)
    }

    /// The fields of the struct in scope that has a tag.
    pub fn fields(&self, tag: Name) -> Option<&[Field]>
        ensures { (names : Names) → AreApart names → option_map (λ fs. map (field_of names) fs.now) result ≡ T.fields (scope_of names self.now).items (names tag) }
    {
        match self.items.tagged(&self.program.items, tag) {
            Some(item) => fields_of(item),
            None => None,
        }
    }

    /// What all items of the program declare, which are then in scope: their structs, and the first of them that declares and
    /// that defines each name.
    pub fn into_declared(self) -> Declared
        ensures { AreAllDeclared (all_items self.entry) result }
    {
        let Scope {
            alloc: _,
            program,
            mut items,
            blocks,
        } = self;
        drop(blocks);
        items.enter(program.items.len());
        items.into_declared()
    }

    /// The structs in scope.
    #[tactic(auto, using(std::proofs::lemmas::Grind::common_steps, crate::proofs::Scopes::sizes_scope))]
    pub(crate) fn structs(&self) -> &Structs
        ensures index { IsIndex result.now.tags }
        ensures sizes { (names : Names) → AreApart names → AreSizes result.now names (scope_of names self.now).items }
    {
        self.items.structs()
    }

    /// What the items in scope declare.
    #[tactic(auto, using(std::proofs::lemmas::Grind::common_steps, crate::proofs::Scopes::sizes_scope, crate::proofs::Integrals::flags_scope))]
    pub(crate) fn items(&self) -> &Items
        ensures index { IsIndex result.now.declared.structs.tags }
        ensures sizes { (names : Names) → AreApart names → AreSizes result.now.declared.structs names (scope_of names self.now).items }
        ensures integral { (names : Names) → AreApart names → AreIntegral result.now names (scope_of names self.now).items }
    {
        &self.items
    }
}
