//! The blocks round a place, and the names declared in them.
ghost use Rattle.std.specs.Prelude.{◌≡◌, [], IfOk, OnOk, OnErr, option_map, reverse};
ghost use Rattle.cpc_tree.specs.Erase.{Names, type_of};
ghost use Rattle.cpc_check_rules.specs.Apart.{AreApart};
ghost use Rattle.cpc_tree.specs.Syntax.{Program};
ghost use Rattle.cpc_check_rules.specs.Scopes as R;
ghost use Rattle.cpc_types.specs.Blocks.{inside, without_block, with_parameter, with_parameters, local_or, outer_meant};

use cpc_base::{Name, NoMemory};
use cpc_shapes::copy_of;
use cpc_tree::program::{CType, Parameter};
use std::alloc::Global;

/// A name of a block with its type.
#[derive(Drop)]
pub(crate) struct Local {
    name: Name,
    of: CType,
}

/// What was entered and declared: a block begins, or a name is declared in the innermost one.
#[derive(Drop)]
pub(crate) enum Entry {
    Begin,
    Named(Local),
}

/// The blocks round a place, by what was entered and declared, the last of it last.
#[derive(Drop)]
pub(crate) struct Blocks {
    entries: Vec<Entry>,
}

impl Blocks {
    /// No block.
    pub(crate) fn new(alloc: Global) -> Self
        ensures { (names : Names) (items : Program) → inside names items result ≡ record { items = items; blocks = [] } }
    {
        Blocks {
            entries: Vec::new(alloc),
        }
    }

    /// Drops all blocks.
    pub(crate) fn clear(&mut self)
        ensures { (names : Names) (items : Program) → inside names items self.new ≡ record { items = items; blocks = [] } }
    {
        self.entries.clear();
    }

    /// Begins an inner block. `NoMemory` is want of memory, and leaves the blocks as they were.
    #[tactic(auto, using(std::proofs::lemmas::Grind::common_steps, crate::proofs::Entered::begin_entered))]
    pub(crate) fn begin(&mut self) -> Result<(), NoMemory>
        ensures ok { OnOk result ((names : Names) (items : Program) → inside names items self.new ≡ R.with_block (inside names items self.old)) }
        ensures err { OnErr result (self.new.entries.items ≡ self.old.entries.items) }
    {
        self.entries.push(Entry::Begin)?;
        Ok(())
    }

    /// Declares a name in the innermost block. `NoMemory` is want of memory, and leaves the blocks as they were.
    #[tactic(auto, using(std::proofs::lemmas::Grind::common_steps, crate::proofs::Entered::name_entered))]
    pub(crate) fn declare(&mut self, alloc: Global, name: Name, of: &CType) -> Result<(), NoMemory>
        ensures ok { OnOk result ((names : Names) (items : Program) → inside names items self.new ≡ R.with_name (inside names items self.old) (record { called = names name; type = type_of names of.now })) }
        ensures err { OnErr result (self.new.entries.items ≡ self.old.entries.items) }
    {
        let of = copy_of(alloc, of)?;
        self.entries.push(Entry::Named(Local { name, of }))?;
        Ok(())
    }

    // One block, which holds the parameters that have names.
    #[tactic(auto, using(std::proofs::lemmas::Grind::common_steps, crate::proofs::Entered::parameter_entered))]
    fn of_parameters(alloc: Global, parameters: &[Parameter]) -> Result<Blocks, NoMemory>
        ensures { IfOk result (λ blocks. (names : Names) (items : Program) → inside names items blocks ≡ with_parameters names (R.with_block (record { items = items; blocks = [] })) parameters.now) }
    {
        let mut blocks = Blocks::new(alloc);
        blocks.begin()?;
        for parameter in parameters {
            blocks.add(alloc, parameter)?;
        }
        Ok(blocks)
    }

    /// Drops all blocks, and begins one that holds the parameters that have names. `NoMemory` is want of memory, and leaves
    /// the blocks as they were.
    pub(crate) fn enter(&mut self, alloc: Global, parameters: &[Parameter]) -> Result<(), NoMemory>
        ensures ok { OnOk result ((names : Names) (items : Program) → inside names items self.new ≡ with_parameters names (R.with_block (record { items = items; blocks = [] })) parameters.now) }
        ensures err { OnErr result (self.new.entries.items ≡ self.old.entries.items) }
    {
        let blocks = Blocks::of_parameters(alloc, parameters)?;
        *self = blocks;
        Ok(())
    }

    // Declares a parameter that has a name.
    fn add(&mut self, alloc: Global, parameter: &Parameter) -> Result<(), NoMemory>
        ensures { OnOk result ((names : Names) (items : Program) → inside names items self.new ≡ with_parameter names (inside names items self.old) parameter.now) }
    {
        match parameter.word {
            Some(word) => self.declare(alloc, word.name, &parameter.of),
            None => Ok(()),
        }
    }

    /// Drops the innermost block, where there is one.
    #[tactic(auto, using(std::proofs::lemmas::Grind::common_steps, crate::proofs::Entered::begin_left, crate::proofs::Entered::name_left))]
    pub(crate) fn leave(&mut self)
        ensures { (names : Names) (items : Program) → inside names items self.new ≡ without_block (inside names items self.old) }
    {
        while let Some(entry) = self.entries.pop() {
            if let Entry::Begin = entry {
                return;
            }
        }
    }

    /// The innermost type of a name in the blocks.
    #[tactic(auto, using(std::proofs::lemmas::Grind::common_steps, crate::proofs::Entered::meant_at_begin, crate::proofs::Entered::meant_at_name, crate::proofs::Entered::meant_past_name))]
    pub(crate) fn local(&self, name: Name) -> Option<&CType>
        ensures { (names : Names) → AreApart names → (items : Program) → R.meant (inside names items self.now) (names name) ≡ local_or (option_map (λ of. type_of names of.now) result) (outer_meant items (names name)) }
    {
        let mut i = self.entries.len();
        while 0 < i {
            i -= 1;
            if let Entry::Named(local) = &self.entries[i] {
                if local.name.0 == name.0 {
                    return Some(&local.of);
                }
            }
        }
        None
    }

    /// Whether the innermost block has a name.
    #[tactic(auto, using(std::proofs::lemmas::Grind::common_steps, crate::proofs::Entered::here_at_begin, crate::proofs::Entered::here_at_name, crate::proofs::Entered::here_past_name))]
    pub(crate) fn is_here(&self, name: Name) -> bool
        ensures { (names : Names) → AreApart names → (items : Program) → result ≡ R.is_here (inside names items self.now).blocks (names name) }
    {
        let mut i = self.entries.len();
        while 0 < i {
            i -= 1;
            match &self.entries[i] {
                Entry::Begin => return false,
                Entry::Named(local) => {
                    if local.name.0 == name.0 {
                        return true;
                    }
                }
            }
        }
        false
    }
}
