//! The names in scope at a place of a function.
ghost use Rattle.std.specs.Prelude.{◌≡◌, [], ◌∷◌, ◌++◌, take, length, map, if◌then◌else◌, OnOk, None, false, option_to_list, bytes_eq};
ghost use Rattle.cpc_base.specs.declared.names.Name as N;
ghost use Rattle.cpc_tree.specs.Erase.{Names, parameter_of};
ghost use Rattle.cpc_tree.specs.Registers.{slot_of, or_empty, parameter_scope};
ghost use Rattle.cpc_check_rules.specs.Apart.{AreApart};
ghost use Rattle.cpc_eval_variables.specs.Told.{IsTold};

use cpc_base::{Name, NoMemory};
use cpc_tree::program::{CType, Parameter};
use std::alloc::Global;

/// A local in scope, and its number among all variables of the function, counted from 0.
#[derive(Clone, Copy)]
pub(crate) struct Local<'f> {
    pub(crate) name: Name,
    pub(crate) of: &'f CType,
    pub(crate) slot: usize,
}

/// The parameters of a function and the locals in scope, the innermost last.
#[derive(Drop)]
pub(crate) struct Scope<'f> {
    parameters: &'f [Parameter],
    locals: Vec<Local<'f>>,
}

// The number that a name stands for behind a parameter, where it stands for this before it.
fn behind_parameter(
    parameter: &Parameter,
    slot: usize,
    name: Name,
    before: Option<usize>,
) -> Option<usize>
    ensures { (names : Names) → AreApart names → (parameter.now.word ≡ None → (x : N.Name) → bytes_eq [] (names x) ≡ false)
        → option_to_list result ≡ (if bytes_eq (or_empty (parameter_of names parameter.now).called) (names name) then slot ∷ [] else option_to_list before) }
{
    match parameter.word {
        Some(word) => {
            if word.name.0 == name.0 {
                Some(slot)
            } else {
                before
            }
        }
        None => before,
    }
}

// The number of the last parameter that has a name.
fn parameter_slot(parameters: &[Parameter], name: Name) -> Option<usize>
    ensures { (names : Names) → IsTold names parameters.now → option_to_list result ≡ slot_of (parameter_scope 0 (map (parameter_of names) parameters.now) []) (names name) }
{
    let mut found = None;
    let mut slot = 0;
    for parameter in parameters {
        found = behind_parameter(parameter, slot, name, found);
        slot += 1;
    }
    found
}

impl<'f> Scope<'f> {
    ghost use Rattle.cpc_tree.specs.Typing as T;
    ghost use Rattle.cpc_eval_variables.specs.Scoped.{local_of, scope_of};

    /// The parameters, and no local.
    pub(crate) fn new(alloc: Global, parameters: &'f [Parameter]) -> Scope<'f>
        ensures parameters { result.parameters.now ≡ parameters.now }
        ensures scope { (names : Names) → scope_of names result ≡ parameter_scope 0 (map (parameter_of names) parameters.now) [] }
    {
        Scope {
            parameters,
            locals: Vec::new(alloc),
        }
    }

    /// The number of the innermost variable that a name stands for.
    pub(crate) fn slot(&self, name: Name) -> Option<usize>
        ensures { (names : Names) → IsTold names self.now.parameters.now → option_to_list result ≡ slot_of (scope_of names self.now) (names name) }
    {
        let mut found = parameter_slot(self.parameters, name);
        for local in &self.locals {
            if local.name.0 == name.0 {
                found = Some(local.slot);
            }
        }
        found
    }

    /// One more local. `NoMemory` is want of memory.
    pub(crate) fn declare(&mut self, local: Local<'f>) -> Result<(), NoMemory>
        ensures parameters { self.new.parameters.now ≡ self.old.parameters.now }
        ensures scope { OnOk result ((names : Names) → scope_of names self.new ≡ local_of names local.entry ∷ scope_of names self.old) }
        ensures items { OnOk result (self.new.locals.items ≡ self.old.locals.items ++ local.entry ∷ []) }
    {
        self.locals.push(local)?;
        Ok(())
    }

    /// How many locals are in scope.
    pub(crate) fn depth(&self) -> usize
        ensures { result ≡ length self.now.locals.items }
    {
        self.locals.len()
    }

    /// Drops the innermost locals, so that so many are left.
    pub(crate) fn leave(&mut self, depth: usize)
        ensures parameters { self.new.parameters.now ≡ self.old.parameters.now }
        ensures items { self.new.locals.items ≡ take depth self.old.locals.items }
    {
        self.locals.truncate(depth);
    }
}
