//! The rules of functions before and behind their bodies.
ghost use Rattle.std.specs.Prelude.{◌≡◌, OnOk};
ghost use Rattle.cpc_tree.specs.Erase.{Names as Spelling};
ghost use Rattle.cpc_tree.specs.Locate.{located_function};
ghost use Rattle.cpc_check_rules.specs.Apart.{Spells};
ghost use Rattle.cpc_check_rules.specs.Noted.{noted, first_of};
ghost use Rattle.cpc_types.specs.Scoped.{scope_of};
ghost use Rattle.cpc_check_items.specs.Pasts.{AreEarlier};
ghost use Rattle.cpc_check_items.specs.Parts.{head_parts, tail_parts};

use crate::declared::declared_rules;
use crate::earlier::Earlier;
use crate::parameters::{cps_rules, parameter_rules, size_rules};
use crate::signatures::Signature;
use cpc_base::{Dialect, Names, NoMemory};
use cpc_check_names::{label_rules, label_words, local_words, loop_rules, many_rules, name_rules};
use cpc_check_rules::First;
use cpc_tree::program::Function;
use cpc_types::Scope;
use std::alloc::Global;

/// Notes what a function breaks before its body, where the items in scope and the earlier ones are those before it: its
/// name or that of a parameter is kept for the language, two parameters have one name, it is a cps function in a program
/// of the event loop, it may not be declared beside earlier items or disagrees with one, or a named parameter has no size.
/// `NoMemory` is want of memory.
pub fn head_rules(
    alloc: Global,
    first: &mut First,
    dialect: Dialect,
    names: &Names,
    scope: &Scope,
    earlier: &Earlier,
    function: &Function,
) -> Result<(), NoMemory>
    ensures { OnOk result ((spelling : Spelling) → Spells names.now spelling → AreEarlier spelling (scope_of spelling scope.now).items earlier.now → first_of first.new ≡ noted (first_of first.old) (head_parts dialect (scope_of spelling scope.now).items (located_function spelling function.now))) }
{
    name_rules(first, dialect, names, &[function.word]);
    cps_rules(first, dialect, function.mode, function.place);
    let new = Signature::of(function);
    declared_rules(first, earlier, function.word, &new);
    parameter_rules(alloc, first, dialect, names, &function.parameters)?;
    size_rules(first, scope, &function.parameters);
    Ok(())
}

/// Notes what a function breaks behind its body: names of locals and labels that are kept for the language, labels that
/// come twice or are not there, `break` and `continue` outside of loops, and too many variables. `NoMemory` is want of
/// memory.
pub fn tail_rules(
    alloc: Global,
    first: &mut First,
    dialect: Dialect,
    names: &Names,
    function: &Function,
) -> Result<(), NoMemory>
    ensures { OnOk result ((spelling : Spelling) → Spells names.now spelling → first_of first.new ≡ noted (first_of first.old) (tail_parts dialect (located_function spelling function.now))) }
{
    let locals = local_words(alloc, &function.body)?;
    let labels = label_words(alloc, &function.body)?;
    name_rules(first, dialect, names, &locals);
    name_rules(first, dialect, names, &labels);
    label_rules(alloc, first, &function.body)?;
    loop_rules(first, &function.body);
    many_rules(alloc, first, dialect, &function.parameters, &function.body)?;
    Ok(())
}
