//! The rules of parameters, and of functions that run as threads.
ghost use Rattle.std.specs.Prelude.{◌≡◌, ◌∷◌, [], OnOk, map};
ghost use Rattle.cpc_tree.specs.Erase.{Names as Spelling};
ghost use Rattle.cpc_tree.specs.Locate.{located_parameter};
ghost use Rattle.cpc_check_rules.specs.Apart.{AreApart, Spells};
ghost use Rattle.cpc_check_rules.specs.Noted.{noted, first_of};
ghost use Rattle.cpc_check_rules.specs.ItemRules as R;
ghost use Rattle.cpc_types.specs.Scoped.{scope_of};

use cpc_base::{Dialect, Names, NoMemory, Place};
use cpc_check_names::{name_rules, parameter_words, repeated_rules};
use cpc_check_rules::{First, Rule};
use cpc_tree::program::{Mode, Parameter};
use cpc_types::{Scope, is_sized};
use std::alloc::Global;

/// Notes a cps function in a program of the event loop.
pub fn cps_rules(first: &mut First, dialect: Dialect, mode: Mode, place: Place)
    ensures { first_of first.new ≡ noted (first_of first.old) (R.cps_breaks dialect mode place) }
{
    let is_broken = matches!(mode, Mode::Cps) && matches!(dialect, Dialect::Event);
    first.note_if(is_broken, place, Rule::CpsForm);
}

/// Notes parameters of one name, and names of parameters that the language keeps for itself. `NoMemory` is want of memory.
pub fn parameter_rules(
    alloc: Global,
    first: &mut First,
    dialect: Dialect,
    names: &Names,
    parameters: &[Parameter],
) -> Result<(), NoMemory>
    ensures { OnOk result ((spelling : Spelling) → Spells names.now spelling → first_of first.new ≡ noted (first_of first.old) (R.parameters_breaks dialect (map (located_parameter spelling) parameters.now))) }
{
    let words = parameter_words(alloc, parameters)?;
    repeated_rules(alloc, first, Rule::Twice, &words)?;
    name_rules(first, dialect, names, &words);
    Ok(())
}

// Notes a named parameter of a type that is incomplete or oversized.
fn size_rule(first: &mut First, scope: &Scope, parameter: &Parameter)
    ensures { (names : Spelling) → AreApart names → first_of first.new ≡ noted (first_of first.old) (R.sized_breaks (scope_of names scope.now) (map (located_parameter names) (parameter.now ∷ []))) }
{
    let is_fine = is_sized(&parameter.of, scope);
    match parameter.word {
        Some(word) => first.note_if(!is_fine, word.place, Rule::Incomplete),
        None => {}
    }
}

/// Notes each named parameter of a type that is incomplete or oversized.
pub fn size_rules(first: &mut First, scope: &Scope, parameters: &[Parameter])
    ensures { (names : Spelling) → AreApart names → first_of first.new ≡ noted (first_of first.old) (R.sized_breaks (scope_of names scope.now) (map (located_parameter names) parameters.now)) }
{
    for parameter in parameters {
        size_rule(first, scope, parameter);
    }
}
