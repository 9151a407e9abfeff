//! The rules of prototypes.
ghost use Rattle.std.specs.Prelude.{◌≡◌, ◌&&◌, not, nat_le, length, OnOk, map};
ghost use Rattle.cpc_tree.specs.Erase.{Names as Spelling, type_of, item_of};
ghost use Rattle.cpc_tree.specs.Syntax.{Program};
ghost use Rattle.cpc_tree.specs.Locate.{ident, located_parameter};
ghost use Rattle.cpc_check_rules.specs.Apart.{AreApart, Spells};
ghost use Rattle.cpc_check_rules.specs.Noted.{noted, first_of};
ghost use Rattle.cpc_check_rules.specs.ItemRules as R;
ghost use Rattle.cpc_types.specs.Scoped.{all_items};
ghost use Rattle.cpc_check_items.specs.Signatures.{signature_of, types_of};
ghost use Rattle.cpc_check_items.specs.Pasts.{AreEarlier};

use crate::declared::declared_rules;
use crate::earlier::Earlier;
use crate::parameters::{cps_rules, parameter_rules};
use crate::signatures::{Signature, is_extern};
use cpc_base::{Dialect, Name, Names, NoMemory, Place};
use cpc_check_names::name_rules;
use cpc_check_rules::{First, Rule};
use cpc_num::Kind;
use cpc_tree::program::{CType, Parameter, Word};
use cpc_types::Scope;
use std::alloc::Global;

fn is_long(of: &CType) -> bool
    ensures { (names : Spelling) → result ≡ R.is_long (type_of names of.now) }
{
    match of {
        CType::Int(Kind::Long) => true,
        _ => false,
    }
}

fn are_long(parameters: &[Parameter]) -> bool
    ensures { (names : Spelling) → result ≡ R.all_long (types_of names parameters.now) }
{
    for parameter in parameters {
        if !is_long(&parameter.of) {
            return false;
        }
    }
    true
}

// Whether there are 8 parameters at most.
#[tactic(auto, using(std::proofs::lemmas::Grind::common_steps, crate::proofs::Notes::types_length))]
fn are_few(parameters: &[Parameter]) -> bool
    ensures { (names : Spelling) → result ≡ nat_le (length (types_of names parameters.now)) 8 }
{
    parameters.len() <= 8
}

// Whether a function may be one of the host: it gives `long` and takes 8 `long`s at most.
fn is_host_like(new: &Signature) -> bool
    ensures { (names : Spelling) → result ≡ R.is_host_like (signature_of names new.now).result (signature_of names new.now).parameters }
{
    is_long(new.result) && are_long(new.parameters) && are_few(new.parameters)
}

/// Whether a function is one of the host and unlike these, which give `long` and take 8 `long`s at most.
pub fn is_unlike_host(new: &Signature) -> bool
    ensures { (names : Spelling) → result ≡ (R.is_extern new.now.mode && not (R.is_host_like (signature_of names new.now).result (signature_of names new.now).parameters)) }
{
    is_extern(new.mode) && !is_host_like(new)
}

/// Whether a function that is none of the host has no body in the program of a scope.
pub fn lacks_body(new: &Signature, scope: &Scope, name: Name) -> bool
    ensures { (names : Spelling) → AreApart names → result ≡ (not (R.is_extern new.now.mode) && not (R.is_function (names name) (map (item_of names) (all_items scope.now)))) }
{
    !is_extern(new.mode) && !scope.is_defined(name)
}

/// Notes what a prototype breaks in the program of a scope, where the earlier items are those before it: its name or that
/// of a parameter is kept for the language, two parameters have one name, it is a cps function in a program of the event
/// loop, it may not be declared beside earlier items or disagrees with one, it is of the host and is not like such a
/// function, or is none and has no body. `place` is its first byte. `NoMemory` is want of memory.
pub fn prototype_rules(
    alloc: Global,
    first: &mut First,
    dialect: Dialect,
    names: &Names,
    known: (&Scope, &Earlier),
    place: Place,
    word: Word,
    declared: &Signature,
) -> Result<(), NoMemory>
    ensures { OnOk result ((spelling : Spelling) → Spells names.now spelling → (before : Program) → AreEarlier spelling before known.entry.1.now
        → first_of first.new ≡ noted (first_of first.old) (R.prototype_breaks dialect (map (item_of spelling) (all_items known.entry.0.now)) before place declared.now.mode (ident spelling word) (type_of spelling declared.now.result.now) (map (located_parameter spelling) declared.now.parameters.now))) }
{
    let new = Signature {
        mode: declared.mode,
        result: declared.result,
        parameters: declared.parameters,
        is_defined: false,
    };
    name_rules(first, dialect, names, &[word]);
    cps_rules(first, dialect, new.mode, place);
    declared_rules(first, known.1, word, &new);
    let is_broken = is_unlike_host(&new);
    first.note_if(is_broken, word.place, Rule::Disagree);
    let is_broken = lacks_body(&new, known.0, word.name);
    first.note_if(is_broken, word.place, Rule::Undeclared);
    parameter_rules(alloc, first, dialect, names, new.parameters)?;
    Ok(())
}
