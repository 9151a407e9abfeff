//! Names that come twice, and labels that are not there.
ghost use Rattle.std.specs.Prelude.{◌≡◌, [], List, OnOk, IfOk, map, nat_eq};
ghost use Rattle.std.specs.HashSet as set;
ghost use Rattle.cpc_tree.specs.Erase.{Names};
ghost use Rattle.cpc_tree.specs.Located.{Ident};
ghost use Rattle.cpc_tree.specs.Locate.{ident, located_stmt};
ghost use Rattle.cpc_check_rules.specs.FunctionRules.{repeated, missing, label_breaks};
ghost use Rattle.cpc_check_rules.specs.Noted.{noted, first_of};
ghost use Rattle.cpc_check_rules.specs.Apart.{AreApart};
ghost use Rattle.cpc_check_names.specs.Held.{AreHeld};

use crate::words::{jump_words, label_words};
use cpc_base::NoMemory;
use cpc_check_rules::{First, Rule};
use cpc_tree::program::{Statement, Word};
use std::alloc::Global;
use std::collections::HashSet;

/// Notes each name that stands among those before it, and gives the set of all of them. `NoMemory` is want of memory.
fn note_repeated(
    alloc: Global,
    first: &mut First,
    rule: Rule,
    words: &[Word],
) -> Result<HashSet<u64>, NoMemory>
    ensures told { OnOk result ((names : Names) → AreApart names → first_of first.new ≡ noted (first_of first.old) (repeated rule [] (map (ident names) words.now))) }
    ensures held { IfOk result (λ held. (names : Names) → AreApart names → AreHeld names (set.contains nat_eq held) (map (ident names) words.now)) }
{
    let mut held = HashSet::new(alloc);
    for word in words {
        let is_new = held.insert(word.name.0)?;
        first.note_if(!is_new, word.place, rule);
    }
    Ok(held)
}

/// Notes each name that stands among those before it, as the parameters of a function or the fields of a struct.
/// `NoMemory` is want of memory.
pub fn repeated_rules(
    alloc: Global,
    first: &mut First,
    rule: Rule,
    words: &[Word],
) -> Result<(), NoMemory>
    ensures { OnOk result ((names : Names) → AreApart names → first_of first.new ≡ noted (first_of first.old) (repeated rule [] (map (ident names) words.now))) }
{
    note_repeated(alloc, first, rule, words)?;
    Ok(())
}

/// Notes each label that is none of those that are known.
fn note_missing(first: &mut First, known: &HashSet<u64>, words: &[Word])
    ensures { (names : Names) (row : List Ident) → AreHeld names (set.contains nat_eq known.now) row → first_of first.new ≡ noted (first_of first.old) (missing row (map (ident names) words.now)) }
{
    for word in words {
        let is_known = known.contains(&word.name.0);
        first.note_if(!is_known, word.place, Rule::NoLabel);
    }
}

/// Notes each label that a function has twice, and each that it jumps to and does not have.
/// `NoMemory` is want of memory.
pub fn label_rules(alloc: Global, first: &mut First, body: &Statement) -> Result<(), NoMemory>
    ensures { OnOk result ((names : Names) → AreApart names → first_of first.new ≡ noted (first_of first.old) (label_breaks (located_stmt names body.now))) }
{
    let labels = label_words(alloc, body)?;
    let jumps = jump_words(alloc, body)?;
    let known = note_repeated(alloc, first, Rule::LabelTwice, &labels)?;
    note_missing(first, &known, &jumps);
    Ok(())
}
