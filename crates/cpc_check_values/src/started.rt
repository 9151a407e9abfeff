//! What starting a function by its name breaks.
ghost use Rattle.std.specs.Prelude.{◌≡◌, OnOk};
ghost use Rattle.cpc_tree.specs.Erase.{Names};
ghost use Rattle.cpc_tree.specs.Locate.{ident, located_exprs};
ghost use Rattle.cpc_check_rules.specs.Apart.{AreApart, Spells};
ghost use Rattle.cpc_check_rules.specs.Scopes as R;
ghost use Rattle.cpc_check_rules.specs.StmtRules as S;
ghost use Rattle.cpc_check_rules.specs.Noted.{noted, first_of};
ghost use Rattle.cpc_types.specs.Meanings.{meant_of};
ghost use Rattle.cpc_types.specs.Scoped.{scope_of};
ghost use Rattle.cpc_check_values.specs.Wants.{callee_of};
ghost use Rattle.cpc_check_values.specs.Stands.{where_of};
ghost use Rattle.cpc_check_values.specs.Walked.{start_callee};

use crate::called::{note_count, section_parameters};
use crate::values::argument_rules;
use crate::wants::Callee;
use crate::wheres::Where;
use cpc_base::{Name, NoMemory, Place};
use cpc_check_rules::{First, Rule};
use cpc_tree::program::{Expr, Mode, Word};
use cpc_types::{Meant, Scope};
use std::alloc::Global;

/// What a function is started as.
#[derive(Clone, Copy)]
pub enum Start {
    /// A thread, which `cpc_spawn` starts.
    Thread,
    /// A section, after `cpc_detached`.
    Section,
}

// The function of a thread by its name, or no function.
fn spawn_callee<'s>(name: Name, scope: &'s Scope) -> Callee<'s>
    ensures { (names : Names) → AreApart names → callee_of names result ≡ start_callee Start.Thread (scope_of names scope.now) (R.meant (scope_of names scope.now) (names name)) }
{
    match scope.meant(name) {
        Meant::Function {
            mode: Mode::Cps,
            result: given,
            parameters,
        } => Callee::Function {
            mode: Mode::Cps,
            result: given,
            parameters,
        },
        _ => Callee::NoCode,
    }
}

// The function that is started by its name, or no function.
fn start_callee<'s>(start: Start, name: Name, scope: &'s Scope) -> Callee<'s>
    ensures { (names : Names) → AreApart names → callee_of names result ≡ start_callee start (scope_of names scope.now) (R.meant (scope_of names scope.now) (names name)) }
{
    match start {
        Start::Thread => spawn_callee(name, scope),
        Start::Section => match section_parameters(name, scope) {
            Some(parameters) => Callee::Section { parameters },
            None => Callee::NoCode,
        },
    }
}

// Notes a name that stands for nothing, or for no function that is started so.
fn note_wrong(first: &mut First, meant: Meant, callee: &Callee, place: Place)
    ensures { (names : Names) → first_of first.new ≡ noted (first_of first.old) (S.wrong_name (meant_of names meant.entry) (callee_of names callee.now) place) }
{
    match meant {
        Meant::Nothing => first.note(place, Rule::Undeclared),
        _ => first.note_if(!callee.is_code(), place, Rule::Disagree),
    }
}

/// Notes what starting a function by its name with arguments breaks, but for where it is started. `NoMemory` is want of
/// memory.
pub fn started_rules(
    alloc: Global,
    first: &mut First,
    start: Start,
    word: Word,
    arguments: &[Expr],
    w: &Where,
) -> Result<(), NoMemory>
    ensures { OnOk result ((names : Names) → Spells w.now.names.now names → first_of first.new ≡ noted (first_of first.old) (S.started_breaks (where_of names w.now) (ident names word) (start_callee start (scope_of names w.now.scope.now) (R.meant (scope_of names w.now.scope.now) (names word.name))) (located_exprs names arguments.now))) }
{
    let callee = start_callee(start, word.name, w.scope);
    note_wrong(first, w.scope.meant(word.name), &callee, word.place);
    note_count(first, &callee, arguments.len(), word.place);
    argument_rules(alloc, first, &callee, arguments, w)
}
