//! What statements break that call or start a function.
ghost use Rattle.std.specs.Prelude.{◌≡◌, OnOk, Some, option_map};
ghost use Rattle.cpc_base.specs.declared.stop.Place as P;
ghost use Rattle.cpc_tree.specs.Erase.{Names};
ghost use Rattle.cpc_tree.specs.Locate.{ident, located_expr, located_exprs};
ghost use Rattle.cpc_tree.specs.Located as L;
ghost use Rattle.cpc_tree.specs.Syntax.{TyInt};
ghost use Rattle.cpc_check_rules.specs.Apart.{Spells};
ghost use Rattle.cpc_check_rules.specs.StmtRules as S;
ghost use Rattle.cpc_check_rules.specs.Calls as C;
ghost use Rattle.cpc_check_rules.specs.Noted.{noted, first_of};
ghost use Rattle.cpc_check_values.specs.Stands.{where_of};

use crate::assigned::note_given;
use crate::places::target_rules;
use cpc_base::{Dialect, NoMemory, Place};
use cpc_check_rules::{First, Rule};
use cpc_check_values::{Start, Where, call_rules, is_detached, started_rules};
use cpc_num::Kind;
use cpc_tree::program::{CType, Expr, Operand, Word};
use std::alloc::Global;

// Whether a text is in the dialect of the event loop.
fn is_event(dialect: Dialect) -> bool
    ensures { result ≡ C.is_event dialect }
{
    match dialect {
        Dialect::Event => true,
        Dialect::Cpc => false,
    }
}

/// Notes what a call breaks, and writing its result at a place. `NoMemory` is want of memory.
pub(crate) fn performed_rules(
    alloc: Global,
    first: &mut First,
    target: &Option<Operand>,
    place: Place,
    function: &Expr,
    arguments: &[Expr],
    w: &Where,
) -> Result<(), NoMemory>
    ensures { OnOk result ((names : Names) → Spells w.now.names.now names → (q : P.Place) → first_of first.new ≡ noted (first_of first.old) (S.stmt_breaks (where_of names w.now) (L.Call q place (option_map (located_expr names) target.now) (located_expr names function.now) (located_exprs names arguments.now)))) }
{
    match target {
        Some(target) => {
            let to = target_rules(alloc, first, target.expr(), w)?;
            let given = call_rules(alloc, first, function, arguments, w)?;
            note_given(first, &to, &given, place);
            Ok(())
        }
        None => {
            call_rules(alloc, first, function, arguments, w)?;
            Ok(())
        }
    }
}

// Notes what writing an `int` breaks, where it is written. `NoMemory` is want of memory.
fn int_rules(
    alloc: Global,
    first: &mut First,
    target: &Option<Operand>,
    place: Place,
    w: &Where,
) -> Result<(), NoMemory>
    ensures { OnOk result ((names : Names) → Spells w.now.names.now names → first_of first.new ≡ noted (first_of first.old) (S.to_breaks (where_of names w.now) (option_map (located_expr names) target.now) place (Some (TyInt Kind.Int)))) }
{
    match target {
        Some(target) => {
            let to = target_rules(alloc, first, target.expr(), w)?;
            note_given(first, &to, &Some(CType::Int(Kind::Int)), place);
            Ok(())
        }
        None => Ok(()),
    }
}

/// Notes what a section breaks: its result is written at the first of the places, and `cpc_detached` stands at the
/// second. `NoMemory` is want of memory.
pub(crate) fn section_rules(
    alloc: Global,
    first: &mut First,
    target: &Option<Operand>,
    places: (Place, Place),
    function: Word,
    arguments: &[Expr],
    w: &Where,
) -> Result<(), NoMemory>
    ensures { OnOk result ((names : Names) → Spells w.now.names.now names → (q : P.Place) → first_of first.new ≡ noted (first_of first.old) (S.stmt_breaks (where_of names w.now) (L.Detach q places.0 places.1 (option_map (located_expr names) target.now) (ident names function) (located_exprs names arguments.now)))) }
{
    int_rules(alloc, first, target, places.0, w)?;
    first.note_if(!w.mode.is_cps(), places.1, Rule::CpsInNative);
    first.note_if(is_event(w.dialect), places.1, Rule::CpsForm);
    started_rules(alloc, first, Start::Section, function, arguments, w)
}

/// Notes what starting a thread breaks, where `cpc_spawn` stands at a place. `NoMemory` is want of memory.
pub(crate) fn thread_rules(
    alloc: Global,
    first: &mut First,
    place: Place,
    function: Word,
    arguments: &[Expr],
    w: &Where,
) -> Result<(), NoMemory>
    ensures { OnOk result ((names : Names) → Spells w.now.names.now names → first_of first.new ≡ noted (first_of first.old) (S.stmt_breaks (where_of names w.now) (L.Spawn place (ident names function) (located_exprs names arguments.now)))) }
{
    first.note_if(is_event(w.dialect), place, Rule::CpsForm);
    first.note_if(is_detached(w.mode), function.place, Rule::NotClosed);
    started_rules(alloc, first, Start::Thread, function, arguments, w)
}
