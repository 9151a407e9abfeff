//! What names break that are used as values.
ghost use Rattle.std.specs.Prelude.{◌≡◌};
ghost use Rattle.cpc_tree.specs.Erase.{Names};
ghost use Rattle.cpc_check_rules.specs.Apart.{AreApart};
ghost use Rattle.cpc_check_rules.specs.Scopes as R;
ghost use Rattle.cpc_check_rules.specs.Operators as O;
ghost use Rattle.cpc_check_rules.specs.Noted.{noted, first_of};
ghost use Rattle.cpc_types.specs.Scoped.{scope_of};
ghost use Rattle.cpc_types.specs.Meanings.{meant_of};

use crate::wheres::Where;
use cpc_base::Place;
use cpc_check_rules::{First, Rule};
use cpc_tree::program::{Mode, Word};
use cpc_types::Meant;

/// Whether a function is detached.
pub fn is_detached(mode: Mode) -> bool
    ensures { result ≡ O.is_detached mode }
{
    match mode {
        Mode::Detached => true,
        _ => false,
    }
}

// Notes what the name of a function of a mode breaks in a function of the mode `around`.
fn note_open(first: &mut First, around: Mode, place: Place, mode: Mode)
    ensures { first_of first.new ≡ noted (first_of first.old) (O.open_name around place mode) }
{
    let is_broken = is_detached(around) && !is_detached(mode);
    first.note_if(is_broken, place, Rule::NotClosed);
}

// Notes what a name breaks that stands for this.
fn note_meant(first: &mut First, around: Mode, place: Place, meant: Meant)
    ensures { (names : Names) → first_of first.new ≡ noted (first_of first.old) (O.name_breaks around place (meant_of names meant.entry)) }
{
    match meant {
        Meant::Local(_) => {}
        Meant::Global(_) => first.note_if(is_detached(around), place, Rule::NotClosed),
        Meant::Function { mode, .. } => match mode {
            Mode::Native => note_open(first, around, place, Mode::Native),
            Mode::Detached => {}
            Mode::Cps => {
                first.note(place, Rule::CpsAsValue);
                note_open(first, around, place, Mode::Cps);
            }
            Mode::Extern => {
                first.note(place, Rule::Disagree);
                note_open(first, around, place, Mode::Extern);
            }
        },
        Meant::Nothing => first.note(place, Rule::Undeclared),
    }
}

/// Notes what a name breaks that is used as a value.
pub(crate) fn name_rules(first: &mut First, word: Word, w: &Where)
    ensures { (names : Names) → AreApart names → first_of first.new ≡ noted (first_of first.old) (O.name_breaks w.now.mode word.place (R.meant (scope_of names w.now.scope.now) (names word.name))) }
{
    note_meant(first, w.mode, word.place, w.scope.meant(word.name));
}
