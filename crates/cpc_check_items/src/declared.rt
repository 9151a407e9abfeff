//! Names that are declared beside earlier ones.
ghost use Rattle.std.specs.Prelude.{◌≡◌};
ghost use Rattle.cpc_tree.specs.Erase.{Names};
ghost use Rattle.cpc_tree.specs.Syntax.{Program};
ghost use Rattle.cpc_tree.specs.Locate.{ident};
ghost use Rattle.cpc_check_rules.specs.Apart.{AreApart};
ghost use Rattle.cpc_check_rules.specs.Noted.{noted, first_of};
ghost use Rattle.cpc_check_rules.specs.declared.rule.Rule.TheVariants.{Twice};
ghost use Rattle.cpc_check_rules.specs.Rule.{at_if};
ghost use Rattle.cpc_check_rules.specs.ItemRules as R;
ghost use Rattle.cpc_check_items.specs.Signatures.{signature_of};
ghost use Rattle.cpc_check_items.specs.Pasts.{AreEarlier};

use crate::earlier::Earlier;
use crate::joins::{is_clash, is_disagreeing};
use crate::signatures::Signature;
use cpc_check_rules::{First, Rule};
use cpc_tree::program::Word;

/// Notes a function that may not be declared beside earlier items, or that disagrees with one of them.
pub fn declared_rules(first: &mut First, earlier: &Earlier, word: Word, new: &Signature)
    ensures { (names : Names) → AreApart names → (before : Program) → AreEarlier names before earlier.now → first_of first.new ≡ noted (first_of first.old) (R.declared_breaks before (ident names word) (signature_of names new.now)) }
{
    let past = earlier.past(word.name);
    if is_clash(&past, new) {
        first.note(word.place, Rule::Twice);
    } else {
        let is_broken = is_disagreeing(&past, new);
        first.note_if(is_broken, word.place, Rule::Disagree);
    }
}

/// Notes a global variable whose name an earlier item declares.
pub fn taken_rules(first: &mut First, earlier: &Earlier, word: Word)
    ensures { (names : Names) (before : Program) → AreEarlier names before earlier.now → first_of first.new ≡ noted (first_of first.old) (at_if (R.is_item (names word.name) before) word.place Twice) }
{
    let is_declared = earlier.past(word.name).is_some();
    first.note_if(is_declared, word.place, Rule::Twice);
}
