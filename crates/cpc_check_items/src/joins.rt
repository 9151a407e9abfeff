//! One more declaration of a function beside those of its name.
ghost use Rattle.std.specs.Prelude.{◌≡◌};
ghost use Rattle.cpc_tree.specs.Erase.{Names};
ghost use Rattle.cpc_check_rules.specs.Apart.{AreApart};
ghost use Rattle.cpc_check_items.specs.Signatures.{signature_of};
ghost use Rattle.cpc_check_items.specs.Pasts.{joined, is_clash_beside, is_disagreeing_beside};

use crate::earlier::Past;
use crate::signatures::{Signature, are_mixed};

/// What is declared of a name, with one more declaration of a function.
pub(crate) fn with<'p>(past: Option<Past<'p>>, new: Signature<'p>) -> Past<'p>
    ensures { (names : Names) → AreApart names → result ≡ joined names past.entry new.entry }
{
    match past {
        None => Past::Functions {
            declared: new,
            is_same: true,
        },
        Some(Past::Taken) => Past::Taken,
        Some(Past::Functions { declared, is_same }) => {
            if are_mixed(declared.mode, new.mode) {
                Past::Taken
            } else {
                Past::Functions {
                    declared: Signature {
                        mode: declared.mode,
                        result: declared.result,
                        parameters: declared.parameters,
                        is_defined: declared.is_defined || new.is_defined,
                    },
                    is_same: is_same && declared.agrees(&new),
                }
            }
        }
    }
}

/// Whether a function may not be declared beside these.
pub(crate) fn is_clash(past: &Option<Past>, new: &Signature) -> bool
    ensures { (names : Names) → result ≡ is_clash_beside past.now (signature_of names new.now) }
{
    match past {
        None => false,
        Some(Past::Taken) => true,
        Some(Past::Functions { declared, .. }) => {
            are_mixed(new.mode, declared.mode) || (new.is_defined && declared.is_defined)
        }
    }
}

/// Whether a function that may be declared beside these disagrees with one of them.
pub(crate) fn is_disagreeing(past: &Option<Past>, new: &Signature) -> bool
    ensures { (names : Names) → AreApart names → result ≡ is_disagreeing_beside names past.now (signature_of names new.now) }
{
    match past {
        None => false,
        Some(Past::Taken) => false,
        Some(Past::Functions { declared, is_same }) => !(new.agrees(declared) && *is_same),
    }
}
