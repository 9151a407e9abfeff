//! The primitives of the language, by the names of a table.
ghost use Rattle.std.specs.Prelude.{◌≡◌, option_map};
ghost use Rattle.cpc_tree.specs.Erase.{Names as Texts};
ghost use Rattle.cpc_tree.specs.Primitives.{primitive_named};
ghost use Rattle.cpc_tree.specs.PrimitiveNames.{primitive_of};
ghost use Rattle.cpc_check_rules.specs.Apart.{Spells};

use cpc_base::{Name, Names};
use cpc_tree::primitive::{Primitive, primitive_named};

/// The primitive of a name, by its text in the program's table; `None` where the table has no such name, or no primitive is called
/// so.
#[tactic(auto, using(std::proofs::lemmas::Grind::common_steps, crate::proofs::Tabled::primitive_some, crate::proofs::Tabled::primitive_none))]
pub fn primitive_at(texts: &Names, name: Name) -> Option<Primitive>
    ensures { (names : Texts) → Spells texts.now names → option_map primitive_of result ≡ primitive_named (names name) }
{
    match texts.text(name) {
        Some(text) => primitive_named(text),
        None => None,
    }
}
