//! The texts of names.
ghost use Rattle.std.specs.Prelude.{◌≡◌, IsTrue, Some, slice_get, bytes_eq, codes};
ghost use Rattle.cpc_tree.specs.Erase.{in_table};

use cpc_base::{Name, Names};

/// The text of a name; the empty text where the name is not in the table.
#[tactic(auto, using(crate::proofs::Texts::text_there, crate::proofs::Texts::text_absent))]
pub fn text_of(names: &Names, name: Name) -> &[u8]
    ensures { result.now ≡ in_table names.now name }
{
    match names.text(name) {
        Some(text) => text,
        None => b"",
    }
}

/// Whether a name is `main`. One that is not in the table is not.
#[tactic(auto, using(crate::proofs::Texts::text_there, crate::proofs::Texts::text_absent))]
pub fn is_main(names: &Names, name: Name) -> bool
    ensures there { IsTrue result → slice_get names.now name.0 ≡ Some (codes "main") }
    ensures same { result ≡ bytes_eq (in_table names.now name) (codes "main") }
{
    match names.text(name) {
        Some(text) => text == b"main".as_slice(),
        None => false,
    }
}
