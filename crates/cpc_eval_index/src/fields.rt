//! Where the fields of a struct are.
ghost use Rattle.std.specs.Prelude.{◌≡◌, map, option_map};
ghost use Rattle.cpc_tree.specs.Erase.{Names, type_of, field_of};
ghost use Rattle.cpc_check_rules.specs.Apart.{AreApart};
ghost use Rattle.cpc_tree.specs.Syntax.{Program};
ghost use Rattle.cpc_tree.specs.Typing as T;
ghost use Rattle.cpc_eval_index.specs.Offsets.{offsets_from};
ghost use Rattle.cpc_eval_index.specs.Sized.{capped_field};

use cpc_base::Name;
use cpc_tree::program::{CType, Field};

/// The offset, capped, and the type of a field among these, by the row of their offsets.
pub(crate) fn field_in<'p>(
    fields: &'p [Field],
    name: Name,
    offsets: &[u64],
) -> Option<(u64, &'p CType)>
    ensures { (names : Names) → AreApart names → (p : Program) → offsets.now ≡ offsets_from p 0 (map (field_of names) fields.now)
        → option_map (λ f. (f.0, type_of names f.1.now)) result ≡ capped_field (T.field_from p 0 (map (field_of names) fields.now) (names name)) }
{
    for i in 0..fields.len() {
        let field = &fields[i];
        if field.word.name.0 == name.0 {
            let offset = offsets.get(i)?;
            return Some((*offset, &field.of));
        }
    }
    None
}
