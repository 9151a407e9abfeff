//! The rules of structs.
ghost use Rattle.std.specs.Prelude.{◌≡◌, ◌∷◌, [], ◌++◌, OnOk, IfOk, map};
ghost use Rattle.cpc_tree.specs.Erase.{Names as Spelling};
ghost use Rattle.cpc_tree.specs.Locate.{ident, located_field};
ghost use Rattle.cpc_check_rules.specs.Apart.{AreApart, Spells};
ghost use Rattle.cpc_check_rules.specs.Noted.{noted, first_of};
ghost use Rattle.cpc_check_rules.specs.ItemRules as R;
ghost use Rattle.cpc_types.specs.Scoped.{scope_of};

use cpc_base::{Dialect, Names, NoMemory};
use cpc_check_names::{name_rules, repeated_rules};
use cpc_check_rules::{First, Rule};
use cpc_tree::program::{Field, Word};
use cpc_types::{Scope, are_oversized, is_sized};
use std::alloc::Global;

/// The names of fields, in their order. `NoMemory` is want of memory.
pub fn field_words(alloc: Global, fields: &[Field]) -> Result<Vec<Word>, NoMemory>
    ensures { IfOk result (λ words. (names : Spelling) → map (ident names) words.items ≡ R.field_names (map (located_field names) fields.now)) }
{
    let mut words = Vec::new(alloc);
    for field in fields {
        words.push(field.word)?;
    }
    Ok(words)
}

/// Notes each field of a type that is incomplete or oversized.
pub fn field_rules(first: &mut First, scope: &Scope, fields: &[Field])
    ensures { (names : Spelling) → AreApart names → first_of first.new ≡ noted (first_of first.old) (R.fields_breaks (scope_of names scope.now) (map (located_field names) fields.now)) }
{
    for field in fields {
        let is_fine = is_sized(&field.of, scope);
        first.note_if(!is_fine, field.word.place, Rule::Incomplete);
    }
}

/// Notes what a struct breaks where the items in scope are those before it: its tag is kept for the language or declared
/// before, it has too many cells, two fields have one name, or a field has no size. `NoMemory` is want of memory.
pub fn struct_rules(
    alloc: Global,
    first: &mut First,
    dialect: Dialect,
    names: &Names,
    scope: &Scope,
    tag: Word,
    fields: &[Field],
) -> Result<(), NoMemory>
    ensures { OnOk result ((spelling : Spelling) → Spells names.now spelling → first_of first.new ≡ noted (first_of first.old) (R.struct_breaks dialect (scope_of spelling scope.now).items (ident spelling tag) (map (located_field spelling) fields.now))) }
{
    name_rules(first, dialect, names, &[tag]);
    let is_declared = scope.fields(tag.name).is_some();
    first.note_if(is_declared, tag.place, Rule::Twice);
    let is_oversized = are_oversized(fields, scope);
    first.note_if(is_oversized, tag.place, Rule::Incomplete);
    let words = field_words(alloc, fields)?;
    repeated_rules(alloc, first, Rule::Twice, &words)?;
    field_rules(first, scope, fields);
    Ok(())
}
