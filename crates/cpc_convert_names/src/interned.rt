//! Names that are made: a text, or one of the table with a mark and a rest behind it.
ghost use Rattle.std.specs.Prelude.{◌≡◌, ℕ, ◌++◌, decimal, IfOk, OnOk};
ghost use Rattle.cpc_tree.specs.Erase as E;
ghost use Rattle.cpc_tree.specs.Erase.{Table, in_table};
ghost use Rattle.cpc_convert_common.specs.Converted.{marked, spawner_name};
ghost use Rattle.cpc_convert_names.specs.Tables.{HasGrown, Spells};

use cpc_base::{Name, Names, NoMemory};
use cpc_tree::names::text_of;
use std::alloc::Global;

/// The name of a text, which the table then has. `NoMemory` is want of memory.
pub(crate) fn interned(alloc: Global, names: &mut Names, text: &[u8]) -> Result<Name, NoMemory>
    ensures grown { OnOk result (HasGrown names.old names.new) }
    ensures is { IfOk result (λ n. (to : E.Names) → Spells names.new to → to n ≡ text.now) }
{
    names.intern(alloc, text)
}

// The bytes of a name, none of a name that is not in the table.
fn bytes_of(alloc: Global, names: &Names, of: Name) -> Result<Vec<u8>, NoMemory>
    ensures { IfOk result (λ v. v.items ≡ in_table names.now of) }
{
    let bytes = Vec::from_slice(alloc, text_of(names, of))?;
    Ok(bytes)
}

/// The name of a text with two underscores and a rest behind it. `NoMemory` is want of memory.
pub(crate) fn marked_name(
    alloc: Global,
    names: &mut Names,
    of: Name,
    rest: &[u8],
) -> Result<Name, NoMemory>
    ensures grown { OnOk result (HasGrown names.old names.new) }
    ensures is { IfOk result (λ n. (source : Table) (to : E.Names) → HasGrown source names.old → Spells names.new to → in_table source of ≡ to of → to n ≡ marked (to of) rest.now) }
{
    let mut text = bytes_of(alloc, names, of)?;
    text.extend_from_slice(b"__")?;
    text.extend_from_slice(rest)?;
    let name = interned(alloc, names, &text)?;
    Ok(name)
}

/// The name of a text with two underscores, a word and a number behind it. `NoMemory` is want of memory.
pub(crate) fn numbered_name(
    alloc: Global,
    names: &mut Names,
    of: Name,
    word: &[u8],
    number: usize,
) -> Result<Name, NoMemory>
    ensures grown { OnOk result (HasGrown names.old names.new) }
    ensures is { IfOk result (λ n. (source : Table) (to : E.Names) → HasGrown source names.old → Spells names.new to → in_table source of ≡ to of → to n ≡ marked (to of) (word.now ++ decimal number)) }
{
    let digits = format!(in alloc; "{number}")?;
    let mut rest = Vec::from_slice(alloc, word)?;
    rest.extend_from_slice(digits.as_bytes())?;
    let name = marked_name(alloc, names, of, &rest)?;
    Ok(name)
}

/// What a spawn of a name calls. `NoMemory` is want of memory.
#[tactic(auto, unfolding(cpc_convert_common::specs::Converted::spawner_name))]
pub(crate) fn spawner(alloc: Global, names: &mut Names, of: Name) -> Result<Name, NoMemory>
    ensures grown { OnOk result (HasGrown names.old names.new) }
    ensures is { IfOk result (λ n. (source : Table) (to : E.Names) → HasGrown source names.old → Spells names.new to → in_table source of ≡ to of → to n ≡ spawner_name (to of)) }
{
    let name = marked_name(alloc, names, of, b"spawn")?;
    Ok(name)
}
