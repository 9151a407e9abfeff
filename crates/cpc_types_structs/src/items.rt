//! What single items declare.
ghost use Rattle.std.specs.Prelude.{◌≡◌, map, option_map};
ghost use Rattle.cpc_tree.specs.Erase.{Names, field_of};
ghost use Rattle.cpc_shapes.specs.Counted.{name_of, tag_of};
ghost use Rattle.cpc_shapes.specs.Declaring.{fields_seen};
ghost use Rattle.cpc_types_structs.specs.Placed.{definition_of};

use cpc_base::Name;
use cpc_tree::program::{Field, Item};

/// The name of a variable or a function that an item declares.
pub fn name_of(item: &Item) -> Option<Name>
    ensures { result ≡ name_of item.now }
{
    match item {
        Item::Struct { .. } => None,
        Item::Global { word, .. } => Some(word.name),
        Item::Prototype { word, .. } => Some(word.name),
        Item::Function(function) => Some(function.word.name),
    }
}

/// The tag of the struct that an item declares.
pub fn tag_of(item: &Item) -> Option<Name>
    ensures { result ≡ tag_of item.now }
{
    match item {
        Item::Struct { tag, .. } => Some(tag.name),
        _ => None,
    }
}

/// The name of the function that an item defines.
pub fn definition_of(item: &Item) -> Option<Name>
    ensures { result ≡ definition_of item.now }
{
    match item {
        Item::Function(function) => Some(function.word.name),
        _ => None,
    }
}

/// The fields of the struct that an item declares.
pub fn fields_of(item: &Item) -> Option<&[Field]>
    ensures { (names : Names) → option_map (λ fs. map (field_of names) fs.now) result ≡ fields_seen names item.now }
{
    match item {
        Item::Struct { fields, .. } => Some(fields),
        _ => None,
    }
}
