//! Structs by their places, and those that have the same cells as the struct in them.
ghost use Rattle.std.specs.Prelude.{◌≡◌, ◌<◌, ◌≤◌, IfSome, length, map};
ghost use Rattle.cpc_shapes.specs.Counted.{tag_of};
ghost use Rattle.cpc_shapes.specs.Indexed.{last_below, is_name};
ghost use Rattle.cpc_eval_index.specs.Ends.{same_struct, only_struct};

use cpc_base::Name;
use cpc_tree::program::{CType, Item};
use cpc_types_structs::tag_of;

// The struct that a type is, or of which it is an array of one.
fn same_struct(of: &CType) -> Option<Name>
    ensures { result ≡ same_struct of.now }
{
    match of {
        CType::Struct(tag) => Some(*tag),
        CType::Array(of, count) => { if *count == 1 { same_struct(of) } else { None } }
        _ => None,
    }
}

/// The struct that is the only field of the struct that an item declares.
pub(crate) fn only_struct(item: &Item) -> Option<Name>
    ensures { result ≡ only_struct item.now }
{
    match item {
        Item::Struct { fields, .. } => {
            if fields.len() != 1 {
                return None;
            }
            same_struct(&fields[0].of)
        }
        _ => None,
    }
}

// Whether an item is a struct of this tag.
fn is_struct(item: &Item, tag: Name) -> bool
    ensures { result ≡ is_name tag.0 (tag_of item.now) }
{
    match tag_of(item) {
        Some(name) => name.0 == tag.0,
        None => false,
    }
}

/// The place of the last struct of a tag among the first items, of which there are so many.
pub(crate) fn last_struct(items: &[Item], tag: Name, before: usize) -> Option<usize>
    requires { before ≤ length items.now }
    ensures value { result ≡ last_below before (map tag_of items.now) tag.0 }
    ensures earlier { IfSome result (λ place. place < before) }
{
    let mut left = before;
    while left > 0 {
        left -= 1;
        if is_struct(&items[left], tag) {
            return Some(left);
        }
    }
    None
}
