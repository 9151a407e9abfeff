//! What single items are.
ghost use Rattle.std.specs.Prelude.{◌≡◌, ◌≤◌, option_map};
ghost use Rattle.cpc_tree.specs.Erase.{Names, function_of};
ghost use Rattle.cpc_eval_index.specs.Placed.{globals_in};
ghost use Rattle.cpc_eval_index.specs.Meanings.{definition_seen};

use cpc_tree::program::{Function, Item};

/// How many globals an item is: one or none.
pub(crate) fn globals_in(item: &Item) -> u64
    ensures count { result ≡ globals_in item.now }
    ensures one { result ≤ 1 }
{
    match item {
        Item::Global { .. } => 1,
        _ => 0,
    }
}

/// The function that an item defines.
pub(crate) fn function_of(item: &Item) -> Option<&Function>
    ensures { (names : Names) → option_map (λ f. function_of names f.now) result ≡ definition_seen names item.now }
{
    match item {
        Item::Function(function) => Some(function),
        _ => None,
    }
}
