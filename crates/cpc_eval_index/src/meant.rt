//! What a name stands for.
ghost use Rattle.std.specs.Prelude.{◌≡◌, ℕ};
ghost use Rattle.cpc_tree.specs.Erase.{Names};
ghost use Rattle.cpc_eval_index.specs.Meanings.{meant_if, meaning};

use cpc_tree::program::{CType, Item, Mode, Parameter};

/// What a name stands for.
#[derive(Clone, Copy)]
pub enum Meant<'p> {
    /// A parameter or a local of a function, by its number among them all, counted from 0.
    Local {
        slot: u64,
        of: &'p CType,
    },
    /// A global variable, by its number among them all, counted from 0.
    Global {
        block: u64,
        of: &'p CType,
    },
    /// A function, by its first declaration.
    Function {
        mode: Mode,
        result: &'p CType,
        parameters: &'p [Parameter],
    },
}

/// What the name that an item declares stands for, where so many globals come before it. A struct declares none.
pub(crate) fn meaning(item: &Item, globals: u64) -> Option<Meant<'_>>
    ensures { (names : Names) → meant_if names result ≡ meaning names globals item.now }
{
    match item {
        Item::Struct { .. } => None,
        Item::Global { of, .. } => Some(Meant::Global { block: globals, of }),
        Item::Prototype {
            mode,
            result: given,
            parameters,
            ..
        } => Some(Meant::Function {
            mode: *mode,
            result: given,
            parameters,
        }),
        Item::Function(function) => Some(Meant::Function {
            mode: function.mode,
            result: &function.result,
            parameters: &function.parameters,
        }),
    }
}
