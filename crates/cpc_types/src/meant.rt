//! What names stand for.
ghost use Rattle.std.specs.Prelude.{◌≡◌};
ghost use Rattle.cpc_tree.specs.Erase.{Names};
ghost use Rattle.cpc_shapes.specs.Declaring.{meaning};
ghost use Rattle.cpc_types.specs.Meanings.{meant_of};

use cpc_tree::program::{CType, Item, Mode, Parameter};

/// What a name stands for.
#[derive(Clone, Copy)]
pub enum Meant<'s> {
    /// A local variable or a parameter, of this type.
    Local(&'s CType),
    /// A global variable of this type.
    Global(&'s CType),
    /// A function that runs so, with its result and its parameters.
    Function {
        mode: Mode,
        result: &'s CType,
        parameters: &'s [Parameter],
    },
    /// The name is not declared.
    Nothing,
}

/// What the name of an item stands for. A tag stands for nothing.
pub(crate) fn meaning(item: &Item) -> Meant<'_>
    ensures { (names : Names) → meant_of names result ≡ meaning names item.now }
{
    match item {
        Item::Struct { .. } => Meant::Nothing,
        Item::Global { of, .. } => Meant::Global(of),
        Item::Prototype {
            mode,
            result: given,
            parameters,
            ..
        } => Meant::Function {
            mode: *mode,
            result: given,
            parameters,
        },
        Item::Function(function) => Meant::Function {
            mode: function.mode,
            result: &function.result,
            parameters: &function.parameters,
        },
    }
}
