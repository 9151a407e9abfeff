//! Types without the arrays around them.
ghost use Rattle.std.specs.Prelude.{◌≡◌, List, IfOk, option_map};
ghost use Rattle.cpc_tree.specs.Erase.{Names, type_of};
ghost use Rattle.cpc_tree.specs.Syntax as S;
ghost use Rattle.cpc_run_globals.specs.Rows.{type_layout, element_layout, repeated};

use cpc_base::{Name, NoMemory};
use cpc_store::Scalar;
use cpc_tree::program::CType;

/// A type that is no array.
#[derive(Clone, Copy)]
pub(crate) enum Element {
    Incomplete,
    Cell(Scalar),
    Struct(Name),
}

/// A type as an element, and how many of it there are.
#[derive(Clone, Copy)]
pub(crate) struct Peeled {
    pub element: Element,
    pub times: u64,
}

/// What a type is an array of, however deep, and how many of it there are: one where it is no array.
///
/// `NoMemory`: they are too many for any memory.
pub(crate) fn peel(of: &CType) -> Result<Peeled, NoMemory>
    ensures { IfOk result (λ p. (names : Names) (items : List S.Item) → type_layout items (type_of names of.now) ≡ option_map (repeated p.times) (element_layout names items p.element)) }
{
    match of {
        CType::Void => Ok(Peeled {
            element: Element::Incomplete,
            times: 1,
        }),
        CType::Int(kind) => Ok(Peeled {
            element: Element::Cell(Scalar::Int(*kind)),
            times: 1,
        }),
        CType::Condvar => Ok(Peeled {
            element: Element::Cell(Scalar::Cond),
            times: 1,
        }),
        CType::Pointer(_) => Ok(Peeled {
            element: Element::Cell(Scalar::Pointer),
            times: 1,
        }),
        CType::Code { .. } => Ok(Peeled {
            element: Element::Cell(Scalar::Code),
            times: 1,
        }),
        CType::Struct(tag) => Ok(Peeled {
            element: Element::Struct(*tag),
            times: 1,
        }),
        CType::Array(of, count) => {
            let inner = peel(of)?;
            match count.checked_mul(inner.times) {
                Some(times) => Ok(Peeled {
                    element: inner.element,
                    times,
                }),
                None => Err(NoMemory),
            }
        }
    }
}
