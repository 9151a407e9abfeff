//! What the rules ask of a primitive.
ghost use Rattle.std.specs.Prelude.{◌≡◌};
ghost use Rattle.cpc_tree.specs.PrimitiveNames.{primitive_of};
ghost use Rattle.cpc_check_rules.specs.Calls as C;

use cpc_tree::primitive::Primitive;

/// Whether a thread waits at the primitive. Only cps functions may call such a one.
pub(crate) fn gives_up(primitive: Primitive) -> bool
    ensures { result ≡ C.gives_up (primitive_of primitive) }
{
    match primitive {
        Primitive::Yield | Primitive::Sleep | Primitive::IoWait | Primitive::Wait => true,
        _ => false,
    }
}

/// Whether the primitive is one of the dialect Event alone.
pub(crate) fn is_rt(primitive: Primitive) -> bool
    ensures { result ≡ C.is_rt (primitive_of primitive) }
{
    match primitive {
        Primitive::RtFrame
        | Primitive::RtBox
        | Primitive::RtFrameFree
        | Primitive::RtUnbox
        | Primitive::RtReady
        | Primitive::RtWait
        | Primitive::RtSleep
        | Primitive::RtIo
        | Primitive::RtDetach => true,
        _ => false,
    }
}

/// Whether a detached function may call the primitive.
pub(crate) fn is_closed(primitive: Primitive) -> bool
    ensures { result ≡ C.is_closed (primitive_of primitive) }
{
    match primitive {
        Primitive::Malloc | Primitive::Free => true,
        _ => false,
    }
}
