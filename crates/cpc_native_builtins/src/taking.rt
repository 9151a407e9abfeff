//! What the primitives take.
ghost use Rattle.std.specs.Prelude.{◌≡◌, Some, map};
ghost use Rattle.cpc_tree.specs.Primitives.{takes_first};
ghost use Rattle.cpc_tree.specs.PrimitiveNames.{primitive_of};
ghost use Rattle.cpc_eval_values.specs.Takes.{taken_of};

use cpc_eval_values::Taken;
use cpc_num::Kind;
use cpc_store::Scalar;
use cpc_tree::primitive::Primitive;

const LONG: Taken = Taken::SetOf(Scalar::Int(Kind::Long));

const INT: Taken = Taken::SetOf(Scalar::Int(Kind::Int));

const CONDITION: Taken = Taken::SetOf(Scalar::Cond);

const POINTER: Taken = Taken::SetOf(Scalar::Pointer);

const CALLBACK: Taken = Taken::SetOf(Scalar::Code);

const FREE_POINTER: Taken = Taken::FreeOf(Scalar::Pointer);

/// How a primitive takes its arguments, from left to right. `cpc_puts` takes a string besides, `rt_detach` a function and
/// what that takes.
pub fn takes(primitive: Primitive) -> &'static [Taken]
    ensures { map Some result.now ≡ map taken_of (takes_first (primitive_of primitive)) }
{
    match primitive {
        Primitive::Print | Primitive::Putc => &[Taken::AnyInteger],
        Primitive::Puts | Primitive::Now | Primitive::CondNew | Primitive::Yield => &[],
        Primitive::CondFree | Primitive::Signal | Primitive::SignalAll | Primitive::Wait => &[
            CONDITION,
        ],
        Primitive::Exit => &[INT],
        Primitive::Malloc | Primitive::Sleep | Primitive::RtFrame | Primitive::RtBox => &[LONG],
        Primitive::Free | Primitive::RtFrameFree | Primitive::RtUnbox => &[POINTER],
        Primitive::IoWait => &[INT, INT],
        Primitive::RtReady | Primitive::RtDetach => &[CALLBACK, FREE_POINTER],
        Primitive::RtWait => &[CONDITION, CALLBACK, FREE_POINTER],
        Primitive::RtSleep => &[LONG, CALLBACK, FREE_POINTER],
        Primitive::RtIo => &[INT, INT, CALLBACK, FREE_POINTER],
    }
}
