//! What code asks for by a call.
use cpc_base::Name;
use cpc_tree::primitive::Primitive;

/// What code asks for by a call: a primitive, or a function of the host by its name.
#[derive(Clone, Copy)]
pub enum Call {
    /// A primitive.
    Builtin(Primitive),
    /// A function of the host.
    Host(Name),
}
