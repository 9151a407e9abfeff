//! Blocks, the values of cells, and what a cell may hold.
ghost use Rattle.std.specs.Prelude.{◌≡◌, ◌↔◌, IsTrue};

use cpc_base::Name;
use cpc_num::{Kind, is_of};

/// What a block of cells was made for.
#[derive(Clone, Copy, PartialEq, Eq)]
pub enum Class {
    /// A global.
    Static,
    /// A variable of one call.
    Auto,
    /// What `malloc` drew.
    Heap,
    /// A continuation's frame.
    Frame,
}

/// A block: the number counts the blocks of its class from 0, in order of making.
#[derive(Clone, Copy, PartialEq, Eq)]
pub struct Block {
    pub class: Class,
    pub number: u64,
}

/// What a cell holds: nothing yet, a whole number of a kind, a null pointer or code, a pointer to
/// a cell of a block, the code of a function, or a condition variable.
///
/// It is lawful where an `Int` is a value of its kind and the offset of an `At` is below 2^63.
#[derive(Clone, Copy, PartialEq, Eq)]
pub enum Value {
    Unset,
    Int(Kind, i128),
    Null,
    At(Block, u64),
    Code(Name),
    Cond(u64),
}

impl Value {
    ghost use Rattle.cpc_store.specs.Seen.{seen, IsLawful};

    /// Whether the value is lawful, as each call that takes one asks.
    pub fn is_lawful(self) -> bool
        ensures { IsTrue result ↔ IsLawful (seen self) }
    {
        match self {
            Value::Int(kind, value) => is_of(kind, value),
            Value::At(_, offset) => offset < 0x8000_0000_0000_0000,
            Value::Unset | Value::Null | Value::Code(_) | Value::Cond(_) => true,
        }
    }
}

/// What a cell of a scalar type is to hold.
#[derive(Clone, Copy)]
pub enum Scalar {
    Int(Kind),
    Pointer,
    Code,
    Cond,
}
