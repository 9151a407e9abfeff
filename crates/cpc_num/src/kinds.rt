//! The kinds of whole numbers, the operators on them, and the faults of a program.

/// A kind of whole number: `char`, which is signed, `int` and `long` of 8, 32 and 64 bits, and
/// the same without a sign. The values are those of two's complement (C11 6.2.6.2).
#[derive(Clone, Copy, PartialEq, Eq)]
pub enum Kind {
    Char,
    UChar,
    Int,
    UInt,
    Long,
    ULong,
}

/// An operator of two operands.
#[derive(Clone, Copy)]
pub enum Op {
    Mul,
    Div,
    Rem,
    Add,
    Sub,
    Shl,
    Shr,
    Lt,
    Le,
    Gt,
    Ge,
    Eq,
    Ne,
    BitAnd,
    BitXor,
    BitOr,
}

/// Why a step of a program fails.
#[derive(Clone, Copy, PartialEq, Eq)]
pub enum Fault {
    /// A signed result is out of the range of its kind.
    Overflow,
    /// A divisor is 0.
    Divide,
    /// A shift amount is negative, or not below the width of what is shifted.
    Shift,
    /// An unset value is used.
    Unset,
    /// A cell is read as what it does not hold.
    Kind,
    /// A null pointer is followed or moved, or null is called.
    Null,
    /// A pointer leaves its block, or a cell behind its end is used.
    Bounds,
    /// A block that was freed is used.
    Freed,
    /// Pointers into different blocks are ordered or subtracted.
    Compare,
    /// What is called is no function of that type.
    Code,
    /// A section takes more steps than it may.
    SectionSteps,
    /// Too many sections are outstanding.
    Sections,
    /// What is freed is not the start of a live block of that class.
    BadFree,
    /// A condition variable is not live, or one that is freed has a waiter.
    CondVar,
    /// A length is out of range.
    Length,
}
