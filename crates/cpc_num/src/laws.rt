//! Laws of the numbers, each one the contract of a function that does nothing.
ghost use Rattle.cpc_num.specs.Laws.{DivisionTruncates};

/// Division truncates towards zero: where neither `a / b` nor `a % b` faults,
/// `(a / b) * b + a % b` is `a`, and the remainder is 0 or has the sign of `a`, and is smaller
/// than `b` in absolute value (C11 6.5.5p6).
pub fn division_truncates()
    ensures { DivisionTruncates }
{}
