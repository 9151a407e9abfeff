//! Whole numbers of six kinds: promotion, the common kind, conversion, and the value or the fault of each operator.
#![tactic(auto)]

mod arithmetic;
mod conversion;
mod faults;
mod kinds;
mod laws;

pub use arithmetic::{binary, negate};
pub use conversion::{bits, common, convert, is_of, promoted, same_kind};
pub use kinds::{Fault, Kind, Op};
pub use laws::division_truncates;
