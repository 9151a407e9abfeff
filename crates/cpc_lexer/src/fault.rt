//! Why a text is not cut.
ghost use Rattle.std.specs.Prelude.{◌≡◌, ◌≤◌};
ghost use Rattle.cpc_lexer.specs.Faults.{fault_name};

use cpc_base::Place;

pub(crate) const STRAY_BYTE: u8 = 1;

pub(crate) const UNCLOSED: u8 = 2;

pub(crate) const TOO_WIDE: u8 = 3;

pub(crate) const TOO_LONG: u8 = 4;

pub(crate) const MALFORMED: u8 = 5;

/// The first fault of a text.
///
/// 1. `stray byte`: it begins no token, blank or comment.
/// 2. `unclosed`: a comment meets the end of the text, or a character or string the end of its line (C11 6.4.4.4, 6.4.5, 6.4.9).
/// 3. `literal too wide`: no type of the list holds an integer (C11 6.4.4.1).
/// 4. `name too long`: a name has more than 63 bytes, in the dialect `Event` more than 95.
/// 5. `malformed`: another form of integer, an escape that is none or is above 255, another byte that a character or a
///    string cannot hold, or a character of none or several bytes.
///
/// Inside one token the leftmost byte that shows a fault decides.
#[derive(Clone, Copy)]
pub struct LexFault {
    /// Where the first byte of what is faulty stands.
    pub place: Place,
    /// 1 to 5, in the order of the names.
    pub number: u8,
    ghost first: { 1 ≤ number },
    ghost last: { number ≤ 5 },
}

impl LexFault {
    /// How the fault is told: `stray byte`, `unclosed`, `literal too wide`, `name too long` or `malformed`.
    pub fn name(&self) -> &'static str
        ensures { result.now ≡ fault_name self.now.number }
    {
        match self.number {
            STRAY_BYTE => "stray byte",
            UNCLOSED => "unclosed",
            TOO_WIDE => "literal too wide",
            TOO_LONG => "name too long",
            _ => "malformed",
        }
    }
}
