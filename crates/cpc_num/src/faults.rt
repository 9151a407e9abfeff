//! The numbers and the printed names of the faults.
ghost use Rattle.std.specs.Prelude.{◌≡◌};
ghost use Rattle.cpc_num.specs.Faults.{fault_name, fault_number};

use crate::kinds::Fault;

impl Fault {
    /// The name that a diagnostic prints.
    pub fn name(self) -> &'static str
        ensures { result.now ≡ fault_name self }
    {
        match self {
            Fault::Overflow => "overflow",
            Fault::Divide => "divide",
            Fault::Shift => "shift",
            Fault::Unset => "unset",
            Fault::Kind => "kind",
            Fault::Null => "null",
            Fault::Bounds => "bounds",
            Fault::Freed => "freed",
            Fault::Compare => "compare",
            Fault::Code => "code",
            Fault::SectionSteps => "section steps",
            Fault::Sections => "sections",
            Fault::BadFree => "badfree",
            Fault::CondVar => "condvar",
            Fault::Length => "length",
        }
    }

    /// The number of the fault, from 1 to 15.
    pub fn number(self) -> u8
        ensures { result ≡ fault_number self }
    {
        match self {
            Fault::Overflow => 1,
            Fault::Divide => 2,
            Fault::Shift => 3,
            Fault::Unset => 4,
            Fault::Kind => 5,
            Fault::Null => 6,
            Fault::Bounds => 7,
            Fault::Freed => 8,
            Fault::Compare => 9,
            Fault::Code => 10,
            Fault::SectionSteps => 11,
            Fault::Sections => 12,
            Fault::BadFree => 13,
            Fault::CondVar => 14,
            Fault::Length => 15,
        }
    }
}
