//! The laws, as the contracts of functions that do nothing.
ghost use Rattle.cpc_check_served_laws.specs.Laws.{AcceptedAreServed, AcceptedAskDeclared};

/// An event program that is read and breaks no rule asks only for what the loop answers: its primitives, and functions of the host.
pub fn accepted_are_served()
    ensures law { AcceptedAreServed }
{}

/// A program that is read and breaks no rule asks only for functions of the host that it declares, with as many arguments as they have
/// parameters.
pub fn accepted_ask_declared()
    ensures law { AcceptedAskDeclared }
{}
