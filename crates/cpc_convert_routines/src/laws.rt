//! The laws, each as the contract of a function that does nothing.
ghost use Rattle.cpc_convert_routines.specs.ClosureLaws.{ClosuresAreLifted};

/// What the frames of an owner keep is what the lifted machine keeps.
pub fn closures_are_lifted()
    ensures law { ClosuresAreLifted }
{}
