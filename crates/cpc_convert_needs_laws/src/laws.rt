//! The laws, each as the contract of a function that does nothing.
ghost use Rattle.cpc_convert_needs_laws.specs.Laws.{LiftedAreAlike, LiftedAreComplete, LiftedAreRoutines};

/// The lifted functions of a program are read alike by texts that tell its names, by its table, and by texts that have those of the table.
pub fn lifted_are_alike()
    ensures law { LiftedAreAlike }
{}

/// Those of an accepted program are its routines, one for one, as the definitions compute them.
pub fn lifted_are_routines()
    ensures law { LiftedAreRoutines }
{}

/// They have what the pieces that are made of them ask.
pub fn lifted_are_complete()
    ensures law { LiftedAreComplete }
{}
