//! The laws, each as the contract of a function that does nothing.
ghost use Rattle.cpc_meaning_laws.specs.Cell.Laws.{CallTakes, GoingOnKeeps, LeavingGivesBack, StepsLeave, TakingAdds};
ghost use Rattle.cpc_meaning_laws.specs.Pointer.Laws.{AnsweredAlike, RunsAreMade};

/// Where no pointer leads into the block that is made next, a request is answered alike before and after it is made: the same goes
/// on, and the same faults.
pub fn requests_are_answered_alike()
    ensures law { AnsweredAlike }
{}

/// In each state of an event run to which no poll is told, each pointer leads into a block that was made: those of live cells, of
/// variables, and of the callbacks that are ready or wait.
pub fn runs_are_made()
    ensures law { RunsAreMade }
{}

/// A call takes the cells of its variables: of each that is a register one, and of each other those of its block.
pub fn a_call_takes_its_cells()
    ensures law { CallTakes }
{}

/// A call that is left gives back the cells of its variables.
pub fn leaving_gives_back_the_cells()
    ensures law { LeavingGivesBack }
{}

/// A step in which control goes on neither makes nor frees a block, and a register stays one.
pub fn going_on_keeps_the_cells()
    ensures law { GoingOnKeeps }
{}

/// A step of the event machine in which code runs leaves what is foretold of it.
pub fn a_step_leaves_the_cells_foretold<P>()
    ensures law { StepsLeave P }
{}

/// A function that the loop takes up adds the cells of its call to those of the blocks.
pub fn taking_a_function_adds_its_cells<P, T>()
    ensures law { TakingAdds P T }
{}
