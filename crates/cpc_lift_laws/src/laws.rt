//! The laws, each as the contract of a function that does nothing.
ghost use Rattle.cpc_lift_laws.specs.Closures.{ClosuresAreClosed, ClosuresAreLeast, ClosuresAreReached, SplitIsClosed, ClosuresAreBelow};
ghost use Rattle.cpc_lift_laws.specs.Boxes.{BoxesAreBelow};
ghost use Rattle.cpc_lift_laws.specs.Used.{UsedAreBelow};
ghost use Rattle.cpc_lift_laws.specs.Laws.{LiftingFollows, LiftedIsTidy, LiftedIsSame, LiftedEnds, ProgramsHaveMarks};
ghost use Rattle.cpc_lift_laws.specs.Refusals.{WhatIsKeptIsNeeded};
ghost use Rattle.cpc_lift_laws.specs.Lift.{LiftIsClosed, ScopesAreBelow};
ghost use Rattle.cpc_lift_laws.specs.Nodes.{NodesGiveWays};
ghost use Rattle.cpc_lift_laws.specs.Search.{SearchFinds, SearchIsClosure, ComputedIsKept};
ghost use Rattle.cpc_lift_laws.specs.Standing.{LiftedStands};

/// What is not kept is not missed: where enough is kept, the lifted machine matches the threads, one step for one step.
pub fn lifting_follows<P>()
    ensures law { LiftingFollows P }
{}

/// In each state of the lifted run, what is not kept is unset.
pub fn lifted_is_tidy<P>()
    ensures law { LiftedIsTidy P }
{}

/// After as many steps the threads and the lifted machine have one store, one trace and one outcome, and both run or wait.
pub fn lifted_is_same<P>()
    ensures law { LiftedIsSame P }
{}

/// A lifted run that is over has no step.
pub fn lifted_ends<P>()
    ensures law { LiftedEnds P }
{}

/// In each state of the lifted run all frames, of threads that run or wait, stand where code may stand, each with a slot for each
/// variable of its function, of which those that are kept are boxes where they are marked.
pub fn lifted_stands<P>()
    ensures law { LiftedStands P }
{}

/// The variables of a program's functions that are no registers are marked by a function of the program.
pub fn programs_have_marks()
    ensures law { ProgramsHaveMarks }
{}

/// What is, at each position, the closure of the owner of the position is enough to keep.
pub fn closures_are_closed<P, O>()
    ensures law { ClosuresAreClosed P O }
{}

/// So a form is closed where each of its functions keeps all, as native ones do, or the closures of its owners.
pub fn split_is_closed<P, O>()
    ensures law { SplitIsClosed P O }
{}

/// The closure is the least that is enough, where all positions of one owner keep the same.
pub fn closures_are_least<P, O>()
    ensures law { ClosuresAreLeast P O }
{}

/// A variable is in the closure of an owner exactly where an owner that is reached from it uses the variable.
pub fn closures_are_reached<P, O>()
    ensures law { ClosuresAreReached P O }
{}

/// A search backwards from the users of a variable, which follows each way once, finds exactly the owners that lead to one.
pub fn search_finds()
    ensures law { SearchFinds }
{}

/// So what is computed from the ways and the uses of a function's code is its closures.
pub fn search_is_closure<P>()
    ensures law { SearchIsClosure P }
{}

/// Where one thing that has to be kept is not, a small program's lifted machine shows something else.
pub fn what_is_kept_is_needed()
    ensures law { WhatIsKeptIsNeeded }
{}

/// Closures have no variable beyond those that are used and boxed; what is used is in scope, and boxes are variables.
pub fn closures_are_below<P, O>()
    ensures closures { ClosuresAreBelow P O }
    ensures used { UsedAreBelow }
    ensures boxes { BoxesAreBelow }
{}

/// What is computed is, kept at each position, exactly the closure of the owner.
pub fn computed_is_kept<P>()
    ensures law { ComputedIsKept P }
{}

/// Gathered from all positions at which code may stand, the ways and the uses are those of the code.
pub fn nodes_give_ways<P>()
    ensures law { NodesGiveWays P }
{}

/// What lifting computes of a split program is enough to keep: all in whole functions, and closures of owners in the others.
pub fn lift_is_closed<P>()
    ensures law { LiftIsClosed P }
{}

/// In the trees of a function each name in scope is one of its variables.
pub fn scopes_are_below()
    ensures law { ScopesAreBelow }
{}
