//! The laws, each as the contract of a function that does nothing.
ghost use Rattle.cpc_lifted_laws.specs.Complete.Laws.{ImageAssignmentsBreakNone, ImageCallsBreakNone, ImageTestsBreakNone, ImagesBreakNone, ImagesHaveTypes, KeptFunctionsBreakNone, PointsBreakNone};
ghost use Rattle.cpc_lifted_laws.specs.Accepted.Functions.{AcceptedHasMain, AcceptedIsShown, ScopesMeanVariables};
ghost use Rattle.cpc_lifted_laws.specs.Accepted.Known.{AcceptedCodesStay, AcceptedIsFine};
ghost use Rattle.cpc_lifted_laws.specs.Accepted.Lifted.{LiftedRunsAreKnown, ProgramsAreClosed, ProgramsAreSplit, ThreadsFollow};
ghost use Rattle.cpc_lifted_laws.specs.Accepted.Names.{AcceptedHasNames, AcceptedIsNamed};
ghost use Rattle.cpc_lifted_laws.specs.Accepted.Pieces.{AcceptedSuitsPieces};
ghost use Rattle.cpc_lifted_laws.specs.Accepted.Points.{AcceptedPositionsKnown};
ghost use Rattle.cpc_lifted_laws.specs.Accepted.Steady.{AcceptedNeverStuck, AcceptedSplitsHold, SplitsAreSteady};
ghost use Rattle.cpc_lifted_laws.specs.Arrival.Laws.{AcceptedRunsWell, AcceptedTakes, ProgramsTake, TakenValuesFit, TakenValuesWaited, LeadersTakeValues, NodesTakeValues};
ghost use Rattle.cpc_lifted_laws.specs.Known.Laws.{LiftedBoxesStay, LiftedJobsStay};
ghost use Rattle.cpc_lifted_laws.specs.Related.Laws.{ItemsStay};
ghost use Rattle.cpc_lifted_laws.specs.Native.Laws.{AcceptedCloses, AcceptedIsConvertible, FramesMayBe};
ghost use Rattle.cpc_lifted_laws.specs.Runs.Laws.{AcceptedSectionsTake};
ghost use Rattle.cpc_lifted_laws.specs.Wait.Laws.{FittingCallsBegin};

/// What breaks no rule of the dialect Cpc breaks none of the dialect Event as its image, where names are read otherwise: expressions,
/// tests, assignments, and calls of what is neither a cps function nor a primitive that waits.
pub fn images_break_no_rule()
    ensures types { ImagesHaveTypes }
    ensures expressions { ImagesBreakNone }
    ensures tests { ImageTestsBreakNone }
    ensures assignments { ImageAssignmentsBreakNone }
    ensures calls { ImageCallsBreakNone }
{}

/// What stands at a point of a function that breaks no rule breaks none, in blocks that tell the variables in scope there.
pub fn points_break_no_rule()
    ensures law { PointsBreakNone }
{}

/// A native or detached function that breaks no rule of the dialect Cpc breaks none of the dialect Event, with each spawn in it as a
/// call of the spawner.
pub fn kept_functions_break_no_rule()
    ensures law { KeptFunctionsBreakNone }
{}

/// No item of an agenda is lost or doubled where a round begins, nor at a poll.
pub fn items_stay<T>()
    ensures law { ItemsStay T }
{}

/// In each state of a lifted run the boxes of all frames of all threads are live, and no two of them are one block.
pub fn lifted_boxes_stay<P>()
    ensures law { LiftedBoxesStay P }
{}

/// In each state of a lifted run the sections that are out run functions for that, on integers.
pub fn lifted_jobs_stay<P>()
    ensures law { LiftedJobsStay P }
{}

/// In every program, code of cps functions stands at their nodes with their owners alone, and names in scope there mean their variables.
pub fn programs_are_split()
    ensures law { ProgramsAreSplit }
{}

/// What each position keeps, the closure of its owner, is enough.
pub fn programs_are_closed()
    ensures law { ProgramsAreClosed }
{}

/// The lifted machine of every program matches its threads as they are written, one step for one step.
pub fn threads_follow()
    ensures law { ThreadsFollow }
{}

/// What is known of each state of its runs.
pub fn lifted_runs_are_known()
    ensures law { LiftedRunsAreKnown }
{}

/// The items and variables of an accepted program have plain names, and each function is found by its name, which means it.
pub fn accepted_has_names()
    ensures law { AcceptedHasNames }
{}

/// So its names are what the conversion asks of them.
pub fn accepted_is_named()
    ensures law { AcceptedIsNamed }
{}

/// Code of split graphs is steady and keeps modes where that of the text does.
pub fn splits_are_steady()
    ensures law { SplitsAreSteady }
{}

/// The threads of an accepted program's split graphs keep what threads keep.
pub fn accepted_splits_hold()
    ensures law { AcceptedSplitsHold }
{}

/// Neither they nor the lifted machine of an accepted program are ever stuck.
pub fn accepted_never_stuck()
    ensures law { AcceptedNeverStuck }
{}

/// The codes that values of an accepted program may be are names that stay: not marked, and no cps function's.
pub fn accepted_codes_stay()
    ensures law { AcceptedCodesStay }
{}

/// What is known of each state of the lifted run of an accepted program: of its values, its frames and its threads.
pub fn accepted_is_fine()
    ensures law { AcceptedIsFine }
{}

/// What stands at each position of an accepted program is typed; its names, the places that it writes and what native code asks for
/// are as the conversion needs them.
pub fn accepted_positions_known()
    ensures law { AcceptedPositionsKnown }
{}

/// A name that means a variable at a position is that of the variable of this number.
pub fn scopes_mean_variables()
    ensures law { ScopesMeanVariables }
{}

/// A fault names the functions of an accepted program as the event machine does.
pub fn accepted_is_shown()
    ensures law { AcceptedIsShown }
{}

/// The `main` of an accepted program is native or cps, takes nothing and gives an int.
pub fn accepted_has_main()
    ensures law { AcceptedHasMain }
{}

/// Each function of an accepted program is as its pieces ask: in its code `&` is applied to boxes, globals and functions alone,
/// what it gives and what it is called with is scalar, and its variables have cells.
pub fn accepted_suits_pieces()
    ensures law { AcceptedSuitsPieces }
{}

/// In each state of the lifted run, native frames stand where a value arrives only if the value of what stands there does.
pub fn frames_may_be()
    ensures law { FramesMayBe }
{}

/// Detached functions of an accepted program name no other functions.
pub fn accepted_closes()
    ensures law { AcceptedCloses }
{}

/// An accepted program has all that the conversion of its native code asks.
pub fn accepted_is_convertible()
    ensures law { AcceptedIsConvertible }
{}

/// What arrives at a position of a program is taken there, as far as its code goes.
pub fn programs_take()
    ensures law { ProgramsTake }
{}

/// In each state of the lifted run of an accepted program each frame takes what is to arrive at it.
pub fn accepted_takes()
    ensures law { AcceptedTakes }
{}

/// In each such state the frame that runs, and the item that is taken next, are what the rows of the conversion ask.
pub fn accepted_runs_well()
    ensures law { AcceptedRunsWell }
{}

/// A value that is taken where a leader puts it somewhere is one of the type of the leader's frames.
pub fn taken_values_fit()
    ensures law { TakenValuesFit }
{}

/// A value that is taken at an arrival that has a row of its own is that of a cps statement.
pub fn taken_values_waited()
    ensures law { TakenValuesWaited }
{}

/// A value that arrives at a frame that a leader takes up fits where the leader puts it.
pub fn leaders_take_values()
    ensures law { LeadersTakeValues }
{}

/// A value that arrives at a frame whose node has a row of its own is that of a cps statement.
pub fn nodes_take_values()
    ensures law { NodesTakeValues }
{}

/// A call of a cps function begins well where its arguments fit.
pub fn fitting_calls_begin()
    ensures law { FittingCallsBegin }
{}

/// Its sections run detached functions, on a pointer to integers and on integers.
pub fn sections_take()
    ensures law { AcceptedSectionsTake }
{}
