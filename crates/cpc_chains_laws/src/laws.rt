//! The laws, each as the contract of a function that does nothing.
ghost use Rattle.cpc_chains_laws.specs.Complete.Laws.{FlatBodiesBreakNone, OpeningsBreakNone, RowsBreakNone, TypedIsNotEnough};
ghost use Rattle.cpc_chains_laws.specs.Bodies.Laws.{SpawnersFine};
ghost use Rattle.cpc_chains_laws.specs.Call.Laws.{FramedCallsArrive, NodesHaveManners};
ghost use Rattle.cpc_chains_laws.specs.Entry.Laws.{LeadersHaveRows};
ghost use Rattle.cpc_chains_laws.specs.Related.Laws.{ItemsOwn, ReturnsComeLast, WalksStayQuiet};
ghost use Rattle.cpc_chains_laws.specs.Leak.Laws.{ConvertedComesFrom, ConvertedComesTo, ConvertedRests};
ghost use Rattle.cpc_chains_laws.specs.Native.Laws.{GlobalsStay, WholesAreFound};
ghost use Rattle.cpc_chains_laws.specs.Piece.Laws.{AllRowsStand, StoodIsTidied};
ghost use Rattle.cpc_chains_laws.specs.Return.Laws.{BoxesAreKept, FineBoxesAreKept};
ghost use Rattle.cpc_chains_laws.specs.RowBodies.Laws.{LabelsStandOnce, GotosLead, BodiesAreFine, ConvertedUnbroken};
ghost use Rattle.cpc_chains_laws.specs.Rules.Laws.{BodiesSuffice};
ghost use Rattle.cpc_chains_laws.specs.Runs.Laws.{AcceptedCpsIsKnown, AcceptedIsKnown, AcceptedIsNative, ConvertedHasSameRuns};
ghost use Rattle.cpc_chains_laws.specs.Shape.Laws.{AcceptedShape};
ghost use Rattle.cpc_chains_laws.specs.Shape.Refusals.{AStatementIsDropped, EveryStatementAFunction};
ghost use Rattle.cpc_chains_laws.specs.Wait.Laws.{CpsStatementsWait, StartsAreMeant};

/// That a program is well typed, as its meaning asks, is not enough to break no rule.
pub fn typed_is_not_enough()
    ensures law { TypedIsNotEnough }
{}

/// A flat body breaks no rule, where its rows, its opening and its labels break none.
pub fn flat_bodies_break_no_rule()
    ensures rows { RowsBreakNone }
    ensures openings { OpeningsBreakNone }
    ensures bodies { FlatBodiesBreakNone }
{}

/// The blocks of an agenda are owned as often as its items own them together.
pub fn items_own()
    ensures law { ItemsOwn }
{}

/// A walk of the event machine from a quiet state comes to a quiet one.
pub fn walks_stay_quiet()
    ensures law { WalksStayQuiet }
{}

/// A value is returned to nobody by a step of the last frame alone.
pub fn returns_come_last<P>()
    ensures law { ReturnsComeLast P }
{}

/// Each name of a native or detached function finds it in both programs.
pub fn wholes_are_found()
    ensures law { WholesAreFound }
{}

/// The globals of the event program are those of the program.
pub fn globals_stay()
    ensures law { GlobalsStay }
{}

/// Each number of a piece has its row, and any two rows of one number are one.
pub fn rows_stand()
    ensures law { AllRowsStand }
{}

/// A piece that stands for a frame stands for it also where the frame has forgotten what it need not keep.
pub fn stood_is_tidied()
    ensures law { StoodIsTidied }
{}

/// The event program of an accepted program breaks no rule of the dialect Event, at whatever places it stands, where the bodies of its
/// pieces and spawners break none wherever what they name is known.
pub fn bodies_suffice()
    ensures law { BodiesSuffice }
{}

/// What stands at a node is left in its manner.
pub fn nodes_have_manners()
    ensures law { NodesHaveManners }
{}

/// A statement that is left over a frame is a call, whose value arrives at a node of its own in the piece of the call.
pub fn framed_calls_arrive()
    ensures law { FramedCallsArrive }
{}

/// What an accepted program is converted to has the shape of an event program of it.
pub fn accepted_has_the_shape()
    ensures law { AcceptedShape }
{}

/// Other programs have it not: of a cps function that prints twice, one that has a function for each print, and one that prints
/// once.
pub fn other_shapes_are_refused()
    ensures each { EveryStatementAFunction }
    ensures dropped { AStatementIsDropped }
{}

/// The spawners of an accepted program break no rule of the dialect Event, wherever what they name is known.
pub fn spawners_fine()
    ensures law { SpawnersFine }
{}

/// Where a frame has forgotten what it need not keep, its boxes are variables that its owner keeps.
pub fn boxes_are_kept()
    ensures law { BoxesAreKept }
{}

/// So it is in a frame of which it is known which variables it keeps.
pub fn fine_boxes_are_kept()
    ensures law { FineBoxesAreKept }
{}

/// A node that owns itself has a row of its own.
pub fn leaders_have_rows()
    ensures law { LeadersHaveRows }
{}

/// A cps statement is a call of a cps function, a call of a primitive that waits, or a section.
pub fn cps_statements_wait()
    ensures law { CpsStatementsWait }
{}

/// The driver and the starts of cps functions mean themselves in each piece.
pub fn starts_are_meant()
    ensures law { StartsAreMeant }
{}

/// No two rows of a piece have one label.
pub fn labels_stand_once()
    ensures law { LabelsStandOnce }
{}

/// Each goto of a piece leads to the label of a row of that piece.
pub fn gotos_lead()
    ensures law { GotosLead }
{}

/// The bodies of the pieces and spawners of an accepted program break no rule of the dialect Event, wherever what they name is known.
pub fn bodies_are_fine()
    ensures law { BodiesAreFine }
{}

/// The event program of an accepted program breaks no rule of the dialect Event, at whatever places it stands.
pub fn converted_unbroken()
    ensures law { ConvertedUnbroken }
{}

/// The cps functions of an accepted program are as pieces ask.
pub fn cps_functions_are_known()
    ensures law { AcceptedCpsIsKnown }
{}

/// So is the program.
pub fn programs_are_known()
    ensures law { AcceptedIsKnown }
{}

/// An accepted program without cps functions is its own event program, and runs alike in both machines.
pub fn natives_stay()
    ensures law { AcceptedIsNative }
{}

/// An accepted program has the same runs as its event program, whatever the history, and each of its states is reached within the cost.
pub fn converted_has_the_same_runs()
    ensures law { ConvertedHasSameRuns }
{}

/// For each state of the threads of an accepted program its event program comes to a state with no frame block more than its threads have cps frames, and no
/// cell more in these than they need; nothing runs in it where nothing runs in the threads, and its live cells are at most their measure and the cost of a step.
pub fn converted_comes_to_held_frames()
    ensures law { ConvertedComesTo }
{}

/// Whenever its event program is looked at, it was in such a state less than the cost of one step of the threads ago.
pub fn converted_comes_from_held_frames()
    ensures law { ConvertedComesFrom }
{}

/// Wherever nothing runs in its event program, nothing runs in the threads after no more steps; they show the same, its frame blocks are at most as many as their cps
/// frames, with at most the cells that these need, its `auto` blocks are theirs, and its live cells are at most the measure of the threads. At every number of steps
/// its live cells are at most the measure of a state of the threads that is reached in no more steps and shows the same trace, and the cost of a step.
pub fn converted_rests_with_held_frames()
    ensures law { ConvertedRests }
{}
