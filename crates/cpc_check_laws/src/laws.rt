//! The laws, each as the contract of a function that does nothing.
ghost use Rattle.cpc_check_laws.specs.Native.Laws.{EventReadsMore, NativeProgramsPass, PlacesDoNotMatter, UnbrokenAtAnyPlaces};
ghost use Rattle.cpc_check_laws.specs.Native.Refusals.{FirstIsByPlaces, PlacesAreTold, RulesAreOfPrograms};
ghost use Rattle.cpc_check_laws.specs.Sound.Examples.{ExamplesAreAccepted, UnacceptedAreStuck};
ghost use Rattle.cpc_check_laws.specs.Sound.Promises.{AcceptedCallbacksNeverStuck, AcceptedIsTyped, AcceptedThreadsNeverStuck, ControlStays, ExpressionsAnswer, TypedCallbacksNeverStuck, TypedThreadsNeverStuck};
ghost use Rattle.cpc_check_laws.specs.Kept.Beside.{CodeBeside, HeapsBeside, SectionsBeside, StacksBeside, StoresBeside};
ghost use Rattle.cpc_check_laws.specs.Kept.Laws.{AcceptedHold, AcceptedIsSteady, AcceptedKeepsModes, CallsFit, ClearedFit, CodesAreNative, CopiesComeBack, LayersStay, NothingPointsToFrames, RunsKeep, SlotsAreKnown, ThreadsHold, ThreadsKeep, TreesAreSteady, TypedSectionsGive, WaysHold};
ghost use Rattle.cpc_check_laws.specs.Kept.Refusals.{SectionsAreNeeded};
ghost use Rattle.cpc_check_laws.specs.Run.Laws.{PlainRunsAlike, PlainRunsSame, PlainRunsWithin, NativeIsPlain, TextsAreShaped, NativeTextIsPlain};
ghost use Rattle.cpc_check_laws.specs.Run.Refusals.{PlainIsNeeded, ShapeIsNeeded};

/// A program of native code alone, in which nothing is spawned, is an event program as it stands: where it breaks no rule of the
/// dialect Cpc it breaks none of the dialect Event.
pub fn native_programs_pass()
    ensures law { NativeProgramsPass }
{}

/// A text that is read as a program in the dialect Cpc is read as the same one in the dialect Event.
pub fn event_reads_more()
    ensures law { EventReadsMore }
{}

/// Whether a rule is broken does not depend on places: programs that are equal without their places have the same row of broken
/// rules, and where the one breaks none the other breaks none. Which rule of the row stands first in the text may differ.
pub fn places_do_not_matter()
    ensures law { PlacesDoNotMatter }
    ensures unbroken { UnbrokenAtAnyPlaces }
{}

/// What does depend on places is where a rule is broken, and so which broken rule stands first in the text; and programs that are
/// not equal without their places may break other rules.
pub fn places_tell_the_first()
    ensures told { PlacesAreTold }
    ensures first { FirstIsByPlaces }
    ensures other { RulesAreOfPrograms }
{}

/// An expression that has a type has a value that suits it, or a fault.
pub fn expressions_answer()
    ensures { ExpressionsAnswer }
{}

/// In a body whose labels are there, and in which `break` and `continue` stand in loops, control stays where something stands.
pub fn control_stays()
    ensures { ControlStays }
{}

/// The threads of a well typed program are never stuck, whatever the history.
pub fn typed_threads_never_stuck()
    ensures { TypedThreadsNeverStuck }
{}

/// The callbacks of a well typed event program are never stuck, whatever the history.
pub fn typed_callbacks_never_stuck()
    ensures { TypedCallbacksNeverStuck }
{}

/// A program that is read from tokens and breaks no rule is well typed.
pub fn accepted_is_typed()
    ensures { AcceptedIsTyped }
{}

/// The threads of a program that is read from tokens and breaks no rule of the dialect Cpc are never stuck, whatever the history.
pub fn accepted_threads_never_stuck()
    ensures { AcceptedThreadsNeverStuck }
{}

/// The callbacks of a program that is read from tokens and breaks no rule of the dialect Event are never stuck, whatever the history.
pub fn accepted_callbacks_never_stuck()
    ensures { AcceptedCallbacksNeverStuck }
{}

/// Programs of both dialects with sections, pointers to functions and loops break no rule and are well typed, so that the laws of well typed programs speak of something.
pub fn examples_are_accepted()
    ensures { ExamplesAreAccepted }
{}

/// Programs that break a rule can be stuck, and so can trees that no text is read as.
pub fn unaccepted_are_stuck()
    ensures { UnacceptedAreStuck }
{}

/// A program of native code alone, in which nothing is spawned, detached or waited for, is its own event program: each step of its
/// threads is one step of its callbacks.
pub fn plain_runs_alike()
    ensures law { PlainRunsAlike }
{}

/// Where its threads are never stuck, its threaded and its event runs show the same, whatever the history.
pub fn plain_runs_same()
    ensures law { PlainRunsSame }
{}

/// And its event runs show each state of its threads within the cost that a program may have.
pub fn plain_runs_within()
    ensures law { PlainRunsWithin }
{}

/// A program of native code that breaks no rule of the dialect Cpc is plain, where it has the shape that texts give trees.
pub fn native_is_plain()
    ensures law { NativeIsPlain }
{}

/// A text gives trees of that shape.
pub fn texts_are_shaped()
    ensures law { TextsAreShaped }
{}

/// So a text of native code that breaks no rule of the dialect Cpc gives a plain program.
pub fn native_text_is_plain()
    ensures law { NativeTextIsPlain }
{}

/// What a plain program may not do makes its runs differ: a spawn, a section, a yield, a primitive of the event loop; and where it
/// fails, a name with two underscores in a row, and one of a cps function that ends with a underscore.
pub fn plain_is_needed()
    ensures law { PlainIsNeeded }
{}

/// Of trees of another shape the rules do not see enough: native code that breaks none of them may yield.
pub fn shape_is_needed()
    ensures law { ShapeIsNeeded }
{}

/// Over steady code it holds where threads begin, and each step keeps it.
pub fn threads_keep<P>()
    ensures law { ThreadsKeep P }
{}

/// So it holds of each state of their runs.
pub fn runs_keep<P>()
    ensures law { RunsKeep P }
{}

/// The code of a program whose sections give ints is steady, as it is written and with the ways that are taken.
pub fn trees_are_steady()
    ensures law { TreesAreSteady }
{}

/// The sections of a typed program give ints.
pub fn typed_sections_give()
    ensures law { TypedSectionsGive }
{}

/// So is the code of a program that is read from tokens and breaks no rule of the dialect Cpc.
pub fn accepted_is_steady()
    ensures law { AcceptedIsSteady }
{}

/// It passes from code to code that meets it: from all ways to those that are taken.
pub fn ways_hold()
    ensures law { WaysHold }
{}

/// No value of such a state points to a heap frame.
pub fn nothing_points_to_frames()
    ensures law { NothingPointsToFrames }
{}

/// What the slots of a call are, by number.
pub fn calls_fit()
    ensures law { CallsFit }
{}

/// In a store in which no heap frame was made and pointers lead into blocks that were made, code does the same beside any frames: it
/// has the same values and places, and does the same or has the same fault.
pub fn code_beside()
    ensures law { CodeBeside }
{}

/// So does a stack of frames, in a step and where a request is answered.
pub fn stacks_beside<P>()
    ensures law { StacksBeside P }
{}

/// What a program allocates and frees itself stands beside any frames.
pub fn heaps_beside()
    ensures law { HeapsBeside }
{}

/// Sections take and bring back the same beside any frames.
pub fn sections_beside<P>()
    ensures law { SectionsBeside P }
{}

/// A value that fits its type can be copied to a cell and back.
pub fn copies_come_back()
    ensures law { CopiesComeBack }
{}

/// Where a section gives a pointer, a state holds one that leads into no block: so typed programs have none.
pub fn sections_are_needed()
    ensures law { SectionsAreNeeded }
{}

/// Slots of which some were cleared fit their types as before.
pub fn cleared_fit()
    ensures law { ClearedFit }
{}

/// The parts of expressions and acts do the same beside any frames.
pub fn stores_beside()
    ensures law { StoresBeside }
{}

/// In an accepted program, a code of such a state calls a native or detached function.
pub fn codes_are_native()
    ensures law { CodesAreNative }
{}

/// Over code that keeps modes, a thread that waits has frames of cps functions alone.
pub fn layers_stay<P>()
    ensures law { LayersStay P }
{}

/// The code of an accepted program keeps modes.
pub fn accepted_keeps_modes()
    ensures law { AcceptedKeepsModes }
{}

/// All of it holds where threads begin, over steady code that keeps modes, and each step keeps it.
pub fn threads_hold<P>()
    ensures law { ThreadsHold P }
{}

/// So it does over the code of an accepted program.
pub fn accepted_hold()
    ensures law { AcceptedHold }
{}

/// What is known of the slot of a variable of a call, as it is copied to a cell and back.
pub fn slots_are_known()
    ensures law { SlotsAreKnown }
{}
