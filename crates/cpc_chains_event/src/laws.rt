//! The laws, each as the contract of a function that does nothing.
ghost use Rattle.cpc_chains_event.specs.FlatLaws.{PiecesAreFlat, StatementsStand};
ghost use Rattle.cpc_chains_event.specs.NameLaws.{FunctionsAreFound, ItemsAreMeant};
ghost use Rattle.cpc_chains_event.specs.StructLaws.{StructsAreThere};
ghost use Rattle.cpc_chains_event.specs.ScopeLaws.{NothingIsHidden};
ghost use Rattle.cpc_chains_event.specs.LocalLaws.{AllLocalsAreMeant};
ghost use Rattle.cpc_chains_event.specs.BoxingLaws.{AllStartsBox};
ghost use Rattle.cpc_chains_event.specs.CallLaws.{BoxesAreReturned, AllArgumentsAreGiven};
ghost use Rattle.cpc_chains_event.specs.FillLaws.{AllFramesAreFilled};
ghost use Rattle.cpc_chains_event.specs.AddressLaws.{PiecesAddressNone, VariablesAreRegisters};
ghost use Rattle.cpc_chains_event.specs.HeadLaws.{PiecesBegin};
ghost use Rattle.cpc_chains_event.specs.LabelLaws.{AllRowsStandOnce, LabelsLead};
ghost use Rattle.cpc_chains_event.specs.Mixed.{MixedRunsAlike};
ghost use Rattle.cpc_chains_event.specs.WrittenBoxes.{ProgramsAreWritten};
ghost use Rattle.cpc_chains_event.specs.Worked.{CallsRunAlike, WaitsRunAlike, BoxesRunAlike};

/// Event programs of programs that call run as these do.
pub fn calls_run_alike()
    ensures law { CallsRunAlike }
{}

/// Event programs of programs with boxes, waits and sections run as these do.
pub fn waits_run_alike()
    ensures law { WaitsRunAlike }
{}

/// Event programs of programs with boxes of each type, and with a loop at the head of a function, run as these do.
pub fn boxes_run_alike()
    ensures law { BoxesRunAlike }
{}

/// The event programs of three programs, written out.
pub fn programs_are_written()
    ensures law { ProgramsAreWritten }
{}

/// Each piece is a flat body, and its lines stand behind its opening.
pub fn pieces_are_flat()
    ensures flat { PiecesAreFlat }
    ensures stand { StatementsStand }
{}

/// Each name that is made finds what is made, and each native function is found.
pub fn functions_are_found()
    ensures law { FunctionsAreFound }
{}

/// Each name that is made stands for what is made, and each name of the source but those of cps functions for what it stood for.
pub fn items_are_meant()
    ensures law { ItemsAreMeant }
{}

/// The structs of frames are there, with a cell for each field.
pub fn structs_are_there()
    ensures law { StructsAreThere }
{}

/// No local of a piece hides a name of the source.
pub fn nothing_is_hidden()
    ensures law { NothingIsHidden }
{}

/// The event program of a program with a little of everything runs as it does.
pub fn mixed_runs_alike()
    ensures law { MixedRunsAlike }
{}

/// Each variable of a piece is found by its name, and all that its owner keeps stands in one.
pub fn locals_are_meant()
    ensures law { AllLocalsAreMeant }
{}

/// Each node of a piece, and each leader to which it goes, has one row, and its label leads to it.
pub fn labels_lead()
    ensures rows { AllRowsStandOnce }
    ensures labels { LabelsLead }
{}

/// A piece takes the address of no local, so that all its variables are registers.
pub fn variables_are_registers()
    ensures none { PiecesAddressNone }
    ensures law { VariablesAreRegisters }
{}

/// What a piece saves for a leader are the values of the leader's frame, and what a piece loads are the values of its own.
pub fn frames_are_filled()
    ensures law { AllFramesAreFilled }
{}

/// The start of a function makes the boxes that a call makes, from the arguments in its frame.
pub fn starts_box()
    ensures law { AllStartsBox }
{}

/// A piece puts the arguments of a call into its first frame, in order, and gives back each box where it returns.
pub fn calls_and_returns()
    ensures arguments { AllArgumentsAreGiven }
    ensures boxes { BoxesAreReturned }
{}

/// A piece begins with its first node; where the first node of a function leads, its start is the way to it.
pub fn pieces_begin()
    ensures law { PiecesBegin }
{}
