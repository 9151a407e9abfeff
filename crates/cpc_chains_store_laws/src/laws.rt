//! The laws, each as the contract of a function that does nothing.
ghost use Rattle.cpc_chains_store_laws.specs.FrameLaws.{FramesAreMade, FramesAreTaken, FramesArePatched, Drives};
ghost use Rattle.cpc_chains_store_laws.specs.PieceLaws.{FramesAreOpened, PiecesBegin, LeadersAreEntered, SpawnersSpawn, CallbacksMade};
ghost use Rattle.cpc_chains_store_laws.specs.RowLaws.{CallsAreFramed, PiecesAreLeft, LinesFaultAlike};
ghost use Rattle.cpc_chains_store_laws.specs.Worked.{WorkedProgramRuns, FrameIsMade};
ghost use Rattle.cpc_chains_store_laws.specs.WorkedBoxes.{BoxedProgramRuns};
ghost use Rattle.cpc_chains_store_laws.specs.ChainLaws.{ChainsAreKept, AllChainsAreKept};
ghost use Rattle.cpc_convert_flat_laws.specs.Laws.{LiveBlocksAreOwned};

/// A chain of saved frames stays one while blocks that are not its own are made, written and freed; a frame is put before it, taken
/// from it, and given the value that arrives.
pub fn chains_are_kept()
    ensures one { ChainsAreKept }
    ensures all { AllChainsAreKept }
    ensures live { LiveBlocksAreOwned }
{}

/// A frame of a piece is made: its block, its code, the frame below it, and the values of any number of variables.
pub fn frames_are_made()
    ensures law { FramesAreMade }
{}

/// A frame is taken up: any number of its fields are loaded into new locals.
pub fn frames_are_taken()
    ensures law { FramesAreTaken }
{}

/// A value is written to the frame below, if there is one.
pub fn frames_are_patched()
    ensures law { FramesArePatched }
{}

/// The driver takes up one frame after the other.
pub fn drives()
    ensures law { Drives }
{}

/// A piece begins by taking its frame, and gives it back.
pub fn pieces_begin()
    ensures opens { FramesAreOpened }
    ensures law { PiecesBegin }
{}

/// A piece that goes to a leader makes its frame and gives it to the driver, which enters the leader's piece.
pub fn leaders_are_entered()
    ensures law { LeadersAreEntered }
{}

/// A spawner makes the first frame of a thread, and a callback for it.
pub fn spawners_spawn()
    ensures law { SpawnersSpawn }
{}

/// A callback of the driver is made ready, or waits.
pub fn callbacks_are_made()
    ensures law { CallbacksMade }
{}

/// A worked program of frames, pieces and the driver prints what it is to print, ends, and leaves no frame.
pub fn worked_program_runs()
    ensures law { WorkedProgramRuns }
    ensures boxed { BoxedProgramRuns }
    ensures frame { FrameIsMade }
{}

/// The start frame of a call holds the values of its arguments, or the first one that faults does.
pub fn calls_are_framed()
    ensures law { CallsAreFramed }
{}

/// A piece is left for the one below, with its value, or for nothing.
pub fn pieces_are_left()
    ensures law { PiecesAreLeft }
{}

/// A line faults with its act; a wait that the agenda refuses faults; a section is submitted.
pub fn lines_fault_alike()
    ensures law { LinesFaultAlike }
{}
