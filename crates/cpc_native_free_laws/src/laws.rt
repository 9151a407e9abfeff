//! The law, as the contract of a function that does nothing.
ghost use Rattle.cpc_native_free_laws.specs.Laws.{AcceptedFreeAlone};

/// In whatever state code of a program stands that is read and breaks no rule: where it frees a block, no place waits for a value of
/// that. So the cells that a machine tells ahead of a step are exact for each such program.
pub fn accepted_free_alone()
    ensures law { AcceptedFreeAlone }
{}
