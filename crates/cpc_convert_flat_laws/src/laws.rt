//! The laws, each as the contract of a function that does nothing.
ghost use Rattle.cpc_convert_flat_laws.specs.BlockLaws.{BoxesAreMade, BoxesAreFreed};
ghost use Rattle.cpc_convert_flat_laws.specs.BlockLaws.{FramesAreBeside};
ghost use Rattle.cpc_convert_flat_laws.specs.LineLaws.{NoneIsAddressed};
ghost use Rattle.cpc_convert_flat_laws.specs.BlockLaws.{OneAmongOthers};
ghost use Rattle.cpc_convert_flat_laws.specs.LineLaws.{LinesActInPlace};
ghost use Rattle.cpc_convert_flat_laws.specs.Laws.{ValuesFit, StructsHaveFields, FlatBodies, WalksArePaths};

/// What a cell of a scalar type was assigned is read back as it is.
pub fn values_fit()
    ensures law { ValuesFit }
{}

/// The fields of a struct of scalar fields are its cells, in order.
pub fn structs_have_fields()
    ensures law { StructsHaveFields }
{}

/// What stands where in a flat body, with which scope, and where control goes.
pub fn flat_bodies()
    ensures law { FlatBodies }
{}

/// Steps that leave no mark and end no run are a path.
pub fn walks_are_paths()
    ensures law { WalksArePaths }
{}

/// The boxes of a call are made in a piece as they are made in the call.
pub fn boxes_are_made()
    ensures law { BoxesAreMade }
{}

/// They are given back in a piece as they are in the call.
pub fn boxes_are_freed()
    ensures law { BoxesAreFreed }
{}

/// What frame blocks there are makes no difference to the slots of a call.
pub fn frames_are_beside()
    ensures law { FramesAreBeside }
{}

/// Where `&` is applied to no local, none has an address.
pub fn none_is_addressed()
    ensures law { NoneIsAddressed }
{}

/// One chain changes, and the others do not.
pub fn one_among_others()
    ensures law { OneAmongOthers }
{}

/// A line of a piece does what its act says.
pub fn lines_act_in_place()
    ensures law { LinesActInPlace }
{}
