//! That the ways of a node are those of its lines.
ghost use Rattle.cpc_convert_rows.specs.Laws.{FallsAreOfLines, WaysAreOfLines};

/// Control falls behind the lines of a node to where the node says.
pub fn falls_are_of_lines()
    ensures law { FallsAreOfLines }
{}

/// The lines of a node lead to where the node says.
pub fn ways_are_of_lines()
    ensures law { WaysAreOfLines }
{}
