//! The laws, each as the contract of a function that does nothing.
ghost use Rattle.cpc_graph_laws.specs.Going.{PositionsAreHeld, PositionsGoOn, CallsArrive, WaitsArrive};
ghost use Rattle.cpc_graph_laws.specs.Spreading.{SpreadBegins, SpreadGoesOn, SpreadEnds};
ghost use Rattle.cpc_graph_laws.specs.Owning.{PiecesHoldTheirs, PiecesHoldOnce, PiecesBegin};
ghost use Rattle.cpc_graph_laws.specs.Worked.{WorkedWays, WorkedOwners};
ghost use Rattle.cpc_graph_laws.specs.Laws.{GraphsFollow, SplitsFollow, WaysAreWays, LeadersAreLeaders, OwnersAreOwners, ArrivalsStay, CpsStatementsWait, WaysStayOrLead, EntriesAreFirst, OwnersLead, PositionsFollow, TablesAreGraphs, LeadersAreCounted, MarksAreOwners, LeadersAreListed, ReachedIsOwned, OwnersGoOn};

/// Threads over the graphs of cps functions make the same steps as threads over the text.
pub fn graphs_follow()
    ensures law { GraphsFollow }
{}

/// With the owners of their nodes they make the same steps again.
pub fn splits_follow()
    ensures law { SplitsFollow }
{}

/// Control goes along the ways of a graph just as it goes through the function.
pub fn ways_are_ways()
    ensures law { WaysAreWays }
{}

/// A node is a leader just where its point is one.
pub fn leaders_are_leaders()
    ensures law { LeadersAreLeaders }
{}

/// A node has an owner just where its point has that owner.
pub fn owners_are_owners()
    ensures law { OwnersAreOwners }
{}

/// The value of a call that is left over a frame arrives in the piece of the call, and no other way leads there.
pub fn arrivals_stay()
    ensures law { ArrivalsStay }
{}

/// From a cps statement control goes nowhere; its value arrives at a leader, to which no way leads.
pub fn cps_statements_wait()
    ensures law { CpsStatementsWait }
{}

/// A way from what is owned stays with the owner or leads to a leader.
pub fn ways_stay_or_lead()
    ensures law { WaysStayOrLead }
{}

/// A function begins at its first node.
pub fn entries_are_first()
    ensures law { EntriesAreFirst }
{}

/// An owner is the start, or a leader, which owns itself.
pub fn owners_lead()
    ensures law { OwnersLead }
{}

/// So threads over split graphs make the same steps as threads over the text.
pub fn positions_follow()
    ensures law { PositionsFollow }
{}

/// A graph may be made by recursion over the statements, with the numbers of where control goes on handed down.
pub fn tables_are_graphs()
    ensures law { TablesAreGraphs }
{}

/// Leaders may be found by counting how many places lead to each node.
pub fn leaders_are_counted()
    ensures law { LeadersAreCounted }
{}

/// Owners may be found by going on from the start and the leaders, until nothing can be marked.
pub fn marks_are_owners()
    ensures law { MarksAreOwners }
{}

/// The list of leaders holds them.
pub fn leaders_are_listed()
    ensures law { LeadersAreListed }
{}

/// What control comes to has an owner.
pub fn reached_is_owned()
    ensures law { ReachedIsOwned }
{}

/// Control goes to a leader, in its own piece, or stays in the piece.
pub fn positions_go_on()
    ensures law { PositionsGoOn }
{}

/// The value of a call that is left over a frame arrives in the piece of the call.
pub fn calls_arrive()
    ensures law { CallsArrive }
{}

/// The value of a cps statement arrives at a leader, in its own piece.
pub fn waits_arrive()
    ensures law { WaitsArrive }
{}

/// A graph by computing: its ways, its leaders and its owners.
pub fn worked_graph()
    ensures ways { WorkedWays }
    ensures owners { WorkedOwners }
{}

/// A leader owns itself, and control goes to a leader or stays with the owner.
pub fn owners_go_on()
    ensures law { OwnersGoOn }
{}

/// Marks begin to be spread with the leaders and the entry.
pub fn spread_begins()
    ensures law { SpreadBegins }
{}

/// A turn keeps what holds of marks, and leaves less to do.
pub fn spread_goes_on()
    ensures law { SpreadGoesOn }
{}

/// Where none waits, each node is marked with its owner.
pub fn spread_ends()
    ensures law { SpreadEnds }
{}

/// Code of split graphs stands at nodes with their owners alone.
pub fn positions_are_held()
    ensures law { PositionsAreHeld }
{}

/// A piece holds what its owner owns, and nothing else.
pub fn pieces_hold_theirs()
    ensures law { PiecesHoldTheirs }
{}

/// Each node of a piece stands in it once.
pub fn pieces_hold_once()
    ensures law { PiecesHoldOnce }
{}

/// A piece begins with its first node.
pub fn pieces_begin()
    ensures law { PiecesBegin }
{}
