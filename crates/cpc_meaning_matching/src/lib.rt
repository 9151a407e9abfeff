//! Simulations between transition systems, and what they give.
//!
//! A pass promises that what it gives matches what it was given. The laws that turn such promises into one promise about whole
//! runs are the contracts of the functions below, which do nothing when they run.
#![tactic(auto)]

ghost use Rattle.cpc_meaning_matching.specs.Laws.{MatchesItself, MatchingComposes, FollowingComposes, MatchingMakesRunsAlike, MatchingBoundsRuns, MatchingBoundsEnds};
ghost use Rattle.cpc_meaning_matching.specs.Refusals.{BoundsCount, RowsAreNotEmpty, RowsAreNotStuck, RowsShowNothingElse};

/// A system matches itself.
pub fn matches_itself<S, M, O>()
    ensures { MatchesItself S M O }
{}

/// Matching composes, and so do its costs.
pub fn matching_composes<S, T, U, M, O>()
    ensures { MatchingComposes S T U M O }
{}

/// Following composes over all histories.
pub fn following_composes<H, S, T, U, M, O>()
    ensures { FollowingComposes H S T U M O }
{}

/// A system and one that matches it have runs that show the same, in both directions, and the second is never stuck where the first never is.
pub fn matching_makes_runs_alike<S, T, M, O>()
    ensures { MatchingMakesRunsAlike S T M O }
{}

/// Rows of at most `c` steps reach each state of the source within `c` steps for each of its steps.
pub fn matching_bounds_runs<S, T, M, O>()
    ensures { MatchingBoundsRuns S T M O }
{}

/// A source that is over after `m` steps has a target that is over for the first time within `c * m` steps, with the same trace and outcome.
pub fn matching_bounds_ends<S, T, M, O>()
    ensures { MatchingBoundsEnds S T M O }
{}

/// What matching refuses: a row above its cost, an empty row, a row that is stuck, and one that shows something else on its way.
pub fn matching_refuses()
    ensures cost { BoundsCount }
    ensures empty { RowsAreNotEmpty }
    ensures stuck { RowsAreNotStuck }
    ensures shown { RowsShowNothingElse }
{}
