//! The laws, as contracts of functions that do nothing.
ghost use Rattle.cpc_run_history_laws.specs.Laws.{PollsAreShown, ShownPollsSuffice};

/// The polls that were taken are those that the trace shows: with those that are left they are the polls of the history.
pub fn polls_are_shown()
    ensures law { PollsAreShown }
{}

/// Over any other polls that begin with those that its trace shows, a run comes in as many steps to the same state, with the others
/// left. So what was recorded of a run does the same once more.
pub fn polls_that_are_shown_suffice()
    ensures law { ShownPollsSuffice }
{}
