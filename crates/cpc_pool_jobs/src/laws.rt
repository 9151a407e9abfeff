//! What the clauses of the channel come to.
ghost use Rattle.cpc_pool_jobs.specs.Laws.{OnlyOne};

/// Where the numbers of a log rise, as those of all that was taken do, no two workers have one number: each job is taken by one worker at most.
pub fn only_one()
    ensures { OnlyOne }
{}
