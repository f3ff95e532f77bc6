//! Laws of runs.
ghost use Rattle.run_lives.specs.Laws.{AccountsRun, AccountsComplete, AccountsWrite};

/// What a runner hands over, the events of all nodes and each link's account, is a run.
pub fn what_is_accounted_is_a_run<M, S>()
    ensures { AccountsRun M S }
{}

/// Each node of it goes on until its death or the end, and from its return on.
pub fn what_is_accounted_is_complete<M, S>()
    ensures { AccountsComplete M S }
{}

/// And its journals are paced, timed and carried.
pub fn what_is_accounted_is_written_so<M, S>()
    ensures { AccountsWrite M S }
{}
