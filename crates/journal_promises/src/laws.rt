//! What holds of whatever is kept of the run of a scenario, as laws.
ghost use Rattle.journal_promises.specs.Runs.{KeptRunsAreWritable, KeptRunsHaveReadings, KeptRunsTellReturns, LogsHaveReadings};

/// Whatever is kept of the run of a scenario over its files is writable, if its numbers lie in the ranges of their
/// types.
pub fn kept_runs_are_writable<G>()
    ensures { KeptRunsAreWritable G }
{}

/// The journal of each node tells its return, if it has one: in the beat of it, behind its death, and nowhere else.
pub fn kept_runs_tell_returns<G>()
    ensures { KeptRunsTellReturns G }
{}

/// And each of its entries is at the reading that the course gives its node's clock in its beat.
pub fn kept_runs_have_readings<G>()
    ensures journals { KeptRunsHaveReadings G }
    ensures log { LogsHaveReadings }
{}
