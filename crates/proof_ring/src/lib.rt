//! That a ring of nodes has a history as the laws need, and the claims of every ring and of whatever is kept of a run.
#![tactic(auto)]

ghost use Rattle.proof_ring.specs.Histories.{HistoriesAreRightlyRead, HistoriesHaveOneSchedule, HistoriesMeetTheLaws, HistoriesServeTheirBlocks};
ghost use Rattle.proof_ring.specs.Rings.{RingsAreHistories};
ghost use Rattle.proof_ring.specs.Runs.{KeptRunsAreRings};
ghost use Rattle.proof_ring.specs.Accounts.{RingsMeetTheClaims};
ghost use Rattle.proof_ring.specs.Beliefs.{RingsBelieveInTime};
ghost use Rattle.proof_ring.specs.Kept.{KeptRunsBelieveInTime, KeptRunsMeetTheClaims};
ghost use Rattle.proof_ring.specs.ClaimsOfRings.{RingsAreNeverWronglyServed, RingsAreRightlyServed, RingsHaveOneSchedule};

pub mod rows;

/// Whatever befalls the nodes of a ring from their opening on, each of them puts out what its rules say.
pub fn rings_are_histories<G>()
    ensures { RingsAreHistories G }
{}

/// Whatever is kept of the run of a scenario over its files is of a ring, from its opening to the end of its beats.
pub fn kept_runs_are_rings<G>()
    ensures { KeptRunsAreRings G }
{}

/// Whatever befalls a ring of which no two neighbours die, its facts meet the laws of single nodes and links.
pub fn histories_meet_the_laws<S>()
    ensures { HistoriesMeetTheLaws S }
{}

/// So there is one schedule.
pub fn histories_have_one_schedule<S>()
    ensures { HistoriesHaveOneSchedule S }
{}

/// Each block and each mirror piece is asked for and sent once, and what is read is the visit's, or a read fault is met.
pub fn histories_are_rightly_read<S>()
    ensures { HistoriesAreRightlyRead S }
{}

/// Each settled block of what is put is served, whole or in pieces, or there is an excuse.
pub fn histories_serve_their_blocks<S>()
    ensures { HistoriesServeTheirBlocks S }
{}

/// At each moment of a ring's history, whatever is stopped and whichever cubs die and return, each Put finds its slot free,
/// every view is part of the schedule, beliefs are true and nobody is passed over.
pub fn rings_have_one_schedule<G>()
    ensures { RingsHaveOneSchedule G }
{}

/// In it no stopped viewer comes back, nobody is served twice or out of order, and a read fails only in a read fault.
pub fn rings_are_never_wrongly_served<G>()
    ensures { RingsAreNeverWronglyServed G }
{}

/// Each settled block of each viewer that was put came, or is excused, and nothing else came.
pub fn rings_are_rightly_served<G>()
    ensures { RingsAreRightlyServed G }
{}

/// The account of such a history meets all claims: besides the above, its controller follows the orders in the beats in
/// which it ticked.
pub fn rings_meet_the_claims<G>()
    ensures { RingsMeetTheClaims G }
{}

/// Whoever dies in a ring's history is believed dead in time, by the next cub if that one lives.
pub fn rings_believe_in_time<G>()
    ensures { RingsBelieveInTime G }
{}

/// Whatever is kept of the run of a scenario over its files meets all claims.
pub fn kept_runs_meet_the_claims<G>()
    ensures { KeptRunsMeetTheClaims G }
{}

/// And in it whoever dies is believed dead in time, by the next cub if that one lives.
pub fn kept_runs_believe_in_time<G>()
    ensures { KeptRunsBelieveInTime G }
{}
