//! That a ring whose disks may die has a history as the laws need, in which its cubs add mirror states and kills; and the
//! claims of whatever is kept of its run.
#![tactic(auto)]

ghost use Rattle.proof_spare.specs.Claims.{KeptSpareRunsMeetTheClaims};
ghost use Rattle.proof_spare.specs.Laws.{SpareRingsMeetTheLaws};
ghost use Rattle.proof_spare.specs.Rings.{SpareRingsAreHistories};
ghost use Rattle.proof_spare.specs.Runs.{SpareRunsAreRings};

/// Whatever befalls the nodes of such a ring from their opening on, each of them puts out what its rules say, and a cub what
/// it adds besides.
pub fn spare_rings_are_histories<G>()
    ensures { SpareRingsAreHistories G }
{}

/// Whatever is kept of the run of a scenario in which disks may die is of such a ring, to the end of its beats.
pub fn spare_runs_are_rings<G>()
    ensures { SpareRunsAreRings G }
{}

/// If its cubs know the deaths of their disks, what they add meets its laws.
pub fn spare_rings_meet_the_laws<G>()
    ensures { SpareRingsMeetTheLaws G }
{}

/// Whatever is kept of the run of a scenario in which disks may die meets all claims.
pub fn kept_spare_runs_meet_the_claims<G>()
    ensures { KeptSpareRunsMeetTheClaims G }
{}
