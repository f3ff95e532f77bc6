//! That the cubs' own rules meet the laws of records, starts, heartbeats and deschedules, whatever befalls the cubs in a life.
#![tactic(auto)]

ghost use Rattle.proof_cubs.specs.Claims.{CubsMeetTheLaws};
ghost use Rattle.proof_cubs.specs.Grounds.{BeliefIsWritten, PutsGoWhole, StartsAreLetIn, WatchesShowHeartbeats};

/// Whatever befalls cubs in a life, from beat 0 or from a return on, if their messages are in form and in order, they meet
/// the laws that one cub's rules can give.
pub fn cubs_meet_the_laws()
    ensures { CubsMeetTheLaws }
{}

/// Each start in a cub's lists was let in when its instance was neither held nor shown, and has stood there since.
pub fn starts_are_let_in()
    ensures { StartsAreLetIn }
{}

/// A Put goes out with all that belongs to it, whether or not a death cuts its tick off: with its record, and with its state
/// or what stands at the second visit.
pub fn puts_go_out_whole()
    ensures { PutsGoWhole }
{}

/// A cub that believes its predecessor dead wrote so, and has no redundant start.
pub fn belief_is_written()
    ensures { BeliefIsWritten }
{}

/// What a cub's watch shows is the reading of a heartbeat that it took, or what it showed when the life began.
pub fn watches_show_heartbeats()
    ensures { WatchesShowHeartbeats }
{}
