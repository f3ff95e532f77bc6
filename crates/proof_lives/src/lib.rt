//! What a cub keeps along its life: lines, starts, belief and holds, with what its journal tells of them.
#![tactic(auto)]

ghost use Rattle.proof_lives.specs.Once.{CubsPutOnce};
ghost use Rattle.proof_lives.specs.Records.{CubsKeepTheirRecords};
ghost use Rattle.proof_lives.specs.InOrder.{StatesFindTheirPlaces};
ghost use Rattle.proof_lives.specs.HoldsHere.{CubsHold};
ghost use Rattle.proof_lives.specs.TwoLifeRun.{RunsOfTwoLives};

/// A cub to which each start comes once puts an instance once.
pub fn cubs_put_once()
    ensures { CubsPutOnce }
{}

/// Whatever befalls a cub, its journal tells the records of its view, each of which came to it as it may, and each viewer state
/// that it sends follows from one of them.
pub fn cubs_keep_their_records()
    ensures { CubsKeepTheirRecords }
{}

/// Whatever befalls cubs, their rules meet the laws of holding deschedules and passing them on.
pub fn cubs_meet_the_laws_of_holding()
    ensures { CubsHold }
{}

/// If the messages of cubs are in form and in order, a state finds each place that it gives taken, or takes it; or its
/// instance is held, and passed on.
pub fn states_find_their_places()
    ensures { StatesFindTheirPlaces }
{}

/// A run gives each node two lives at most: one up to its death, and one from its return on, which begins with the tick of
/// that beat.
pub fn runs_are_of_two_lives<S>()
    ensures { RunsOfTwoLives S }
{}
