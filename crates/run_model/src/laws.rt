//! Laws of the definitions.
ghost use Rattle.run_model.specs.Laws.{MomentsAreFronts, PartAtFronts, LocalAtFronts, FairAtFronts, TicksEndFronts};

/// The moment after some entries is the same, told entry by entry or of all entries at once.
#[tactic(auto, using(crate::proofs::Moments::moments_are_fronts))]
pub fn moments_are_fronts()
    ensures { MomentsAreFronts }
{}

/// What holds always along a log holds at each of its fronts, and what holds of each entry holds at the
/// front before it; and the other way round.
#[tactic(auto, using(crate::proofs::Moments::part_at_fronts, crate::proofs::Moments::local_at_fronts, crate::proofs::Moments::fair_at_fronts))]
pub fn clauses_hold_at_fronts()
    ensures part { PartAtFronts }
    ensures local { LocalAtFronts }
    ensures fair { FairAtFronts }
{}

/// The entries up to the end of a tick are a front of a log in order.
#[tactic(auto, using(crate::proofs::Ticks::ticks_end_fronts))]
pub fn ticks_end_fronts()
    ensures { TicksEndFronts }
{}
