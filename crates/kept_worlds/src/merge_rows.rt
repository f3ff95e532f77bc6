//! Worked histories that may happen to a machine of the ring of worked examples, which has eight
//! cubs, and others that may not. They stand in contracts of functions without a body, and not in
//! tests, since a weakened definition must be refused if a crate is checked without its tests.
ghost use Rattle.slot_plan.specs.Samples.{small};
ghost use Rattle.run_facts.specs.Samples.{ticking};
ghost use Rattle.kept_worlds.specs.Merges.{MayHappen};
ghost use Rattle.kept_worlds.specs.MergeSamples.{dies_and_returns, takes_and_dies, takes_and_ends, two_die};

/// Each event is in a beat below the number.
pub fn beats()
    ensures early { MayHappen small 9 2 (ticking 2 0 0) }
    ensures late { MayHappen small 9 1 (ticking 2 0 0) → ⊥ }
{}

/// Two cubs die that are not side by side in the ring; others may not, and no disk dies.
pub fn deaths()
    ensures apart { MayHappen small 9 1 (two_die 3 5) }
    ensures beside { MayHappen small 9 1 (two_die 3 4) → ⊥ }
    ensures round { MayHappen small 9 1 (two_die 0 7) → ⊥ }
    ensures disk { MayHappen small 9 1 (two_die 3 8) → ⊥ }
{}

/// A cub that dies apart from any event does so in a beat in which nothing has happened to it; if
/// its death comes in an event, something may have.
pub fn idle_deaths()
    ensures later { MayHappen small 9 3 (takes_and_dies 2) }
    ensures same_beat { MayHappen small 9 3 (takes_and_dies 1) → ⊥ }
    ensures in_event { MayHappen small 9 3 takes_and_ends }
{}

/// A cub that died may return, in a beat below the number as any other event.
pub fn returns()
    ensures back { MayHappen small 9 4 dies_and_returns }
    ensures late { MayHappen small 9 3 dies_and_returns → ⊥ }
{}
