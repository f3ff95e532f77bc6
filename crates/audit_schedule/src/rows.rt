//! Worked logs for each walk: where a claim holds of one, and where it is first false of one. They stand in contracts of
//! functions without a body, and not in tests, since a weakened definition must be refused where the crate is checked
//! without its tests.
ghost use Rattle.std.specs.Prelude.{[], ◌∷◌, Some, None};
ghost use Rattle.tiger_base.specs.Records.{own_of};
ghost use Rattle.slot_plan.specs.Samples.{small};
ghost use Rattle.run_model.specs.Orders.{PutsAreFair};
ghost use Rattle.run_model.specs.Samples.{put, later, three, ordered, gone, took, dies, believes, asked, fails, want, gets, sends, block};
ghost use Rattle.run_claims.specs.Returns.{NobodyComesBack};
ghost use Rattle.run_claims.specs.Samples.{faulty};
ghost use Rattle.run_claims.specs.Truths.{BeliefsAreTrue, FailuresAreTrue};
ghost use Rattle.run_claims.specs.Turns.{AreInTurn};
ghost use Rattle.audit_frame.specs.First.{Decides};

/// Instance 0 was ordered. Cub 0 puts it into slot 1 in beat 1, and perhaps once more; or in beat 30, when the first visit
/// is not in the window any more.
pub fn fair_puts()
    ensures fair { Decides (PutsAreFair small ordered) (put 0 1 three ∷ later 2 ∷ []) None }
    ensures late { Decides (PutsAreFair small ordered) (later 1 ∷ put 0 30 three ∷ later 31 ∷ []) (Some 1) }
    ensures twice { Decides (PutsAreFair small ordered)
        (put 0 1 three ∷ put 0 1 three ∷ []) (Some 1) }
    ensures not_the_first { Decides (PutsAreFair small ordered)
        (put 0 1 three ∷ put 0 1 three ∷ []) (Some 0) → ⊥ }
{}

/// Instance 0 is stopped in beat 10. A record of it may be taken up to beat 110, and no later for a second stop.
pub fn returns()
    ensures in_time { Decides (NobodyComesBack small)
        (gone 10 0 ∷ took 0 110 (own_of three 0) ∷ []) None }
    ensures late { Decides (NobodyComesBack small)
        (gone 10 0 ∷ took 0 111 (own_of three 0) ∷ later 112 ∷ []) (Some 1) }
    ensures after_the_first_stop { Decides (NobodyComesBack small)
        (gone 10 0 ∷ gone 20 0 ∷ took 0 111 (own_of three 0) ∷ []) (Some 2) }
{}

/// Cub 1 believes cub 0 dead, after its death or before it.
pub fn beliefs()
    ensures of_the_dead { Decides BeliefsAreTrue (dies 0 30 ∷ believes 1 150 0 ∷ []) None }
    ensures too_soon { Decides BeliefsAreTrue (believes 1 29 0 ∷ dies 0 30 ∷ []) (Some 0) }
    ensures of_another { Decides BeliefsAreTrue (dies 2 30 ∷ believes 1 150 0 ∷ []) (Some 1) }
{}

/// Disk 0, which has the block of visit 0, has a read fault in beats 40 to 42; it gets the ask then, or a beat later.
pub fn failures()
    ensures in_a_fault { Decides (FailuresAreTrue small (faulty 0 ∷ []))
        (asked 0 42 (want 0 0 0) ∷ fails 0 44 (want 0 0 0) ∷ []) None }
    ensures behind_it { Decides (FailuresAreTrue small (faulty 0 ∷ []))
        (asked 0 43 (want 0 0 0) ∷ fails 0 44 (want 0 0 0) ∷ later 45 ∷ []) (Some 1) }
{}

/// The viewers get the block of visit 0 of instance 0; cub 1 sends that of visit 1 a beat later, or in the same beat.
pub fn turns()
    ensures a_beat_later { Decides (AreInTurn small)
        (gets 0 149 (block 0 0 50 0 4) ∷ sends 1 150 (block 0 1 150 4 4) ∷ []) None }
    ensures in_the_beat { Decides (AreInTurn small)
        (gets 0 150 (block 0 0 50 0 4) ∷ sends 1 150 (block 0 1 150 4 4) ∷ []) (Some 1) }
{}
