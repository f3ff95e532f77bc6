//! Worked logs for the walk: of which the claim holds, and of which it is first false, for each of its sentences. They stand
//! in contracts of functions without a body, and not in tests, since a weakened definition must be refused where the crate
//! is checked without its tests.
ghost use Rattle.std.specs.Prelude.{[], ◌∷◌, Some, None};
ghost use Rattle.slot_plan.specs.Samples.{small};
ghost use Rattle.run_model.specs.Samples.{later, dies, want, asks, sends, block, piece, first_block};
ghost use Rattle.run_claims.specs.Visits.{AreServedOnce};
ghost use Rattle.audit_frame.specs.First.{Decides};

/// The block of visit 0 is sent for instance 0; then a piece of it, for this instance or another one; and that of visit 1, for
/// another one.
pub fn instances()
    ensures of_one { Decides (AreServedOnce small)
        (sends 0 50 first_block ∷ sends 2 100 (piece 0 0 2 100 2 2)
        ∷ sends 1 150 (block 1 1 150 4 4) ∷ []) None }
    ensures of_two { Decides (AreServedOnce small)
        (sends 0 50 first_block ∷ later 60 ∷ sends 2 100 (piece 1 0 2 100 2 2)
        ∷ later 101 ∷ []) (Some 2) }
{}

/// A disk is asked for the whole block of visit 0, which is sent; cub 0 dies, and two disks are asked for pieces of it. Or the
/// whole block, or a piece, is asked for again: for another instance, too.
pub fn reads()
    ensures once { Decides (AreServedOnce small)
        (asks 0 40 (want 0 0 0) ∷ sends 0 50 first_block ∷ dies 0 60
        ∷ asks 1 70 (want 0 0 1) ∷ asks 2 120 (want 0 0 2) ∷ []) None }
    ensures twice { Decides (AreServedOnce small)
        (asks 0 40 (want 0 0 0) ∷ later 41 ∷ asks 0 42 (want 1 0 0) ∷ []) (Some 2) }
    ensures piece_twice { Decides (AreServedOnce small)
        (dies 0 30 ∷ asks 1 40 (want 0 0 1) ∷ asks 1 41 (want 0 0 1) ∷ later 42 ∷ []) (Some 2) }
    ensures not_the_first { Decides (AreServedOnce small)
        (asks 0 40 (want 0 0 0) ∷ later 41 ∷ asks 0 42 (want 1 0 0) ∷ []) (Some 0) → ⊥ }
{}

/// A disk is asked for a piece of the block of visit 0, whose cub lives; or dies later.
pub fn deaths()
    ensures of_another { Decides (AreServedOnce small)
        (dies 1 30 ∷ asks 1 40 (want 0 0 1) ∷ []) (Some 1) }
    ensures dies_later { Decides (AreServedOnce small)
        (asks 1 40 (want 0 0 1) ∷ dies 0 41 ∷ []) (Some 0) }
{}
