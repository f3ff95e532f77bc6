//! Worked rows of the controller's clock in a history, and of beliefs in time.
//!
//! They stand in contracts of functions without a body, and not in tests, since a weakened definition
//! must be refused if a crate is checked without its tests.
ghost use Rattle.std.specs.Prelude.{◌*◌, ◌∷◌, []};
ghost use Rattle.slot_plan.specs.Samples.{small};
ghost use Rattle.tiger_base.specs.declared.message.Note.TheVariants.{Heartbeat};
ghost use Rattle.run_model.specs.Samples.{dies, believes, sends};
ghost use Rattle.run_claims.specs.Accounts.{HasTick};
ghost use Rattle.run_claims.specs.Samples.{ticks};
ghost use Rattle.proof_ring.specs.Accounts.{IsControllersClock};
ghost use Rattle.proof_ring.specs.Beliefs.{BeliefsAreInTime};
ghost use Rattle.proof_ring.specs.Samples.{two_beats};

/// The controller ticks in beats 0 and 1, and its clock gains 100 micros in a beat.
#[tactic(auto)]
pub fn clocks()
    ensures its_own { IsControllersClock small two_beats 2 (λ beat. beat * 10100) }
    ensures a_beat_less { IsControllersClock small two_beats 1 (λ beat. beat * 10100) → ⊥ }
    ensures true_time { IsControllersClock small two_beats 2 (λ beat. beat * 10000) → ⊥ }
{}

/// Cub 0 dies in beat 30. If its last heartbeat left in beat 29, that is heard in beat 31 at the latest, at a reading up
/// to 314000. It is good for a million micros, so cub 1 notices the silence at its tick of beat 132 at the latest. If a
/// heartbeat left in the beat of the death, the silence is noticed a beat later. A heartbeat that it sends when it has come
/// back, at that tick or behind it, does not excuse cub 1.
#[tactic(auto)]
pub fn beliefs_in_time()
    ensures in_time { BeliefsAreInTime small (HasTick (ticks 1 132 1320000 ∷ []))
        (dies 0 30 ∷ believes 1 132 0 ∷ []) }
    ensures too_late { BeliefsAreInTime small (HasTick (ticks 1 132 1320000 ∷ []))
        (dies 0 30 ∷ believes 1 133 0 ∷ []) → ⊥ }
    ensures not_yet { BeliefsAreInTime small (HasTick (ticks 1 131 1310000 ∷ []))
        (sends 0 29 Heartbeat ∷ dies 0 30 ∷ []) }
    ensures does_not_tick { BeliefsAreInTime small (HasTick []) (dies 0 30 ∷ []) }
    ensures of_other { BeliefsAreInTime small (HasTick (ticks 1 132 1320000 ∷ []))
        (dies 0 30 ∷ believes 1 132 2 ∷ []) → ⊥ }
    ensures by_other { BeliefsAreInTime small (HasTick (ticks 1 132 1320000 ∷ []))
        (dies 0 30 ∷ believes 2 132 0 ∷ []) → ⊥ }
    ensures beats_at_death { BeliefsAreInTime small (HasTick (ticks 1 132 1320000 ∷ []))
        (sends 0 30 Heartbeat ∷ dies 0 30 ∷ []) }
    ensures beats_before { BeliefsAreInTime small (HasTick (ticks 1 132 1320000 ∷ []))
        (sends 0 29 Heartbeat ∷ dies 0 30 ∷ []) → ⊥ }
    ensures noticed_later { BeliefsAreInTime small (HasTick (ticks 1 133 1330000 ∷ []))
        (sends 0 30 Heartbeat ∷ dies 0 30 ∷ []) → ⊥ }
    ensures beats_again { BeliefsAreInTime small (HasTick (ticks 1 132 1320000 ∷ []))
        (dies 0 30 ∷ sends 0 132 Heartbeat ∷ []) → ⊥ }
{}
