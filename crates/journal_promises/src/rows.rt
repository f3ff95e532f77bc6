//! Worked rows of what the contracts speak of. They stand in contracts of functions without a body, so that a weakened
//! definition is refused where the crate is checked without its tests.
ghost use Rattle.std.specs.Prelude.{◌^◌, ◌∷◌, []};
ghost use Rattle.slot_plan.specs.Conditions.{IsPlan};
ghost use Rattle.slot_plan.specs.Samples.{small};
ghost use Rattle.node_kit.specs.declared.course.Kept.{Kept};
ghost use Rattle.run_model.specs.Samples.{kept, later, later_at, of_none};
ghost use Rattle.journal_promises.specs.Numbers.{AreEntriesFit, HasNumbers};
ghost use Rattle.journal_promises.specs.Runs.{HasReadings};

/// The clock of cub 2 shows 20000 in beat 2. A micro more lies within the skew, and is not what the course gives.
pub fn readings()
    ensures its_own { (k : Kept) (p : IsPlan small) →
        HasReadings (kept k p 10 of_none [] (later 2 ∷ [])) }
    ensures a_micro_more { (k : Kept) (p : IsPlan small) →
        HasReadings (kept k p 10 of_none [] (later_at 2 20001 ∷ [])) → ⊥ }
{}

/// No entry has a beat that 64 bits cannot tell.
pub fn numbers()
    ensures fit { AreEntriesFit ((later 2).entry ∷ []) }
    ensures too_large { AreEntriesFit ((later_at (2 ^ 64) 0).entry ∷ []) → ⊥ }
    ensures of_a_run { (k : Kept) (p : IsPlan small) →
        HasNumbers (kept k p 10 of_none [] (later_at (2 ^ 64) 0 ∷ [])) → ⊥ }
{}
