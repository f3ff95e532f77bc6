//! Worked rows of what the contracts of this crate speak of. They stand in contracts of functions without a body, so
//! that a weakened definition is refused where the crate is checked without its tests.
ghost use Rattle.std.specs.Prelude.{◌≡◌, [], ◌∷◌, Some, None};
ghost use Rattle.slot_plan.specs.Samples.{small};
ghost use Rattle.plan_faults.specs.Faults.{false_conditions, mend_of};
ghost use Rattle.plan_faults.specs.Fields.{with_number};
ghost use Rattle.plan_faults.specs.Samples.{short_play, round_of};
ghost use Rattle.plan_faults.specs.declared.condition.PlanField.TheVariants as fields;

/// The small plan has no false condition. If its block play time is 700000 microseconds, the second and the seventh are
/// false: the window and what forwards are too long for it.
pub fn false_ones()
    ensures none { false_conditions small ≡ [] }
    ensures two { false_conditions (with_number fields.Play 700000 small)
        ≡ short_play ∷ round_of 10 ∷ [] }
{}

/// Ten cubs mend the seventh. If more cubs than a plan may have would be needed, no number mends it.
pub fn mends()
    ensures ten { mend_of (round_of 10) ≡ Some 10 }
    ensures most { mend_of (round_of 64) ≡ Some 64 }
    ensures none { mend_of (round_of 65) ≡ None }
{}
