//! Worked rows of what the contracts of this crate speak of. They stand in contracts of functions without a body, so
//! that a weakened definition is refused where the crate is checked without its tests.
ghost use Rattle.std.specs.Prelude.{◌≡◌, ◌++◌, ◌∷◌, [], None, Some, codes};
ghost use Rattle.std.specs.Fmt.{decimal};
ghost use Rattle.plan_faults.specs.declared.condition.PlanField.TheVariants as fields;
ghost use Rattle.slot_plan.specs.Samples.{small};
ghost use Rattle.scenario_check.specs.Lines.{mend_text, window_line};
ghost use Rattle.scenario_check.specs.Memory.{memory_bound};
ghost use Rattle.scenario_check.specs.Samples.{two_slots, opens, stay, third_at};
ghost use Rattle.scenario_check.specs.Stays.{viewers_in, crowd_among};

/// Three blocks are over after three hundred beats of the small plan: then a third viewer finds one of two slots free, and
/// in the beat before it finds none. A viewer is gone from the beat of its stop on.
pub fn crowds()
    ensures in_time { crowd_among two_slots (third_at 300) (third_at 300) ≡ None }
    ensures late { crowd_among two_slots (third_at 299) (third_at 299)
        ≡ Some (record { beat = 299; viewers = 3 }) }
    ensures stopped { viewers_in small 9 (stay 0 (Some 9) ∷ []) ≡ 0 }
    ensures not_yet { viewers_in small 8 (stay 0 (Some 9) ∷ []) ≡ 1 }
    ensures not_begun { viewers_in small 8 (stay 9 None ∷ []) ≡ 0 }
{}

/// A window of a beat is warned of if it is a microsecond shorter.
pub fn windows()
    ensures as_long { window_line (opens 210000) ≡ [] }
    ensures shorter { window_line (opens 209999) ≡ codes "warning window " ++ decimal 9999
        ++ codes " beat " ++ decimal 10000 ++ codes "\n" }
{}

/// What mends a condition, and the bound of the memory of the first example.
pub fn numbers()
    ensures mended { mend_text fields.Cubs (Some 10) ≡ codes " needs cubs " ++ decimal 10 }
    ensures more { mend_text fields.Cubs None ≡ codes " needs more" }
    ensures memory { memory_bound small 600 1 ≡ 34779136 }
{}
