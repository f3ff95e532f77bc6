//! Whether one beat begins soon after another.
ghost use Rattle.std.specs.Prelude.{◌≡◌, ◌+◌, ◌-◌, nat_le};
ghost use Rattle.slot_plan.specs.Times.{time_of};

use slot_plan::Plan;
use tiger_base::{Beat, Micros};

/// Whether a beat begins within a span of micros after another one begins, or before it.
pub fn is_within(plan: &Plan, span: Micros, beat: Beat, other: Beat) -> bool
    ensures { result
        ≡ nat_le (time_of plan.now.params beat) (time_of plan.now.params other + span) }
{
    let late = beats_behind(beat, other);
    late <= span / plan.params.beat
}

/// How many beats one is behind another.
fn beats_behind(beat: Beat, other: Beat) -> u64
    ensures { result ≡ beat - other }
{
    beat.saturating_sub(other)
}
