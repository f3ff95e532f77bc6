//! Whether the times of visits are the same under two plans.
ghost use Rattle.std.specs.Prelude.{◌≡◌};
ghost use Rattle.mirror_schedule.specs.Timed.{has_same_times};

use slot_plan::Params;

/// Whether two plans are the same in the numbers that the times of visits come of.
pub fn has_same_times(p: &Params, q: &Params) -> bool
    ensures { result ≡ has_same_times p.now q.now }
{
    p.cubs == q.cubs && p.disks == q.disks && p.slots == q.slots && p.play == q.play
}
