//! A search along a disk's visits in the window for one that no tenancy has, which goes on where an earlier one ended.
ghost use Rattle.std.specs.Prelude.{◌≡◌, ◌≤◌, ◌<◌};
ghost use Rattle.std.specs.Option.{ForSome};
ghost use Rattle.tiger_base.specs.Limits.{most_reading};
ghost use Rattle.slot_plan.specs.Times.{disk_count};
ghost use Rattle.audit_waits.specs.Seen.{IsIn, IsMark, IsSoughtBehind, is_nobodys, mark_last};

use crate::holders::Holders;
use crate::seen::Mark;
use slot_plan::Plan;
use tiger_base::{DiskNo, Micros, SlotNo, Visit};

impl Holders {
    /// The mark of a disk at a reading, by the one that it has.
    pub fn mark_at(&self, plan: &Plan, reading: Micros, disk: DiskNo, mark: Mark) -> Mark
        requires reading { reading ≤ most_reading }
        requires disk { disk.0 < disk_count plan.now.params }
        requires mark { IsMark plan.now.params self.now disk.0 mark }
        ensures mark { IsMark plan.now.params self.now disk.0 result }
        ensures by_now { result.from ≤ reading }
    {
        if mark.from <= reading && reading < mark.until {
            return mark;
        }
        self.mark_behind(plan, reading, disk, mark_last(mark, reading))
    }

    /// The mark of a disk at a reading, where each visit that no tenancy has comes behind the last one.
    fn mark_behind(
        &self,
        plan: &Plan,
        reading: Micros,
        disk: DiskNo,
        before: Option<(SlotNo, Visit)>,
    ) -> Mark
        requires reading { reading ≤ most_reading }
        requires disk { disk.0 < disk_count plan.now.params }
        requires sought { IsSoughtBehind plan.now.params reading disk.0 (is_nobodys self.now) before }
        requires entered { ForSome before (IsIn plan.now.params reading) }
        ensures mark { IsMark plan.now.params self.now disk.0 result }
        ensures by_now { result.from ≤ reading }
    {
        let mut last = before;
        while let Some((slot, visit)) = plan.next_window_visit(reading, disk, last) {
            if !self.has_visit(slot, visit) {
                return Mark {
                    from: reading,
                    last,
                    until: reading,
                };
            }
            last = Some((slot, visit));
        }
        Mark {
            from: reading,
            last,
            until: plan.next_entry(reading, disk),
        }
    }
}

/// The last visit of a mark, if the mark says anything of a reading.
fn mark_last(mark: Mark, reading: Micros) -> Option<(SlotNo, Visit)>
    ensures { result ≡ mark_last mark reading }
{
    if mark.from <= reading {
        mark.last
    } else {
        None
    }
}
