//! Whether no start that waits is passed over at the tick of a cub.
ghost use Rattle.std.specs.Prelude.{◌≡◌, ◌↔◌, ◌<◌, ◌≤◌, ◌+◌, ◌*◌, ◌%◌, ◌-◌, ◌&&◌, false, true, ℕ, List, IsTrue};
ghost use Rattle.std.specs.Option.{ForSome};
ghost use Rattle.tiger_base.specs.Limits.{most_reading};
ghost use Rattle.slot_plan.specs.Keys.{Key, IsKey};
ghost use Rattle.slot_plan.specs.Times.{disk_count};
ghost use Rattle.slot_plan.specs.Windows.{IsOpen};
ghost use Rattle.node_kit.specs.declared.course.Order.{Order};
ghost use Rattle.run_model.specs.Moments.{Moment};
ghost use Rattle.run_model.specs.Orders.{IsNotPassedOver};
ghost use Rattle.audit_waits.specs.Seen.{AreMarks, IsIn, IsMark, IsSoughtBehind};
ghost use Rattle.audit_waits.specs.Ticks.{TellsWaits, AreDisksServed, IsDiskServed, is_missed_by, is_taken_by};

use crate::seen::{Mark, is_known_at, mark_of, set_mark};
use crate::so_far::SoFar;
use slot_plan::Plan;
use tiger_base::{Beat, CubNo, DiskNo, Micros, NodeNo, SlotNo, Visit};

/// The tick of a cub in a beat, and what its clock shows then.
#[derive(Clone, Copy, Debug)]
pub struct Tick {
    pub cub: CubNo,
    pub beat: Beat,
    pub reading: Micros,
}

impl SoFar {
    /// Whether nobody is passed over at a tick, if the entries so far are those up to it. The marks are those of what
    /// ticks before it saw.
    pub fn is_patient(&self, plan: &Plan, tick: Tick, marks: &mut Vec<Mark>) -> bool
        requires cub { tick.cub.0 < plan.now.params.cubs }
        requires reading { tick.reading ≤ most_reading }
        requires marks { AreMarks plan.now.params self.now.holders marks.old.items }
        ensures marks { AreMarks plan.now.params self.now.holders marks.new.items }
        ensures patient { (orders : List Order) (m : Moment) → TellsWaits plan.now.params orders self.now m
            → IsTrue result
            ↔ IsNotPassedOver plan.now.params orders m tick.cub.0 tick.beat tick.reading }
    {
        let before = cub_before(plan, tick.cub);
        let own = self.are_own_served(plan, tick, marks);
        let other = self.are_others_served(plan, tick, before, marks);
        are_both(own, other)
    }

    /// Whether the cub has ever died, or takes each visit in the window of each of its disks for which a plain start waits.
    fn are_own_served(&self, plan: &Plan, tick: Tick, marks: &mut Vec<Mark>) -> bool
        requires cub { tick.cub.0 < plan.now.params.cubs }
        requires reading { tick.reading ≤ most_reading }
        requires marks { AreMarks plan.now.params self.now.holders marks.old.items }
        ensures marks { AreMarks plan.now.params self.now.holders marks.new.items }
        ensures served { (orders : List Order) (m : Moment) → TellsWaits plan.now.params orders self.now m
            → IsTrue result ↔ (m.dead tick.cub.0 ≡ false
            → AreDisksServed plan.now.params self.now.starts.disks m
            tick.cub.0 tick.beat tick.reading false tick.cub.0) }
    {
        let died = self.cubs.has_died(NodeNo(tick.cub.0));
        if died {
            return true;
        }
        self.are_disks_served(plan, tick, false, tick.cub, marks)
    }

    /// Whether the cub does not believe the cub before it dead, or takes each visit in the window of each disk of that cub for
    /// which a redundant start waits.
    fn are_others_served(
        &self,
        plan: &Plan,
        tick: Tick,
        before: CubNo,
        marks: &mut Vec<Mark>,
    ) -> bool
        requires before { before.0 < plan.now.params.cubs }
        requires reading { tick.reading ≤ most_reading }
        requires marks { AreMarks plan.now.params self.now.holders marks.old.items }
        ensures marks { AreMarks plan.now.params self.now.holders marks.new.items }
        ensures served { (orders : List Order) (m : Moment) → TellsWaits plan.now.params orders self.now m
            → IsTrue result ↔ (m.believed tick.cub.0 before.0 ≡ true
            → AreDisksServed plan.now.params self.now.starts.disks m
            tick.cub.0 tick.beat tick.reading true before.0) }
    {
        let believes = self.cubs.believes(NodeNo(tick.cub.0), NodeNo(before.0));
        if !believes {
            return true;
        }
        self.are_disks_served(plan, tick, true, before, marks)
    }

    /// Whether a tick takes each visit in the window of each disk of a cub for which a plain or a redundant start waits.
    fn are_disks_served(
        &self,
        plan: &Plan,
        tick: Tick,
        redundant: bool,
        cub: CubNo,
        marks: &mut Vec<Mark>,
    ) -> bool
        requires cub { cub.0 < plan.now.params.cubs }
        requires reading { tick.reading ≤ most_reading }
        requires marks { AreMarks plan.now.params self.now.holders marks.old.items }
        ensures marks { AreMarks plan.now.params self.now.holders marks.new.items }
        ensures served { (orders : List Order) (m : Moment) → TellsWaits plan.now.params orders self.now m
            → IsTrue result ↔ AreDisksServed plan.now.params self.now.starts.disks m
            tick.cub.0 tick.beat tick.reading redundant cub.0 }
    {
        for k in 0..plan.params.disks {
            let disk = disk_at(plan, cub, k);
            if !self.is_disk_served(plan, tick, redundant, disk, marks) {
                return false;
            }
        }
        true
    }

    /// Whether no plain or redundant start waits for a disk, or each visit of it in the window is taken. Visits that a
    /// tenancy had at a tick before are not looked at again.
    fn is_disk_served(
        &self,
        plan: &Plan,
        tick: Tick,
        redundant: bool,
        disk: DiskNo,
        marks: &mut Vec<Mark>,
    ) -> bool
        requires reading { tick.reading ≤ most_reading }
        requires disk { disk.0 < disk_count plan.now.params }
        requires marks { AreMarks plan.now.params self.now.holders marks.old.items }
        ensures marks { AreMarks plan.now.params self.now.holders marks.new.items }
        ensures served { (orders : List Order) (m : Moment) → TellsWaits plan.now.params orders self.now m
            → IsTrue result ↔ IsDiskServed plan.now.params self.now.starts.disks m
            tick.cub.0 tick.beat tick.reading redundant disk.0 }
    {
        if !self.starts.is_asked(disk) {
            return true;
        }
        let seen = mark_of(marks, disk);
        if is_known_at(seen, tick.reading) {
            return true;
        }
        if !self.starts.has_waiting(redundant, disk) {
            return true;
        }
        let mark = self.holders.mark_at(plan, tick.reading, disk, seen);
        set_mark(marks, disk, mark);
        self.are_visits_taken(plan, tick, disk, mark)
    }

    /// Whether each visit of a disk in the window is taken, of which the disk's mark tells which tenancies have.
    fn are_visits_taken(&self, plan: &Plan, tick: Tick, disk: DiskNo, mark: Mark) -> bool
        requires reading { tick.reading ≤ most_reading }
        requires mark { IsMark plan.now.params self.now.holders disk.0 mark }
        requires by_now { mark.from ≤ tick.reading }
        ensures { IsTrue result ↔ ((k : Key)
            → IsOpen plan.now.params tick.reading disk.0
            (is_missed_by plan.now.params self.now tick.cub.0 tick.beat) k → ⊥) }
    {
        if tick.reading < mark.until {
            return true;
        }
        self.are_taken_behind(plan, tick, disk, mark.last)
    }

    /// Whether each visit of a disk in the window is taken, if those that are not come behind one.
    fn are_taken_behind(
        &self,
        plan: &Plan,
        tick: Tick,
        disk: DiskNo,
        before: Option<(SlotNo, Visit)>,
    ) -> bool
        requires reading { tick.reading ≤ most_reading }
        requires sought { IsSoughtBehind plan.now.params tick.reading disk.0
            (is_missed_by plan.now.params self.now tick.cub.0 tick.beat) before }
        requires entered { ForSome before (IsIn plan.now.params tick.reading) }
        ensures { IsTrue result ↔ ((k : Key)
            → IsOpen plan.now.params tick.reading disk.0
            (is_missed_by plan.now.params self.now tick.cub.0 tick.beat) k → ⊥) }
    {
        let mut last = before;
        while let Some((slot, visit)) = plan.next_window_visit(tick.reading, disk, last) {
            if !self.is_taken(plan, tick, slot, visit) {
                return false;
            }
            last = Some((slot, visit));
        }
        true
    }

    /// Whether a tenancy has a visit of a slot, or the cub a record of it that excuses.
    fn is_taken(&self, plan: &Plan, tick: Tick, slot: SlotNo, visit: Visit) -> bool
        requires { IsKey plan.now.params (slot, visit) }
        ensures { result ≡ is_taken_by plan.now.params self.now tick.cub.0 tick.beat (slot, visit) }
    {
        if self.holders.has_visit(slot, visit) {
            return true;
        }
        let cub = NodeNo(tick.cub.0);
        self.cubs
            .has_excuse(plan, &self.holders, tick.beat, cub, slot, visit)
    }
}

fn are_both(left: bool, right: bool) -> bool
    ensures { result ≡ (left && right) }
{
    left && right
}

/// The cub before a cub.
fn cub_before(plan: &Plan, cub: CubNo) -> CubNo
    requires { cub.0 < plan.now.params.cubs }
    ensures before { result.0 ≡ (cub.0 + plan.now.params.cubs - 1) % plan.now.params.cubs }
    ensures low { result.0 < plan.now.params.cubs }
{
    CubNo(((cub.0 as u64 + plan.params.cubs - 1) % plan.params.cubs) as u32)
}

/// A disk of a cub, by its number among them.
fn disk_at(plan: &Plan, cub: CubNo, k: u64) -> DiskNo
    requires cub { cub.0 < plan.now.params.cubs }
    requires disk { k < plan.now.params.disks }
    ensures { result.0 ≡ cub.0 + k * plan.now.params.cubs }
{
    DiskNo((cub.0 as u64 + k * plan.params.cubs) as u32)
}
