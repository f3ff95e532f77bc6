//! A plan: numbers that meet every condition, and the times of its visits.
ghost use Rattle.tiger_base.specs.Limits.{most_reading};
ghost use Rattle.slot_plan.specs.Conditions.{IsPlan};

use crate::params::{Params, PlanFault, at_most, below};
use tiger_base::{CubNo, DiskNo, Micros, SlotNo, Visit};

/// Numbers that lie in their ranges and meet the twelve conditions.
#[derive(Clone, Copy, Debug)]
pub struct Plan {
    /// The numbers.
    pub params: Params,
    pub ghost sound: { IsPlan params },
}

impl Plan {
    ghost use Rattle.std.specs.Prelude.{◌≡◌, ◌+◌, ◌^◌, ◌<◌, ◌≤◌, ◌/◌, ◌-◌, IfOk, IfErr, IfSome, OnOk, MatchOption, Some, None, ℕ, Bool};
    ghost use Rattle.std.specs.Option.{ForSome};
    ghost use Rattle.slot_plan.specs.Conditions.{IsInRange, IsPlan, plan_fault};
    ghost use Rattle.slot_plan.specs.declared.params.Params.{Params};
    ghost use Rattle.slot_plan.specs.Times.{first_due, due, cub_of, disk_of, in_window, visit_by, disk_count, takeover, IsLatest, WindowsApart};
    ghost use Rattle.slot_plan.specs.Keys.{Key, IsKey, is_earlier, is_behind};
    ghost use Rattle.slot_plan.specs.Windows.{least_visit, IsOpen, IsLeastOpen};
    ghost use Rattle.slot_plan.specs.Searches.{from_of, IsBetween, IsFirstBetween, IsFirstFrom, EntersFrom, IsNextEntry};

    /// The plan with these numbers. An `Err` names the first condition that is false.
    #[tactic(auto, unfolding(crate::specs::Conditions::plan_fault))]
    pub fn new(p: Params) -> Result<Plan, PlanFault>
        requires { IsInRange p }
        ensures plan { IfOk result (λ plan. plan.params ≡ p) }
        ensures all_hold { OnOk result (plan_fault p ≡ None) }
        ensures fault { IfErr result (λ fault. plan_fault p ≡ Some fault) }
    {
        let longest_way = p.delay * p.beat;
        below(1, p.window_b, p.window_a)?;
        at_most(2, p.window_a + p.skew + p.beat, p.play)?;
        at_most(3, p.beat + 2 * longest_way + p.skew, p.read_lead)?;
        at_most(4, p.read_lead + p.skew + longest_way + p.beat, p.window_b)?;
        at_most(5, p.window_a + 2 * p.play + p.skew, p.min_lead)?;
        at_most(6, p.min_lead + p.batch * p.beat, p.max_lead)?;
        at_most(7, p.max_lead + 4 * p.play, p.cubs * p.play)?;
        at_most(8, (p.cubs + 4) * longest_way, p.play)?;
        at_most(9, p.pieces * (p.beat + longest_way + p.skew), p.play)?;
        at_most(10, p.pieces + 2, p.cubs)?;
        at_most(11, p.heart * p.beat + longest_way + p.skew, p.deadman)?;
        at_most(12, 2 * p.play + p.skew, p.hold)?;
        Ok(Plan { params: p })
    }

    /// The numbers.
    pub fn params(&self) -> Params
        ensures { result ≡ self.now.params }
    {
        self.params
    }

    /// When the slot's first visit is due.
    #[tactic(auto, unfolding(crate::specs::Times::first_due))]
    fn first_due(&self, slot: SlotNo) -> Micros
        requires { slot.0 < self.now.params.slots }
        ensures { result ≡ first_due self.now.params slot.0 }
    {
        let p = &self.params;
        u64::from(slot.0) * (p.cubs * p.disks) * p.play / p.slots
    }

    /// When the visit of the slot is due.
    #[tactic(auto, unfolding(crate::specs::Times::due))]
    pub fn due(&self, slot: SlotNo, visit: Visit) -> Micros
        requires slot { slot.0 < self.now.params.slots }
        requires visit { visit ≤ 2 ^ 32 }
        ensures due { result ≡ due self.now.params slot.0 visit }
        ensures fits { result ≤ 2 ^ 63 }
    {
        self.first_due(slot) + visit * self.params.play
    }

    /// The cub that makes the visit.
    #[tactic(auto, unfolding(crate::specs::Times::cub_of))]
    pub fn cub_of(&self, visit: Visit) -> CubNo
        requires { visit ≤ 2 ^ 32 }
        ensures { result.0 ≡ cub_of self.now.params visit }
    {
        CubNo((visit % self.params.cubs) as u32)
    }

    /// The disk that is visited.
    #[tactic(auto, unfolding(crate::specs::Times::disk_of))]
    pub fn disk_of(&self, visit: Visit) -> DiskNo
        requires { visit ≤ 2 ^ 32 }
        ensures { result.0 ≡ disk_of self.now.params visit }
    {
        DiskNo((visit % (self.params.cubs * self.params.disks)) as u32)
    }

    /// How long a death may go unnoticed: what is due this long after it, or later, is taken over
    /// in time.
    #[tactic(auto, unfolding(crate::specs::Times::takeover))]
    pub fn takeover(&self) -> Micros
        ensures value { result ≡ takeover self.now.params }
        ensures small { result < 2 ^ 40 }
    {
        let p = &self.params;
        2 * (p.delay * p.beat) + 3 * p.skew + p.deadman + p.read_lead + 2 * p.beat + 1
    }

    /// Whether the visit is in the window when a clock shows the reading.
    #[tactic(auto, unfolding(crate::specs::Times::in_window))]
    pub fn in_window(&self, reading: Micros, slot: SlotNo, visit: Visit) -> bool
        requires reading { reading ≤ most_reading }
        requires slot { slot.0 < self.now.params.slots }
        requires visit { visit ≤ 2 ^ 32 }
        ensures { result ≡ in_window self.now.params reading slot.0 visit }
    {
        let due = self.due(slot, visit);
        due <= reading + self.params.window_a && due > reading + self.params.window_b
    }

    /// The last visit of the slot that is due at the reading or before it, and `None` before the
    /// slot's first.
    pub fn visit_at_or_before(&self, slot: SlotNo, reading: Micros) -> Option<Visit>
        requires slot { slot.0 < self.now.params.slots }
        requires reading { reading ≤ most_reading }
        ensures visit { result ≡ visit_by self.now.params slot.0 reading }
        ensures latest { MatchOption result (reading < due self.now.params slot.0 0)
            (λ n. IsLatest self.now.params slot.0 reading n) }
        ensures small { IfSome result (λ n. n ≤ 2 ^ 32) }
    {
        self.visit_by(slot, reading)
    }

    /// The last visit of the slot that is due at a time, which may be a window's length behind the
    /// last reading, or before it.
    #[tactic(auto, unfolding(crate::specs::Times::visit_by))]
    fn visit_by(&self, slot: SlotNo, time: Micros) -> Option<Visit>
        requires slot { slot.0 < self.now.params.slots }
        requires time { time ≤ 2000000000000 }
        ensures visit { result ≡ visit_by self.now.params slot.0 time }
        ensures small { IfSome result (λ n. n ≤ 2 ^ 32) }
    {
        let first = self.due(slot, 0);
        if time < first {
            None
        } else {
            Some((time - first) / self.params.play)
        }
    }

    /// Whether the first visit comes before the second: by due time, then slot, then visit.
    #[tactic(auto, unfolding(crate::specs::Keys::is_earlier))]
    pub fn is_earlier(&self, a: (SlotNo, Visit), b: (SlotNo, Visit)) -> bool
        requires first { IsKey self.now.params a }
        requires second { IsKey self.now.params b }
        ensures { result ≡ is_earlier self.now.params a b }
    {
        let due_a = self.due(a.0, a.1);
        let due_b = self.due(b.0, b.1);
        due_a < due_b || (due_a == due_b && (a.0.0 < b.0.0 || (a.0.0 == b.0.0 && a.1 < b.1)))
    }

    /// The next visit of the disk, by due time and then slot, that is in the window when a clock
    /// shows the reading, and comes behind the given one, if one is given. `None` says that there
    /// is none.
    pub fn next_window_visit(
        &self,
        reading: Micros,
        disk: DiskNo,
        after: Option<(SlotNo, Visit)>,
    ) -> Option<(SlotNo, Visit)>
        requires reading { reading ≤ most_reading }
        requires after { ForSome after (IsKey self.now.params) }
        ensures visit { let p = self.now.params in
            result ≡ least_visit p reading disk.0 (is_behind p after) }
        ensures next { let p = self.now.params in
            MatchOption result
            ((k : Key) → ¬ IsOpen p reading disk.0 (is_behind p after) k)
            (λ k. IsLeastOpen p reading disk.0 (is_behind p after) k) }
        ensures key { IfSome result (IsKey self.now.params) }
    {
        let from = self.search_start(reading, after);
        let last = reading + self.params.window_a;
        let first = self.first_between(disk, from, last)?;
        if self.is_behind(after, first) {
            Some(first)
        } else {
            self.first_between(disk, self.due(first.0, first.1) + 1, last)
        }
    }

    /// The first reading after the given one at which a visit of the disk comes into the window.
    pub fn next_entry(&self, reading: Micros, disk: DiskNo) -> Micros
        requires reading { reading ≤ most_reading }
        requires disk { disk.0 < disk_count self.now.params }
        ensures next { IsNextEntry self.now.params disk.0 reading result }
        ensures none_before { EntersFrom self.now.params disk.0 reading result }
    {
        let (slot, visit) = self.first_from(disk, reading + self.params.window_a + 1);
        self.due(slot, visit).saturating_sub(self.params.window_a)
    }

    /// The earliest time at which an open visit that comes behind the given one can be due.
    fn search_start(&self, reading: Micros, after: Option<(SlotNo, Visit)>) -> Micros
        requires reading { reading ≤ most_reading }
        requires after { ForSome after (IsKey self.now.params) }
        ensures { result ≡ from_of self.now.params reading after }
    {
        let open = reading + self.params.window_b + 1;
        match after {
            None => open,
            Some(given) => open.max(self.due(given.0, given.1)),
        }
    }

    /// The first visit of the disk that is due between two times, both included.
    fn first_between(&self, disk: DiskNo, from: Micros, last: Micros) -> Option<(SlotNo, Visit)>
        requires { last ≤ 2000000000000 }
        ensures between { let p = self.now.params in
            MatchOption result
            ((k : Key) → ¬ IsBetween p disk.0 from last k)
            (λ k. IsFirstBetween p disk.0 from last k) }
        ensures key { IfSome result (IsKey self.now.params) }
    {
        if u64::from(disk.0) >= self.params.cubs * self.params.disks || from > last {
            return None;
        }
        let first = self.first_from(disk, from);
        if self.due(first.0, first.1) <= last {
            Some(first)
        } else {
            None
        }
    }

    /// The first visit of the disk that is due at a time or after it.
    fn first_from(&self, disk: DiskNo, time: Micros) -> (SlotNo, Visit)
        requires disk { disk.0 < disk_count self.now.params }
        requires time { time ≤ 2000000000000 }
        ensures first { IsFirstFrom self.now.params disk.0 time result }
        ensures key { IsKey self.now.params result }
    {
        let p = &self.params;
        let disk = u64::from(disk.0);
        let disks = p.cubs * p.disks;
        let turn = disks * p.play;
        let since = time.saturating_sub(disk * p.play);
        let turns = since / turn;
        let slot = (since % turn * p.slots).div_ceil(turn);
        if slot < p.slots {
            (SlotNo(slot as u32), disk + turns * disks)
        } else {
            (SlotNo(0), disk + (turns + 1) * disks)
        }
    }

    /// Whether a visit comes behind the given one, if one is given.
    #[tactic(auto, unfolding(crate::specs::Keys::is_behind))]
    fn is_behind(&self, after: Option<(SlotNo, Visit)>, key: (SlotNo, Visit)) -> bool
        requires key { IsKey self.now.params key }
        requires after { ForSome after (IsKey self.now.params) }
        ensures { result ≡ is_behind self.now.params after key }
    {
        match after {
            None => true,
            Some(given) => self.is_earlier(given, key),
        }
    }

    /// Numbers in their ranges are a plan if no condition is false.
    pub fn sound_without_fault()
        ensures { (p : Params) → IsInRange p → plan_fault p ≡ None → IsPlan p }
    {}

    /// Whatever the test, what the function of the next visit finds is the visit before all others,
    /// and only that.
    pub fn least_visit_laws(&self)
        ensures found { let p = self.now.params in (reading disk : ℕ) (test : Key → Bool) →
            MatchOption (least_visit p reading disk test)
            ((k : Key) → ¬ IsOpen p reading disk test k)
            (λ k. IsLeastOpen p reading disk test k) }
        ensures only { let p = self.now.params in (reading disk : ℕ) (test : Key → Bool) (k : Key) →
            IsLeastOpen p reading disk test k → least_visit p reading disk test ≡ Some k }
    {}

    /// The windows of a slot's visits never overlap: between them lies a beat or more.
    pub fn windows_apart(&self)
        ensures { WindowsApart self.now.params }
    {}
}
