//! A view that knows up to which time its states are forwarded, before which its blocks are asked
//! for, from which on its visits are split, and which disks are full, so that a tick begins where
//! something may be to do.
ghost use Rattle.std.specs.Prelude.{◌≡◌, ℕ, ◌+◌, ◌^◌, ◌≤◌, ◌<◌, true, [], None, IfOk, OnOk, OnErr, IfSome, option_map, is_some, count_by, find};
ghost use Rattle.tiger_base.specs.Limits.{most_reading};
ghost use Rattle.slot_plan.specs.Keys.{IsKey};
ghost use Rattle.slot_plan.specs.Times.{disk_count};
ghost use Rattle.std.specs.Option.{ForSome};
ghost use Rattle.partial_view.specs.Free.{IsFullAt, IsTakenTo, HasEntered};
ghost use Rattle.partial_view.specs.Lines.{key_of, visit_of, unmarked, is_of};
ghost use Rattle.partial_view.specs.Views.{Seen, IsWalk, line_at, first_of, with_mark, without, without_instance, with_record};
ghost use Rattle.partial_view.specs.Work.{is_left, is_whole, is_backup, first_between, with_mark_of, without_of};
ghost use Rattle.partial_view.specs.declared.line.Flag.TheVariants.{Forwarded, Asked, Split};
ghost use Rattle.partial_view.specs.Adding.{answer_to};
ghost use Rattle.partial_view.specs.Pending.{IsForwardedTo, is_pending, IsAskedBefore, is_unasked};
ghost use Rattle.partial_view.specs.Pending.{IsSplitFrom, IsSplitBetween};
ghost use Rattle.partial_view.specs.Pending.{is_unsplit, is_unsplit_from};

use crate::full_disks::{FullDisk, FullDisks};
use crate::line::Work;
use crate::turn::Place;
use crate::{Added, Flag, Line, View};
use slot_plan::Plan;
use std::alloc::Global;
use std::marker::Model;
use tiger_base::{DiskNo, Instance, Micros, NoMemory, Rec, SlotNo, Visit};

/// A view that keeps, beside its lines, what is known to be done: up to which time its states are
/// forwarded, before which time its blocks are asked for, and at which times its visits are split;
/// and at which readings its disks are full, so that no start can be put on them. It is seen as the
/// view is.
#[derive(Drop)]
pub struct CubView {
    view: View,
    plan: Plan,
    forwarded_to: Micros,
    // No state that is still to be forwarded is of a visit that is due at the first of these times
    // or later, and at the second or before it.
    forwarded_between: (Micros, Micros),
    // Where the last line stood whose state was forwarded: the next one is looked for near it.
    near_pending: Place,
    asked_before: Micros,
    // The same of the last line whose block was asked for.
    near_unasked: Place,
    split_from: Micros,
    // No visit that is still to be split is due at the first of these times or later, and before
    // the second.
    split_between: (Micros, Micros),
    // The same of the last line whose visit was split.
    near_unsplit: Place,
    full: FullDisks,
}

impl Model for CubView {
    ghost use Rattle.std.specs.Prelude.{◌≡◌};
    ghost use Rattle.partial_view.specs.Views.{Seen};
    ghost use Rattle.partial_view.specs.Free.{AreFull};
    ghost use Rattle.partial_view.specs.Pending.{IsForwardedTo, IsForwardedBetween};
    ghost use Rattle.partial_view.specs.Pending.{IsAskedBefore};
    ghost use Rattle.partial_view.specs.Pending.{IsSplitFrom, IsSplitBetween};
    ghost use Rattle.partial_view.specs.Wheel.{IsTurn};

    ghost Value = { Seen };

    ghost view = { λ v. v.view };

    ghost invariant = { λ v. (v.view.params ≡ v.plan.params)
        × IsForwardedTo v.plan.params v.forwarded_to v.view.lines
        × IsSplitFrom v.plan.params v.split_from v.view.lines
        × IsAskedBefore v.plan.params v.asked_before v.view.lines
        × IsSplitBetween v.plan.params v.split_between.0 v.split_between.1 v.view.lines
        × AreFull v.plan.params v.full v.view.lines
        × IsForwardedBetween v.plan.params v.forwarded_between.0 v.forwarded_between.1 v.view.lines
        × IsTurn v.plan.params v.near_pending.turn
        × IsTurn v.plan.params v.near_unasked.turn
        × IsTurn v.plan.params v.near_unsplit.turn };
}

impl CubView {
    /// The view of a plan that has no record yet. It takes no memory.
    pub fn new(alloc: Global, plan: &Plan) -> CubView
        ensures { result ≡ record { params = plan.now.params; lines = [] } }
    {
        let start = Place::start(plan, 0);
        CubView {
            view: View::new(alloc, plan),
            plan: *plan,
            forwarded_to: 0,
            forwarded_between: (1, 0),
            near_pending: start,
            asked_before: 0,
            near_unasked: start,
            split_from: 0,
            split_between: (0, 0),
            near_unsplit: start,
            full: FullDisks::new(alloc),
        }
    }

    /// The view, to be read.
    pub fn view(&self) -> &View
        ensures { result.now ≡ self.now }
    {
        &self.view
    }

    /// Adds a record, with no flag set, if its slot and visit have none; else, and without memory
    /// for it, nothing changes.
    pub fn add(&mut self, rec: Rec) -> Result<Added, NoMemory>
        requires key { IsKey self.old.params (visit_of rec) }
        requires visit { rec.visit < 2 ^ 32 }
        ensures answer { IfOk result (λ added. added ≡ answer_to rec self.old.lines) }
        ensures ok { OnOk result (self.new ≡ record self.old {
          lines = with_record self.old.params rec self.old.lines;
        }) }
        ensures err { OnErr result (self.new ≡ self.old) }
    {
        let due = self.plan.due(rec.tenancy.slot, rec.visit);
        let added = self.view.add_due(rec, due)?;
        if let Added::New = added {
            if rec.kind.is_own() {
                let next = due + self.plan.params.play;
                self.forwarded_between = free_between(
                    self.forwarded_between,
                    self.forwarded_to,
                    rec,
                    next,
                );
                self.forwarded_to = forwarded_before(self.forwarded_to, rec, next);
                self.asked_before = self.asked_before.min(due);
            } else {
                self.split_from = split_after(self.split_from, due);
                self.split_between.1 = split_until(self.split_between, due);
            }
        }
        Ok(added)
    }

    /// Sets a flag at a slot and visit; `false` exactly if there is no line.
    pub fn mark(&mut self, slot: SlotNo, visit: Visit, flag: Flag) -> bool
        requires { IsKey self.old.params (slot, visit) }
        ensures found { result ≡ is_some (line_at (slot, visit) self.old.lines) }
        ensures marked { self.new ≡ record self.old {
          lines = with_mark (slot, visit) flag self.old.lines;
        } }
    {
        self.view.mark(slot, visit, flag)
    }

    /// Removes the record of a slot and visit, and gives it; `None` exactly if there was none.
    pub fn remove(&mut self, slot: SlotNo, visit: Visit) -> Option<Rec>
        requires { IsKey self.old.params (slot, visit) }
        ensures record { result ≡ option_map (λ x. x.rec) (line_at (slot, visit) self.old.lines) }
        ensures left { self.new ≡ record self.old { lines = without (slot, visit) self.old.lines } }
    {
        // No disk is full any more while the visit, which is free now, is in the window.
        let due = self.plan.due(slot, visit);
        self.full.from = gone_from(&self.plan, self.full.from, due);
        self.view.remove_due(slot, visit, due)
    }

    /// Keeps in mind that an instance has no record: until it has one, none is looked for.
    pub fn note_none(&mut self, instance: Instance)
        requires { first_of instance self.old.lines ≡ None }
        ensures { self.new ≡ self.old }
    {
        self.view.note_none(instance);
    }

    /// Removes all records of an instance, and says how many there were.
    pub fn remove_instance(&mut self, instance: Instance) -> u64
        ensures count { result ≡ count_by (is_of instance) self.old.lines }
        ensures left { self.new ≡ record self.old {
          lines = without_instance instance self.old.lines;
        } }
    {
        self.full.clear();
        self.view.remove_instance(instance)
    }

    /// Whether it is known that no state of a visit that is due at the limit or before it is
    /// still to be forwarded. It is known for each limit up to the last one that was set, and
    /// mostly up to before the visit of the next such state, but at most for a block play time;
    /// but if a record is added whose next visit is due by then, only up to that visit until a
    /// limit behind it is set; `false` says only that the lines have to be looked at.
    pub fn is_forwarded_to(&self, limit: Micros) -> bool
        ensures { result ≡ true → IsForwardedTo self.now.params limit self.now.lines }
    {
        limit <= self.forwarded_to
    }

    /// Keeps in mind that the states are forwarded up to a limit, or up to a later one that was set
    /// before.
    pub fn set_forwarded_to(&mut self, limit: Micros)
        requires { IsForwardedTo self.old.params limit self.old.lines }
        ensures { self.new ≡ self.old }
    {
        if self.is_forwarded_to(limit) {
            return;
        }
        self.forwarded_to = forwarded_past(self.forwarded_between, limit);
        self.forwarded_on();
    }

    /// Keeps in mind that the states are forwarded up to before that of the next line which is
    /// still to be forwarded, as far as lines are looked through for it.
    fn forwarded_on(&mut self)
        ensures { self.new ≡ self.old }
    {
        let play = self.plan.params.play;
        let from = self.forwarded_to.saturating_add(1).saturating_sub(play);
        let next = self.view.left_from(Work::Forward, self.near_pending, from);
        self.forwarded_to = self.forwarded_to.max(next.saturating_add(play - 1));
    }

    /// Marks the first line as forwarded whose state is still to be forwarded and which is due at a
    /// time or before it, and gives it as it was; `None` exactly if there is none.
    pub fn forward_next(&mut self, time: Micros) -> Option<Line>
        requires { time < 2 ^ 63 }
        ensures first { result ≡ first_between self.old.params is_pending 0 time self.old.lines }
        ensures marked { self.new ≡ record self.old {
          lines = with_mark_of Forwarded result self.old.lines;
        } }
        ensures walk { IsWalk self.old.params self.old.lines }
    {
        // The state is of the next visit, which is due a block play time after the line's own.
        let play = self.plan.params.play;
        if time + play <= self.forwarded_to {
            self.view.are_in_order();
            return None;
        }
        let from = self.forwarded_to.saturating_add(1).saturating_sub(play);
        let end = pending_end(self.forwarded_between, time + play);
        let found = self.view.mark_first(
            Work::Forward,
            self.near_pending,
            from,
            end.saturating_sub(play),
            Flag::Forwarded,
        )?;
        self.near_pending = found.place;
        self.forwarded_to = self.forwarded_to.max(found.due + play - 1);
        self.forwarded_on();
        Some(found.line)
    }

    /// Whether it is known that no visit whose block is still to be asked for is due before the
    /// limit. It is known for each limit up to the one that was set last, and mostly up to when
    /// the next such visit was due, but at most to the end of the limit's block play time, unless
    /// an own record was added since that is due before; `false` says only that the lines have to
    /// be looked at.
    pub fn is_asked_before(&self, limit: Micros) -> bool
        ensures { result ≡ true → IsAskedBefore self.now.params limit self.now.lines }
    {
        limit <= self.asked_before
    }

    /// Marks the first line as asked for whose block is still to be asked for and which is due at a
    /// time or before it, and gives it as it was; `None` exactly if there is none.
    pub fn ask_next(&mut self, time: Micros) -> Option<Line>
        ensures first { result ≡ first_between self.old.params is_unasked 0 time self.old.lines }
        ensures marked { self.new ≡ record self.old {
          lines = with_mark_of Asked result self.old.lines;
        } }
        ensures walk { IsWalk self.old.params self.old.lines }
    {
        if time < self.asked_before {
            self.view.are_in_order();
            return None;
        }
        let found = self.view.mark_first(
            Work::Ask,
            self.near_unasked,
            self.asked_before,
            time,
            Flag::Asked,
        )?;
        self.near_unasked = found.place;
        self.asked_before = found.due;
        self.asked_on();
        Some(found.line)
    }

    /// Keeps in mind that the blocks of all visits that are due before a limit are asked for, or
    /// before a later one that is known.
    pub fn set_asked_before(&mut self, limit: Micros)
        requires { IsAskedBefore self.old.params limit self.old.lines }
        ensures { self.new ≡ self.old }
    {
        if limit <= self.asked_before {
            return;
        }
        self.asked_before = limit;
        self.asked_on();
    }

    /// Keeps in mind that the blocks of all visits are asked for that are due before the next one
    /// whose block is still to be asked for, as far as lines are looked through for it.
    fn asked_on(&mut self)
        ensures { self.new ≡ self.old }
    {
        let from = self.asked_before;
        self.asked_before = self.view.left_from(Work::Ask, self.near_unasked, from);
    }

    /// Whether it is known that no visit of a backup record that is due at the limit or later is
    /// still to be split. It is known for each limit from the one that was set last on, if no
    /// backup record was added since that is due at it or later; `false` says only that the lines
    /// have to be looked at.
    pub fn is_split_from(&self, limit: Micros) -> bool
        ensures { result ≡ true → IsSplitFrom self.now.params limit self.now.lines }
    {
        self.split_from <= limit
    }

    /// Keeps in mind that the visits are split from a limit on, or from an earlier one on that is
    /// known.
    pub fn set_split_from(&mut self, limit: Micros)
        requires { IsSplitFrom self.old.params limit self.old.lines }
        ensures { self.new ≡ self.old }
    {
        if limit < self.split_from {
            self.split_from = limit;
            self.split_between = (limit, u64::MAX);
        }
    }

    /// Marks the first line as split whose visit is still to be split and which is due at a limit or
    /// later, and gives it as it was; `None` exactly if there is none.
    pub fn split_next(&mut self, limit: Micros) -> Option<Line>
        ensures first { result ≡ find (is_unsplit_from self.old.params limit) self.old.lines }
        ensures marked { self.new ≡ record self.old {
          lines = with_mark_of Split result self.old.lines;
        } }
        ensures walk { IsWalk self.old.params self.old.lines }
    {
        let found = self.view.mark_first(
            Work::Split,
            self.near_unsplit,
            unsplit_start(self.split_between, limit),
            self.split_from,
            Flag::Split,
        )?;
        self.near_unsplit = found.place;
        self.split_between = (limit, found.due);
        Some(found.line)
    }

    /// Removes the first own record that is due at a time or before it, and gives its line; `None`
    /// exactly if there is none.
    pub fn take_own(&mut self, time: Micros) -> Option<Line>
        ensures first { result ≡ first_between self.old.params is_whole 0 time self.old.lines }
        ensures left { self.new ≡ record self.old { lines = without_of result self.old.lines } }
        ensures walk { IsWalk self.old.params self.old.lines }
    {
        if self.view.is_before_all(time) {
            return None;
        }
        self.take(Work::Serve, time)
    }

    /// Removes the first backup record that is due at a time or before it, and gives its line;
    /// `None` exactly if there is none.
    pub fn take_backup(&mut self, time: Micros) -> Option<Line>
        ensures first { result ≡ first_between self.old.params is_backup 0 time self.old.lines }
        ensures left { self.new ≡ record self.old { lines = without_of result self.old.lines } }
        ensures walk { IsWalk self.old.params self.old.lines }
    {
        if self.view.is_before_all(time) {
            return None;
        }
        self.take(Work::Drop, time)
    }

    /// Removes the first record for which some work is left to do and which is due at a time or
    /// before it, and gives its line; `None` exactly if there is none.
    fn take(&mut self, work: Work, time: Micros) -> Option<Line>
        ensures first { result ≡ first_between self.old.params (is_left work) 0 time self.old.lines }
        ensures left { self.new ≡ record self.old { lines = without_of result self.old.lines } }
        ensures walk { IsWalk self.old.params self.old.lines }
    {
        let found = self.view.take_first(work, time)?;
        // No disk is full any more while the visit, which is free now, is in the window.
        self.full.from = gone_from(&self.plan, self.full.from, found.due);
        Some(found.line)
    }

    /// Whether it is known that no visit of a disk that is in the window at a reading is free. It
    /// is known from the last reading on at which one was found full, and until the next visit of
    /// the disk comes into the window, but not while a visit is in it whose record was removed;
    /// `false` says only that the visits have to be looked at.
    pub fn is_full(&self, disk: DiskNo, reading: Micros) -> bool
        ensures { result ≡ true → IsFullAt self.now.params disk.0 reading self.now.lines }
    {
        self.full.is_full(disk, reading)
    }

    /// A visit behind which each visit of a disk comes that is in the window at a reading and free:
    /// the last one that was in the window when the disk was found full. It is known from the same
    /// reading on as that the disk is full, and stays known when the next visit comes into the
    /// window; `None` says only that the visits have to be looked at from the first one on.
    pub fn taken_to(&self, disk: DiskNo, reading: Micros) -> Option<(SlotNo, Visit)>
        ensures taken { IsTakenTo self.now.params disk.0 reading result self.now.lines }
        ensures entered { ForSome result (HasEntered self.now.params reading) }
    {
        self.full.taken_to(disk, reading)
    }

    /// Keeps in mind that no visit of a disk that is in the window at a reading is free, and which
    /// is the last one of them. Without memory for it, it does not.
    pub fn set_full(&mut self, disk: DiskNo, reading: Micros, last: Option<(SlotNo, Visit)>)
        requires reading { reading ≤ most_reading }
        requires disk { disk.0 < disk_count self.old.params }
        requires full { IsFullAt self.old.params disk.0 reading self.old.lines }
        requires last { ForSome last (HasEntered self.old.params reading) }
        ensures { self.new ≡ self.old }
    {
        let until = self.plan.next_entry(reading, disk);
        self.full.take_in(reading, FullDisk { disk, until, last });
    }
}

/// The given time, or the first reading at which a visit that is due at another time is no more in
/// the window, if that is later.
fn gone_from(plan: &Plan, time: Micros, due: Micros) -> Micros
    ensures later { time ≤ result }
    ensures gone { due ≤ result + plan.now.params.window_b }
{
    let gone = due.saturating_sub(plan.params.window_b);
    if time < gone { gone } else { time }
}

/// Whether the state of a new record's next visit is to be forwarded.
fn is_to_forward(rec: Rec) -> bool
    ensures { result ≡ is_pending (unmarked rec) }
{
    rec.kind.is_own() && rec.visit < rec.tenancy.last
}

/// The given time, or the last one before the record's next visit is due, if the state of that
/// visit is to be forwarded and this is earlier.
fn forwarded_before(time: Micros, rec: Rec, next: Micros) -> Micros
    requires { 1 ≤ next }
    ensures earlier { result ≤ time }
    ensures before { is_pending (unmarked rec) ≡ true → result < next }
{
    if !is_to_forward(rec) {
        return time;
    }
    if next <= time { next - 1 } else { time }
}

/// The limit, or the first of two times if nothing is due between the two and the limit is between
/// them.
fn pending_end(times: (Micros, Micros), limit: Micros) -> Micros
    ensures earlier { result ≤ limit }
    ensures others { (due : ℕ) → due ≤ limit → (times.0 ≤ due → times.1 < due) → due ≤ result }
{
    if times.0 <= limit && limit <= times.1 {
        times.0
    } else {
        limit
    }
}

/// The limit, or the second of two times if nothing is due between the two and the limit is between
/// them.
fn unsplit_start(times: (Micros, Micros), limit: Micros) -> Micros
    ensures later { limit ≤ result }
    ensures others { (due : ℕ) → limit ≤ due → (times.0 ≤ due → times.1 ≤ due) → result ≤ due }
{
    if times.0 <= limit && limit < times.1 {
        times.1
    } else {
        limit
    }
}

/// The limit, or the second of two times if all that is due after the limit is due after it too.
fn forwarded_past(times: (Micros, Micros), limit: Micros) -> Micros
    ensures { (due : ℕ) → limit < due → (times.0 ≤ due → times.1 < due) → result < due }
{
    if times.0 <= limit && limit < times.1 {
        times.1
    } else {
        limit
    }
}

/// Two times between which no state is to be forwarded, once a record is new whose next visit is
/// due at a given time: a part of those that were known, or what is known behind the next visit.
fn free_between(
    times: (Micros, Micros),
    forwarded_to: Micros,
    rec: Rec,
    next: Micros,
) -> (Micros, Micros)
    requires { next + 1 < 2 ^ 64 }
    ensures others { (due : ℕ) → forwarded_to < due → (times.0 ≤ due → times.1 < due)
        → result.0 ≤ due → result.1 < due }
    ensures new { is_pending (unmarked rec) ≡ true → result.0 ≤ next → result.1 < next }
{
    if !is_to_forward(rec) {
        return times;
    }
    longer((next + 1, forwarded_to), cut_at(times, next))
}

/// The times behind a given one, if it is between the two; else the two as they are.
fn cut_at(times: (Micros, Micros), next: Micros) -> (Micros, Micros)
    requires { next + 1 < 2 ^ 64 }
    ensures others { (due : ℕ) → (times.0 ≤ due → times.1 < due)
        → result.0 ≤ due → result.1 < due }
    ensures new { result.0 ≤ next → result.1 < next }
{
    if times.0 <= next && next <= times.1 {
        (next + 1, times.1)
    } else {
        times
    }
}

/// The longer of two spans of time.
fn longer(one: (Micros, Micros), other: (Micros, Micros)) -> (Micros, Micros)
    ensures { (due : ℕ) → (one.0 ≤ due → one.1 < due) → (other.0 ≤ due → other.1 < due)
        → result.0 ≤ due → result.1 < due }
{
    if other.1.saturating_sub(other.0) < one.1.saturating_sub(one.0) {
        one
    } else {
        other
    }
}

/// The given time, or the next one after a visit is due that is to be split, if this is later.
fn split_after(time: Micros, due: Micros) -> Micros
    requires { due ≤ 2 ^ 63 }
    ensures later { time ≤ result }
    ensures after { due < result }
{
    if due < time { time } else { due + 1 }
}

/// The second of two times, or that at which a visit is due that is to be split, if this is between
/// them.
fn split_until(times: (Micros, Micros), due: Micros) -> Micros
    ensures earlier { result ≤ times.1 }
    ensures until { times.0 ≤ due → result ≤ due }
{
    if times.0 <= due && due < times.1 {
        due
    } else {
        times.1
    }
}
