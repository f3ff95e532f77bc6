//! Whether each cub's view is part of one schedule, at every moment of a log, and what cubs take and send follows from what they
//! have.
ghost use Rattle.std.specs.Prelude.{[], ◌∷◌, ◌++◌, ◌≡◌, ◌↔◌, ◌-◌, ◌<◌, ◌≤◌, ◌==◌, ◌&&◌, ◌||◌, not, nat_le, length, slice_index_or, ℕ, Some, IsTrue, OnOk, IfOk, ◌⊎◌, option_map, if◌then◌else◌};
ghost use Rattle.std.specs.List.Sorted.{IsNonDecreasingBy};
ghost use Rattle.tiger_base.specs.declared.number.Instance.{Instance};
ghost use Rattle.run_facts.specs.Accounts.{Rising};
ghost use Rattle.run_facts.specs.Order.{beat_of};
ghost use Rattle.run_model.specs.Moments.{Moment, next_moment};
ghost use Rattle.run_model.specs.Parts.{IsPart, ViewsArePart};
ghost use Rattle.audit_frame.specs.First.{Decides};
ghost use Rattle.audit_frame.specs.Lines.{noted_line, told_by};
ghost use Rattle.audit_frame.specs.Tables.{mark_under, seat_by, seat_under, unless_by};
ghost use Rattle.audit_views.specs.Verdicts.{ArePartAndLocal};
ghost use Rattle.audit_views.specs.Views.{TellsViews, IsInstancePart, IsTakenPart, LateArePart, RunsOutUpTo, Touches, is_in_time, is_in_view, is_marked, of_instance};
ghost use Rattle.audit_views.specs.declared.views.Stopped.{Stopped};

use crate::cubs::take_record;
use crate::local::{is_local, keep_brought};
use crate::seated::{are_seated, have_none, is_seated};
use audit_frame::{By, Line, Marks, Records, Seats, held_by, is_within, line_at};
use node_kit::What;
use slot_plan::Plan;
use std::alloc::Global;
use tiger_base::{Beat, Instance, NoMemory, NodeNo, Rec, SlotNo, Tenancy};

/// A stop of an instance, in a beat.
#[derive(Clone, Copy, Debug)]
pub struct Stopped {
    instance: Instance,
    beat: Beat,
}

/// What is kept of the entries so far: the last tenancy that was put into each slot, the latest stop of each instance,
/// all stops, the records in the views of the cubs, and the beat of the last entry.
// A stop takes nobody out of the seats: who was stopped is never seated again, so that a seat counts unless its instance
// was stopped.
#[derive(Drop)]
struct SoFar {
    seats: Seats,
    latest: Marks,
    stops: Vec<Stopped>,
    records: Records,
    beat: Beat,
}

/// The first entry of a log after which some cub's view has a record that is no part of the schedule, or in which a cub takes a
/// record that it may not take, or sends a viewer state of which it has no record; `None` if there is none. No entry of the log
/// stands behind one of a later beat. Each entry costs the logarithm of the number of records and of that of stops; a Put a look
/// at each record of the instance that had its slot; a stop that runs out the logarithm of the number of records; and a death or
/// a return a look at each record.
///
/// `NoMemory` is the only error.
pub fn first_false_view<'a>(
    alloc: Global,
    plan: &Plan,
    log: &[Line<'a>],
) -> Result<Option<usize>, NoMemory>
    requires { Rising beat_of (told_by log.now) }
    ensures { IfOk result (Decides (ArePartAndLocal plan.now.params) (told_by log.now)) }
{
    let mut so_far = SoFar::new(alloc);
    let mut brought = Records::new(alloc);
    for i in 0..log.len() {
        let line = line_at(log, i);
        let local = is_local(plan, &so_far.records, &brought, &line);
        keep_brought(&mut brought, plan, &line)?;
        let part = so_far.step(plan, &line)?;
        let fine = are_both(local, part);
        if !fine {
            return Ok(Some(i));
        }
    }
    Ok(None)
}

impl SoFar {
    /// Nothing is known yet.
    fn new(alloc: Global) -> SoFar
        ensures seats { result.seats ≡ [] }
        ensures latest { result.latest ≡ [] }
        ensures stops { result.stops.items ≡ [] }
        ensures records { result.records ≡ [] }
        ensures beat { result.beat ≡ 0 }
    {
        SoFar {
            seats: Seats::new(alloc),
            latest: Marks::new(alloc),
            stops: Vec::new(alloc),
            records: Records::new(alloc),
            beat: 0,
        }
    }

    /// Takes one more entry, and says whether all views are part of the schedule after it, if they were before it.
    fn step<'a>(&mut self, plan: &Plan, line: &Line<'a>) -> Result<bool, NoMemory>
        ensures tells { OnOk result ((m : Moment)
            → TellsViews plan.now.params self.old.seats self.old.latest self.old.stops.items
            self.old.records self.old.beat m
            → m.beat ≤ line.now.entry.now.stamp.beat
            → TellsViews plan.now.params self.new.seats self.new.latest self.new.stops.items
            self.new.records self.new.beat (next_moment m (noted_line line.now))) }
        ensures part { IfOk result (λ part. (m : Moment)
            → TellsViews plan.now.params self.old.seats self.old.latest self.old.stops.items
            self.old.records self.old.beat m
            → m.beat ≤ line.now.entry.now.stamp.beat → ViewsArePart plan.now.params m
            → IsTrue part ↔ ViewsArePart plan.now.params (next_moment m (noted_line line.now))) }
    {
        let before = self.beat;
        let touched = self.touched_by(line);
        self.take(plan, line)?;
        let taken = self.is_taken_part(plan, line);
        let in_place = self.is_touched_part(plan, touched);
        let in_time = self.are_late_part(plan, before);
        Ok(are_three(taken, in_place, in_time))
    }

    /// The instance that an entry touches, if it touches any.
    fn touched_by<'a>(&self, line: &Line<'a>) -> Option<Instance>
        ensures { (m : Moment) (v : ℕ)
            → ((slot : ℕ) → m.schedule.holder slot
            ≡ unless_by (is_marked self.now.latest) (seat_under slot self.now.seats))
            → Touches m.schedule line.now.entry.now.what v → result ≡ Some (record { 0 = v }) }
    {
        match line.entry.what {
            What::Put(t) => self.seated_in(t.slot),
            _ => None,
        }
    }

    /// The instance that was last put into a slot.
    fn seated_in(&self, slot: SlotNo) -> Option<Instance>
        ensures { result ≡ option_map (λ t. t.instance) (seat_under slot.0 self.now.seats) }
    {
        match self.seats.get(slot) {
            Some(t) => Some(t.instance),
            None => None,
        }
    }

    /// Takes one more entry, of a beat that is not below that of any so far.
    fn take<'a>(&mut self, plan: &Plan, line: &Line<'a>) -> Result<(), NoMemory>
        ensures { OnOk result ((m : Moment)
            → TellsViews plan.now.params self.old.seats self.old.latest self.old.stops.items
            self.old.records self.old.beat m
            → m.beat ≤ line.now.entry.now.stamp.beat
            → TellsViews plan.now.params self.new.seats self.new.latest self.new.stops.items
            self.new.records self.new.beat (next_moment m (noted_line line.now))) }
    {
        self.beat = line.entry.stamp.beat;
        match line.entry.what {
            What::Put(t) => seat(&mut self.seats, &self.latest, &t),
            What::Gone(v) => keep_stop(&mut self.latest, &mut self.stops, v, line.entry.stamp.beat),
            What::Took(r) => take_record(&mut self.records, plan, line.node, &r),
            What::Dropped(r) => {
                self.records.remove(By::Instance, line.node, &r);
                Ok(())
            }
            What::Died | What::Returned => {
                self.records.clear(line.node);
                Ok(())
            }
            _ => Ok(()),
        }
    }

    /// Whether the record that an entry takes is part, if the node's view has it.
    fn is_taken_part<'a>(&self, plan: &Plan, line: &Line<'a>) -> bool
        ensures { (m : Moment)
            → TellsViews plan.now.params self.now.seats self.now.latest self.now.stops.items
            self.now.records self.now.beat m
            → IsTrue result
            ↔ IsTakenPart plan.now.params m line.now.node.0 line.now.entry.now.what }
    {
        match line.entry.what {
            What::Took(r) => self.is_kept_part(plan, line.node, &r),
            _ => true,
        }
    }

    /// Whether a record is part, if a node's view has it.
    fn is_kept_part(&self, plan: &Plan, node: NodeNo, r: &Rec) -> bool
        ensures { (m : Moment)
            → TellsViews plan.now.params self.now.seats self.now.latest self.now.stops.items
            self.now.records self.now.beat m
            → IsTrue result ↔ (IsTrue (is_in_view plan.now.params m node.0 r.now)
            → IsPart plan.now.params m r.now.tenancy r.now.visit) }
    {
        if self.is_record_part(plan, node, r) {
            return true;
        }
        !self.records.has(By::Instance, node, r)
    }

    /// Whether a record is part: one of an instance that was stopped for a block play time after it, and another one if
    /// it is of a visit of the tenancy that has its slot.
    fn is_record_part(&self, plan: &Plan, node: NodeNo, r: &Rec) -> bool
        ensures { (m : Moment)
            → TellsViews plan.now.params self.now.seats self.now.latest self.now.stops.items
            self.now.records self.now.beat m
            → IsTrue result ↔ IsPart plan.now.params m r.now.tenancy r.now.visit }
    {
        match self.latest.get(r.tenancy.instance.0) {
            Some(stop) => is_within(plan, plan.params.play, self.beat, stop),
            None => is_seated(&self.seats, &held_by(By::Instance, node, r)),
        }
    }

    /// Whether the records of an instance are part, if there is one.
    fn is_touched_part(&self, plan: &Plan, touched: Option<Instance>) -> bool
        ensures { (m : Moment)
            → TellsViews plan.now.params self.now.seats self.now.latest self.now.stops.items
            self.now.records self.now.beat m
            → IsTrue result ↔ ((v : Instance) → touched ≡ Some v
            → IsInstancePart plan.now.params m v.0) }
    {
        match touched {
            Some(v) => self.are_part(plan, v),
            None => true,
        }
    }

    /// Whether the records of each instance are part whose stop ran out since a beat.
    fn are_late_part(&self, plan: &Plan, before: Beat) -> bool
        ensures { (m : Moment)
            → TellsViews plan.now.params self.now.seats self.now.latest self.now.stops.items
            self.now.records self.now.beat m
            → IsTrue result ↔ LateArePart plan.now.params m before }
    {
        if is_same_beat(before, self.beat) {
            return true;
        }
        let from = run_out_in(&self.stops, plan, before);
        let to = run_out_in(&self.stops, plan, self.beat);
        self.are_all_part(plan, from, to)
    }

    /// Whether the records are part of each instance whose stop stands from one place on and before another.
    fn are_all_part(&self, plan: &Plan, from: usize, to: usize) -> bool
        requires { to ≤ length self.now.stops.items }
        ensures { (m : Moment)
            → TellsViews plan.now.params self.now.seats self.now.latest self.now.stops.items
            self.now.records self.now.beat m
            → IsTrue result ↔ ((j : ℕ) (d : Stopped) → from ≤ j → j < to
            → IsInstancePart plan.now.params m
            (slice_index_or self.now.stops.items j d).instance.0) }
    {
        for at in from..to {
            let stop = stop_at(&self.stops, at);
            if !self.are_part(plan, stop.instance) {
                return false;
            }
        }
        true
    }

    /// Whether the records of an instance are part: those of one that was stopped may stand for a block play time after
    /// it, and others while their tenancy has its slot.
    fn are_part(&self, plan: &Plan, v: Instance) -> bool
        ensures { (m : Moment)
            → TellsViews plan.now.params self.now.seats self.now.latest self.now.stops.items
            self.now.records self.now.beat m
            → IsTrue result ↔ IsInstancePart plan.now.params m v.0 }
    {
        match self.latest.get(v.0) {
            Some(stop) => self.may_stand(plan, v, stop),
            None => are_seated(&self.records, &self.seats, v),
        }
    }

    /// Whether the records of an instance that was last stopped in a beat may still stand, or there are none.
    fn may_stand(&self, plan: &Plan, v: Instance, stop: Beat) -> bool
        ensures { IsTrue result ↔ (IsTrue (is_in_time plan.now.params self.now.beat stop)
            ⊎ (of_instance v.0 self.now.records ≡ [])) }
    {
        let in_time = is_within(plan, plan.params.play, self.beat, stop);
        let none = have_none(&self.records, v);
        is_either(in_time, none)
    }
}

/// Whether two beats are one: between them no stop runs out.
fn is_same_beat(before: Beat, beat: Beat) -> bool
    ensures { IsTrue result → before ≡ beat }
{
    before == beat
}

fn are_both(local: bool, part: bool) -> bool
    ensures { result ≡ (local && part) }
{
    local && part
}

fn are_three(taken: bool, in_place: bool, in_time: bool) -> bool
    ensures { result ≡ (taken && (in_place && in_time)) }
{
    taken && in_place && in_time
}

fn is_either(left: bool, right: bool) -> bool
    ensures { result ≡ (left || right) }
{
    left || right
}

/// The stop at a place.
fn stop_at(stops: &Vec<Stopped>, at: usize) -> Stopped
    requires { at < length stops.now.items }
    ensures { (d : Stopped) → slice_index_or stops.now.items at d ≡ result }
{
    stops[at]
}

/// How many stops have run out in a beat: they stand before all others, if the stops' beats do not fall.
fn run_out_in(stops: &Vec<Stopped>, plan: &Plan, beat: Beat) -> usize
    ensures bound { result ≤ length stops.now.items }
    ensures split { IsNonDecreasingBy (λ s. s.beat) stops.now.items
        → RunsOutUpTo plan.now.params beat stops.now.items result }
{
    let first = first_in_time(plan, beat);
    stops.partition_point(|stop| stop.beat < first)
}

/// The first beat a stop in which has not run out in another beat.
fn first_in_time(plan: &Plan, beat: Beat) -> Beat
    ensures { (stop : ℕ) → is_in_time plan.now.params beat stop ≡ nat_le result stop }
{
    beats_before(beat, plan.params.play / plan.params.beat)
}

/// The beat that is a number of beats before another, or the first one.
fn beats_before(beat: Beat, count: u64) -> Beat
    ensures { result ≡ beat - count }
{
    beat.saturating_sub(count)
}

/// Gives a tenancy its seat, unless its instance was stopped.
fn seat(seats: &mut Seats, latest: &Marks, t: &Tenancy) -> Result<(), NoMemory>
    ensures { OnOk result ((k : ℕ) → seat_under k seats.new
        ≡ seat_by (is_marked latest.now) seats.old t.now k) }
{
    if latest.get(t.instance.0).is_some() {
        return Ok(());
    }
    seats.seat(*t)
}

/// Keeps a stop in a beat.
fn keep_stop(
    latest: &mut Marks,
    stops: &mut Vec<Stopped>,
    v: Instance,
    beat: Beat,
) -> Result<(), NoMemory>
    ensures latest { OnOk result ((n : ℕ) → mark_under n latest.new
        ≡ (if v.0 == n then Some beat else mark_under n latest.old)) }
    ensures stops { OnOk result (stops.new.items
        ≡ stops.old.items ++ record { instance = v; beat = beat } ∷ []) }
{
    latest.set(v.0, beat)?;
    stops.push(Stopped { instance: v, beat })?;
    Ok(())
}
