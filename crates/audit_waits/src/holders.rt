//! Who holds each slot, and whose stop is recent, as far as the entries tell that a walk along a log has passed.
ghost use Rattle.std.specs.Prelude.{◌≡◌, ◌==◌, ◌&&◌, nat_le, not, ℕ, [], Some, OnOk, IfOk, IsTrue, if◌then◌else◌};
ghost use Rattle.slot_plan.specs.declared.params.Params.{Params};
ghost use Rattle.run_model.specs.Moments.{Moment, next_moment};
ghost use Rattle.audit_frame.specs.Lines.{noted_line};
ghost use Rattle.audit_frame.specs.Tables.{mark_under, seat_under, seat_by};
ghost use Rattle.audit_waits.specs.Holders.{TellsHolders, has_its_visit, has_mark, holder_in, is_latest_recent, later_stop};
ghost use Rattle.audit_waits.specs.Seen.{KeepsVisits};

use audit_frame::{Line, Marks, Seats, is_within};
use node_kit::What;
use slot_plan::Plan;
use std::alloc::Global;
use tiger_base::{Beat, Instance, NoMemory, SlotNo, Tenancy, Visit};

/// The last tenancy that was put into each slot, and the latest stop of each instance.
// A stop takes nobody out of the seats: who was stopped is never seated again, so that a seat counts unless its instance
// was stopped.
#[derive(Drop)]
pub struct Holders {
    seats: Seats,
    stops: Marks,
}

impl Holders {
    /// Nothing is known yet.
    pub fn new(alloc: Global) -> Holders
        ensures seats { result.seats ≡ [] }
        ensures stops { result.stops ≡ [] }
    {
        Holders {
            seats: Seats::new(alloc),
            stops: Marks::new(alloc),
        }
    }

    /// Whether a tenancy that has a slot has a visit.
    pub fn has_visit(&self, slot: SlotNo, visit: Visit) -> bool
        ensures { result ≡ has_its_visit (holder_in self.now slot.0) visit }
    {
        match self.seats.get(slot) {
            Some(t) => are_both(self.has_seat(&t), spans(&t, visit)),
            None => false,
        }
    }

    /// Whether the instance of a tenancy that was seated was not stopped.
    fn has_seat(&self, t: &Tenancy) -> bool
        ensures { result ≡ not (has_mark self.now.stops t.now.instance.0) }
    {
        self.stops.get(t.instance.0).is_none()
    }

    /// Whether an instance was stopped a block play time before a beat at most.
    pub fn was_stopped_lately(&self, plan: &Plan, beat: Beat, v: Instance) -> bool
        ensures { result ≡ is_latest_recent plan.now.params beat (mark_under v.0 self.now.stops) }
    {
        match self.stops.get(v.0) {
            Some(stop) => is_within(plan, plan.params.play, beat, stop),
            None => false,
        }
    }

    /// Takes one more entry, and says whether each tenancy keeps the visits that it has. A Put into a slot that another
    /// tenancy had before counts as if it did not.
    pub fn take<'a>(&mut self, line: &Line<'a>) -> Result<bool, NoMemory>
        ensures tells { OnOk result ((p : Params) (m : Moment) → TellsHolders p self.old m.schedule
            → TellsHolders p self.new (next_moment m (noted_line line.now)).schedule) }
        ensures kept { IfOk result (λ kept. IsTrue kept → KeepsVisits self.old self.new) }
    {
        match line.entry.what {
            What::Put(t) => self.take_put(&t),
            What::Gone(v) => {
                self.keep_stop(v, line.entry.stamp.beat)?;
                Ok(false)
            }
            _ => Ok(true),
        }
    }

    /// Takes a Put, and says whether no tenancy had its slot before.
    fn take_put(&mut self, t: &Tenancy) -> Result<bool, NoMemory>
        ensures stops { self.new.stops ≡ self.old.stops }
        ensures seats { OnOk result ((k : ℕ) → seat_under k self.new.seats
            ≡ seat_by (has_mark self.old.stops) self.old.seats t.now k) }
        ensures kept { IfOk result (λ kept. IsTrue kept → KeepsVisits self.old self.new) }
    {
        let first = self.seats.get(t.slot).is_none();
        self.seat(t)?;
        Ok(first)
    }

    /// Gives a tenancy its seat, unless its instance was stopped.
    fn seat(&mut self, t: &Tenancy) -> Result<(), NoMemory>
        ensures stops { self.new.stops ≡ self.old.stops }
        ensures seats { OnOk result ((k : ℕ) → seat_under k self.new.seats
            ≡ seat_by (has_mark self.old.stops) self.old.seats t.now k) }
    {
        if !self.has_seat(t) {
            return Ok(());
        }
        self.seats.seat(*t)
    }

    /// Keeps the beat of a stop of an instance, unless a later one is kept.
    fn keep_stop(&mut self, v: Instance, beat: Beat) -> Result<(), NoMemory>
        ensures seats { self.new.seats ≡ self.old.seats }
        ensures stops { OnOk result ((n : ℕ) → mark_under n self.new.stops
            ≡ (if v.0 == n then Some (later_stop (mark_under v.0 self.old.stops) beat)
            else mark_under n self.old.stops)) }
    {
        let last = later_stop(self.stops.get(v.0), beat);
        self.stops.set(v.0, last)
    }
}

fn are_both(left: bool, right: bool) -> bool
    ensures { result ≡ (left && right) }
{
    left && right
}

/// Whether a visit is none before the first of a tenancy, and none behind the last.
fn spans(t: &Tenancy, visit: Visit) -> bool
    ensures { result ≡ (nat_le t.now.first visit && nat_le visit t.now.last) }
{
    t.first <= visit && visit <= t.last
}

/// The later of two beats, if there are two.
fn later_stop(kept: Option<Beat>, beat: Beat) -> Beat
    ensures { result ≡ later_stop kept beat }
{
    match kept {
        Some(other) => { if beat < other { other } else { beat } }
        None => beat,
    }
}
