//! Whether each Put finds its slot free, and is rightly put.
ghost use Rattle.std.specs.Prelude.{[], ◌≡◌, ◌↔◌, ◌<◌, ◌≤◌, ◌^◌, ◌+◌, ◌-◌, ◌==◌, ◌&&◌, ◌||◌, nat_le, not, ℕ, List, IsTrue, OnOk, IfOk};
ghost use Rattle.std.specs.List.{AllByRecursion};
ghost use Rattle.slot_plan.specs.Times.{cub_of, in_window};
ghost use Rattle.node_kit.specs.declared.course.Order.{Order};
ghost use Rattle.node_kit.specs.declared.journal.What.TheVariants as what;
ghost use Rattle.run_model.specs.Schedule.{IsFreeFrom};
ghost use Rattle.run_model.specs.Moments.{Moment, next_moment};
ghost use Rattle.run_model.specs.Orders.{PutsAreFair, MayPut};
ghost use Rattle.audit_frame.specs.First.{Decides};
ghost use Rattle.audit_frame.specs.Lines.{noted_line, told_by};
ghost use Rattle.audit_frame.specs.Tables.{has_number, has_ask, seat_under};
ghost use Rattle.audit_schedule.specs.Fair.{IsEarlyPut, IsEarlyLine, PutIsFairSoFar, IsFairSoFar, AreAsksOf, ask_by};
ghost use Rattle.audit_schedule.specs.Puts.{TellsPuts, seat_after};

use crate::asks::asks_of;
use audit_frame::{Asks, Line, Numbers, Pairs, Seats, line_at};
use node_kit::{Order, What};
use slot_plan::Plan;
use std::alloc::Global;
use tiger_base::{Ask, CubNo, Micros, NoMemory, NodeNo, Tenancy, Visit};

/// What is kept of the entries so far: the last tenancy that was put into each slot, who was stopped, who was put, and
/// whom the cubs believe dead.
// A stop takes nobody out of the seats: who was stopped is never seated again, so that a seat counts unless its instance
// was stopped.
#[derive(Drop)]
struct SoFar {
    seats: Seats,
    stopped: Numbers,
    put: Numbers,
    believed: Pairs,
}

/// The first entry of a log with which not all Puts are fair; `None` if they all are. Each entry costs the logarithm of
/// their number, and so does each order.
///
/// `NoMemory` is the only error.
pub fn first_unfair_put<'a>(
    alloc: Global,
    plan: &Plan,
    orders: &[Order],
    log: &[Line<'a>],
) -> Result<Option<usize>, NoMemory>
    requires { AllByRecursion IsEarlyLine log.now }
    ensures { IfOk result (Decides (PutsAreFair plan.now.params orders.now) (told_by log.now)) }
{
    let asks = asks_of(alloc, orders)?;
    let mut so_far = SoFar::new(alloc);
    for i in 0..log.len() {
        let line = line_at(log, i);
        if !so_far.allows(plan, &asks, &line) {
            return Ok(Some(i));
        }
        so_far.take(&line)?;
    }
    Ok(None)
}

impl SoFar {
    /// Nothing is known yet.
    fn new(alloc: Global) -> SoFar
        ensures seats { result.seats ≡ [] }
        ensures stopped { result.stopped ≡ [] }
        ensures put { result.put ≡ [] }
        ensures believed { result.believed ≡ [] }
    {
        SoFar {
            seats: Seats::new(alloc),
            stopped: Numbers::new(alloc),
            put: Numbers::new(alloc),
            believed: Pairs::new(alloc),
        }
    }

    /// Whether an entry is as it should be, behind those so far.
    fn allows<'a>(&self, plan: &Plan, asks: &Asks, line: &Line<'a>) -> bool
        requires { IsEarlyLine line.now }
        ensures { (orders : List Order) (m : Moment) → AreAsksOf asks.now orders
            → TellsPuts self.now.seats self.now.stopped self.now.put self.now.believed m
            → IsTrue result ↔ IsFairSoFar plan.now.params orders m (noted_line line.now) }
    {
        match line.entry.what {
            What::Put(t) => self.may_put(plan, asks, line.node, line.entry.stamp.reading, &t),
            _ => true,
        }
    }

    /// Whether a Put is as it should be.
    fn may_put(&self, plan: &Plan, asks: &Asks, node: NodeNo, reading: Micros, t: &Tenancy) -> bool
        requires { IsEarlyPut (what.Put t.now) }
        ensures { (orders : List Order) (m : Moment) → AreAsksOf asks.now orders
            → TellsPuts self.now.seats self.now.stopped self.now.put self.now.believed m
            → IsTrue result ↔ PutIsFairSoFar plan.now.params orders m node.0 reading t.now }
    {
        if t.slot.0 as u64 >= plan.params.slots {
            return false;
        }
        let free = self.is_free(t);
        let asked = is_asked_for(plan, asks, t);
        let within = is_in_window(plan, reading, t);
        let may = self.is_cub_for(plan, node, t);
        let again = self.put.has(t.instance.0);
        are_all(free, asked, within, may, again)
    }

    /// Whether the slot is free from the first visit on.
    fn is_free(&self, t: &Tenancy) -> bool
        ensures { (m : Moment) → TellsPuts self.now.seats self.now.stopped self.now.put self.now.believed m
            → IsTrue result ↔ IsFreeFrom m.schedule t.now.slot.0 t.now.first }
    {
        match self.seats.get(t.slot) {
            Some(other) => other.last < t.first || self.stopped.has(other.instance.0),
            None => true,
        }
    }

    /// Whether the node is the cub of the first visit, or the next one, and believes that one dead.
    fn is_cub_for(&self, plan: &Plan, node: NodeNo, t: &Tenancy) -> bool
        requires { t.now.first ≤ 2 ^ 32 }
        ensures { (m : Moment) → TellsPuts self.now.seats self.now.stopped self.now.put self.now.believed m
            → IsTrue result ↔ MayPut plan.now.params m node.0 t.now.first }
    {
        let cub = cub_at(plan, t.first);
        cub.0 == node.0 || cub_at(plan, t.first + 1).0 == node.0 && self.believed.has(node.0, cub.0)
    }

    /// Takes one more entry.
    fn take<'a>(&mut self, line: &Line<'a>) -> Result<(), NoMemory>
        ensures { OnOk result ((m : Moment)
            → TellsPuts self.old.seats self.old.stopped self.old.put self.old.believed m
            → TellsPuts self.new.seats self.new.stopped self.new.put self.new.believed
            (next_moment m (noted_line line.now))) }
    {
        match line.entry.what {
            What::Put(t) => self.take_put(&t),
            What::Gone(v) => self.stopped.add(v.0),
            What::Believed(cub) => self.believed.add(line.node.0, cub.0),
            _ => Ok(()),
        }
    }

    /// Takes a Put.
    fn take_put(&mut self, t: &Tenancy) -> Result<(), NoMemory>
        ensures seats { OnOk result ((k : ℕ) → seat_under k self.new.seats
            ≡ seat_after self.old.stopped self.old.seats t.now k) }
        ensures put { OnOk result ((n : ℕ) → has_number n self.new.put
            ≡ (has_number n self.old.put || (t.now.instance.0 == n))) }
        ensures stopped { self.new.stopped ≡ self.old.stopped }
        ensures believed { self.new.believed ≡ self.old.believed }
    {
        self.seat(t)?;
        self.put.add(t.instance.0)
    }

    /// Gives a tenancy its seat, unless its instance was stopped.
    fn seat(&mut self, t: &Tenancy) -> Result<(), NoMemory>
        ensures seats { OnOk result ((k : ℕ) → seat_under k self.new.seats
            ≡ seat_after self.old.stopped self.old.seats t.now k) }
        ensures put { self.new.put ≡ self.old.put }
        ensures stopped { self.new.stopped ≡ self.old.stopped }
        ensures believed { self.new.believed ≡ self.old.believed }
    {
        if self.stopped.has(t.instance.0) {
            return Ok(());
        }
        self.seats.seat(*t)
    }
}

/// Whether four things are so, and a fifth is not.
fn are_all(free: bool, asked: bool, within: bool, may: bool, again: bool) -> bool
    ensures { result ≡ (free && (asked && (within && (may && not again)))) }
{
    free && asked && within && may && !again
}

/// The cub of a visit, however late that is.
#[tactic(auto, unfolding(slot_plan::specs::Times::cub_of))]
fn cub_at(plan: &Plan, visit: Visit) -> CubNo
    ensures { result.0 ≡ cub_of plan.now.params visit }
{
    CubNo((visit % plan.params.cubs) as u32)
}

/// Whether the first visit is in the window at a reading, however late that is.
#[tactic(auto, unfolding(slot_plan::specs::Times::in_window))]
fn is_in_window(plan: &Plan, reading: Micros, t: &Tenancy) -> bool
    requires slot { t.now.slot.0 < plan.now.params.slots }
    requires first { t.now.first ≤ 2 ^ 32 }
    ensures { result ≡ in_window plan.now.params reading t.now.slot.0 t.now.first }
{
    let due = plan.due(t.slot, t.first) as u128;
    due <= reading as u128 + plan.params.window_a as u128
        && due > reading as u128 + plan.params.window_b as u128
}

/// Whether a start was ordered that asks for a tenancy.
fn is_asked_for(plan: &Plan, asks: &Asks, t: &Tenancy) -> bool
    requires first { t.now.first ≤ 2 ^ 32 }
    requires last { t.now.last ≤ 2 ^ 32 }
    ensures { result ≡ (nat_le t.now.first (t.now.last + 1)
        && has_ask (ask_by plan.now.params t.now) asks.now) }
{
    let ask = ask_by(plan, t);
    t.first <= t.last + 1 && asks.has(&ask)
}

/// The only ask of which a tenancy can be.
fn ask_by(plan: &Plan, t: &Tenancy) -> Ask
    requires first { t.now.first ≤ 2 ^ 32 }
    requires last { t.now.last ≤ 2 ^ 32 }
    ensures { result ≡ ask_by plan.now.params t.now }
{
    let count = count_of(t);
    let disk = plan.disk_of(t.first);
    Ask {
        instance: t.instance,
        file: t.file,
        count,
        disk,
    }
}

/// The number of visits of a tenancy.
fn count_of(t: &Tenancy) -> u64
    requires { t.now.last ≤ 2 ^ 32 }
    ensures { result ≡ t.now.last + 1 - t.now.first }
{
    (t.last + 1).saturating_sub(t.first)
}
