//! Whether the controller stops exactly the instances whose stops take effect, each once.
ghost use Rattle.std.specs.Prelude.{◌≡◌, ℕ, ◌+◌, ◌^◌, ◌<◌, ◌==◌, ◌&&◌, ◌||◌, true, false, Some, IfOk, OnOk, MatchOption};
ghost use Rattle.std.specs.Option.{option_or};
ghost use Rattle.slot_plan.specs.Times.{due};
ghost use Rattle.node_kit.specs.Courses.{IsCourse};
ghost use Rattle.node_kit.specs.declared.course.Order.{Order};
ghost use Rattle.run_facts.specs.Commanded.{is_finish_of, is_over};
ghost use Rattle.run_facts.specs.Timed.{AreRising};
ghost use Rattle.audit_frame.specs.Tables.{has_pair, mark_under};
ghost use Rattle.audit_orders.specs.Commanding.{DecidesStops, clock_of};
ghost use Rattle.audit_orders.specs.Stops.{TellsFinishes, TellsPlaces, place_under, place_entry_has, place_of_note, place_in_note, by_then, may_by, wrong_by, mark_after, missed_by, missed_stop, is_marked_by, NoneIsMissed, IsFirstMissed};

use crate::commanding::Uncommanded;
use crate::entries::{entry_at, order_at};
use crate::tables::{Finishes, Known, Places};
use audit_frame::Marks;
use node_kit::{Course, Entry, LinkTable, Order, OrderKind, What, in_form};
use slot_plan::Plan;
use std::alloc::Global;
use tiger_base::{Beat, Instance, Micros, NoMemory, Note, SlotNo, Tenancy, Visit};

/// Where the controller's journal does not stop the instances whose stops take effect. Each order and each entry costs the
/// logarithm of their number.
///
/// `NoMemory` is the only error.
pub(crate) fn wrong_stop(
    alloc: Global,
    course: &Course,
    orders: &[Order],
    journal: &[Entry],
) -> Result<Option<Uncommanded>, NoMemory>
    requires course { IsCourse course.now }
    requires rising { AreRising journal.now }
    ensures { IfOk result (DecidesStops course.now.plan.params course.now.beats (clock_of course.now)
        orders.now journal.now) }
{
    let finishes = finishes_of(alloc, orders)?;
    let places = places_of(alloc, &course.plan, journal)?;
    wrong_stop_by(alloc, course, orders, &finishes, &places, journal)
}

/// The same, if the stops that were ordered and the tenancies that the controller got are at hand.
fn wrong_stop_by(
    alloc: Global,
    course: &Course,
    orders: &[Order],
    finishes: &Finishes,
    places: &Places,
    journal: &[Entry],
) -> Result<Option<Uncommanded>, NoMemory>
    requires course { IsCourse course.now }
    requires rising { AreRising journal.now }
    requires finishes { TellsFinishes finishes.now orders.now }
    requires places { TellsPlaces course.now.plan.params places.now journal.now }
    ensures { IfOk result (DecidesStops course.now.plan.params course.now.beats (clock_of course.now)
        orders.now journal.now) }
{
    let mut gone = Marks::new(alloc);
    for i in 0..journal.len() {
        let e = entry_at(journal, i);
        if is_wrong(course, finishes, places, &gone, &e) {
            return Ok(Some(Uncommanded::Stop { place: i }));
        }
        take_gone(&mut gone, &e)?;
    }
    match first_missed(course, orders, places, &gone) {
        Some(order) => Ok(Some(Uncommanded::Unstopped { order })),
        None => Ok(None),
    }
}

/// The stops that orders have.
fn finishes_of(alloc: Global, orders: &[Order]) -> Result<Finishes, NoMemory>
    ensures { IfOk result (λ finishes. TellsFinishes finishes orders.now) }
{
    let mut finishes = Finishes::new(alloc);
    for i in 0..orders.len() {
        let order = order_at(orders, i);
        add_finish(&mut finishes, &order)?;
    }
    Ok(finishes)
}

/// Adds the stop of an order, if it is one.
fn add_finish(finishes: &mut Finishes, order: &Order) -> Result<(), NoMemory>
    ensures { OnOk result ((v beat : ℕ) → has_pair v beat finishes.new
        ≡ (has_pair v beat finishes.old
        || ((order.now.beat == beat) && is_finish_of v order.now.what))) }
{
    match order.what {
        OrderKind::Finish(v) => finishes.add(v, order.beat),
        OrderKind::Begin(_) => Ok(()),
    }
}

/// The tenancies in form that a journal says were got, of each instance the first.
fn places_of(alloc: Global, plan: &Plan, journal: &[Entry]) -> Result<Places, NoMemory>
    ensures { IfOk result (λ places. TellsPlaces plan.now.params places journal.now) }
{
    let mut places = Places::new(alloc);
    for i in 0..journal.len() {
        let e = entry_at(journal, i);
        add_place(plan, &mut places, &e)?;
    }
    Ok(places)
}

/// Adds the tenancy of an entry, if it has one.
fn add_place(plan: &Plan, places: &mut Places, e: &Entry) -> Result<(), NoMemory>
    ensures { OnOk result ((v : ℕ) → place_under v places.new
        ≡ option_or (place_under v places.old)
        (place_entry_has plan.now.params v e.now.stamp.beat e.now.what)) }
{
    match e.what {
        What::Got(_, note) => add_noted(plan, places, e.stamp.beat, &note),
        _ => Ok(()),
    }
}

/// Adds the tenancy of a message, if it has one.
fn add_noted(plan: &Plan, places: &mut Places, beat: Beat, note: &Note) -> Result<(), NoMemory>
    ensures { OnOk result ((v : ℕ) → place_under v places.new
        ≡ option_or (place_under v places.old) (place_of_note plan.now.params v beat note.now)) }
{
    match note {
        Note::Placed(t) => add_tenancy(plan, places, beat, t),
        _ => Ok(()),
    }
}

/// Adds a tenancy, if it is in form and its instance has none.
fn add_tenancy(plan: &Plan, places: &mut Places, beat: Beat, t: &Tenancy) -> Result<(), NoMemory>
    ensures { OnOk result ((v : ℕ) → place_under v places.new
        ≡ option_or (place_under v places.old) (place_in_note plan.now.params v beat t.now)) }
{
    if !in_form(plan, &Note::Placed(*t)) || places.get(t.instance).is_some() {
        return Ok(());
    }
    places.set(t.instance, Known { beat, tenancy: *t })
}

/// Whether an entry stops an instance once more, or where no stop may take effect.
fn is_wrong(course: &Course, finishes: &Finishes, places: &Places, gone: &Marks, e: &Entry) -> bool
    requires { IsCourse course.now }
    ensures { result ≡ wrong_by course.now finishes.now places.now gone.now e.now.stamp.beat e.now.what }
{
    match e.what {
        What::Gone(v) => {
            gone.get(v.0).is_some() || !may_take_effect(course, finishes, places, v, e.stamp.beat)
        }
        _ => false,
    }
}

/// Whether the stop of an instance was ordered in a beat of the run and is not too late there.
fn may_take_effect(
    course: &Course,
    finishes: &Finishes,
    places: &Places,
    v: Instance,
    beat: Beat,
) -> bool
    requires { IsCourse course.now }
    ensures { result ≡ may_by course.now finishes.now places.now v.0 beat }
{
    beat < course.beats && finishes.has(v, beat) && !is_over(course, places, v, beat)
}

/// Whether the tenancy that is known of an instance by a beat is over at the controller's reading.
fn is_over(course: &Course, places: &Places, v: Instance, beat: Beat) -> bool
    requires course { IsCourse course.now }
    requires early { beat < course.now.beats }
    ensures { result ≡ is_over course.now.plan.params (clock_of course.now beat)
        (by_then beat (place_under v.0 places.now)) }
{
    let controller = LinkTable::new(&course.plan).controller();
    let stamp = course.stamp(controller, beat);
    match places.get(v) {
        Some(known) => is_known_over(&course.plan, stamp.reading, beat, &known),
        None => false,
    }
}

/// Whether a tenancy was known by a beat and is over at a reading.
fn is_known_over(plan: &Plan, reading: Micros, beat: Beat, known: &Known) -> bool
    ensures { result ≡ is_over plan.now.params reading (by_then beat (Some known.now)) }
{
    if known.beat <= beat {
        due_behind(plan, &known.tenancy) <= reading as u128
    } else {
        false
    }
}

/// When the slot of a tenancy is due behind its last visit.
#[tactic(auto, using(crate::proofs::Placing::due_next))]
fn due_behind(plan: &Plan, t: &Tenancy) -> u128
    ensures { result ≡ due plan.now.params t.now.slot.0 (t.now.last + 1) }
{
    due(plan, t.slot, t.last) + plan.params.play as u128
}

/// When a visit of a slot is due.
#[tactic(auto, unfolding(slot_plan::specs::Times::due, slot_plan::specs::Times::first_due))]
fn due(plan: &Plan, slot: SlotNo, visit: Visit) -> u128
    ensures value { result ≡ due plan.now.params slot.0 visit }
    ensures small { result < 2 ^ 100 }
{
    let p = &plan.params;
    let disks = p.cubs as u128 * p.disks as u128;
    slot.0 as u128 * disks * p.play as u128 / p.slots as u128 + visit as u128 * p.play as u128
}

/// Takes one more entry.
fn take_gone(gone: &mut Marks, e: &Entry) -> Result<(), NoMemory>
    ensures { OnOk result ((n : ℕ) → mark_under n gone.new
        ≡ mark_after n e.now.stamp.beat e.now.what (mark_under n gone.old)) }
{
    match e.what {
        What::Gone(v) => gone.set(v.0, e.stamp.beat),
        _ => Ok(()),
    }
}

/// The first order whose stop takes effect and is not written.
fn first_missed(course: &Course, orders: &[Order], places: &Places, gone: &Marks) -> Option<usize>
    requires { IsCourse course.now }
    ensures { MatchOption result
        (NoneIsMissed course.now places.now gone.now orders.now)
        (IsFirstMissed course.now places.now gone.now orders.now) }
{
    for i in 0..orders.len() {
        let order = order_at(orders, i);
        if is_missed(course, places, gone, &order) {
            return Some(i);
        }
    }
    None
}

/// Whether an order has a stop that takes effect and is not written.
fn is_missed(course: &Course, places: &Places, gone: &Marks, order: &Order) -> bool
    requires { IsCourse course.now }
    ensures { result ≡ missed_by course.now places.now gone.now order.now.beat order.now.what }
{
    match order.what {
        OrderKind::Finish(v) => misses(course, places, gone, v, order.beat),
        OrderKind::Begin(_) => false,
    }
}

/// Whether a stop that is ordered in a beat takes effect there, if it is not written by then.
fn misses(course: &Course, places: &Places, gone: &Marks, v: Instance, beat: Beat) -> bool
    requires { IsCourse course.now }
    ensures { result ≡ missed_stop course.now places.now gone.now v.0 beat }
{
    beat < course.beats && !is_over(course, places, v, beat) && !is_by(gone.get(v.0), beat)
}

/// Whether a mark is of a beat or of an earlier one.
fn is_by(mark: Option<Beat>, beat: Beat) -> bool
    ensures { result ≡ is_marked_by beat mark }
{
    match mark {
        Some(b) => b <= beat,
        None => false,
    }
}
