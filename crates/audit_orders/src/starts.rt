//! Whether the controller sends exactly the starts that were ordered, each in the beat of its order.
ghost use Rattle.std.specs.Prelude.{◌≡◌, ℕ, ◌+◌, ◌%◌, ◌<◌, ◌≤◌, ◌++◌, ◌∷◌, [], List, Some, None, length, slice_index_or, slice_get, option_map, IfOk, OnOk, MatchOption};
ghost use Rattle.std.specs.List.Sorted.{IsNonDecreasingBy};
ghost use Rattle.slot_plan.specs.declared.params.Params.{Params};
ghost use Rattle.node_kit.specs.declared.course.Order.{Order};
ghost use Rattle.node_kit.specs.declared.journal.Entry.{Entry};
ghost use Rattle.node_kit.specs.declared.journal.What.TheVariants as what;
ghost use Rattle.node_kit.specs.Links.{links_of, ends_of};
ghost use Rattle.node_kit.specs.declared.course.OrderKind.TheVariants as kind;
ghost use Rattle.run_facts.specs.Commanded.{end_of};
ghost use Rattle.run_facts.specs.Timed.{AreRising};
ghost use Rattle.audit_frame.specs.Tables.{same_ask};
ghost use Rattle.audit_orders.specs.Commanding.{DecidesStarts};
ghost use Rattle.audit_orders.specs.Starts.{wants_by, wanted_from, sent_by, dated_by, Meets, Leaves, is_end, same_flag, is_same};
ghost use Rattle.tiger_base.specs.declared.message.Note.TheVariants as note;

use crate::commanding::Uncommanded;
use crate::entries::entry_at;
use node_kit::{Course, Entry, LinkTable, Order, OrderKind, What};
use slot_plan::Plan;
use std::alloc::Global;
use tiger_base::{Ask, Beat, LinkNo, NoMemory, Note};

/// A start that the orders want: its beat, the cub to which it goes, what is asked, whether it is the redundant one, and
/// the place of its order.
#[derive(Clone, Copy, Debug, PartialEq, Eq)]
struct Wanted {
    beat: Beat,
    to: u64,
    ask: Ask,
    redundant: bool,
    order: usize,
}

/// A start that is sent: its beat, the node to which its link leads, whether it is the redundant one, and what is asked.
#[derive(Clone, Copy)]
struct Start {
    beat: Beat,
    to: Option<u64>,
    redundant: bool,
    ask: Ask,
}

/// What an entry is to the starts that are still wanted.
#[derive(Clone, Copy)]
enum Meeting {
    /// It sends no start.
    Other,
    /// It sends the first of them.
    Next,
    /// It sends a start that is not the first of them, and no later than that.
    Surplus,
    /// It stands behind the beat of the first of them, whose order is this.
    Late(usize),
}

/// Where the controller's journal does not send the starts that were ordered. Each order and each entry is looked at once.
///
/// `NoMemory` is the only error.
pub(crate) fn wrong_start(
    alloc: Global,
    course: &Course,
    orders: &[Order],
    journal: &[Entry],
) -> Result<Option<Uncommanded>, NoMemory>
    requires in_time { IsNonDecreasingBy (λ (o : Order). o.beat) orders.now }
    requires rising { AreRising journal.now }
    ensures { IfOk result (DecidesStarts course.now.plan.params course.now.beats
        orders.now journal.now) }
{
    let wanted = wanted_of(alloc, &course.plan, course.beats, orders)?;
    Ok(compare(&course.plan, wanted.as_slice(), journal))
}

/// The starts that the orders of the run's beats want.
fn wanted_of(
    alloc: Global,
    plan: &Plan,
    beats: Beat,
    orders: &[Order],
) -> Result<Vec<Wanted>, NoMemory>
    ensures { IfOk result (λ wanted. wanted.items ≡ wanted_from plan.now.params beats 0 orders.now) }
{
    let mut wanted = Vec::new(alloc);
    for (j, order) in orders.iter().enumerate() {
        push_wanted(plan, beats, j, order, &mut wanted)?;
    }
    Ok(wanted)
}

/// Pushes the starts that an order wants, plain and redundant.
fn push_wanted(
    plan: &Plan,
    beats: Beat,
    j: usize,
    order: &Order,
    wanted: &mut Vec<Wanted>,
) -> Result<(), NoMemory>
    ensures { OnOk result (wanted.new.items
        ≡ wanted.old.items ++ wants_by plan.now.params beats j order.now.beat order.now.what) }
{
    match order.what {
        OrderKind::Begin(ask) => push_both(plan, beats, j, order.beat, ask, wanted),
        OrderKind::Finish(_) => Ok(()),
    }
}

/// Pushes the two starts of an ask, if the beat is one of the run's.
fn push_both(
    plan: &Plan,
    beats: Beat,
    j: usize,
    beat: Beat,
    ask: Ask,
    wanted: &mut Vec<Wanted>,
) -> Result<(), NoMemory>
    ensures { OnOk result (wanted.new.items
        ≡ wanted.old.items ++ wants_by plan.now.params beats j beat (kind.Begin ask)) }
{
    if beat >= beats {
        return Ok(());
    }
    let cubs = plan.params.cubs;
    let disk = ask.disk.0 as u64;
    wanted.push(Wanted {
        beat,
        to: disk % cubs,
        ask,
        redundant: false,
        order: j,
    })?;
    wanted.push(Wanted {
        beat,
        to: (disk + 1) % cubs,
        ask,
        redundant: true,
        order: j,
    })?;
    Ok(())
}

/// Where the starts of a journal are not those that are wanted.
fn compare(plan: &Plan, wanted: &[Wanted], journal: &[Entry]) -> Option<Uncommanded>
    requires rising { AreRising journal.now }
    ensures { (beats : ℕ) (orders : List Order) → wanted.now ≡ wanted_from plan.now.params beats 0 orders
        → IsNonDecreasingBy (λ (o : Order). o.beat) orders
        → DecidesStarts plan.now.params beats orders journal.now result }
{
    let links = LinkTable::new(plan);
    let mut next = 0;
    for i in 0..journal.len() {
        let e = entry_at(journal, i);
        match meet(plan, &links, wanted, next, &e) {
            Meeting::Other => {}
            Meeting::Next => next += 1,
            Meeting::Surplus => return Some(Uncommanded::Start { place: i }),
            Meeting::Late(order) => return Some(Uncommanded::Unsent { order }),
        }
    }
    match unsent(wanted, next) {
        Some(order) => Some(Uncommanded::Unsent { order }),
        None => None,
    }
}

/// What an entry is to the starts that are wanted from a place on.
fn meet(plan: &Plan, links: &LinkTable, wanted: &[Wanted], next: usize, e: &Entry) -> Meeting
    requires { links.now ≡ links_of plan.now.params }
    ensures { Meets wanted.now next e.now.stamp.beat
        (sent_by plan.now.params e.now.stamp.beat e.now.what) result }
{
    match e.what {
        What::Sent(link, note) => meet_note(plan, links, wanted, next, e.stamp.beat, link, &note),
        _ => Meeting::Other,
    }
}

/// What a message that is sent is to them.
fn meet_note(
    plan: &Plan,
    links: &LinkTable,
    wanted: &[Wanted],
    next: usize,
    beat: Beat,
    link: LinkNo,
    note: &Note,
) -> Meeting
    requires { links.now ≡ links_of plan.now.params }
    ensures { Meets wanted.now next beat
        (sent_by plan.now.params beat (what.Sent link note.now)) result }
{
    match note {
        Note::Start { redundant, ask } => {
            let sent = Start {
                beat,
                to: end_of(plan, links, link),
                redundant: *redundant,
                ask: *ask,
            };
            meet_start(wanted, next, &sent)
        }
        _ => Meeting::Other,
    }
}

/// What a start that is sent is to them.
fn meet_start(wanted: &[Wanted], next: usize, sent: &Start) -> Meeting
    ensures { Meets wanted.now next sent.now.beat (dated_by sent.now ∷ []) result }
{
    if next >= wanted.len() {
        return Meeting::Surplus;
    }
    let w = wanted_at(wanted, next);
    if w.beat < sent.beat {
        return Meeting::Late(w.order);
    }
    if is_same(&w, sent) {
        Meeting::Next
    } else {
        Meeting::Surplus
    }
}

/// The start at a place of those that are wanted.
fn wanted_at(wanted: &[Wanted], next: usize) -> Wanted
    requires { next < length wanted.now }
    ensures { slice_get wanted.now next ≡ Some result }
{
    wanted[next]
}

/// The node to which a link leads.
fn end_of(plan: &Plan, links: &LinkTable, link: LinkNo) -> Option<u64>
    requires { links.now ≡ links_of plan.now.params }
    ensures { result ≡ end_of plan.now.params link }
{
    match links.ends(link) {
        Some((_, to)) => Some(to.0 as u64),
        None => None,
    }
}

/// Whether a start that is sent is as wanted.
fn is_same(w: &Wanted, sent: &Start) -> bool
    ensures { result ≡ is_same w.now (dated_by sent.now) }
{
    w.beat == sent.beat
        && is_end(w.to, sent.to)
        && same_flag(w.redundant, sent.redundant)
        && same_ask(&w.ask, &sent.ask)
}

fn is_end(n: u64, to: Option<u64>) -> bool
    ensures { result ≡ is_end n to }
{
    match to {
        Some(m) => m == n,
        None => false,
    }
}

fn same_flag(a: bool, b: bool) -> bool
    ensures { result ≡ same_flag a b }
{
    if a { b } else { !b }
}

fn same_ask(a: &Ask, b: &Ask) -> bool
    ensures { result ≡ same_ask a.now b.now }
{
    a.instance.0 == b.instance.0
        && a.file.0 == b.file.0
        && (a.count == b.count && a.disk.0 == b.disk.0)
}

/// The order of the first start that is still wanted behind the last entry.
fn unsent(wanted: &[Wanted], next: usize) -> Option<usize>
    ensures { Leaves wanted.now next result }
{
    if next >= wanted.len() {
        return None;
    }
    Some(wanted_at(wanted, next).order)
}
