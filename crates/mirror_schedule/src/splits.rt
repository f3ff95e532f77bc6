//! The visits that a cub has split and still remembers.
ghost use Rattle.std.specs.Prelude.{◌≡◌, ◌==◌, ◌≤◌, [], true, false, length, nat_le, not, filter, count_by, find, option_map, is_some, IfSome, OnOk, OnErr, if◌then◌else◌};
ghost use Rattle.std.specs.List.{AllByRecursion};
ghost use Rattle.tiger_base.specs.declared.number.Instance.{Instance};
ghost use Rattle.instance_marks.specs.Marks.{IsNoted};
ghost use Rattle.mirror_schedule.specs.Splits.{AreNoted, HasOneOf, IsSplitOf, IsSoonestOf, key_of, is_of, is_over, is_sooner, with_split, split_before, ends_before, kept_end};
ghost use Rattle.mirror_schedule.specs.Sorted.{IsSorted, gap_from, place_of, without_first, first_if, but_first_if};

use crate::times::has_same_times;
use instance_marks::{forget, may_be_noted, note};
use slot_plan::Plan;
use std::alloc::Global;
use std::collections::VecDeque;
use std::marker::Model;
use tiger_base::{Instance, Micros, NoMemory, SlotNo, Visit};

/// An instance, a slot and a visit.
type Split = (Instance, SlotNo, Visit);

/// A split visit, and the end of its play time.
type Ending = (Split, Micros);

/// A set of split visits, seen as the list of their instances, slots and visits, in the order of
/// slot, then visit, then instance.
#[derive(Drop)]
pub struct Splits {
    plan: Plan,
    // Beside the ends of their play times under the plan, and in the order of these ends: a new one nearly always
    // comes last, and those that are over come first, so neither moves the others.
    items: VecDeque<Ending>,
    // Noted is each instance that one of them is of: most have none, and then none is looked for.
    marks: Vec<bool>,
}

impl Model for Splits {
    ghost use Rattle.std.specs.Prelude.{List};
    ghost use Rattle.mirror_schedule.specs.Splits.{Split, AreKeptNoted, by_slot};
    ghost use Rattle.mirror_schedule.specs.Timed.{untimed};

    ghost Value = { List Split };

    ghost view = { λ s. by_slot (untimed s.items.items) };

    ghost invariant = { λ s. AreKeptNoted s.plan.params s.marks.items s.items.items };
}

impl Splits {
    /// The empty set, of a plan. It takes no memory.
    pub fn new(alloc: Global, plan: &Plan) -> Splits
        ensures { result ≡ [] }
    {
        Splits {
            plan: *plan,
            items: VecDeque::new(alloc),
            marks: Vec::new(alloc),
        }
    }

    /// Remembers a visit. Without memory for it nothing changes.
    pub fn remember(
        &mut self,
        instance: Instance,
        slot: SlotNo,
        visit: Visit,
    ) -> Result<(), NoMemory>
        ensures ok { OnOk result (self.new ≡ with_split (instance, slot, visit) self.old) }
        ensures err { OnErr result (self.new ≡ self.old) }
    {
        let ending = ((instance, slot, visit), end_of(&self.plan, slot, visit));
        match gap_for(&self.items, &ending) {
            Some(place) => {
                note(&mut self.marks, instance)?;
                self.items.insert(place, ending)?;
                Ok(())
            }
            None => Ok(()),
        }
    }

    /// Forgets the first of an instance's visits, by slot and then visit, and gives it; `None`
    /// exactly if none is remembered.
    pub fn take_of(&mut self, instance: Instance) -> Option<(SlotNo, Visit)>
        ensures first { result ≡ option_map key_of (find (is_of instance) self.old) }
        ensures left { self.new ≡ without_first (is_of instance) self.old }
    {
        match find_first(&self.items, &self.marks, instance) {
            Some(((x, place), only)) => {
                self.items.remove(place);
                forget_if(only, &mut self.marks, instance);
                Some((x.1, x.2))
            }
            None => {
                forget(&mut self.marks, instance);
                None
            }
        }
    }

    /// Forgets the visits whose play time is over at a reading, and answers how many.
    pub fn expire(&mut self, plan: &Plan, reading: Micros) -> u64
        requires { AllByRecursion (IsSplitOf plan.now.params) self.old }
        ensures count { result ≡ count_by (is_over plan.now.params reading) self.old }
        ensures left { self.new ≡ filter (λ x. not (is_over plan.now.params reading x)) self.old }
    {
        // Most cubs remember none, and compare no plans.
        if self.items.is_empty() {
            0
        } else if has_same_times(&self.plan.params, &plan.params) {
            forget_ended(&mut self.items, reading)
        } else {
            forget_over(&mut self.items, plan, reading)
        }
    }
}

/// Whether one split visit comes before another: by slot, then visit, then instance.
#[tactic(auto, unfolding(crate::specs::Splits::split_before))]
fn comes_before(a: &Split, b: &Split) -> bool
    ensures { result ≡ split_before a.now b.now }
{
    (a.1.0, a.2, a.0.0) < (b.1.0, b.2, b.0.0)
}

/// Whether one split visit ends before another, or at the same time and comes before it.
#[tactic(auto, unfolding(crate::specs::Splits::ends_before))]
fn ends_before(a: &Ending, b: &Ending) -> bool
    ensures { result ≡ ends_before a.now b.now }
{
    (a.1, a.0.1.0, a.0.2, a.0.0.0) < (b.1, b.0.1.0, b.0.2, b.0.0.0)
}

/// The place of a new one among some in the order of their ends; `None` if it is there.
fn gap_for(items: &VecDeque<Ending>, x: &Ending) -> Option<usize>
    requires { IsSorted ends_before items.now.items }
    ensures { result ≡ gap_from ends_before x.now 0 items.now.items }
{
    let place = place_for(items, x);
    if place < items.len() && !ends_before(x, &items[place]) {
        None
    } else {
        Some(place)
    }
}

/// How many end before the given one. Most new visits end last, so the last one is looked at first.
fn place_for(items: &VecDeque<Ending>, x: &Ending) -> usize
    requires { IsSorted ends_before items.now.items }
    ensures place { result ≡ place_of ends_before x.now items.now.items }
    ensures inside { result ≤ length items.now.items }
{
    let many = items.len();
    if many > 0 && ends_before(&items[many - 1], x) {
        many
    } else {
        first_not_before(items, x)
    }
}

/// How many end before the given one, found by halving.
fn first_not_before(items: &VecDeque<Ending>, x: &Ending) -> usize
    requires { IsSorted ends_before items.now.items }
    ensures place { result ≡ place_of ends_before x.now items.now.items }
    ensures inside { result ≤ length items.now.items }
{
    let mut low = 0;
    let mut high = items.len();
    while low < high {
        let middle = low + (high - low) / 2;
        if ends_before(&items[middle], x) {
            low = middle + 1;
        } else {
            high = middle;
        }
    }
    low
}

/// The first of an instance's visits, by slot and then visit, its place, and whether it is known to
/// be the only one. It is looked for only if one may be there.
fn find_first(
    items: &VecDeque<Ending>,
    marks: &Vec<bool>,
    instance: Instance,
) -> Option<((Split, usize), bool)>
    requires { AreNoted marks.now.items items.now.items }
    ensures first { IsSoonestOf instance items.now.items (length items.now.items)
        (option_map (λ f. f.0) result) }
    ensures only { IfSome result (λ f. f.1 ≡ true → HasOneOf instance items.now.items) }
{
    if may_be_noted(marks, instance) {
        first_of(items, instance)
    } else {
        None
    }
}

/// The same of any instance.
fn first_of(items: &VecDeque<Ending>, instance: Instance) -> Option<((Split, usize), bool)>
    ensures first { IsSoonestOf instance items.now.items (length items.now.items)
        (option_map (λ f. f.0) result) }
    ensures only { IfSome result (λ f. f.1 ≡ true → HasOneOf instance items.now.items) }
{
    let mut first = None;
    let mut only = true;
    for i in 0..items.len() {
        let x = items[i].0;
        only = is_only(&x, instance, &first, only);
        if x.0 == instance && is_sooner(&x, &first) {
            first = Some((x, i));
        }
    }
    beside(first, only)
}

/// What was found, beside whether it is the only one.
fn beside(first: Option<(Split, usize)>, only: bool) -> Option<((Split, usize), bool)>
    ensures { result ≡ option_map (λ f. (f, only)) first }
{
    match first {
        Some(found) => Some((found, only)),
        None => None,
    }
}

/// Whether one visit of an instance was seen at most, with one more beside what was found before.
fn is_only(x: &Split, instance: Instance, found: &Option<(Split, usize)>, only: bool) -> bool
    ensures { result ≡ (if is_of instance x.now then not (is_some found.now) else only) }
{
    if x.0 == instance {
        found.is_none()
    } else {
        only
    }
}

/// Takes the note of an instance away, if its only visit is gone.
fn forget_if(only: bool, marks: &mut Vec<bool>, instance: Instance)
    ensures { (v : Instance) → IsNoted marks.old.items v
        → (only ≡ true → (v.0 == instance.0) ≡ false) → IsNoted marks.new.items v }
{
    if only {
        forget(marks, instance);
    }
}

/// Whether a visit comes before one that was found, if one was.
fn is_sooner(x: &Split, found: &Option<(Split, usize)>) -> bool
    ensures { result ≡ is_sooner x.now found.now }
{
    match found {
        Some((y, _)) => comes_before(x, y),
        None => true,
    }
}

/// The end of a visit's play time, if the visit may be one of the plan's; else 0.
fn end_of(plan: &Plan, slot: SlotNo, visit: Visit) -> Micros
    ensures { result ≡ kept_end plan.now.params (slot, visit) }
{
    if u64::from(slot.0) < plan.params.slots && visit <= 4294967296 {
        plan.due(slot, visit) + plan.params.play
    } else {
        0
    }
}

/// Forgets the visits that end by a reading, of some in the order of their ends, and answers how
/// many.
fn forget_ended(items: &mut VecDeque<Ending>, reading: Micros) -> u64
    requires { IsSorted ends_before items.old.items }
    ensures count { result ≡ count_by (λ x. nat_le x.1 reading) items.old.items }
    ensures left { items.new.items ≡ filter (λ x. not (nat_le x.1 reading)) items.old.items }
{
    let before = items.len();
    while take_ended(items, reading).is_some() {}
    (before - items.len()) as u64
}

/// Takes out the first visit if it ends by a time.
fn take_ended(items: &mut VecDeque<Ending>, time: Micros) -> Option<Ending>
    ensures first { result ≡ first_if (λ x. nat_le x.1 time) items.old.items }
    ensures left { items.new.items ≡ but_first_if (λ x. nat_le x.1 time) items.old.items }
{
    let first = items.front()?;
    if first.1 <= time {
        items.pop_front()
    } else {
        None
    }
}

/// Whether a visit's play time is over at a reading.
#[tactic(auto, unfolding(crate::specs::Splits::is_over))]
fn is_over(x: &Split, plan: &Plan, reading: Micros) -> bool
    requires { IsSplitOf plan.now.params x.now }
    ensures { result ≡ is_over plan.now.params reading x.now }
{
    plan.due(x.1, x.2) + plan.params.play <= reading
}

/// Removes the visits whose play time is over, and answers how many.
fn forget_over(items: &mut VecDeque<Ending>, plan: &Plan, reading: Micros) -> u64
    requires { AllByRecursion (λ x. IsSplitOf plan.now.params x.0) items.old.items }
    ensures count { result ≡ count_by (λ x. is_over plan.now.params reading x.0) items.old.items }
    ensures left { items.new.items ≡
        filter (λ x. not (is_over plan.now.params reading x.0)) items.old.items }
{
    let mut count = 0;
    for i in (0..items.len()).rev() {
        if is_over(&items[i].0, plan, reading) {
            items.remove(i);
            count += 1;
        }
    }
    count
}
