//! The parts that a cub has stored: by when they leave they are found, and by the ends of their visits' play times
//! forgotten.
ghost use Rattle.std.specs.Prelude.{◌≡◌, ◌<◌, ◌≤◌, ◌&&◌, ◌++◌, ◌∷◌, [], true, IsTrue, OnOk, OnErr, nat_lt, not};
ghost use Rattle.std.specs.List.{All, AllByRecursion, filter};
ghost use Rattle.std.specs.List.Sorted.{IsNonDecreasingBy};
ghost use Rattle.tiger_base.specs.Records.{same_want};
ghost use Rattle.mirror_schedule.specs.Timed.{has_same_times};
ghost use Rattle.node_kit.specs.Form.{is_place};
ghost use Rattle.cub_rules.specs.Fresh.{ArePartsNoted, end_of, leaves_at, leaves_alike, is_fresh, first_part, is_stale_here};
ghost use Rattle.cub_rules.specs.Messages.{is_piece_part};
ghost use Rattle.cub_rules.specs.Records.{is_part_of, stored_for};
ghost use Rattle.cub_rules.specs.State.{IsPartHere};
ghost use Rattle.cub_rules.specs.Ticks.{is_stale};

use crate::store::StoredPart;
use instance_marks::{forget, forget_all, may_be_noted, note, note_there};
use mirror_schedule::has_same_times;
use slot_plan::Plan;
use std::alloc::Global;
use std::marker::Model;
use tiger_base::{Instance, MOST_VISIT, Micros, NoMemory, Part, Visit, Want};

/// So many parts are added at least from one sweep to the next.
const LEAST_ADDED: usize = 32;

/// Among so many of the last parts a part is looked for first.
const LAST_PARTS: usize = 32;

/// A part, the end of its visit's play time, and the latest time at which it or one before it leaves.
#[derive(Drop)]
pub(crate) struct KeptPart<'a> {
    end: Micros,
    // The times of leaving may fall and tops do not, so a search halves by tops.
    top: Micros,
    stored: StoredPart<'a>,
}

/// The parts that are stored, in the order in which they came, seen as this list.
#[derive(Drop)]
pub struct StoredParts<'a> {
    items: Vec<KeptPart<'a>>,
    // Noted is each instance that a part is of: of most, none is stored, and then none is looked for to be dropped.
    marks: Vec<bool>,
    plan: Plan,
    // The ends and the tops are those under the plan: under each that a part came under, all leave at the same times.
    timed: bool,
    // A part whose end is at it or before it is forgotten: it stands there until it is swept out.
    forgotten_to: Micros,
    // So many items must be there before those that are forgotten are swept out: about twice as many as the last sweep
    // left, so that each part that came bears a small share of its cost.
    sweep_at: usize,
}

impl<'a> Model for StoredParts<'a> {
    ghost use Rattle.std.specs.Prelude.{List};
    ghost use Rattle.cub_rules.specs.declared.store.StoredPart.{StoredPart};
    ghost use Rattle.cub_rules.specs.Fresh.{AreKeptPartsNoted, fresh_parts};

    ghost Value = { List StoredPart };

    ghost view = { λ s. fresh_parts s.forgotten_to s.items.items };

    ghost invariant = { λ s. AreKeptPartsNoted s.plan.params s.timed s.marks.items s.items.items };
}

impl<'a> StoredParts<'a> {
    /// No part yet. It takes no memory.
    pub fn new(alloc: Global, plan: &Plan) -> StoredParts<'a>
        ensures { result ≡ [] }
    {
        StoredParts {
            items: Vec::new(alloc),
            marks: Vec::new(alloc),
            plan: *plan,
            timed: true,
            forgotten_to: 0,
            sweep_at: LEAST_ADDED,
        }
    }

    /// The first part that is stored for a want.
    pub fn part_for(&self, want: Want) -> Option<Part<'a>>
        ensures { result ≡ stored_for want self.now }
    {
        if !self.timed || !is_here(want, &self.plan) {
            return find_fresh(want, self.forgotten_to, &self.items);
        }
        let end = end_of(want, &self.plan);
        if self.forgotten_to < end {
            let leaving = leaving_of(want, &self.plan);
            find_by_leaving(want, leaving, &self.items)
        } else {
            None
        }
    }

    /// Stores a part of a visit of the plan behind the others; without memory for it, nothing changes.
    pub fn push(&mut self, plan: &Plan, stored: StoredPart<'a>) -> Result<(), NoMemory>
        requires { IsPartHere plan.now.params stored }
        ensures ok { OnOk result (self.new ≡ self.old ++ stored.entry ∷ []) }
        ensures err { OnErr result (self.new ≡ self.old) }
    {
        note(&mut self.marks, stored.want.instance)?;
        let end = end_of(stored.want, plan);
        if end <= self.forgotten_to {
            sweep(&mut self.items, &mut self.forgotten_to);
        }
        let top = top_with(&self.items, leaving_of(stored.want, plan));
        self.items.push(KeptPart { end, top, stored })?;
        self.timed = stay_timed(self.timed, &self.plan, plan);
        Ok(())
    }

    /// Forgets the parts whose play time is over.
    pub fn forget_stale(&mut self, plan: &Plan, reading: Micros)
        requires { AllByRecursion (IsPartHere plan.now.params) self.old }
        ensures { self.new ≡ filter (λ x. not (is_stale plan.now.params reading x)) self.old }
    {
        if !are_timed(self.timed, &self.plan, plan) {
            sweep(&mut self.items, &mut self.forgotten_to);
            forget_stale(&mut self.items, plan, reading);
            return;
        }
        self.forgotten_to = self.forgotten_to.max(reading);
        if self.sweep_at <= self.items.len() {
            sweep(&mut self.items, &mut self.forgotten_to);
            note_again(&mut self.marks, &self.items);
            self.sweep_at = self.items.len() + self.items.len().max(LEAST_ADDED);
        }
    }

    /// Drops all parts of an instance.
    pub fn drop_instance(&mut self, instance: Instance)
        ensures { self.new ≡ filter (λ x. not (is_part_of instance x)) self.old }
    {
        if may_be_noted(&self.marks, instance) {
            drop_instance(instance, &mut self.items);
            forget(&mut self.marks, instance);
        }
    }

    /// Drops the parts of the pieces of a visit.
    pub fn drop_pieces(&mut self, instance: Instance, visit: Visit)
        ensures { self.new ≡ filter (λ x. not (is_piece_part instance visit x)) self.old }
    {
        if may_be_noted(&self.marks, instance) {
            drop_pieces(instance, visit, &mut self.items);
        }
    }
}

/// Whether a want is of a slot of the plan, and its visit is not too large: then the visit has a due time.
fn is_here(want: Want, plan: &Plan) -> bool
    ensures { result ≡ is_place plan.now.params want.slot.0 want.visit }
{
    u64::from(want.slot.0) < plan.params.slots && want.visit <= MOST_VISIT
}

/// The end of the play time of a want's visit, in microseconds, which is never 0.
fn end_of(want: Want, plan: &Plan) -> Micros
    requires { IsTrue (is_place plan.now.params want.slot.0 want.visit) }
    ensures end { result ≡ end_of plan.now.params want }
    ensures some { 0 < result }
{
    plan.due(want.slot, want.visit) + plan.params.play
}

/// When what is wanted leaves: a block when it is due, and its pieces one after another over its play time.
#[tactic(auto, unfolding(mirror_pieces::specs::Pieces::leaving))]
fn leaving_of(want: Want, plan: &Plan) -> Micros
    requires { IsTrue (is_place plan.now.params want.slot.0 want.visit) }
    ensures { result ≡ leaves_at plan.now.params want }
{
    let due = plan.due(want.slot, want.visit);
    if want.piece == 0 {
        due
    } else {
        due + u64::from(want.piece - 1) * plan.params.play / plan.params.pieces
    }
}

/// The first part that is for a want, which leaves at this time. It came a short time ago in most cases, and then it is
/// among the last parts: those before them have earlier tops.
fn find_by_leaving<'a>(want: Want, leaving: Micros, items: &[KeptPart<'a>]) -> Option<Part<'a>>
    requires order { IsNonDecreasingBy (λ k. k.top) items.now }
    requires above { All (λ k. same_want want k.stored.want ≡ true → leaving ≤ k.top) items.now }
    ensures { result ≡ first_part (λ k. same_want want k.stored.want) items.now }
{
    let far = items.len().saturating_sub(LAST_PARTS);
    if far < items.len() && items[far].top < leaving {
        find_in_order(want, leaving, &items[far..])
    } else {
        find_in_order(want, leaving, items)
    }
}

/// The first part that is for a want, which leaves at this time: none is as long as tops are earlier.
fn find_in_order<'a>(want: Want, leaving: Micros, items: &[KeptPart<'a>]) -> Option<Part<'a>>
    requires order { IsNonDecreasingBy (λ k. k.top) items.now }
    requires above { All (λ k. same_want want k.stored.want ≡ true → leaving ≤ k.top) items.now }
    ensures { result ≡ first_part (λ k. same_want want k.stored.want) items.now }
{
    let first = items.partition_point(|kept| kept.top < leaving);
    for i in first..items.len() {
        let kept = &items[i];
        if is_for(want, &kept.stored) {
            return Some(kept.stored.part.again());
        }
    }
    None
}

/// The first part that is for a want and has an end after a time.
fn find_fresh<'a>(want: Want, time: Micros, items: &[KeptPart<'a>]) -> Option<Part<'a>>
    ensures { result ≡ first_part (λ k. is_fresh time k && same_want want k.stored.want) items.now }
{
    for i in 0..items.len() {
        let kept = &items[i];
        if time < kept.end && is_for(want, &kept.stored) {
            return Some(kept.stored.part.again());
        }
    }
    None
}

/// Whether a part is for a want.
fn is_for<'a>(want: Want, x: &StoredPart<'a>) -> bool
    ensures { result ≡ same_want want x.now.want }
{
    x.want == want
}

/// The top of a part that leaves at this time, if it comes behind some others.
fn top_with<'a>(items: &[KeptPart<'a>], leaving: Micros) -> Micros
    requires { IsNonDecreasingBy (λ k. k.top) items.now }
    ensures own { leaving ≤ result }
    ensures tops { All (λ k. k.top ≤ result) items.now }
{
    match items.last() {
        Some(last) => last.top.max(leaving),
        None => leaving,
    }
}

/// Whether ends are those under a plan: if they are those under their own plan, and its times are the same.
fn are_timed(timed: bool, own: &Plan, plan: &Plan) -> bool
    ensures { result ≡ (timed && has_same_times own.now.params plan.now.params) }
{
    timed && has_same_times(&own.params, &plan.params)
}

/// Whether ends and tops are those under their own plan still, once a part came under a plan: pieces leave at other times
/// if a block has another number of them.
fn stay_timed(timed: bool, own: &Plan, plan: &Plan) -> bool
    ensures { result ≡ (timed && leaves_alike own.now.params plan.now.params) }
{
    are_timed(timed, own, plan) && own.params.pieces == plan.params.pieces
}

/// Sweeps out the forgotten parts, whose end is at a time or before it. Then the time is 0, up to which no part ends.
fn sweep<'a>(items: &mut Vec<KeptPart<'a>>, forgotten_to: &mut Micros)
    ensures left { items.new.items ≡ filter (is_fresh forgotten_to.old) items.old.items }
    ensures time { forgotten_to.new ≡ 0 }
{
    let time = *forgotten_to;
    items.retain(|kept| time < kept.end);
    *forgotten_to = 0;
}

/// Takes the parts out that are of a visit of the plan whose play time is over.
fn forget_stale<'a>(items: &mut Vec<KeptPart<'a>>, plan: &Plan, reading: Micros)
    ensures { items.new.items
        ≡ filter (λ k. not (is_stale_here plan.now.params reading k.stored)) items.old.items }
{
    items.retain(|kept| !is_stale(&kept.stored, plan, reading));
}

/// Whether a part is of a visit of the plan, and the play time of this visit is over.
fn is_stale<'a>(x: &StoredPart<'a>, plan: &Plan, reading: Micros) -> bool
    ensures { result ≡ is_stale_here plan.now.params reading x.now }
{
    is_here(x.want, plan) && end_of(x.want, plan) <= reading
}

/// Drops all parts of an instance.
fn drop_instance<'a>(instance: Instance, items: &mut Vec<KeptPart<'a>>)
    ensures { items.new.items ≡ filter (λ k. not (is_part_of instance k.stored)) items.old.items }
{
    items.retain(|kept| !is_part_of(instance, &kept.stored));
}

/// Whether a part is of an instance.
fn is_part_of<'a>(instance: Instance, x: &StoredPart<'a>) -> bool
    ensures { result ≡ is_part_of instance x.now }
{
    x.want.instance.0 == instance.0
}

/// Drops the parts of the pieces of a visit.
fn drop_pieces<'a>(instance: Instance, visit: Visit, items: &mut Vec<KeptPart<'a>>)
    ensures { items.new.items
        ≡ filter (λ k. not (is_piece_part instance visit k.stored)) items.old.items }
{
    items.retain(|kept| !is_piece_part(instance, visit, &kept.stored));
}

/// Whether a part is of a piece of a visit.
fn is_piece_part<'a>(instance: Instance, visit: Visit, x: &StoredPart<'a>) -> bool
    ensures { result ≡ is_piece_part instance visit x.now }
{
    x.want.instance.0 == instance.0 && x.want.visit == visit && 0 < x.want.piece
}

/// Notes the instances that parts are of, and no others.
fn note_again<'a>(marks: &mut Vec<bool>, items: &[KeptPart<'a>])
    requires { ArePartsNoted marks.old.items items.now }
    ensures { ArePartsNoted marks.new.items items.now }
{
    forget_all(marks);
    for i in 0..items.len() {
        note_there(marks, items[i].stored.want.instance);
    }
}
