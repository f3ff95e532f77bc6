//! Whether what each cub takes and which viewer states it sends follows from what it has.
ghost use Rattle.std.specs.Prelude.{◌≡◌, ◌↔◌, ◌+◌, ◌<◌, ◌&&◌, nat_le, ◌||◌, ℕ, IsTrue, OnOk};
ghost use Rattle.tiger_base.specs.declared.number.LinkNo.{LinkNo};
ghost use Rattle.tiger_base.specs.declared.tenancy.Rec.{Rec};
ghost use Rattle.tiger_base.specs.Records.{own_of};
ghost use Rattle.slot_plan.specs.declared.params.Params.{Params};
ghost use Rattle.slot_plan.specs.Times.{cub_of, first_due};
ghost use Rattle.node_kit.specs.Links.{links_of, ends_of};
ghost use Rattle.node_kit.specs.declared.journal.What.TheVariants as what;
ghost use Rattle.run_model.specs.Moments.{Moment, next_moment};
ghost use Rattle.run_model.specs.Parts.{IsForCub, IsLocal, IsLocalEntry, IsLocalRecord, is_from_before};
ghost use Rattle.audit_frame.specs.Lines.{noted_line};
ghost use Rattle.audit_frame.specs.Records.{is_same};
ghost use Rattle.audit_views.specs.Standing.{has_record};
ghost use Rattle.audit_views.specs.Local.{TellsBrought, has_by, is_before, is_soon, note_brings, state_brings};
ghost use Rattle.audit_views.specs.Views.{TellsRecords};

use audit_frame::{By, Line, Records};
use node_kit::{LinkTable, What};
use slot_plan::Plan;
use tiger_base::{
    Kind, LinkNo, Micros, NoMemory, NodeNo, Note, Rec, SlotNo, State, Tenancy, Visit,
};

/// Whether an entry is local, by the records in the views of the cubs and by what was brought to each cub before it. It costs the
/// logarithm of the number of records.
pub(crate) fn is_local<'a>(
    plan: &Plan,
    records: &Records,
    brought: &Records,
    line: &Line<'a>,
) -> bool
    ensures { (m : Moment) → TellsRecords plan.now.params records.now m
        → TellsBrought plan.now.params brought.now m
        → IsTrue result ↔ IsLocal plan.now.params m (noted_line line.now) }
{
    if line.node.0 as u64 >= plan.params.cubs {
        return true;
    }
    match line.entry.what {
        What::Took(r) => may_take(plan, brought, line.node, line.entry.stamp.reading, &r),
        What::Sent(_, note) => may_send(records, line.node, &note),
        _ => true,
    }
}

/// Whether a cub may take a record at a reading.
fn may_take(plan: &Plan, brought: &Records, cub: NodeNo, reading: Micros, r: &Rec) -> bool
    requires { cub.0 < plan.now.params.cubs }
    ensures { (m : Moment) → TellsBrought plan.now.params brought.now m
        → IsTrue result ↔ IsLocalRecord plan.now.params m cub.0 reading r.now }
{
    let mine = is_for_cub(plan, cub, r);
    let came = has_by(brought, cub, &r.tenancy, r.visit);
    let soon = is_soon(plan, reading, r);
    are_three(mine, came, soon)
}

/// Whether a cub may send a note.
fn may_send(records: &Records, cub: NodeNo, note: &Note) -> bool
    ensures { (p : Params) (m : Moment) (reading : ℕ) (link : LinkNo) → cub.0 < p.cubs
        → TellsRecords p records.now m
        → IsTrue result ↔ IsLocalEntry p m cub.0 reading (what.Sent link note.now) }
{
    match note {
        Note::ViewerState(state) => has_by(records, cub, &state.tenancy, state.visit),
        _ => true,
    }
}

/// Keeps what one more entry brings its node, as own records of the visits that are named.
pub(crate) fn keep_brought<'a>(
    brought: &mut Records,
    plan: &Plan,
    line: &Line<'a>,
) -> Result<(), NoMemory>
    ensures { OnOk result ((m : Moment) → TellsBrought plan.now.params brought.old m
        → TellsBrought plan.now.params brought.new (next_moment m (noted_line line.now))) }
{
    match line.entry.what {
        What::Put(t) => keep_own(brought, line.node, &t, t.first),
        What::Got(link, note) => keep_note(brought, plan, line.node, link, &note),
        _ => Ok(()),
    }
}

/// Whether three things are so.
fn are_three(mine: bool, came: bool, soon: bool) -> bool
    ensures { result ≡ (mine && (came && soon)) }
{
    mine && came && soon
}

/// Whether a cub has the own record of a tenancy at a visit, or at the one before it.
fn has_by(records: &Records, cub: NodeNo, t: &Tenancy, visit: Visit) -> bool
    ensures { result ≡ has_by cub.0 t.now visit records.now }
{
    // Of a state that came and of a record that is passed on the visit is mostly the one before.
    if visit > 0 && records.has(By::Instance, cub, &Rec::own(*t, visit - 1)) {
        return true;
    }
    records.has(By::Instance, cub, &Rec::own(*t, visit))
}

/// Whether the visit of a record is a cub's own, or for a backup record that of the cub before it.
fn is_for_cub(plan: &Plan, cub: NodeNo, r: &Rec) -> bool
    ensures { IsTrue result ↔ IsForCub plan.now.params cub.0 r.now.kind r.now.visit }
{
    match r.kind {
        Kind::Own => cub_of(plan, r.visit as u128) == cub.0 as u128,
        Kind::Backup => cub_of(plan, r.visit as u128 + 1) == cub.0 as u128,
    }
}

/// The cub of a visit, however late that is.
#[tactic(auto, unfolding(slot_plan::specs::Times::cub_of))]
fn cub_of(plan: &Plan, visit: u128) -> u128
    ensures { result ≡ cub_of plan.now.params visit }
{
    visit % plan.params.cubs as u128
}

/// Whether a record is taken at a reading no sooner than it may be.
#[tactic(auto, unfolding(slot_plan::specs::Times::due))]
fn is_soon(plan: &Plan, reading: Micros, r: &Rec) -> bool
    ensures { result ≡ is_soon plan.now.params reading r.now }
{
    let p = &plan.params;
    let first = first_due(plan, r.tenancy.slot);
    let later = r.visit as u128 * p.play as u128;
    let most = reading as u128 + p.max_lead as u128 + p.play as u128 + p.skew as u128;
    is_sum_at_most(first, later, most)
}

/// When the first visit of a slot is due, whether the plan has the slot or not.
#[tactic(auto, unfolding(slot_plan::specs::Times::first_due))]
fn first_due(plan: &Plan, slot: SlotNo) -> u128
    ensures { result ≡ first_due plan.now.params slot.0 }
{
    let p = &plan.params;
    let disks = (p.cubs * p.disks) as u128;
    slot.0 as u128 * disks * p.play as u128 / p.slots as u128
}

/// Whether two numbers make a third one together at most.
#[tactic(auto, using(crate::proofs::Bringing::too_much, crate::proofs::Bringing::rest_is))]
fn is_sum_at_most(left: u128, right: u128, most: u128) -> bool
    ensures { result ≡ nat_le (left + right) most }
{
    if left > most {
        return false;
    }
    right <= most - left
}

/// Keeps what a note that a node got on a link brings it.
fn keep_note(
    brought: &mut Records,
    plan: &Plan,
    node: NodeNo,
    link: LinkNo,
    note: &Note,
) -> Result<(), NoMemory>
    ensures { OnOk result ((c : ℕ) (q : Rec) → has_record c q brought.new
        ≡ (has_record c q brought.old || note_brings plan.now.params node.0 link.0 note.now c q)) }
{
    match note {
        Note::ViewerState(state) => keep_state(brought, plan, node, link, state),
        _ => Ok(()),
    }
}

/// Keeps a viewer state that a node got on a link, if it came from one of the two cubs before it.
fn keep_state(
    brought: &mut Records,
    plan: &Plan,
    node: NodeNo,
    link: LinkNo,
    state: &State,
) -> Result<(), NoMemory>
    ensures { OnOk result ((c : ℕ) (q : Rec) → has_record c q brought.new
        ≡ (has_record c q brought.old
        || state_brings plan.now.params node.0 link.0 state.now c q)) }
{
    if !is_from_before(plan, node, link) {
        return Ok(());
    }
    keep_own(brought, node, &state.tenancy, state.visit)
}

/// Keeps that a node was brought a tenancy at a visit.
fn keep_own(brought: &mut Records, node: NodeNo, t: &Tenancy, visit: Visit) -> Result<(), NoMemory>
    ensures { OnOk result ((c : ℕ) (q : Rec) → has_record c q brought.new
        ≡ (has_record c q brought.old || is_same node.0 (own_of t.now visit) c q)) }
{
    brought.add(By::Instance, node, &Rec::own(*t, visit))
}

/// Whether a link leads to its node from one of the two cubs before a node.
fn is_from_before(plan: &Plan, node: NodeNo, link: LinkNo) -> bool
    ensures { result ≡ is_from_before plan.now.params node.0
        (ends_of (links_of plan.now.params) link.0) }
{
    let links = LinkTable::new(plan);
    match links.ends(link) {
        Some((from, _)) => is_before(plan, from, node),
        None => false,
    }
}

/// Whether a node is one of the two cubs before another.
fn is_before(plan: &Plan, from: NodeNo, node: NodeNo) -> bool
    ensures { result ≡ is_before plan.now.params from.0 node.0 }
{
    let cubs = plan.params.cubs;
    let cub = from.0 as u64;
    let next = (cub + 1) % cubs;
    let second = (cub + 2) % cubs;
    cub < cubs && (next == node.0 as u64 || second == node.0 as u64)
}
