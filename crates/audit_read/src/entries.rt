//! Whether what an entry names is in its range.
ghost use Rattle.std.specs.Prelude.{◌≡◌, ◌↔◌, ◌≤◌, ◌^◌, IsTrue};
ghost use Rattle.audit_read.specs.Writable.{IsPlace, IsTenancy, IsAsk, IsTag, IsNote, IsWhat, IsEntry};

use node_kit::{Entry, What};
use slot_plan::Params;
use tiger_base::{Ask, Note, SlotNo, Tag, Tenancy, Visit};

/// The last visit that has a time.
const LAST_VISIT: u64 = 4294967296;

/// The number of blocks of the longest file.
const MOST_BLOCKS: u64 = 16777216;

fn is_place(p: &Params, slot: SlotNo, visit: Visit) -> bool
    ensures { IsTrue result ↔ IsPlace p.now slot.0 visit }
{
    (slot.0 as u64) < p.slots && visit <= LAST_VISIT
}

fn is_tenancy(p: &Params, t: &Tenancy) -> bool
    ensures { IsTrue result ↔ IsTenancy p.now t.now }
{
    (t.slot.0 as u64) < p.slots && t.first <= t.last && t.last <= LAST_VISIT
}

/// Whether a tenancy is in range, and a visit beside it.
fn is_held(p: &Params, t: &Tenancy, visit: Visit) -> bool
    ensures { IsTrue result ↔ (IsTenancy p.now t.now × (visit ≤ 2 ^ 32)) }
{
    is_tenancy(p, t) && visit <= LAST_VISIT
}

/// Whether a start is of a number of blocks that it may have.
pub fn is_ask(ask: &Ask) -> bool
    ensures { IsTrue result ↔ IsAsk ask.now }
{
    1 <= ask.count && ask.count <= MOST_BLOCKS
}

fn is_tag(p: &Params, tag: &Option<Tag>) -> bool
    ensures { IsTrue result ↔ IsTag p.now tag.now }
{
    match tag {
        Some(tag) => is_place(p, tag.slot, tag.visit),
        None => true,
    }
}

fn is_note(p: &Params, note: &Note) -> bool
    ensures { IsTrue result ↔ IsNote p.now note.now }
{
    match note {
        Note::ViewerState(state) => is_held(p, &state.tenancy, state.visit),
        Note::MirrorState(piece) => is_held(p, &piece.tenancy, piece.visit),
        Note::Start { ask, .. } => is_ask(ask),
        Note::Deschedule { tag, .. } => is_tag(p, tag),
        Note::Kill { slot, visit, .. } => is_place(p, *slot, *visit),
        Note::Placed(tenancy) => is_tenancy(p, tenancy),
        Note::Heartbeat => true,
        Note::ReadAsk(want) => is_place(p, want.slot, want.visit),
        Note::ReadDone { want, .. } => is_place(p, want.slot, want.visit),
        Note::Whole { want, .. } => is_place(p, want.slot, want.visit),
        Note::Piece { want, .. } => is_place(p, want.slot, want.visit),
        Note::Back { .. } => true,
    }
}

fn is_what(p: &Params, what: &What) -> bool
    ensures { IsTrue result ↔ IsWhat p.now what.now }
{
    match what {
        What::Got(_, note) | What::Sent(_, note) => is_note(p, note),
        What::Took(r) | What::Dropped(r) => is_held(p, &r.tenancy, r.visit),
        What::Put(tenancy) => is_tenancy(p, tenancy),
        What::ReadFailed(want) => is_place(p, want.slot, want.visit),
        What::Queued(_, _) => true,
        What::Unqueued(_) => true,
        What::Gone(_) => true,
        What::Believed(_) => true,
        What::Died => true,
        What::Returned => true,
    }
}

/// Whether the entry is of a beat of the run, and names slots and visits of the plan.
pub fn is_entry(p: &Params, beats: u64, e: &Entry) -> bool
    ensures { IsTrue result ↔ IsEntry p.now beats e.now }
{
    e.stamp.beat < beats && is_what(p, &e.what)
}
