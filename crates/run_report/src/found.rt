//! What the journals tell of the starts.
ghost use Rattle.std.specs.Prelude.{◌≡◌, ◌++◌, ◌≤◌, ◌<◌, ◌^◌, IsTrue, IfOk, IfSome, OnOk, Some};
ghost use Rattle.tiger_base.specs.Limits.{most_beats};
ghost use Rattle.node_kit.specs.Form.{is_tenancy};
ghost use Rattle.run_model.specs.Tests.{lost_in_death};
ghost use Rattle.run_report.specs.Outcomes.{pieces_sent, span_at, reason_of, missing_of, kind_of, is_settled, settled_block, blocks_of, outcome_of, order_outcomes, outcomes_of};

use crate::index::Index;
use crate::outcome::{BlockKind, BlockOut, Outcome, Reason};
use crate::times::is_stopped_below;
use node_kit::{Course, Journal, Order, OrderKind};
use std::alloc::Global;
use stripe_layout::Catalogue;
use tiger_base::{Ask, Beat, Instance, NoMemory, Sequence, SlotNo, Span, Tenancy, Visit};

/// When the pieces of a visit's block were sent, in their order, if the viewers got each.
#[tactic(auto, unfolding(crate::specs::Outcomes::pieces_sent))]
fn pieces_sent(
    alloc: Global,
    index: &Index,
    v: Instance,
    visit: Visit,
) -> Result<Option<Sequence<Beat>>, NoMemory>
    ensures { IfOk result (λ sent. sent
        ≡ pieces_sent index.now.course.plan.params index.now.journals v.0 visit) }
{
    let mut sent = Sequence::new(Vec::new(alloc));
    for k in 1..index.course().plan.params.pieces as u32 + 1 {
        match index.piece_sent(v, visit, k) {
            Some(beat) => sent.push(beat)?,
            None => return Ok(None),
        }
    }
    Ok(Some(sent))
}

/// Whether the cub of a visit died so close to it that no other cub could serve it.
#[tactic(auto, unfolding(run_model::specs::Tests::lost_in_death))]
fn lost_in_death(index: &Index, t: &Tenancy, visit: Visit) -> bool
    requires slot { t.now.slot.0 < index.now.course.plan.params.slots }
    requires visit { visit ≤ 2 ^ 32 }
    ensures { result ≡ lost_in_death index.now.course.plan.params index.now.journals t.now visit }
{
    let plan = &index.course().plan;
    let time = plan.due(t.slot, visit) as u128;
    let end = time + plan.params.beat as u128;
    index.died_between(plan.cub_of(visit), plan.takeover() as u128, time, end)
}

#[tactic(auto, unfolding(crate::specs::Outcomes::reason_of))]
fn reason_of(index: &Index, t: &Tenancy, visit: Visit) -> Reason
    requires slot { t.now.slot.0 < index.now.course.plan.params.slots }
    requires visit { visit ≤ 2 ^ 32 }
    ensures { result ≡ reason_of index.now.course.plan.params index.now.journals t.now visit }
{
    if index.read_failed(t.instance, visit) {
        Reason::Read
    } else if lost_in_death(index, t, visit) {
        Reason::Dead
    } else {
        Reason::Piece
    }
}

/// Why a block is missing; nothing, where its instance was stopped before its visit was over.
#[tactic(auto, unfolding(crate::specs::Outcomes::missing_of))]
fn missing_of(index: &Index, t: &Tenancy, visit: Visit) -> Option<BlockKind>
    requires slot { t.now.slot.0 < index.now.course.plan.params.slots }
    requires visit { visit ≤ 2 ^ 32 }
    ensures { result ≡ missing_of index.now.course.plan.params index.now.journals t.now visit }
{
    let plan = &index.course().plan;
    let over = plan.due(t.slot, visit) as u128 + plan.params.play as u128;
    if is_stopped_below(plan, over, index.stop(t.instance)) {
        None
    } else {
        Some(BlockKind::Missing(reason_of(index, t, visit)))
    }
}

/// How a block of so many bytes came, or why it is missing.
#[tactic(auto, unfolding(crate::specs::Outcomes::kind_of))]
fn kind_of(
    alloc: Global,
    index: &Index,
    catalogue: &Catalogue,
    t: &Tenancy,
    visit: Visit,
    len: u64,
) -> Result<Option<BlockKind>, NoMemory>
    requires slot { t.now.slot.0 < index.now.course.plan.params.slots }
    requires visit { visit ≤ 2 ^ 32 }
    requires len { len ≡ (span_at catalogue.now t.now visit).len }
    ensures { IfOk result (λ kind. kind
        ≡ kind_of index.now.course.plan.params catalogue.now index.now.journals t.now visit) }
{
    if let Some(sent) = index.whole_sent(t.instance, visit) {
        return Ok(Some(BlockKind::Whole { len, sent }));
    }
    if let Some(sent) = pieces_sent(alloc, index, t.instance, visit)? {
        return Ok(Some(BlockKind::Pieces { len, sent }));
    }
    Ok(missing_of(index, t, visit))
}

/// Which bytes of its file the block of a visit has.
#[tactic(auto, unfolding(crate::specs::Outcomes::span_at))]
fn span_at(catalogue: &Catalogue, t: &Tenancy, visit: Visit) -> Span
    requires { t.now.first ≤ visit }
    ensures { result ≡ span_at catalogue.now t.now visit }
{
    match catalogue.place(t.file, visit - t.first) {
        Some(place) => place.span,
        None => Span {
            file: t.file,
            from: 0,
            len: 0,
        },
    }
}

#[tactic(auto, unfolding(crate::specs::Outcomes::is_settled, slot_plan::specs::Times::time_of))]
fn is_settled(course: &Course, slot: SlotNo, visit: Visit) -> bool
    requires beats { course.now.beats ≤ most_beats }
    requires slot { slot.0 < course.now.plan.params.slots }
    requires visit { visit ≤ 2 ^ 32 }
    ensures { result ≡ is_settled course.now slot.0 visit }
{
    let p = &course.plan.params;
    course.plan.due(slot, visit) + 2 * p.play <= course.beats * p.beat
}

/// The block of a settled visit.
#[tactic(auto, unfolding(crate::specs::Outcomes::settled_block))]
fn push_block(
    alloc: Global,
    blocks: &mut Sequence<BlockOut>,
    index: &Index,
    catalogue: &Catalogue,
    t: &Tenancy,
    visit: Visit,
) -> Result<(), NoMemory>
    requires settled { IsTrue (is_settled index.now.course t.now.slot.0 visit) }
    requires slot { t.now.slot.0 < index.now.course.plan.params.slots }
    requires first { t.now.first ≤ visit }
    requires visit { visit ≤ 2 ^ 32 }
    ensures { OnOk result (blocks.new ≡ blocks.old
        ++ settled_block index.now.course catalogue.now index.now.journals t.now visit) }
{
    let span = span_at(catalogue, t, visit);
    if let Some(kind) = kind_of(alloc, index, catalogue, t, visit, span.len)? {
        blocks.push(BlockOut {
            block: visit - t.first,
            due: index.course().plan.due(t.slot, visit),
            span,
            kind,
        })?;
    }
    Ok(())
}

/// The blocks of a tenancy, up to the first visit that is not settled: no later one is.
#[tactic(auto, unfolding(crate::specs::Outcomes::blocks_of))]
fn tenancy_blocks(
    alloc: Global,
    index: &Index,
    catalogue: &Catalogue,
    t: &Tenancy,
) -> Result<Sequence<BlockOut>, NoMemory>
    requires beats { index.now.course.beats ≤ most_beats }
    requires form { IsTrue (is_tenancy index.now.course.plan.params t.now) }
    ensures { IfOk result (λ blocks. blocks
        ≡ blocks_of index.now.course catalogue.now index.now.journals (Some t.now)) }
{
    let mut blocks = Sequence::new(Vec::new(alloc));
    for visit in t.first..t.last + 1 {
        if !is_settled(index.course(), t.slot, visit) {
            return Ok(blocks);
        }
        push_block(alloc, &mut blocks, index, catalogue, t, visit)?;
    }
    Ok(blocks)
}

/// The blocks of a tenancy, if there is one.
#[tactic(auto, unfolding(crate::specs::Outcomes::blocks_of))]
fn blocks_of(
    alloc: Global,
    index: &Index,
    catalogue: &Catalogue,
    placed: &Option<Tenancy>,
) -> Result<Sequence<BlockOut>, NoMemory>
    requires beats { index.now.course.beats ≤ most_beats }
    requires form { IfSome placed.now (λ t. IsTrue (is_tenancy index.now.course.plan.params t)) }
    ensures { IfOk result (λ blocks. blocks
        ≡ blocks_of index.now.course catalogue.now index.now.journals placed.now) }
{
    match placed {
        Some(t) => tenancy_blocks(alloc, index, catalogue, t),
        None => Ok(Sequence::new(Vec::new(alloc))),
    }
}

#[tactic(auto, unfolding(crate::specs::Outcomes::outcome_of))]
fn outcome_of(
    alloc: Global,
    index: &Index,
    catalogue: &Catalogue,
    ask: Ask,
) -> Result<Outcome, NoMemory>
    requires beats { index.now.course.beats ≤ most_beats }
    ensures { IfOk result (λ o. o
        ≡ outcome_of index.now.course catalogue.now index.now.journals ask) }
{
    let placed = index.placed(ask.instance);
    let blocks = blocks_of(alloc, index, catalogue, &placed)?;
    Ok(Outcome {
        ask,
        placed,
        stop: index.stop(ask.instance),
        blocks,
    })
}

fn push_outcome(
    alloc: Global,
    outcomes: &mut Vec<Outcome>,
    index: &Index,
    catalogue: &Catalogue,
    order: &OrderKind,
) -> Result<(), NoMemory>
    requires beats { index.now.course.beats ≤ most_beats }
    ensures { OnOk result (outcomes.new.items ≡ outcomes.old.items
        ++ order_outcomes index.now.course catalogue.now index.now.journals order.now) }
{
    if let OrderKind::Begin(ask) = order {
        outcomes.push(outcome_of(alloc, index, catalogue, *ask)?)?;
    }
    Ok(())
}

/// What became of each start, in the order of the orders. Each journal is read once, and each settled
/// visit then asks the tables.
#[tactic(auto, unfolding(crate::specs::Outcomes::outcomes_of))]
pub fn outcomes(
    alloc: Global,
    course: &Course,
    catalogue: &Catalogue,
    orders: &[Order],
    journals: &[Journal],
) -> Result<Vec<Outcome>, NoMemory>
    requires beats { course.now.beats ≤ most_beats }
    ensures { IfOk result (λ os. os.items
        ≡ outcomes_of course.now catalogue.now orders.now journals.now) }
{
    let index = Index::of(alloc, course, journals)?;
    let mut outcomes = Vec::new(alloc);
    for order in orders {
        push_outcome(alloc, &mut outcomes, &index, catalogue, &order.what)?;
    }
    Ok(outcomes)
}
