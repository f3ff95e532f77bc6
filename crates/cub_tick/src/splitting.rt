//! Splitting: the visits of a dead predecessor are split into mirror pieces.
ghost use Rattle.std.specs.Prelude.{◌≡◌, ◌≤◌, ◌++◌, ◌∷◌, [], OnOk, Some, map};
ghost use Rattle.std.specs.List.{flat_map};
ghost use Rattle.tiger_base.specs.Limits.{most_reading};
ghost use Rattle.mirror_schedule.specs.Pieces.{IsPieceOf};
ghost use Rattle.node_kit.specs.Deeds.{Did};
ghost use Rattle.cub_rules.specs.State.{IsStoreOf, IsLineOf};
ghost use Rattle.cub_rules.specs.Ticks.{splitting, split_line, split_outs, sent_ahead};
ghost use Rattle.cub_tick.specs.Limits.{split_limit};
ghost use Rattle.slot_plan.specs.Keys.{IsKey};
ghost use Rattle.partial_view.specs.Lines.{key_of};
ghost use Rattle.cub_tick.specs.Splitting.{with_split_of, with_split_visit, with_visit_settled, sent_pieces, sent_settled, with_new};

use cub_rules::{Store, is_handed_back};
use mirror_schedule::PieceView;
use node_kit::{Out, Outbox, Site};
use partial_view::Line;
use slot_plan::Plan;
use tiger_base::{Micros, Msg, NoMemory, PieceState, Rec, Stamp};

/// If the predecessor is believed dead, splits the visit of each backup record that is due late
/// enough and has not had its turn, unless it is left to the predecessor, which came back: the first
/// piece becomes the cub's own piece record, and the mirror states of the others go to the next cubs.
/// The lines are looked at only if a visit may be left to split.
pub fn split<'a>(
    site: &Site,
    stamp: Stamp,
    store: &mut Store<'a>,
    out: &mut Outbox<Msg<'a>>,
) -> Result<(), NoMemory>
    requires reading { stamp.reading ≤ most_reading }
    requires stored { IsStoreOf site.now.plan.params site.now.cub.0 store.old }
    ensures { OnOk result (Did
        (splitting site.now.plan.params site.now.cub.0 stamp store.old)
        out.old out.new store.new) }
{
    if !store.believes {
        return Ok(());
    }
    let limit = split_limit(&site.plan, stamp);
    if store.view.is_split_from(limit) {
        return Ok(());
    }
    split_lines(site, stamp, store, out)?;
    // All that is due from the limit on is split, and the limit only rises: a beat looks again only after a new record.
    store.view.set_split_from(limit);
    Ok(())
}

/// The time from which on visits are split in a beat; those that are due earlier are due too early.
#[tactic(auto, unfolding(crate::specs::Limits::split_limit))]
fn split_limit(plan: &Plan, stamp: Stamp) -> Micros
    requires { stamp.reading ≤ most_reading }
    ensures { result ≡ split_limit plan.now.params stamp }
{
    let params = plan.params();
    let way = params.delay * params.beat;
    stamp.reading + params.read_lead + params.skew + way + params.beat
}

/// Splits the visits of all lines that are due late enough: each time the first one is taken whose
/// visit is still to be split.
fn split_lines<'a>(
    site: &Site,
    stamp: Stamp,
    store: &mut Store<'a>,
    out: &mut Outbox<Msg<'a>>,
) -> Result<(), NoMemory>
    requires reading { stamp.reading ≤ most_reading }
    requires stored { IsStoreOf site.now.plan.params site.now.cub.0 store.old }
    ensures store { let p = site.now.plan.params in let before = store.old.view in
        OnOk result (store.new ≡ with_split_of p stamp store.old.handback before.lines
        (record before { lines = map (split_line p stamp) before.lines }) store.old) }
    ensures outs { let splits = split_outs site.now.plan.params site.now.cub.0 stamp store.old.handback in
        OnOk result (out.new ≡ out.old ++ flat_map splits store.old.view.lines) }
{
    let limit = split_limit(&site.plan, stamp);
    while let Some(line) = store.view.split_next(limit) {
        settle_line(site, store, line, out)?;
    }
    Ok(())
}

/// Splits the visit of a line whose turn it is, unless it is left to the predecessor, which came back.
fn settle_line<'a>(
    site: &Site,
    store: &mut Store<'a>,
    line: Line,
    out: &mut Outbox<Msg<'a>>,
) -> Result<(), NoMemory>
    requires pieces { store.old.pieces.params ≡ site.now.plan.params }
    requires unasked { store.old.unasked.params ≡ site.now.plan.params }
    requires line { IsLineOf site.now.plan.params site.now.cub.0 line }
    requires key { IsKey site.now.plan.params (key_of line) }
    ensures store { let p = site.now.plan.params in
        OnOk result (store.new ≡ with_visit_settled p store.old.handback line.rec store.old) }
    ensures outs { let p = site.now.plan.params in
        OnOk result (out.new ≡ out.old
        ++ sent_settled p site.now.cub.0 store.old.handback line.rec) }
{
    if is_handed_back(&site.plan, store.handback, &line.rec) {
        return Ok(());
    }
    split_line(site, store, line, out)
}

/// Splits the visit of one line: sends the pieces but the first, adds that one, and keeps in mind
/// that the visit is split.
fn split_line<'a>(
    site: &Site,
    store: &mut Store<'a>,
    line: Line,
    out: &mut Outbox<Msg<'a>>,
) -> Result<(), NoMemory>
    requires pieces { store.old.pieces.params ≡ site.now.plan.params }
    requires unasked { store.old.unasked.params ≡ site.now.plan.params }
    requires line { IsLineOf site.now.plan.params site.now.cub.0 line }
    ensures store { OnOk result (store.new ≡ with_split_visit line.rec store.old) }
    ensures outs { OnOk result (out.new ≡ out.old
        ++ sent_pieces site.now.plan.params site.now.cub.0 line.rec) }
{
    send_pieces(site, line.rec, out)?;
    let first = PieceState {
        tenancy: line.rec.tenancy,
        visit: line.rec.visit,
        piece: 1,
    };
    add_piece(&mut store.pieces, &mut store.unasked, first)?;
    let tenancy = &line.rec.tenancy;
    store
        .splits
        .remember(tenancy.instance, tenancy.slot, line.rec.visit)?;
    Ok(())
}

/// Sends the mirror states of a visit's pieces but the first.
fn send_pieces<'a>(site: &Site, rec: Rec, out: &mut Outbox<Msg<'a>>) -> Result<(), NoMemory>
    ensures { OnOk result (out.new ≡ out.old
        ++ sent_pieces site.now.plan.params site.now.cub.0 rec) }
{
    for k in 2..site.plan.params.pieces + 1 {
        let piece = PieceState {
            tenancy: rec.tenancy,
            visit: rec.visit,
            piece: k as u32,
        };
        send_ahead(site, piece, out)?;
    }
    Ok(())
}

/// Sends the mirror state of a piece to its cub.
fn send_ahead<'a>(site: &Site, piece: PieceState, out: &mut Outbox<Msg<'a>>) -> Result<(), NoMemory>
    requires low { 2 ≤ piece.piece }
    requires high { piece.piece ≤ site.now.plan.params.pieces }
    ensures { OnOk result (out.new ≡ out.old
        ++ sent_ahead site.now.plan.params site.now.cub.0 piece ∷ []) }
{
    let steps = (piece.piece - 1) as u64;
    out.push(Out::Send(site.ahead(steps), Msg::MirrorState(piece)))?;
    Ok(())
}

/// Adds a piece that is still to be asked for, unless it is there.
fn add_piece(
    pieces: &mut PieceView,
    unasked: &mut PieceView,
    piece: PieceState,
) -> Result<(), NoMemory>
    requires pieces { IsPieceOf pieces.old.params piece }
    requires unasked { IsPieceOf unasked.old.params piece }
    ensures pieces { OnOk result (pieces.new ≡ with_new piece pieces.old pieces.old) }
    ensures unasked { OnOk result (unasked.new ≡ with_new piece pieces.old unasked.old) }
{
    // The call tells that the set has each piece once, in order.
    pieces.are_in_order();
    if pieces.add(piece)? {
        unasked.add(piece)?;
    }
    Ok(())
}
