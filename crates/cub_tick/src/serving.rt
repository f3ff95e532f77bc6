//! Serving: blocks and pieces go to the viewers when they are due, and their records are dropped.
ghost use Rattle.std.specs.Prelude.{◌≡◌, ◌≤◌, ◌++◌, OnOk, Some, map, filter, not};
ghost use Rattle.std.specs.List.{AllByRecursion, flat_map};
ghost use Rattle.tiger_base.specs.Limits.{most_reading};
ghost use Rattle.node_kit.specs.Deeds.{Did};
ghost use Rattle.cub_rules.specs.State.{IsStoreOf, IsLineOf, IsPieceAt};
ghost use Rattle.slot_plan.specs.Keys.{IsKey};
ghost use Rattle.partial_view.specs.Lines.{key_of, visit_of};
ghost use Rattle.cub_rules.specs.Comebacks.{due_of_record, serves_at};
ghost use Rattle.cub_rules.specs.Records.{pieces_but, stored_for, dropped};
ghost use Rattle.cub_rules.specs.Ticks.{serving, is_served, is_past, served_whole, serve_outs, sent_whole, piece_outs, leaves_by};

use crate::leaving::{drop_leaving, take_leaving};
use cub_rules::{Comeback, Store, StoredParts, due_of, serves_at};
use mirror_schedule::PieceView;
use node_kit::{Out, Outbox, Site, What};
use partial_view::{CubView, Line};
use slot_plan::Plan;
use tiger_base::{Msg, NoMemory, PieceState, Rec, Stamp, Want};

/// Sends the block of each own record that is due, if its part is stored, and drops the record; then drops each backup
/// record that is due; then sends each piece that leaves, if its part is stored, and drops the piece record. No record
/// behind the first one that leaves later is looked at.
pub fn serve<'a>(
    site: &Site,
    stamp: Stamp,
    store: &mut Store<'a>,
    out: &mut Outbox<Msg<'a>>,
) -> Result<(), NoMemory>
    requires reading { stamp.reading ≤ most_reading }
    requires stored { IsStoreOf site.now.plan.params site.now.cub.0 store.old }
    ensures { OnOk result (Did
        (serving site.now.plan.params site.now.cub.0 stamp store.old)
        out.old out.new store.new) }
{
    serve_blocks(
        site,
        stamp,
        store.comeback,
        &mut store.view,
        &store.parts,
        out,
    )?;
    drop_backups(site, stamp, &mut store.view, out)?;
    serve_pieces(site, stamp, &mut store.pieces, &store.parts, out)?;
    drop_leaving(&site.plan, &mut store.unasked, stamp.reading);
    Ok(())
}

/// Serves the own records that are due.
fn serve_blocks<'a>(
    site: &Site,
    stamp: Stamp,
    comeback: Option<Comeback>,
    view: &mut CubView,
    parts: &StoredParts<'a>,
    out: &mut Outbox<Msg<'a>>,
) -> Result<(), NoMemory>
    requires reading { stamp.reading ≤ most_reading }
    requires plan { view.old.params ≡ site.now.plan.params }
    requires lines { AllByRecursion (IsLineOf site.now.plan.params site.now.cub.0) view.old.lines }
    ensures view { OnOk result (view.new ≡ record view.old {
      lines = filter (λ x. not (is_served site.now.plan.params stamp x)) view.old.lines;
    }) }
    ensures outs { let serves = serve_outs site.now.plan.params site.now.cub.0 stamp comeback parts.now in
        OnOk result (out.new ≡ out.old ++ flat_map serves view.old.lines) }
{
    while let Some(line) = view.take_own(stamp.reading) {
        serve_block(site, stamp, comeback, &line, parts, out)?;
        out.push(Out::Act(What::Dropped(line.rec)))?;
    }
    Ok(())
}

/// Sends the block of a line to the viewers, if the cub serves the visit and the part is stored.
fn serve_block<'a>(
    site: &Site,
    stamp: Stamp,
    comeback: Option<Comeback>,
    line: &Line,
    parts: &StoredParts<'a>,
    out: &mut Outbox<Msg<'a>>,
) -> Result<(), NoMemory>
    requires key { IsKey site.now.plan.params (key_of line.now) }
    requires begun { line.now.rec.tenancy.first ≤ line.now.rec.visit }
    ensures { let p = site.now.plan.params in
        OnOk result (out.new ≡ out.old
        ++ served_whole p site.now.cub.0 stamp comeback parts.now line.now) }
{
    if !serves_record(&site.plan, comeback, &line.rec) {
        return Ok(());
    }
    send_whole(site, stamp, Want::of_block(&line.rec), parts, out)
}

/// Whether the own record of a visit is read, and its block sent: its due time matters only to a cub that came back.
pub(crate) fn serves_record(plan: &Plan, comeback: Option<Comeback>, rec: &Rec) -> bool
    requires { IsKey plan.now.params (visit_of rec.now) }
    ensures { result ≡ serves_at comeback (due_of_record plan.now.params rec.now) }
{
    match comeback {
        Some(_) => serves_at(comeback, due_of(plan, rec)),
        None => true,
    }
}

/// Sends a block to the viewers, if its part is stored.
fn send_whole<'a>(
    site: &Site,
    stamp: Stamp,
    want: Want,
    parts: &StoredParts<'a>,
    out: &mut Outbox<Msg<'a>>,
) -> Result<(), NoMemory>
    ensures { OnOk result (out.new ≡ out.old
        ++ sent_whole site.now.plan.params site.now.cub.0 stamp want (stored_for want parts.now)) }
{
    if let Some(part) = parts.part_for(want) {
        let sent = stamp.beat;
        out.push(Out::Send(site.to_viewers(), Msg::Whole { want, sent, part }))?;
    }
    Ok(())
}

/// Drops the backup records that are due.
fn drop_backups<'a>(
    site: &Site,
    stamp: Stamp,
    view: &mut CubView,
    out: &mut Outbox<Msg<'a>>,
) -> Result<(), NoMemory>
    requires reading { stamp.reading ≤ most_reading }
    requires plan { view.old.params ≡ site.now.plan.params }
    ensures view { OnOk result (view.new ≡ record view.old {
      lines = filter (λ x. not (is_past site.now.plan.params stamp x)) view.old.lines;
    }) }
    ensures outs { OnOk result (out.new ≡ out.old
        ++ map dropped (filter (is_past site.now.plan.params stamp) view.old.lines)) }
{
    while let Some(line) = view.take_backup(stamp.reading) {
        out.push(Out::Act(What::Dropped(line.rec)))?;
    }
    Ok(())
}

/// Serves the piece records that leave.
fn serve_pieces<'a>(
    site: &Site,
    stamp: Stamp,
    pieces: &mut PieceView,
    parts: &StoredParts<'a>,
    out: &mut Outbox<Msg<'a>>,
) -> Result<(), NoMemory>
    requires plan { pieces.old.params ≡ site.now.plan.params }
    requires pieces { let p = site.now.plan.params in
        AllByRecursion (IsPieceAt p site.now.cub.0) pieces.old.items }
    ensures pieces { OnOk result (pieces.new
        ≡ pieces_but (leaves_by site.now.plan.params stamp.reading) pieces.old) }
    ensures outs { let p = site.now.plan.params in
        OnOk result (out.new ≡ out.old ++ flat_map (piece_outs p site.now.cub.0 stamp parts.now)
        (filter (leaves_by p stamp.reading) pieces.old.items)) }
{
    while let Some(piece) = take_leaving(&site.plan, pieces, stamp.reading) {
        send_piece(site, stamp, piece, parts, out)?;
    }
    Ok(())
}

/// Sends a piece to the viewers, if its part is stored.
fn send_piece<'a>(
    site: &Site,
    stamp: Stamp,
    piece: PieceState,
    parts: &StoredParts<'a>,
    out: &mut Outbox<Msg<'a>>,
) -> Result<(), NoMemory>
    requires { IsPieceAt site.now.plan.params site.now.cub.0 piece }
    ensures { OnOk result (out.new ≡ out.old
        ++ piece_outs site.now.plan.params site.now.cub.0 stamp parts.now piece) }
{
    let want = Want::of_piece(&piece);
    if let Some(part) = parts.part_for(want) {
        let sent = stamp.beat;
        out.push(Out::Send(site.to_viewers(), Msg::Piece { want, sent, part }))?;
    }
    Ok(())
}
