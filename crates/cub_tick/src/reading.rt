//! Reading: the disks are asked for the blocks and pieces that leave soon, once.
ghost use Rattle.std.specs.Prelude.{◌≡◌, ◌+◌, ◌*◌, ◌<◌, ◌≤◌, ◌++◌, ◌∷◌, [], OnOk, Some, map, filter};
ghost use Rattle.std.specs.List.{AllByRecursion, flat_map};
ghost use Rattle.tiger_base.specs.Limits.{most_reading};
ghost use Rattle.node_kit.specs.Deeds.{Did};
ghost use Rattle.cub_rules.specs.State.{IsStoreOf, IsLineOf, IsPieceAt};
ghost use Rattle.cub_rules.specs.Records.{pieces_but};
ghost use Rattle.slot_plan.specs.Keys.{IsKey};
ghost use Rattle.partial_view.specs.Lines.{key_of};
ghost use Rattle.cub_rules.specs.Ticks.{reading, ask_line, asked_block, ask_outs, asked_of_disk, leaves_by};
ghost use Rattle.cub_tick.specs.Limits.{asks};

use crate::leaving::take_leaving;
use crate::serving::serves_record;
use cub_rules::{Comeback, Store};
use mirror_pieces::piece_disk;
use mirror_schedule::PieceView;
use node_kit::{Out, Outbox, Site};
use partial_view::{CubView, Line};
use tiger_base::{DiskNo, Msg, NoMemory, PieceState, Stamp, Want};

/// Asks the disks for the block of each own record, and then for each piece, that leaves within the
/// read lead and was not asked for yet. The lines are looked at only if a block may be left to ask
/// for; of the pieces none behind the first one that leaves later is looked at, since they stand in
/// the order of their times.
pub fn read<'a>(
    site: &Site,
    stamp: Stamp,
    store: &mut Store<'a>,
    out: &mut Outbox<Msg<'a>>,
) -> Result<(), NoMemory>
    requires reading { stamp.reading ≤ most_reading }
    requires stored { IsStoreOf site.now.plan.params site.now.cub.0 store.old }
    ensures { OnOk result (Did
        (reading site.now.plan.params stamp store.old)
        out.old out.new store.new) }
{
    read_blocks(site, stamp, store.comeback, &mut store.view, out)?;
    read_pieces(site, stamp, &mut store.unasked, out)?;
    Ok(())
}

/// Asks for blocks, if some may be left to ask for.
fn read_blocks<'a>(
    site: &Site,
    stamp: Stamp,
    comeback: Option<Comeback>,
    view: &mut CubView,
    out: &mut Outbox<Msg<'a>>,
) -> Result<(), NoMemory>
    requires reading { stamp.reading ≤ most_reading }
    requires plan { view.old.params ≡ site.now.plan.params }
    requires lines { AllByRecursion (IsLineOf site.now.plan.params site.now.cub.0) view.old.lines }
    ensures view { OnOk result (view.new ≡ record view.old {
      lines = map (ask_line site.now.plan.params stamp) view.old.lines;
    }) }
    ensures outs { OnOk result (out.new ≡ out.old
        ++ flat_map (ask_outs site.now.plan.params stamp comeback) view.old.lines) }
{
    let limit = stamp.reading + site.plan.params.read_lead + 1;
    if view.is_asked_before(limit) {
        return Ok(());
    }
    read_lines(site, stamp, comeback, view, out)?;
    // All that is due before the limit is asked for: later beats look from there on.
    view.set_asked_before(limit);
    Ok(())
}

/// Asks for the blocks of all lines that are due soon enough: each time the first one is taken whose
/// block is still to be asked for.
fn read_lines<'a>(
    site: &Site,
    stamp: Stamp,
    comeback: Option<Comeback>,
    view: &mut CubView,
    out: &mut Outbox<Msg<'a>>,
) -> Result<(), NoMemory>
    requires reading { stamp.reading ≤ most_reading }
    requires plan { view.old.params ≡ site.now.plan.params }
    requires lines { AllByRecursion (IsLineOf site.now.plan.params site.now.cub.0) view.old.lines }
    ensures view { OnOk result (view.new ≡ record view.old {
      lines = map (ask_line site.now.plan.params stamp) view.old.lines;
    }) }
    ensures outs { OnOk result (out.new ≡ out.old
        ++ flat_map (ask_outs site.now.plan.params stamp comeback) view.old.lines) }
{
    let time = stamp.reading + site.plan.params.read_lead;
    while let Some(line) = view.ask_next(time) {
        ask_block(site, comeback, &line, out)?;
    }
    Ok(())
}

/// Asks for the block of a line, if the cub serves the visit.
fn ask_block<'a>(
    site: &Site,
    comeback: Option<Comeback>,
    line: &Line,
    out: &mut Outbox<Msg<'a>>,
) -> Result<(), NoMemory>
    requires key { IsKey site.now.plan.params (key_of line.now) }
    requires begun { line.now.rec.tenancy.first ≤ line.now.rec.visit }
    ensures { OnOk result (out.new
        ≡ out.old ++ asked_block site.now.plan.params comeback line.now) }
{
    if !serves_record(&site.plan, comeback, &line.rec) {
        return Ok(());
    }
    let disk = site.plan.disk_of(line.rec.visit);
    ask(site, disk, Want::of_block(&line.rec), out)
}

/// Asks a disk.
fn ask<'a>(site: &Site, disk: DiskNo, want: Want, out: &mut Outbox<Msg<'a>>) -> Result<(), NoMemory>
    requires { disk.0 < site.now.plan.params.cubs * site.now.plan.params.disks }
    ensures { OnOk result (out.new ≡ out.old ++ asks site.now.plan.params disk.0 want) }
{
    out.push(Out::Send(site.to_disk(disk), Msg::ReadAsk(want)))?;
    Ok(())
}

/// Asks for pieces.
fn read_pieces<'a>(
    site: &Site,
    stamp: Stamp,
    unasked: &mut PieceView,
    out: &mut Outbox<Msg<'a>>,
) -> Result<(), NoMemory>
    requires reading { stamp.reading ≤ most_reading }
    requires plan { unasked.old.params ≡ site.now.plan.params }
    requires pieces { let p = site.now.plan.params in
        AllByRecursion (IsPieceAt p site.now.cub.0) unasked.old.items }
    ensures pieces { let p = site.now.plan.params in let time = stamp.reading + p.read_lead in
        OnOk result (unasked.new ≡ pieces_but (leaves_by p time) unasked.old) }
    ensures outs { let p = site.now.plan.params in let time = stamp.reading + p.read_lead in
        OnOk result (out.new ≡ out.old
        ++ map (asked_of_disk p) (filter (leaves_by p time) unasked.old.items)) }
{
    let time = stamp.reading + site.plan.params.read_lead;
    while let Some(piece) = take_leaving(&site.plan, unasked, time) {
        read_piece(site, piece, out)?;
    }
    Ok(())
}

/// Asks for one piece.
fn read_piece<'a>(site: &Site, piece: PieceState, out: &mut Outbox<Msg<'a>>) -> Result<(), NoMemory>
    requires piece { IsPieceAt site.now.plan.params site.now.cub.0 piece }
    ensures { OnOk result (out.new ≡ out.old ++ asked_of_disk site.now.plan.params piece ∷ []) }
{
    let params = &site.plan.params;
    let disks = (params.cubs * params.disks) as u32;
    let disk = piece_disk(site.plan.disk_of(piece.visit), piece.piece, disks);
    ask(site, disk, Want::of_piece(&piece), out)
}
