//! What such a cub adds at its tick: the visits of its dead disks are split into mirror pieces, and split visits forgotten.
ghost use Rattle.std.specs.Prelude.{◌≡◌, ◌≤◌, ◌^◌, ◌++◌, OnOk, IfSome, map};
ghost use Rattle.std.specs.List.{range_with_len, list_any};
ghost use Rattle.tiger_base.specs.Limits.{most_reading};
ghost use Rattle.slot_plan.specs.Keys.{IsKey};
ghost use Rattle.partial_view.specs.Lines.{key_of, visit_of};
ghost use Rattle.cub_rules.specs.Records.{pieces_but};
ghost use Rattle.cub_rules.specs.Ticks.{leaves_by};
ghost use Rattle.cub_tick.specs.Leavings.{first_leaving, but_first_leaving};
ghost use Rattle.mirror_schedule.specs.Pieces.{IsPieces};
ghost use Rattle.node_kit.specs.Deeds.{Did, each_in_turn};
ghost use Rattle.disk_death.specs.Spares.{is_dead_from, is_on_dead, soonest_split, must_split_own};
ghost use Rattle.disk_death.specs.Spares.{sent_to_mirror, splitting_own, splitting_line, sparing, is_forgotten_at};

use mirror_schedule::PieceView;
use node_kit::{Out, Outbox, Site};
use partial_view::{Line, View};
use slot_plan::Plan;
use tiger_base::{Beat, Micros, Msg, NoMemory, PieceState, Rec, Stamp, Visit};

/// Forgets the split visits whose time has come, and then splits the visit of each own record on a dead disk that is due
/// late enough, unless it was split.
#[tactic(auto, unfolding(crate::specs::Spares::sparing))]
pub(crate) fn spare<'a>(
    site: &Site,
    stamp: Stamp,
    deaths: &[Option<Beat>],
    view: &View,
    remembered: &mut PieceView,
    out: &mut Outbox<Msg<'a>>,
) -> Result<(), NoMemory>
    requires reading { stamp.reading ≤ most_reading }
    requires view { view.now.params ≡ site.now.plan.params }
    requires remembered { remembered.old.params ≡ site.now.plan.params }
    ensures { OnOk result (Did (sparing site.now.plan.params site.now.cub.0 deaths.now stamp
        view.now.lines remembered.old) out.old out.new remembered.new) }
{
    forget(&site.plan, stamp.reading, remembered);
    if is_any_dead(deaths, stamp.beat) {
        split_lines(site, stamp, deaths, view, remembered, out)
    } else {
        Ok(())
    }
}

/// Forgets the split visits whose time has come at a reading.
fn forget(plan: &Plan, reading: Micros, remembered: &mut PieceView)
    requires { remembered.old.params ≡ plan.now.params }
    ensures { remembered.new ≡ pieces_but (is_forgotten_at plan.now.params reading) remembered.old }
{
    // Before a block play time has passed nothing can have left a block play time ago.
    if plan.params.play <= reading {
        drop_leaving(plan, reading - plan.params.play, remembered);
    }
}

/// Takes out all pieces that leave by a time.
fn drop_leaving(plan: &Plan, time: Micros, pieces: &mut PieceView)
    requires { pieces.old.params ≡ plan.now.params }
    ensures { pieces.new ≡ pieces_but (leaves_by plan.now.params time) pieces.old }
{
    while take_leaving(plan, time, pieces).is_some() {}
}

/// Takes out the first piece if it leaves by a time; the answer is `None` exactly if there is none that does.
fn take_leaving(plan: &Plan, time: Micros, pieces: &mut PieceView) -> Option<PieceState>
    requires { pieces.old.params ≡ plan.now.params }
    ensures first { result ≡ first_leaving plan.now.params time pieces.old.items }
    ensures left { pieces.new ≡ record pieces.old {
      items = but_first_leaving plan.now.params time pieces.old.items;
    } }
    ensures order { IsPieces plan.now.params pieces.old.items }
{
    pieces.take_by(time)
}

/// Goes through all lines in their order.
fn split_lines<'a>(
    site: &Site,
    stamp: Stamp,
    deaths: &[Option<Beat>],
    view: &View,
    remembered: &mut PieceView,
    out: &mut Outbox<Msg<'a>>,
) -> Result<(), NoMemory>
    requires reading { stamp.reading ≤ most_reading }
    requires view { view.now.params ≡ site.now.plan.params }
    requires remembered { remembered.old.params ≡ site.now.plan.params }
    ensures { let split = splitting_line site.now.plan.params site.now.cub.0 deaths.now stamp in
        OnOk result (Did (each_in_turn split view.now.lines remembered.old)
        out.old out.new remembered.new) }
{
    let mut last = None;
    while let Some(line) = view.after(last) {
        split_line(site, stamp, deaths, line, remembered, out)?;
        last = Some(line.key());
    }
    Ok(())
}

/// Whether any of these disks is dead in a beat.
fn is_any_dead(deaths: &[Option<Beat>], beat: Beat) -> bool
    ensures { result ≡ list_any (λ death. is_dead_from death beat) deaths.now }
{
    deaths.iter().any(|death| is_dead_from(*death, beat))
}

fn is_dead_from(death: Option<Beat>, beat: Beat) -> bool
    ensures { result ≡ is_dead_from death beat }
{
    match death {
        Some(from) => from <= beat,
        None => false,
    }
}

/// Splits the visit of a line whose turn it is.
#[tactic(auto, unfolding(crate::specs::Spares::splitting_line))]
fn split_line<'a>(
    site: &Site,
    stamp: Stamp,
    deaths: &[Option<Beat>],
    line: Line,
    remembered: &mut PieceView,
    out: &mut Outbox<Msg<'a>>,
) -> Result<(), NoMemory>
    requires reading { stamp.reading ≤ most_reading }
    requires key { IsKey site.now.plan.params (key_of line) }
    requires remembered { remembered.old.params ≡ site.now.plan.params }
    ensures { OnOk result (Did (splitting_line site.now.plan.params site.now.cub.0 deaths.now stamp
        line remembered.old) out.old out.new remembered.new) }
{
    if must_split_own(&site.plan, deaths, stamp, line) {
        split_own(site, line.rec, remembered, out)
    } else {
        Ok(())
    }
}

/// Whether a line is an own record of a visit on a dead disk, which is due late enough to be split.
#[tactic(auto, unfolding(crate::specs::Spares::must_split_own))]
fn must_split_own(plan: &Plan, deaths: &[Option<Beat>], stamp: Stamp, line: Line) -> bool
    requires reading { stamp.reading ≤ most_reading }
    requires key { IsKey plan.now.params (key_of line) }
    ensures { result ≡ must_split_own plan.now.params deaths.now stamp line }
{
    is_on_dead(plan, deaths, line.rec.visit, stamp.beat)
        && line.rec.kind.is_own()
        && soonest_split(plan, stamp.reading) <= plan.due(line.rec.tenancy.slot, line.rec.visit)
}

/// Whether the disk of a visit is dead in a beat.
fn is_on_dead(plan: &Plan, deaths: &[Option<Beat>], visit: Visit, beat: Beat) -> bool
    requires { visit ≤ 2 ^ 32 }
    ensures { result ≡ is_on_dead plan.now.params deaths.now visit beat }
{
    let row = u64::from(plan.disk_of(visit).0) / plan.params.cubs;
    match deaths.get(row as usize) {
        Some(death) => is_dead_from(*death, beat),
        None => false,
    }
}

/// The time from which on visits are due late enough to be split at a reading.
#[tactic(auto, unfolding(crate::specs::Spares::soonest_split))]
fn soonest_split(plan: &Plan, reading: Micros) -> Micros
    requires { reading ≤ most_reading }
    ensures { result ≡ soonest_split plan.now.params reading }
{
    let params = plan.params();
    let way = params.delay * params.beat;
    reading + params.read_lead + params.skew + way + params.beat
}

/// Splits a visit, unless it was split and is remembered.
#[tactic(auto, unfolding(crate::specs::Spares::splitting_own))]
fn split_own<'a>(
    site: &Site,
    rec: Rec,
    remembered: &mut PieceView,
    out: &mut Outbox<Msg<'a>>,
) -> Result<(), NoMemory>
    requires key { IsKey site.now.plan.params (visit_of rec) }
    requires remembered { remembered.old.params ≡ site.now.plan.params }
    ensures { OnOk result (Did (splitting_own site.now.plan.params site.now.cub.0 rec remembered.old)
        out.old out.new remembered.new) }
{
    let first = PieceState {
        tenancy: rec.tenancy,
        visit: rec.visit,
        piece: 1,
    };
    remembered.are_in_order();
    if remembered.add(first)? {
        send_pieces(site, rec, out)?;
    }
    Ok(())
}

/// Sends the mirror states of all pieces of a visit.
fn send_pieces<'a>(site: &Site, rec: Rec, out: &mut Outbox<Msg<'a>>) -> Result<(), NoMemory>
    ensures { OnOk result (out.new ≡ out.old
        ++ map (sent_to_mirror site.now.plan.params site.now.cub.0 rec)
        (range_with_len 1 site.now.plan.params.pieces)) }
{
    for k in 1..site.plan.params.pieces + 1 {
        let piece = PieceState {
            tenancy: rec.tenancy,
            visit: rec.visit,
            piece: k as u32,
        };
        out.push(Out::Send(site.ahead(k), Msg::MirrorState(piece)))?;
    }
    Ok(())
}
