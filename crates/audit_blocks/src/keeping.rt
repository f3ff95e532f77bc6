//! What an entry of a journal puts into each table.
ghost use Rattle.std.specs.Prelude.{◌≡◌, ℕ, Bool, ◌==◌, ◌||◌, ◌++◌, List, Some, OnOk, if◌then◌else◌};
ghost use Rattle.slot_plan.specs.declared.params.Params.{Params};
ghost use Rattle.run_model.specs.declared.parcels.Parcel.{Parcel};
ghost use Rattle.audit_frame.specs.Lines.{noted_line};
ghost use Rattle.audit_frame.specs.Tables.{mark_under};
ghost use Rattle.audit_blocks.specs.declared.receipts.Receipt.{Receipt};
ghost use Rattle.audit_blocks.specs.Entries.{puts_for, death_of_node, return_of_node, stops_below, fails_reading, fails_at_cub, is_at_cub, is_whole_of};
ghost use Rattle.audit_blocks.specs.Cargo.{whole_for, numbered_for};
ghost use Rattle.audit_blocks.specs.Groups.{group_under};
ghost use Rattle.audit_blocks.specs.Parts.{has_part};
ghost use Rattle.audit_blocks.specs.Receipts.{came_under};
ghost use Rattle.audit_blocks.specs.Dispatches.{has_dispatch};
ghost use Rattle.audit_blocks.specs.Told.{is_stop_below, earlier_stop, TellsCame, is_some_piece, is_cargo, sends_cargo};

use crate::cargo::{Cargo, cargo_sent, is_whole};
use crate::dispatches::Dispatches;
use crate::groups::Groups;
use crate::parts::Parts;
use crate::receipts::Arrivals;
use crate::times::cub_of;
use audit_frame::{Line, Marks};
use node_kit::What;
use slot_plan::Plan;
use std::alloc::Global;
use tiger_base::{Beat, Instance, Micros, NoMemory, NodeNo, Tenancy, Want};

/// Keeps the tenancy of a Put.
pub fn keep_put<'a>(
    alloc: Global,
    puts: &mut Groups<Tenancy>,
    line: &Line<'a>,
) -> Result<(), NoMemory>
    ensures { OnOk result ((v : ℕ) → group_under v puts.new
        ≡ group_under v puts.old ++ puts_for v (noted_line line.now)) }
{
    match line.entry.what {
        What::Put(t) => puts.push(alloc, t.instance.0, t),
        _ => Ok(()),
    }
}

/// Keeps the beat of a death.
pub fn keep_death<'a>(
    alloc: Global,
    deaths: &mut Groups<Beat>,
    line: &Line<'a>,
) -> Result<(), NoMemory>
    ensures { OnOk result ((n : ℕ) → group_under n deaths.new
        ≡ group_under n deaths.old ++ death_of_node n (noted_line line.now)) }
{
    match line.entry.what {
        What::Died => deaths.push(alloc, line.node.0, line.entry.stamp.beat),
        _ => Ok(()),
    }
}

/// Keeps the reading of a return.
pub fn keep_return<'a>(
    alloc: Global,
    returns: &mut Groups<Micros>,
    line: &Line<'a>,
) -> Result<(), NoMemory>
    ensures { OnOk result ((n : ℕ) → group_under n returns.new
        ≡ group_under n returns.old ++ return_of_node n (noted_line line.now)) }
{
    match line.entry.what {
        What::Returned => returns.push(alloc, line.node.0, line.entry.stamp.reading),
        _ => Ok(()),
    }
}

/// Keeps the beat of a stop, unless an earlier one of the instance is kept.
pub fn keep_stop<'a>(stops: &mut Marks, line: &Line<'a>) -> Result<(), NoMemory>
    ensures { OnOk result ((p : Params) (v time : ℕ) → is_stop_below p time (mark_under v stops.new)
        ≡ (is_stop_below p time (mark_under v stops.old) || stops_below p v time (noted_line line.now))) }
{
    match line.entry.what {
        What::Gone(v) => keep_earlier(stops, v, line.entry.stamp.beat),
        _ => Ok(()),
    }
}

/// Keeps the beat of a stop of an instance, unless an earlier one is kept.
fn keep_earlier(stops: &mut Marks, v: Instance, beat: Beat) -> Result<(), NoMemory>
    ensures { OnOk result ((n : ℕ) → mark_under n stops.new
        ≡ (if v.0 == n then Some (earlier_stop (mark_under v.0 stops.old) beat) else mark_under n stops.old)) }
{
    let first = earlier_stop(stops.get(v.0), beat);
    stops.set(v.0, first)
}

/// The earlier of two beats, if there are two.
fn earlier_stop(kept: Option<Beat>, beat: Beat) -> Beat
    ensures { result ≡ earlier_stop kept beat }
{
    match kept {
        Some(other) => { if beat < other { beat } else { other } }
        None => beat,
    }
}

/// Keeps that a read failed.
pub fn keep_failed<'a>(failed: &mut Parts, line: &Line<'a>) -> Result<(), NoMemory>
    ensures { OnOk result ((v n k : ℕ) → has_part v n k failed.new
        ≡ (has_part v n k failed.old || fails_reading v n k (noted_line line.now))) }
{
    match line.entry.what {
        What::ReadFailed(want) => failed.add(want.instance, want.visit, want.piece),
        _ => Ok(()),
    }
}

/// Keeps that the read of a whole block failed at the cub of its visit.
pub fn keep_failed_whole<'a>(
    plan: &Plan,
    failed: &mut Parts,
    line: &Line<'a>,
) -> Result<(), NoMemory>
    ensures { OnOk result ((v n : ℕ) → has_part v n 0 failed.new
        ≡ (has_part v n 0 failed.old || fails_at_cub plan.now.params v n (noted_line line.now))) }
{
    match line.entry.what {
        What::ReadFailed(want) => keep_at_cub(plan, line.node, failed, &want),
        _ => Ok(()),
    }
}

/// Keeps that a read failed at a node, if it is of a whole block and the node is the cub of its visit.
fn keep_at_cub(plan: &Plan, node: NodeNo, failed: &mut Parts, want: &Want) -> Result<(), NoMemory>
    ensures { OnOk result ((v n : ℕ) → has_part v n 0 failed.new
        ≡ (has_part v n 0 failed.old || is_whole_of plan.now.params node.0 v n want.now)) }
{
    if !is_at_cub(plan, node, want) {
        return Ok(());
    }
    failed.add(want.instance, want.visit, 0)
}

/// Whether a whole block is wanted, and a node is the cub of its visit.
fn is_at_cub(plan: &Plan, node: NodeNo, want: &Want) -> bool
    ensures { result ≡ is_at_cub plan.now.params node.0 want.now }
{
    node.0 == cub_of(plan, want.visit) && want.piece == 0
}

/// Keeps what a cub sends of a block, if it does so in the beat that the message names.
pub fn keep_sent<'a>(sent: &mut Dispatches, line: &Line<'a>) -> Result<(), NoMemory>
    ensures { OnOk result ((c : ℕ) (w : Bool) (r : Receipt) → has_dispatch c w r sent.new
        ≡ (has_dispatch c w r sent.old || sends_cargo c w r (noted_line line.now))) }
{
    match cargo_sent(&line.entry.what) {
        Some(cargo) => keep_cargo(sent, line.node, line.entry.stamp.beat, &cargo),
        None => Ok(()),
    }
}

/// Keeps what a node sends in a beat, if that is the beat which the message names.
fn keep_cargo(
    sent: &mut Dispatches,
    node: NodeNo,
    beat: Beat,
    cargo: &Cargo,
) -> Result<(), NoMemory>
    ensures { OnOk result ((c : ℕ) (w : Bool) (r : Receipt) → has_dispatch c w r sent.new
        ≡ (has_dispatch c w r sent.old || is_cargo node.0 beat c w r (Some cargo.now))) }
{
    if !is_in_beat(cargo, beat) {
        return Ok(());
    }
    sent.add(node.0, cargo.whole, &cargo.receipt)
}

/// Whether a message names a beat.
fn is_in_beat(cargo: &Cargo, beat: Beat) -> bool
    ensures { result ≡ (cargo.now.receipt.sent == beat) }
{
    cargo.receipt.sent == beat
}

/// Keeps a whole block that the viewers get, if they get one.
pub fn keep_whole(wholes: &mut Arrivals, got: Option<Cargo>) -> Result<(), NoMemory>
    ensures { OnOk result ((v n : ℕ) (ps : List Parcel) → TellsCame (came_under v n 0 wholes.old) ps
        → TellsCame (came_under v n 0 wholes.new) (ps ++ whole_for v n got)) }
{
    match got {
        Some(cargo) => keep_if_whole(wholes, &cargo),
        None => Ok(()),
    }
}

/// Keeps what the viewers get, if it is a whole block.
fn keep_if_whole(wholes: &mut Arrivals, cargo: &Cargo) -> Result<(), NoMemory>
    ensures { OnOk result ((v n : ℕ) (ps : List Parcel) → TellsCame (came_under v n 0 wholes.old) ps
        → TellsCame (came_under v n 0 wholes.new) (ps ++ whole_for v n (Some cargo.now))) }
{
    if !is_whole(cargo) {
        return Ok(());
    }
    wholes.add(0, cargo.receipt)
}

/// Keeps a piece that the viewers get, if they get one.
pub fn keep_piece(pieces: &mut Arrivals, got: Option<Cargo>) -> Result<(), NoMemory>
    ensures { OnOk result ((v n k : ℕ) (ps : List Parcel) → TellsCame (came_under v n k pieces.old) ps
        → TellsCame (came_under v n k pieces.new) (ps ++ numbered_for v n k got)) }
{
    match got {
        Some(cargo) => keep_if_piece(pieces, &cargo),
        None => Ok(()),
    }
}

/// Keeps what the viewers get, if it is a piece.
fn keep_if_piece(pieces: &mut Arrivals, cargo: &Cargo) -> Result<(), NoMemory>
    ensures { OnOk result ((v n k : ℕ) (ps : List Parcel) → TellsCame (came_under v n k pieces.old) ps
        → TellsCame (came_under v n k pieces.new) (ps ++ numbered_for v n k (Some cargo.now))) }
{
    if is_whole(cargo) {
        return Ok(());
    }
    pieces.add(cargo.receipt.want.piece, cargo.receipt)
}

/// Keeps of which visit the viewers get a piece, if they get one.
pub fn keep_visit(visits: &mut Parts, got: Option<Cargo>) -> Result<(), NoMemory>
    ensures { OnOk result ((v n : ℕ) → has_part v n 0 visits.new
        ≡ (has_part v n 0 visits.old || is_some_piece v n got)) }
{
    match got {
        Some(cargo) => keep_if_visited(visits, &cargo),
        None => Ok(()),
    }
}

/// Keeps of which visit the viewers get something, if it is a piece.
fn keep_if_visited(visits: &mut Parts, cargo: &Cargo) -> Result<(), NoMemory>
    ensures { OnOk result ((v n : ℕ) → has_part v n 0 visits.new
        ≡ (has_part v n 0 visits.old || is_some_piece v n (Some cargo.now))) }
{
    if is_whole(cargo) {
        return Ok(());
    }
    visits.add(cargo.receipt.want.instance, cargo.receipt.want.visit, 0)
}
