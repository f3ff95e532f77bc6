//! Whether each read that is reported to have failed met a fault of its disk.
ghost use Rattle.std.specs.Prelude.{◌≡◌, ◌↔◌, ◌||◌, ◌&&◌, ◌<◌, IsTrue, List, OnOk, IfOk};
ghost use Rattle.tiger_base.specs.declared.tenancy.Want.{Want};
ghost use Rattle.slot_plan.specs.declared.params.Params.{Params};
ghost use Rattle.node_kit.specs.declared.course.ReadFault.{ReadFault};
ghost use Rattle.run_model.specs.Moments.{Moment, next_moment};
ghost use Rattle.run_claims.specs.Truths.{FailuresAreTrue, IsTrueFailure, disk_with};
ghost use Rattle.audit_frame.specs.First.{Decides};
ghost use Rattle.audit_frame.specs.Lines.{noted_line, told_by};
ghost use Rattle.audit_frame.specs.Wanted.{has_want};
ghost use Rattle.audit_schedule.specs.Failures.{TellsAsks, asks_in_fault, note_in_fault, meets_fault};

use crate::faults::Faults;
use audit_frame::{Line, Wants, line_at};
use node_kit::{ReadFault, What};
use slot_plan::Plan;
use std::alloc::Global;
use tiger_base::{Beat, NoMemory, NodeNo, Note, Want};

/// The first entry of a log that reports a read as failed whose disk did not get the ask before, in a beat in which one of
/// its faults lasts; `None` if there is none. Each entry costs the logarithm of the number of asks, and an ask that a disk
/// gets costs a look at each fault of the disk besides.
///
/// `NoMemory` is the only error.
pub fn first_false_failure<'a>(
    alloc: Global,
    plan: &Plan,
    faults: &[ReadFault],
    log: &[Line<'a>],
) -> Result<Option<usize>, NoMemory>
    ensures { IfOk result (Decides (FailuresAreTrue plan.now.params faults.now) (told_by log.now)) }
{
    let by_disk = Faults::of(alloc, faults)?;
    first_false(alloc, plan, &by_disk, log)
}

/// The same, once the faults stand by disk.
fn first_false<'a, 'f>(
    alloc: Global,
    plan: &Plan,
    faults: &Faults<'f>,
    log: &[Line<'a>],
) -> Result<Option<usize>, NoMemory>
    ensures { IfOk result (Decides (FailuresAreTrue plan.now.params faults.now) (told_by log.now)) }
{
    let mut asks = Wants::new(alloc);
    for i in 0..log.len() {
        let line = line_at(log, i);
        if !is_true_failure(&asks, &line) {
            return Ok(Some(i));
        }
        take_got(plan, faults, &mut asks, &line)?;
    }
    Ok(None)
}

/// Whether an entry reports no read as failed, or one that met a fault.
fn is_true_failure<'a>(asks: &Wants, line: &Line<'a>) -> bool
    ensures { (p : Params) (faults : List ReadFault) (m : Moment) → TellsAsks p faults asks.now m
        → IsTrue result ↔ IsTrueFailure p faults m line.now.entry.now.what }
{
    match line.entry.what {
        What::ReadFailed(want) => asks.has(&want),
        _ => true,
    }
}

/// Takes one more entry.
fn take_got<'a, 'f>(
    plan: &Plan,
    faults: &Faults<'f>,
    asks: &mut Wants,
    line: &Line<'a>,
) -> Result<(), NoMemory>
    ensures { OnOk result ((m : Moment) → TellsAsks plan.now.params faults.now asks.old m
        → TellsAsks plan.now.params faults.now asks.new (next_moment m (noted_line line.now))) }
{
    match line.entry.what {
        What::Got(_, note) => {
            take_note(plan, faults, asks, line.node, line.entry.stamp.beat, &note)
        }
        _ => Ok(()),
    }
}

/// Takes what a node got, if it is an ask that meets a fault of a disk.
fn take_note<'f>(
    plan: &Plan,
    faults: &Faults<'f>,
    asks: &mut Wants,
    node: NodeNo,
    beat: Beat,
    note: &Note,
) -> Result<(), NoMemory>
    ensures { OnOk result ((w : Want) → has_want w asks.new
        ≡ (has_want w asks.old || note_in_fault plan.now.params faults.now node.0 beat note.now w)) }
{
    match note {
        Note::ReadAsk(want) => take_ask(plan, faults, asks, node, beat, want),
        _ => Ok(()),
    }
}

/// Takes an ask that a node got, if that is the disk which has what is wanted, and one of its faults lasts.
fn take_ask<'f>(
    plan: &Plan,
    faults: &Faults<'f>,
    asks: &mut Wants,
    node: NodeNo,
    beat: Beat,
    want: &Want,
) -> Result<(), NoMemory>
    ensures { OnOk result ((w : Want) → has_want w asks.new
        ≡ (has_want w asks.old
        || asks_in_fault plan.now.params faults.now node.0 beat want.now w)) }
{
    if !meets_fault(plan, faults, node, beat, want) {
        return Ok(());
    }
    asks.add(want)
}

/// Whether a node is the disk that has what is wanted, and one of its faults lasts in a beat.
fn meets_fault<'f>(plan: &Plan, faults: &Faults<'f>, node: NodeNo, beat: Beat, want: &Want) -> bool
    ensures { result ≡ meets_fault plan.now.params faults.now node.0 beat want.now }
{
    let disk = disk_with(plan, want);
    node.0 as u64 == plan.params.cubs + disk && faults.some_lasts(disk, beat)
}

/// The number of the disk that has what is wanted.
#[tactic(auto, unfolding(slot_plan::specs::Times::disk_of, mirror_pieces::specs::Pieces::piece_disk))]
fn disk_with(plan: &Plan, want: &Want) -> u64
    ensures value { result ≡ disk_with plan.now.params want.now }
    ensures small { result < 1000 }
{
    let disks = plan.params.cubs * plan.params.disks;
    (want.visit % disks + want.piece as u64) % disks
}
