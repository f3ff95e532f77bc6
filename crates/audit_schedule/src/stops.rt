//! Whether nothing is done for a viewer later than it may be after the viewer's stop.
ghost use Rattle.std.specs.Prelude.{◌≡◌, ◌↔◌, ◌+◌, ◌-◌, ◌==◌, ℕ, Some, nat_le, IsTrue, OnOk, IfOk, if◌then◌else◌};
ghost use Rattle.slot_plan.specs.Conditions.{longest_way};
ghost use Rattle.slot_plan.specs.Times.{time_of};
ghost use Rattle.node_kit.specs.declared.journal.What.TheVariants as what;
ghost use Rattle.run_model.specs.Moments.{Moment, next_moment};
ghost use Rattle.run_claims.specs.Returns.{NobodyComesBack, BringsNobodyBack, IsSoonAfterStops};
ghost use Rattle.tiger_base.specs.declared.number.LinkNo.{LinkNo};
ghost use Rattle.audit_frame.specs.First.{Decides};
ghost use Rattle.audit_frame.specs.Lines.{noted_line, told_by};
ghost use Rattle.audit_frame.specs.Tables.{mark_under};
ghost use Rattle.audit_schedule.specs.Stops.{TellsStops, earlier};

use audit_frame::{Line, Marks, is_within, line_at};
use node_kit::What;
use slot_plan::Plan;
use std::alloc::Global;
use tiger_base::{Beat, Instance, Micros, NoMemory, Note};

/// The first entry of a log that does something for an instance later than it may after a stop of it; `None` if there is
/// none. Each entry costs the logarithm of the number of instances.
///
/// `NoMemory` is the only error.
pub fn first_return<'a>(
    alloc: Global,
    plan: &Plan,
    log: &[Line<'a>],
) -> Result<Option<usize>, NoMemory>
    ensures { IfOk result (Decides (NobodyComesBack plan.now.params) (told_by log.now)) }
{
    let mut stops = Marks::new(alloc);
    for i in 0..log.len() {
        let line = line_at(log, i);
        if !brings_nobody_back(plan, &stops, &line) {
            return Ok(Some(i));
        }
        take_stop(&mut stops, &line)?;
    }
    Ok(None)
}

/// Whether an entry comes soon enough after the stops so far.
fn brings_nobody_back<'a>(plan: &Plan, stops: &Marks, line: &Line<'a>) -> bool
    ensures { (m : Moment) → TellsStops stops.now m
        → IsTrue result ↔ BringsNobodyBack plan.now.params m line.now.entry.now.stamp.beat
        line.now.entry.now.what }
{
    let beat = line.entry.stamp.beat;
    match line.entry.what {
        What::Put(t) => is_soon(plan, stops, t.instance, way(plan), beat),
        What::Took(r) => is_soon(plan, stops, r.tenancy.instance, plan.params.play, beat),
        What::Sent(_, note) => sends_in_time(plan, stops, beat, &note),
        _ => true,
    }
}

/// Whether what is sent leaves soon enough after the stops so far.
fn sends_in_time(plan: &Plan, stops: &Marks, beat: Beat, note: &Note) -> bool
    ensures { (m : Moment) (link : LinkNo) → TellsStops stops.now m
        → IsTrue result ↔ BringsNobodyBack plan.now.params m beat (what.Sent link note.now) }
{
    match note {
        Note::Whole { want, .. } => is_soon(plan, stops, want.instance, plan.params.play, beat),
        Note::Piece { want, .. } => is_soon(plan, stops, want.instance, plan.params.play, beat),
        _ => true,
    }
}

/// The longest time that a message is under way.
fn way(plan: &Plan) -> Micros
    ensures { result ≡ longest_way plan.now.params }
{
    plan.params.delay * plan.params.beat
}

/// Whether a beat begins within a span after each stop of an instance so far.
fn is_soon(plan: &Plan, stops: &Marks, v: Instance, span: Micros, beat: Beat) -> bool
    ensures { (m : Moment) → TellsStops stops.now m
        → IsTrue result ↔ IsSoonAfterStops plan.now.params m v.0 span beat }
{
    match stops.get(v.0) {
        Some(stop) => is_within(plan, span, beat, stop),
        None => true,
    }
}

/// Takes one more entry.
fn take_stop<'a>(stops: &mut Marks, line: &Line<'a>) -> Result<(), NoMemory>
    ensures { OnOk result ((m : Moment) → TellsStops stops.old m
        → TellsStops stops.new (next_moment m (noted_line line.now))) }
{
    match line.entry.what {
        What::Gone(v) => keep_stop(stops, v, line.entry.stamp.beat),
        _ => Ok(()),
    }
}

/// Keeps the beat of a stop of an instance, unless an earlier one is kept.
fn keep_stop(stops: &mut Marks, v: Instance, beat: Beat) -> Result<(), NoMemory>
    ensures { OnOk result ((n : ℕ) → mark_under n stops.new
        ≡ (if v.0 == n then Some (earlier (mark_under v.0 stops.old) beat) else mark_under n stops.old)) }
{
    let first = earlier(stops.get(v.0), beat);
    stops.set(v.0, first)
}

/// The earlier of two beats, if there are two.
fn earlier(kept: Option<Beat>, beat: Beat) -> Beat
    ensures { result ≡ earlier kept beat }
{
    match kept {
        Some(other) => { if beat < other { beat } else { other } }
        None => beat,
    }
}
