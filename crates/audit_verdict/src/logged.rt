//! Places of a log as places of journals.
ghost use Rattle.std.specs.Prelude.{◌≡◌, ◌+◌, ◌<◌, ◌==◌, length, if◌then◌else◌};
ghost use Rattle.node_kit.specs.declared.course.Kept.{Kept};
ghost use Rattle.run_model.specs.Runs.{IsTimedRun, order_in};
ghost use Rattle.audit_frame.specs.Lines.{told_by};
ghost use Rattle.audit_verdict.specs.Places.{IsLastLogged, IsLoggedEntry};
ghost use Rattle.audit_verdict.specs.Verdicts.{IsInside, IsLoggedAnswer, IsTickAnswer, IsTickInside, count_before};

use crate::place::{EntryPlace, Place};
use audit_frame::{Line, line_at};
use audit_waits::PassedOver;
use tiger_base::NodeNo;

/// An answer by a place of the log, as a place of the run.
pub(crate) fn logged<'a>(log: &[Line<'a>], found: Option<usize>) -> Option<Place>
    requires { IsInside (length log.now) found }
    ensures { (k : Kept) → told_by log.now ≡ order_in k → IsTimedRun k → IsLoggedAnswer k found result }
{
    match found {
        Some(i) => Some(Place::Entry(entry_in(log, i))),
        None => None,
    }
}

/// An answer by a tick, as a place of the run.
pub(crate) fn tick_in<'a>(log: &[Line<'a>], found: Option<PassedOver>) -> Option<Place>
    requires { IsTickInside (length log.now) found }
    ensures { (k : Kept) → told_by log.now ≡ order_in k → IsTimedRun k → IsTickAnswer k found result }
{
    match found {
        Some(tick) => {
            let last = last_in(log, tick.place);
            Some(Place::Tick {
                cub: tick.cub,
                beat: tick.beat,
                last,
            })
        }
        None => None,
    }
}

/// The entry at a place of the log, if there is one.
fn last_in<'a>(log: &[Line<'a>], place: Option<usize>) -> Option<EntryPlace>
    requires { IsInside (length log.now) place }
    ensures { (k : Kept) → told_by log.now ≡ order_in k → IsTimedRun k → IsLastLogged k place result }
{
    match place {
        Some(i) => Some(entry_in(log, i)),
        None => None,
    }
}

/// The entry at a place of the log.
fn entry_in<'a>(log: &[Line<'a>], i: usize) -> EntryPlace
    requires { i < length log.now }
    ensures { (k : Kept) → told_by log.now ≡ order_in k → IsTimedRun k → IsLoggedEntry k i result }
{
    let line = line_at(log, i);
    let place = count_before(log, line.node, i);
    EntryPlace {
        node: line.node,
        place,
    }
}

/// How many of the lines before a place are of a node.
fn count_before<'a>(log: &[Line<'a>], node: NodeNo, i: usize) -> usize
    requires { i < length log.now }
    ensures { result ≡ count_before log.now node.0 i }
{
    let mut count = 0;
    for j in 0..i {
        count = with_line(count, &line_at(log, j), node, j + 1);
    }
    count
}

/// A count with one line more, if it is of a node; before the next line the count is that of the lines at most.
fn with_line<'a>(count: usize, line: &Line<'a>, node: NodeNo, next: usize) -> usize
    requires { count < next }
    ensures { result ≡ (if line.now.node.0 == node.0 then count + 1 else count) }
{
    if line.node.0 == node.0 {
        count + 1
    } else {
        count
    }
}
