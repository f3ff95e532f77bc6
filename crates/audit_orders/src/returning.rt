//! Whether each journal of a kept run tells its node's return, and at which entry one does not.
ghost use Rattle.std.specs.Prelude.{◌≡◌, ◌+◌, ◌<◌, ◌≤◌, ◌&&◌, is_some, MatchOption, length};
ghost use Rattle.node_kit.specs.Life.{back_of};
ghost use Rattle.run_facts.specs.Timed.{death_within, is_returned};
ghost use Rattle.run_model.specs.Runs.{TellsReturn};
ghost use Rattle.run_model.specs.Tests.{is_in_beat, may_follow};
ghost use Rattle.audit_orders.specs.Returning.{IsUntoldAt, TellReturns, TellsReturnIn};
ghost use Rattle.audit_orders.specs.Timing.{IsReturnAt};

use crate::entries::entry_at;
use crate::timing::{Untimed, death_within, is_died, of_cub};
use node_kit::{Course, Entry, Journal, What};
use tiger_base::{Beat, NodeNo};

/// The first journal that does not tell its node's return, and the entry at which it does not.
pub(crate) fn first_untold(course: &Course, journals: &[Journal]) -> Option<Untimed>
    requires { length journals.now ≤ 1000 }
    ensures { MatchOption result (TellReturns course.now journals.now)
        (IsReturnAt course.now journals.now) }
{
    for (n, journal) in journals.iter().enumerate() {
        let node = NodeNo(n as u32);
        if let Some(place) = untold_in(course, node, journal.as_slice()) {
            return Some(Untimed::Return { node, place });
        }
    }
    None
}

/// The entry at which a node's journal does not tell its return.
fn untold_in(course: &Course, node: NodeNo, journal: &[Entry]) -> Option<usize>
    ensures { MatchOption result (TellsReturnIn course.now node.0 journal.now)
        (IsUntoldAt course.now.beats (back_of course.now node.0) journal.now) }
{
    let back = of_cub(course, &course.backs, node);
    untold_by(course.beats, back, journal)
}

/// The entry at which a journal does not tell a return, if this is its node's.
fn untold_by(beats: Beat, back: Option<Beat>, journal: &[Entry]) -> Option<usize>
    ensures { MatchOption result (TellsReturn beats back journal.now)
        (IsUntoldAt beats back journal.now) }
{
    let mut died = false;
    for i in 0..journal.len() {
        let e = entry_at(journal, i);
        if !may_follow(died, back, &e) {
            return Some(i);
        }
        died = is_died(&e.what);
    }
    if is_missing(beats, back, died) {
        return Some(last_of(journal.len()));
    }
    None
}

/// Whether an entry may stand behind one that is a death, or is none: it is the return, or is none.
fn may_follow(died: bool, back: Option<Beat>, e: &Entry) -> bool
    ensures { result ≡ may_follow died back e.now }
{
    if is_returned(&e.what) {
        died && is_in_beat(back, e.stamp.beat)
    } else {
        !died
    }
}

/// Whether a return, if there is one, is in a beat.
fn is_in_beat(back: Option<Beat>, beat: Beat) -> bool
    ensures { result ≡ is_in_beat back beat }
{
    match back {
        Some(back) => back == beat,
        None => false,
    }
}

fn is_returned(what: &What) -> bool
    ensures { result ≡ is_returned what.now }
{
    matches!(what, What::Returned)
}

/// Whether the return is missing, if the last entry is a death, or is none: the run comes to its beat.
fn is_missing(beats: Beat, back: Option<Beat>, died: bool) -> bool
    ensures { result ≡ (died && is_some (death_within beats back)) }
{
    died && death_within(beats, back).is_some()
}

/// The last place of a journal with so many entries.
fn last_of(count: usize) -> usize
    requires { 0 < count }
    ensures { count ≡ result + 1 }
{
    count - 1
}
