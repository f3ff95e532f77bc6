//! Whether all entries were written at their times.
ghost use Rattle.std.specs.Prelude.{◌≡◌, ◌↔◌, ◌<◌, IsTrue, nat_lt};
ghost use Rattle.std.specs.List.{list_all};
ghost use Rattle.node_kit.specs.Life.{of_cub, death_of, cut_of, back_of, lifetime_of};
ghost use Rattle.run_facts.specs.Timed.{death_within};
ghost use Rattle.run_model.specs.Runs.{IsTimedRun};
ghost use Rattle.run_model.specs.Tests.{is_timed_run, each_from, all_below, timed_in, one_lives, is_read, rises_from, never_dies, dies_as, is_until, stands_later, is_later, ends_in_death, is_in_beat, may_follow, returns_in};

use crate::missing::{is_died, is_returned};
use crate::times::time_of;
use node_kit::{Course, Entry, Kept};
use slot_plan::Plan;
use tiger_base::{Beat, Sequence, Stamp};

/// Whether each entry was written in a beat of the run and at a reading within the skew, no reading and
/// no beat falls along a journal, each death and each return is that of the course, and no two cubs side by
/// side die. It takes no memory.
pub fn timed(k: &Kept) -> bool
    ensures { IsTrue result ↔ IsTimedRun k.now }
{
    is_timed_run(k)
}

fn is_timed_run(k: &Kept) -> bool
    ensures { result ≡ is_timed_run k.now }
{
    all_timed(k) && (die_apart(&k.course) && all_return(k))
}

fn all_timed(k: &Kept) -> bool
    ensures { result ≡ each_from (timed_in k.now.course) 0 k.now.journals }
{
    let mut n = 0;
    for journal in k.journals.as_slice() {
        if !is_timed(&k.course, n, journal.as_slice()) {
            return false;
        }
        n += 1;
    }
    true
}

#[tactic(auto, unfolding(crate::specs::Tests::is_timed))]
fn is_timed(course: &Course, n: u64, journal: &[Entry]) -> bool
    ensures { result ≡ timed_in course.now n journal.now }
{
    all_read(&course.plan, journal)
        && rises(journal)
        && all_early(course.beats, journal)
        && dies_as(course, n, journal)
}

fn all_read(plan: &Plan, journal: &[Entry]) -> bool
    ensures { result ≡ list_all (is_read plan.now.params) journal.now }
{
    journal.iter().all(|e| is_read(plan, e))
}

/// Whether a reading is the true time of its beat or later, by the skew at most.
fn is_read(plan: &Plan, e: &Entry) -> bool
    ensures { result ≡ is_read plan.now.params e.now }
{
    let time = time_of(plan, e.stamp.beat);
    let reading = e.stamp.reading as u128;
    time <= reading && reading <= time + plan.params.skew as u128
}

/// Whether neither a beat nor a reading falls along a journal.
fn rises(journal: &[Entry]) -> bool
    ensures { result ≡ rises_from (record { beat = 0; reading = 0 }) journal.now }
{
    let mut last = Stamp {
        beat: 0,
        reading: 0,
    };
    for e in journal {
        if e.stamp.beat < last.beat || e.stamp.reading < last.reading {
            return false;
        }
        last = e.stamp;
    }
    true
}

fn all_early(beats: u64, journal: &[Entry]) -> bool
    ensures { result ≡ list_all (λ e. nat_lt e.stamp.beat beats) journal.now }
{
    journal.iter().all(|e| e.stamp.beat < beats)
}

/// The beat in which a node dies, if it is a cub that does.
pub fn death_of(course: &Course, n: u64) -> Option<Beat>
    ensures { result ≡ death_of course.now n }
{
    of_cub(course, &course.deaths, n)
}

/// How many messages a node may still send in the beat of its death, if its death cuts it off there.
pub fn cut_of(course: &Course, n: u64) -> Option<u64>
    ensures { result ≡ cut_of course.now n }
{
    of_cub(course, &course.cuts, n)
}

/// The beat in which a node returns, if it is a cub that does.
pub fn back_of(course: &Course, n: u64) -> Option<Beat>
    ensures { result ≡ back_of course.now n }
{
    of_cub(course, &course.backs, n)
}

/// What a course has for a node in a row with one element for each cub.
fn of_cub(course: &Course, row: &Sequence<Option<u64>>, n: u64) -> Option<u64>
    ensures { result ≡ of_cub course.now row.now n }
{
    if course.plan.params.cubs <= n {
        return None;
    }
    match row.get(n as usize) {
        Some(value) => *value,
        None => None,
    }
}

/// The death, if the run comes to its beat.
fn death_within(beats: u64, death: Option<Beat>) -> Option<Beat>
    ensures { result ≡ death_within beats death }
{
    match death {
        Some(beat) if beat < beats => Some(beat),
        _ => None,
    }
}

/// What is asked of a journal with a death: the beat of the death; whether it cuts the node off; and the beat of
/// the return.
#[derive(Clone, Copy)]
struct End {
    death: Beat,
    left: Option<u64>,
    back: Option<Beat>,
}

/// Whether a death stands in a node's journal exactly if it has one.
fn dies_as(course: &Course, n: u64, journal: &[Entry]) -> bool
    ensures { result ≡ dies_as (lifetime_of course.now n) (death_within course.now.beats (death_of course.now n)) journal.now }
{
    match death_within(course.beats, death_of(course, n)) {
        Some(death) => {
            let end = End {
                death,
                left: cut_of(course, n),
                back: back_of(course, n),
            };
            ends_in_death(&end, journal)
        }
        None => never_dies(journal),
    }
}

fn never_dies(journal: &[Entry]) -> bool
    ensures { result ≡ never_dies journal.now }
{
    journal.iter().all(|e| !is_died(&e.what))
}

/// Whether a death stands in its beat of a journal, once, and what stands before it and behind it may stand
/// there.
fn ends_in_death(end: &End, journal: &[Entry]) -> bool
    ensures { result ≡ ends_in_death end.now journal.now }
{
    for i in 0..journal.len() {
        let e = &journal[i];
        if is_died(&e.what) {
            return e.stamp.beat == end.death && is_later(end.back, &journal[i + 1..]);
        }
        if !is_until(end, e.stamp.beat) {
            return false;
        }
    }
    false
}

/// Whether an entry of a beat may stand before the death: it is of a lower beat, or of that beat if the death
/// cuts the node off.
fn is_until(end: &End, beat: Beat) -> bool
    ensures { result ≡ is_until end.now.left end.now.death beat }
{
    match end.left {
        Some(_) => beat <= end.death,
        None => beat < end.death,
    }
}

fn all_later(back: Beat, journal: &[Entry]) -> bool
    ensures { result ≡ list_all (stands_later back) journal.now }
{
    journal.iter().all(|e| stands_later(back, e))
}

/// Whether an entry may stand behind a death: it is of a beat from that of the return on, and is no death.
fn stands_later(back: Beat, e: &Entry) -> bool
    ensures { result ≡ stands_later back e.now }
{
    !is_died(&e.what) && back <= e.stamp.beat
}

/// Whether entries may stand behind a death: there is none, or all are from the return on and none is a death.
fn is_later(back: Option<Beat>, journal: &[Entry]) -> bool
    ensures { result ≡ is_later back journal.now }
{
    match back {
        Some(back) => all_later(back, journal),
        None => journal.is_empty(),
    }
}

/// Whether of two cubs that stand side by side at most one has a death.
fn die_apart(course: &Course) -> bool
    ensures { result ≡ all_below (one_lives course.now) course.now.plan.params.cubs }
{
    let cubs = course.plan.params.cubs;
    for n in 0..cubs {
        if !one_lives(course, n) {
            return false;
        }
    }
    true
}

fn one_lives(course: &Course, n: u64) -> bool
    requires { n < course.now.plan.params.cubs }
    ensures { result ≡ one_lives course.now n }
{
    let next = (n + 1) % course.plan.params.cubs;
    !(death_of(course, n).is_some() && death_of(course, next).is_some())
}

fn all_return(k: &Kept) -> bool
    ensures { result ≡ each_from (returns_in k.now.course) 0 k.now.journals }
{
    let mut n = 0;
    for journal in k.journals.as_slice() {
        if !tells_return(&k.course, n, journal.as_slice()) {
            return false;
        }
        n += 1;
    }
    true
}

/// Whether Returned is exactly the entry behind Died, in the beat of the return, and Died is the last entry
/// only if no return is within the run.
fn tells_return(course: &Course, n: u64, journal: &[Entry]) -> bool
    ensures { result ≡ returns_in course.now n journal.now }
{
    let back = back_of(course, n);
    let mut died = false;
    for e in journal {
        if !may_follow(died, back, e) {
            return false;
        }
        died = is_died(&e.what);
    }
    !(died && death_within(course.beats, back).is_some())
}

/// Whether an entry may stand behind one that is a death, or is none: it is the return, or is none.
fn may_follow(died: bool, back: Option<Beat>, e: &Entry) -> bool
    ensures { result ≡ may_follow died back e.now }
{
    if is_returned(&e.what) {
        died && is_in_beat(back, e.stamp.beat)
    } else {
        !died
    }
}

/// Whether a return, if there is one, is in a beat.
fn is_in_beat(back: Option<Beat>, beat: Beat) -> bool
    ensures { result ≡ is_in_beat back beat }
{
    match back {
        Some(back) => back == beat,
        None => false,
    }
}
