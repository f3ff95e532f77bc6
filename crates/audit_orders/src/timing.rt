//! Whether each entry of a kept run was written at its time and each return is told, and where a run is not timed.
ghost use Rattle.std.specs.Prelude.{◌≡◌, ◌^◌, ◌<◌, ◌≤◌, Some, None, true, false, is_some, MatchOption, length};
ghost use Rattle.slot_plan.specs.Times.{time_of};
ghost use Rattle.node_kit.specs.Life.{of_cub, death_of, lifetime_of};
ghost use Rattle.run_facts.specs.Timed.{IsTimed, DieApart, is_died, death_within};
ghost use Rattle.run_model.specs.Tests.{is_read, is_until, stands_later};
ghost use Rattle.audit_orders.specs.Breaches.{DecidesList};
ghost use Rattle.audit_orders.specs.declared.flaw.Flaw.TheVariants as flaw;
ghost use Rattle.audit_orders.specs.Timing.{DecidesTimed, IsUntimedAt, IsPairAt, IsTimedIn, AreTimedIn, IsFirstPair, life_of_term, term_of, nothing_yet, next_so_far, is_behind, comes_to, may_stand, may_come, may_end, both_die};

use crate::entries::entry_at;
use crate::flaw::Flaw;
use crate::returning::first_untold;
use node_kit::{Course, Entry, Journal, Kept, What};
use slot_plan::Plan;
use tiger_base::{Beat, CubNo, NodeNo, Sequence, Stamp};

/// Where a kept run is not timed.
#[derive(Clone, Copy, Debug, PartialEq, Eq)]
pub enum Untimed {
    /// The journal of a node, where all journals of lower nodes are timed; what is missing is the node's death.
    Journal { node: NodeNo, flaw: Flaw },
    /// A cub that has a death, as the next one in the ring has, where all journals are timed.
    Neighbours { cub: CubNo },
    /// The entry at which the journal of a node does not tell its return, where all journals are timed, no two cubs side
    /// by side die and all journals of lower nodes tell theirs: it may not stand behind the entry before it, or it is a
    /// death behind which the return is missing.
    Return { node: NodeNo, place: usize },
}

/// When a node dies in a course, whether its death cuts it off, and when it returns.
#[derive(Clone, Copy)]
struct Term {
    death: Option<Beat>,
    left: Option<u64>,
    back: Option<Beat>,
}

/// What is known of a journal so far: the stamp of the last entry, and whether a death was written.
#[derive(Clone, Copy)]
struct SoFar {
    last: Stamp,
    died: bool,
}

/// Where a kept run is not timed, first by node; `None` if it is timed. It takes no memory, and looks at each entry twice.
pub fn first_untimed(k: &Kept) -> Option<Untimed>
    requires { length k.now.journals ≤ 1000 }
    ensures { DecidesTimed k.now result }
{
    match first_flaw(&k.course, k.journals.as_slice()) {
        Some(found) => Some(found),
        None => pair_or_return(k),
    }
}

/// Where a run is not timed whose journals are: where two cubs side by side die, and else where a return is not told.
fn pair_or_return(k: &Kept) -> Option<Untimed>
    requires { length k.now.journals ≤ 1000 }
    ensures { AreTimedIn k.now.course k.now.journals → DecidesTimed k.now result }
{
    match pair_found(&k.course) {
        Some(found) => Some(found),
        None => first_untold(&k.course, k.journals.as_slice()),
    }
}

/// The first journal that is not timed, and its flaw.
fn first_flaw(course: &Course, journals: &[Journal]) -> Option<Untimed>
    requires { length journals.now ≤ 1000 }
    ensures { MatchOption result (AreTimedIn course.now journals.now)
        (IsUntimedAt course.now journals.now) }
{
    for (n, journal) in journals.iter().enumerate() {
        let node = NodeNo(n as u32);
        if let Some(flaw) = flaw_of(course, node, journal.as_slice()) {
            return Some(Untimed::Journal { node, flaw });
        }
    }
    None
}

/// What of a node's journal is not timed.
fn flaw_of(course: &Course, node: NodeNo, journal: &[Entry]) -> Option<Flaw>
    ensures { DecidesList (IsTimedIn course.now node.0) journal.now result }
{
    let term = term_of(course, node);
    flaw_by(&course.plan, course.beats, &term, journal)
}

/// When a node of a course dies and returns.
fn term_of(course: &Course, node: NodeNo) -> Term
    ensures { result ≡ term_of course.now node.0 }
{
    Term {
        death: of_cub(course, &course.deaths, node),
        left: of_cub(course, &course.cuts, node),
        back: of_cub(course, &course.backs, node),
    }
}

/// What a course has for a node in a row with one element for each cub.
pub(crate) fn of_cub(course: &Course, row: &Sequence<Option<u64>>, node: NodeNo) -> Option<u64>
    ensures { result ≡ of_cub course.now row.now node.0 }
{
    if course.plan.params.cubs <= node.0 as u64 {
        return None;
    }
    match row.get(node.0 as usize) {
        Some(value) => *value,
        None => None,
    }
}

/// What of a journal is not timed, if the node's death and return are these.
fn flaw_by(plan: &Plan, beats: Beat, term: &Term, journal: &[Entry]) -> Option<Flaw>
    ensures { DecidesList (IsTimed plan.now.params beats (life_of_term term.now)) journal.now result }
{
    let mut so_far = SoFar::new();
    for i in 0..journal.len() {
        let e = entry_at(journal, i);
        if !may_come(plan, beats, term, &so_far, &e) {
            return Some(Flaw::Entry(i));
        }
        so_far = so_far.with(&e);
    }
    missing_death(beats, term, &so_far)
}

impl SoFar {
    /// Nothing is written yet.
    fn new() -> SoFar
        ensures { result ≡ nothing_yet }
    {
        SoFar {
            last: Stamp {
                beat: 0,
                reading: 0,
            },
            died: false,
        }
    }

    /// What is known with one more entry.
    fn with(&self, e: &Entry) -> SoFar
        ensures { result ≡ next_so_far self.now e.now }
    {
        SoFar {
            last: e.stamp,
            died: self.died || is_died(&e.what),
        }
    }
}

/// Whether an entry may come next in a journal.
#[tactic(auto, unfolding(crate::specs::Timing::may_come))]
fn may_come(plan: &Plan, beats: Beat, term: &Term, so_far: &SoFar, e: &Entry) -> bool
    ensures { result ≡ may_come plan.now.params beats term.now so_far.now e.now }
{
    is_read(plan, e)
        && so_far.last.beat <= e.stamp.beat
        && so_far.last.reading <= e.stamp.reading
        && e.stamp.beat < beats
        && stands(beats, term, so_far.died, e)
}

/// Whether a reading is the true time of its beat or later, by the skew at most.
fn is_read(plan: &Plan, e: &Entry) -> bool
    ensures { result ≡ is_read plan.now.params e.now }
{
    let time = time_of(plan, e.stamp.beat);
    let reading = e.stamp.reading as u128;
    time <= reading && reading <= time + plan.params.skew as u128
}

/// The true time of a beat, in microseconds.
#[tactic(auto, unfolding(slot_plan::specs::Times::time_of))]
fn time_of(plan: &Plan, beat: Beat) -> u128
    ensures value { result ≡ time_of plan.now.params beat }
    ensures small { result < 2 ^ 100 }
{
    beat as u128 * plan.params.beat as u128
}

/// Whether an entry may come next, as deaths go.
fn stands(beats: Beat, term: &Term, died: bool, e: &Entry) -> bool
    ensures { result ≡ may_stand (death_within beats term.now.death)
        term.now.left term.now.back died e.now }
{
    match death_within(beats, term.death) {
        Some(death) => {
            if died {
                is_behind(term.back, e)
            } else {
                comes_to(term.left, death, e)
            }
        }
        None => !is_died(&e.what),
    }
}

/// The death, if the run comes to its beat.
pub(crate) fn death_within(beats: Beat, death: Option<Beat>) -> Option<Beat>
    ensures { result ≡ death_within beats death }
{
    match death {
        Some(beat) if beat < beats => Some(beat),
        _ => None,
    }
}

/// Whether an entry may stand behind a death.
fn is_behind(back: Option<Beat>, e: &Entry) -> bool
    ensures { result ≡ is_behind back e.now }
{
    match back {
        Some(back) => stands_later(back, e),
        None => false,
    }
}

/// Whether an entry is no death, and of a beat from that of the return on.
fn stands_later(back: Beat, e: &Entry) -> bool
    ensures { result ≡ stands_later back e.now }
{
    !is_died(&e.what) && back <= e.stamp.beat
}

/// Whether an entry may stand before a death, or is that death.
fn comes_to(left: Option<u64>, death: Beat, e: &Entry) -> bool
    ensures { result ≡ comes_to left death e.now }
{
    if is_died(&e.what) {
        e.stamp.beat == death
    } else {
        is_until(left, death, e.stamp.beat)
    }
}

/// Whether an entry of a beat may stand before the death: it is of a lower beat, or of that beat if the death cuts the
/// node off.
fn is_until(left: Option<u64>, death: Beat, beat: Beat) -> bool
    ensures { result ≡ is_until left death beat }
{
    match left {
        Some(_) => beat <= death,
        None => beat < death,
    }
}

pub(crate) fn is_died(what: &What) -> bool
    ensures { result ≡ is_died what.now }
{
    matches!(what, What::Died)
}

/// What is missing of a journal that breaks nothing: the death, if the run comes to it and it is not written.
fn missing_death(beats: Beat, term: &Term, so_far: &SoFar) -> Option<Flaw>
    ensures { MatchOption result (may_end (death_within beats term.now.death) so_far.now.died ≡ true)
        (λ found. (found ≡ flaw.Missing)
        × (may_end (death_within beats term.now.death) so_far.now.died ≡ false)) }
{
    match death_within(beats, term.death) {
        Some(_) if !so_far.died => Some(Flaw::Missing),
        _ => None,
    }
}

/// The first cub that has a death, as the next one in the ring has, as an answer.
fn pair_found(course: &Course) -> Option<Untimed>
    ensures { MatchOption result (DieApart course.now.plan.params (lifetime_of course.now))
        (IsPairAt course.now) }
{
    match first_pair(course) {
        Some(cub) => Some(Untimed::Neighbours { cub }),
        None => None,
    }
}

/// The first cub that has a death, as the next one in the ring has.
fn first_pair(course: &Course) -> Option<CubNo>
    ensures { MatchOption result (DieApart course.now.plan.params (lifetime_of course.now))
        (λ cub. IsFirstPair course.now cub.0) }
{
    let cubs = course.plan.params.cubs;
    for n in 0..cubs {
        if both_die(course, n) {
            return Some(CubNo(n as u32));
        }
    }
    None
}

/// Whether a cub and the next one in the ring have a death.
fn both_die(course: &Course, n: u64) -> bool
    requires { n < course.now.plan.params.cubs }
    ensures { result ≡ both_die course.now n }
{
    let next = (n + 1) % course.plan.params.cubs;
    has_death(course, n) && has_death(course, next)
}

/// Whether a cub has a death.
fn has_death(course: &Course, n: u64) -> bool
    requires { n < course.now.plan.params.cubs }
    ensures { result ≡ is_some (death_of course.now n) }
{
    of_cub(course, &course.deaths, NodeNo(n as u32)).is_some()
}
