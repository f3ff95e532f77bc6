//! Whether what the viewers get of a visit comes before anything of a later visit is sent.
ghost use Rattle.std.specs.Prelude.{[], ◌≡◌, ◌↔◌, ◌≤◌, ◌==◌, ◌||◌, ◌&&◌, not, ℕ, List, Some, None, IsTrue, OnOk, IfOk, if◌then◌else◌};
ghost use Rattle.std.specs.List.{AllByRecursion};
ghost use Rattle.node_kit.specs.Links.{links_of, viewers_of};
ghost use Rattle.run_facts.specs.Accounts.{Rising};
ghost use Rattle.run_facts.specs.Order.{Noted, beat_of};
ghost use Rattle.run_claims.specs.Deliveries.{carried_by, got_by, sent_in, got_in};
ghost use Rattle.run_claims.specs.Turns.{AreInTurn, IsGotBefore};
ghost use Rattle.slot_plan.specs.declared.params.Params.{Params};
ghost use Rattle.audit_frame.specs.First.{Decides};
ghost use Rattle.audit_frame.specs.Lines.{noted_line, told_by};
ghost use Rattle.audit_frame.specs.Tables.{mark_under};
ghost use Rattle.audit_schedule.specs.Turns.{IsInTurnHere, TellsTurns, sent_here, got_here, with_entry, dated_if, is_beat, is_low, is_latest, later_of, lower_of, lowest_of, latest_with, last_with, lowest_with};

use audit_frame::{Line, Marks, line_at};
use node_kit::{LinkTable, What};
use slot_plan::Plan;
use std::alloc::Global;
use tiger_base::{Beat, NoMemory, NodeNo, Note, Visit, Want};

/// What is kept of the entries so far, by instance: the latest visit of which something was sent; the last beat in which
/// the viewers got something; and the earliest visit of which they got something in that beat.
#[derive(Drop)]
struct Turns {
    latest: Marks,
    last: Marks,
    lowest: Marks,
}

/// The first entry of a log with which something of a later visit is sent before the viewers got all that they get of an
/// earlier one; `None` if there is none. No entry of the log stands behind one of a later beat. Each entry costs the
/// logarithm of the number of instances.
///
/// `NoMemory` is the only error.
pub fn first_out_of_turn<'a>(
    alloc: Global,
    plan: &Plan,
    log: &[Line<'a>],
) -> Result<Option<usize>, NoMemory>
    requires { Rising beat_of (told_by log.now) }
    ensures { IfOk result (Decides (AreInTurn plan.now.params) (told_by log.now)) }
{
    let viewers = viewers_in(plan);
    let mut turns = Turns::new(alloc);
    for i in 0..log.len() {
        let line = line_at(log, i);
        if !turns.allows(viewers, &line) {
            return Ok(Some(i));
        }
        turns.take(viewers, &line)?;
    }
    Ok(None)
}

/// The node of the viewers.
fn viewers_in(plan: &Plan) -> NodeNo
    ensures { result.0 ≡ viewers_of (links_of plan.now.params) }
{
    let links = LinkTable::new(plan);
    links.viewers()
}

impl Turns {
    /// Nothing is known yet.
    fn new(alloc: Global) -> Turns
        ensures latest { result.latest ≡ [] }
        ensures last { result.last ≡ [] }
        ensures lowest { result.lowest ≡ [] }
    {
        Turns {
            latest: Marks::new(alloc),
            last: Marks::new(alloc),
            lowest: Marks::new(alloc),
        }
    }

    /// Whether an entry is in turn behind those so far, none of which is of a later beat.
    fn allows<'a>(&self, viewers: NodeNo, line: &Line<'a>) -> bool
        ensures { (p : Params) (front : List Noted) → viewers.0 ≡ viewers_of (links_of p)
            → AllByRecursion (λ y. beat_of y ≤ beat_of (noted_line line.now)) front
            → TellsTurns p self.now.latest self.now.last self.now.lowest front
            → IsTrue result ↔ IsInTurnHere p front (noted_line line.now) }
    {
        let leaves = self.leaves_in_turn(line);
        let comes = self.comes_in_turn(viewers, line);
        are_both(leaves, comes)
    }

    /// Whether what an entry sends comes behind all that was got of earlier visits.
    fn leaves_in_turn<'a>(&self, line: &Line<'a>) -> bool
        ensures { (p : Params) (front : List Noted)
            → AllByRecursion (λ y. beat_of y ≤ beat_of (noted_line line.now)) front
            → TellsTurns p self.now.latest self.now.last self.now.lowest front
            → IsTrue result
            ↔ AllByRecursion (λ s. AllByRecursion (λ g. IsGotBefore g s) (got_in p front))
            (sent_here (noted_line line.now)) }
    {
        match sent_want(line) {
            Some(want) => self.may_leave(line.entry.stamp.beat, &want),
            None => true,
        }
    }

    /// Whether what the viewers get in an entry comes before all that was sent of later visits.
    fn comes_in_turn<'a>(&self, viewers: NodeNo, line: &Line<'a>) -> bool
        ensures { (p : Params) (front : List Noted) → viewers.0 ≡ viewers_of (links_of p)
            → AllByRecursion (λ y. beat_of y ≤ beat_of (noted_line line.now)) front
            → TellsTurns p self.now.latest self.now.last self.now.lowest front
            → IsTrue result ↔ AllByRecursion (λ g. AllByRecursion (IsGotBefore g) (sent_in front))
            (got_here p (noted_line line.now)) }
    {
        match got_want(viewers, line) {
            Some(want) => self.may_come(&want),
            None => true,
        }
    }

    /// Whether something may be sent in a beat.
    fn may_leave(&self, beat: Beat, want: &Want) -> bool
        ensures { result ≡ (not (is_beat (mark_under want.now.instance.0 self.now.last) beat)
            || is_low (mark_under want.now.instance.0 self.now.lowest) want.now.visit) }
    {
        let again = is_beat(self.last.get(want.instance.0), beat);
        let low = is_low(self.lowest.get(want.instance.0), want.visit);
        is_other_or(again, low)
    }

    /// Whether the viewers may get something.
    fn may_come(&self, want: &Want) -> bool
        ensures { result
            ≡ is_latest (mark_under want.now.instance.0 self.now.latest) want.now.visit }
    {
        is_latest(self.latest.get(want.instance.0), want.visit)
    }

    /// Takes one more entry, of a beat that is not below that of any so far.
    fn take<'a>(&mut self, viewers: NodeNo, line: &Line<'a>) -> Result<(), NoMemory>
        ensures { OnOk result ((p : Params) (front : List Noted)
            → viewers.0 ≡ viewers_of (links_of p)
            → AllByRecursion (λ y. beat_of y ≤ beat_of (noted_line line.now)) front
            → TellsTurns p self.old.latest self.old.last self.old.lowest front
            → TellsTurns p self.new.latest self.new.last self.new.lowest
            (with_entry front (noted_line line.now))) }
    {
        self.take_sent(line)?;
        self.take_got(viewers, line)
    }

    /// Takes what an entry sends.
    fn take_sent<'a>(&mut self, line: &Line<'a>) -> Result<(), NoMemory>
        ensures latest { OnOk result ((v : ℕ) → mark_under v self.new.latest
            ≡ latest_with (mark_under v self.old.latest) v (sent_here (noted_line line.now))) }
        ensures last { self.new.last ≡ self.old.last }
        ensures lowest { self.new.lowest ≡ self.old.lowest }
    {
        match sent_want(line) {
            Some(want) => self.keep_sent(&want),
            None => Ok(()),
        }
    }

    /// Keeps that something was sent.
    fn keep_sent(&mut self, want: &Want) -> Result<(), NoMemory>
        ensures latest { OnOk result ((v : ℕ) → mark_under v self.new.latest
            ≡ (if want.now.instance.0 == v
            then Some (later_of (mark_under want.now.instance.0 self.old.latest) want.now.visit)
            else mark_under v self.old.latest)) }
        ensures last { self.new.last ≡ self.old.last }
        ensures lowest { self.new.lowest ≡ self.old.lowest }
    {
        let visit = later_of(self.latest.get(want.instance.0), want.visit);
        self.latest.set(want.instance.0, visit)
    }

    /// Takes what the viewers get in an entry.
    fn take_got<'a>(&mut self, viewers: NodeNo, line: &Line<'a>) -> Result<(), NoMemory>
        ensures last { OnOk result ((p : Params) (v : ℕ) → viewers.0 ≡ viewers_of (links_of p)
            → mark_under v self.new.last
            ≡ last_with (mark_under v self.old.last) v (got_here p (noted_line line.now))) }
        ensures lowest { OnOk result ((p : Params) (v : ℕ) → viewers.0 ≡ viewers_of (links_of p)
            → mark_under v self.new.lowest
            ≡ lowest_with (mark_under v self.old.last) (mark_under v self.old.lowest) v
            (got_here p (noted_line line.now))) }
        ensures latest { self.new.latest ≡ self.old.latest }
    {
        match got_want(viewers, line) {
            Some(want) => self.keep_got(line.entry.stamp.beat, &want),
            None => Ok(()),
        }
    }

    /// Keeps that the viewers got something in a beat.
    fn keep_got(&mut self, beat: Beat, want: &Want) -> Result<(), NoMemory>
        ensures last { OnOk result ((v : ℕ) → mark_under v self.new.last
            ≡ (if want.now.instance.0 == v then Some beat else mark_under v self.old.last)) }
        ensures lowest { OnOk result ((v : ℕ) → mark_under v self.new.lowest
            ≡ (if want.now.instance.0 == v
            then Some (lowest_of (is_beat (mark_under want.now.instance.0 self.old.last) beat)
            (mark_under want.now.instance.0 self.old.lowest) want.now.visit)
            else mark_under v self.old.lowest)) }
        ensures latest { self.new.latest ≡ self.old.latest }
    {
        let again = is_beat(self.last.get(want.instance.0), beat);
        let visit = lowest_of(again, self.lowest.get(want.instance.0), want.visit);
        self.lowest.set(want.instance.0, visit)?;
        self.last.set(want.instance.0, beat)
    }
}

/// Whether two things are so.
fn are_both(left: bool, right: bool) -> bool
    ensures { result ≡ (left && right) }
{
    left && right
}

/// Whether the last beat is another one, or the visit is low enough.
fn is_other_or(again: bool, low: bool) -> bool
    ensures { result ≡ (not again || low) }
{
    !again || low
}

/// Whether the last beat, if there is one, is this.
fn is_beat(last: Option<Beat>, beat: Beat) -> bool
    ensures { result ≡ is_beat last beat }
{
    match last {
        Some(other) => other == beat,
        None => false,
    }
}

/// Whether no lower visit was got.
fn is_low(lowest: Option<Visit>, visit: Visit) -> bool
    ensures { result ≡ is_low lowest visit }
{
    match lowest {
        Some(lowest) => visit <= lowest,
        None => true,
    }
}

/// Whether no later visit was sent.
fn is_latest(latest: Option<Visit>, visit: Visit) -> bool
    ensures { result ≡ is_latest latest visit }
{
    match latest {
        Some(latest) => latest <= visit,
        None => true,
    }
}

/// The later of two visits, if there are two.
fn later_of(latest: Option<Visit>, visit: Visit) -> Visit
    ensures { result ≡ later_of latest visit }
{
    match latest {
        Some(latest) => { if latest < visit { visit } else { latest } }
        None => visit,
    }
}

/// The lower of two visits, if there are two.
fn lower_of(lowest: Option<Visit>, visit: Visit) -> Visit
    ensures { result ≡ lower_of lowest visit }
{
    match lowest {
        Some(lowest) => { if visit < lowest { visit } else { lowest } }
        None => visit,
    }
}

/// The lower of two visits, if both were got in one beat, and else the new one.
fn lowest_of(again: bool, lowest: Option<Visit>, visit: Visit) -> Visit
    ensures { result ≡ lowest_of again lowest visit }
{
    if again {
        return lower_of(lowest, visit);
    }
    visit
}

/// What an entry sends to the viewers, if it sends them anything.
fn sent_want<'a>(line: &Line<'a>) -> Option<Want>
    ensures { sent_here (noted_line line.now) ≡ dated_if line.now.entry.now.stamp.beat result }
{
    match line.entry.what {
        What::Sent(_, note) => carried(&note),
        _ => None,
    }
}

/// What the viewers get in an entry, if they get anything.
fn got_want<'a>(viewers: NodeNo, line: &Line<'a>) -> Option<Want>
    ensures { (p : Params) → viewers.0 ≡ viewers_of (links_of p)
        → got_here p (noted_line line.now) ≡ dated_if line.now.entry.now.stamp.beat result }
{
    let want = want_in(line);
    kept_if(line.node.0 == viewers.0, want)
}

/// What is wanted, if it is so.
fn kept_if(here: bool, want: Option<Want>) -> Option<Want>
    ensures { result ≡ (if here then want else None) }
{
    if here {
        return want;
    }
    None
}

/// What is got in an entry, by whomever.
fn want_in<'a>(line: &Line<'a>) -> Option<Want>
    ensures { got_by line.now.entry.now.stamp.beat line.now.entry.now.what
        ≡ dated_if line.now.entry.now.stamp.beat result }
{
    match line.entry.what {
        What::Got(_, note) => carried(&note),
        _ => None,
    }
}

/// The want of a block or a piece that a note carries.
fn carried(note: &Note) -> Option<Want>
    ensures { (b : ℕ) → carried_by b note.now ≡ dated_if b result }
{
    match note {
        Note::Whole { want, .. } => Some(*want),
        Note::Piece { want, .. } => Some(*want),
        _ => None,
    }
}
