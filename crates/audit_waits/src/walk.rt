//! A walk along the log of a run, with the ticks of its cubs between the entries.
ghost use Rattle.std.specs.Prelude.{◌≡◌, ◌↔◌, ◌<◌, ◌+◌, ℕ, List, IsTrue, filter, length, take, slice_index_or, IfOk, OnOk};
ghost use Rattle.node_kit.specs.Courses.{IsCourse};
ghost use Rattle.node_kit.specs.Life.{lifetime_of};
ghost use Rattle.node_kit.specs.declared.course.Order.{Order};
ghost use Rattle.run_model.specs.Moments.{Moment};
ghost use Rattle.run_model.specs.Orders.{is_up_to};
ghost use Rattle.run_model.specs.Runs.{EndsBeat};
ghost use Rattle.run_claims.specs.Accounts.{ticks_in};
ghost use Rattle.audit_frame.specs.Lines.{noted_line, told_by};
ghost use Rattle.audit_waits.specs.Seen.{AreMarks};
ghost use Rattle.audit_waits.specs.Ticks.{DecidesPatience, IsNextLine, JudgesTick, NoneIsBehind, SaysBeat, SaysTick, StandsBefore, TellsWaits, last_place};

use crate::seen::{Mark, keep_marks, new_marks};
use crate::so_far::SoFar;
use crate::tick::Tick;
use audit_frame::{Line, line_at};
use node_kit::{Course, Life, Order};
use slot_plan::Plan;
use std::alloc::Global;
use tiger_base::{Beat, CubNo, NoMemory, NodeNo};

/// A tick at which somebody is passed over.
#[derive(Clone, Copy, Debug, PartialEq, Eq)]
pub struct PassedOver {
    pub cub: CubNo,
    pub beat: Beat,
    /// The place of the last entry of the log up to the tick, if there is one.
    pub place: Option<usize>,
}

/// How many entries a walk has passed, what they tell, and what ticks have seen of each disk.
#[derive(Drop)]
pub struct Walk {
    so_far: SoFar,
    marks: Vec<Mark>,
    place: usize,
}

/// The first tick of a course, by beat and then by cub, at the end of which a start that waits is passed over; `None` if
/// there is none. The log is that of the course: its entries stand by beat, then by node. An entry costs the logarithm of
/// what is kept, a Put and a stop that for each disk of the instance's starts, a death and a return a look at each record, and
/// a tick a look at the cub's disks, if any start waits. Of a disk for which a start waits each visit in the window costs the
/// logarithm of what is kept once, and at each tick at which no tenancy has it or one before it; and once more after a stop,
/// and after a Put into a slot that another tenancy had.
///
/// `NoMemory` is the only error.
pub fn first_passed_over<'a>(
    alloc: Global,
    course: &Course,
    orders: &[Order],
    log: &[Line<'a>],
) -> Result<Option<PassedOver>, NoMemory>
    requires course { IsCourse course.now }
    requires order { NoneIsBehind (told_by log.now) }
    ensures { IfOk result (DecidesPatience course.now.plan.params orders.now
        (ticks_in course.now) (told_by log.now)) }
{
    let mut walk = Walk::new(alloc, &course.plan, orders)?;
    for beat in 0..course.beats {
        let found = walk.pass_beat(course, log, beat)?;
        if found.is_some() {
            return Ok(found);
        }
    }
    Ok(None)
}

impl Walk {
    /// No entry is passed yet.
    fn new(alloc: Global, plan: &Plan, orders: &[Order]) -> Result<Walk, NoMemory>
        ensures marks { IfOk result (λ w. AreMarks plan.now.params w.so_far.holders w.marks.items) }
        ensures stands { IfOk result (λ w. (lines : List Line)
            → StandsBefore plan.now.params orders.now lines w 0 0) }
    {
        let so_far = SoFar::new(alloc, plan, orders)?;
        let marks = new_marks(alloc, plan)?;
        Ok(Walk {
            so_far,
            marks,
            place: 0,
        })
    }

    /// Goes on behind the ticks of a beat, or behind the first of them at which somebody is passed over.
    fn pass_beat<'a>(
        &mut self,
        course: &Course,
        log: &[Line<'a>],
        beat: Beat,
    ) -> Result<Option<PassedOver>, NoMemory>
        requires course { IsCourse course.now }
        requires order { NoneIsBehind (told_by log.now) }
        requires beat { beat < course.now.beats }
        requires marks { AreMarks course.now.plan.params self.old.so_far.holders self.old.marks.items }
        ensures marks { OnOk result (AreMarks course.now.plan.params self.new.so_far.holders self.new.marks.items) }
        ensures stands { OnOk result ((orders : List Order)
            → StandsBefore course.now.plan.params orders log.now self.old beat 0
            → StandsBefore course.now.plan.params orders log.now self.new (beat + 1) 0) }
        ensures found { IfOk result (λ found. (orders : List Order)
            → StandsBefore course.now.plan.params orders log.now self.old beat 0
            → SaysBeat course.now.plan.params orders (ticks_in course.now) (told_by log.now) beat found) }
    {
        for cub in 0..course.plan.params.cubs {
            let found = self.pass_tick(course, log, CubNo(cub as u32), beat)?;
            if found.is_some() {
                return Ok(found);
            }
        }
        Ok(None)
    }

    /// Goes on behind the tick of a cub in a beat, and names it if somebody is passed over there.
    fn pass_tick<'a>(
        &mut self,
        course: &Course,
        log: &[Line<'a>],
        cub: CubNo,
        beat: Beat,
    ) -> Result<Option<PassedOver>, NoMemory>
        requires course { IsCourse course.now }
        requires order { NoneIsBehind (told_by log.now) }
        requires beat { beat < course.now.beats }
        requires cub { cub.0 < course.now.plan.params.cubs }
        requires marks { AreMarks course.now.plan.params self.old.so_far.holders self.old.marks.items }
        ensures marks { OnOk result (AreMarks course.now.plan.params self.new.so_far.holders self.new.marks.items) }
        ensures stands { OnOk result ((orders : List Order)
            → StandsBefore course.now.plan.params orders log.now self.old beat cub.0
            → StandsBefore course.now.plan.params orders log.now self.new beat (cub.0 + 1)) }
        ensures found { IfOk result (λ found. (orders : List Order)
            → StandsBefore course.now.plan.params orders log.now self.old beat cub.0
            → SaysTick course.now.plan.params orders (ticks_in course.now) (told_by log.now) cub.0 beat found) }
    {
        self.pass_entries(&course.plan, log, cub, beat)?;
        Ok(self.judge(course, cub, beat))
    }

    /// Passes all entries up to the end of the tick of a cub in a beat.
    fn pass_entries<'a>(
        &mut self,
        plan: &Plan,
        log: &[Line<'a>],
        cub: CubNo,
        beat: Beat,
    ) -> Result<(), NoMemory>
        requires order { NoneIsBehind (told_by log.now) }
        requires marks { AreMarks plan.now.params self.old.so_far.holders self.old.marks.items }
        ensures marks { OnOk result (AreMarks plan.now.params self.new.so_far.holders self.new.marks.items) }
        ensures stands { OnOk result ((orders : List Order)
            → StandsBefore plan.now.params orders log.now self.old beat cub.0
            → StandsBefore plan.now.params orders log.now self.new beat cub.0) }
        ensures all { OnOk result ((orders : List Order)
            → StandsBefore plan.now.params orders log.now self.old beat cub.0
            → take self.new.place (told_by log.now) ≡ filter (is_up_to beat cub.0) (told_by log.now)) }
    {
        while let Some(line) = self.next_line(log, cub, beat) {
            self.pass_entry(plan, log, &line)?;
        }
        Ok(())
    }

    /// The next entry, if it is one up to the end of the tick of a cub in a beat.
    fn next_line<'a>(&self, log: &[Line<'a>], cub: CubNo, beat: Beat) -> Option<Line<'a>>
        ensures { IsNextLine log.now self.now.place beat cub.0 result }
    {
        if self.place >= log.len() {
            return None;
        }
        let line = line_at(log, self.place);
        if is_up_to(&line, cub, beat) {
            Some(line)
        } else {
            None
        }
    }

    /// Passes the next entry.
    fn pass_entry<'a>(
        &mut self,
        plan: &Plan,
        log: &[Line<'a>],
        line: &Line<'a>,
    ) -> Result<(), NoMemory>
        requires inside { self.now.place < length log.now }
        requires line { (d : Line) → slice_index_or log.now self.now.place d ≡ line.now }
        requires marks { AreMarks plan.now.params self.old.so_far.holders self.old.marks.items }
        ensures marks { OnOk result (AreMarks plan.now.params self.new.so_far.holders self.new.marks.items) }
        ensures place { OnOk result (self.new.place ≡ self.old.place + 1) }
        ensures stands { OnOk result ((orders : List Order) (beat cub : ℕ)
            → IsTrue (is_up_to beat cub (noted_line line.now))
            → StandsBefore plan.now.params orders log.now self.old beat cub
            → StandsBefore plan.now.params orders log.now self.new beat cub) }
    {
        let kept = self.so_far.take(plan, line)?;
        keep_marks(plan, &mut self.marks, kept)?;
        self.place += 1;
        Ok(())
    }

    /// The tick of a cub in a beat, if the cub ticks then and somebody is passed over, behind the entries so far.
    fn judge(&mut self, course: &Course, cub: CubNo, beat: Beat) -> Option<PassedOver>
        requires course { IsCourse course.now }
        requires beat { beat < course.now.beats }
        requires cub { cub.0 < course.now.plan.params.cubs }
        requires marks { AreMarks course.now.plan.params self.old.so_far.holders self.old.marks.items }
        ensures marks { AreMarks course.now.plan.params self.new.so_far.holders self.new.marks.items }
        ensures so_far { self.new.so_far ≡ self.old.so_far }
        ensures place { self.new.place ≡ self.old.place }
        ensures found { (orders : List Order) (m : Moment)
            → TellsWaits course.now.plan.params orders self.old.so_far m
            → JudgesTick course.now.plan.params orders (ticks_in course.now) m cub.0 beat
            self.old.place result }
    {
        if self.so_far.starts.none_wait() {
            return None;
        }
        let reading = course.stamp(NodeNo(cub.0), beat).reading;
        let tick = Tick { cub, beat, reading };
        if self.so_far.is_patient(&course.plan, tick, &mut self.marks) {
            return None;
        }
        if !ends_beat(course, cub, beat) {
            return None;
        }
        let place = last_place(self.place);
        Some(PassedOver { cub, beat, place })
    }
}

/// Whether a cub ends a beat by a whole tick: it acts in the beat, and does not die in an event of it.
fn ends_beat(course: &Course, cub: CubNo, beat: Beat) -> bool
    ensures { IsTrue result ↔ EndsBeat (lifetime_of course.now cub.0) beat }
{
    let life = Life::new(course, NodeNo(cub.0));
    life.acts(beat) && !life.ends_in(beat)
}

/// Whether an entry is one up to the end of the tick of a cub in a beat.
fn is_up_to<'a>(line: &Line<'a>, cub: CubNo, beat: Beat) -> bool
    ensures { result ≡ is_up_to beat cub.0 (noted_line line.now) }
{
    let at = line.entry.stamp.beat;
    at < beat || at == beat && line.node.0 <= cub.0
}

/// The last place of a row of so many, if there is one.
fn last_place(count: usize) -> Option<usize>
    ensures { result ≡ last_place count }
{
    if count == 0 {
        return None;
    }
    Some(count - 1)
}
