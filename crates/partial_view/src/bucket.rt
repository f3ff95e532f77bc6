//! A bucket of a view: some of its lines, as one list in the order of their due times.
ghost use Rattle.std.specs.Prelude.{◌≡◌, ◌==◌, ℕ, ◌^◌, ◌≤◌, ◌<◌, [], None, Some, IfOk, OnOk, OnErr, IfSome, MatchOption, count_by, length, slice_get};
ghost use Rattle.std.specs.Option.{ForSome};
ghost use Rattle.slot_plan.specs.Keys.{IsKey, due_of};
ghost use Rattle.partial_view.specs.Adding.{answer_to, answer_by};
ghost use Rattle.partial_view.specs.Lines.{key_of, visit_of, is_of};
ghost use Rattle.partial_view.specs.Views.{Seen, IsWalk, line_at, first_of, next_behind, with_mark, without, without_instance, with_record};
ghost use Rattle.partial_view.specs.Work.{is_left, first_between, NoneBetween};

use crate::line::{Flag, Line, Work};
use crate::search::{from_near, place_in, place_near};
use crate::timed::TimedLines;
use crate::view::Added;
use slot_plan::Plan;
use std::alloc::Global;
use std::marker::Model;
use tiger_base::{Instance, Micros, NoMemory, Rec, SlotNo, Visit};

/// Lines of a view, walked by due time, then slot, then visit.
#[derive(Drop)]
pub(crate) struct Bucket {
    lines: TimedLines,
    // About where the record stands that was added last: mostly the next one comes right behind it,
    // though others, that came before them, are due later.
    recent: usize,
}

impl Model for Bucket {
    ghost use Rattle.partial_view.specs.Views.{Seen, IsWalk};

    ghost Value = { Seen };

    ghost view = { λ v. v.lines };

    ghost invariant = { λ v. IsWalk v.lines.params v.lines.lines };
}

impl Bucket {
    /// The bucket of a plan that has no line yet. It takes no memory.
    pub(crate) fn new(alloc: Global, plan: &Plan) -> Bucket
        ensures { result ≡ record { params = plan.now.params; lines = [] } }
    {
        Bucket {
            lines: TimedLines::new(alloc, plan),
            recent: 0,
        }
    }

    /// The lines, to be read.
    pub(crate) fn lines(&self) -> &[Line]
        ensures { result.now ≡ self.now.lines }
    {
        self.lines.lines()
    }

    /// The line that stands behind a number of others.
    pub(crate) fn line_at(&self, row: usize) -> Line
        requires { row < length self.now.lines }
        ensures { slice_get self.now.lines row ≡ Some result }
    {
        self.lines.lines()[row]
    }

    /// When the line is due that stands behind a number of others.
    pub(crate) fn due_at(&self, row: usize) -> Micros
        requires { row < length self.now.lines }
        ensures { IfSome (slice_get self.now.lines row) (λ x.
            result ≡ due_of self.now.params (key_of x)) }
    {
        self.lines.dues()[row]
    }

    /// When the line is due that stands behind a number of others, or the last time of all if there
    /// is none.
    pub(crate) fn due_or_last(&self, row: usize) -> Micros {
        self.lines.dues().get(row).copied().unwrap_or(u64::MAX)
    }

    /// Adds a record whose due time is at hand, with no flag set, if its slot and visit have none;
    /// else, and without memory for it, nothing changes.
    pub(crate) fn add(&mut self, rec: Rec, due: Micros) -> Result<Added, NoMemory>
        requires key { IsKey self.old.params (visit_of rec) }
        requires due { due ≡ due_of self.old.params (visit_of rec) }
        ensures answer { IfOk result (λ added. added ≡ answer_to rec self.old.lines) }
        ensures ok { OnOk result (self.new ≡ record self.old {
          lines = with_record self.old.params rec self.old.lines;
        }) }
        ensures err { OnErr result (self.new ≡ self.old) }
    {
        let key = (rec.tenancy.slot, rec.visit);
        let row = place_near(self.lines.lines(), self.lines.dues(), self.recent, key, due);
        self.recent = row;
        if let Some(there) = self.lines.lines().get(row) {
            if there.key() == key {
                return Ok(known(rec.tenancy.instance, there.rec.tenancy.instance));
            }
        }
        self.lines.insert(row, rec, due)?;
        Ok(Added::New)
    }

    /// Behind how many lines that of a visit stands whose due time is at hand; `None` exactly if
    /// there is none.
    pub(crate) fn find(&self, key: (SlotNo, Visit), due: Micros) -> Option<usize>
        requires due { due ≡ due_of self.now.params key }
        ensures { MatchOption result (line_at key self.now.lines ≡ None) (λ row.
            (row < length self.now.lines)
            × (slice_get self.now.lines row ≡ line_at key self.now.lines)) }
    {
        let lines = self.lines.lines();
        let row = place_in(lines, self.lines.dues(), key, due);
        if row < lines.len() && lines[row].key() == key {
            Some(row)
        } else {
            None
        }
    }

    /// Behind how many lines the first one stands for which some work is left to do and which is
    /// due at a time or later, and at another or before it; `None` exactly if there is none. It is
    /// looked for around a row first, and any row serves.
    pub(crate) fn first_between(
        &self,
        work: Work,
        near: usize,
        from: Micros,
        to: Micros,
    ) -> Option<usize>
        ensures { let first = first_between self.now.params (is_left work) from to self.now.lines in
            MatchOption result (first ≡ None) (λ row.
            (row < length self.now.lines) × (slice_get self.now.lines row ≡ first)) }
    {
        let lines = self.lines.lines();
        let dues = self.lines.dues();
        let mut row = from_near(dues, near, from);
        while row < dues.len() && dues[row] <= to {
            if lines[row].is_left(work) {
                return Some(row);
            }
            row += 1;
        }
        None
    }

    /// When the first line is due that is due at a time or later, or the last time of all if none
    /// is. It is looked for around a row first, and any row serves.
    pub(crate) fn next_due(&self, near: usize, time: Micros) -> Micros
        requires { time < 2 ^ 64 }
        ensures next { NoneBetween self.now.params time result self.now.lines }
        ensures later { time ≤ result }
    {
        let dues = self.lines.dues();
        let row = from_near(dues, near, time);
        if row < dues.len() {
            dues[row]
        } else {
            u64::MAX
        }
    }

    /// The next line behind a slot and visit, or the first if none is given; `None` exactly if
    /// there is none.
    pub(crate) fn after(&self, key: Option<(SlotNo, Visit)>) -> Option<Line>
        requires { ForSome key (IsKey self.now.params) }
        ensures { result ≡ next_behind self.now.params key self.now.lines }
    {
        let lines = self.lines.lines();
        let Some(key) = key else {
            return Some(*lines.get(0)?);
        };
        let row = self.row_behind(key, self.lines.due(key));
        Some(*lines.get(row)?)
    }

    /// Behind how many lines the next one behind a visit stands, or would stand, whose due time is
    /// at hand.
    pub(crate) fn row_behind(&self, key: (SlotNo, Visit), due: Micros) -> usize
        requires due { due ≡ due_of self.now.params key }
        ensures { slice_get self.now.lines result
            ≡ next_behind self.now.params (Some key) self.now.lines }
    {
        let lines = self.lines.lines();
        let row = place_in(lines, self.lines.dues(), key, due);
        if row < lines.len() && lines[row].key() == key {
            row + 1
        } else {
            row
        }
    }

    /// The first line of an instance; `None` exactly if it has none.
    pub(crate) fn first_of(&self, instance: Instance) -> Option<Line>
        ensures { result ≡ first_of instance self.now.lines }
    {
        self.lines.first_of(instance)
    }

    /// Sets a flag of the line that stands behind a number of others.
    pub(crate) fn mark(&mut self, row: usize, flag: Flag)
        requires { row < length self.old.lines }
        ensures { IfSome (slice_get self.old.lines row) (λ x. self.new ≡ record self.old {
          lines = with_mark (key_of x) flag self.old.lines;
        }) }
    {
        self.lines.mark(row, flag);
    }

    /// Takes the line out that stands behind a number of others.
    pub(crate) fn take(&mut self, row: usize)
        requires { row < length self.old.lines }
        ensures { IfSome (slice_get self.old.lines row) (λ x. self.new ≡ record self.old {
          lines = without (key_of x) self.old.lines;
        }) }
    {
        self.lines.remove(row);
        // Mostly the first line is taken, and the others stand one place earlier then.
        self.recent = self.recent.saturating_sub(1);
    }

    /// Removes all lines of an instance, and says how many there were.
    pub(crate) fn remove_instance(&mut self, instance: Instance) -> u64
        ensures count { result ≡ count_by (is_of instance) self.old.lines }
        ensures fits { result ≤ 2 ^ 57 }
        ensures left { self.new ≡ record self.old {
          lines = without_instance instance self.old.lines;
        } }
    {
        self.lines.remove_instance(instance)
    }
}

/// What to answer if the slot and visit of a record are taken.
fn known(wanted: Instance, there: Instance) -> Added
    ensures { result ≡ answer_by wanted there }
{
    if there.0 == wanted.0 {
        Added::Known
    } else {
        Added::Other(there)
    }
}
