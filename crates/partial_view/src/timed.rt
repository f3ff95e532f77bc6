//! Lines beside their due times, so that no search and no walk works out the due time of a line.
ghost use Rattle.std.specs.Prelude.{◌≡◌, ◌^◌, ◌<◌, ◌≤◌, [], OnOk, OnErr, IfSome, length, count_by, insert, remove, slice_get, slice_index_or, slice_set};
ghost use Rattle.slot_plan.specs.Keys.{IsKey, due_of};
ghost use Rattle.partial_view.specs.Lines.{key_of, visit_of, unmarked, marked, is_of};
ghost use Rattle.partial_view.specs.Views.{Seen, first_of, without_instance};
ghost use Rattle.partial_view.specs.Dues.{dues_of};

use crate::line::{Flag, Line};
use crate::row::Row;
use slot_plan::Plan;
use std::alloc::Global;
use std::marker::Model;
use tiger_base::{Instance, Micros, NoMemory, Rec, SlotNo, Visit};

/// Lines of a plan's visits, and beside them their due times, in the order in which they are put.
/// They are seen as the lines alone.
#[derive(Drop)]
pub(crate) struct TimedLines {
    plan: Plan,
    lines: Row<Line>,
    dues: Row<Micros>,
}

impl Model for TimedLines {
    ghost use Rattle.partial_view.specs.Views.{Seen};
    ghost use Rattle.partial_view.specs.Dues.{AreDues};

    ghost Value = { Seen };

    ghost view = { λ v. record { params = v.plan.params; lines = v.lines } };

    ghost invariant = { λ v. AreDues v.plan.params v.lines v.dues };
}

impl TimedLines {
    /// No lines yet. It takes no memory.
    pub(crate) fn new(alloc: Global, plan: &Plan) -> TimedLines
        ensures { result ≡ record { params = plan.now.params; lines = [] } }
    {
        TimedLines {
            plan: *plan,
            lines: Row::new(alloc),
            dues: Row::new(alloc),
        }
    }

    /// The lines, to be read.
    pub(crate) fn lines(&self) -> &[Line]
        ensures lines { result.now ≡ self.now.lines }
        ensures fits { length result.now ≤ 2 ^ 57 }
    {
        self.lines.as_slice()
    }

    /// When the lines are due, one for one.
    pub(crate) fn dues(&self) -> &[Micros]
        ensures { result.now ≡ dues_of self.now.params self.now.lines }
    {
        self.dues.as_slice()
    }

    /// When a visit is due.
    pub(crate) fn due(&self, key: (SlotNo, Visit)) -> Micros
        requires { IsKey self.now.params key }
        ensures { result ≡ due_of self.now.params key }
    {
        self.plan.due(key.0, key.1)
    }

    /// The first line of an instance; `None` exactly if it has none.
    #[tactic(auto, unfolding(crate::specs::Views::first_of))]
    pub(crate) fn first_of(&self, instance: Instance) -> Option<Line>
        ensures { result ≡ first_of instance self.now.lines }
    {
        for line in self.lines.as_slice() {
            if line.rec.tenancy.instance.0 == instance.0 {
                return Some(*line);
            }
        }
        None
    }

    /// Puts the line of a record at a place, with no flag set, whose due time is at hand; without
    /// memory for it nothing changes.
    pub(crate) fn insert(&mut self, place: usize, rec: Rec, due: Micros) -> Result<(), NoMemory>
        requires place { place ≤ length self.old.lines }
        requires due { due ≡ due_of self.old.params (visit_of rec) }
        ensures ok { OnOk result (self.new ≡ record self.old {
          lines = insert self.old.lines place (unmarked rec);
        }) }
        ensures err { OnErr result (self.new ≡ self.old) }
    {
        self.dues.insert(place, due)?;
        if let Err(none) = self.lines.insert(place, Line::unmarked(rec)) {
            self.dues.remove(place);
            return Err(none);
        }
        Ok(())
    }

    /// Sets a flag of the line at a place.
    pub(crate) fn mark(&mut self, place: usize, flag: Flag)
        requires { place < length self.old.lines }
        ensures { IfSome (slice_get self.old.lines place) (λ x. self.new ≡ record self.old {
          lines = slice_set self.old.lines place (marked flag x);
        }) }
    {
        let line = self.lines.as_slice()[place].marked(flag);
        self.lines.set(place, line);
    }

    /// Takes the line at a place out, and gives it; `None` exactly if there is none.
    pub(crate) fn remove(&mut self, place: usize) -> Option<Line>
        ensures line { result ≡ slice_get self.old.lines place }
        ensures left { self.new ≡ record self.old { lines = remove self.old.lines place } }
    {
        self.dues.remove(place);
        self.lines.remove(place)
    }

    /// Takes all lines of an instance out, and says how many there were.
    pub(crate) fn remove_instance(&mut self, instance: Instance) -> u64
        ensures count { result ≡ count_by (is_of instance) self.old.lines }
        ensures fits { result ≤ 2 ^ 57 }
        ensures left { self.new ≡ record self.old {
          lines = without_instance instance self.old.lines;
        } }
    {
        let mut count = 0;
        for i in (0..self.lines.as_slice().len()).rev() {
            if self.lines.as_slice()[i].rec.tenancy.instance.0 == instance.0 {
                self.remove(i);
                count += 1;
            }
        }
        count
    }
}
