//! A cub's records by slot and visit, kept as a wheel of buckets, one for each cub, which the block
//! play times fill in turn.
ghost use Rattle.std.specs.Prelude.{◌≡◌, ◌<◌, ◌≤◌, [], true, Some, None, IfOk, OnOk, OnErr, IfSome, option_map, is_some, count_by};
ghost use Rattle.std.specs.List.{AllByRecursion};
ghost use Rattle.std.specs.Option.{ForSome};
ghost use Rattle.tiger_base.specs.Limits.{most_reading};
ghost use Rattle.slot_plan.specs.Keys.{IsKey, due_of};
ghost use Rattle.partial_view.specs.Lines.{key_of, visit_of, instance_of, is_of};
ghost use Rattle.partial_view.specs.Views.{Seen, IsWalk, line_at, first_of, next_behind, line_due, with_mark, without, without_instance, with_record};
ghost use Rattle.partial_view.specs.Adding.{answer_to};
ghost use Rattle.partial_view.specs.Wheel.{bucket_lines, IsTurn, IsTurnOf};
ghost use Rattle.partial_view.specs.Passing.{NonePasses};
ghost use Rattle.partial_view.specs.Work.{is_left, first_between, with_mark_of, without_of};

use crate::line::{Flag, Line, Work};
use crate::spread::Spread;
use crate::turn::{Found, Place};
use crate::wheel::Wheel;
use slot_plan::Plan;
use std::alloc::Global;
use std::marker::Model;
use tiger_base::{Instance, Micros, NoMemory, Rec, SlotNo, Visit};

/// What became of a record that was to be added.
#[derive(Clone, Copy, Debug, PartialEq, Eq)]
pub enum Added {
    /// It is there now, with no flag set.
    New,
    /// The same instance had that slot and visit already.
    Known,
    /// This other instance has that slot and visit.
    Other(Instance),
}

/// The records that a cub knows of, by slot and visit, walked by due time, then slot, then visit.
#[derive(Drop)]
pub struct View {
    wheel: Wheel,
    // No line is due before this time: a tick that has nothing to serve looks into no bucket.
    begin: Micros,
    // Before the lines of the turn of that time.
    front: Place,
    // A cub's lines of one instance stand in two buckets, side by side, and what looks for them
    // looks into no others.
    spread: Spread,
}

impl Model for View {
    ghost use Rattle.partial_view.specs.Spread.{AreSpread};
    ghost use Rattle.partial_view.specs.Views.{Seen};
    ghost use Rattle.partial_view.specs.Wheel.{IsTurn};
    ghost use Rattle.partial_view.specs.Work.{NoneBefore};

    ghost Value = { Seen };

    ghost view = { λ v. v.wheel };

    ghost invariant = { λ v. NoneBefore v.wheel.params v.begin v.wheel.lines
        × IsTurn v.wheel.params v.front.turn
        × AreSpread v.wheel.params v.spread.spans.items v.wheel.lines };
}

impl View {
    /// The view of a plan that has no record yet. It takes no memory.
    pub fn new(alloc: Global, plan: &Plan) -> View
        ensures { result ≡ record { params = plan.now.params; lines = [] } }
    {
        View {
            wheel: Wheel::new(alloc, plan),
            begin: u64::MAX,
            front: Place::start(plan, 0),
            spread: Spread::new(alloc),
        }
    }

    /// Lends bucket i: the lines whose block play time, counted round, is i, in their order. It
    /// takes no memory.
    pub fn bucket(&self, i: u32) -> &[Line]
        requires { i < self.now.params.cubs }
        ensures { result.now ≡ bucket_lines self.now.params i self.now.lines }
    {
        self.wheel.bucket(i)
    }

    /// Adds a record, with no flag set, if its slot and visit have none; else, and without memory
    /// for it, nothing changes.
    pub fn add(&mut self, rec: Rec) -> Result<Added, NoMemory>
        requires { IsKey self.old.params (visit_of rec) }
        ensures answer { IfOk result (λ added. added ≡ answer_to rec self.old.lines) }
        ensures ok { OnOk result (self.new ≡ record self.old {
          lines = with_record self.old.params rec self.old.lines;
        }) }
        ensures err { OnErr result (self.new ≡ self.old) }
    {
        let due = self.wheel.due((rec.tenancy.slot, rec.visit));
        self.add_due(rec, due)
    }

    /// Adds a record, as `add` does, whose due time is at hand.
    pub(crate) fn add_due(&mut self, rec: Rec, due: Micros) -> Result<Added, NoMemory>
        requires key { IsKey self.old.params (visit_of rec) }
        requires due { due ≡ due_of self.old.params (visit_of rec) }
        ensures answer { IfOk result (λ added. added ≡ answer_to rec self.old.lines) }
        ensures ok { OnOk result (self.new ≡ record self.old {
          lines = with_record self.old.params rec self.old.lines;
        }) }
        ensures err { OnErr result (self.new ≡ self.old) }
    {
        self.spread.make_place(rec.tenancy.instance)?;
        let added = self.wheel.add(rec, due)?;
        self.spread
            .widen(rec.tenancy.instance, self.wheel.bucket_at(due));
        if due < self.begin {
            self.begin = due;
            self.front = self.wheel.start(due);
        }
        Ok(added)
    }

    /// The line of a slot and a visit; `None` exactly if there is none.
    pub fn line(&self, slot: SlotNo, visit: Visit) -> Option<Line>
        requires { IsKey self.now.params (slot, visit) }
        ensures { result ≡ line_at (slot, visit) self.now.lines }
    {
        self.wheel
            .line((slot, visit), self.wheel.due((slot, visit)))
    }

    /// The instance that has a slot and a visit; `None` exactly if there is none.
    pub fn has(&self, slot: SlotNo, visit: Visit) -> Option<Instance>
        requires { IsKey self.now.params (slot, visit) }
        ensures { result ≡ option_map instance_of (line_at (slot, visit) self.now.lines) }
    {
        match self.line(slot, visit) {
            Some(line) => Some(line.rec.tenancy.instance),
            None => None,
        }
    }

    /// The first record of an instance; `None` exactly if it has none.
    pub fn first_of(&self, instance: Instance) -> Option<Rec>
        ensures { result ≡ option_map (λ x. x.rec) (first_of instance self.now.lines) }
    {
        let span = self.spread.span(instance);
        Some(self.wheel.first_of(instance, span)?.rec)
    }

    /// Keeps in mind that an instance has no line: until it has one, none is looked for.
    pub(crate) fn note_none(&mut self, instance: Instance)
        requires { first_of instance self.old.lines ≡ None }
        ensures { self.new ≡ self.old }
    {
        self.spread.empty(instance);
    }

    /// The next line behind a slot and visit, or the first if none is given; `None` exactly if
    /// there is none.
    pub fn after(&self, key: Option<(SlotNo, Visit)>) -> Option<Line>
        requires { ForSome key (IsKey self.now.params) }
        ensures next { result ≡ next_behind self.now.params key self.now.lines }
        ensures key { IfSome result (λ line. IsKey self.now.params (key_of line)) }
        ensures walk { IsWalk self.now.params self.now.lines }
    {
        self.wheel.are_in_order();
        self.wheel.after(key)
    }

    /// A time before which no line is due for which some work is left to do and which is due at a
    /// given time or later. The line is looked for at a place first, and any place serves.
    pub(crate) fn left_from(&self, work: Work, near: Place, from: Micros) -> Micros
        requires { IsTurn self.now.params near.turn }
        ensures { NonePasses self.now.params (is_left work) from result self.now.lines }
    {
        self.wheel.left_in_turn(work, near, from)
    }

    /// The lines stand in their order, with one line for each visit. The call looks at none.
    pub fn are_in_order(&self)
        ensures { IsWalk self.now.params self.now.lines }
    {
        self.wheel.are_in_order();
    }

    /// The first record that is due at a reading; `None` exactly if none is.
    pub fn due_before(&self, reading: Micros) -> Option<Rec>
        requires { reading ≤ most_reading }
        ensures { result ≡
            option_map (λ x. x.rec) (line_due self.now.params reading self.now.lines) }
    {
        let line = self.after(None)?;
        if self.wheel.due(line.key()) <= reading {
            Some(line.rec)
        } else {
            None
        }
    }

    /// Sets a flag at a slot and visit; `false` exactly if there is no line.
    pub fn mark(&mut self, slot: SlotNo, visit: Visit, flag: Flag) -> bool
        requires { IsKey self.old.params (slot, visit) }
        ensures found { result ≡ is_some (line_at (slot, visit) self.old.lines) }
        ensures marked { self.new ≡ record self.old {
          lines = with_mark (slot, visit) flag self.old.lines;
        } }
    {
        let due = self.wheel.due((slot, visit));
        self.wheel.mark((slot, visit), due, flag)
    }

    /// Sets a flag of the first line for which some work is left to do and which is due at a time
    /// or later, and at another or before it, and gives the line as it was; `None` exactly if there
    /// is none. The line is looked for at a place first, and any place serves.
    pub(crate) fn mark_first(
        &mut self,
        work: Work,
        near: Place,
        from: Micros,
        to: Micros,
        flag: Flag,
    ) -> Option<Found>
        requires { IsTurn self.old.params near.turn }
        ensures first { option_map (λ f. f.line) result
            ≡ first_between self.old.params (is_left work) from to self.old.lines }
        ensures due { IfSome result (λ f. f.due ≡ due_of self.old.params (key_of f.line)) }
        ensures turn { IfSome result (λ f. IsTurnOf self.old.params f.due f.place.turn) }
        ensures marked { self.new ≡ record self.old {
          lines = with_mark_of flag (option_map (λ f. f.line) result) self.old.lines;
        } }
        ensures walk { IsWalk self.old.params self.old.lines }
    {
        self.wheel.are_in_order();
        self.wheel.mark_first(work, near, from, to, flag)
    }

    /// Whether it is known that no line is due at a time or before it.
    pub(crate) fn is_before_all(&self, time: Micros) -> bool
        ensures later { result ≡ true →
            AllByRecursion (λ x. time < due_of self.now.params (key_of x)) self.now.lines }
        ensures walk { IsWalk self.now.params self.now.lines }
    {
        self.wheel.are_in_order();
        time < self.begin
    }

    /// Takes the first line out for which some work is left to do and which is due at a time or
    /// before it, and gives it; `None` exactly if there is none.
    pub(crate) fn take_first(&mut self, work: Work, time: Micros) -> Option<Found>
        ensures first { option_map (λ f. f.line) result
            ≡ first_between self.old.params (is_left work) 0 time self.old.lines }
        ensures due { IfSome result (λ f. f.due ≡ due_of self.old.params (key_of f.line)) }
        ensures left { self.new ≡ record self.old {
          lines = without_of (option_map (λ f. f.line) result) self.old.lines;
        } }
        ensures walk { IsWalk self.old.params self.old.lines }
    {
        self.wheel.are_in_order();
        let found = self.wheel.take_first(work, self.front, self.begin, time)?;
        self.begin_behind(found.due);
        Some(found)
    }

    /// Removes the record of a slot and visit, and gives it; `None` exactly if there was none.
    pub fn remove(&mut self, slot: SlotNo, visit: Visit) -> Option<Rec>
        requires { IsKey self.old.params (slot, visit) }
        ensures record { result ≡ option_map (λ x. x.rec) (line_at (slot, visit) self.old.lines) }
        ensures left { self.new ≡ record self.old { lines = without (slot, visit) self.old.lines } }
    {
        let due = self.wheel.due((slot, visit));
        self.remove_due(slot, visit, due)
    }

    /// Removes the record of a slot and visit, as `remove` does, whose due time is at hand.
    pub(crate) fn remove_due(&mut self, slot: SlotNo, visit: Visit, due: Micros) -> Option<Rec>
        requires { due ≡ due_of self.old.params (slot, visit) }
        ensures record { result ≡ option_map (λ x. x.rec) (line_at (slot, visit) self.old.lines) }
        ensures left { self.new ≡ record self.old { lines = without (slot, visit) self.old.lines } }
    {
        let line = self.wheel.remove((slot, visit), due)?;
        self.begin_behind(due);
        Some(line.rec)
    }

    /// Begins later, if lines began at a time at which one is gone.
    fn begin_behind(&mut self, due: Micros)
        ensures { self.new ≡ self.old }
    {
        if self.begin != due {
            return;
        }
        // The next line is mostly of the same turn, and then all others are due later.
        self.begin = self.wheel.due_in_turn(self.front, due);
        if self.front.turn.last < self.begin {
            self.begin = self.wheel.next_due(self.begin);
            self.front = self.wheel.start(self.begin);
        }
    }

    /// Removes all records of an instance, and says how many there were.
    pub fn remove_instance(&mut self, instance: Instance) -> u64
        ensures count { result ≡ count_by (is_of instance) self.old.lines }
        ensures left { self.new ≡ record self.old {
          lines = without_instance instance self.old.lines;
        } }
    {
        self.wheel.remove_instance(instance)
    }
}
