//! A wheel of buckets, one for each cub, which the block play times fill in turn: a search looks
//! into as few of them as it can.
ghost use Rattle.std.specs.Prelude.{◌≡◌, ◌==◌, ◌+◌, ◌^◌, ◌≤◌, ◌<◌, [], None, Some, IfOk, OnOk, OnErr, IfSome, option_map, is_some, count_by, length, min, slice_get};
ghost use Rattle.std.specs.Option.{ForSome};
ghost use Rattle.slot_plan.specs.Keys.{IsKey, due_of};
ghost use Rattle.partial_view.specs.Adding.{answer_to};
ghost use Rattle.partial_view.specs.Lines.{key_of, visit_of, is_of};
ghost use Rattle.partial_view.specs.Passing.{NonePasses};
ghost use Rattle.partial_view.specs.Spread.{AreInSpan};
ghost use Rattle.partial_view.specs.Views.{Seen, IsWalk, line_at, first_of, next_behind, with_mark, without, without_instance, with_record};
ghost use Rattle.partial_view.specs.Wheel.{bucket_at, bucket_lines, all_lines, IsTurn, IsTurnOf, IsWheel, IsThere, sooner};
ghost use Rattle.partial_view.specs.Work.{is_left, first_between, with_mark_of, without_of, NoneBetween};

use crate::bucket::Bucket;
use crate::line::{Flag, Line, Work};
use crate::spread::{Span, bounds};
use crate::turn::{Found, Place, Turn};
use crate::view::Added;
use slot_plan::Plan;
use std::alloc::Global;
use std::marker::Model;
use tiger_base::{Instance, Micros, NoMemory, Rec, SlotNo, Visit};

/// How many lines are looked through for the next one for which some work is left to do. While a
/// cub's predecessor is dead, its own lines come in one by one before many for which all is done.
const FEW: usize = 16;

/// Lines of a plan's visits, by slot and visit, walked by due time, then slot, then visit.
#[derive(Drop)]
pub(crate) struct Wheel {
    alloc: Global,
    plan: Plan,
    // The first of the buckets; the others have no line yet.
    buckets: Vec<Bucket>,
    // The turn of the record that was added last: the next one is mostly of the same.
    recent: Turn,
}

impl Model for Wheel {
    ghost use Rattle.std.specs.Prelude.{◌≡◌};
    ghost use Rattle.partial_view.specs.Views.{Seen};
    ghost use Rattle.partial_view.specs.Wheel.{all_lines, IsWheel, IsTurn};

    ghost Value = { Seen };

    ghost view = { λ v. record {
      params = v.plan.params;
      lines = all_lines v.plan.params v.buckets.items;
    } };

    ghost invariant = { λ v. IsWheel v.plan.params v.buckets.items
        × IsTurn v.plan.params v.recent };
}

impl Wheel {
    /// The wheel of a plan that has no line yet. It takes no memory.
    pub(crate) fn new(alloc: Global, plan: &Plan) -> Wheel
        ensures { result ≡ record { params = plan.now.params; lines = [] } }
    {
        Wheel {
            alloc,
            plan: *plan,
            buckets: Vec::new(alloc),
            recent: Turn::of(plan, 0),
        }
    }

    /// Lends the lines of a bucket, in their order. It takes no memory.
    pub(crate) fn bucket(&self, i: u32) -> &[Line]
        requires { i < self.now.params.cubs }
        ensures { result.now ≡ bucket_lines self.now.params i self.now.lines }
    {
        if self.buckets.len() <= i as usize {
            return &[];
        }
        self.buckets[i as usize].lines()
    }

    /// When a visit is due.
    pub(crate) fn due(&self, key: (SlotNo, Visit)) -> Micros
        requires { IsKey self.now.params key }
        ensures due { result ≡ due_of self.now.params key }
        ensures fits { result ≤ 2 ^ 63 }
    {
        self.plan.due(key.0, key.1)
    }

    /// Before the first line of the turn of a time.
    pub(crate) fn start(&self, time: Micros) -> Place
        ensures { IsTurn self.now.params result.turn }
    {
        Place {
            turn: self.recent.at(&self.plan, time),
            row: 0,
        }
    }

    /// The bucket of what is due at a time.
    pub(crate) fn bucket_at(&self, time: Micros) -> usize
        ensures { result ≡ bucket_at self.now.params time }
    {
        self.recent.at(&self.plan, time).bucket
    }

    /// The lines stand in their order, with one line for each visit.
    pub(crate) fn are_in_order(&self)
        ensures { IsWalk self.now.params self.now.lines }
    {
        let _ = &self.plan;
    }

    /// Adds a record whose due time is at hand, with no flag set, if its slot and visit have none;
    /// else, and without memory for it, nothing changes.
    pub(crate) fn add(&mut self, rec: Rec, due: Micros) -> Result<Added, NoMemory>
        requires key { IsKey self.old.params (visit_of rec) }
        requires due { due ≡ due_of self.old.params (visit_of rec) }
        ensures answer { IfOk result (λ added. added ≡ answer_to rec self.old.lines) }
        ensures ok { OnOk result (self.new ≡ record self.old {
          lines = with_record self.old.params rec self.old.lines;
        }) }
        ensures err { OnErr result (self.new ≡ self.old) }
    {
        self.recent = self.recent.at(&self.plan, due);
        let bucket = self.recent.bucket;
        grow(self.alloc, &self.plan, &mut self.buckets, bucket)?;
        self.buckets[bucket].add(rec, due)
    }

    /// The line of a visit whose due time is at hand; `None` exactly if there is none.
    pub(crate) fn line(&self, key: (SlotNo, Visit), due: Micros) -> Option<Line>
        requires { due ≡ due_of self.now.params key }
        ensures { result ≡ line_at key self.now.lines }
    {
        let turn = self.recent.at(&self.plan, due);
        let bucket = self.buckets.get(turn.bucket)?;
        let row = bucket.find(key, due)?;
        Some(bucket.line_at(row))
    }

    /// The first line of an instance; `None` exactly if it has none. Only the buckets of a span are
    /// looked into, if one is given.
    pub(crate) fn first_of(&self, instance: Instance, span: Option<Span>) -> Option<Line>
        requires { AreInSpan self.now.params instance span self.now.lines }
        ensures { result ≡ first_of instance self.now.lines }
    {
        first_of(&self.plan, self.buckets.as_slice(), instance, span)
    }

    /// The next line behind a slot and visit, or the first if none is given; `None` exactly if
    /// there is none.
    pub(crate) fn after(&self, key: Option<(SlotNo, Visit)>) -> Option<Line>
        requires { ForSome key (IsKey self.now.params) }
        ensures { result ≡ next_behind self.now.params key self.now.lines }
    {
        if let Some(last) = key {
            if let Some(line) = self.next_in_turn(last) {
                return Some(line);
            }
        }
        soonest_behind(&self.plan, self.buckets.as_slice(), key)
    }

    /// The next line behind a slot and visit, if it is due in the same turn.
    fn next_in_turn(&self, key: (SlotNo, Visit)) -> Option<Line>
        requires { IsKey self.now.params key }
        ensures { IfSome result (λ line.
            Some line ≡ next_behind self.now.params (Some key) self.now.lines) }
    {
        let due = self.plan.due(key.0, key.1);
        let turn = self.recent.at(&self.plan, due);
        next_in_turn(&self.plan, self.buckets.as_slice(), turn, key, due)
    }

    /// A time before which no line is due that is due at a given one or later: mostly when the
    /// first of these lines is due, but at most the end of the given time's turn. The line is
    /// looked for at a place first, and any place serves.
    pub(crate) fn due_in_turn(&self, near: Place, time: Micros) -> Micros
        requires { IsTurn self.now.params near.turn }
        ensures next { NoneBetween self.now.params time result self.now.lines }
        ensures later { time ≤ result }
    {
        let turn = near.turn.at(&self.plan, time);
        let end = turn.last.saturating_add(1);
        match self.buckets.get(turn.bucket) {
            Some(bucket) => bucket.next_due(near.row, time).min(end),
            None => end,
        }
    }

    /// A time before which no line is due for which some work is left to do and which is due at a
    /// given time or later: when the first of these lines is due, but at most the end of the
    /// given time's turn, and only some lines are looked through for it. It is looked for at a
    /// place first, and any place serves.
    pub(crate) fn left_in_turn(&self, work: Work, near: Place, from: Micros) -> Micros
        requires { IsTurn self.now.params near.turn }
        ensures { NonePasses self.now.params (is_left work) from result self.now.lines }
    {
        let turn = near.turn.at(&self.plan, from);
        let place = Place {
            turn,
            row: near.row,
        };
        let end = self.due_behind(place).max(from).min(turn.last);
        match first_in_turn(&self.plan, self.buckets.as_slice(), work, place, from, end) {
            Some(found) => found.due,
            None => end.saturating_add(1),
        }
    }

    /// When the line is due that stands so many lines behind a place as are looked through, or the
    /// last time of all if there is none.
    fn due_behind(&self, place: Place) -> Micros {
        match self.buckets.get(place.turn.bucket) {
            Some(bucket) => bucket.due_or_last(place.row.saturating_add(FEW)),
            None => u64::MAX,
        }
    }

    /// A time before which no line is due that is due at a given one or later: when the first of
    /// these lines is due, or the last time of all if there is none.
    pub(crate) fn next_due(&self, time: Micros) -> Micros
        ensures next { NoneBetween self.now.params time result self.now.lines }
        ensures later { time ≤ result }
    {
        let mut least = u64::MAX;
        for bucket in self.buckets.as_slice() {
            least = least.min(bucket.next_due(0, time));
        }
        least
    }

    /// Sets a flag of the line of a visit whose due time is at hand; `false` exactly if there is
    /// none.
    pub(crate) fn mark(&mut self, key: (SlotNo, Visit), due: Micros, flag: Flag) -> bool
        requires { due ≡ due_of self.old.params key }
        ensures found { result ≡ is_some (line_at key self.old.lines) }
        ensures marked { self.new ≡ record self.old {
          lines = with_mark key flag self.old.lines;
        } }
    {
        let Some(found) = find(&self.plan, self.buckets.as_slice(), key, due) else {
            return false;
        };
        self.buckets[found.place.turn.bucket].mark(found.place.row, flag);
        true
    }

    /// Sets a flag of the first line for which some work is left to do and which is due at a time
    /// or later, and at another or before it, and gives the line as it was; `None` exactly if there
    /// is none. The line is looked for at a place first, and any place serves.
    pub(crate) fn mark_first(
        &mut self,
        work: Work,
        near: Place,
        from: Micros,
        to: Micros,
        flag: Flag,
    ) -> Option<Found>
        requires { IsTurn self.old.params near.turn }
        ensures first { option_map (λ f. f.line) result
            ≡ first_between self.old.params (is_left work) from to self.old.lines }
        ensures due { IfSome result (λ f. f.due ≡ due_of self.old.params (key_of f.line)) }
        ensures turn { IfSome result (λ f. IsTurnOf self.old.params f.due f.place.turn) }
        ensures marked { self.new ≡ record self.old {
          lines = with_mark_of flag (option_map (λ f. f.line) result) self.old.lines;
        } }
    {
        let buckets = self.buckets.as_slice();
        let found = first_between(&self.plan, buckets, work, near, from, to)?;
        self.buckets[found.place.turn.bucket].mark(found.place.row, flag);
        Some(found)
    }

    /// Takes the first line out for which some work is left to do and which is due at a time or
    /// later, and at another or before it, and gives it; `None` exactly if there is none. The line
    /// is looked for at a place first, and any place serves.
    pub(crate) fn take_first(
        &mut self,
        work: Work,
        near: Place,
        from: Micros,
        to: Micros,
    ) -> Option<Found>
        requires { IsTurn self.old.params near.turn }
        ensures first { option_map (λ f. f.line) result
            ≡ first_between self.old.params (is_left work) from to self.old.lines }
        ensures due { IfSome result (λ f. f.due ≡ due_of self.old.params (key_of f.line)) }
        ensures turn { IfSome result (λ f. IsTurnOf self.old.params f.due f.place.turn) }
        ensures left { self.new ≡ record self.old {
          lines = without_of (option_map (λ f. f.line) result) self.old.lines;
        } }
    {
        let buckets = self.buckets.as_slice();
        let found = first_between(&self.plan, buckets, work, near, from, to)?;
        self.buckets[found.place.turn.bucket].take(found.place.row);
        Some(found)
    }

    /// Removes the line of a visit whose due time is at hand, and gives it; `None` exactly if there
    /// was none.
    pub(crate) fn remove(&mut self, key: (SlotNo, Visit), due: Micros) -> Option<Line>
        requires { due ≡ due_of self.old.params key }
        ensures line { result ≡ line_at key self.old.lines }
        ensures left { self.new ≡ record self.old { lines = without key self.old.lines } }
    {
        let found = find(&self.plan, self.buckets.as_slice(), key, due)?;
        self.buckets[found.place.turn.bucket].take(found.place.row);
        Some(found.line)
    }

    /// Removes all lines of an instance, and says how many there were.
    pub(crate) fn remove_instance(&mut self, instance: Instance) -> u64
        ensures count { result ≡ count_by (is_of instance) self.old.lines }
        ensures left { self.new ≡ record self.old {
          lines = without_instance instance self.old.lines;
        } }
    {
        without_each(&self.plan, &mut self.buckets, instance)
    }
}

/// Puts empty buckets behind the others, until there is one at a place; without memory for them no
/// line changes.
fn grow(alloc: Global, plan: &Plan, buckets: &mut Vec<Bucket>, place: usize) -> Result<(), NoMemory>
    requires wheel { IsWheel plan.now.params buckets.old.items }
    requires place { place < plan.now.params.cubs }
    ensures wheel { IsWheel plan.now.params buckets.new.items }
    ensures lines { let p = plan.now.params in
        all_lines p buckets.new.items ≡ all_lines p buckets.old.items }
    ensures there { OnOk result (place < length buckets.new.items) }
{
    while buckets.len() <= place {
        buckets.push(Bucket::new(alloc, plan))?;
    }
    Ok(())
}

/// The line of a visit whose due time is at hand, and where it stands; `None` exactly if there is
/// none.
fn find(plan: &Plan, buckets: &[Bucket], key: (SlotNo, Visit), due: Micros) -> Option<Found>
    requires wheel { IsWheel plan.now.params buckets.now }
    requires due { due ≡ due_of plan.now.params key }
    ensures line { option_map (λ f. f.line) result
        ≡ line_at key (all_lines plan.now.params buckets.now) }
    ensures there { IfSome result (IsThere plan.now.params buckets.now) }
{
    let turn = Turn::of(plan, due);
    let bucket = buckets.get(turn.bucket)?;
    let row = bucket.find(key, due)?;
    Some(found_at(bucket, turn, row))
}

/// The line that stands in the bucket of a turn behind a number of others.
fn found_at(bucket: &Bucket, turn: Turn, row: usize) -> Found
    requires { row < length bucket.now.lines }
    ensures place { result.place ≡ record { turn = turn; row = row } }
    ensures line { slice_get bucket.now.lines row ≡ Some result.line }
    ensures due { result.due ≡ due_of bucket.now.params (key_of result.line) }
{
    Found {
        place: Place { turn, row },
        due: bucket.due_at(row),
        line: bucket.line_at(row),
    }
}

/// The first line for which some work is left to do and which is due at a time or later, and at
/// another or before it, and where it stands; `None` exactly if there is none. It is looked for at
/// a place first, and any place serves. The buckets are looked into turn by turn.
fn first_between(
    plan: &Plan,
    buckets: &[Bucket],
    work: Work,
    near: Place,
    from: Micros,
    to: Micros,
) -> Option<Found>
    requires wheel { IsWheel plan.now.params buckets.now }
    requires turn { IsTurn plan.now.params near.turn }
    ensures first { let p = plan.now.params in option_map (λ f. f.line) result
        ≡ first_between p (is_left work) from to (all_lines p buckets.now) }
    ensures there { IfSome result (IsThere plan.now.params buckets.now) }
{
    let mut row = near.row;
    let mut turn = near.turn.at(plan, from);
    let mut start = from;
    while start <= to {
        let found = first_in_turn(plan, buckets, work, Place { turn, row }, start, to);
        if found.is_some() || to <= turn.last {
            return found;
        }
        start = turn.last + 1;
        turn = Turn::of(plan, start);
        row = 0;
    }
    None
}

/// The first line as `first_between` gives it, of those that are due in the turn of the place.
fn first_in_turn(
    plan: &Plan,
    buckets: &[Bucket],
    work: Work,
    near: Place,
    from: Micros,
    to: Micros,
) -> Option<Found>
    requires wheel { IsWheel plan.now.params buckets.now }
    requires turn { IsTurnOf plan.now.params from near.turn }
    requires to { from ≤ to }
    ensures first { let p = plan.now.params in option_map (λ f. f.line) result
        ≡ first_between p (is_left work) from (min to near.turn.last) (all_lines p buckets.now) }
    ensures there { IfSome result (IsThere plan.now.params buckets.now) }
{
    let turn = near.turn;
    let bucket = buckets.get(turn.bucket)?;
    let row = bucket.first_between(work, near.row, from, to.min(turn.last))?;
    Some(found_at(bucket, turn, row))
}

/// The next line behind a visit whose due time and turn are at hand, if it is due in the same turn:
/// then it stands in the same bucket, so that a walk looks into one bucket for most lines.
fn next_in_turn(
    plan: &Plan,
    buckets: &[Bucket],
    turn: Turn,
    key: (SlotNo, Visit),
    due: Micros,
) -> Option<Line>
    requires wheel { IsWheel plan.now.params buckets.now }
    requires due { due ≡ due_of plan.now.params key }
    requires turn { IsTurnOf plan.now.params due turn }
    ensures { let p = plan.now.params in IfSome result (λ line.
        Some line ≡ next_behind p (Some key) (all_lines p buckets.now)) }
{
    let bucket = buckets.get(turn.bucket)?;
    let row = bucket.row_behind(key, due);
    if row < bucket.lines().len() {
        let next = found_at(bucket, turn, row);
        if next.due <= turn.last {
            return Some(next.line);
        }
    }
    None
}

/// The next line behind a slot and visit, or the first if none is given: the soonest one of all
/// buckets.
fn soonest_behind(plan: &Plan, buckets: &[Bucket], key: Option<(SlotNo, Visit)>) -> Option<Line>
    requires wheel { IsWheel plan.now.params buckets.now }
    requires key { ForSome key (IsKey plan.now.params) }
    ensures next { let p = plan.now.params in
        result ≡ next_behind p key (all_lines p buckets.now) }
    ensures key { IfSome result (λ line. IsKey plan.now.params (key_of line)) }
{
    let mut best = None;
    for i in (0..buckets.len()).rev() {
        best = sooner(plan, buckets[i].after(key), best);
    }
    best
}

/// The first line of an instance: the soonest one of the buckets of a span, or of all if none is
/// given.
fn first_of(plan: &Plan, buckets: &[Bucket], instance: Instance, span: Option<Span>) -> Option<Line>
    requires wheel { IsWheel plan.now.params buckets.now }
    requires span { let p = plan.now.params in
        AreInSpan p instance span (all_lines p buckets.now) }
    ensures { result ≡ first_of instance (all_lines plan.now.params buckets.now) }
{
    let mut best = None;
    let (from, to) = bounds(span, buckets.len());
    for i in (from..to).rev() {
        best = sooner(plan, buckets[i].first_of(instance), best);
    }
    best
}

/// The one of two lines that comes first, if both are there.
fn sooner(plan: &Plan, first: Option<Line>, second: Option<Line>) -> Option<Line>
    requires first { IfSome first (λ x. IsKey plan.now.params (key_of x)) }
    requires second { IfSome second (λ x. IsKey plan.now.params (key_of x)) }
    ensures { result ≡ sooner plan.now.params first second }
{
    let Some(x) = first else {
        return second;
    };
    let Some(y) = second else {
        return first;
    };
    if plan.is_earlier(y.key(), x.key()) {
        second
    } else {
        first
    }
}

/// Takes all lines of an instance out of each bucket, and says how many there were.
fn without_each(plan: &Plan, buckets: &mut Vec<Bucket>, instance: Instance) -> u64
    requires wheel { IsWheel plan.now.params buckets.old.items }
    ensures wheel { IsWheel plan.now.params buckets.new.items }
    ensures count { let p = plan.now.params in
        result ≡ count_by (is_of instance) (all_lines p buckets.old.items) }
    ensures left { let p = plan.now.params in
        all_lines p buckets.new.items ≡ without_instance instance (all_lines p buckets.old.items) }
{
    let mut count = 0;
    for i in 0..buckets.len() {
        count += buckets[i].remove_instance(instance);
    }
    count
}
