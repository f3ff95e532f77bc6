//! What was read of a text so far.
ghost use Rattle.std.specs.Prelude.{◌≡◌, ◌↔◌, ◌+◌, IfOk, IsTrue, length, if◌then◌else◌, Some, None};
ghost use Rattle.audit_text.specs.declared.item.Item.TheVariants as item;
ghost use Rattle.link_timing.specs.Clock.{FixedIsWithin};
ghost use Rattle.audit_read.specs.Drafts.{IsNext, IsSound, AreOffsets};
ghost use Rattle.audit_read.specs.declared.draft.Draft.TheVariants as draft;

use crate::given::Given;
use crate::plans::is_plan;
use crate::told::Told;
use audit_text::Item;
use link_timing::Delay;
use node_kit::Entry;
use slot_plan::Params;
use std::alloc::Global;
use std::mem;
use tiger_base::{Micros, NoMemory, Sequence};

/// The number of beats of the longest run.
const MOST_BEATS: u64 = 100000;

/// A front of a text: the lines that were read, by what the last of them was.
#[derive(Drop)]
pub enum Draft {
    /// No line.
    Empty,
    /// The line of the form.
    Begun,
    /// The numbers of the plan too.
    Planned(Params),
    /// The number of beats too.
    Lasting(Params, u64),
    /// The delay too.
    Paced(Params, u64, Delay),
    /// The clocks too, and some of what the run is given.
    Given(Given),
    /// All that the run is given, and some of its journals and digests.
    Told(Told),
    /// The whole text.
    Whole(Told),
}

fn after_nothing(line: &Item) -> Option<Draft>
    ensures { IsNext draft.Empty line.now result }
{
    match line {
        Item::Version => Some(Draft::Begun),
        _ => None,
    }
}

fn after_version(line: &Item) -> Option<Draft>
    ensures { IsNext draft.Begun line.now result }
{
    match line {
        Item::Plan(p) => {
            if is_plan(*p) {
                Some(Draft::Planned(*p))
            } else {
                None
            }
        }
        _ => None,
    }
}

fn after_plan(p: Params, line: &Item) -> Option<Draft>
    ensures { IsNext (draft.Planned p) line.now result }
{
    match line {
        Item::Beats(beats) => {
            if 1 <= *beats && *beats <= MOST_BEATS {
                Some(Draft::Lasting(p, *beats))
            } else {
                None
            }
        }
        _ => None,
    }
}

fn is_within(delay: &Delay, most: u64) -> bool
    ensures { IsTrue result ↔ FixedIsWithin delay.now most }
{
    match delay {
        Delay::Fixed(beats) => 1 <= *beats && *beats <= most,
        Delay::Drawn(_) => true,
    }
}

fn after_beats(p: Params, beats: u64, line: &Item) -> Option<Draft>
    ensures { IsNext (draft.Lasting p beats) line.now result }
{
    match line {
        Item::Delay(delay) => {
            if is_within(delay, p.delay) {
                Some(Draft::Paced(p, beats, *delay))
            } else {
                None
            }
        }
        _ => None,
    }
}

/// Whether there is an offset for each cub and for the controller, and none is above the skew.
fn are_offsets(p: &Params, offsets: &[Micros]) -> bool
    ensures { IsTrue result ↔ AreOffsets p.now offsets.now }
{
    offsets.len() as u128 == p.cubs as u128 + 1 && offsets.iter().all(|o| *o <= p.skew)
}

fn after_delay(alloc: Global, p: Params, beats: u64, delay: Delay, line: Item) -> Option<Draft>
    ensures { IsNext (draft.Paced p beats delay) line result }
{
    match line {
        Item::Offsets(offsets) => {
            if are_offsets(&p, offsets.as_slice()) {
                Some(Draft::Given(Given::new(alloc, p, beats, delay, offsets)))
            } else {
                None
            }
        }
        _ => None,
    }
}

impl Draft {
    /// Reads this line, if it may stand next; nothing is said of the draft if it may not.
    pub fn take(&mut self, alloc: Global, line: Item) -> Result<bool, NoMemory>
        requires { IsSound self.old }
        ensures { IfOk result (λ yes.
            IsNext self.old line (if yes then Some self.new else None)) }
    {
        match line {
            Item::Entry(e) => self.entry(e),
            other => self.turn(alloc, other),
        }
    }

    /// Reads an entry, which nearly all lines are: so the draft stays where it is.
    pub fn entry(&mut self, e: Entry) -> Result<bool, NoMemory>
        requires { IsSound self.old }
        ensures { IfOk result (λ yes.
            IsNext self.old (item.Entry e) (if yes then Some self.new else None)) }
    {
        match self {
            Draft::Told(told) => told.entry(e),
            Draft::Empty => Ok(false),
            Draft::Begun => Ok(false),
            Draft::Planned(_) => Ok(false),
            Draft::Lasting(_, _) => Ok(false),
            Draft::Paced(_, _, _) => Ok(false),
            Draft::Given(_) => Ok(false),
            Draft::Whole(_) => Ok(false),
        }
    }

    /// Reads a line of any kind.
    fn turn(&mut self, alloc: Global, line: Item) -> Result<bool, NoMemory>
        requires { IsSound self.old }
        ensures { IfOk result (λ yes.
            IsNext self.old line (if yes then Some self.new else None)) }
    {
        let before = mem::replace(self, Draft::Empty);
        match before.grown(alloc, line)? {
            Some(longer) => {
                *self = longer;
                Ok(true)
            }
            None => Ok(false),
        }
    }

    /// What was read with this line, if it may stand next.
    fn grown(self, alloc: Global, line: Item) -> Result<Option<Draft>, NoMemory>
        requires { IsSound self }
        ensures { IfOk result (λ o. IsNext self line o) }
    {
        match self {
            Draft::Empty => Ok(after_nothing(&line)),
            Draft::Begun => Ok(after_version(&line)),
            Draft::Planned(p) => Ok(after_plan(p, &line)),
            Draft::Lasting(p, beats) => Ok(after_beats(p, beats, &line)),
            Draft::Paced(p, beats, delay) => Ok(after_delay(alloc, p, beats, delay, line)),
            Draft::Given(given) => given.take(alloc, line),
            Draft::Told(told) => told.take(alloc, line),
            Draft::Whole(_) => Ok(None),
        }
    }
}
