//! The turns of the wheel: block play times, and the bucket of what is due in each.
ghost use Rattle.std.specs.Prelude.{◌≡◌, ◌<◌, ◌≤◌};
ghost use Rattle.partial_view.specs.Wheel.{bucket_at, IsTurn, IsTurnOf};

use crate::line::Line;
use slot_plan::Plan;
use tiger_base::Micros;

/// Times of one block play time, from the first to the last, and the bucket of what is due then.
#[derive(Clone, Copy, Debug, PartialEq, Eq)]
pub(crate) struct Turn {
    pub(crate) first: Micros,
    pub(crate) last: Micros,
    pub(crate) bucket: usize,
}

/// Where a line of a view stands, or stood: in the bucket of a turn, behind how many of its lines.
#[derive(Clone, Copy, Debug, PartialEq, Eq)]
pub(crate) struct Place {
    pub(crate) turn: Turn,
    pub(crate) row: usize,
}

/// A line that a search found, when it is due, and where it stands.
#[derive(Clone, Copy, Debug, PartialEq, Eq)]
pub(crate) struct Found {
    pub(crate) place: Place,
    pub(crate) due: Micros,
    pub(crate) line: Line,
}

impl Turn {
    /// The turn of a time.
    pub(crate) fn of(plan: &Plan, time: Micros) -> Turn
        ensures turn { IsTurnOf plan.now.params time result }
        ensures bucket { result.bucket ≡ bucket_at plan.now.params time }
        ensures below { result.bucket < plan.now.params.cubs }
    {
        let play = plan.params.play;
        let count = time / play;
        let first = count * play;
        Turn {
            first,
            last: first.saturating_add(play - 1),
            bucket: (count % plan.params.cubs) as usize,
        }
    }

    /// This turn, if a time is in it, or else the turn of the time. Most times are in the turn of
    /// the last one, and then nothing is divided.
    pub(crate) fn at(self, plan: &Plan, time: Micros) -> Turn
        requires { IsTurn plan.now.params self }
        ensures turn { IsTurnOf plan.now.params time result }
        ensures bucket { result.bucket ≡ bucket_at plan.now.params time }
    {
        if self.first <= time && time <= self.last {
            self
        } else {
            Turn::of(plan, time)
        }
    }
}

impl Place {
    /// Before the first line of the turn of a time.
    pub(crate) fn start(plan: &Plan, time: Micros) -> Place
        ensures { IsTurnOf plan.now.params time result.turn }
    {
        Place {
            turn: Turn::of(plan, time),
            row: 0,
        }
    }
}
