//! A record of a view, and what was done for it.
ghost use Rattle.std.specs.Prelude.{◌≡◌};
ghost use Rattle.partial_view.specs.Lines.{marked, key_of, unmarked};
ghost use Rattle.partial_view.specs.Work.{is_left};

use tiger_base::{Rec, SlotNo, Visit};

/// A record, and what was done for it.
#[derive(Clone, Copy, Debug, PartialEq, Eq)]
pub struct Line {
    /// The record.
    pub rec: Rec,
    /// Its next visit's state was sent on.
    pub forwarded: bool,
    /// Its block was asked of the disk.
    pub asked: bool,
    /// It was split into mirror pieces.
    pub split: bool,
}

/// What can be noted of a record.
#[derive(Clone, Copy, Debug, PartialEq, Eq)]
pub enum Flag {
    /// Its next visit's state was sent on.
    Forwarded,
    /// Its block was asked of the disk.
    Asked,
    /// It was split into mirror pieces.
    Split,
}

/// What may be left to do for a line.
#[derive(Clone, Copy, Debug, PartialEq, Eq)]
pub(crate) enum Work {
    /// The state of the next visit is to be sent on: an own record below its tenancy's last visit.
    Forward,
    /// The block is to be asked for: an own record.
    Ask,
    /// The visit is to be split: a backup record.
    Split,
    /// The block is to be sent: an own record.
    Serve,
    /// The record is to be dropped: a backup record.
    Drop,
}

impl Line {
    /// Whether some work is left to do for it, once it is late enough.
    pub(crate) fn is_left(&self, work: Work) -> bool
        ensures { result ≡ is_left work self.now }
    {
        match work {
            Work::Forward => {
                self.rec.kind.is_own() && self.rec.visit < self.rec.tenancy.last && !self.forwarded
            }
            Work::Ask => self.rec.kind.is_own() && !self.asked,
            Work::Split => !self.rec.kind.is_own() && !self.split,
            Work::Serve => self.rec.kind.is_own(),
            Work::Drop => !self.rec.kind.is_own(),
        }
    }

    /// The line of a record for which nothing was done yet.
    pub(crate) fn unmarked(rec: Rec) -> Line
        ensures { result ≡ unmarked rec }
    {
        Line {
            rec,
            forwarded: false,
            asked: false,
            split: false,
        }
    }

    /// The line with a flag set.
    pub(crate) fn marked(self, flag: Flag) -> Line
        ensures { result ≡ marked flag self }
    {
        let mut line = self;
        match flag {
            Flag::Forwarded => line.forwarded = true,
            Flag::Asked => line.asked = true,
            Flag::Split => line.split = true,
        }
        line
    }

    /// The slot and the visit of its record.
    pub fn key(&self) -> (SlotNo, Visit)
        ensures { result ≡ key_of self.now }
    {
        (self.rec.tenancy.slot, self.rec.visit)
    }
}
