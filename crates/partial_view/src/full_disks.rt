//! Disks of which it is known that no visit in the window is free, at which readings, and behind
//! which visit one may be.
ghost use Rattle.std.specs.Prelude.{◌≡◌, ◌∷◌, ◌++◌, [], OnOk, OnErr, find};
ghost use Rattle.partial_view.specs.Free.{is_disk, others};

use std::alloc::Global;
use tiger_base::{DiskNo, Micros, NoMemory, SlotNo, Visit};

/// A disk, the first reading at which a visit of it may be free again, and the last visit of it
/// that was in the window when none was.
#[derive(Clone, Copy, Debug, PartialEq, Eq)]
pub(crate) struct FullDisk {
    pub(crate) disk: DiskNo,
    pub(crate) until: Micros,
    pub(crate) last: Option<(SlotNo, Visit)>,
}

/// Disks of which no visit in the window is free at a reading from one on, which is common to them,
/// and before one of each.
#[derive(Drop)]
pub(crate) struct FullDisks {
    pub(crate) from: Micros,
    pub(crate) disks: Vec<FullDisk>,
}

impl FullDisks {
    ghost use Rattle.std.specs.Prelude.{◌≡◌, List, [], true};
    ghost use Rattle.slot_plan.specs.declared.params.Params.{Params};
    ghost use Rattle.partial_view.specs.declared.line.Line.{Line};
    ghost use Rattle.std.specs.Option.{ForSome};
    ghost use Rattle.partial_view.specs.Free.{IsFullAt, IsTakenTo, HasEntered, IsFull, IsKnown, AreFull, StayFull};

    /// None. It takes no memory.
    pub(crate) fn new(alloc: Global) -> FullDisks
        ensures { result.disks.items ≡ [] }
    {
        FullDisks {
            from: 0,
            disks: Vec::new(alloc),
        }
    }

    /// Whether it is known that no visit of a disk in the window is free at a reading.
    pub(crate) fn is_full(&self, disk: DiskNo, reading: Micros) -> bool
        ensures { result ≡ true → (p : Params) (lines : List Line) →
            AreFull p self.now lines → IsFullAt p disk.0 reading lines }
    {
        let Some(known) = self.known(disk, reading) else {
            return false;
        };
        reading < known.until
    }

    /// A visit behind which each visit of a disk comes that is in the window at a reading and free;
    /// `None` says that none is known.
    pub(crate) fn taken_to(&self, disk: DiskNo, reading: Micros) -> Option<(SlotNo, Visit)>
        ensures taken { (p : Params) (lines : List Line) →
            AreFull p self.now lines → IsTakenTo p disk.0 reading result lines }
        ensures entered { (p : Params) (lines : List Line) →
            AreFull p self.now lines → ForSome result (HasEntered p reading) }
    {
        self.known(disk, reading)?.last
    }

    /// What is known of a disk at a reading.
    fn known(&self, disk: DiskNo, reading: Micros) -> Option<FullDisk>
        ensures { (p : Params) (lines : List Line) →
            AreFull p self.now lines → ForSome result (IsKnown p disk.0 reading lines) }
    {
        if reading < self.from {
            return None;
        }
        find(self.disks.as_slice(), disk)
    }

    /// Takes a disk in that is full from a reading on, in place of what was known of it. Without
    /// memory for it, it is left out.
    pub(crate) fn take_in(&mut self, from: Micros, new: FullDisk)
        ensures { (p : Params) (lines : List Line) → AreFull p self.old lines →
            IsFull p from lines new → AreFull p self.new lines }
    {
        self.begin_at(from);
        let _ = put(&mut self.disks, new);
    }

    /// Lets the disks be full from a reading on. If that is an earlier one, nothing is known of
    /// them at it, and they are left out.
    fn begin_at(&mut self, reading: Micros)
        ensures from { self.new.from ≡ reading }
        ensures full { StayFull self.old self.new }
    {
        if self.from <= reading {
            self.from = reading;
            return;
        }
        self.from = reading;
        self.disks.clear();
    }

    /// Leaves all disks out.
    pub(crate) fn clear(&mut self)
        ensures { self.new.disks.items ≡ [] }
    {
        self.disks.clear();
    }
}

/// What is there of a disk.
fn find(disks: &[FullDisk], disk: DiskNo) -> Option<FullDisk>
    ensures { result ≡ find (is_disk disk.0) disks.now }
{
    disks.iter().find(|x| x.disk.0 == disk.0).copied()
}

/// Puts a disk behind the others, in place of what is there of it; without memory for it, it only
/// takes that out.
fn put(disks: &mut Vec<FullDisk>, new: FullDisk) -> Result<(), NoMemory>
    ensures ok { OnOk result (disks.new.items ≡ others new.disk.0 disks.old.items ++ new ∷ []) }
    ensures err { OnErr result (disks.new.items ≡ others new.disk.0 disks.old.items) }
{
    remove(disks, new.disk);
    disks.push(new)?;
    Ok(())
}

/// Takes out what is there of a disk.
fn remove(disks: &mut Vec<FullDisk>, disk: DiskNo)
    ensures { disks.new.items ≡ others disk.0 disks.old.items }
{
    disks.retain(|x| x.disk.0 != disk.0);
}
