//! Up to which visit tenancies have the visits of each disk in the window, so that a tick looks only at those behind it.
ghost use Rattle.std.specs.Prelude.{◌≡◌, ◌<◌, ◌≤◌, IfOk, OnOk, IsTrue, get_or, slice_set};
ghost use Rattle.slot_plan.specs.declared.params.Params.{Params};
ghost use Rattle.audit_waits.specs.Seen.{AreMarks, IsMark, KeepsVisits, nothing_seen};
ghost use Rattle.audit_waits.specs.declared.holders.Holders.{Holders};

use slot_plan::Plan;
use std::alloc::Global;
use tiger_base::{DiskNo, Micros, NoMemory, SlotNo, Visit};

/// What is known of a disk's visits in the window from a reading on: each that no tenancy has comes behind the last one,
/// and there is none before another reading. It stays true while each tenancy keeps the visits that it has.
#[derive(Clone, Copy, Debug)]
pub struct Mark {
    pub from: Micros,
    pub last: Option<(SlotNo, Visit)>,
    pub until: Micros,
}

/// Marks of which nothing is known, one for each disk of a plan.
pub fn new_marks(alloc: Global, plan: &Plan) -> Result<Vec<Mark>, NoMemory>
    ensures { IfOk result (λ marks. (p : Params) (h : Holders) → AreMarks p h marks.items) }
{
    let mut marks = Vec::new(alloc);
    forget(plan, &mut marks)?;
    Ok(marks)
}

/// Forgets what is known.
fn forget(plan: &Plan, marks: &mut Vec<Mark>) -> Result<(), NoMemory>
    ensures { OnOk result ((p : Params) (h : Holders) → AreMarks p h marks.new.items) }
{
    let disks = plan.params.cubs * plan.params.disks;
    marks.clear();
    marks.resize(disks as usize, nothing_seen())?;
    Ok(())
}

/// Forgets what is known, unless each tenancy keeps the visits that it has.
pub fn keep_marks(plan: &Plan, marks: &mut Vec<Mark>, kept: bool) -> Result<(), NoMemory>
    ensures { OnOk result ((p : Params) (old new : Holders) → (IsTrue kept → KeepsVisits old new)
        → AreMarks p old marks.old.items → AreMarks p new marks.new.items) }
{
    if kept {
        return Ok(());
    }
    forget(plan, marks)
}

/// The mark of a disk.
pub fn mark_of(marks: &Vec<Mark>, disk: DiskNo) -> Mark
    ensures { result ≡ get_or marks.now.items disk.0 nothing_seen }
{
    marks
        .get(disk.0 as usize)
        .copied()
        .unwrap_or(nothing_seen())
}

/// Whether a mark says that at a reading a tenancy has each visit in the window.
pub fn is_known_at(mark: Mark, reading: Micros) -> bool
    ensures { IsTrue result → (mark.from ≤ reading) × (reading < mark.until) }
{
    mark.from <= reading && reading < mark.until
}

/// Sets the mark of a disk, if there is a place for it.
pub fn set_mark(marks: &mut Vec<Mark>, disk: DiskNo, mark: Mark)
    ensures { (p : Params) (h : Holders) → AreMarks p h marks.old.items → IsMark p h disk.0 mark
        → AreMarks p h marks.new.items }
{
    put_mark(marks, disk, mark)
}

fn put_mark(marks: &mut Vec<Mark>, disk: DiskNo, mark: Mark)
    ensures { marks.new.items ≡ slice_set marks.old.items disk.0 mark }
{
    let place = disk.0 as usize;
    if place < marks.len() {
        marks[place] = mark;
    }
}

/// What is known before any tick.
fn nothing_seen() -> Mark
    ensures { result ≡ nothing_seen }
{
    Mark {
        from: 0,
        last: None,
        until: 0,
    }
}
