//! The read faults of a run, of which an ask meets those of one disk alone.
ghost use Rattle.std.specs.Prelude.{◌≡◌, ℕ, [], get_or, IfOk, OnOk};
ghost use Rattle.std.specs.List.{list_any};
ghost use Rattle.audit_schedule.specs.Failures.{lasts_at};
ghost use Rattle.audit_schedule.specs.DiskRows.{AreFaultRows, HasTakenFault};

use node_kit::ReadFault;
use std::alloc::Global;
use std::marker::Model;
use tiger_base::{Beat, NoMemory, Sequence};

/// The read faults of a run, seen as the list of them.
#[derive(Drop)]
pub(crate) struct Faults<'f> {
    all: &'f [ReadFault],
    // Those of each disk once more, in the row of the disk's number.
    rows: Vec<Sequence<ReadFault>>,
}

impl<'f> Model for Faults<'f> {
    ghost use Rattle.std.specs.Prelude.{List};
    ghost use Rattle.node_kit.specs.declared.course.ReadFault.{ReadFault};
    ghost use Rattle.audit_schedule.specs.DiskRows.{AreFaultRows};

    ghost Value = { List ReadFault };

    ghost view = { λ f. f.all.now };

    ghost invariant = { λ f. AreFaultRows f.rows.items f.all.now };
}

impl<'f> Faults<'f> {
    /// These faults.
    pub(crate) fn of(alloc: Global, all: &'f [ReadFault]) -> Result<Faults<'f>, NoMemory>
        ensures { IfOk result (λ faults. faults ≡ all.now) }
    {
        let rows = rows_of(alloc, all)?;
        Ok(Faults { all, rows })
    }

    /// Whether a fault of a disk lasts in a beat.
    pub(crate) fn some_lasts(&self, disk: u64, beat: Beat) -> bool
        ensures { result ≡ list_any (lasts_at disk beat) self.now }
    {
        some_lasts_in(&self.rows, disk, beat)
    }
}

/// The faults of each disk, in the row of its number.
fn rows_of(alloc: Global, faults: &[ReadFault]) -> Result<Vec<Sequence<ReadFault>>, NoMemory>
    ensures { IfOk result (λ rows. AreFaultRows rows.items faults.now) }
{
    let mut rows = Vec::new(alloc);
    for fault in faults {
        push_fault(&mut rows, *fault)?;
    }
    Ok(rows)
}

/// Puts a fault at the end of the row of its disk.
fn push_fault(rows: &mut Vec<Sequence<ReadFault>>, fault: ReadFault) -> Result<(), NoMemory>
    ensures { OnOk result (HasTakenFault fault.disk.0 fault rows.old.items rows.new.items) }
{
    make_row(rows, fault.disk.0)?;
    push_at(rows, fault.disk.0, fault)?;
    Ok(())
}

/// Makes the row of a disk, and those before it. The faults are as before.
fn make_row(rows: &mut Vec<Sequence<ReadFault>>, disk: u32) -> Result<(), NoMemory>
    ensures { OnOk result ((n : ℕ) → get_or rows.new.items n [] ≡ get_or rows.old.items n []) }
{
    let alloc = *rows.allocator();
    while rows.len() as u64 <= disk as u64 {
        rows.push(Sequence::new(Vec::new(alloc)))?;
    }
    Ok(())
}

/// Puts a fault at the end of the row at a place.
fn push_at(
    rows: &mut Vec<Sequence<ReadFault>>,
    place: u32,
    fault: ReadFault,
) -> Result<(), NoMemory>
    ensures { OnOk result (HasTakenFault place fault rows.old.items rows.new.items) }
{
    let row = rows.get_mut(place as usize).ok_or(NoMemory)?;
    row.push(fault)
}

/// Whether a fault in the row of a disk lasts in a beat.
fn some_lasts_in(rows: &Vec<Sequence<ReadFault>>, disk: u64, beat: Beat) -> bool
    ensures { result ≡ list_any (lasts_at disk beat) (get_or rows.now.items disk []) }
{
    match rows.get(disk as usize) {
        Some(row) => has_fault(row.as_slice(), disk, beat),
        None => false,
    }
}

/// Whether a fault of a disk lasts in a beat, of some faults.
fn has_fault(faults: &[ReadFault], disk: u64, beat: Beat) -> bool
    ensures { result ≡ list_any (lasts_at disk beat) faults.now }
{
    faults.iter().any(|f| f.disk.0 as u64 == disk && f.from <= beat && beat < f.until)
}
