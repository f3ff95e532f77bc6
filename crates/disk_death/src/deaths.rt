//! From when on the disks of a cub are dead, by the read faults of a run.
ghost use Rattle.std.specs.Prelude.{◌≡◌, ◌<◌, IfOk};
ghost use Rattle.disk_death.specs.Deaths.{kills_disk, earlier_death, death_by_fault, death_of_disk, deaths_at};

use node_kit::ReadFault;
use slot_plan::Plan;
use std::alloc::Global;
use tiger_base::{Beat, CubNo, DiskNo, NoMemory};

/// From which beat on each disk of a cub is dead, if it dies, in their order, in a run of so many beats with these read
/// faults.
pub fn deaths_of(
    alloc: Global,
    plan: &Plan,
    faults: &[ReadFault],
    beats: Beat,
    cub: CubNo,
) -> Result<Vec<Option<Beat>>, NoMemory>
    requires { cub.0 < plan.now.params.cubs }
    ensures { IfOk result (λ deaths. deaths.items
        ≡ deaths_at plan.now.params faults.now beats cub.0) }
{
    let mut deaths = Vec::new(alloc);
    for row in 0..plan.params.disks {
        let disk = DiskNo((u64::from(cub.0) + row * plan.params.cubs) as u32);
        deaths.push(death_of_disk(faults, beats, disk))?;
    }
    Ok(deaths)
}

/// From which beat on a disk is dead, if it dies.
pub fn death_of_disk(faults: &[ReadFault], beats: Beat, disk: DiskNo) -> Option<Beat>
    ensures { result ≡ death_of_disk faults.now beats disk.0 }
{
    let mut death = None;
    for i in (0..faults.len()).rev() {
        death = death_by_fault(beats, disk, &faults[i], death);
    }
    death
}

/// From which beat on a disk is dead by a fault and those behind it.
fn death_by_fault(beats: Beat, disk: DiskNo, fault: &ReadFault, death: Option<Beat>) -> Option<Beat>
    ensures { result ≡ death_by_fault beats disk.0 fault.now death }
{
    if kills_disk(beats, disk, fault) {
        earlier_death(fault.from, death)
    } else {
        death
    }
}

/// Whether a fault is of a disk and lasts to the end of a run of so many beats.
fn kills_disk(beats: Beat, disk: DiskNo, fault: &ReadFault) -> bool
    ensures { result ≡ kills_disk beats disk.0 fault.now }
{
    fault.disk.0 == disk.0 && fault.until == beats
}

/// The earlier one of a beat and another, if there is one.
fn earlier_death(from: Beat, other: Option<Beat>) -> Option<Beat>
    ensures { result ≡ earlier_death from other }
{
    match other {
        Some(other) => Some(from.min(other)),
        None => Some(from),
    }
}
