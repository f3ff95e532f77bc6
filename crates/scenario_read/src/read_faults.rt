//! Reading the read faults of a scenario.
ghost use Rattle.std.specs.Prelude.{◌≡◌, ◌≤◌, [], map, length};
ghost use Rattle.serde_json.specs.View.{view};
ghost use Rattle.scenario_read.specs.Fault.{Gives, GivesAs};
ghost use Rattle.scenario_read.specs.Items.{items_after};
ghost use Rattle.scenario_read.specs.ReadFaults.{fault_on, read_fault_of, read_fault_after, read_faults_of};

use crate::stop::{ReadStop, broken};
use json_look::{below, has_only, ranged, sized_array};
use node_kit::ReadFault;
use serde_json::Value;
use std::alloc::Global;
use tiger_base::{DiskNo, Sequence};

/// The read fault of this disk.
#[tactic(auto, unfolding(crate::specs::ReadFaults::fault_on))]
fn fault_on(beats: u64, disk: DiskNo, value: &Value) -> Option<ReadFault>
    ensures { result ≡ fault_on beats disk.0 (view value.now) }
{
    let until = ranged(value, "until", 1, beats)?;
    let from = below(value, "from", until)?;
    Some(ReadFault { disk, from, until })
}

/// A read fault of one of so many disks.
#[tactic(auto, unfolding(crate::specs::ReadFaults::read_fault_of))]
fn read_fault_of(disks: u64, beats: u64, value: &Value) -> Option<ReadFault>
    requires { disks ≤ 512 }
    ensures { result ≡ read_fault_of disks beats (view value.now) }
{
    if !has_only(value, &["disk", "from", "until"]) {
        return None;
    }
    let disk = below(value, "disk", disks)?;
    fault_on(beats, DiskNo(disk as u32), value)
}

fn read_faults_after(
    alloc: Global,
    disks: u64,
    beats: u64,
    values: &[Value],
) -> Result<Vec<ReadFault>, ReadStop>
    requires disks { disks ≤ 512 }
    requires few { length values.now ≤ 1000 }
    ensures { GivesAs (λ v. v.items) result (items_after 12 (read_fault_after disks beats) [] (map view values.now)) }
{
    let mut faults = Vec::new(alloc);
    for value in values {
        let Some(fault) = read_fault_of(disks, beats, value) else {
            return Err(broken(12, faults.len() as u32));
        };
        faults.push(fault)?;
    }
    Ok(faults)
}

/// The read faults of so many disks in a run of so many beats; none where none are given.
#[tactic(auto, unfolding(crate::specs::ReadFaults::read_faults_of, crate::specs::Items::items_of))]
pub fn read_faults_of(
    alloc: Global,
    disks: u64,
    beats: u64,
    top: &Value,
) -> Result<Sequence<ReadFault>, ReadStop>
    requires { disks ≤ 512 }
    ensures { Gives result (read_faults_of disks beats (view top.now)) }
{
    let Some(value) = top.get("read_faults") else {
        return Ok(Sequence::new(Vec::new(alloc)));
    };
    let Some(values) = sized_array(value, 0, 1000) else {
        return Err(broken(12, 1000));
    };
    Ok(Sequence::new(read_faults_after(alloc, disks, beats, values)?))
}
