//! Reading the files of a scenario.
ghost use Rattle.std.specs.Prelude.{◌≡◌, ◌≤◌, ◌<◌, [], map, length, IfOk, option_map};
ghost use Rattle.serde_json.specs.View.{view};
ghost use Rattle.scenario_read.specs.Fault.{Gives, GivesAs, broken, found};
ghost use Rattle.scenario_read.specs.Items.{items_after};
ghost use Rattle.scenario_read.specs.Files.{name_of, file_of, file_after, files_of};

use crate::scenario::{FileLine, Name};
use crate::stop::{ReadStop, broken};
use json_look::{below, has_only, sized_array};
use serde_json::Value;
use std::alloc::Global;
use tiger_base::{DiskNo, Sequence};

#[tactic(auto, unfolding(crate::specs::Files::name_of))]
fn name_of(value: &Value) -> Option<&str>
    ensures { option_map (λ s. s.now) result ≡ name_of (view value.now) }
{
    let name = value.get("name")?.as_str()?;
    if 1 <= name.len() && name.len() <= 200 {
        Some(name)
    } else {
        None
    }
}

/// The file of this index, on one of so many disks.
#[tactic(auto, unfolding(crate::specs::Files::file_of))]
fn file_of(alloc: Global, disks: u64, index: u32, value: &Value) -> Result<FileLine, ReadStop>
    requires { disks ≤ 512 }
    ensures { Gives result (found (file_of disks (view value.now)) (broken 8 index)) }
{
    if !has_only(value, &["name", "disk"]) {
        return Err(broken(8, index));
    }
    let Some(name) = name_of(value) else {
        return Err(broken(8, index));
    };
    let Some(disk) = below(value, "disk", disks) else {
        return Err(broken(8, index));
    };
    Ok(FileLine {
        name: Name(String::from_str(alloc, name)?),
        disk: DiskNo(disk as u32),
    })
}

fn files_after(alloc: Global, disks: u64, values: &[Value]) -> Result<Vec<FileLine>, ReadStop>
    requires disks { disks ≤ 512 }
    requires few { length values.now ≤ 64 }
    ensures gives { GivesAs (λ v. v.items) result (items_after 8 (file_after disks) [] (map view values.now)) }
    ensures all { IfOk result (λ v. length v.items ≡ length values.now) }
{
    let mut files = Vec::new(alloc);
    for value in values {
        let file = file_of(alloc, disks, files.len() as u32, value)?;
        files.push(file)?;
    }
    Ok(files)
}

/// The files, each on one of so many disks.
#[tactic(auto, unfolding(crate::specs::Files::files_of, crate::specs::Items::items_of))]
pub fn files_of(alloc: Global, disks: u64, top: &Value) -> Result<Sequence<FileLine>, ReadStop>
    requires { disks ≤ 512 }
    ensures gives { Gives result (files_of disks (view top.now)) }
    ensures few { IfOk result (λ files. length files ≤ 64) }
{
    let Some(value) = top.get("files") else {
        return Err(broken(8, 64));
    };
    let Some(values) = sized_array(value, 1, 64) else {
        return Err(broken(8, 64));
    };
    Ok(Sequence::new(files_after(alloc, disks, values)?))
}
