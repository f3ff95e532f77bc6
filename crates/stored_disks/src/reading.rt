//! Reads each part of a disk once, and compares it with what was stored.
ghost use Rattle.std.specs.Prelude.{◌≡◌, ◌+◌, ◌≤◌, ◌<◌, length, OnOk, IfErr};
ghost use Rattle.std.specs.List.{AllByRecursion};
ghost use Rattle.file_disk.specs.Devices.{most_counted, last_end};
ghost use Rattle.file_disk.specs.Fetching.{IsOfImage};
ghost use Rattle.stored_disks.specs.Reading.{IsPartRead, IsNumberRead, ArePartsRead};
ghost use Rattle.stored_disks.specs.Faults.{PartCause, NumberCause, PartsCause};

use crate::fault::{DisksFault, fault_of};
use disk_image::DiskImage;
use file_disk::{Device, Directory, Extent, fetch_stored};
use std::alloc::Global;
use tiger_base::DiskNo;

/// Reads each part that a directory keeps of a disk's image, in order.
pub(crate) fn read_parts<'a, V: Device>(
    alloc: Global,
    image: &'a DiskImage<'a>,
    disk: DiskNo,
    dir: &Directory,
    dev: &mut V,
) -> Result<(), DisksFault>
    requires of_image { AllByRecursion (IsOfImage image.now) dir.now }
    requires faults { (V.state dev.old).faults ≤ most_counted }
    requires reads { (V.state dev.old).reads + length dir.now ≤ most_counted + 1 }
    ensures read { OnOk result (ArePartsRead (V.state dev.old) (V.state dev.new) dir.now) }
    ensures cause { IfErr result (PartsCause disk dir.now (V.state dev.old) (V.state dev.new)) }
    ensures names { (V.state dev.new).names ≡ (V.state dev.old).names }
    ensures refusals { (V.state dev.new).refusals ≡ (V.state dev.old).refusals }
{
    for number in 0..dir.extents().len() {
        read_number(alloc, image, disk, dir, number, dev)?;
    }
    Ok(())
}

/// Reads the part of a number.
fn read_number<'a, V: Device>(
    alloc: Global,
    image: &'a DiskImage<'a>,
    disk: DiskNo,
    dir: &Directory,
    number: usize,
    dev: &mut V,
) -> Result<(), DisksFault>
    requires of_image { AllByRecursion (IsOfImage image.now) dir.now }
    requires there { number < length dir.now }
    requires faults { (V.state dev.old).faults ≤ most_counted }
    requires reads { (V.state dev.old).reads ≤ most_counted }
    ensures read { let old = V.state dev.old in
        OnOk result (IsNumberRead dir.now number old (V.state dev.new)) }
    ensures cause { let old = V.state dev.old in
        IfErr result (NumberCause disk dir.now number old (V.state dev.new)) }
    ensures names { (V.state dev.new).names ≡ (V.state dev.old).names }
    ensures refusals { (V.state dev.new).refusals ≡ (V.state dev.old).refusals }
{
    match dir.kept(number) {
        Some(extent) => read_part(alloc, image, disk, extent, dev),
        None => unreachable!(),
    }
}

/// Reads a part of a disk.
fn read_part<'a, V: Device>(
    alloc: Global,
    image: &'a DiskImage<'a>,
    disk: DiskNo,
    extent: Extent,
    dev: &mut V,
) -> Result<(), DisksFault>
    requires of_image { IsOfImage image.now extent }
    requires faults { (V.state dev.old).faults ≤ most_counted }
    requires reads { (V.state dev.old).reads ≤ most_counted }
    requires end { extent.at + extent.len ≤ last_end }
    ensures read { OnOk result (IsPartRead (V.state dev.old) (V.state dev.new) extent) }
    ensures cause { IfErr result (PartCause disk extent (V.state dev.old) (V.state dev.new)) }
    ensures names { (V.state dev.new).names ≡ (V.state dev.old).names }
    ensures refusals { (V.state dev.new).refusals ≡ (V.state dev.old).refusals }
{
    match fetch_stored(alloc, image, extent, dev) {
        Ok(_bytes) => Ok(()),
        Err(error) => Err(fault_of(disk, error)),
    }
}
