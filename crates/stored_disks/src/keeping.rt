//! Stores the disks of a layout, each behind the one before, and reads each part of a disk once.
ghost use Rattle.std.specs.Prelude.{◌≡◌, ◌+◌, ◌^◌, ◌≤◌, ◌<◌, All, length, IfOk, IfErr, string_bytes};
ghost use Rattle.tiger_base.specs.Limits.{most_file};
ghost use Rattle.disk_image.specs.Image.{HasLengths};
ghost use Rattle.file_disk.specs.Devices.{AreSameOutside, most_counted};
ghost use Rattle.stored_disks.specs.Disks.{disks_of, parts_on, start_of, extents_on, part_count, disk_lines};
ghost use Rattle.stored_disks.specs.Kept.{IsDiskKept, AreDisksKept, StandEach};
ghost use Rattle.stored_disks.specs.Faults.{DisksCause};

use crate::fault::DisksFault;
use crate::lines::push_disk;
use crate::reading::read_parts;
use disk_image::DiskImage;
use file_disk::{Device, Directory, store};
use std::alloc::Global;
use stripe_layout::Catalogue;
use tiger_base::{DiskNo, Library};

/// Stores disk after disk from place 0 on, each behind the one before, and reads each part of a
/// disk once before the next is stored. The text has a line for each disk.
pub fn store_disks<V: Device>(
    alloc: Global,
    library: &Library,
    cat: &Catalogue,
    pieces: u32,
    dev: &mut V,
) -> Result<String, DisksFault>
    requires lengths { HasLengths library.now cat.now }
    requires short { All (λ info. info.len ≤ most_file) cat.now.files }
    requires few_files { length cat.now.files ≤ 64 }
    requires some_pieces { 1 ≤ pieces }
    requires few_pieces { pieces ≤ 8 }
    requires faults { (V.state dev.old).faults ≤ most_counted }
    requires reads { let parts = part_count cat.now pieces in
        (V.state dev.old).reads + parts ≤ most_counted + 1 }

    // Each disk was stored, and then each of its parts was read and is as it was kept.
    ensures kept { let disks = disks_of library.now cat.now pieces in
        IfOk result (λ _. AreDisksKept disks cat.now.disks (V.state dev.old) (V.state dev.new)) }

    // The text has the lines of the disks.
    ensures lines { let disks = disks_of library.now cat.now pieces in
        IfOk result (λ text. string_bytes text ≡ disk_lines disks cat.now.disks) }

    // If the device tells its bytes, those of each disk stand at its place, and all else is as it
    // was.
    ensures stand { let disks = disks_of library.now cat.now pieces in
        IfOk result (λ _. StandEach disks cat.now.disks (V.state dev.new).told) }
    ensures outside { let disks = disks_of library.now cat.now pieces in
        let len = start_of disks cat.now.disks in
        IfOk result (λ _. AreSameOutside (V.state dev.old).told (V.state dev.new).told 0 len) }

    // Each part was read once, and no call failed.
    ensures reads { IfOk result (λ _.
        (V.state dev.new).reads ≡ (V.state dev.old).reads + part_count cat.now pieces) }
    ensures no_fault { IfOk result (λ _. (V.state dev.new).faults ≡ (V.state dev.old).faults) }

    // An error comes for its cause alone.
    ensures cause { let disks = disks_of library.now cat.now pieces in
        IfErr result (DisksCause disks (V.state dev.old) (V.state dev.new)) }

    // No image was asked for.
    ensures names { (V.state dev.new).names ≡ (V.state dev.old).names }
    ensures refusals { (V.state dev.new).refusals ≡ (V.state dev.old).refusals }
{
    let mut text = String::new(alloc);
    let mut at = 0u64;
    for disk in 0..cat.disks {
        let dir = keep_disk(alloc, library, cat, pieces, DiskNo(disk), at, dev)?;
        push_disk(&mut text, DiskNo(disk), &dir)?;
        at += dir.bytes();
    }
    Ok(text)
}

/// Stores a disk, and reads each of its parts once.
fn keep_disk<V: Device>(
    alloc: Global,
    library: &Library,
    cat: &Catalogue,
    pieces: u32,
    disk: DiskNo,
    at: u64,
    dev: &mut V,
) -> Result<Directory, DisksFault>
    requires lengths { HasLengths library.now cat.now }
    requires short { All (λ info. info.len ≤ most_file) cat.now.files }
    requires some_pieces { 1 ≤ pieces }
    requires few_pieces { pieces ≤ 8 }
    requires there { disk.0 < cat.now.disks }
    requires place { at ≡ start_of (disks_of library.now cat.now pieces) disk.0 }
    requires room { at ≤ 2 ^ 61 }
    requires faults { (V.state dev.old).faults ≤ most_counted }
    requires reads { let disks = disks_of library.now cat.now pieces in
        let parts = length (parts_on disks disk.0) in
        (V.state dev.old).reads + parts ≤ most_counted + 1 }
    ensures directory { let disks = disks_of library.now cat.now pieces in
        IfOk result (λ dir. dir ≡ extents_on disks disk.0) }
    ensures kept { let disks = disks_of library.now cat.now pieces in
        IfOk result (λ _. IsDiskKept disks disk.0 (V.state dev.old) (V.state dev.new)) }
    ensures cause { let disks = disks_of library.now cat.now pieces in
        IfErr result (DisksCause disks (V.state dev.old) (V.state dev.new)) }
    ensures names { (V.state dev.new).names ≡ (V.state dev.old).names }
    ensures refusals { (V.state dev.new).refusals ≡ (V.state dev.old).refusals }
{
    let image = DiskImage::build(alloc, library, cat, pieces, disk)?;
    let dir = store(alloc, &image, cat, disk, at, dev)?;
    read_parts(alloc, &image, disk, &dir, dev)?;
    Ok(dir)
}
