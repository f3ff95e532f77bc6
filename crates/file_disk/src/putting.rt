//! Puts all parts of a disk's image on a device.
ghost use Rattle.std.specs.Prelude.{◌≡◌, ◌+◌, ◌-◌, ◌^◌, ◌≤◌, ◌∷◌, [], All, length, IfOk, OnOk, IfErr};
ghost use Rattle.tiger_base.specs.Limits.{most_file};
ghost use Rattle.std.specs.List.{AllByRecursion};
ghost use Rattle.file_disk.specs.Devices.{AreWrittenAt, most_counted, last_end};
ghost use Rattle.file_disk.specs.Extents.{NamedPart, all_bytes, placed};
ghost use Rattle.file_disk.specs.Parts.{image_part, part_here, parts_of_block, parts_of_file, parts_of_files, disk_parts, most_pieces};
ghost use Rattle.file_disk.specs.Fetching.{IsOfImage};
ghost use Rattle.file_disk.specs.Storing.{StoreCause, Stored, progress};

use crate::device::{Device, DeviceFault};
use crate::directory::{Directory, Extent, PartName, digest_of};
use disk_image::DiskImage;
use std::alloc::{AllocError, AllocFailed, Global};
use stripe_layout::Catalogue;
use tiger_base::{DiskNo, FileNo, NoMemory, Part};

/// Why an image was not stored. What stands outside the places of its parts was not changed.
#[derive(Clone, Copy, Debug, PartialEq, Eq)]
pub enum StoreFault {
    /// A call of the device failed.
    Failed,
    /// There was no memory for it.
    NoMemory,
}

impl From<AllocError> for StoreFault {
    ghost use Rattle.std.specs.Prelude.{◌≡◌};
    ghost use Rattle.file_disk.specs.declared.putting.StoreFault.TheVariants.{NoMemory};

    ghost from_gives = { λ _ fault. fault ≡ NoMemory };

    fn from(_error: AllocError) -> StoreFault {
        StoreFault::NoMemory
    }
}

impl<T: Drop> From<AllocFailed<T>> for StoreFault {
    ghost use Rattle.std.specs.Prelude.{◌≡◌};
    ghost use Rattle.file_disk.specs.declared.putting.StoreFault.TheVariants.{NoMemory};

    ghost from_gives = { λ _ fault. fault ≡ NoMemory };

    fn from(_error: AllocFailed<T>) -> StoreFault {
        StoreFault::NoMemory
    }
}

impl From<NoMemory> for StoreFault {
    ghost use Rattle.std.specs.Prelude.{◌≡◌};
    ghost use Rattle.file_disk.specs.declared.putting.StoreFault.TheVariants.{NoMemory};

    ghost from_gives = { λ _ fault. fault ≡ NoMemory };

    fn from(_error: NoMemory) -> StoreFault {
        StoreFault::NoMemory
    }
}

/// The most pieces that a block is cut into.
const MOST_PIECES: u32 = 8;

/// What is kept of the parts that were stored so far, and the place of the next one.
#[derive(Drop)]
pub struct Draft {
    pub extents: Vec<Extent>,
    pub next: u64,
}

/// The blocks and pieces of an image on a device, one behind the other from a place on.
pub fn store<'a, V: Device>(
    alloc: Global,
    image: &'a DiskImage<'a>,
    cat: &Catalogue,
    disk: DiskNo,
    at: u64,
    dev: &mut V,
) -> Result<Directory, StoreFault>
    requires catalogue { image.now.catalogue ≡ cat.now }
    requires disk { image.now.disk ≡ disk.0 }
    requires pieces { image.now.pieces ≤ most_pieces }
    requires lengths { All (λ info. info.len ≤ most_file) cat.now.files }
    requires place { at ≤ 2 ^ 61 }
    requires faults { (V.state dev.old).faults ≤ most_counted }
    ensures directory { IfOk result (λ dir. dir ≡ placed at (disk_parts image.now)) }
    ensures of_image { IfOk result (λ dir. AllByRecursion (IsOfImage image.now) dir) }
    ensures written { let bytes = all_bytes (disk_parts image.now) in
        OnOk result (AreWrittenAt (V.state dev.old) (V.state dev.new) at bytes) }
    ensures cause { let len = length (all_bytes (disk_parts image.now)) in
        IfErr result (StoreCause (V.state dev.old) (V.state dev.new) at len) }
{
    let mut draft = Draft {
        extents: Vec::new(alloc),
        next: at,
    };
    store_all(&mut draft, image, cat, dev)?;
    let bytes = draft.next - at;
    Ok(Directory::of(draft.extents, bytes))
}

/// Stores whole blocks, and then pieces.
fn store_all<'a, V: Device>(
    draft: &mut Draft,
    image: &'a DiskImage<'a>,
    cat: &Catalogue,
    dev: &mut V,
) -> Result<(), StoreFault>
    requires catalogue { image.now.catalogue ≡ cat.now }
    requires faults { (V.state dev.old).faults ≤ most_counted }
    requires end { draft.old.next + length (all_bytes (disk_parts image.now)) ≤ last_end }
    ensures stored { let old = progress draft.old (V.state dev.old) in
        OnOk result (Stored old (progress draft.new (V.state dev.new)) (disk_parts image.now)) }
    ensures cause { let len = length (all_bytes (disk_parts image.now)) in
        IfErr result (StoreCause (V.state dev.old) (V.state dev.new) draft.old.next len) }
{
    store_files(draft, image, cat, 0, 1, dev)?;
    store_files(draft, image, cat, 1, MOST_PIECES, dev)
}

/// Stores of each block of each file the parts with `count` numbers from `first` on.
fn store_files<'a, V: Device>(
    draft: &mut Draft,
    image: &'a DiskImage<'a>,
    cat: &Catalogue,
    first: u32,
    count: u32,
    dev: &mut V,
) -> Result<(), StoreFault>
    requires catalogue { image.now.catalogue ≡ cat.now }
    requires numbers { first + count ≤ 9 }
    requires faults { (V.state dev.old).faults ≤ most_counted }
    requires end { let parts = parts_of_files image.now first count in
        draft.old.next + length (all_bytes parts) ≤ last_end }
    ensures stored { let old = progress draft.old (V.state dev.old) in
        let new = progress draft.new (V.state dev.new) in
        OnOk result (Stored old new (parts_of_files image.now first count)) }
    ensures cause { let len = length (all_bytes (parts_of_files image.now first count)) in
        IfErr result (StoreCause (V.state dev.old) (V.state dev.new) draft.old.next len) }
{
    for file in 0..cat.files.len() {
        store_file(draft, image, cat, FileNo(file as u32), first, count, dev)?;
    }
    Ok(())
}

/// Stores of each block of a file the parts with `count` numbers from `first` on.
fn store_file<'a, V: Device>(
    draft: &mut Draft,
    image: &'a DiskImage<'a>,
    cat: &Catalogue,
    file: FileNo,
    first: u32,
    count: u32,
    dev: &mut V,
) -> Result<(), StoreFault>
    requires catalogue { image.now.catalogue ≡ cat.now }
    requires numbers { first + count ≤ 9 }
    requires faults { (V.state dev.old).faults ≤ most_counted }
    requires end { let parts = parts_of_file image.now first count file.0 in
        draft.old.next + length (all_bytes parts) ≤ last_end }
    ensures stored { let old = progress draft.old (V.state dev.old) in
        let new = progress draft.new (V.state dev.new) in
        OnOk result (Stored old new (parts_of_file image.now first count file.0)) }
    ensures cause { let len = length (all_bytes (parts_of_file image.now first count file.0)) in
        IfErr result (StoreCause (V.state dev.old) (V.state dev.new) draft.old.next len) }
{
    for block in 0..cat.block_count(file) {
        store_block(draft, image, file, block, first, count, dev)?;
    }
    Ok(())
}

/// Stores of a block the parts with `count` numbers from `first` on.
fn store_block<'a, V: Device>(
    draft: &mut Draft,
    image: &'a DiskImage<'a>,
    file: FileNo,
    block: u64,
    first: u32,
    count: u32,
    dev: &mut V,
) -> Result<(), StoreFault>
    requires numbers { first + count ≤ 9 }
    requires faults { (V.state dev.old).faults ≤ most_counted }
    requires end { let parts = parts_of_block image.now first count file.0 block in
        draft.old.next + length (all_bytes parts) ≤ last_end }
    ensures stored { let old = progress draft.old (V.state dev.old) in
        let new = progress draft.new (V.state dev.new) in
        OnOk result (Stored old new (parts_of_block image.now first count file.0 block)) }
    ensures cause { let parts = parts_of_block image.now first count file.0 block in
        let len = length (all_bytes parts) in
        IfErr result (StoreCause (V.state dev.old) (V.state dev.new) draft.old.next len) }
{
    for k in 0..count {
        let piece = first + k;
        store_part(draft, image, PartName { file, block, piece }, dev)?;
    }
    Ok(())
}

/// Stores the part of a name, if the image has it.
fn store_part<'a, V: Device>(
    draft: &mut Draft,
    image: &'a DiskImage<'a>,
    name: PartName,
    dev: &mut V,
) -> Result<(), StoreFault>
    requires faults { (V.state dev.old).faults ≤ most_counted }
    requires end { draft.old.next + length (all_bytes (part_here image.now name)) ≤ last_end }
    ensures stored { let old = progress draft.old (V.state dev.old) in
        let new = progress draft.new (V.state dev.new) in
        OnOk result (Stored old new (part_here image.now name)) }
    ensures cause { let len = length (all_bytes (part_here image.now name)) in
        IfErr result (StoreCause (V.state dev.old) (V.state dev.new) draft.old.next len) }
{
    match image_part(image, name) {
        Some(part) => store_bytes(draft, name, part.bytes(), dev),
        None => Ok(()),
    }
}

/// The part of a name, if the image has it.
pub(crate) fn image_part<'a>(image: &'a DiskImage<'a>, name: PartName) -> Option<Part<'a>>
    ensures { result ≡ image_part image.now name }
{
    if name.piece == 0 {
        image.read_block(name.file, name.block)
    } else {
        image.read_piece(name.file, name.block, name.piece)
    }
}

/// Stores bytes as the part of a name.
fn store_bytes<V: Device>(
    draft: &mut Draft,
    name: PartName,
    bytes: &[u8],
    dev: &mut V,
) -> Result<(), StoreFault>
    requires faults { (V.state dev.old).faults ≤ most_counted }
    requires end { draft.old.next + length bytes.now ≤ last_end }
    ensures stored { let old = progress draft.old (V.state dev.old) in
        let part : NamedPart = record { name = name; bytes = bytes.now } in
        OnOk result (Stored old (progress draft.new (V.state dev.new)) (part ∷ [])) }
    ensures cause { let len = length bytes.now in
        IfErr result (StoreCause (V.state dev.old) (V.state dev.new) draft.old.next len) }
{
    write(dev, draft.next, bytes)?;
    let at = draft.next;
    let len = bytes.len() as u64;
    let digest = digest_of(bytes);
    draft.extents.push(Extent {
        name,
        at,
        len,
        digest,
    })?;
    draft.next = at + len;
    Ok(())
}

/// Writes bytes at a place.
fn write<V: Device>(dev: &mut V, at: u64, bytes: &[u8]) -> Result<(), StoreFault>
    requires faults { (V.state dev.old).faults ≤ most_counted }
    requires end { at + length bytes.now ≤ last_end }
    ensures written { OnOk result (AreWrittenAt (V.state dev.old) (V.state dev.new) at bytes.now) }
    ensures cause { let len = length bytes.now in
        IfErr result (StoreCause (V.state dev.old) (V.state dev.new) at len) }
{
    match dev.write_at(at, bytes) {
        Ok(()) => Ok(()),
        Err(DeviceFault::Failed) => Err(StoreFault::Failed),
        Err(DeviceFault::NoMemory) => Err(StoreFault::NoMemory),
    }
}
