//! Gives a part back from a device, or tells that it is damaged.
ghost use Rattle.std.specs.Prelude.{◌≡◌, ◌≢◌, ◌+◌, ◌≤◌, true, false, length, Some, option_map, IfOk, IfErr};
ghost use Rattle.sha2.specs.Sha256.{sha256};
ghost use Rattle.file_disk.specs.Devices.{AreReadAt, ReadCause, most_counted, last_end};
ghost use Rattle.file_disk.specs.Extents.{extent_of};
ghost use Rattle.file_disk.specs.Parts.{part_name};
ghost use Rattle.file_disk.specs.Fetching.{IsFetched, FetchCause, GivesWhatStands, IsOfImage, IsOther};

use crate::device::{Device, DeviceFault};
use crate::directory::{Directory, Extent, PartName, digest_of};
use crate::putting::image_part;
use disk_image::DiskImage;
use node_kit::Digest32;
use std::alloc::{AllocError, AllocFailed, Global};
use tiger_base::FileNo;

/// Why a part was not given.
#[derive(Clone, Copy, Debug, PartialEq, Eq)]
pub enum FetchFault {
    /// The device's read failed.
    Failed,
    /// The bytes that were read at the part's place have another SHA-256 than those that were kept.
    Damaged {
        at: u64,
        kept: Digest32,
        found: Digest32,
    },
    /// There was no memory for it; the device was not asked, or had none.
    NoMemory,
}

impl From<AllocError> for FetchFault {
    ghost use Rattle.std.specs.Prelude.{◌≡◌};
    ghost use Rattle.file_disk.specs.declared.getting.FetchFault.TheVariants.{NoMemory};

    ghost from_gives = { λ _ fault. fault ≡ NoMemory };

    fn from(_error: AllocError) -> FetchFault {
        FetchFault::NoMemory
    }
}

impl<T: Drop> From<AllocFailed<T>> for FetchFault {
    ghost use Rattle.std.specs.Prelude.{◌≡◌};
    ghost use Rattle.file_disk.specs.declared.getting.FetchFault.TheVariants.{NoMemory};

    ghost from_gives = { λ _ fault. fault ≡ NoMemory };

    fn from(_error: AllocFailed<T>) -> FetchFault {
        FetchFault::NoMemory
    }
}

/// The bytes of a part, which were read once from the device and have the length and the SHA-256
/// that the directory keeps; `None` exactly if it keeps no such part, and then nothing is read.
/// Piece 0 is the whole block.
pub fn fetch<V: Device>(
    alloc: Global,
    dir: &Directory,
    file: FileNo,
    block: u64,
    piece: u32,
    dev: &mut V,
) -> Result<Option<Vec<u8>>, FetchFault>
    requires faults { (V.state dev.old).faults ≤ most_counted }
    requires reads { (V.state dev.old).reads ≤ most_counted }
    ensures given { let kept = extent_of dir.now (part_name file.0 block piece) in
        IfOk result (λ answer. IsFetched kept (V.state dev.old) (V.state dev.new)
        (option_map (λ v. v.items) answer)) }
    ensures cause { let kept = extent_of dir.now (part_name file.0 block piece) in
        IfErr result (FetchCause kept (V.state dev.old) (V.state dev.new)) }
    ensures whole { let kept = extent_of dir.now (part_name file.0 block piece) in
        GivesWhatStands kept (V.state dev.old).told result }
{
    match dir.find(PartName { file, block, piece }) {
        Some(extent) => Ok(Some(fetch_extent(alloc, extent, dev)?)),
        None => Ok(None),
    }
}

/// The bytes that stand where a part was stored, which are read once, if they have the length and
/// the SHA-256 that were kept.
pub fn fetch_extent<V: Device>(
    alloc: Global,
    extent: Extent,
    dev: &mut V,
) -> Result<Vec<u8>, FetchFault>
    requires faults { (V.state dev.old).faults ≤ most_counted }
    requires reads { (V.state dev.old).reads ≤ most_counted }
    requires end { extent.at + extent.len ≤ last_end }
    ensures given { IfOk result
        (λ v. IsFetched (Some extent) (V.state dev.old) (V.state dev.new) (Some v.items)) }
    ensures cause { IfErr result (FetchCause (Some extent) (V.state dev.old) (V.state dev.new)) }
{
    match read(alloc, extent.at, extent.len, dev) {
        Ok(bytes) => checked(extent, bytes),
        Err(DeviceFault::Failed) => Err(FetchFault::Failed),
        Err(DeviceFault::NoMemory) => Err(FetchFault::NoMemory),
    }
}

/// The same of a part of an image that is at hand. What was read is compared with the image's own bytes first, which have the
/// length and the SHA-256 that were kept, so that it is hashed only if it is not the same.
pub fn fetch_stored<'a, V: Device>(
    alloc: Global,
    image: &'a DiskImage<'a>,
    extent: Extent,
    dev: &mut V,
) -> Result<Vec<u8>, FetchFault>
    requires of_image { IsOfImage image.now extent }
    requires faults { (V.state dev.old).faults ≤ most_counted }
    requires reads { (V.state dev.old).reads ≤ most_counted }
    requires end { extent.at + extent.len ≤ last_end }
    ensures given { IfOk result
        (λ v. IsFetched (Some extent) (V.state dev.old) (V.state dev.new) (Some v.items)) }
    ensures cause { IfErr result (FetchCause (Some extent) (V.state dev.old) (V.state dev.new)) }
{
    match read(alloc, extent.at, extent.len, dev) {
        Ok(bytes) => compared(image, extent, bytes),
        Err(DeviceFault::Failed) => Err(FetchFault::Failed),
        Err(DeviceFault::NoMemory) => Err(FetchFault::NoMemory),
    }
}

/// So many bytes from a place on.
fn read<V: Device>(alloc: Global, at: u64, len: u64, dev: &mut V) -> Result<Vec<u8>, DeviceFault>
    requires faults { (V.state dev.old).faults ≤ most_counted }
    requires reads { (V.state dev.old).reads ≤ most_counted }
    requires end { at + len ≤ last_end }
    ensures len { IfOk result (λ v. length v.items ≡ len) }
    ensures read { IfOk result (λ v. AreReadAt (V.state dev.old) (V.state dev.new) at v.items) }
    ensures cause { IfErr result (ReadCause (V.state dev.old) (V.state dev.new)) }
{
    let mut bytes = zeros(alloc, len)?;
    dev.read_at(at, bytes.as_mut_slice())?;
    Ok(bytes)
}

/// So many zeros.
fn zeros(alloc: Global, len: u64) -> Result<Vec<u8>, AllocError>
    ensures { IfOk result (λ v. length v.items ≡ len) }
{
    let mut bytes = Vec::new(alloc);
    bytes.resize(len as usize, 0)?;
    Ok(bytes)
}

/// Bytes that were read, if they are as they were kept.
fn checked(extent: Extent, bytes: Vec<u8>) -> Result<Vec<u8>, FetchFault>
    ensures same { IfOk result (λ v. v.items ≡ bytes.items) }
    ensures kept { IfOk result (λ _. sha256 bytes.items ≡ extent.digest.0) }
    ensures other { IfErr result (IsOther extent bytes.items) }
{
    let found = digest_of(bytes.as_slice());
    if are_same(found.0.as_slice(), extent.digest.0.as_slice()) {
        return Ok(bytes);
    }
    Err(FetchFault::Damaged {
        at: extent.at,
        kept: extent.digest,
        found,
    })
}

/// The same of a part of an image that is at hand, of which the image's own bytes are not hashed again.
fn compared<'a>(
    image: &'a DiskImage<'a>,
    extent: Extent,
    bytes: Vec<u8>,
) -> Result<Vec<u8>, FetchFault>
    requires { IsOfImage image.now extent }
    ensures same { IfOk result (λ v. v.items ≡ bytes.items) }
    ensures kept { IfOk result (λ _. sha256 bytes.items ≡ extent.digest.0) }
    ensures other { IfErr result (IsOther extent bytes.items) }
{
    if is_of_image(image, extent, bytes.as_slice()) {
        return Ok(bytes);
    }
    checked(extent, bytes)
}

/// Whether bytes are the image's own of a part, and so have the digest that was kept.
fn is_of_image<'a>(image: &'a DiskImage<'a>, extent: Extent, bytes: &[u8]) -> bool
    requires { IsOfImage image.now extent }
    ensures { result ≡ true → sha256 bytes.now ≡ extent.digest.0 }
{
    match image_part(image, extent.name) {
        Some(part) => are_same(bytes, part.bytes()),
        None => false,
    }
}

/// Whether bytes are the same.
fn are_same(a: &[u8], b: &[u8]) -> bool
    ensures same { result ≡ true → a.now ≡ b.now }
    ensures other { result ≡ false → a.now ≢ b.now }
{
    a == b
}
