//! What is kept of a disk whose parts stand on a device.
ghost use Rattle.std.specs.Prelude.{◌≡◌, ◌+◌, ◌*◌, ◌^◌, ◌≤◌, nat_lt, slice_get, IfSome, Some, None, if◌then◌else◌};
ghost use Rattle.sha2.specs.Sha256.{sha256};
ghost use Rattle.file_disk.specs.Devices.{last_end};
ghost use Rattle.file_disk.specs.Extents.{IsDirectory, same_name, extent_of, total_len, kind_rank, rank};

use node_kit::Digest32;
use sha2::{Digest, Sha256};
use std::marker::Model;
use tiger_base::FileNo;

/// The name of a part of a disk: a piece of a block of a file. Piece 0 is the whole block.
#[derive(Clone, Copy, Debug, PartialEq, Eq)]
pub struct PartName {
    pub file: FileNo,
    pub block: u64,
    pub piece: u32,
}

/// Where a part stands on a device, in bytes, and its SHA-256.
#[derive(Clone, Copy, Debug, PartialEq, Eq)]
pub struct Extent {
    pub name: PartName,
    pub at: u64,
    pub len: u64,
    pub digest: Digest32,
}

/// What is kept of each part of a disk, in the order in which the parts stand on the device. It is
/// seen as the list of this. No part ends past 2^62, and each name stands once.
#[derive(Drop)]
pub struct Directory {
    extents: Vec<Extent>,
    bytes: u64,
}

impl Model for Directory {
    ghost use Rattle.std.specs.Prelude.{List};
    ghost use Rattle.file_disk.specs.Extents.{IsDirectory};
    ghost use Rattle.file_disk.specs.declared.directory.Extent.{Extent};

    ghost Value = { List Extent };

    ghost view = { λ d. d.extents.items };

    ghost invariant = { λ d. IsDirectory d.extents.items d.bytes };
}

impl Directory {
    /// A directory of what is kept of parts.
    pub(crate) fn of(extents: Vec<Extent>, bytes: u64) -> Directory
        requires { IsDirectory extents.items bytes }
        ensures { result ≡ extents.items }
    {
        Directory { extents, bytes }
    }

    /// What is kept of each part, in the order of the parts on the device.
    pub fn extents(&self) -> &[Extent]
        ensures { result.now ≡ self.now }
    {
        self.extents.as_slice()
    }

    /// What is kept of the part of a number, parts being counted from 0.
    pub fn kept(&self, number: usize) -> Option<Extent>
        ensures value { result ≡ slice_get self.now number }
        ensures end { IfSome result (λ e. e.at + e.len ≤ last_end) }
    {
        extent_at(self.extents.as_slice(), number)
    }

    /// The sum of the parts' bytes.
    pub fn bytes(&self) -> u64
        ensures { result ≡ total_len self.now }
    {
        self.bytes
    }

    /// What is kept of a part; `None` exactly if there is no part of this name. It is found by
    /// halving.
    pub fn find(&self, name: PartName) -> Option<Extent>
        ensures value { result ≡ extent_of self.now name }
        ensures end { IfSome result (λ e. e.at + e.len ≤ last_end) }
    {
        let extents = self.extents.as_slice();
        let place = extents.partition_point(|extent| comes_before(extent.name, name));
        match extent_at(extents, place) {
            Some(extent) => only_named(extent, name),
            None => None,
        }
    }
}

/// The extent at an index, if there is one.
fn extent_at(extents: &[Extent], index: usize) -> Option<Extent>
    ensures { result ≡ slice_get extents.now index }
{
    extents.get(index).copied()
}

/// An extent, if it is that of a name.
fn only_named(extent: Extent, name: PartName) -> Option<Extent>
    ensures { result ≡ if same_name extent.name name then Some extent else None }
{
    let same = extent.name.file.0 == name.file.0
        && extent.name.block == name.block
        && extent.name.piece == name.piece;
    if same { Some(extent) } else { None }
}

/// Whether a name comes before another in the order of a disk's parts.
fn comes_before(a: PartName, b: PartName) -> bool
    ensures { result ≡ nat_lt (rank a) (rank b) }
{
    let first = kind_and_file(a);
    let second = kind_and_file(b);
    if first != second {
        return first < second;
    }
    if a.block != b.block {
        return a.block < b.block;
    }
    a.piece < b.piece
}

/// What decides first of the order of two names: whole blocks come before pieces, and then the file
/// decides.
fn kind_and_file(name: PartName) -> u64
    ensures { result ≡ kind_rank name.piece * 2 ^ 32 + name.file.0 }
{
    let kind = if name.piece == 0 { 0 } else { 1 };
    kind * FILES + u64::from(name.file.0)
}

/// How many numbers a file can have.
const FILES: u64 = 4294967296;

/// The SHA-256 of bytes.
pub(crate) fn digest_of(bytes: &[u8]) -> Digest32
    ensures { result ≡ record { 0 = sha256 bytes.now } }
{
    Digest32(Sha256::digest(bytes))
}
