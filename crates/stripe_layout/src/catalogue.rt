//! The files' lengths and first disks.
ghost use Rattle.stripe_layout.specs.Layout.{IsCatalogue};

use crate::place::{Place, disk_after, span_of};
use tiger_base::{DiskNo, FileNo, Sequence};

/// The length of a file in bytes, and the disk of its first block.
#[derive(Clone, Copy, Debug, PartialEq, Eq)]
pub struct FileInfo {
    pub len: u64,
    pub disk: DiskNo,
}

/// The files by number, the bytes of a full block and the number of all disks.
#[derive(Drop)]
pub struct Catalogue {
    pub files: Sequence<FileInfo>,
    pub block: u64,
    pub disks: u32,
    pub ghost sound: { IsCatalogue files block disks },
}

impl Catalogue {
    ghost use Rattle.std.specs.Prelude.{◌≡◌, ◌↔◌, ◌+◌, ◌^◌, ◌<◌, ◌≤◌, length, IsNone, IfSome};
    ghost use Rattle.stripe_layout.specs.Places.{block_count, place_of};

    /// The number of blocks of a file; 0 exactly if there is no such file.
    #[tactic(auto, unfolding(crate::specs::Places::block_count))]
    pub fn block_count(&self, file: FileNo) -> u64
        ensures value { result ≡ block_count self.now file.0 }
        ensures zero { (result ≡ 0) ↔ (length self.now.files ≤ file.0) }
    {
        match self.files.get(file.0 as usize) {
            Some(info) => info.len.div_ceil(self.block),
            None => 0,
        }
    }

    /// Where a block of a file lies, blocks being counted from 0; `None` exactly if the file has no
    /// such block.
    #[tactic(auto, unfolding(crate::specs::Places::place_of, crate::specs::Places::block_count))]
    pub fn place(&self, file: FileNo, block: u64) -> Option<Place>
        ensures value { result ≡ place_of self.now file block }
        ensures none { IsNone result ↔ (block_count self.now file.0 ≤ block) }
        ensures room { IfSome result (λ p. p.span.from + p.span.len < 2 ^ 64) }
    {
        let info = self.files.get(file.0 as usize)?;
        if info.len.div_ceil(self.block) <= block {
            return None;
        }
        Some(Place {
            disk: disk_after(info.disk, block, self.disks),
            span: span_of(file, info.len, self.block, block),
        })
    }
}
