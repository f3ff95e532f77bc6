//! The disk and the bytes of one block.
ghost use Rattle.std.specs.Prelude.{◌≡◌, ◌+◌, ◌^◌, ◌%◌, ◌<◌, ◌≤◌};
ghost use Rattle.std.specs.Int.{div_ceil};
ghost use Rattle.stripe_layout.specs.Layout.{block_span};

use tiger_base::{DiskNo, FileNo, Span};

/// Where a block lies: its disk, and which bytes of which file it has.
#[derive(Clone, Copy, Debug, PartialEq, Eq)]
pub struct Place {
    pub disk: DiskNo,
    pub span: Span,
}

/// The disk that a block is on: as many disks after the first one as the block's number, round all
/// disks.
pub fn disk_after(first: DiskNo, block: u64, disks: u32) -> DiskNo
    requires { 1 ≤ disks }
    ensures { result.0 ≡ (first.0 + block) % disks }
{
    let round = u64::from(disks);
    let disk = (u64::from(first.0) % round + block % round) % round;
    DiskNo(disk as u32)
}

/// The bytes of a block of a file of `len` bytes, if a full block has `size` bytes.
#[tactic(auto, unfolding(crate::specs::Layout::block_span))]
pub fn span_of(file: FileNo, len: u64, size: u64, block: u64) -> Span
    requires sized { 1 ≤ size }
    requires inside { block < div_ceil len size }
    ensures value { result ≡ block_span file len size block }
    ensures room { result.from + result.len < 2 ^ 64 }
{
    let from = block * size;
    Span {
        file,
        from,
        len: size.min(len - from),
    }
}
