//! The pieces that a block is cut into: their bytes, their disks and their times.
#![tactic(auto)]

ghost use Rattle.std.specs.Prelude.{◌≡◌, ◌^◌, ◌≤◌};
ghost use Rattle.mirror_pieces.specs.Pieces.{piece_start, piece_end, piece_disk, leaving};
ghost use Rattle.mirror_pieces.specs.Laws.{PiecesMakeBlock, PiecesOnOtherCubs};

use tiger_base::{DiskNo, Micros};

/// Piece `k`, counted from 1, of a block of `len` bytes that is cut into `pieces` pieces: the
/// block's bytes from the first number up to the second. It may be empty.
#[tactic(auto, unfolding(crate::specs::Pieces::piece_start, crate::specs::Pieces::piece_end))]
pub fn piece_range(len: u64, pieces: u32, k: u32) -> (u64, u64)
    requires len { len ≤ 2 ^ 20 }
    requires first { 1 ≤ k }
    requires last { k ≤ pieces }
    ensures from { result.0 ≡ piece_start len pieces k }
    ensures to { result.1 ≡ piece_end len pieces k }
{
    let parts = u64::from(pieces);
    let k = u64::from(k);
    ((k - 1) * len / parts, k * len / parts)
}

/// The disk of piece `k` of a block of disk `d`: `k` disks further, round all disks.
#[tactic(auto, unfolding(crate::specs::Pieces::piece_disk))]
pub fn piece_disk(d: DiskNo, k: u32, disks: u32) -> DiskNo
    requires { 1 ≤ disks }
    ensures { result.0 ≡ piece_disk d.0 k disks }
{
    DiskNo(((u64::from(d.0) + u64::from(k)) % u64::from(disks)) as u32)
}

/// When piece `k` leaves, in microseconds, if its block is due at `due` and plays for `play`:
/// the pieces share the play time evenly.
#[tactic(auto, unfolding(crate::specs::Pieces::leaving))]
pub fn piece_due(due: Micros, k: u32, play: Micros, pieces: u32) -> Micros
    requires due { due ≤ 2 ^ 63 }
    requires first { 1 ≤ k }
    requires last { k ≤ pieces }
    requires play { play ≤ 100000000 }
    ensures { result ≡ leaving due k play pieces }
{
    due + u64::from(k - 1) * play / u64::from(pieces)
}

/// The pieces of a block join to the block.
pub fn pieces_make_block()
    ensures { PiecesMakeBlock }
{}

/// If there are two cubs more than pieces, the pieces of a block lie on distinct cubs, and none of
/// them on the block's own.
pub fn pieces_on_other_cubs()
    ensures { PiecesOnOtherCubs }
{}
