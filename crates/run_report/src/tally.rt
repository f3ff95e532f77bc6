//! Counts of blocks, and of their bytes.
ghost use Rattle.std.specs.Prelude.{◌≡◌, ◌<◌, ◌^◌};
ghost use Rattle.run_report.specs.Text.{kind_bytes, bytes_of};

use crate::outcome::{BlockKind, BlockOut};

/// How many blocks are whole, in pieces and missing.
#[derive(Clone, Copy, Debug, PartialEq, Eq)]
pub struct Tally {
    pub whole: u64,
    pub pieces: u64,
    pub missing: u64,
}

impl Tally {
    ghost use Rattle.std.specs.Prelude.{◌≡◌};
    ghost use Rattle.run_report.specs.Text.{plus, nothing, kind_tally, tally_of, Fits};

    /// The counts of no block.
    pub const NOTHING: Tally = Tally {
        whole: 0,
        pieces: 0,
        missing: 0,
    };

    /// The sum of both.
    pub fn plus(self, other: Tally) -> Tally
        requires { Fits (plus self other) }
        ensures { result ≡ plus self other }
    {
        Tally {
            whole: self.whole + other.whole,
            pieces: self.pieces + other.pieces,
            missing: self.missing + other.missing,
        }
    }

    /// The counts of one block.
    pub fn of_kind(kind: &BlockKind) -> Tally
        ensures { result ≡ kind_tally kind.now }
    {
        match kind {
            BlockKind::Whole { .. } => Tally {
                whole: 1,
                ..Tally::NOTHING
            },
            BlockKind::Pieces { .. } => Tally {
                pieces: 1,
                ..Tally::NOTHING
            },
            BlockKind::Missing(_) => Tally {
                missing: 1,
                ..Tally::NOTHING
            },
        }
    }

    /// The sum over these blocks.
    pub fn of(blocks: &[BlockOut]) -> Tally
        requires { Fits (tally_of blocks.now) }
        ensures { result ≡ tally_of blocks.now }
    {
        let mut tally = Tally::NOTHING;
        for block in blocks {
            tally = tally.plus(Tally::of_kind(&block.kind));
        }
        tally
    }
}

fn kind_bytes(kind: &BlockKind) -> u64
    ensures { result ≡ kind_bytes kind.now }
{
    match kind {
        BlockKind::Whole { len, .. } => *len,
        BlockKind::Pieces { len, .. } => *len,
        BlockKind::Missing(_) => 0,
    }
}

/// How many bytes came of these blocks.
pub fn bytes_of(blocks: &[BlockOut]) -> u64
    requires { bytes_of blocks.now < 2 ^ 64 }
    ensures { result ≡ bytes_of blocks.now }
{
    let mut bytes = 0;
    for block in blocks {
        bytes += kind_bytes(&block.kind);
    }
    bytes
}
