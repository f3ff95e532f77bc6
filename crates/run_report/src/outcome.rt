//! What became of each start.
ghost use Rattle.std.specs.Prelude.{◌≡◌};
ghost use Rattle.run_report.specs.Digests.{is_got};

use tiger_base::{Ask, Beat, Micros, Sequence, Span, Tenancy};

/// Why the block of a visit is missing.
#[derive(Clone, Copy, Debug, PartialEq, Eq)]
pub enum Reason {
    /// The read of the block failed.
    Read,
    /// The block's cub had just died, or was about to.
    Dead,
    /// Its cub was dead for long, and not all of its pieces came.
    Piece,
}

/// How the block of a visit came to the viewers, if it came.
#[derive(Debug, Drop)]
pub enum BlockKind {
    /// As a whole of `len` bytes, sent in this beat.
    Whole { len: u64, sent: Beat },
    /// In all its pieces, `len` bytes together, sent in these beats, in the order of the pieces.
    Pieces { len: u64, sent: Sequence<Beat> },
    /// Not at all.
    Missing(Reason),
}

impl BlockKind {
    /// Whether the block was got, whole or in pieces.
    pub fn is_got(&self) -> bool
        ensures { result ≡ is_got self.now }
    {
        match self {
            BlockKind::Whole { .. } => true,
            BlockKind::Pieces { .. } => true,
            BlockKind::Missing(_) => false,
        }
    }
}

/// The block of a visit that is settled.
#[derive(Debug, Drop)]
pub struct BlockOut {
    /// The number of the block in its file, counted from 0.
    pub block: u64,
    /// When the visit was due.
    pub due: Micros,
    /// Which bytes of the file the block has; none where the file has no such block.
    pub span: Span,
    pub kind: BlockKind,
}

/// What became of a start: where it was put and when it was stopped, if it was, and its blocks in the
/// order of their visits.
#[derive(Debug, Drop)]
pub struct Outcome {
    pub ask: Ask,
    pub placed: Option<Tenancy>,
    pub stop: Option<Beat>,
    pub blocks: Sequence<BlockOut>,
}
