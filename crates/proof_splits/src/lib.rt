//! The cubs' rules on piece records, splits, mirror states and kills meet their laws, whatever befalls the cubs.
#![tactic(auto)]

ghost use Rattle.proof_splits.specs.PieceRecords.{CubsKeepPieces};
ghost use Rattle.proof_splits.specs.Splitting.{CubsSplitRightly};

/// Each piece record of a cub entered by a mirror state or a split, behind each deschedule and kill of it, and stands
/// since then; it is to be asked for until it has been asked for.
pub fn cubs_keep_pieces()
    ensures { CubsKeepPieces }
{}

/// Cubs that are told what other cubs send meet the laws of splits, mirror states and kills.
pub fn cubs_split_rightly()
    ensures { CubsSplitRightly }
{}
