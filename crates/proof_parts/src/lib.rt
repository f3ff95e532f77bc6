//! What becomes of the parts that disks give a cub, and why a cub asks for mirror pieces and serves them.
#![tactic(auto)]

ghost use Rattle.proof_parts.specs.Asks.{AsksAreForRecords, ReadsAreTrue};
ghost use Rattle.proof_parts.specs.PieceReads.{CubsServePieces};
ghost use Rattle.proof_parts.specs.Parts.{PartsAreFound, PartsAreRead, PartsComeByAnswers, PartsStay};

/// Each part that a cub keeps came by a disk's answer, when the cub had a record for it, and is kept since.
pub fn parts_come_by_answers()
    ensures { PartsComeByAnswers }
{}

/// A part stays until a deschedule of its instance, a kill of its visit's pieces, or a tick at which it is stale.
pub fn parts_stay()
    ensures { PartsStay }
{}

/// While a part of a want is stored, one is found for the want.
pub fn parts_are_found()
    ensures { PartsAreFound }
{}

/// What a cub asks of a disk is answered in time, and what a cub keeps was read by a disk that it asked.
pub fn parts_are_read()
    ensures { PartsAreRead }
{}

/// Each read that a cub asks of a disk is for a record, and a read is asked for each record whose time has come, unless
/// the cub's death cuts the tick off.
pub fn asks_are_for_records()
    ensures { AsksAreForRecords }
{}

/// What is sent was asked for, and is what the disk of the piece has; and a read fails for a reason.
pub fn reads_are_true()
    ensures { ReadsAreTrue }
{}

/// Cubs whose disks answer meet the laws of asking and serving of mirror pieces.
pub fn cubs_serve_pieces()
    ensures { CubsServePieces }
{}
