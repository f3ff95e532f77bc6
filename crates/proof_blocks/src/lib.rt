//! Each cub asks its disks for whole blocks when they are to be read, and sends them when they are due, by its own rules.
#![tactic(auto)]

ghost use Rattle.proof_blocks.specs.Blocks.{CubsServeBlocks};
ghost use Rattle.proof_blocks.specs.Marks.{MarksTellOfAsks};

/// A line of an own record has its mark if its block was asked for, and else was at no tick due within the read lead.
pub fn marks_tell_of_asks()
    ensures { MarksTellOfAsks }
{}

/// Whatever befalls cubs whose messages are in form and whose disks answer, they ask for whole blocks and serve them as
/// their laws say.
pub fn cubs_serve_blocks()
    ensures { CubsServeBlocks }
{}
