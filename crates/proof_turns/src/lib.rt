//! What a cub writes when it takes a message is told apart from what it writes in the next tick.
#![tactic(auto)]

ghost use Rattle.proof_turns.specs.Laws.{TakesWriteTheirOwn, TicksBeginOtherwise};

pub mod rows;

/// Whatever a cub puts out at a message is what a take of that message may put out.
pub fn takes_write_their_own()
    ensures { TakesWriteTheirOwn }
{}

/// What it puts out first in a tick right behind the message is not.
pub fn ticks_begin_otherwise()
    ensures { TicksBeginOtherwise }
{}
