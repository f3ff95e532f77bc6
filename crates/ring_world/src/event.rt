//! What may happen to a ring of nodes, and why it may not.

use tiger_base::{Beat, CubNo, LinkNo, Micros, NodeNo, Stamp};

/// The event of a cub in which its death comes.
#[derive(Clone, Copy, Debug, PartialEq, Eq)]
pub enum Last {
    /// The cub to which the link leads takes the message of this number.
    Get { link: LinkNo, number: u64 },
    /// The cub of this node ends its beat.
    Tick(NodeNo),
}

/// What happens.
#[derive(Clone, Copy, Debug, PartialEq, Eq)]
pub enum Act {
    /// The node to which the link leads takes the message of this number: its place among all
    /// messages that were sent on the link, counted from 0.
    Get { link: LinkNo, number: u64 },
    /// The node ends its beat.
    Tick(NodeNo),
    /// The cub dies.
    Die(CubNo),
    /// The cub dies in the middle of this event: so many of the event's messages go out, or all if it has no more, and
    /// what it puts out from the next one on is lost.
    DieIn { last: Last, sends: u64 },
    /// The cub, which is dead, comes back. What is under way to it from lower beats is lost.
    Return(CubNo),
}

/// What happens, in which beat, and at which reading of the clock of the node to which it happens.
#[derive(Clone, Copy, Debug, PartialEq, Eq)]
pub struct Event {
    pub stamp: Stamp,
    pub act: Act,
}

/// Why an event may not happen: the first of these, in this order, that holds of it.
#[derive(Clone, Copy, Debug, PartialEq, Eq)]
pub enum StepFault {
    /// The beat is neither the machine's, which is `now`, nor the next one.
    WrongBeat { now: Beat },
    /// The beat is the next one, and this node lives and has not ticked in the machine's beat. It is
    /// the least such node.
    TickMissed { node: NodeNo },
    /// The cub to which the event happens is dead, or the cub that is to die has died before.
    Dead { cub: CubNo },
    /// The cub that is to return is not dead, or died in this beat or the one before, or has returned before.
    NotBack { cub: CubNo },
    /// The node to which the event happens has ticked in this beat, or the cub that is to die has had
    /// any event in it.
    Ticked { node: NodeNo },
    /// The reading is below the true time, above it by more than the skew, or below that of the node's
    /// last event.
    ReadingOff { reading: Micros },
    /// The number is not that of the oldest message under way on the link.
    NotNext { link: LinkNo },
    /// The message was sent in this beat, which is `sent`.
    TooEarly { sent: Beat },
    /// A node is to tick, and a message to it is under way that was sent in beat `sent`, the greatest
    /// delay before or earlier. The link is the least such link.
    TooLate { link: LinkNo, sent: Beat },
    /// A cub is to die, and this neighbour of it in the ring has died, whether it has returned or not. It is the
    /// lesser one, if both have.
    NeighbourDead { cub: CubNo },
}
