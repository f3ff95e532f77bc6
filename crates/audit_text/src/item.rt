//! What a line of the text says, and the words that lines begin with.
ghost use Rattle.std.specs.Prelude.{◌≡◌};
ghost use Rattle.audit_text.specs.Words.{letters};

use link_timing::Delay;
use node_kit::{Digest32, Entry, Order, ReadFault};
use slot_plan::Params;
use stripe_layout::FileInfo;
use tiger_base::{Beat, CubNo, Micros, NodeNo, Sequence};

/// What one line of the text says.
#[derive(Drop)]
pub enum Item {
    /// That a text of this form begins.
    Version,
    /// The numbers of the plan.
    Plan(Params),
    /// The number of beats.
    Beats(u64),
    /// The delay of messages.
    Delay(Delay),
    /// How far the clock of each cub, and of the controller last, is ahead.
    Offsets(Sequence<Micros>),
    /// That a cub dies, and in which beat; how many messages it may still send in that beat, if its death
    /// cuts it off there; and in which beat it returns.
    Death {
        cub: CubNo,
        beat: Beat,
        left: Option<u64>,
        back: Option<Beat>,
    },
    /// A read fault.
    Fault(ReadFault),
    /// The next file of the catalogue.
    File(FileInfo),
    /// The next order.
    Order(Order),
    /// That the entries of this node follow.
    Node(NodeNo),
    /// The next entry of the node's journal.
    Entry(Entry),
    /// The digest of the next start.
    Digest(Digest32),
    /// That the text ends.
    End,
}

/// The word that a line begins with.
#[derive(Clone, Copy)]
pub enum Word {
    Tiger,
    Plan,
    Beats,
    Fixed,
    Drawn,
    Offsets,
    Death,
    Fault,
    File,
    Begin,
    Finish,
    Node,
    Got,
    Sent,
    Took,
    Dropped,
    Queued,
    Unqueued,
    Put,
    Gone,
    ReadFailed,
    Believed,
    Died,
    Returned,
    Digest,
    End,
}

impl Word {
    /// Its letters.
    pub fn letters(self) -> &'static [u8]
        ensures { result.now ≡ letters self }
    {
        match self {
            Word::Tiger => b"tiger",
            Word::Plan => b"plan",
            Word::Beats => b"beats",
            Word::Fixed => b"fixed",
            Word::Drawn => b"drawn",
            Word::Offsets => b"offsets",
            Word::Death => b"death",
            Word::Fault => b"fault",
            Word::File => b"file",
            Word::Begin => b"begin",
            Word::Finish => b"finish",
            Word::Node => b"node",
            Word::Got => b"got",
            Word::Sent => b"sent",
            Word::Took => b"took",
            Word::Dropped => b"dropped",
            Word::Queued => b"queued",
            Word::Unqueued => b"unqueued",
            Word::Put => b"put",
            Word::Gone => b"gone",
            Word::ReadFailed => b"readfailed",
            Word::Believed => b"believed",
            Word::Died => b"died",
            Word::Returned => b"returned",
            Word::Digest => b"digest",
            Word::End => b"end",
        }
    }
}
