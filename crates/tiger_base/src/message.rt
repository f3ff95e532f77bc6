//! What nodes send to one another, and what a journal keeps of it.
ghost use Rattle.std.specs.Prelude.{◌≡◌, option_map};
ghost use Rattle.tiger_base.specs.Notes.{noted};
ghost use Rattle.tiger_base.specs.declared.message.Note.{Note};

use crate::number::{Beat, Instance, Micros, SlotNo, Visit};
use crate::part::{Part, Span};
use crate::tenancy::{Ask, PieceState, State, Tag, Tenancy, Want};

/// A message; `sent` is the beat of the event that sends it.
#[derive(Drop)]
pub enum Msg<'a> {
    /// A viewer state, to the two cubs that care for its visit.
    ViewerState(State),
    /// A mirror viewer state, to the cub that sends the piece.
    MirrorState(PieceState),
    /// The controller's order to begin; the redundant one waits until the first receiver is dead.
    Start {
        // It stands beside the tag: a single byte behind the order would cut each copy of any message in two there.
        redundant: bool,
        ask: Ask,
    },
    /// The order to drop all that is of an instance.
    Deschedule {
        instance: Instance,
        tag: Option<Tag>,
    },
    /// The order to drop the pieces of one visit.
    Kill {
        instance: Instance,
        slot: SlotNo,
        visit: Visit,
    },
    /// Tells the controller where an instance was put.
    Placed(Tenancy),
    /// Tells the next cub that this one is alive.
    Heartbeat,
    /// Asks a disk for a block or a piece.
    ReadAsk(Want),
    /// The disk's answer, with no part if the read failed.
    ReadDone {
        want: Want,
        part: Option<Part<'a>>,
    },
    /// A whole block, to the viewers.
    Whole {
        want: Want,
        sent: Beat,
        part: Part<'a>,
    },
    /// A mirror piece of a block, to the viewers.
    Piece {
        want: Want,
        sent: Beat,
        part: Part<'a>,
    },
    /// Tells the next cub that this one has returned, and the due time from which on it serves its
    /// visits again.
    Back {
        from: Micros,
    },
}

/// What a journal keeps of a message: the same, with a span in place of a part.
#[derive(Clone, Copy, Debug, PartialEq, Eq)]
pub enum Note {
    ViewerState(State),
    MirrorState(PieceState),
    Start {
        redundant: bool,
        ask: Ask,
    },
    Deschedule {
        instance: Instance,
        tag: Option<Tag>,
    },
    Kill {
        instance: Instance,
        slot: SlotNo,
        visit: Visit,
    },
    Placed(Tenancy),
    Heartbeat,
    ReadAsk(Want),
    ReadDone {
        want: Want,
        part: Option<Span>,
    },
    Whole {
        want: Want,
        sent: Beat,
        part: Span,
    },
    Piece {
        want: Want,
        sent: Beat,
        part: Span,
    },
    Back {
        from: Micros,
    },
}

/// A message that a journal keeps a note of. Nodes, runners and links are generic in it, since a
/// bound that names the lifetime of `Msg` can stand neither in a type's invariant nor in a thread.
pub trait Message: Drop {
    ghost note_of: { Self → Note };

    /// What a journal keeps of it. It takes no memory.
    fn note(&self) -> Note
        ensures { result ≡ note_of self.now };
}

impl<'a> Message for Msg<'a> {
    ghost note_of = { noted };

    fn note(&self) -> Note {
        match self {
            Msg::ViewerState(state) => Note::ViewerState(*state),
            Msg::MirrorState(state) => Note::MirrorState(*state),
            Msg::Start { ask, redundant } => Note::Start {
                ask: *ask,
                redundant: *redundant,
            },
            Msg::Deschedule { instance, tag } => Note::Deschedule {
                instance: *instance,
                tag: *tag,
            },
            Msg::Kill {
                instance,
                slot,
                visit,
            } => Note::Kill {
                instance: *instance,
                slot: *slot,
                visit: *visit,
            },
            Msg::Placed(tenancy) => Note::Placed(*tenancy),
            Msg::Heartbeat => Note::Heartbeat,
            Msg::ReadAsk(want) => Note::ReadAsk(*want),
            Msg::ReadDone { want, part } => Note::ReadDone {
                want: *want,
                part: span_of(part),
            },
            Msg::Whole { want, sent, part } => Note::Whole {
                want: *want,
                sent: *sent,
                part: part.span(),
            },
            Msg::Piece { want, sent, part } => Note::Piece {
                want: *want,
                sent: *sent,
                part: part.span(),
            },
            Msg::Back { from } => Note::Back { from: *from },
        }
    }
}

fn span_of(part: &Option<Part>) -> Option<Span>
    ensures { result ≡ option_map (λ p. p.span) part.now }
{
    part.as_ref().map(|part| part.span())
}
