//! What a cub puts out and what it keeps, as texts: each output and each thing that is kept ends in a semicolon.

use crate::samples::want;
use cub_rules::{Store, StoredParts};
use node_kit::{Out, Outbox, What};
use std::alloc::AllocError;
use std::fmt::Write;
use std::process::Abort;
use std::test::Fail;
use tiger_base::{
    Ask, Beat, DiskNo, Instance, Message, Msg, Note, PieceState, Rec, Span, Tag, Tenancy, Want,
};

/// Fails unless there is a text, and it is this one.
pub fn assert_text(rt: &impl Abort, text: Result<String, Fail>, wanted: &str) -> Result<(), Fail> {
    let text = text?;
    assert_eq!(rt; text.as_str(), wanted);
    Ok(())
}

/// Takes all outputs, and adds them in their order: a message behind the number of its link, or an entry.
pub fn push_outputs(out: &mut Outbox<Msg>, text: &mut String) -> Result<(), AllocError> {
    while let Some(output) = out.take_first() {
        push_output(&output, text)?;
    }
    Ok(())
}

fn push_output(output: &Out<Msg>, text: &mut String) -> Result<(), AllocError> {
    match output {
        Out::Send(link, msg) => {
            write!(text, "{}: ", link.0)?;
            push_note(&msg.note(), text)
        }
        Out::Act(what) => push_what(what, text),
    }
}

/// Adds an entry; one that no cub writes stands as it is declared.
fn push_what(what: &What, text: &mut String) -> Result<(), AllocError> {
    match what {
        What::Took(rec) => push_record("took ", rec, text),
        What::Dropped(rec) => push_record("dropped ", rec, text),
        What::Put(tenancy) => push_tenancy("put", tenancy, text),
        What::Queued(instance, disk) => write!(text, "queued {} on {}; ", instance.0, disk.0),
        What::Unqueued(instance) => write!(text, "unqueued {}; ", instance.0),
        What::ReadFailed(want) => push_want("failed", want, text),
        What::Believed(cub) => write!(text, "believed {}; ", cub.0),
        _ => write!(text, "{what:?}; "),
    }
}

/// Adds a message; one that no cub sends stands as it is declared.
fn push_note(note: &Note, text: &mut String) -> Result<(), AllocError> {
    match note {
        Note::ViewerState(state) => {
            write!(text, "state {} of", state.visit)?;
            push_tenancy("", &state.tenancy, text)
        }
        Note::MirrorState(piece) => push_piece("mirror state ", piece, text),
        Note::Deschedule { instance, tag } => push_stop(instance.0, tag, text),
        Note::Kill {
            instance,
            slot,
            visit,
        } => write!(text, "kill {} at {}/{visit}; ", instance.0, slot.0),
        Note::Placed(tenancy) => push_tenancy("placed", tenancy, text),
        Note::Heartbeat => text.push_str("heartbeat; "),
        Note::ReadAsk(want) => push_want("read", want, text),
        Note::Whole { want, sent, part } => push_part("whole", want, *sent, part, text),
        Note::Piece { want, sent, part } => push_part("piece", want, *sent, part, text),
        _ => write!(text, "{note:?}; "),
    }
}

/// Adds the deschedule of an instance, with the slot and the visit of its tag.
fn push_stop(instance: u32, tag: &Option<Tag>, text: &mut String) -> Result<(), AllocError> {
    match tag {
        Some(tag) => write!(text, "stop {instance} at {}/{}; ", tag.slot.0, tag.visit),
        None => write!(text, "stop {instance}; "),
    }
}

/// Adds the bytes of a block or piece: the file, the first byte, the number of bytes, the beat in which they are sent,
/// and what was asked of the disk.
fn push_part(
    name: &str,
    want: &Want,
    sent: Beat,
    part: &Span,
    text: &mut String,
) -> Result<(), AllocError> {
    let span = (part.file.0, part.from, part.len);
    write!(text, "{name} {span:?} sent in {sent} for")?;
    push_want("", want, text)
}

/// Adds a record: its kind, its visit and its tenancy.
fn push_record(name: &str, rec: &Rec, text: &mut String) -> Result<(), AllocError> {
    write!(text, "{name}{:?} {} of", rec.kind, rec.visit)?;
    push_tenancy("", &rec.tenancy, text)
}

/// Adds a piece record: the piece, its visit and its tenancy.
fn push_piece(name: &str, x: &PieceState, text: &mut String) -> Result<(), AllocError> {
    write!(text, "{name}{}.{} of", x.visit, x.piece)?;
    push_tenancy("", &x.tenancy, text)
}

/// Adds a tenancy: its instance, file, slot, first and last visit.
fn push_tenancy(name: &str, t: &Tenancy, text: &mut String) -> Result<(), AllocError> {
    let numbers = (t.instance.0, t.file.0, t.slot.0, t.first, t.last);
    write!(text, "{name} {numbers:?}; ")
}

/// Adds what is asked of a disk: the instance, slot, visit, file, block and piece.
fn push_want(name: &str, w: &Want, text: &mut String) -> Result<(), AllocError> {
    let numbers = (w.instance.0, w.slot.0, w.visit, w.file.0, w.block, w.piece);
    write!(text, "{name} {numbers:?}; ")
}

/// Adds what a cub keeps, behind a bar: the first records of instances 0 and 1; of instance 0, whether its deschedule is
/// held and is to be passed on, and whether a start of it is there; the next start on disk 0, and how many are redundant;
/// whether the predecessor was heard from 20000 on, and is believed dead; and what it keeps of pieces.
pub fn push_kept(store: &mut Store, text: &mut String) -> Result<(), AllocError> {
    text.push_str("| ")?;
    push_first(store.view.view().first_of(Instance(0)), text)?;
    push_first(store.view.view().first_of(Instance(1)), text)?;
    push_if(store.held.is_held(Instance(0)), "held; ", text)?;
    push_if(store.held.must_pass(Instance(0)), "to pass on; ", text)?;
    push_if(store.starts.is_asked(Instance(0)), "asked; ", text)?;
    push_start(store.starts.next(DiskNo(0)), text)?;
    push_count(store.starts.redundant().len(), "redundant", text)?;
    push_if(!store.watch.check(1020000), "heard; ", text)?;
    push_if(store.believes, "believes; ", text)?;
    push_pieces(store, text)
}

/// Adds the first piece record and the first that is not asked for yet, the first visit of instance 0 that was split,
/// and what parts are stored for.
fn push_pieces(store: &mut Store, text: &mut String) -> Result<(), AllocError> {
    push_first_piece("piece ", store.pieces.after(None), text)?;
    push_first_piece("unasked ", store.unasked.after(None), text)?;
    if let Some((slot, visit)) = store.splits.take_of(Instance(0)) {
        write!(text, "split {}/{visit}; ", slot.0)?;
    }
    push_stored(&store.parts, text)
}

/// Adds each want of these tests for which a part is stored.
fn push_stored(parts: &StoredParts, text: &mut String) -> Result<(), AllocError> {
    for (visit, block, piece) in [(0, 0, 1), (2, 1, 1), (3, 2, 0), (3, 3, 1), (3, 3, 2)] {
        let want = want(visit, block, piece);
        if parts.part_for(want).is_some() {
            push_want("stored", &want, text)?;
        }
    }
    Ok(())
}

fn push_if(is_so: bool, words: &str, text: &mut String) -> Result<(), AllocError> {
    if is_so { text.push_str(words) } else { Ok(()) }
}

fn push_count(count: usize, name: &str, text: &mut String) -> Result<(), AllocError> {
    if count == 0 {
        return Ok(());
    }
    write!(text, "{count} {name}; ")
}

/// Adds a record, if there is one.
pub fn push_first(rec: Option<Rec>, text: &mut String) -> Result<(), AllocError> {
    match rec {
        Some(rec) => push_record("", &rec, text),
        None => Ok(()),
    }
}

/// Adds a start: its instance, its file and the number of blocks.
fn push_start(ask: Option<Ask>, text: &mut String) -> Result<(), AllocError> {
    match ask {
        Some(ask) => {
            let numbers = (ask.instance.0, ask.file.0, ask.count);
            write!(text, "next {numbers:?}; ")
        }
        None => Ok(()),
    }
}

fn push_first_piece(
    name: &str,
    piece: Option<PieceState>,
    text: &mut String,
) -> Result<(), AllocError> {
    match piece {
        Some(piece) => push_piece(name, &piece, text),
        None => Ok(()),
    }
}
