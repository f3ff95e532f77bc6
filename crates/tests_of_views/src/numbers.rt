//! Files, parts and notes on a small library, and the records of a tenancy.
ghost use Rattle.std.specs.Prelude.{◌≡◌, IfOk, ◌∷◌, []};

use std::alloc::Global;
use std::process::Abort;
use std::test::Fail;
use tiger_base::{
    FileNo, Instance, Library, Message, Msg, NoMemory, Note, Part, PieceState, Rec, Sequence,
    SlotNo, Span, Tenancy, Want,
};

/// A library of the file `1234567890`.
fn digits(alloc: Global) -> Result<Library, NoMemory> {
    let mut files = Vec::with_capacity(alloc, 1)?;
    files.push(b"1234567890".to_vec(alloc)?)?;
    if files.len() < 4294967296 {
        Ok(Library::new(files))
    } else {
        Err(NoMemory)
    }
}

fn span(file: u32, from: u64, len: u64) -> Span {
    Span {
        file: FileNo(file),
        from,
        len,
    }
}

/// Whether a part of these bytes can be had.
fn is_part(library: &Library, span: Span, bytes: &[u8]) -> bool {
    Part::of(library, span, bytes).is_some()
}

#[test]
fn a_part_has_the_bytes_of_its_span_and_no_others(rt: HostRuntime) -> Result<(), Fail> {
    let library = digits(rt.alloc())?;
    assert!(rt; is_part(&library, span(0, 8, 2), b"90"));
    assert!(rt; is_part(&library, span(0, 10, 0), b""));
    assert!(rt; !is_part(&library, span(0, 8, 2), b"91"));
    assert!(rt; !is_part(&library, span(0, 8, 2), b"9"));
    assert!(rt; !is_part(&library, span(0, 8, 3), b"90"));
    assert!(rt; !is_part(&library, span(0, 11, 0), b""));
    assert!(rt; !is_part(&library, span(0, u64::MAX, 2), b"90"));
    assert!(rt; !is_part(&library, span(1, 0, 0), b""));
    Ok(())
}

#[test]
fn a_part_is_lent_again_and_noted_by_its_span(rt: HostRuntime) -> Result<(), Fail> {
    let library = digits(rt.alloc())?;
    let first = Part::of(&library, span(0, 4, 4), b"5678").ok_or("no part")?;
    let part = first.again();
    assert_eq!(rt; part.bytes(), b"5678".as_slice());
    let want = Want {
        instance: Instance(0),
        slot: SlotNo(1),
        visit: 1,
        file: FileNo(0),
        block: 1,
        piece: 0,
    };
    let noted = Note::Whole {
        want,
        sent: 150,
        part: span(0, 4, 4),
    };
    let message = Msg::Whole {
        want,
        sent: 150,
        part,
    };
    assert!(rt; message.note() == noted);
    assert!(rt; Msg::Heartbeat.note() == Note::Heartbeat);
    Ok(())
}

#[test]
fn a_file_is_there_below_their_number(rt: HostRuntime) -> Result<(), Fail> {
    let library = digits(rt.alloc())?;
    assert!(rt; library.file(FileNo(0)) == Some(b"1234567890".as_slice()));
    assert!(rt; library.file(FileNo(1)).is_none());
    Ok(())
}

#[test]
fn a_sequence_grows_at_its_end(rt: HostRuntime) -> Result<(), Fail> {
    let mut sequence = Sequence::new(Vec::new(rt.alloc()));
    assert!(rt; sequence.is_empty());
    sequence.push(3u64)?;
    sequence.push(4)?;
    assert_eq!(rt; sequence.len(), 2);
    assert!(rt; sequence.get(1) == Some(&4) && sequence.get(2).is_none());
    assert_eq!(rt; sequence.as_slice(), [3, 4].as_slice());
    assert_eq!(rt; sequence.into_vec().as_slice(), [3, 4].as_slice());
    Ok(())
}

#[test]
fn a_block_is_counted_from_the_first_visit(rt: HostRuntime) {
    let tenancy = Tenancy {
        instance: Instance(3),
        file: FileNo(5),
        slot: SlotNo(1),
        first: 2,
        last: 4,
    };
    let own = Rec::own(tenancy, 3);
    let backup = Rec::backup(tenancy, 3);
    assert!(rt; own.kind.is_own() && !backup.kind.is_own());
    let block = Want {
        instance: Instance(3),
        slot: SlotNo(1),
        visit: 3,
        file: FileNo(5),
        block: 1,
        piece: 0,
    };
    assert_eq!(rt; Want::of_block(&own), block);
    assert_eq!(rt; Want::of_block(&backup), block);
    let state = PieceState {
        tenancy,
        visit: 3,
        piece: 2,
    };
    let piece = Want { piece: 2, ..block };
    assert_eq!(rt; Want::of_piece(&state), piece);
}
