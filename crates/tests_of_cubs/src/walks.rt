//! Cub 3 around the times of its records, in the steps that walk them: splitting, forwarding, reading and serving.

use crate::samples::{Keep, library, tenancy, want};
use crate::steps::{Known, Step, stepped};
use crate::texts::assert_text;
use std::alloc::Global;
use std::test::Fail;
use tiger_base::{Beat, Instance, Library, Micros, PieceState, Rec, SlotNo, Stamp, Tenancy};

/// Four visits of slot 1.
fn ours() -> Tenancy {
    tenancy(1, 4)
}

/// The visit of cub 3, which is due at 3500000.
fn own<'a>() -> Keep<'a> {
    Keep::Record(Rec::own(ours(), 3))
}

/// The visit of cub 3 in slot 2, which is due at 4000000.
fn later<'a>() -> Keep<'a> {
    let tenancy = Tenancy {
        instance: Instance(1),
        slot: SlotNo(2),
        ..ours()
    };
    Keep::Record(Rec::own(tenancy, 3))
}

/// The visit of the cub before, which is due at 2500000.
fn backup<'a>() -> Keep<'a> {
    Keep::Record(Rec::backup(ours(), 2))
}

/// The first piece of that visit.
fn piece() -> PieceState {
    PieceState {
        tenancy: ours(),
        visit: 2,
        piece: 1,
    }
}

/// What goes out to the next cubs for one record, and what is kept then.
fn forwarded(alloc: Global, keep: Keep, beat: Beat, reading: Micros) -> Result<String, Fail> {
    let stamp = Stamp { beat, reading };
    stepped(alloc, 3, &[keep], Step::Forward, stamp, &[])
}

#[test]
fn state_goes_to_the_next_two_cubs(rt: HostRuntime) -> Result<(), Fail> {
    let kept = "| Own 3 of (0, 0, 1, 1, 4); ";
    let sent = "30: state 4 of (0, 0, 1, 1, 4); 31: state 4 of (0, 0, 1, 1, 4); \
                | Own 3 of (0, 0, 1, 1, 4); ";
    let cases = [
        (own(), 151, 1499999, kept),
        (own(), 151, 1500000, sent),
        (own(), 160, 500000, sent),
        (own(), 161, 500000, kept),
        (backup(), 160, 9500000, "| Backup 2 of (0, 0, 1, 1, 4); "),
    ];
    for (keep, beat, reading, want) in cases {
        assert_text(&rt, forwarded(rt.alloc(), keep, beat, reading), want)?;
    }
    Ok(())
}

/// What the disk is asked for at a reading if both records and the piece are there, and what is kept then.
fn asked(alloc: Global, reading: Micros) -> Result<String, Fail> {
    let keeps = [
        own(),
        backup(),
        Keep::Piece(piece()),
        Keep::Unasked(piece()),
    ];
    let stamp = Stamp { beat: 0, reading };
    stepped(alloc, 3, &keeps, Step::Read, stamp, &[])
}

#[test]
fn disk_is_asked_for_blocks_and_then_pieces(rt: HostRuntime) -> Result<(), Fail> {
    let cases = [
        (
            2399999,
            "| Backup 2 of (0, 0, 1, 1, 4); piece 2.1 of (0, 0, 1, 1, 4); \
             unasked 2.1 of (0, 0, 1, 1, 4); ",
        ),
        (
            2400000,
            "43: read (0, 1, 2, 0, 1, 1); \
             | Backup 2 of (0, 0, 1, 1, 4); piece 2.1 of (0, 0, 1, 1, 4); ",
        ),
        (
            3399999,
            "43: read (0, 1, 2, 0, 1, 1); \
             | Backup 2 of (0, 0, 1, 1, 4); piece 2.1 of (0, 0, 1, 1, 4); ",
        ),
        (
            3400000,
            "43: read (0, 1, 3, 0, 2, 0); 43: read (0, 1, 2, 0, 1, 1); \
             | Backup 2 of (0, 0, 1, 1, 4); piece 2.1 of (0, 0, 1, 1, 4); ",
        ),
    ];
    for (reading, want) in cases {
        assert_text(&rt, asked(rt.alloc(), reading), want)?;
    }
    Ok(())
}

/// The same of two own records; and whether it is known then that nothing is left to ask for that is due before a time,
/// and before the next one.
fn asked_of_two(alloc: Global, reading: Micros, time: Micros) -> Result<String, Fail> {
    let stamp = Stamp { beat: 0, reading };
    let known = [
        Known::AskedBefore(time),
        Known::AskedBefore(time.saturating_add(1)),
    ];
    stepped(alloc, 3, &[own(), later()], Step::Read, stamp, &known)
}

#[test]
fn walk_that_asks_leaves_what_is_asked_for_behind(rt: HostRuntime) -> Result<(), Fail> {
    let none = "| Own 3 of (0, 0, 1, 1, 4); Own 3 of (1, 0, 2, 1, 4); true false ";
    let one = "43: read (0, 1, 3, 0, 2, 0); \
               | Own 3 of (0, 0, 1, 1, 4); Own 3 of (1, 0, 2, 1, 4); true false ";
    assert_text(&rt, asked_of_two(rt.alloc(), 3399999, 3500000), none)?;
    assert_text(&rt, asked_of_two(rt.alloc(), 3400000, 4000000), one)
}

/// What goes to the viewers at a reading in beat 350, and what is kept then, if the parts of block and piece are stored.
fn served(alloc: Global, library: &Library, reading: Micros) -> Result<String, Fail> {
    let keeps = [
        own(),
        backup(),
        Keep::Piece(piece()),
        Keep::Unasked(piece()),
        Keep::Part(want(2, 1, 1), library, 4, b"56"),
        Keep::Part(want(3, 2, 0), library, 8, b"90"),
    ];
    let stamp = Stamp { beat: 350, reading };
    stepped(alloc, 3, &keeps, Step::Serve, stamp, &[])
}

#[test]
fn what_is_due_goes_to_the_viewers(rt: HostRuntime) -> Result<(), Fail> {
    let library = library(rt.alloc(), b"1234567890")?;
    let nothing = "| Backup 2 of (0, 0, 1, 1, 4); piece 2.1 of (0, 0, 1, 1, 4); \
                   unasked 2.1 of (0, 0, 1, 1, 4); \
                   stored (0, 1, 2, 0, 1, 1); stored (0, 1, 3, 0, 2, 0); ";
    let piece = "dropped Backup 2 of (0, 0, 1, 1, 4); \
                 19: piece (0, 4, 2) sent in 350 for (0, 1, 2, 0, 1, 1); \
                 | Own 3 of (0, 0, 1, 1, 4); \
                 stored (0, 1, 2, 0, 1, 1); stored (0, 1, 3, 0, 2, 0); ";
    let both = "19: whole (0, 8, 2) sent in 350 for (0, 1, 3, 0, 2, 0); \
                dropped Own 3 of (0, 0, 1, 1, 4); dropped Backup 2 of (0, 0, 1, 1, 4); \
                19: piece (0, 4, 2) sent in 350 for (0, 1, 2, 0, 1, 1); \
                | stored (0, 1, 2, 0, 1, 1); stored (0, 1, 3, 0, 2, 0); ";
    for (reading, want) in [
        (2499999, nothing),
        (2500000, piece),
        (3499999, piece),
        (3500000, both),
    ] {
        assert_text(&rt, served(rt.alloc(), &library, reading), want)?;
    }
    Ok(())
}

/// What goes out for the backup record at a reading, and what is kept then; and whether it is known that no visit that is
/// due as late as the backup record's is still to be split.
fn mirrored(alloc: Global, keeps: &[Keep], reading: Micros) -> Result<String, Fail> {
    let stamp = Stamp { beat: 0, reading };
    let known = [Known::SplitFrom(2500000)];
    stepped(alloc, 3, keeps, Step::Split, stamp, &known)
}

#[test]
fn visit_of_a_dead_cub_is_split(rt: HostRuntime) -> Result<(), Fail> {
    let cases: [(&[Keep], Micros, &str); 5] = [
        (
            &[own(), backup(), Keep::Belief],
            2366000,
            "30: mirror state 2.2 of (0, 0, 1, 1, 4); \
             | Backup 2 of (0, 0, 1, 1, 4); believes; piece 2.1 of (0, 0, 1, 1, 4); \
             unasked 2.1 of (0, 0, 1, 1, 4); split 1/2; true ",
        ),
        (
            &[own(), backup(), Keep::Belief],
            2366001,
            "| Backup 2 of (0, 0, 1, 1, 4); believes; false ",
        ),
        (
            &[own(), backup()],
            2366000,
            "| Backup 2 of (0, 0, 1, 1, 4); false ",
        ),
        (
            &[own(), backup(), Keep::Belief, Keep::Handback(2500001)],
            2366000,
            "30: mirror state 2.2 of (0, 0, 1, 1, 4); \
             | Backup 2 of (0, 0, 1, 1, 4); believes; piece 2.1 of (0, 0, 1, 1, 4); \
             unasked 2.1 of (0, 0, 1, 1, 4); split 1/2; true ",
        ),
        (
            &[own(), backup(), Keep::Belief, Keep::Handback(2500000)],
            2366000,
            "| Backup 2 of (0, 0, 1, 1, 4); believes; true ",
        ),
    ];
    for (keeps, reading, want) in cases {
        assert_text(&rt, mirrored(rt.alloc(), keeps, reading), want)?;
    }
    Ok(())
}
