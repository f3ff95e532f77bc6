//! What the viewers keep of a file of ten bytes.
ghost use Rattle.std.specs.Prelude.{◌≡◌, ◌≤◌, ℕ};
ghost use Rattle.tiger_base.specs.Limits.{most_reading};
ghost use Rattle.slot_plan.specs.declared.params.Params.{Params};
ghost use Rattle.node_kit.specs.Links.{IsInLink};

use crate::Viewers;
use node_kit::{Node, Outbox};
use std::alloc::Global;
use std::test::Fail;
use tiger_base::{
    FileNo, Instance, Library, LinkNo, Message, Msg, NoMemory, Part, SlotNo, Span, Stamp, Visit,
    Want,
};

/// A library of the file `1234567890`.
fn digits(alloc: Global) -> Result<Library, NoMemory> {
    let mut files = Vec::new(alloc);
    files.push(b"1234567890".to_vec(alloc)?)?;
    Ok(Library::new(files))
}

fn want(instance: u32, visit: Visit, piece: u32) -> Want {
    Want {
        instance: Instance(instance),
        slot: SlotNo(1),
        visit,
        file: FileNo(0),
        block: visit,
        piece,
    }
}

/// The bytes of the file from a place on.
fn part<'a>(library: &'a Library, from: u64, bytes: &'a [u8]) -> Result<Part<'a>, Fail> {
    let span = Span {
        file: FileNo(0),
        from,
        len: bytes.len() as u64,
    };
    let part = Part::of(library, span, bytes).ok_or("no part of the library")?;
    Ok(part)
}

/// Takes a whole block.
fn get_whole<'a>(viewers: &mut Viewers<'a>, visit: Visit, part: Part<'a>) -> Result<(), NoMemory> {
    viewers.hear(Msg::Whole {
        want: want(0, visit, 0),
        sent: 50,
        part,
    })
}

/// Takes a piece.
fn get_piece<'a>(
    viewers: &mut Viewers<'a>,
    visit: Visit,
    piece: u32,
    part: Part<'a>,
) -> Result<(), NoMemory> {
    viewers.hear(Msg::Piece {
        want: want(0, visit, piece),
        sent: 350,
        part,
    })
}

/// The bytes that are kept.
fn bytes<'a>(viewers: &Viewers<'a>, instance: u32, visit: Visit, piece: u32) -> Option<&'a [u8]> {
    let part = viewers.part_of(Instance(instance), visit, piece)?;
    Some(part.bytes())
}

/// Viewers who got the three blocks of a file, the last one first.
fn with_blocks<'a>(alloc: Global, library: &'a Library) -> Result<Viewers<'a>, Fail> {
    let mut viewers = Viewers::new(alloc);
    get_whole(&mut viewers, 2, part(library, 8, b"90")?)?;
    get_whole(&mut viewers, 0, part(library, 0, b"1234")?)?;
    get_whole(&mut viewers, 1, part(library, 4, b"5678")?)?;
    Ok(viewers)
}

#[test]
fn each_block_is_kept_under_its_visit(rt: HostRuntime) -> Result<(), Fail> {
    let library = digits(rt.alloc())?;
    let viewers = with_blocks(rt.alloc(), &library)?;
    assert!(rt; bytes(&viewers, 0, 0, 0) == Some(b"1234".as_slice()));
    assert!(rt; bytes(&viewers, 0, 1, 0) == Some(b"5678".as_slice()));
    assert!(rt; bytes(&viewers, 0, 2, 0) == Some(b"90".as_slice()));
    assert!(rt; bytes(&viewers, 0, 3, 0).is_none());
    assert!(rt; bytes(&viewers, 1, 0, 0).is_none());
    assert!(rt; bytes(&viewers, 0, 0, 1).is_none());
    Ok(())
}

/// Viewers who got a block and its pieces, and then other bytes in their place.
fn with_pieces<'a>(alloc: Global, library: &'a Library) -> Result<Viewers<'a>, Fail> {
    let mut viewers = Viewers::new(alloc);
    get_piece(&mut viewers, 0, 1, part(library, 0, b"12")?)?;
    get_piece(&mut viewers, 0, 2, part(library, 2, b"34")?)?;
    get_whole(&mut viewers, 0, part(library, 0, b"1234")?)?;
    get_piece(&mut viewers, 0, 2, part(library, 4, b"56")?)?;
    get_whole(&mut viewers, 0, part(library, 4, b"5678")?)?;
    Ok(viewers)
}

#[test]
fn the_first_part_of_each_piece_stays(rt: HostRuntime) -> Result<(), Fail> {
    let library = digits(rt.alloc())?;
    let viewers = with_pieces(rt.alloc(), &library)?;
    assert!(rt; bytes(&viewers, 0, 0, 1) == Some(b"12".as_slice()));
    assert!(rt; bytes(&viewers, 0, 0, 2) == Some(b"34".as_slice()));
    assert!(rt; bytes(&viewers, 0, 0, 0) == Some(b"1234".as_slice()));
    Ok(())
}

/// Hands a message to a node of any type, and ends its beat.
fn told<M: Message, T: Node<M>>(
    node: &mut T,
    stamp: Stamp,
    link: LinkNo,
    msg: M,
    out: &mut Outbox<M>,
) -> Result<(), NoMemory>
    requires reading { stamp.reading ≤ most_reading }
    requires in_link { (p : Params) × (n : ℕ) × T.stands_at node.old p n × IsInLink p n link.0 }
{
    node.take(stamp, link, msg, out)?;
    node.tick(stamp, out)
}

/// Viewers who got a heartbeat and the last block of a file.
fn with_last_block<'a>(alloc: Global, library: &'a Library) -> Result<Viewers<'a>, Fail> {
    let mut viewers = Viewers::new(alloc);
    let mut out = Outbox::new(alloc);
    let stamp = Stamp {
        beat: 251,
        reading: 2510000,
    };
    let part = part(library, 8, b"90")?;
    let last = Msg::Whole {
        want: want(0, 2, 0),
        sent: 250,
        part,
    };
    told(&mut viewers, stamp, LinkNo(16), Msg::Heartbeat, &mut out)?;
    told(&mut viewers, stamp, LinkNo(18), last, &mut out)?;
    match out.take_first() {
        Some(_) => Err(Fail::from("viewers put something out")),
        None => Ok(viewers),
    }
}

#[test]
fn viewers_act_through_the_trait(rt: HostRuntime) -> Result<(), Fail> {
    let library = digits(rt.alloc())?;
    let viewers = with_last_block(rt.alloc(), &library)?;
    assert!(rt; bytes(&viewers, 0, 2, 0) == Some(b"90".as_slice()));
    Ok(())
}
