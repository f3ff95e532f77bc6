//! Lines of another program's texts, which are read and written again, and lines that are no item's.

use audit_text::{Desk, push_item, write_kept};
use link_timing::Delay;
use node_kit::{Course, Digest32, Entry, Journal, Kept, Order, OrderKind, ReadFault, What};
use slot_plan::small_plan;
use std::alloc::Global;
use std::test::Fail;
use stripe_layout::{Catalogue, FileInfo};
use tiger_base::{Ask, DiskNo, FileNo, Instance, NoMemory, Sequence, Stamp};

// A line of each word, and one of each note.
const LINES: &str = "tiger 1
plan 8 1 16 1000000 2 4 10000 2 4000 800000 200000 100000 3000000 4000000 20 50 1000000 3000000
beats 600
fixed 1
drawn 18446744073709551615
offsets 0 0 4000 0 17 0 0 0 0
death 3 250 0 0
death 4 250 1 260
fault 7 130 160
file 10 4294967295
begin 0 0 0 3 0
finish 70 0
node 17
sent 0 0 24 6
got 1 10000 0 2 0 0 3 0 0
got 1 10000 1 2 0 0 3 0 1
queued 1 10000 0 0
unqueued 1 10000 0
put 1 10000 0 0 1 0 2
took 1 10000 0 0 1 0 2 0 1
dropped 50 500000 0 0 1 0 2 0 0
sent 1 10000 24 0 0 0 1 0 2 0
sent 1 10000 26 1 0 0 1 0 2 1 2
sent 1 10000 8 5 0 0 1 0 2
got 7 70000 9 3 0 0
got 7 70000 9 3 0 1 5 4294967296
got 7 70000 9 4 0 5 77
sent 40 400000 40 7 0 1 0 0 0 0
got 42 420000 48 8 0 1 0 0 0 0 0
got 42 420000 48 8 0 1 0 0 0 0 1 0 0 4
sent 50 500000 16 9 0 1 0 0 0 0 50 0 0 4
sent 50 500000 16 10 0 1 0 0 0 2 50 0 2 2
gone 71 710000 0
readfailed 42 420000 0 1 0 0 0 0
believed 351 3510000 3
got 260 2600000 24 11 4294967296
died 250 2500000
returned 260 2600000
digest c775e7b757ede630cd0aa1113bd102661ab38829ca52a6422ab782862f268646
end";

// Each of these differs from a line in one place.
const OTHERS: &str = "
tiger 2
tiger
Tiger 1
beats
beats 0600
beats  600
beats 600 
beats 600 0
beats +600
beats 18446744073709551616
offset 0
death 3 250 01 0
death 3 250
node 4294967296
fault 7 130
begin 0 0 0 3
sent 0 0 24 11
sent 0 0 24 12 0
sent 0 0 24 6 0
got 1 10000 0 2 0 0 3 0 2
queued 1 10000 4294967296 0
took 1 10000 0 0 1 0 2 0 2
got 7 70000 9 3 0 2 5 4294967296
gone 71 710000
return 5 50000
returned 5 50000 0
digest C775e7b757ede630cd0aa1113bd102661ab38829ca52a6422ab782862f268646
digest c775e7b757ede630cd0aa1113bd102661ab38829ca52a6422ab782862f26864
digest
end 0
ending";

/// Reads each line and writes what it says.
fn again(alloc: Global, lines: &str) -> Result<Vec<u8>, NoMemory> {
    let mut desk = Desk::new(alloc);
    let mut text = Vec::new(alloc);
    for line in lines.as_bytes().split(|b| *b == b'\n') {
        match desk.read(alloc, line)? {
            Some(item) => push_item(&mut text, &item)?,
            None => text.extend_from_slice(b"none")?,
        }
        text.push(b'\n')?;
    }
    Ok(text)
}

#[test]
fn each_line_is_read_and_written_again(rt: HostRuntime) -> Result<(), Fail> {
    let text = again(rt.alloc(), LINES)?;
    assert!(rt; text.as_slice().starts_with(LINES.as_bytes()));
    assert_eq!(rt; text.len(), LINES.len() + 1);
    Ok(())
}

#[test]
fn what_differs_in_one_place_is_no_line(rt: HostRuntime) -> Result<(), Fail> {
    let text = again(rt.alloc(), OTHERS)?;
    for word in text.as_slice().split(|b| *b == b'\n') {
        assert!(rt; word == b"none".as_slice() || word.is_empty());
    }
    Ok(())
}

const KEPT: &str = "tiger 1
plan 8 1 16 1000000 2 4 10000 2 4000 800000 200000 100000 3000000 4000000 20 50 1000000 3000000
beats 2
drawn 7
offsets 0 4
death 1 1 7 9
fault 7 0 1
file 10 5
begin 0 0 0 3 5
finish 1 0
node 0
node 1
died 1 10000
digest 0000000000000000000000000000000000000000000000000000000000000000
end
";

fn course(alloc: Global) -> Result<Course, NoMemory> {
    let fault = ReadFault {
        disk: DiskNo(7),
        from: 0,
        until: 1,
    };
    Ok(Course {
        plan: small_plan(),
        beats: 2,
        offsets: Sequence::new(vec![in alloc; 0, 4]?),
        deaths: Sequence::new(vec![in alloc; None, Some(1)]?),
        cuts: Sequence::new(vec![in alloc; None, Some(6)]?),
        backs: Sequence::new(vec![in alloc; None, Some(9)]?),
        faults: Sequence::new(vec![in alloc; fault]?),
        delay: Delay::Drawn(7),
    })
}

fn catalogue(alloc: Global) -> Result<Catalogue, NoMemory> {
    let mut files = Vec::new(alloc);
    files.push(FileInfo {
        len: 10,
        disk: DiskNo(5),
    })?;
    Ok(Catalogue {
        files: Sequence::new(files),
        block: 4,
        disks: 8,
    })
}

fn orders(alloc: Global) -> Result<Vec<Order>, NoMemory> {
    let ask = Ask {
        instance: Instance(0),
        file: FileNo(0),
        count: 3,
        disk: DiskNo(5),
    };
    let mut orders = Vec::new(alloc);
    orders.push(Order {
        beat: 0,
        what: OrderKind::Begin(ask),
    })?;
    orders.push(Order {
        beat: 1,
        what: OrderKind::Finish(Instance(0)),
    })?;
    Ok(orders)
}

fn journals(alloc: Global) -> Result<Vec<Journal>, NoMemory> {
    let mut second = Journal::new(alloc);
    second.write(Entry {
        stamp: Stamp {
            beat: 1,
            reading: 10000,
        },
        what: What::Died,
    })?;
    let mut journals = Vec::with_capacity(alloc, 2)?;
    journals.push(Journal::new(alloc))?;
    journals.push(second)?;
    Ok(journals)
}

fn text_of_two_nodes(alloc: Global) -> Result<Vec<u8>, NoMemory> {
    let kept = Kept {
        course: course(alloc)?,
        catalogue: catalogue(alloc)?,
        orders: Sequence::new(orders(alloc)?),
        journals: Sequence::new(journals(alloc)?),
        digests: Sequence::new(vec![in alloc; Digest32([0; 32])]?),
    };
    write_kept(alloc, &kept)
}

#[test]
fn each_part_has_its_lines(rt: HostRuntime) -> Result<(), Fail> {
    let text = text_of_two_nodes(rt.alloc())?;
    assert!(rt; text.as_slice() == KEPT.as_bytes());
    Ok(())
}
