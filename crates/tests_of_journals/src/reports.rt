//! The report of a small run that goes through every kind of line.

use crate::by_hand::{catalogue, kept, sample_of};
use node_kit::{Kept, Order, OrderKind};
use run_report::{ORDERS_LIMIT, digests_of, outcomes, report, summary};
use std::alloc::Global;
use std::test::Fail;
use tiger_base::{Ask, DiskNo, FileNo, Instance, Library, MOST_BEATS, NoMemory};

/// Two cubs put instance 0, and the second one in the lower beat. No clock shows the true time.
const LINES: &str =
    "0@2/0 put 0 3 0 5, 1@1/0 put 0 1 0 5, 1@1/0 put 2 2 0 5, 2@248/0 failed 0 2 0, 3@300/0 died, 16@5/0 gone 1, 16@250/0 gone 2, 17@51/0 got-whole 16 0 0 50 4, 17@100/0 got-piece 16 2 0 1 100 0 4, 17@201/0 got-piece 16 0 1 2 200 0 4, 17@202/0 got-piece 16 0 1 1 150 0 4, 17@301/0 got-whole 16 2 2 300 4";

fn letters(alloc: Global) -> Result<Library, NoMemory> {
    let mut files = Vec::new(alloc);
    files.push(b"abcdefghijklmnopqrstuvwx".to_vec(alloc)?)?;
    Ok(Library::new(files))
}

/// Adds three starts of the file.
fn add_orders(k: &mut Kept) -> Result<(), NoMemory> {
    for instance in 0..3 {
        k.orders.push(Order {
            beat: 0,
            what: OrderKind::Begin(Ask {
                instance: Instance(instance),
                file: FileNo(0),
                count: 6,
                disk: DiskNo(0),
            }),
        })?;
    }
    Ok(())
}

/// Adds the digests of what the viewers got.
fn add_digests(alloc: Global, k: &mut Kept) -> Result<(), Fail> {
    if k.course.beats > MOST_BEATS {
        return Err(Fail::new("too many beats"));
    }
    let told = outcomes(
        alloc,
        &k.course,
        &k.catalogue,
        k.orders.as_slice(),
        k.journals.as_slice(),
    )?;
    k.digests.items = digests_of(alloc, &letters(alloc)?, told.as_slice())?;
    Ok(())
}

/// The report, and behind it the summary.
const TEXT: &str = "start 0 file 0 slot 1 first 0
block 0 due 500000 whole 4 sent 50
block 1 due 1500000 pieces 4 sent 150 200
block 2 due 2500000 missing read
block 3 due 3500000 missing dead
end 0 whole 1 pieces 1 missing 2 bytes 8 sha256 9c56cc51b374c3ba189210d5b6d4bf57790d351c96c47c02190ecf1e430635ab
start 1 file 0 unplaced
stop 1 at 5
end 1 whole 0 pieces 0 missing 0 bytes 0 sha256 e3b0c44298fc1c149afbf4c8996fb92427ae41e4649b934ca495991b7852b855
start 2 file 0 slot 2 first 0
block 0 due 1000000 missing piece
block 2 due 3000000 whole 4 sent 300
stop 2 at 250
end 2 whole 1 pieces 0 missing 1 bytes 4 sha256 005c19658919186b85618c5870463eec8d9b8c1a9d00208a5352891ba5bbe086
total starts 3 placed 2 whole 2 pieces 1 missing 3
total starts 3 placed 2 whole 2 pieces 1 missing 3
report bytes 714 sha256 d83c9cf3a7e73f8731cee966c7675dbf26b2acb6acd20c7dd9d20bdea0339dbc
";

/// The report of what is kept, and behind it the summary.
fn report_and_summary(alloc: Global, k: &Kept) -> Result<Vec<u8>, Fail> {
    if k.course.beats > MOST_BEATS || k.orders.len() >= ORDERS_LIMIT {
        return Err(Fail::new("too long"));
    }
    let mut text = report(alloc, k)?;
    text.extend_from_slice(summary(alloc, k)?.as_slice())?;
    Ok(text)
}

/// Adds the orders and the digests to what is kept, and reports it.
fn told(alloc: Global, k: &mut Kept) -> Result<Vec<u8>, Fail> {
    add_orders(k)?;
    add_digests(alloc, k)?;
    report_and_summary(alloc, k)
}

fn told_of_lines(alloc: Global) -> Result<Vec<u8>, Fail> {
    let catalogue = catalogue(alloc, 24)?;
    let sample = sample_of(alloc, LINES).ok_or("not the lines of a run")?;
    let mut k = kept(alloc, 600, catalogue, sample);
    told(alloc, &mut k)
}

#[test]
fn each_kind_of_line_is_told(rt: HostRuntime) -> Result<(), Fail> {
    let text = told_of_lines(rt.alloc())?;
    assert_eq!(rt; text.as_slice(), TEXT.as_bytes());
    Ok(())
}
