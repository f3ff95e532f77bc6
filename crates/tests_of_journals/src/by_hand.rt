//! Runs of the small plan whose journals are written by hand, as text.
ghost use Rattle.std.specs.Prelude.{◌≤◌};

use link_timing::Delay;
use node_kit::{Course, Entry, Journal, Kept, What};
use slot_plan::small_plan;
use std::alloc::Global;
use stripe_layout::{Catalogue, FileInfo};
use tiger_base::{
    Beat, DiskNo, FileNo, Instance, LinkNo, NoMemory, Note, Sequence, SlotNo, Span, Stamp, Tenancy,
    Want,
};

/// What an instance wants of a visit in slot 1, whose visits 0, 1 and 2 are due at 500000, 1500000 and 2500000.
fn want(instance: u32, visit: u32, piece: u32) -> Want {
    Want {
        instance: Instance(instance),
        slot: SlotNo(1),
        visit: visit as u64,
        file: FileNo(0),
        block: visit as u64,
        piece,
    }
}

fn span(from: u32, len: u32) -> Span {
    Span {
        file: FileNo(0),
        from: from as u64,
        len: len as u64,
    }
}

fn tenancy(instance: u32, slot: u32, first: u32, last: u32) -> Tenancy {
    Tenancy {
        instance: Instance(instance),
        file: FileNo(0),
        slot: SlotNo(slot),
        first: first as u64,
        last: last as u64,
    }
}

/// A block of instance and visit `v` and `n`, or a piece of it.
fn whole(v: u32, n: u32, sent: u32, len: u32) -> Note {
    Note::Whole {
        want: want(v, n, 0),
        sent: sent as u64,
        part: span(0, len),
    }
}

fn piece(v: u32, n: u32, piece: u32, sent: u32, from: u32, len: u32) -> Note {
    Note::Piece {
        want: want(v, n, piece),
        sent: sent as u64,
        part: span(from, len),
    }
}

/// What an entry says, by its kind and its numbers. The first number of a message is its link.
fn what_of(kind: &str, numbers: [u32; 7]) -> Option<What> {
    let [a, b, c, d, e, f, g] = numbers;
    match kind {
        "died" => Some(What::Died),
        "unqueued" => Some(What::Unqueued(Instance(a))),
        "gone" => Some(What::Gone(Instance(a))),
        "put" => Some(What::Put(tenancy(a, b, c, d))),
        "failed" => Some(What::ReadFailed(want(a, b, c))),
        "sent-heartbeat" => Some(What::Sent(LinkNo(a), Note::Heartbeat)),
        "got-heartbeat" => Some(What::Got(LinkNo(a), Note::Heartbeat)),
        "got-ask" => Some(What::Got(LinkNo(a), Note::ReadAsk(want(b, c, d)))),
        "sent-whole" => Some(What::Sent(LinkNo(a), whole(b, c, d, e))),
        "got-whole" => Some(What::Got(LinkNo(a), whole(b, c, d, e))),
        "sent-piece" => Some(What::Sent(LinkNo(a), piece(b, c, d, e, f, g))),
        "got-piece" => Some(What::Got(LinkNo(a), piece(b, c, d, e, f, g))),
        _ => None,
    }
}

/// The numbers of some words, with noughts behind them.
fn numbers_in(words: &str) -> Option<[u32; 7]> {
    let mut numbers = [0; 7];
    for (number, word) in numbers.iter_mut().zip(words.split_ascii_whitespace()) {
        *number = word.parse::<u32>().ok()?;
    }
    Some(numbers)
}

/// What words say, as `gone 4` and `got-heartbeat 24`.
fn said(words: &str) -> Option<What> {
    let (kind, numbers) = words.split_once(' ').unwrap_or((words, ""));
    what_of(kind, numbers_in(numbers)?)
}

/// A beat with its true time, or with another reading, as `3/34000`.
fn stamp_of(text: &str) -> Option<Stamp> {
    let Some((beat, reading)) = text.split_once('/') else {
        let beat = text.parse::<u64>().ok()?;
        let reading = beat.saturating_mul(10000);
        return Some(Stamp { beat, reading });
    };
    let beat = beat.parse::<u64>().ok()?;
    let reading = reading.parse::<u64>().ok()?;
    Some(Stamp { beat, reading })
}

/// A node and when it writes, as `0@3`.
fn place_of(text: &str) -> Option<(usize, Stamp)> {
    let (node, stamp) = text.split_once('@')?;
    Some((node.parse::<usize>().ok()?, stamp_of(stamp)?))
}

/// The deaths of the course and the journals of a run.
#[derive(Drop)]
pub struct Sample {
    deaths: Vec<Option<Beat>>,
    journals: Vec<Journal>,
}

fn add_death(sample: &mut Sample, cub: usize, beat: Beat) -> Option<()> {
    *sample.deaths.get_mut(cub)? = Some(beat);
    Some(())
}

fn add_entry(sample: &mut Sample, node: usize, entry: Entry) -> Option<()> {
    sample.journals.get_mut(node)?.write(entry).ok()
}

/// Adds a line, as `0@3 died`, or a death of the course, as `0@3 dies`.
fn add(sample: &mut Sample, line: &str) -> Option<()> {
    let (place, words) = line.split_once(' ')?;
    let (node, stamp) = place_of(place)?;
    if words == "dies" {
        return add_death(sample, node, stamp.beat);
    }
    let what = said(words)?;
    add_entry(sample, node, Entry { stamp, what })
}

/// Eight cubs, eight disks, the controller and the viewers, who have written nothing.
fn blank(alloc: Global) -> Result<Sample, NoMemory> {
    let mut journals = Vec::new(alloc);
    for _ in 0..18 {
        journals.push(Journal::new(alloc))?;
    }
    let deaths = vec![in alloc; None; 8]?;
    Ok(Sample { deaths, journals })
}

fn add_all(sample: &mut Sample, lines: &str) -> Option<()> {
    for line in lines.split(", ") {
        add(sample, line)?;
    }
    Some(())
}

/// What these lines say.
pub fn sample_of(alloc: Global, lines: &str) -> Option<Sample> {
    let mut sample = blank(alloc).ok()?;
    add_all(&mut sample, lines)?;
    Some(sample)
}

/// A file of so many bytes, in blocks of four, whose first one is on disk 0.
pub fn catalogue(alloc: Global, len: u64) -> Result<Catalogue, NoMemory>
    requires { 1 ≤ len }
{
    let disk = DiskNo(0);
    Ok(Catalogue {
        files: Sequence::new(vec![in alloc; FileInfo { len, disk }]?),
        block: 4,
        disks: 8,
    })
}

/// A run of so many beats with these deaths and journals.
pub fn kept(alloc: Global, beats: u64, catalogue: Catalogue, sample: Sample) -> Kept {
    let Sample { deaths, journals } = sample;
    Kept {
        course: Course {
            plan: small_plan(),
            beats,
            offsets: Sequence::new(Vec::new(alloc)),
            deaths: Sequence::new(deaths),
            cuts: Sequence::new(Vec::new(alloc)),
            backs: Sequence::new(Vec::new(alloc)),
            faults: Sequence::new(Vec::new(alloc)),
            delay: Delay::Fixed(1),
        },
        catalogue,
        orders: Sequence::new(Vec::new(alloc)),
        journals: Sequence::new(journals),
        digests: Sequence::new(Vec::new(alloc)),
    }
}
