//! Reads a line of the text.
ghost use Rattle.std.specs.Prelude.{◌≡◌, ◌↔◌, IfOk, IfSome, IsTrue, Some};
ghost use Rattle.audit_text.specs.declared.item.Item.{Item};
ghost use Rattle.audit_text.specs.Fits.{ItemFits};
ghost use Rattle.audit_text.specs.Lines.{line_of};
ghost use Rattle.audit_text.specs.Reading.{note_in, what_by, entry_by, params_by, fault_by, file_by, begin_by, finish_by, digest_in, item_by};

use crate::item::{Item, Word};
use crate::parts::{
    ask_at, long_at, one_less_at, part_at, piece_at, record_at, short_at, some_at, span_at,
    state_at, tag_at, tenancy_at, want_at,
};
use crate::scan::read_numbers;
use crate::words::word_in;
use crate::writing::push_item;
use link_timing::Delay;
use node_kit::{Digest32, Entry, Order, OrderKind, ReadFault, What};
use slot_plan::Params;
use std::alloc::{AllocError, Global};
use stripe_layout::FileInfo;
use tiger_base::{CubNo, DiskNo, Instance, LinkNo, NodeNo, Note, Sequence, SlotNo, Stamp};

#[tactic(auto, unfolding(crate::specs::Reading::note_in))]
fn note_in(ns: &[u64]) -> Note
    ensures { result ≡ note_in ns.now }
{
    match long_at(ns, 3) {
        0 => Note::ViewerState(state_at(ns, 4)),
        1 => Note::MirrorState(piece_at(ns, 4)),
        2 => Note::Start {
            redundant: long_at(ns, 8) != 0,
            ask: ask_at(ns, 4),
        },
        3 => Note::Deschedule {
            instance: Instance(short_at(ns, 4)),
            tag: tag_at(ns, 5),
        },
        4 => Note::Kill {
            instance: Instance(short_at(ns, 4)),
            slot: SlotNo(short_at(ns, 5)),
            visit: long_at(ns, 6),
        },
        5 => Note::Placed(tenancy_at(ns, 4)),
        6 => Note::Heartbeat,
        7 => Note::ReadAsk(want_at(ns, 4)),
        8 => Note::ReadDone {
            want: want_at(ns, 4),
            part: part_at(ns, 10),
        },
        9 => Note::Whole {
            want: want_at(ns, 4),
            sent: long_at(ns, 10),
            part: span_at(ns, 11),
        },
        10 => Note::Piece {
            want: want_at(ns, 4),
            sent: long_at(ns, 10),
            part: span_at(ns, 11),
        },
        _ => Note::Back {
            from: long_at(ns, 4),
        },
    }
}

fn what_by(word: Word, ns: &[u64]) -> What
    ensures { result ≡ what_by word ns.now }
{
    match word {
        Word::Got => What::Got(LinkNo(short_at(ns, 2)), note_in(ns)),
        Word::Sent => What::Sent(LinkNo(short_at(ns, 2)), note_in(ns)),
        Word::Took => What::Took(record_at(ns, 2)),
        Word::Dropped => What::Dropped(record_at(ns, 2)),
        Word::Queued => What::Queued(Instance(short_at(ns, 2)), DiskNo(short_at(ns, 3))),
        Word::Unqueued => What::Unqueued(Instance(short_at(ns, 2))),
        Word::Put => What::Put(tenancy_at(ns, 2)),
        Word::Gone => What::Gone(Instance(short_at(ns, 2))),
        Word::ReadFailed => What::ReadFailed(want_at(ns, 2)),
        Word::Believed => What::Believed(CubNo(short_at(ns, 2))),
        Word::Returned => What::Returned,
        _ => What::Died,
    }
}

#[tactic(auto, unfolding(crate::specs::Reading::entry_by))]
fn entry_by(word: Word, ns: &[u64]) -> Entry
    ensures { result ≡ entry_by word ns.now }
{
    Entry {
        stamp: Stamp {
            beat: long_at(ns, 0),
            reading: long_at(ns, 1),
        },
        what: what_by(word, ns),
    }
}

#[tactic(auto, unfolding(crate::specs::Reading::params_by))]
fn params_by(ns: &[u64]) -> Params
    ensures { result ≡ params_by ns.now }
{
    Params {
        cubs: long_at(ns, 0),
        disks: long_at(ns, 1),
        slots: long_at(ns, 2),
        play: long_at(ns, 3),
        pieces: long_at(ns, 4),
        block: long_at(ns, 5),
        beat: long_at(ns, 6),
        delay: long_at(ns, 7),
        skew: long_at(ns, 8),
        window_a: long_at(ns, 9),
        window_b: long_at(ns, 10),
        read_lead: long_at(ns, 11),
        min_lead: long_at(ns, 12),
        max_lead: long_at(ns, 13),
        batch: long_at(ns, 14),
        heart: long_at(ns, 15),
        deadman: long_at(ns, 16),
        hold: long_at(ns, 17),
    }
}

/// The digest whose digits stand behind the word and a space, and zeros if there are none.
#[tactic(auto, unfolding(crate::specs::Reading::digest_in))]
fn digest_in(line: &[u8]) -> Digest32
    ensures { result ≡ digest_in line.now }
{
    let digits = match line.get(7..) {
        Some(digits) => digits,
        None => &[],
    };
    let mut bytes = [0; 32];
    match hex::decode_to_slice(digits, &mut bytes) {
        Ok(()) => Digest32(bytes),
        Err(_) => Digest32([0; 32]),
    }
}

/// The item of this line, if it is the line of one, by its word and its numbers.
#[tactic(auto, unfolding(crate::specs::Reading::item_by))]
fn item_by(alloc: Global, word: Word, line: &[u8], ns: &[u64]) -> Result<Item, AllocError>
    ensures { IfOk result (λ i. i ≡ item_by word line.now ns.now) }
{
    Ok(match word {
        Word::Tiger => Item::Version,
        Word::Plan => Item::Plan(params_by(ns)),
        Word::Beats => Item::Beats(long_at(ns, 0)),
        Word::Fixed => Item::Delay(Delay::Fixed(long_at(ns, 0))),
        Word::Drawn => Item::Delay(Delay::Drawn(long_at(ns, 0))),
        Word::Offsets => Item::Offsets(Sequence::new(Vec::from_slice(alloc, ns)?)),
        Word::Death => Item::Death {
            cub: CubNo(short_at(ns, 0)),
            beat: long_at(ns, 1),
            left: one_less_at(ns, 2),
            back: some_at(ns, 3),
        },
        Word::Fault => Item::Fault(fault_by(ns)),
        Word::File => Item::File(file_by(ns)),
        Word::Begin => Item::Order(begin_by(ns)),
        Word::Finish => Item::Order(finish_by(ns)),
        Word::Node => Item::Node(NodeNo(short_at(ns, 0))),
        Word::Digest => Item::Digest(digest_in(line)),
        Word::End => Item::End,
        _ => Item::Entry(entry_by(word, ns)),
    })
}

fn fault_by(ns: &[u64]) -> ReadFault
    ensures { result ≡ fault_by ns.now }
{
    ReadFault {
        disk: DiskNo(short_at(ns, 0)),
        from: long_at(ns, 1),
        until: long_at(ns, 2),
    }
}

fn file_by(ns: &[u64]) -> FileInfo
    ensures { result ≡ file_by ns.now }
{
    FileInfo {
        len: long_at(ns, 0),
        disk: DiskNo(short_at(ns, 1)),
    }
}

fn begin_by(ns: &[u64]) -> Order
    ensures { result ≡ begin_by ns.now }
{
    Order {
        beat: long_at(ns, 0),
        what: OrderKind::Begin(ask_at(ns, 1)),
    }
}

fn finish_by(ns: &[u64]) -> Order
    ensures { result ≡ finish_by ns.now }
{
    Order {
        beat: long_at(ns, 0),
        what: OrderKind::Finish(Instance(short_at(ns, 1))),
    }
}

/// Room in which a line is read and written again.
#[derive(Drop)]
pub struct Desk {
    numbers: Vec<u64>,
    spelled: Vec<u8>,
}

impl Desk {
    /// Room in which nothing was read yet.
    pub fn new(alloc: Global) -> Desk {
        Desk {
            numbers: Vec::new(alloc),
            spelled: Vec::new(alloc),
        }
    }

    /// What a line says, without its line feed; `None` exactly if it is the line of no item. What was read and is
    /// written again must be the line: so no line has two meanings.
    pub fn read(&mut self, alloc: Global, line: &[u8]) -> Result<Option<Item>, AllocError>
        ensures found { IfOk result (λ o. IfSome o (λ i. line.now ≡ line_of i)) }
        ensures only { IfOk result (λ o.
            (i : Item) → ItemFits i → line.now ≡ line_of i → o ≡ Some i) }
    {
        read_numbers(&mut self.numbers, line)?;
        let ns = self.numbers.as_slice();
        let item = item_by(alloc, word_in(line), line, ns)?;
        self.spelled.clear();
        push_item(&mut self.spelled, &item)?;
        if is_same(self.spelled.as_slice(), line) {
            Ok(Some(item))
        } else {
            Ok(None)
        }
    }
}

fn is_same(a: &[u8], b: &[u8]) -> bool
    ensures { IsTrue result ↔ (a.now ≡ b.now) }
{
    a == b
}
