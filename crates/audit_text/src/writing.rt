//! Writes the lines of the text.
ghost use Rattle.std.specs.Prelude.{◌≡◌, ◌<◌, ◌≤◌, ◌+◌, ◌++◌, [], ◌∷◌, OnOk};
ghost use Rattle.node_kit.specs.declared.journal.Entry.{Entry};
ghost use Rattle.audit_text.specs.declared.item.Item.TheVariants as item;
ghost use Rattle.audit_text.specs.Fields.{flag_number, kind_number, tenancy_fields, record_fields, ask_fields, want_fields, span_fields, one_more, or_zero, tag_fields, part_fields, note_fields, what_fields, what_word, params_fields, order_fields};
ghost use Rattle.audit_text.specs.Lines.{spaced, line_of};
ghost use Rattle.audit_text.specs.Words.{letters};

use crate::item::{Item, Word};
use itoa::Buffer;
use link_timing::Delay;
use node_kit::{Digest32, Entry, Order, OrderKind, What};
use slot_plan::Params;
use std::alloc::AllocError;
use tiger_base::{Ask, Beat, Kind, Note, Rec, Span, Tag, Tenancy, Want};

/// Writes a space and a number.
fn push_number(text: &mut Vec<u8>, n: u64) -> Result<(), AllocError>
    ensures { OnOk result (text.new.items ≡ text.old.items ++ spaced (n ∷ [])) }
{
    // Most numbers have few digits, and then all their bytes are pushed at once.
    if n < 10 {
        return push_one(text, n);
    }
    if n < 100 {
        return push_two(text, n);
    }
    if n < 1000 {
        return push_three(text, n);
    }
    push_long(text, n)
}

fn push_one(text: &mut Vec<u8>, n: u64) -> Result<(), AllocError>
    requires { n < 10 }
    ensures { OnOk result (text.new.items ≡ text.old.items ++ spaced (n ∷ [])) }
{
    text.extend_from_slice(&[b' ', digit(n)])
}

fn push_two(text: &mut Vec<u8>, n: u64) -> Result<(), AllocError>
    requires from { 10 ≤ n }
    requires below { n < 100 }
    ensures { OnOk result (text.new.items ≡ text.old.items ++ spaced (n ∷ [])) }
{
    text.extend_from_slice(&[b' ', digit(n / 10), digit(n % 10)])
}

fn push_three(text: &mut Vec<u8>, n: u64) -> Result<(), AllocError>
    requires from { 100 ≤ n }
    requires below { n < 1000 }
    ensures { OnOk result (text.new.items ≡ text.old.items ++ spaced (n ∷ [])) }
{
    let tens = n / 10;
    text.extend_from_slice(&[b' ', digit(tens / 10), digit(tens % 10), digit(n % 10)])
}

/// Writes a space and a number of however many digits.
fn push_long(text: &mut Vec<u8>, n: u64) -> Result<(), AllocError>
    ensures { OnOk result (text.new.items ≡ text.old.items ++ spaced (n ∷ [])) }
{
    text.extend_from_slice(b" ")?;
    text.extend_from_slice(Buffer::new().format(n).as_bytes())
}

/// A digit.
fn digit(n: u64) -> u8
    requires { n < 10 }
    ensures { result ≡ 48 + n }
{
    b'0' + n as u8
}

/// Writes numbers, each behind a space.
fn push_numbers(text: &mut Vec<u8>, numbers: &[u64]) -> Result<(), AllocError>
    ensures { OnOk result (text.new.items ≡ text.old.items ++ spaced numbers.now) }
{
    for n in numbers {
        push_number(text, *n)?;
    }
    Ok(())
}

fn flag_number(flag: bool) -> u64
    ensures { result ≡ flag_number flag }
{
    if flag { 1 } else { 0 }
}

fn kind_number(kind: Kind) -> u64
    ensures { result ≡ kind_number kind }
{
    match kind {
        Kind::Own => 0,
        Kind::Backup => 1,
    }
}

fn push_tenancy(text: &mut Vec<u8>, t: Tenancy) -> Result<(), AllocError>
    ensures { OnOk result (text.new.items ≡ text.old.items ++ spaced (tenancy_fields t)) }
{
    let (instance, file, slot) = (t.instance.0 as u64, t.file.0 as u64, t.slot.0 as u64);
    push_numbers(text, &[instance, file, slot, t.first, t.last])
}

fn push_record(text: &mut Vec<u8>, r: Rec) -> Result<(), AllocError>
    ensures { OnOk result (text.new.items ≡ text.old.items ++ spaced (record_fields r)) }
{
    push_tenancy(text, r.tenancy)?;
    push_numbers(text, &[r.visit, kind_number(r.kind)])
}

fn push_ask(text: &mut Vec<u8>, a: Ask) -> Result<(), AllocError>
    ensures { OnOk result (text.new.items ≡ text.old.items ++ spaced (ask_fields a)) }
{
    let (instance, file, disk) = (a.instance.0 as u64, a.file.0 as u64, a.disk.0 as u64);
    push_numbers(text, &[instance, file, a.count, disk])
}

fn push_want(text: &mut Vec<u8>, w: Want) -> Result<(), AllocError>
    ensures { OnOk result (text.new.items ≡ text.old.items ++ spaced (want_fields w)) }
{
    let (instance, slot) = (w.instance.0 as u64, w.slot.0 as u64);
    let (file, piece) = (w.file.0 as u64, w.piece as u64);
    push_numbers(text, &[instance, slot, w.visit, file, w.block, piece])
}

fn push_span(text: &mut Vec<u8>, s: Span) -> Result<(), AllocError>
    ensures { OnOk result (text.new.items ≡ text.old.items ++ spaced (span_fields s)) }
{
    push_numbers(text, &[s.file.0 as u64, s.from, s.len])
}

fn push_tag(text: &mut Vec<u8>, tag: Option<Tag>) -> Result<(), AllocError>
    ensures { OnOk result (text.new.items ≡ text.old.items ++ spaced (tag_fields tag)) }
{
    match tag {
        None => push_number(text, 0),
        Some(t) => push_numbers(text, &[1, t.slot.0 as u64, t.visit]),
    }
}

fn push_part(text: &mut Vec<u8>, part: Option<Span>) -> Result<(), AllocError>
    ensures { OnOk result (text.new.items ≡ text.old.items ++ spaced (part_fields part)) }
{
    match part {
        None => push_number(text, 0),
        Some(s) => {
            push_number(text, 1)?;
            push_span(text, s)
        }
    }
}

/// Writes the number of a kind of message, and a viewer state.
fn push_state(text: &mut Vec<u8>, number: u64, t: Tenancy, visit: u64) -> Result<(), AllocError>
    ensures { OnOk result (text.new.items
        ≡ text.old.items ++ spaced (number ∷ tenancy_fields t ++ visit ∷ [])) }
{
    push_number(text, number)?;
    push_tenancy(text, t)?;
    push_number(text, visit)
}

fn push_start(text: &mut Vec<u8>, ask: Ask, redundant: bool) -> Result<(), AllocError>
    ensures { OnOk result (text.new.items
        ≡ text.old.items ++ spaced (2 ∷ ask_fields ask ++ flag_number redundant ∷ [])) }
{
    push_number(text, 2)?;
    push_ask(text, ask)?;
    push_number(text, flag_number(redundant))
}

/// Writes the number of a kind of message, and what is asked of a disk.
fn push_asked(text: &mut Vec<u8>, number: u64, want: Want) -> Result<(), AllocError>
    ensures { OnOk result (text.new.items ≡ text.old.items ++ spaced (number ∷ want_fields want)) }
{
    push_number(text, number)?;
    push_want(text, want)
}

/// Writes the number of a kind of message, and what the viewers are sent.
fn push_sending(
    text: &mut Vec<u8>,
    number: u64,
    want: Want,
    sent: u64,
    part: Span,
) -> Result<(), AllocError>
    ensures { OnOk result (text.new.items
        ≡ text.old.items ++ spaced (number ∷ want_fields want ++ sent ∷ span_fields part)) }
{
    push_asked(text, number, want)?;
    push_number(text, sent)?;
    push_span(text, part)
}

fn push_note(text: &mut Vec<u8>, n: Note) -> Result<(), AllocError>
    ensures { OnOk result (text.new.items ≡ text.old.items ++ spaced (note_fields n)) }
{
    match n {
        Note::ViewerState(state) => push_state(text, 0, state.tenancy, state.visit),
        Note::MirrorState(state) => {
            push_state(text, 1, state.tenancy, state.visit)?;
            push_number(text, state.piece as u64)
        }
        Note::Start { redundant, ask } => push_start(text, ask, redundant),
        Note::Deschedule { instance, tag } => {
            push_numbers(text, &[3, instance.0 as u64])?;
            push_tag(text, tag)
        }
        Note::Kill {
            instance,
            slot,
            visit,
        } => push_numbers(text, &[4, instance.0 as u64, slot.0 as u64, visit]),
        Note::Placed(tenancy) => {
            push_number(text, 5)?;
            push_tenancy(text, tenancy)
        }
        Note::Heartbeat => push_number(text, 6),
        Note::ReadAsk(want) => push_asked(text, 7, want),
        Note::ReadDone { want, part } => {
            push_asked(text, 8, want)?;
            push_part(text, part)
        }
        Note::Whole { want, sent, part } => push_sending(text, 9, want, sent, part),
        Note::Piece { want, sent, part } => push_sending(text, 10, want, sent, part),
        Note::Back { from } => push_numbers(text, &[11, from]),
    }
}

fn push_what(text: &mut Vec<u8>, what: What) -> Result<(), AllocError>
    ensures { OnOk result (text.new.items ≡ text.old.items ++ spaced (what_fields what)) }
{
    match what {
        What::Got(link, n) | What::Sent(link, n) => {
            push_number(text, link.0 as u64)?;
            push_note(text, n)
        }
        What::Took(r) | What::Dropped(r) => push_record(text, r),
        What::Queued(instance, disk) => { push_numbers(text, &[instance.0 as u64, disk.0 as u64]) }
        What::Unqueued(instance) | What::Gone(instance) => push_number(text, instance.0 as u64),
        What::Put(t) => push_tenancy(text, t),
        What::ReadFailed(want) => push_want(text, want),
        What::Believed(cub) => push_number(text, cub.0 as u64),
        What::Died | What::Returned => Ok(()),
    }
}

fn what_word(what: &What) -> Word
    ensures { result ≡ what_word what.now }
{
    match what {
        What::Got(_, _) => Word::Got,
        What::Sent(_, _) => Word::Sent,
        What::Took(_) => Word::Took,
        What::Dropped(_) => Word::Dropped,
        What::Queued(_, _) => Word::Queued,
        What::Unqueued(_) => Word::Unqueued,
        What::Put(_) => Word::Put,
        What::Gone(_) => Word::Gone,
        What::ReadFailed(_) => Word::ReadFailed,
        What::Believed(_) => Word::Believed,
        What::Died => Word::Died,
        What::Returned => Word::Returned,
    }
}

/// Writes a word, and numbers behind it.
pub fn push_line(text: &mut Vec<u8>, word: Word, numbers: &[u64]) -> Result<(), AllocError>
    ensures { OnOk result (text.new.items
        ≡ text.old.items ++ letters word ++ spaced numbers.now) }
{
    text.extend_from_slice(word.letters())?;
    push_numbers(text, numbers)
}

/// Writes the line of an entry, without its line feed.
#[tactic(auto, unfolding(crate::specs::Lines::line_of))]
pub fn push_entry(text: &mut Vec<u8>, e: &Entry) -> Result<(), AllocError>
    ensures { OnOk result (text.new.items ≡ text.old.items ++ line_of (item.Entry e.now)) }
{
    push_line(text, what_word(&e.what), &[e.stamp.beat, e.stamp.reading])?;
    push_what(text, e.what)
}

fn push_params(text: &mut Vec<u8>, p: &Params) -> Result<(), AllocError>
    ensures { OnOk result (text.new.items ≡ text.old.items ++ spaced (params_fields p.now)) }
{
    push_numbers(text, &[p.cubs, p.disks, p.slots, p.play, p.pieces, p.block])?;
    push_numbers(
        text,
        &[p.beat, p.delay, p.skew, p.window_a, p.window_b, p.read_lead],
    )?;
    push_numbers(
        text,
        &[p.min_lead, p.max_lead, p.batch, p.heart, p.deadman, p.hold],
    )
}

#[tactic(auto, unfolding(crate::specs::Lines::line_of))]
pub fn push_plan(text: &mut Vec<u8>, p: &Params) -> Result<(), AllocError>
    ensures { OnOk result (text.new.items ≡ text.old.items ++ line_of (item.Plan p.now)) }
{
    text.extend_from_slice(Word::Plan.letters())?;
    push_params(text, p)
}

#[tactic(auto, unfolding(crate::specs::Lines::line_of))]
pub fn push_delay(text: &mut Vec<u8>, delay: Delay) -> Result<(), AllocError>
    ensures { OnOk result (text.new.items ≡ text.old.items ++ line_of (item.Delay delay)) }
{
    match delay {
        Delay::Fixed(beats) => push_line(text, Word::Fixed, &[beats]),
        Delay::Drawn(number) => push_line(text, Word::Drawn, &[number]),
    }
}

#[tactic(auto, unfolding(crate::specs::Lines::line_of))]
pub fn push_order(text: &mut Vec<u8>, o: &Order) -> Result<(), AllocError>
    ensures { OnOk result (text.new.items ≡ text.old.items ++ line_of (item.Order o.now)) }
{
    match o.what {
        OrderKind::Begin(ask) => {
            push_line(text, Word::Begin, &[o.beat])?;
            push_ask(text, ask)
        }
        OrderKind::Finish(instance) => {
            push_line(text, Word::Finish, &[o.beat, instance.0 as u64])
        }
    }
}

#[tactic(auto, unfolding(crate::specs::Lines::line_of))]
pub fn push_digest(text: &mut Vec<u8>, digest: &Digest32) -> Result<(), AllocError>
    ensures { OnOk result (text.new.items ≡ text.old.items ++ line_of (item.Digest digest.now)) }
{
    text.extend_from_slice(Word::Digest.letters())?;
    text.extend_from_slice(b" ")?;
    let mut digits = [0; 64];
    match hex::encode_to_slice(digest.0.as_slice(), &mut digits) {
        Ok(()) => text.extend_from_slice(digits.as_slice()),
        Err(_) => Err(AllocError),
    }
}

/// Writes one more than a number that may be 0, or 0 if there is none. One more than the greatest number has
/// a digit of its own.
fn push_one_more(text: &mut Vec<u8>, n: Option<u64>) -> Result<(), AllocError>
    ensures { OnOk result (text.new.items ≡ text.old.items ++ spaced (one_more n ∷ [])) }
{
    let wide = match n {
        Some(n) => n as u128 + 1,
        None => 0,
    };
    text.extend_from_slice(b" ")?;
    text.extend_from_slice(Buffer::new().format(wide).as_bytes())
}

/// A number that is not 0, or 0 if there is none.
fn or_zero(n: Option<u64>) -> u64
    ensures { result ≡ or_zero n }
{
    n.unwrap_or(0)
}

/// Writes the line of a cub that dies, without its line feed.
#[tactic(auto, unfolding(crate::specs::Lines::line_of))]
pub fn push_dying(
    text: &mut Vec<u8>,
    cub: u64,
    beat: Beat,
    left: Option<u64>,
    back: Option<Beat>,
) -> Result<(), AllocError>
    ensures { OnOk result (text.new.items
        ≡ text.old.items ++ line_of (item.Death (record { 0 = cub }) beat left back)) }
{
    push_line(text, Word::Death, &[cub, beat])?;
    push_one_more(text, left)?;
    push_number(text, or_zero(back))
}

/// Writes a line, without its line feed.
#[tactic(auto, unfolding(crate::specs::Lines::line_of))]
pub fn push_item(text: &mut Vec<u8>, i: &Item) -> Result<(), AllocError>
    ensures { OnOk result (text.new.items ≡ text.old.items ++ line_of i.now) }
{
    match i {
        Item::Version => push_line(text, Word::Tiger, &[1]),
        Item::Plan(params) => push_plan(text, params),
        Item::Beats(beats) => push_line(text, Word::Beats, &[*beats]),
        Item::Delay(delay) => push_delay(text, *delay),
        Item::Offsets(offsets) => push_line(text, Word::Offsets, offsets.as_slice()),
        Item::Death {
            cub,
            beat,
            left,
            back,
        } => push_dying(text, cub.0 as u64, *beat, *left, *back),
        Item::Fault(f) => push_line(text, Word::Fault, &[f.disk.0 as u64, f.from, f.until]),
        Item::File(f) => push_line(text, Word::File, &[f.len, f.disk.0 as u64]),
        Item::Order(order) => push_order(text, order),
        Item::Node(node) => push_line(text, Word::Node, &[node.0 as u64]),
        Item::Entry(entry) => push_entry(text, entry),
        Item::Digest(digest) => push_digest(text, digest),
        Item::End => push_line(text, Word::End, &[]),
    }
}
