//! Whether the numbers of an item fit their types. Those of all but a death do, since it is a value of the program: each
//! function that claims it only reads them, and what is read is known to be in its type's range.
ghost use Rattle.std.specs.Prelude.{◌<◌, ◌^◌, ◌↔◌, IsTrue};
ghost use Rattle.std.specs.List.{All, AllByRecursion};
ghost use Rattle.audit_text.specs.Fields.{params_fields};
ghost use Rattle.audit_text.specs.Fits.{IsShort, IsLong, TenancyFits, AskFits, WantFits, SpanFits, TagFits, PartFits, LeftFits, BackFits, NoteFits, WhatFits, OrderFits, DigestFits, ItemFits};
ghost use Rattle.audit_text.specs.declared.item.Item.TheVariants as item;

use audit_text::Item;
use link_timing::Delay;
use node_kit::{Digest32, Entry, OrderKind, What};
use slot_plan::Params;
use tiger_base::{Ask, Beat, CubNo, Note, Span, State, Tag, Tenancy, Want};

fn short_fits(n: u32)
    ensures { IsShort n }
{}

fn long_fits(n: u64)
    ensures { IsLong n }
{}

fn longs_fit(ns: &[u64])
    ensures { AllByRecursion IsLong ns.now }
{
    for n in ns {
        let _n = *n;
    }
}

fn bytes_fit(bytes: &[u8])
    ensures { AllByRecursion (λ b. b < 256) bytes.now }
{
    for b in bytes {
        let _b = *b;
    }
}

fn tenancy_fits(t: &Tenancy)
    ensures { TenancyFits t.now }
{
    let _instance = t.instance.0;
    let _file = t.file.0;
    let _slot = t.slot.0;
    let _first = t.first;
    let _last = t.last;
}

fn ask_fits(a: &Ask)
    ensures { AskFits a.now }
{
    let _instance = a.instance.0;
    let _file = a.file.0;
    let _count = a.count;
    let _disk = a.disk.0;
}

fn want_fits(w: &Want)
    ensures { WantFits w.now }
{
    let _instance = w.instance.0;
    let _slot = w.slot.0;
    let _visit = w.visit;
    let _file = w.file.0;
    let _block = w.block;
    let _piece = w.piece;
}

fn span_fits(s: &Span)
    ensures { SpanFits s.now }
{
    let _file = s.file.0;
    let _from = s.from;
    let _len = s.len;
}

fn tag_fits(tag: &Option<Tag>)
    ensures { TagFits tag.now }
{
    if let Some(tag) = tag {
        short_fits(tag.slot.0);
        long_fits(tag.visit);
    }
}

fn part_fits(part: &Option<Span>)
    ensures { PartFits part.now }
{
    if let Some(part) = part {
        span_fits(part);
    }
}

fn state_fits(state: &State)
    ensures { TenancyFits state.now.tenancy × IsLong state.now.visit }
{
    tenancy_fits(&state.tenancy);
    long_fits(state.visit);
}

fn sent_fits(want: &Want, sent: Beat, part: &Span)
    ensures { WantFits want.now × IsLong sent × SpanFits part.now }
{
    want_fits(want);
    long_fits(sent);
    span_fits(part);
}

fn note_fits(note: &Note)
    ensures { NoteFits note.now }
{
    match note {
        Note::ViewerState(state) => state_fits(state),
        Note::MirrorState(state) => {
            tenancy_fits(&state.tenancy);
            long_fits(state.visit);
            short_fits(state.piece);
        }
        Note::Start { ask, .. } => ask_fits(ask),
        Note::Deschedule { instance, tag } => {
            short_fits(instance.0);
            tag_fits(tag);
        }
        Note::Kill {
            instance,
            slot,
            visit,
        } => {
            short_fits(instance.0);
            short_fits(slot.0);
            long_fits(*visit);
        }
        Note::Placed(tenancy) => tenancy_fits(tenancy),
        Note::Heartbeat => {}
        Note::ReadAsk(want) => want_fits(want),
        Note::ReadDone { want, part } => {
            want_fits(want);
            part_fits(part);
        }
        Note::Whole { want, sent, part } => sent_fits(want, *sent, part),
        Note::Piece { want, sent, part } => sent_fits(want, *sent, part),
        Note::Back { from } => {
            long_fits(*from);
        }
    }
}

fn what_fits(what: &What)
    ensures { WhatFits what.now }
{
    match what {
        What::Got(link, note) => {
            short_fits(link.0);
            note_fits(note);
        }
        What::Sent(link, note) => {
            short_fits(link.0);
            note_fits(note);
        }
        What::Took(r) => {
            tenancy_fits(&r.tenancy);
            long_fits(r.visit);
        }
        What::Dropped(r) => {
            tenancy_fits(&r.tenancy);
            long_fits(r.visit);
        }
        What::Queued(instance, disk) => {
            short_fits(instance.0);
            short_fits(disk.0);
        }
        What::Unqueued(instance) => {
            short_fits(instance.0);
        }
        What::Put(tenancy) => tenancy_fits(tenancy),
        What::Gone(instance) => {
            short_fits(instance.0);
        }
        What::ReadFailed(want) => want_fits(want),
        What::Believed(cub) => {
            short_fits(cub.0);
        }
        What::Died => {}
        What::Returned => {}
    }
}

fn entry_fits(e: &Entry)
    ensures { ItemFits (item.Entry e.now) }
{
    long_fits(e.stamp.beat);
    long_fits(e.stamp.reading);
    what_fits(&e.what);
}

fn order_fits(what: &OrderKind)
    ensures { OrderFits what.now }
{
    match what {
        OrderKind::Begin(ask) => ask_fits(ask),
        OrderKind::Finish(instance) => {
            short_fits(instance.0);
        }
    }
}

fn digest_fits(d: &Digest32)
    ensures { DigestFits d.now }
{
    bytes_fit(d.0.as_slice());
}

fn params_fit(p: &Params)
    ensures { All IsLong (params_fields p.now) }
{
    longs_fit(&[
        p.cubs,
        p.disks,
        p.slots,
        p.play,
        p.pieces,
        p.block,
        p.beat,
        p.delay,
        p.skew,
        p.window_a,
        p.window_b,
        p.read_lead,
        p.min_lead,
        p.max_lead,
        p.batch,
        p.heart,
        p.deadman,
        p.hold,
    ]);
}

fn delay_fits(delay: &Delay)
    ensures { ItemFits (item.Delay delay.now) }
{
    match delay {
        Delay::Fixed(beats) => {
            long_fits(*beats);
        }
        Delay::Drawn(number) => {
            long_fits(*number);
        }
    }
}

/// Whether a line can tell how many messages go out: it tells one more.
fn left_fits(left: Option<u64>) -> bool
    ensures { IsTrue result ↔ LeftFits left }
{
    match left {
        Some(n) => n < u64::MAX,
        None => true,
    }
}

/// Whether a line can tell of a return in this beat: 0 says that there is none.
fn back_fits(back: Option<Beat>) -> bool
    ensures { IsTrue result ↔ BackFits back }
{
    match back {
        Some(beat) => 1 <= beat,
        None => true,
    }
}

fn death_fits(cub: CubNo, beat: Beat, left: Option<u64>, back: Option<Beat>) -> bool
    ensures { IsTrue result ↔ ItemFits (item.Death cub beat left back) }
{
    short_fits(cub.0);
    long_fits(beat);
    left_fits(left) && back_fits(back)
}

/// Whether the numbers of an item fit their types.
pub fn item_fits(i: &Item) -> bool
    ensures { IsTrue result ↔ ItemFits i.now }
{
    match i {
        Item::Version => {}
        Item::Plan(p) => params_fit(p),
        Item::Beats(beats) => {
            long_fits(*beats);
        }
        Item::Delay(delay) => delay_fits(delay),
        Item::Offsets(offsets) => longs_fit(offsets.as_slice()),
        Item::Death {
            cub,
            beat,
            left,
            back,
        } => return death_fits(*cub, *beat, *left, *back),
        Item::Fault(f) => {
            short_fits(f.disk.0);
            long_fits(f.from);
            long_fits(f.until);
        }
        Item::File(f) => {
            long_fits(f.len);
            short_fits(f.disk.0);
        }
        Item::Order(o) => {
            long_fits(o.beat);
            order_fits(&o.what);
        }
        Item::Node(n) => {
            short_fits(n.0);
        }
        Item::Entry(e) => entry_fits(e),
        Item::Digest(d) => digest_fits(d),
        Item::End => {}
    }
    true
}
