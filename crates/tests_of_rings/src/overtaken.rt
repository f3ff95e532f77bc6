//! A script in which a cub dies that has put a viewer, while the viewer is stopped.
ghost use Rattle.std.specs.Prelude.{◌≤◌};
ghost use Rattle.tiger_base.specs.Limits.{most_beats};

use crate::rings::{Story, assert_told};
use crate::scripts::{Answer, asked, event};
use crate::texts::push_entry;
use node_kit::{Entry, Gate, What};
use ring_world::Act;
use std::alloc::{AllocError, Global};
use std::fmt::Write;
use std::test::Fail;
use tiger_base::{Beat, CubNo, LinkNo, NoMemory, NodeNo, Note};
use world::World;

/// Whether an event happens in a beat, at its true time.
fn happens<'a, G: Gate>(alloc: Global, world: &mut World<'a, G>, beat: Beat, act: Act) -> bool
    requires { beat ≤ most_beats }
{
    matches!(
        asked(alloc, world, event(beat, beat * 10000, act)),
        Answer::Done
    )
}

/// Takes the oldest message of a link, if it may be taken.
fn take_next<'a, G: Gate>(alloc: Global, world: &mut World<'a, G>, beat: Beat, link: LinkNo) -> bool
    requires { beat ≤ most_beats }
{
    let number = match world.channel(link) {
        Some(channel) => channel.gone(),
        None => return false,
    };
    happens(alloc, world, beat, Act::Get { link, number })
}

/// In a beat each message is taken that may be, but for those on one link, and each node ticks.
fn live_beat<'a, G: Gate>(alloc: Global, world: &mut World<'a, G>, beat: Beat, held: Option<LinkNo>)
    requires { beat ≤ most_beats }
{
    for link in 0..56 {
        if held != Some(LinkNo(link)) {
            take_all(alloc, world, beat, LinkNo(link));
        }
    }
    for node in 0..18 {
        happens(alloc, world, beat, Act::Tick(NodeNo(node)));
    }
}

fn take_all<'a, G: Gate>(alloc: Global, world: &mut World<'a, G>, beat: Beat, link: LinkNo)
    requires { beat ≤ most_beats }
{
    for _ in 0..8 {
        if !take_next(alloc, world, beat, link) {
            return;
        }
    }
}

/// Cub 0 puts the viewer in beat 1 and dies in beat 2. What it sent to cub 1 in beat 1 is taken in
/// beat 3, behind the stop, which cub 1 passes on; what it sent to cub 2 is taken in beat 2.
fn lives<'a, G: Gate>(alloc: Global, world: &mut World<'a, G>) {
    live_beat(alloc, world, 0, None);
    live_beat(alloc, world, 1, None);
    happens(alloc, world, 2, Act::Die(CubNo(0)));
    live_beat(alloc, world, 2, Some(LinkNo(24)));
    for beat in 3..80 {
        live_beat(alloc, world, beat, None);
    }
}

/// Whether a journal tells that a block or a piece was sent.
fn sends_part(journal: &[Entry]) -> bool {
    for entry in journal {
        if matches!(
            entry.what,
            What::Sent(_, Note::Whole { .. }) | What::Sent(_, Note::Piece { .. })
        ) {
            return true;
        }
    }
    false
}

/// How many nodes sent blocks or pieces.
fn senders<'a, G: Gate>(world: &World<'a, G>) -> u64 {
    let mut count: u64 = 0;
    for node in 0..18 {
        if let Some(journal) = world.journal(NodeNo(node))
            && sends_part(journal.as_slice())
        {
            count = count.saturating_add(1);
        }
    }
    count
}

/// Whether an entry tells of a record, of a stop, or of the death.
fn tells(what: &What) -> bool {
    matches!(
        what,
        What::Put(_)
            | What::Took(_)
            | What::Dropped(_)
            | What::Got(_, Note::Deschedule { .. })
            | What::Sent(_, Note::Deschedule { .. })
            | What::Died
            | What::Returned
    )
}

/// Adds the entries of a journal that tell so.
fn push_telling(journal: &[Entry], text: &mut String) -> Result<(), AllocError> {
    for entry in journal {
        if tells(&entry.what) {
            push_entry(entry, text)?;
        }
    }
    Ok(())
}

/// Adds what cubs 0, 1 and 2 tell, and how many nodes sent blocks or pieces.
fn push_seen<'a, G: Gate>(world: &World<'a, G>, text: &mut String) -> Result<(), AllocError> {
    for node in 0..3 {
        if let Some(journal) = world.journal(NodeNo(node)) {
            write!(text, "{node}: ")?;
            push_telling(journal.as_slice(), text)?;
            text.push_str("\n")?;
        }
    }
    write!(text, "{} senders", senders(world))
}

/// Adds what the journals say of the script.
pub fn push_overtaken<'a, G: Gate>(
    alloc: Global,
    world: &mut World<'a, G>,
    text: &mut String,
) -> Result<(), NoMemory> {
    lives(alloc, world);
    Ok(push_seen(world, text)?)
}

#[test]
fn a_stop_overtakes_what_a_dead_cub_sent(rt: HostRuntime) -> Result<(), Fail> {
    let wanted = "0: 1/10000 Put(Tenancy { \
        instance: Instance(0), file: FileNo(0), slot: SlotNo(1), first: 0, last: 63 }); \
        1/10000 Took(Rec { tenancy: Tenancy { \
        instance: Instance(0), file: FileNo(0), slot: SlotNo(1), first: 0, last: 63 }, \
        visit: 0, kind: Own }); 2/20000 Died; \n\
        1: 2/20000 Got(LinkNo(1), Deschedule { instance: Instance(0), tag: None }); \
        3/30000 Sent(LinkNo(26), Deschedule { \
        instance: Instance(0), tag: Some(Tag { slot: SlotNo(1), visit: 2 }) }); \
        3/30000 Sent(LinkNo(27), Deschedule { \
        instance: Instance(0), tag: Some(Tag { slot: SlotNo(1), visit: 2 }) }); \n\
        2: 2/20000 Took(Rec { tenancy: Tenancy { \
        instance: Instance(0), file: FileNo(0), slot: SlotNo(1), first: 0, last: 63 }, \
        visit: 1, kind: Backup }); \
        2/20000 Took(Rec { tenancy: Tenancy { \
        instance: Instance(0), file: FileNo(0), slot: SlotNo(1), first: 0, last: 63 }, \
        visit: 2, kind: Own }); \
        4/40000 Got(LinkNo(26), Deschedule { \
        instance: Instance(0), tag: Some(Tag { slot: SlotNo(1), visit: 2 }) }); \
        4/40000 Sent(LinkNo(28), Deschedule { \
        instance: Instance(0), tag: Some(Tag { slot: SlotNo(1), visit: 3 }) }); \
        4/40000 Sent(LinkNo(29), Deschedule { \
        instance: Instance(0), tag: Some(Tag { slot: SlotNo(1), visit: 3 }) }); \
        4/40000 Dropped(Rec { tenancy: Tenancy { \
        instance: Instance(0), file: FileNo(0), slot: SlotNo(1), first: 0, last: 63 }, \
        visit: 1, kind: Backup }); \
        4/40000 Dropped(Rec { tenancy: Tenancy { \
        instance: Instance(0), file: FileNo(0), slot: SlotNo(1), first: 0, last: 63 }, \
        visit: 2, kind: Own }); \n\
        0 senders";
    assert_told(&rt, rt.alloc(), Story::Overtaken, wanted)
}
