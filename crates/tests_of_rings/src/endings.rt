//! Beats of a cub whose death comes in the middle of a step, and of one that returns: what of its outputs goes out, and
//! what its journal shows.
ghost use Rattle.std.specs.Prelude.{◌≤◌};
ghost use Rattle.std.specs.Bool.{OnTrue};
ghost use Rattle.tiger_base.specs.Limits.{most_reading};
ghost use Rattle.node_kit.specs.Links.{IsOutLink};
ghost use Rattle.node_kit.specs.Steps.{Rests};
ghost use Rattle.tests_of_rings.specs.Toys.{talk};

use crate::texts::push_journal;
use link_timing::Delay;
use node_kit::{Course, Entry, Journal, Life, Node, Out, Outbox, What};
use slot_plan::small_plan;
use std::alloc::Global;
use std::process::Abort;
use std::test::Fail;
use tiger_base::{
    Beat, FileNo, Instance, Kind, LinkNo, Message, Msg, NoMemory, NodeNo, Note, Rec, Sequence,
    SlotNo, Stamp, Tenancy,
};

/// The links to cub 2 of the small plan from cub 1, and from it to cub 3.
const FROM_CUB_1: LinkNo = LinkNo(26);

const TO_CUB_3: LinkNo = LinkNo(28);

/// A node in the place of cub 2. At each tick it sends a heartbeat, writes an entry and sends another one, and at each
/// message that it takes it sends one.
#[derive(Drop)]
struct Talker;

impl<'a> Node<Msg<'a>> for Talker {
    ghost step = { talk };

    ghost stands_at = { λ s p n. IsOutLink p n 28 };

    fn rests(&self, _stamp: Stamp) -> bool
        ensures { OnTrue result (Rests talk _stamp self.now) }
    {
        false
    }

    fn take(
        &mut self,
        _stamp: Stamp,
        _link: LinkNo,
        _msg: Msg<'a>,
        out: &mut Outbox<Msg<'a>>,
    ) -> Result<(), NoMemory> {
        out.push(Out::Send(TO_CUB_3, Msg::Heartbeat))
    }

    fn tick(&mut self, _stamp: Stamp, out: &mut Outbox<Msg<'a>>) -> Result<(), NoMemory> {
        out.push(Out::Send(TO_CUB_3, Msg::Heartbeat))?;
        out.push(Out::Act(What::Gone(Instance(1))))?;
        out.push(Out::Send(TO_CUB_3, Msg::Heartbeat))
    }
}

/// What befalls cub 2: the beat of its death, how many messages it may still send there if the death cuts it off, and
/// the beat of its return.
#[derive(Clone, Copy)]
struct Befalls {
    death: Option<Beat>,
    left: Option<u64>,
    back: Option<Beat>,
}

/// A row that says something of cub 2, and nothing of the seven others.
fn row(alloc: Global, of_cub_2: Option<u64>) -> Result<Sequence<Option<u64>>, NoMemory> {
    Ok(Sequence::new(vec![in alloc; None, None, of_cub_2, None, None, None, None, None]?))
}

fn course(alloc: Global, befalls: Befalls) -> Result<Course, NoMemory> {
    Ok(Course {
        plan: small_plan(),
        beats: 5,
        offsets: Sequence::new(Vec::new(alloc)),
        deaths: row(alloc, befalls.death)?,
        cuts: row(alloc, befalls.left)?,
        backs: row(alloc, befalls.back)?,
        faults: Sequence::new(Vec::new(alloc)),
        delay: Delay::Fixed(1),
    })
}

/// The life of a node in such a course.
fn life_of(alloc: Global, befalls: Befalls, node: u32) -> Result<Life, NoMemory> {
    let course = course(alloc, befalls)?;
    Ok(Life::new(&course, NodeNo(node)))
}

/// The node, its life, and what it wrote.
#[derive(Drop)]
struct Lived {
    node: Talker,
    life: Life,
    journal: Journal,
}

/// Writes down what goes out of an event.
fn write_outs(
    stamp: Stamp,
    out: &mut Outbox<Msg<'_>>,
    journal: &mut Journal,
) -> Result<(), NoMemory> {
    while let Some(output) = out.take_first() {
        let what = match output {
            Out::Send(link, msg) => What::Sent(link, msg.note()),
            Out::Act(what) => what,
        };
        journal.write(Entry { stamp, what })?;
    }
    Ok(())
}

/// A message of the beat before comes, which the node takes where it acts and hears it.
fn take(stamp: Stamp, lived: &mut Lived, out: &mut Outbox<Msg<'_>>) -> Result<(), NoMemory>
    requires { stamp.reading ≤ most_reading }
{
    let beat = stamp.beat;
    if !lived.life.acts(beat) || !lived.life.hears(beat.saturating_sub(1), beat) {
        return Ok(());
    }
    lived.node.take(stamp, FROM_CUB_1, Msg::Heartbeat, out)?;
    lived.life.trim(stamp, false, out);
    lived.journal.write(Entry {
        stamp,
        what: What::Got(FROM_CUB_1, Note::Heartbeat),
    })?;
    write_outs(stamp, out, &mut lived.journal)
}

/// The beat ends.
fn end(stamp: Stamp, lived: &mut Lived, out: &mut Outbox<Msg<'_>>) -> Result<(), NoMemory>
    requires { stamp.reading ≤ most_reading }
{
    if lived.life.acts(stamp.beat) {
        lived.node.tick(stamp, out)?;
        lived.life.trim(stamp, true, out);
        return write_outs(stamp, out, &mut lived.journal);
    }
    if lived.life.dies(stamp.beat) {
        return lived.journal.write(Entry {
            stamp,
            what: What::Died,
        });
    }
    Ok(())
}

/// Beats 1 to 5, in each of which so many messages come.
fn live(lived: &mut Lived, messages: u32, out: &mut Outbox<Msg<'_>>) -> Result<(), NoMemory> {
    for beat in 1..6 {
        let stamp = Stamp {
            beat,
            reading: beat * 10000,
        };
        for _ in 0..messages {
            take(stamp, lived, out)?;
        }
        end(stamp, lived, out)?;
    }
    Ok(())
}

/// What the node writes.
fn told(alloc: Global, befalls: Befalls, messages: u32) -> Result<String, NoMemory> {
    let mut lived = Lived {
        node: Talker,
        life: life_of(alloc, befalls, 2)?,
        journal: Journal::new(alloc),
    };
    live(&mut lived, messages, &mut Outbox::new(alloc))?;
    let mut text = String::new(alloc);
    push_journal(&lived.journal, &mut text)?;
    Ok(text)
}

fn assert_told(
    rt: &impl Abort,
    alloc: Global,
    befalls: Befalls,
    messages: u32,
    wanted: &str,
) -> Result<(), Fail> {
    let text = told(alloc, befalls, messages)?;
    assert_eq!(rt; text.as_str(), wanted);
    Ok(())
}

/// A death in beat 2, perhaps with a cut, and perhaps a return.
fn dies(left: Option<u64>, back: Option<Beat>) -> Befalls {
    Befalls {
        death: Some(2),
        left,
        back,
    }
}

#[test]
fn so_many_messages_of_a_step_go_out(rt: HostRuntime) -> Result<(), Fail> {
    let wanted = "1/10000 sent 28; 1/10000 Gone(Instance(1)); 1/10000 sent 28; 2/20000 Died; ";
    assert_told(&rt, rt.alloc(), dies(Some(0), None), 0, wanted)?;
    let wanted = "1/10000 sent 28; 1/10000 Gone(Instance(1)); 1/10000 sent 28; \
                  2/20000 sent 28; 2/20000 Gone(Instance(1)); 2/20000 Died; ";
    assert_told(&rt, rt.alloc(), dies(Some(1), None), 0, wanted)?;
    let wanted = "1/10000 sent 28; 1/10000 Gone(Instance(1)); 1/10000 sent 28; \
                  2/20000 sent 28; 2/20000 Gone(Instance(1)); 2/20000 sent 28; 2/20000 Died; ";
    assert_told(&rt, rt.alloc(), dies(Some(2), None), 0, wanted)?;
    assert_told(&rt, rt.alloc(), dies(Some(3), None), 0, wanted)
}

/// The first message that the node takes costs the one that it may send, so the death comes in the second: that one is
/// got, and what it would send does not go out.
#[test]
fn the_death_comes_in_the_step_that_sends_too_much(rt: HostRuntime) -> Result<(), Fail> {
    let wanted = "1/10000 got 26; 1/10000 sent 28; 1/10000 got 26; 1/10000 sent 28; \
                  1/10000 sent 28; 1/10000 Gone(Instance(1)); 1/10000 sent 28; \
                  2/20000 got 26; 2/20000 sent 28; 2/20000 got 26; 2/20000 Died; ";
    assert_told(&rt, rt.alloc(), dies(Some(1), None), 2, wanted)
}

/// With one message more it comes in the tick.
#[test]
fn what_a_beat_sent_before_counts(rt: HostRuntime) -> Result<(), Fail> {
    let wanted = "1/10000 got 26; 1/10000 sent 28; 1/10000 got 26; 1/10000 sent 28; \
                  1/10000 sent 28; 1/10000 Gone(Instance(1)); 1/10000 sent 28; \
                  2/20000 got 26; 2/20000 sent 28; 2/20000 got 26; 2/20000 sent 28; \
                  2/20000 sent 28; 2/20000 Gone(Instance(1)); 2/20000 Died; ";
    assert_told(&rt, rt.alloc(), dies(Some(3), None), 2, wanted)
}

/// The message that comes in beat 4 was sent below the return, and is lost; that of beat 5 is taken.
#[test]
fn who_returns_takes_what_was_sent_from_then_on(rt: HostRuntime) -> Result<(), Fail> {
    let wanted = "1/10000 got 26; 1/10000 sent 28; \
                  1/10000 sent 28; 1/10000 Gone(Instance(1)); 1/10000 sent 28; 2/20000 Died; \
                  4/40000 sent 28; 4/40000 Gone(Instance(1)); 4/40000 sent 28; \
                  5/50000 got 26; 5/50000 sent 28; \
                  5/50000 sent 28; 5/50000 Gone(Instance(1)); 5/50000 sent 28; ";
    assert_told(&rt, rt.alloc(), dies(None, Some(4)), 1, wanted)
}

#[test]
fn who_was_cut_off_returns_whole(rt: HostRuntime) -> Result<(), Fail> {
    let wanted = "1/10000 got 26; 1/10000 sent 28; \
                  1/10000 sent 28; 1/10000 Gone(Instance(1)); 1/10000 sent 28; \
                  2/20000 got 26; 2/20000 Died; \
                  4/40000 sent 28; 4/40000 Gone(Instance(1)); 4/40000 sent 28; \
                  5/50000 got 26; 5/50000 sent 28; \
                  5/50000 sent 28; 5/50000 Gone(Instance(1)); 5/50000 sent 28; ";
    assert_told(&rt, rt.alloc(), dies(Some(0), Some(4)), 1, wanted)
}

fn stamp(beat: Beat) -> Stamp {
    Stamp { beat, reading: 0 }
}

/// A tick that puts nothing out is cut off all the same: its runner asks `ends_in` before it lets a node rest.
#[test]
fn a_node_that_rests_dies_in_its_tick(rt: HostRuntime) -> Result<(), Fail> {
    let mut life = life_of(rt.alloc(), dies(Some(0), None), 2)?;
    let mut out: Outbox<Msg> = Outbox::new(rt.alloc());
    assert!(rt; !life.ends_in(1) && life.ends_in(2) && !life.ends_in(3));
    life.trim(stamp(1), true, &mut out);
    life.trim(stamp(2), false, &mut out);
    assert!(rt; out.is_empty() && life.acts(2));
    life.trim(stamp(2), true, &mut out);
    assert!(rt; matches!(out.take_first(), Some(Out::Act(What::Died))));
    assert!(rt; out.is_empty() && !life.acts(2) && !life.ends_in(2) && !life.dies(2));
    Ok(())
}

#[test]
fn a_node_is_away_from_its_death_to_its_return(rt: HostRuntime) -> Result<(), Fail> {
    let life = life_of(rt.alloc(), dies(None, Some(4)), 2)?;
    assert!(rt; life.acts(1) && !life.acts(2) && !life.acts(3) && life.acts(4) && life.acts(5));
    assert!(rt; !life.dies(1) && life.dies(2) && !life.dies(3) && !life.dies(4));
    assert!(rt; !life.returns(2) && !life.returns(3) && life.returns(4) && !life.returns(5));
    assert!(rt; life.hears(1, 2) && !life.hears(3, 4) && !life.hears(3, 5) && life.hears(4, 5));
    Ok(())
}

/// Of a course only cubs die: not the disk of cub 2, which is node 10, nor the viewers.
#[test]
fn what_befalls_a_cub_befalls_no_other_node(rt: HostRuntime) -> Result<(), Fail> {
    for node in [1, 3, 10, 17] {
        let life = life_of(rt.alloc(), dies(Some(0), Some(4)), node)?;
        assert!(rt; life.acts(2) && life.acts(3) && !life.ends_in(2) && !life.returns(4));
    }
    Ok(())
}

/// The outputs with which a cub puts a start into a slot: as an own record, whose state it sends to the next cub, or as
/// the backup for its dead predecessor.
fn push_insertion(kind: Kind, out: &mut Outbox<Msg<'_>>) -> Result<(), NoMemory> {
    let tenancy = Tenancy {
        instance: Instance(0),
        file: FileNo(0),
        slot: SlotNo(1),
        first: 0,
        last: 3,
    };
    let rec = Rec {
        tenancy,
        visit: 0,
        kind,
    };
    out.push(Out::Act(What::Put(tenancy)))?;
    out.push(Out::Act(What::Took(rec)))?;
    out.push(Out::Send(TO_CUB_3, Msg::Heartbeat))
}

/// How many outputs of two insertions are left if so many of their messages go out and no Died stood behind them, and
/// how many if one did.
fn left_of_two(alloc: Global, kind: Kind, sends: u64) -> Result<(u64, u64), NoMemory> {
    let mut out: Outbox<Msg> = Outbox::new(alloc);
    push_insertion(kind, &mut out)?;
    push_insertion(kind, &mut out)?;
    out.cut(sends);
    let left = taken_out(&mut out);
    push_insertion(kind, &mut out)?;
    push_insertion(kind, &mut out)?;
    out.end_in_death();
    out.cut(sends);
    Ok((left, taken_out(&mut out)))
}

/// Takes all outputs out, and counts them.
fn taken_out(out: &mut Outbox<Msg<'_>>) -> u64 {
    let mut count: u64 = 0;
    while let Some(_output) = out.take_first() {
        count = count.saturating_add(1);
    }
    count
}

/// An insertion whose state does not go out is lost whole, and so is Died behind what is cut off.
#[test]
fn an_insertion_goes_out_with_its_state(rt: HostRuntime) -> Result<(), Fail> {
    assert_eq!(rt; left_of_two(rt.alloc(), Kind::Own, 0)?, (0, 0));
    assert_eq!(rt; left_of_two(rt.alloc(), Kind::Own, 1)?, (3, 3));
    assert_eq!(rt; left_of_two(rt.alloc(), Kind::Own, 2)?, (6, 7));
    assert_eq!(rt; left_of_two(rt.alloc(), Kind::Backup, 0)?, (2, 2));
    assert_eq!(rt; left_of_two(rt.alloc(), Kind::Backup, 1)?, (5, 5));
    assert_eq!(rt; left_of_two(rt.alloc(), Kind::Backup, 2)?, (6, 7));
    Ok(())
}
