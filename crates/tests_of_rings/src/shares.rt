//! A share of disk 0 alone, whose in-port and out-port lead to the test: how far it moves and when,
//! what its node writes, and when what it sends arrives.
ghost use Rattle.std.specs.Prelude.{◌≡◌, ◌==◌, ℕ, ◌∷◌, [], OnOk, Some, slice_get, if◌then◌else◌};
ghost use Rattle.std.specs.Bool.{OnTrue};
ghost use Rattle.tiger_base.specs.declared.message.Note.TheVariants.{Heartbeat};
ghost use Rattle.slot_plan.specs.Samples.{small};
ghost use Rattle.link_timing.specs.Clock.{FixedIsWithin};
ghost use Rattle.node_kit.specs.declared.outbox.Out.TheVariants.{Send};
ghost use Rattle.node_kit.specs.Courses.{IsCourse};
ghost use Rattle.node_kit.specs.Links.{IsOutLink};
ghost use Rattle.node_kit.specs.Steps.{Deed, Input, Rests};
ghost use Rattle.node_kit.specs.Steps.Input.{Take, Tick};
ghost use Rattle.tests_of_rings.specs.declared.shares.Ping.{Ping};
ghost use Rattle.tests_of_rings.specs.declared.shares.Echo.{Echo};

use crate::texts::push_journal;
use crate::toys::toy_course;
use link_timing::Delay;
use node_kit::{Course, LinkTable, Node, Out, Outbox};
use ring_cells::{InPort, Named, OutPort, Share};
use ring_links::{InEnd, OutEnd, open_link};
use run_facts::Flight;
use slot_plan::small_plan;
use std::alloc::{AllocError, Global};
use std::fmt::Write;
use std::marker::Brand;
use std::process::Abort;
use std::sync::Wait;
use std::test::Fail;
use tiger_base::{LinkNo, Message, NoMemory, NodeNo, Note, Sequence, Stamp};

/// A message of a number, which a journal keeps as a heartbeat.
#[derive(Drop)]
struct Ping(u64);

impl Message for Ping {
    ghost note_of = { λ _. Heartbeat };

    fn note(&self) -> Note {
        Note::Heartbeat
    }
}

/// A node that sends each message back, on one link.
#[derive(Drop)]
struct Echo {
    back: LinkNo,
}

impl Node<Ping> for Echo {
    ghost step = { λ s i. elim i as (λ _. Deed Ping Echo) [
      | Take stamp link msg ↦ record { outs = Send s.back msg ∷ []; state = s }
      | Tick stamp ↦ record { outs = []; state = s }
    ] };

    ghost stands_at = { λ s p n. IsOutLink p n s.back.0 };

    fn rests(&self, _stamp: Stamp) -> bool
        ensures { OnTrue result (Rests (λ (s : Echo) (i : Input Ping). elim i as (λ _. Deed Ping Echo) [
          | Take stamp link msg ↦ record { outs = Send s.back msg ∷ []; state = s }
          | Tick stamp ↦ record { outs = []; state = s }
        ]) _stamp self.now) }
    {
        true
    }

    fn take(
        &mut self,
        _stamp: Stamp,
        _link: LinkNo,
        msg: Ping,
        out: &mut Outbox<Ping>,
    ) -> Result<(), NoMemory> {
        out.push(Out::Send(self.back, msg))
    }

    fn tick(&mut self, _stamp: Stamp, _out: &mut Outbox<Ping>) -> Result<(), NoMemory> {
        Ok(())
    }
}

/// The share of disk 0 alone, which is node 8: link 40 comes from its cub, and link 48 leads back.
fn disk_share<W: Named<Echo>>(
    alloc: Global,
    course: &Course,
    into: InEnd<Ping>,
    out: OutEnd<Ping>,
) -> Result<Share<Ping, Echo, W>, NoMemory>
    requires course { IsCourse course.now }
    requires params { course.now.plan.params ≡ small }
    requires named { W.course ≡ course.now ∷ [] }
    requires opens { slice_get W.opening 8 ≡ Some (record { back = record { 0 = 48 } }) }
    requires into { into.line ≡ W.line 40 }
    requires out { out.line ≡ W.line 48 }
    requires unused { (into.flights ≡ []) × (out.flights ≡ []) }
    requires open { out.closed ≡ 0 }
    requires home { W.home ≡ λ n. if n == 8 then 1 else 0 }
{
    let mut ins = Vec::new(alloc);
    ins.push(InPort::new(LinkNo(40), into))?;
    let mut row = Vec::new(alloc);
    row.push(OutPort::new(LinkNo(48), out))?;
    let mut outs = Vec::new(alloc);
    outs.push(Sequence::new(row))?;
    let mut nodes = Vec::new(alloc);
    nodes.push(Echo { back: LinkNo(48) })?;
    let mut numbers = Vec::new(alloc);
    numbers.push(NodeNo(8))?;
    let links = LinkTable::new(&course.plan);
    Share::new(alloc, course, &links, 1, numbers, nodes, ins, outs)
}

/// Sends two messages in beat 0: one arrives in beat 1, and one in beat 2.
fn send_two<R: Wait>(rt: &R, feed: &mut OutEnd<Ping>) -> Result<(), NoMemory>
    requires unused { feed.old.flights ≡ [] }
    requires open { feed.old.closed ≡ 0 }
    ensures { OnOk result (feed.new.closed ≡ 0) }
{
    let first = Flight {
        sent: 0,
        arrival: 1,
        msg: Ping(7),
    };
    let Ok(()) = feed.send(rt, first) else {
        return Err(NoMemory);
    };
    let second = Flight {
        sent: 0,
        arrival: 2,
        msg: Ping(8),
    };
    let Ok(()) = feed.send(rt, second) else {
        return Err(NoMemory);
    };
    Ok(())
}

/// Adds to a text how far a share moves.
fn push_move<W: Named<Echo>, R: Wait>(
    rt: &R,
    share: &mut Share<Ping, Echo, W>,
    text: &mut String,
) -> Result<(), NoMemory> {
    let moved = share.advance(rt)?;
    write!(text, "{moved:?}; ")?;
    Ok(())
}

/// Adds to a text how far a share moves before its in-port is closed, when beat 0 is closed there,
/// and when beats 1 and 2 are.
fn push_moves<W: Named<Echo>, R: Wait>(
    rt: &R,
    share: &mut Share<Ping, Echo, W>,
    feed: &mut OutEnd<Ping>,
    text: &mut String,
) -> Result<(), NoMemory>
    requires { feed.old.closed ≡ 0 }
{
    push_move(rt, share, text)?;
    push_move(rt, share, text)?;
    feed.mark(1);
    push_move(rt, share, text)?;
    push_move(rt, share, text)?;
    feed.mark(3);
    push_move(rt, share, text)?;
    push_move(rt, share, text)
}

/// Adds to a text in which beats messages were sent and arrive.
fn push_arrivals<R: Wait>(
    rt: &R,
    back: &mut InEnd<Ping>,
    text: &mut String,
) -> Result<(), AllocError> {
    back.look();
    for _ in 0..9 {
        if let Some(flight) = back.try_next(rt) {
            write!(text, "{} to {}; ", flight.sent, flight.arrival)?;
        }
    }
    Ok(())
}

/// Adds how the share of disk 0 moves, what it sends, and what its node writes.
fn push_told<W: Named<Echo>, R: Wait>(
    rt: &R,
    alloc: Global,
    course: &Course,
    feed: &mut OutEnd<Ping>,
    into: InEnd<Ping>,
    out: OutEnd<Ping>,
    back: &mut InEnd<Ping>,
    text: &mut String,
) -> Result<(), NoMemory>
    requires course { IsCourse course.now }
    requires params { course.now.plan.params ≡ small }
    requires named { W.course ≡ course.now ∷ [] }
    requires opens { slice_get W.opening 8 ≡ Some (record { back = record { 0 = 48 } }) }
    requires into { into.line ≡ W.line 40 }
    requires out { out.line ≡ W.line 48 }
    requires unused { (into.flights ≡ []) × (out.flights ≡ []) × (feed.old.flights ≡ []) }
    requires open { (out.closed ≡ 0) × (feed.old.closed ≡ 0) }
    requires home { W.home ≡ λ n. if n == 8 then 1 else 0 }
{
    send_two(rt, feed)?;
    let mut share = disk_share::<W>(alloc, course, into, out)?;
    push_moves(rt, &mut share, feed, text)?;
    push_arrivals(rt, back, text)?;
    let parts = share.into_parts();
    for journal in parts.journals.iter() {
        push_journal(journal, text)?;
    }
    Ok(())
}

/// The same of the share of a course, over links that are opened.
fn push_opened<R: Wait>(
    rt: &R,
    alloc: Global,
    course: &Course,
    text: &mut String,
) -> Result<(), NoMemory>
    requires course { IsCourse course.now }
    requires params { course.now.plan.params ≡ small }
{
    let (mut feed, into) = open_link(rt, alloc)?;
    let (out, mut back) = open_link(rt, alloc)?;
    push_told::<Brand, R>(rt, alloc, course, &mut feed, into, out, &mut back, text)
}

/// What is told of the share of disk 0 in four beats of the small plan.
fn told<R: Wait>(rt: &R, alloc: Global, delay: Delay) -> Result<String, NoMemory>
    requires { FixedIsWithin delay 2 }
{
    let course = toy_course(alloc, small_plan(), 4, delay, None)?;
    let mut text = String::new(alloc);
    push_opened(rt, alloc, &course, &mut text)?;
    Ok(text)
}

fn assert_told<R: Abort + Wait>(
    rt: &R,
    alloc: Global,
    delay: Delay,
    wanted: &str,
) -> Result<(), Fail>
    requires { FixedIsWithin delay 2 }
{
    let text = told(rt, alloc, delay)?;
    assert_eq!(rt; text.as_str(), wanted);
    Ok(())
}

#[test]
fn a_share_goes_as_far_as_its_in_port_is_closed(rt: HostRuntime) -> Result<(), Fail> {
    assert_told(
        &rt,
        rt.alloc(),
        Delay::Fixed(1),
        "Beats(1); Blocked(LinkNo(40)); Beats(1); Blocked(LinkNo(40)); Beats(2); Done; \
         1 to 2; 2 to 3; 1/10300 got 40; 1/10300 sent 48; 2/20300 got 40; 2/20300 sent 48; ",
    )
}

/// The delays are those that another program draws from PCG-XSH-RR 64/32 with state 7 and stream
/// 48.
#[test]
fn what_a_share_sends_arrives_when_its_link_draws(rt: HostRuntime) -> Result<(), Fail> {
    assert_told(
        &rt,
        rt.alloc(),
        Delay::Drawn(7),
        "Beats(1); Blocked(LinkNo(40)); Beats(1); Blocked(LinkNo(40)); Beats(2); Done; \
         1 to 2; 2 to 4; 1/10300 got 40; 1/10300 sent 48; 2/20300 got 40; 2/20300 sent 48; ",
    )
}
