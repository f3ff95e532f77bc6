//! Scripts of events, and what the world of a small ring answers to each.
ghost use Rattle.std.specs.Prelude.{◌≤◌};
ghost use Rattle.tiger_base.specs.Limits.{most_beats};

use crate::rings::{Story, assert_told};
use node_kit::Gate;
use ring_world::{Act, Event};
use std::alloc::Global;
use std::fmt::Write;
use std::process::Abort;
use std::test::Fail;
use tiger_base::{Beat, CubNo, LinkNo, Micros, NoMemory, NodeNo, Stamp};
use world::{StepError, World};

/// What is answered to an event.
#[derive(Clone, Copy, Debug)]
pub enum Answer {
    Done,
    /// It may not be asked of this world.
    NotAsked,
    Refused(StepError),
}

/// Asks an event of a world, if it may be asked.
pub fn asked<'a, G: Gate>(alloc: Global, world: &mut World<'a, G>, event: Event) -> Answer {
    if !world.may_be_asked(event) {
        return Answer::NotAsked;
    }
    match world.step(alloc, event) {
        Ok(()) => Answer::Done,
        Err(error) => Answer::Refused(error),
    }
}

/// Adds the answers to a script: those to events that do not happen, each behind its place, and how
/// many happen.
pub fn push_answers<'a, G: Gate>(
    alloc: Global,
    world: &mut World<'a, G>,
    script: &[Event],
    text: &mut String,
) -> Result<(), NoMemory> {
    let mut done: u64 = 0;
    for (place, event) in script.iter().enumerate() {
        match asked(alloc, world, *event) {
            Answer::Done => done = done.saturating_add(1),
            answer => write!(text, "{place} {answer:?}; ")?,
        }
    }
    write!(text, "{done} done")?;
    Ok(())
}

/// Whether the world answers a script so.
pub fn assert_answers(
    rt: &impl Abort,
    alloc: Global,
    script: &[Event],
    wanted: &str,
) -> Result<(), Fail> {
    assert_told(rt, alloc, Story::Answers(script), wanted)
}

/// What happens in a beat, at a reading in microseconds.
pub fn event(beat: Beat, reading: Micros, act: Act) -> Event {
    Event {
        stamp: Stamp { beat, reading },
        act,
    }
}

pub fn get(link: u32, number: u64) -> Act {
    Act::Get {
        link: LinkNo(link),
        number,
    }
}

pub fn tick(node: u32) -> Act {
    Act::Tick(NodeNo(node))
}

pub fn die(cub: u32) -> Act {
    Act::Die(CubNo(cub))
}

#[test]
fn a_message_that_was_not_sent_is_not_next(rt: HostRuntime) -> Result<(), Fail> {
    let script = [event(0, 0, get(0, 0))];
    let wanted = "0 Refused(Fault(NotNext { link: LinkNo(0) })); 0 done";
    assert_answers(&rt, rt.alloc(), &script, wanted)
}

#[test]
fn a_reading_is_within_the_skew(rt: HostRuntime) -> Result<(), Fail> {
    let script = [event(0, 4001, tick(0)), event(0, 4000, tick(0))];
    let wanted = "0 Refused(Fault(ReadingOff { reading: 4001 })); 1 done";
    assert_answers(&rt, rt.alloc(), &script, wanted)
}

#[test]
fn a_node_ticks_once_in_a_beat(rt: HostRuntime) -> Result<(), Fail> {
    let script = [event(0, 0, tick(0)), event(0, 0, tick(0))];
    let wanted = "1 Refused(Fault(Ticked { node: NodeNo(0) })); 1 done";
    assert_answers(&rt, rt.alloc(), &script, wanted)
}

#[test]
fn all_tick_before_the_next_beat(rt: HostRuntime) -> Result<(), Fail> {
    let script = [event(0, 0, tick(0)), event(1, 10000, tick(0))];
    let wanted = "1 Refused(Fault(TickMissed { node: NodeNo(1) })); 1 done";
    assert_answers(&rt, rt.alloc(), &script, wanted)
}

/// The controller is node 16, and link 0 leads from it to cub 0.
#[test]
fn a_message_takes_a_beat(rt: HostRuntime) -> Result<(), Fail> {
    let script = [event(0, 0, tick(16)), event(0, 0, get(0, 0))];
    let wanted = "1 Refused(Fault(TooEarly { sent: 0 })); 1 done";
    assert_answers(&rt, rt.alloc(), &script, wanted)
}

/// Ticks of the first so many nodes in a beat.
pub fn add_ticks(beat: Beat, count: u32, script: &mut Vec<Event>) -> Result<(), NoMemory>
    requires { beat ≤ most_beats }
{
    for node in 0..count {
        script.push(event(beat, beat * 10000, tick(node)))?;
    }
    Ok(())
}

#[test]
fn a_message_takes_no_more_than_the_greatest_delay(rt: HostRuntime) -> Result<(), Fail> {
    let alloc = rt.alloc();
    let mut script = Vec::new(alloc);
    add_ticks(0, 18, &mut script)?;
    add_ticks(1, 18, &mut script)?;
    add_ticks(2, 1, &mut script)?;
    let wanted = "36 Refused(Fault(TooLate { link: LinkNo(0), sent: 0 })); 36 done";
    assert_answers(&rt, alloc, script.as_slice(), wanted)
}

/// The refused event changes nothing: cub 3 stays the only dead one.
#[test]
fn two_neighbours_do_not_die(rt: HostRuntime) -> Result<(), Fail> {
    let script = [
        event(0, 0, die(3)),
        event(0, 0, die(4)),
        event(0, 0, die(3)),
        event(0, 0, die(5)),
    ];
    let wanted = "1 Refused(Fault(NeighbourDead { cub: CubNo(3) })); \
                  2 Refused(Fault(Dead { cub: CubNo(3) })); 2 done";
    assert_answers(&rt, rt.alloc(), &script, wanted)
}

#[test]
fn a_beat_is_not_passed_over(rt: HostRuntime) -> Result<(), Fail> {
    let script = [event(2, 20000, tick(0))];
    let wanted = "0 Refused(Fault(WrongBeat { now: 0 })); 0 done";
    assert_answers(&rt, rt.alloc(), &script, wanted)
}

/// There are 18 nodes, 56 links, 8 cubs and 300 beats.
#[test]
fn what_is_not_of_the_ring_is_not_asked(rt: HostRuntime) -> Result<(), Fail> {
    let script = [
        event(0, 0, tick(18)),
        event(0, 0, get(56, 0)),
        event(0, 0, die(8)),
        event(300, 0, tick(0)),
        event(0, 0, tick(17)),
        event(0, 0, get(55, 0)),
    ];
    let wanted = "0 NotAsked; 1 NotAsked; 2 NotAsked; 3 NotAsked; \
                  5 Refused(Fault(NotNext { link: LinkNo(55) })); 1 done";
    assert_answers(&rt, rt.alloc(), &script, wanted)
}
