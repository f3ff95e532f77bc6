//! The events that journals tell.
ghost use Rattle.std.specs.Prelude.{◌≡◌, ◌+◌, ◌≤◌, [], ◌∷◌, ◌++◌, length, map, IfOk, OnOk};
ghost use Rattle.tiger_base.specs.Limits.{most_beats};
ghost use Rattle.node_kit.specs.Courses.{IsCourse};
ghost use Rattle.node_kit.specs.Life.{lifetime_of};
ghost use Rattle.node_kit.specs.Links.{links_of, viewers_of};
ghost use Rattle.kept_worlds.specs.Events.{begin_of_beat, said_in, get_told, end_of_beat, event_in, lost_told, world_events_of};
ghost use Rattle.kept_worlds.specs.Telling.{listed_act, told_in, backs_told, gets_told, ends_told, node_told, nodes_told};

use crate::life_counts::Lives;
use crate::losing::{back_of, sent_before};
use crate::turn::{sends_in_take, sends_in_tick};
use node_kit::{Course, Entry, Journal, Kept, Life, What};
use ring_world::{Act, Event, Last};
use std::alloc::Global;
use tiger_base::{Beat, CubNo, LinkNo, NoMemory, NodeNo, Note};

/// What is kept of a run, as a list of events: for each beat, and in it for each node by number,
/// its return, if that is the beat of it, one get for each message that the node's journal says it
/// got in the beat, in the journal's order, and then one tick, whether the tick wrote an entry or
/// not. A cub that dies apart from any event has its death alone in that beat. If its death comes
/// in an event, that is the last message it got in the beat, if all that it wrote behind may come
/// of it, and else the tick, with as many messages as it says were sent in it. Nothing comes until
/// its return. A message that it gets behind that has as its number how many the journals say were
/// sent on the link in lower beats, and how many it got there since.
///
/// `NoMemory` is the only error.
pub fn world_events(alloc: Global, kept: &Kept) -> Result<Vec<Event>, NoMemory>
    requires course { IsCourse kept.now.course }
    requires journals { length kept.now.journals
        ≡ viewers_of (links_of kept.now.course.plan.params) + 1 }
    ensures { IfOk result (λ events. events.items ≡ world_events_of kept.now) }
{
    let mut events = Vec::new(alloc);
    push_nodes(alloc, &kept.course, kept.journals.as_slice(), &mut events)?;
    // A stable sort keeps the nodes of a beat by number, and the events of a node in their order.
    events.sort_by_key(|event| event.stamp.beat)?;
    Ok(events)
}

fn push_nodes(
    alloc: Global,
    course: &Course,
    journals: &[Journal],
    events: &mut Vec<Event>,
) -> Result<(), NoMemory>
    requires course { IsCourse course.now }
    requires few { length journals.now ≤ 1000 }
    ensures { OnOk result (events.new.items
        ≡ events.old.items
        ++ nodes_told course.now (lost_told course.now journals.now) 0 journals.now) }
{
    for (n, journal) in journals.iter().enumerate() {
        push_node(alloc, course, NodeNo(n as u32), journals, journal, events)?;
    }
    Ok(())
}

fn push_node(
    alloc: Global,
    course: &Course,
    node: NodeNo,
    journals: &[Journal],
    journal: &Journal,
    events: &mut Vec<Event>,
) -> Result<(), NoMemory>
    requires { IsCourse course.now }
    ensures { OnOk result (events.new.items
        ≡ events.old.items
        ++ node_told course.now node.0 (lost_told course.now journals.now node.0) journal.now) }
{
    let life = Life::new(course, node);
    let entries = journal.as_slice();
    push_backs(course, node, &life, events)?;
    push_gets(alloc, course, node, &life, journals, entries, events)?;
    push_ends(course, node, &life, entries, events)
}

fn push_backs(
    course: &Course,
    node: NodeNo,
    life: &Life,
    events: &mut Vec<Event>,
) -> Result<(), NoMemory>
    requires course { IsCourse course.now }
    requires life { life.now ≡ lifetime_of course.now node.0 }
    ensures { OnOk result (events.new.items
        ≡ events.old.items ++ backs_told course.now node.0 0 course.now.beats) }
{
    for beat in 0..course.beats {
        push_back(course, node, life, beat, events)?;
    }
    Ok(())
}

fn push_back(
    course: &Course,
    node: NodeNo,
    life: &Life,
    beat: Beat,
    events: &mut Vec<Event>,
) -> Result<(), NoMemory>
    requires course { IsCourse course.now }
    requires early { beat ≤ most_beats }
    requires life { life.now ≡ lifetime_of course.now node.0 }
    ensures { OnOk result (events.new.items
        ≡ events.old.items
        ++ map (event_in course.now node.0 beat) (begin_of_beat course.now node.0 beat)) }
{
    if !life.returns(beat) {
        return Ok(());
    }
    let stamp = course.stamp(node, beat);
    let act = Act::Return(CubNo(node.0));
    events.push(Event { stamp, act })?;
    Ok(())
}

fn push_gets(
    alloc: Global,
    course: &Course,
    node: NodeNo,
    life: &Life,
    journals: &[Journal],
    journal: &[Entry],
    events: &mut Vec<Event>,
) -> Result<(), NoMemory>
    requires course { IsCourse course.now }
    requires life { life.now ≡ lifetime_of course.now node.0 }
    ensures { OnOk result (events.new.items
        ≡ events.old.items
        ++ gets_told course.now node.0 (lost_told course.now journals.now node.0) [] journal.now) }
{
    let back = back_of(course, node);
    let lost = sent_before(alloc, back, journals)?;
    let mut lives = Lives::new(alloc, back, lost);
    for (place, entry) in journal.iter().enumerate() {
        if let What::Got(link, message) = entry.what {
            let beat = entry.stamp.beat;
            let number = lives.next(link, beat)?;
            let behind = &journal[place + 1..];
            let act = get_act(course, node, life, beat, link, &message, number, behind);
            push_in(course, node, beat, act, events)?;
        }
    }
    Ok(())
}

/// A message got, with these entries behind it: the death comes in its take if it comes in an event
/// of the beat and all that they say in it may come of the take.
fn get_act(
    course: &Course,
    node: NodeNo,
    life: &Life,
    beat: Beat,
    link: LinkNo,
    message: &Note,
    number: u64,
    behind: &[Entry],
) -> Act
    requires { life.now ≡ lifetime_of course.now node.0 }
    ensures { result ≡ get_told course.now node.0 beat link message.now number behind.now }
{
    if life.ends_in(beat) {
        if let Some(sends) = sends_in_take(message, beat, behind) {
            let last = Last::Get { link, number };
            return Act::DieIn { last, sends };
        }
    }
    Act::Get { link, number }
}

fn push_ends(
    course: &Course,
    node: NodeNo,
    life: &Life,
    journal: &[Entry],
    events: &mut Vec<Event>,
) -> Result<(), NoMemory>
    requires course { IsCourse course.now }
    requires life { life.now ≡ lifetime_of course.now node.0 }
    ensures { OnOk result (events.new.items
        ≡ events.old.items ++ ends_told course.now node.0 journal.now 0 course.now.beats) }
{
    for beat in 0..course.beats {
        push_end(course, node, life, beat, journal, events)?;
    }
    Ok(())
}

fn push_end(
    course: &Course,
    node: NodeNo,
    life: &Life,
    beat: Beat,
    journal: &[Entry],
    events: &mut Vec<Event>,
) -> Result<(), NoMemory>
    requires course { IsCourse course.now }
    requires early { beat ≤ most_beats }
    requires life { life.now ≡ lifetime_of course.now node.0 }
    ensures { OnOk result (events.new.items
        ≡ events.old.items
        ++ map (event_in course.now node.0 beat)
        (end_of_beat course.now node.0 beat (said_in beat journal.now))) }
{
    let Some(act) = end_act(course, node, life, beat, journal) else {
        return Ok(());
    };
    let stamp = course.stamp(node, beat);
    events.push(Event { stamp, act })?;
    Ok(())
}

/// How a node ends a beat, if it does not end in a take.
fn end_act(course: &Course, node: NodeNo, life: &Life, beat: Beat, journal: &[Entry]) -> Option<Act>
    requires { life.now ≡ lifetime_of course.now node.0 }
    ensures { end_of_beat course.now node.0 beat (said_in beat journal.now) ≡ listed_act result }
{
    if life.ends_in(beat) {
        let sends = sends_in_tick(beat, journal)?;
        let last = Last::Tick(node);
        return Some(Act::DieIn { last, sends });
    }
    if life.acts(beat) {
        return Some(Act::Tick(node));
    }
    if life.dies(beat) {
        return Some(Act::Die(CubNo(node.0)));
    }
    None
}

/// The event, unless its beat is none of the course's.
fn push_in(
    course: &Course,
    node: NodeNo,
    beat: Beat,
    act: Act,
    events: &mut Vec<Event>,
) -> Result<(), NoMemory>
    requires { IsCourse course.now }
    ensures { OnOk result (events.new.items
        ≡ events.old.items ++ told_in course.now node.0 beat (act ∷ [])) }
{
    if beat >= course.beats {
        return Ok(());
    }
    let stamp = course.stamp(node, beat);
    events.push(Event { stamp, act })?;
    Ok(())
}
