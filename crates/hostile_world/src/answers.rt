//! What a world answers to an event, and what can be seen of it, as text.

use node_kit::{Gate, LinkTable, What};
use ring_world::{Act, Event, Last, StepFault};
use slot_plan::Plan;
use std::alloc::{AllocError, Global};
use tiger_base::{Beat, LinkNo, Micros, Msg, NodeNo};
use world::{Channel, StepError, World};

/// Answers an event: `done`, the world's mark, and the links on which the node sent; `refused`, the
/// mark, and the cause; or `not asked`, if the world has no such beat, link, node or cub.
pub(crate) fn answer<'a, G: Gate>(
    alloc: Global,
    plan: &Plan,
    world: &mut World<'a, G>,
    event: Event,
    answers: &mut String,
) -> Result<(), AllocError> {
    if !world.may_be_asked(event) {
        return answers.push_str("not asked\n");
    }
    let node = receiver(plan, event.act);
    let written = entry_count(world, node);
    let stepped = world.step(alloc, event);
    let mark = mark_of(plan, world);
    match stepped {
        Ok(()) => {
            write!(answers, "done {mark}")?;
            push_sent(world, node, written, answers)?;
        }
        Err(error) => {
            write!(answers, "refused {mark} ")?;
            push_cause(error, answers)?;
        }
    }
    answers.push_str("\n")
}

/// The node to which a link leads, that ticks, that dies, or that returns.
fn receiver(plan: &Plan, act: Act) -> NodeNo {
    match act {
        Act::Get { link, .. } => end_of(plan, link),
        Act::Tick(node) => node,
        Act::Die(cub) => NodeNo(cub.0),
        Act::DieIn { last, .. } => match last {
            Last::Get { link, .. } => end_of(plan, link),
            Last::Tick(node) => node,
        },
        Act::Return(cub) => NodeNo(cub.0),
    }
}

fn end_of(plan: &Plan, link: LinkNo) -> NodeNo {
    match LinkTable::new(plan).ends(link) {
        Some((_, to)) => to,
        None => NodeNo(0),
    }
}

/// How many entries the journal of a node has.
fn entry_count<'a, G: Gate>(world: &World<'a, G>, node: NodeNo) -> usize {
    match world.journal(node) {
        Some(journal) => journal.as_slice().len(),
        None => 0,
    }
}

/// Adds the link of each message that a node sent behind so many entries of its journal.
fn push_sent<'a, G: Gate>(
    world: &World<'a, G>,
    node: NodeNo,
    written: usize,
    answers: &mut String,
) -> Result<(), AllocError> {
    let Some(journal) = world.journal(node) else {
        return Ok(());
    };
    for entry in journal.as_slice().iter().skip(written) {
        if let What::Sent(link, _) = entry.what {
            write!(answers, " {}", link.0)?;
        }
    }
    Ok(())
}

/// Adds why no step was made: the name and the numbers of the fault.
fn push_cause(error: StepError, answers: &mut String) -> Result<(), AllocError> {
    match error {
        StepError::Spoilt => answers.push_str("Spoilt"),
        StepError::NoMemory => answers.push_str("NoMemory"),
        StepError::Fault(fault) => push_fault(fault, answers),
    }
}

fn push_fault(fault: StepFault, answers: &mut String) -> Result<(), AllocError> {
    match fault {
        StepFault::WrongBeat { now } => write!(answers, "WrongBeat {now}"),
        StepFault::TickMissed { node } => write!(answers, "TickMissed {}", node.0),
        StepFault::Dead { cub } => write!(answers, "Dead {}", cub.0),
        StepFault::NotBack { cub } => write!(answers, "NotBack {}", cub.0),
        StepFault::Ticked { node } => write!(answers, "Ticked {}", node.0),
        StepFault::ReadingOff { reading } => write!(answers, "ReadingOff {reading}"),
        StepFault::NotNext { link } => write!(answers, "NotNext {}", link.0),
        StepFault::TooEarly { sent } => write!(answers, "TooEarly {sent}"),
        StepFault::TooLate { link, sent } => write!(answers, "TooLate {} {sent}", link.0),
        StepFault::NeighbourDead { cub } => write!(answers, "NeighbourDead {}", cub.0),
    }
}

/// What a mark begins with.
const FIRST_MARK: u64 = 1;

/// A world's mark, a checksum of what can be seen of it: its beat, each event that happened, how
/// long each journal is, how many messages are gone from each link, and when the oldest there was
/// sent. If one of these numbers changes, so does the mark.
pub(crate) fn mark_of<'a, G: Gate>(plan: &Plan, world: &World<'a, G>) -> u64 {
    let links = LinkTable::new(plan);
    let mut mark = with_events(mixed(FIRST_MARK, world.beat()), world.events());
    for node in 0..links.nodes() {
        mark = mixed(mark, entry_count(world, NodeNo(node)) as u64);
    }
    for link in 0..links.count() {
        if let Some(channel) = world.channel(LinkNo(link)) {
            mark = mixed(mixed(mark, channel.gone()), oldest_in(channel));
        }
    }
    mark
}

/// A mark with all events more, and with their number.
fn with_events(mark: u64, events: &[Event]) -> u64 {
    let mut mark = mixed(mark, events.len() as u64);
    for event in events {
        mark = with_event(mark, *event);
    }
    mark
}

/// A mark with one event more: its beat and its reading, which kind it is, and its numbers.
fn with_event(mark: u64, event: Event) -> u64 {
    let mark = mixed(mixed(mark, event.stamp.beat), event.stamp.reading);
    match event.act {
        Act::Get { link, number } => with_numbers(mark, 0, u64::from(link.0), number),
        Act::Tick(node) => with_numbers(mark, 1, u64::from(node.0), 0),
        Act::Die(cub) => with_numbers(mark, 2, u64::from(cub.0), 0),
        Act::Return(cub) => with_numbers(mark, 3, u64::from(cub.0), 0),
        Act::DieIn { last, sends } => mixed(with_last(mark, last), sends),
    }
}

fn with_last(mark: u64, last: Last) -> u64 {
    match last {
        Last::Get { link, number } => with_numbers(mark, 4, u64::from(link.0), number),
        Last::Tick(node) => with_numbers(mark, 5, u64::from(node.0), 0),
    }
}

fn with_numbers(mark: u64, kind: u64, of: u64, number: u64) -> u64 {
    mixed(mixed(mixed(mark, kind), of), number)
}

/// One more than the beat in which the oldest message under way was sent; 0 if none is.
fn oldest_in<'a>(channel: &Channel<Msg<'a>>) -> u64 {
    match channel.oldest() {
        Some(posted) => posted.sent().saturating_add(1),
        None => 0,
    }
}

/// A mark with one number more.
fn mixed(mark: u64, number: u64) -> u64 {
    (mark ^ number)
        .wrapping_mul(0x9e3779b97f4a7c15)
        .rotate_left(29)
}

/// Adds the world's events as the lines that ask for them, and then each link: how many messages
/// are gone from it, and one more than the beat in which the oldest under way was sent, or 0.
pub(crate) fn show<'a, G: Gate>(
    plan: &Plan,
    world: &World<'a, G>,
    answers: &mut String,
) -> Result<(), AllocError> {
    for event in world.events() {
        push_event(*event, answers)?;
    }
    for link in 0..LinkTable::new(plan).count() {
        if let Some(channel) = world.channel(LinkNo(link)) {
            writeln!(answers, "link {} {}", channel.gone(), oldest_in(channel))?;
        }
    }
    Ok(())
}

fn push_event(event: Event, answers: &mut String) -> Result<(), AllocError> {
    let beat = event.stamp.beat;
    let reading = event.stamp.reading;
    match event.act {
        Act::Get { link, number } => {
            writeln!(answers, "get {beat} {reading} {} {number}", link.0)
        }
        Act::Tick(node) => writeln!(answers, "tick {beat} {reading} {}", node.0),
        Act::Die(cub) => writeln!(answers, "die {beat} {reading} {}", cub.0),
        Act::DieIn { last, sends } => push_ending(beat, reading, last, sends, answers),
        Act::Return(cub) => writeln!(answers, "return {beat} {reading} {}", cub.0),
    }
}

fn push_ending(
    beat: Beat,
    reading: Micros,
    last: Last,
    sends: u64,
    answers: &mut String,
) -> Result<(), AllocError> {
    match last {
        Last::Get { link, number } => {
            writeln!(
                answers,
                "die_in_get {beat} {reading} {} {number} {sends}",
                link.0
            )
        }
        Last::Tick(node) => writeln!(answers, "die_in_tick {beat} {reading} {} {sends}", node.0),
    }
}
