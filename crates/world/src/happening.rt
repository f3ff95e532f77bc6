//! An event that may happen, once its node is found: a message is taken from its link, and the node lives through it.
ghost use Rattle.std.specs.Prelude.{◌≡◌, ◌≤◌, OnOk, OnErr, vec_len};
ghost use Rattle.tiger_base.specs.Limits.{most_beats, most_reading};
ghost use Rattle.world.specs.Living.{StandsAt};
ghost use Rattle.world.specs.Moving.{HasLink, CanEnd, HasTaken, IsReadyFor, IsReady, HasLivedIn, HasEndedIn, HasMoved, journals_in};

use crate::channel::Channel;
use crate::dropping::drop_lost;
use crate::events;
use crate::member::Member;
use node_kit::Node;
use ring_world::{Act, Event, Last};
use slot_plan::Plan;
use std::alloc::Global;
use tiger_base::{LinkNo, Message, NoMemory, NodeNo, Stamp};

/// Lets an event happen to the node of a number. Without memory for it the journals stay as they were, and nothing
/// else is claimed.
pub fn happen<M: Message, T: Node<M>>(
    alloc: Global,
    plan: &Plan,
    event: Event,
    node: NodeNo,
    members: &mut Vec<Member<T>>,
    channels: &mut Vec<Channel<M>>,
) -> Result<(), NoMemory>
    requires { IsReady T.stands_at node.0 event members.old.items channels.old.items }
    ensures moved { OnOk result (HasMoved M.note_of T.step T.stands_at plan.now.params node.0 event
        members.old.items members.new.items channels.old.items channels.new.items) }
    ensures journals { OnErr result (journals_in members.new.items ≡ journals_in members.old.items) }
{
    let member = &mut members[node.0 as usize];
    happen_to(alloc, plan, event, node, member, channels)
}

/// The same to a node.
fn happen_to<M: Message, T: Node<M>>(
    alloc: Global,
    plan: &Plan,
    event: Event,
    node: NodeNo,
    member: &mut Member<T>,
    channels: &mut Vec<Channel<M>>,
) -> Result<(), NoMemory>
    requires { IsReadyFor T.stands_at event member.old channels.old.items }
    ensures lived { OnOk result (HasLivedIn M.note_of T.step T.stands_at plan.now.params node.0 event
        member.old member.new channels.old.items channels.new.items) }
    ensures journal { OnErr result (member.new.past.journal ≡ member.old.past.journal) }
{
    match event.act {
        Act::Get { link, .. } => take_next(alloc, event.stamp, link, None, member, channels),
        Act::Tick(_) => events::tick(alloc, event.stamp, None, member, channels),
        Act::Die(_) => events::die(event.stamp, member),
        Act::DieIn { last, sends } => end_in(alloc, event.stamp, last, sends, member, channels),
        Act::Return(_) => {
            drop_lost(plan, node, event.stamp.beat, channels)?;
            events::come_back(event.stamp, member);
            Ok(())
        }
    }
}

/// The node dies in an event of which so many messages go out.
fn end_in<M: Message, T: Node<M>>(
    alloc: Global,
    stamp: Stamp,
    last: Last,
    sends: u64,
    member: &mut Member<T>,
    channels: &mut Vec<Channel<M>>,
) -> Result<(), NoMemory>
    requires { CanEnd T.stands_at stamp last member.old channels.old.items }
    ensures lived { OnOk result (HasEndedIn M.note_of T.step T.stands_at stamp last sends
        member.old member.new channels.old.items channels.new.items) }
    ensures journal { OnErr result (member.new.past.journal ≡ member.old.past.journal) }
{
    match last {
        Last::Get { link, .. } => take_next(alloc, stamp, link, Some(sends), member, channels),
        Last::Tick(_) => events::tick(alloc, stamp, Some(sends), member, channels),
    }
}

/// The node takes the oldest message of a link; of its messages so many go out if it dies in that.
fn take_next<M: Message, T: Node<M>>(
    alloc: Global,
    stamp: Stamp,
    link: LinkNo,
    sends: Option<u64>,
    member: &mut Member<T>,
    channels: &mut Vec<Channel<M>>,
) -> Result<(), NoMemory>
    requires beat { stamp.beat ≤ most_beats }
    requires reading { stamp.reading ≤ most_reading }
    requires stands { StandsAt T.stands_at (vec_len channels.old) link.0 member.old.past.state }
    requires link { HasLink channels.old.items link.0 }
    ensures lived { OnOk result (HasTaken M.note_of T.step T.stands_at stamp link sends
        member.old member.new channels.old.items channels.new.items) }
    ensures journal { OnErr result (member.new.past.journal ≡ member.old.past.journal) }
{
    let channel = &mut channels[link.0 as usize];
    match channel.take() {
        Some(msg) => events::take(alloc, stamp, link, msg, sends, member, channels),
        // There is one, unless the event has a fault or the count is at its end.
        None => Err(NoMemory),
    }
}
