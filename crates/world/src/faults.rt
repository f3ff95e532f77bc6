//! Why an event may not happen, but for what the node's own marks and the link tell.
ghost use Rattle.std.specs.Prelude.{◌≡◌, ℕ, ◌+◌, ◌<◌, ◌≤◌, Some, None, length, if◌then◌else◌, slice_get};
ghost use Rattle.tiger_base.specs.Limits.{most_beats};
ghost use Rattle.node_kit.specs.Links.{links_of, link_count, ends_of, leads_to};
ghost use Rattle.std.specs.Option.{option_or};
ghost use Rattle.ring_world.specs.Faults.{beat_fault, least_behind, missed_fault, get_fault, take_fault, last_take_fault, least_late, late_in, late_fault, last_late_fault, has_died, beside_fault, neighbour_fault, death_fault, IsActOf, IsLastOf};
ghost use Rattle.ring_world.specs.Machine.{node_of_last};
ghost use Rattle.world.specs.Posting.{IsInOrder, AreInOrder};

use crate::channel::Channel;
use crate::member::Member;
use crate::receiver::last_receiver;
use node_kit::LinkTable;
use ring_world::{Act, Event, Last, StepFault};
use slot_plan::Plan;
use tiger_base::{Beat, CubNo, LinkNo, NodeNo};

/// The beat is neither the machine's, which is `now`, nor the next one.
pub fn beat_fault(now: Beat, beat: Beat) -> Option<StepFault>
    requires { now ≤ most_beats }
    ensures { result ≡ beat_fault now beat }
{
    if beat == now || beat == now + 1 {
        None
    } else {
        Some(StepFault::WrongBeat { now })
    }
}

/// The beat is the next one, and a node that lives has not ticked in the machine's.
pub fn missed_fault<T>(now: Beat, beat: Beat, members: &[Member<T>]) -> Option<StepFault>
    requires now { now ≤ most_beats }
    requires few { length members.now ≤ 1000 }
    ensures { result ≡ missed_fault now beat members.now }
{
    if beat == now + 1 {
        least_behind(now, members)
    } else {
        None
    }
}

fn least_behind<T>(now: Beat, members: &[Member<T>]) -> Option<StepFault>
    requires { length members.now ≤ 1000 }
    ensures { result ≡ least_behind now 0 members.now }
{
    for n in 0..members.len() {
        if members[n].is_behind(now) {
            return Some(StepFault::TickMissed {
                node: NodeNo(n as u32),
            });
        }
    }
    None
}

/// The node is to tick, and a message to it is under way that was sent the greatest delay before or
/// earlier.
fn tick_fault<M>(
    plan: &Plan,
    node: NodeNo,
    beat: Beat,
    channels: &[Channel<M>],
) -> Option<StepFault>
    requires few { length channels.now ≤ 4000 }
    requires order { AreInOrder channels.now }
    ensures { result ≡ least_late plan.now.params node.0 beat 0 channels.now }
{
    let links = LinkTable::new(plan);
    for l in 0..channels.len() {
        let late = late_on(plan, &links, node, LinkNo(l as u32), beat, &channels[l]);
        if late.is_some() {
            return late;
        }
    }
    None
}

/// The same on one link.
fn late_on<M>(
    plan: &Plan,
    links: &LinkTable,
    node: NodeNo,
    link: LinkNo,
    beat: Beat,
    channel: &Channel<M>,
) -> Option<StepFault>
    requires { IsInOrder channel.now }
    ensures { result ≡ (if leads_to node.0 (ends_of links.now link.0)
        then late_in link.0 plan.now.params.delay beat channel.now.under_way else None) }
{
    // Few links have a message that is late for any tick, so that is asked first.
    let late = channel.late_fault(link, plan.params.delay, beat)?;
    match links.ends(link) {
        Some((_, to)) if to == node => Some(late),
        _ => None,
    }
}

/// A neighbour of a cub has died.
fn die_fault<T>(plan: &Plan, cub: CubNo, members: &[Member<T>]) -> Option<StepFault>
    requires { cub.0 < plan.now.params.cubs }
    ensures { result ≡ neighbour_fault plan.now.params members.now cub.0 }
{
    let cubs = plan.params.cubs as u32;
    let after = (cub.0 + 1) % cubs;
    let before = if cub.0 == 0 { cubs - 1 } else { cub.0 - 1 };
    beside_fault(before.min(after), before.max(after), members)
}

fn beside_fault<T>(a: u32, b: u32, members: &[Member<T>]) -> Option<StepFault>
    ensures { result ≡ beside_fault members.now a b }
{
    if has_died(a, members) {
        Some(StepFault::NeighbourDead { cub: CubNo(a) })
    } else if has_died(b, members) {
        Some(StepFault::NeighbourDead { cub: CubNo(b) })
    } else {
        None
    }
}

fn has_died<T>(node: u32, members: &[Member<T>]) -> bool
    ensures { result ≡ has_died (slice_get members.now node) }
{
    match members.get(node as usize) {
        Some(member) => member.has_died(),
        None => false,
    }
}

/// What may not be taken, would come too late, or may not die.
pub fn act_fault<M, T>(
    plan: &Plan,
    event: Event,
    members: &[Member<T>],
    channels: &[Channel<M>],
) -> Option<StepFault>
    requires few { length channels.now ≤ 4000 }
    requires order { AreInOrder channels.now }
    requires act { IsActOf plan.now.params (length members.now) event.act }
    requires links { length channels.now ≡ link_count (links_of plan.now.params) }
    ensures { result ≡ option_or (take_fault channels.now event.stamp.beat event.act)
        (option_or (late_fault plan.now.params channels.now event.stamp.beat event.act)
        (death_fault plan.now.params members.now event.act)) }
{
    match event.act {
        Act::Get { link, number } => {
            channels[link.0 as usize].take_fault(link, number, event.stamp.beat)
        }
        Act::Tick(node) => tick_fault(plan, node, event.stamp.beat, channels),
        Act::Die(cub) => die_fault(plan, cub, members),
        Act::DieIn { last, .. } => last_fault(plan, event.stamp.beat, last, members, channels),
        Act::Return(_) => None,
    }
}

/// The same of an event in which a cub's death comes.
fn last_fault<M, T>(
    plan: &Plan,
    beat: Beat,
    last: Last,
    members: &[Member<T>],
    channels: &[Channel<M>],
) -> Option<StepFault>
    requires few { length channels.now ≤ 4000 }
    requires order { AreInOrder channels.now }
    requires last { IsLastOf plan.now.params last }
    requires links { length channels.now ≡ link_count (links_of plan.now.params) }
    ensures { result ≡ option_or (last_take_fault channels.now beat last)
        (option_or (last_late_fault plan.now.params channels.now beat last)
        (neighbour_fault plan.now.params members.now (node_of_last plan.now.params last))) }
{
    let beside = die_fault(plan, CubNo(last_receiver(plan, last).0), members);
    match last {
        Last::Get { link, number } => first_of(
            channels[link.0 as usize].take_fault(link, number, beat),
            beside,
        ),
        Last::Tick(node) => first_of(tick_fault(plan, node, beat, channels), beside),
    }
}

/// The first of two faults, if there is one.
fn first_of(one: Option<StepFault>, other: Option<StepFault>) -> Option<StepFault>
    ensures { result ≡ option_or one other }
{
    match one {
        Some(fault) => Some(fault),
        None => other,
    }
}
