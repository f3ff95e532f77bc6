//! A run without hostility: in each beat each node takes what came, and ticks.

use node_kit::{Gate, LinkTable};
use ring_world::{Act, Event};
use slot_plan::Plan;
use std::alloc::{AllocError, Global};
use tiger_base::{Beat, LinkNo, NodeNo, Stamp};
use world::World;

/// Plays from the world's beat up to another one, without that, and answers with the number of all
/// events.
pub(crate) fn play<'a, G: Gate>(
    alloc: Global,
    plan: &Plan,
    world: &mut World<'a, G>,
    until: Beat,
    answers: &mut String,
) -> Result<(), AllocError> {
    for beat in world.beat()..until {
        play_beat(alloc, plan, world, beat);
    }
    writeln!(answers, "played {}", world.events().len())
}

fn play_beat<'a, G: Gate>(alloc: Global, plan: &Plan, world: &mut World<'a, G>, beat: Beat) {
    let stamp = Stamp {
        beat,
        reading: beat.saturating_mul(plan.params.beat),
    };
    let links = LinkTable::new(plan);
    for link in 0..links.count() {
        take_all(alloc, world, stamp, LinkNo(link));
    }
    for node in 0..links.nodes() {
        happens(alloc, world, stamp, Act::Tick(NodeNo(node)));
    }
}

/// Takes one message after another from a link, until one may not be taken.
fn take_all<'a, G: Gate>(alloc: Global, world: &mut World<'a, G>, stamp: Stamp, link: LinkNo) {
    for _ in 0..u64::MAX {
        let number = match world.channel(link) {
            Some(channel) => channel.gone(),
            None => return,
        };
        if !happens(alloc, world, stamp, Act::Get { link, number }) {
            return;
        }
    }
}

/// Whether an event was accepted.
fn happens<'a, G: Gate>(alloc: Global, world: &mut World<'a, G>, stamp: Stamp, act: Act) -> bool {
    let event = Event { stamp, act };
    world.may_be_asked(event) && world.step(alloc, event).is_ok()
}
