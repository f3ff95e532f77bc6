//! The node to which an event happens.
ghost use Rattle.std.specs.Prelude.{◌≡◌};
ghost use Rattle.std.specs.Bool.{OnTrue, OnFalse};
ghost use Rattle.ring_world.specs.Faults.{IsActOf, IsLastOf};
ghost use Rattle.ring_world.specs.Machine.{node_of, node_of_last, receiver};
ghost use Rattle.node_kit.specs.Links.{links_of, ends_of};
ghost use Rattle.world.specs.Running.{nodes_of};

use node_kit::LinkTable;
use ring_world::{Act, Last};
use slot_plan::Plan;
use tiger_base::{LinkNo, NodeNo};

/// The node to which a link leads, that ticks, that dies, or that returns.
pub fn receiver(plan: &Plan, act: Act) -> NodeNo
    ensures { result.0 ≡ node_of plan.now.params act }
{
    match act {
        Act::Get { link, .. } => end_of(plan, link),
        Act::Tick(node) => node,
        Act::Die(cub) => NodeNo(cub.0),
        Act::DieIn { last, .. } => last_receiver(plan, last),
        Act::Return(cub) => NodeNo(cub.0),
    }
}

/// The node to which an event happens in which a death comes.
pub fn last_receiver(plan: &Plan, last: Last) -> NodeNo
    ensures { result.0 ≡ node_of_last plan.now.params last }
{
    match last {
        Last::Get { link, .. } => end_of(plan, link),
        Last::Tick(node) => node,
    }
}

fn end_of(plan: &Plan, link: LinkNo) -> NodeNo
    ensures { result.0 ≡ receiver (ends_of (links_of plan.now.params) link.0) }
{
    match LinkTable::new(plan).ends(link) {
        Some((_, to)) => to,
        None => NodeNo(0),
    }
}

/// Whether there is such a link, node or cub, and a death comes to a cub alone.
pub fn is_act_of(plan: &Plan, act: Act) -> bool
    ensures yes { OnTrue result (IsActOf plan.now.params (nodes_of plan.now.params) act) }
    ensures no { OnFalse result (IsActOf plan.now.params (nodes_of plan.now.params) act → ⊥) }
{
    match act {
        Act::Get { link, .. } => match LinkTable::new(plan).ends(link) {
            Some(_) => true,
            None => false,
        },
        Act::Tick(node) => node.0 < LinkTable::new(plan).nodes(),
        Act::Die(cub) => u64::from(cub.0) < plan.params.cubs,
        Act::DieIn { last, .. } => is_last_of(plan, last),
        Act::Return(cub) => u64::from(cub.0) < plan.params.cubs,
    }
}

fn is_last_of(plan: &Plan, last: Last) -> bool
    ensures yes { OnTrue result (IsLastOf plan.now.params last) }
    ensures no { OnFalse result (IsLastOf plan.now.params last → ⊥) }
{
    match last {
        Last::Get { link, .. } => match LinkTable::new(plan).ends(link) {
            Some((_, to)) => (to.0 as u64) < plan.params.cubs,
            None => false,
        },
        Last::Tick(node) => u64::from(node.0) < plan.params.cubs,
    }
}
