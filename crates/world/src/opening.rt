//! What a machine begins with: nodes to which nothing has happened, and links on which nothing was sent.
ghost use Rattle.std.specs.Prelude.{◌≡◌, IfOk, map};
ghost use Rattle.ring_world.specs.Machine.{being, empty_ways};

use crate::channel::Channel;
use crate::member::Member;
use std::alloc::Global;
use tiger_base::NoMemory;

/// The nodes, by number.
pub fn all_members<T: Drop>(alloc: Global, nodes: Vec<T>) -> Result<Vec<Member<T>>, NoMemory>
    ensures { IfOk result (λ members. members.items ≡ map being nodes.items) }
{
    let mut members = Vec::new(alloc);
    for node in nodes {
        members.push(Member::new(alloc, node))?;
    }
    Ok(members)
}

/// So many links.
#[tactic(auto, using(crate::proofs::Openings::one_way_more))]
pub fn all_channels<M: Drop>(alloc: Global, count: u32) -> Result<Vec<Channel<M>>, NoMemory>
    ensures { IfOk result (λ channels. channels.items ≡ empty_ways count) }
{
    let mut channels = Vec::new(alloc);
    for _link in 0..count {
        channels.push(Channel::new(alloc))?;
    }
    Ok(channels)
}
