//! What is lost when a node returns: all messages under way to it that were sent in lower beats.
ghost use Rattle.std.specs.Prelude.{◌≡◌, ◌≤◌, OnOk, length, if◌then◌else◌};
ghost use Rattle.node_kit.specs.Links.{links_of, ends_of, leads_to};
ghost use Rattle.ring_world.specs.Machine.{each_at, dropped};
ghost use Rattle.world.specs.Dropping.{freed};
ghost use Rattle.world.specs.Posting.{IsInOrder, AreInOrder};

use crate::channel::{Channel, drop_below};
use node_kit::LinkTable;
use slot_plan::Plan;
use tiger_base::{Beat, LinkNo, NoMemory, NodeNo};

/// Loses what was sent below a beat on each link to a node.
pub fn drop_lost<M: Drop>(
    plan: &Plan,
    node: NodeNo,
    beat: Beat,
    channels: &mut Vec<Channel<M>>,
) -> Result<(), NoMemory>
    requires few { length channels.old.items ≤ 4000 }
    requires order { AreInOrder channels.old.items }
    ensures { OnOk result (channels.new.items
        ≡ each_at (freed plan.now.params node.0 beat) 0 channels.old.items) }
{
    let links = LinkTable::new(plan);
    for l in 0..channels.len() {
        drop_on(&links, node, LinkNo(l as u32), beat, &mut channels[l])?;
    }
    Ok(())
}

/// The same on one link.
fn drop_on<M: Drop>(
    links: &LinkTable,
    node: NodeNo,
    link: LinkNo,
    beat: Beat,
    channel: &mut Channel<M>,
) -> Result<(), NoMemory>
    requires { IsInOrder channel.old }
    ensures { OnOk result (channel.new ≡ (if leads_to node.0 (ends_of links.now link.0)
        then dropped beat channel.old else channel.old)) }
{
    match links.ends(link) {
        Some((_, to)) if to == node => drop_below(channel, beat),
        _ => Ok(()),
    }
}
