//! In which share each node is, and in which order the members of a share have their turns.
ghost use Rattle.std.specs.Prelude.{◌≡◌, ◌+◌, ◌<◌, ◌≤◌, ◌++◌, get_or, IfOk, OnOk};
ghost use Rattle.node_kit.specs.Links.{controller_of, viewers_of};
ghost use Rattle.ring_workers.specs.Sharing.{members_in, members_of};

use node_kit::LinkTable;
use std::alloc::Global;
use tiger_base::{NoMemory, NodeNo};

/// How many shares there are: one for each worker, up to the number of cubs.
pub(crate) fn share_count(workers: u32, cubs: u32) -> u32 {
    workers.min(cubs).max(1)
}

/// The share of each node by number: arcs of about as many cubs, each cub with its disks. The controller and the viewers
/// are in share 0.
pub(crate) fn homes_of(
    alloc: Global,
    cubs: u32,
    links: &LinkTable,
    shares: u32,
) -> Result<Vec<u32>, NoMemory> {
    let controller = links.controller().0;
    let mut homes = Vec::new(alloc);
    for node in 0..links.nodes() {
        let home = if node < controller {
            arc_of(node.checked_rem(cubs).unwrap_or(0), cubs, shares)
        } else {
            0
        };
        homes.push(home)?;
    }
    Ok(homes)
}

// The arc in which a cub is. One arc ends with cub 0 and another one begins with cub 1, so that their disks are in two
// shares if there are two.
fn arc_of(cub: u32, cubs: u32, shares: u32) -> u32 {
    let place = cub
        .saturating_add(cubs.saturating_sub(1))
        .checked_rem(cubs)
        .unwrap_or(0);
    place.saturating_mul(shares).checked_div(cubs).unwrap_or(0)
}

/// The share in which a node is; 0 if there is no such node.
pub(crate) fn home_at(homes: &[u32], node: NodeNo) -> u32
    ensures { result ≡ get_or homes.now node.0 0 }
{
    homes.get(node.0 as usize).copied().unwrap_or(0)
}

/// The members of a share, in the order of their turns: its cubs, the controller, its disks, the viewers.
// Links that leave a share begin at cubs and at the controller. When all of these have had their turns in a beat, it is
// closed on all links that leave, so that the other shares go on while the disks work.
pub(crate) fn members(
    alloc: Global,
    cubs: u32,
    links: &LinkTable,
    homes: &[u32],
    share: u32,
) -> Result<Vec<NodeNo>, NoMemory>
    requires { cubs ≤ controller_of links.now }
    ensures { IfOk result (λ r. r.items ≡ members_of links.now cubs homes.now share) }
{
    let controller = links.controller().0;
    let viewers = links.viewers().0;
    let mut numbers = Vec::new(alloc);
    add_members(0, cubs, homes, share, &mut numbers)?;
    add_members(controller, viewers, homes, share, &mut numbers)?;
    add_members(cubs, controller, homes, share, &mut numbers)?;
    add_members(viewers, links.nodes(), homes, share, &mut numbers)?;
    Ok(numbers)
}

// Adds those of the nodes from the one number up to but not with the other that are in a share.
fn add_members(
    first: u32,
    last: u32,
    homes: &[u32],
    share: u32,
    numbers: &mut Vec<NodeNo>,
) -> Result<(), NoMemory>
    requires { first ≤ last }
    ensures { OnOk result
        (numbers.new.items ≡ numbers.old.items ++ members_in homes.now share first last) }
{
    for node in first..last {
        if home_at(homes, NodeNo(node)) == share {
            numbers.push(NodeNo(node))?;
        }
    }
    Ok(())
}
