//! Any node of a ring whose disks may die: a cub that knows of it, or one of the other nodes.

use disk_death::SpareCub;
use node_kit::{Gate, Node, Outbox};
use ring_nodes::AnyNode;
use tiger_base::{LinkNo, Msg, NoMemory, Stamp};

/// A cub whose disks may die, or another node of a ring.
#[derive(Drop)]
pub enum SpareNode<'a, G> {
    Cub(SpareCub<'a>),
    Other(AnyNode<'a, G>),
}

impl<'a, G: Gate> Node<Msg<'a>> for SpareNode<'a, G> {
    ghost use Rattle.spare_ring.specs.Nodes.{spare_node_step, StandsAsSpare};

    ghost step = { spare_node_step };

    ghost stands_at = { StandsAsSpare };

    fn rests(&self, stamp: Stamp) -> bool {
        match self {
            SpareNode::Cub(cub) => cub.rests(stamp),
            SpareNode::Other(node) => node.rests(stamp),
        }
    }

    fn take(
        &mut self,
        stamp: Stamp,
        link: LinkNo,
        msg: Msg<'a>,
        out: &mut Outbox<Msg<'a>>,
    ) -> Result<(), NoMemory> {
        match self {
            SpareNode::Cub(cub) => cub.take(stamp, link, msg, out),
            SpareNode::Other(node) => node.take(stamp, link, msg, out),
        }
    }

    fn tick(&mut self, stamp: Stamp, out: &mut Outbox<Msg<'a>>) -> Result<(), NoMemory> {
        match self {
            SpareNode::Cub(cub) => cub.tick(stamp, out),
            SpareNode::Other(node) => node.tick(stamp, out),
        }
    }
}
