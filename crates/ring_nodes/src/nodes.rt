//! Any node of a ring: one of the four.

use controller_core::Controller;
use cub_core::Cub;
use disk_core::DiskNode;
use node_kit::{Gate, Node, Outbox};
use tiger_base::{LinkNo, Msg, NoMemory, Stamp};
use viewer_core::Viewers;

/// One of the four nodes.
#[derive(Drop)]
pub enum AnyNode<'a, G> {
    Cub(Cub<'a>),
    Disk(DiskNode<'a, G>),
    Controller(Controller),
    Viewers(Viewers<'a>),
}

impl<'a, G: Gate> Node<Msg<'a>> for AnyNode<'a, G> {
    ghost use Rattle.ring_nodes.specs.AllNodes.{any_step, StandsAny};

    ghost step = { any_step };

    ghost stands_at = { StandsAny };

    fn rests(&self, stamp: Stamp) -> bool {
        match self {
            AnyNode::Cub(cub) => cub.rests(stamp),
            AnyNode::Disk(disk) => disk.rests(stamp),
            AnyNode::Controller(controller) => controller.rests(stamp),
            AnyNode::Viewers(viewers) => viewers.rests(stamp),
        }
    }

    fn take(
        &mut self,
        stamp: Stamp,
        link: LinkNo,
        msg: Msg<'a>,
        out: &mut Outbox<Msg<'a>>,
    ) -> Result<(), NoMemory> {
        match self {
            AnyNode::Cub(cub) => cub.take(stamp, link, msg, out),
            AnyNode::Disk(disk) => disk.take(stamp, link, msg, out),
            AnyNode::Controller(controller) => controller.take(stamp, link, msg, out),
            AnyNode::Viewers(viewers) => viewers.take(stamp, link, msg, out),
        }
    }

    fn tick(&mut self, stamp: Stamp, out: &mut Outbox<Msg<'a>>) -> Result<(), NoMemory> {
        match self {
            AnyNode::Cub(cub) => cub.tick(stamp, out),
            AnyNode::Disk(disk) => disk.tick(stamp, out),
            AnyNode::Controller(controller) => controller.tick(stamp, out),
            AnyNode::Viewers(viewers) => viewers.tick(stamp, out),
        }
    }
}
