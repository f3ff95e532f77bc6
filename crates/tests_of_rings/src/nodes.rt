//! The nodes of a small ring, made and asked through the trait.
ghost use Rattle.std.specs.Prelude.{◌≡◌, ◌≤◌, ℕ, length};
ghost use Rattle.tiger_base.specs.Limits.{most_reading};
ghost use Rattle.slot_plan.specs.declared.params.Params.{Params};
ghost use Rattle.slot_plan.specs.Samples.{small};
ghost use Rattle.slot_plan.specs.Times.{disk_count};
ghost use Rattle.node_kit.specs.Links.{IsInLink};
ghost use Rattle.controller_core.specs.Orders.{AreOrders};
ghost use Rattle.ring_nodes.specs.AllNodes.{AllStand};

use crate::rings::{Story, assert_told};
use disk_image::DiskImage;
use node_kit::{Course, Node, OpenGate, Order, Out, Outbox};
use ring_nodes::{AnyNode, make_nodes};
use std::alloc::{AllocError, Global};
use std::fmt::Write;
use std::test::Fail;
use tiger_base::{LinkNo, Message, Msg, NoMemory, Sequence, Stamp};

const FIRST: Stamp = Stamp {
    beat: 0,
    reading: 0,
};

/// One letter for each kind of node.
fn letter<G>(node: &AnyNode<'_, G>) -> &'static str {
    match node {
        AnyNode::Cub(_) => "c",
        AnyNode::Disk(_) => "d",
        AnyNode::Controller(_) => "o",
        AnyNode::Viewers(_) => "v",
    }
}

/// Ends a beat of a node of any type.
fn ended<M: Message, T: Node<M>>(
    node: &mut T,
    stamp: Stamp,
    out: &mut Outbox<M>,
) -> Result<(), NoMemory>
    requires { stamp.reading ≤ most_reading }
{
    node.tick(stamp, out)
}

/// Hands a message to a node of any type.
fn told<M: Message, T: Node<M>>(
    node: &mut T,
    stamp: Stamp,
    link: LinkNo,
    msg: M,
    out: &mut Outbox<M>,
) -> Result<(), NoMemory>
    requires reading { stamp.reading ≤ most_reading }
    requires in_link { (p : Params) × (n : ℕ) × T.stands_at node.old p n × IsInLink p n link.0 }
{
    node.take(stamp, link, msg, out)
}

/// Adds the links on which messages go out, in their order, and what else is put out.
fn push_outputs(out: &mut Outbox<Msg<'_>>, text: &mut String) -> Result<(), AllocError> {
    while let Some(output) = out.take_first() {
        match output {
            Out::Send(link, _) => write!(text, " {}", link.0)?,
            Out::Act(what) => write!(text, " {what:?}")?,
        }
    }
    Ok(())
}

/// Hands a heartbeat to the viewers of the small plan, which are node 17 and to which link 16
/// leads; and adds their kind and what they put out.
fn push_viewers<'a>(
    alloc: Global,
    nodes: &mut Vec<AnyNode<'a, OpenGate>>,
    text: &mut String,
) -> Result<(), NoMemory>
    requires { AllStand small nodes.old.items }
{
    let mut out: Outbox<Msg> = Outbox::new(alloc);
    let Some(viewers) = nodes.get_mut(17) else {
        return Ok(());
    };
    text.push_str(letter(viewers))?;
    told(viewers, FIRST, LinkNo(16), Msg::Heartbeat, &mut out)?;
    push_outputs(&mut out, text)?;
    Ok(())
}

/// Adds the kinds of all nodes, and what they put out at the end of beat 0.
fn push_ends<'a>(
    alloc: Global,
    nodes: &mut Vec<AnyNode<'a, OpenGate>>,
    text: &mut String,
) -> Result<(), NoMemory> {
    let mut out: Outbox<Msg> = Outbox::new(alloc);
    for node in nodes.iter_mut() {
        text.push_str(letter(node))?;
        ended(node, FIRST, &mut out)?;
    }
    push_outputs(&mut out, text)?;
    Ok(())
}

/// Adds what the viewers do with a heartbeat, and a line of what all nodes do at the end of beat 0.
pub fn push_nodes<'a>(
    alloc: Global,
    course: &Course,
    images: &'a [DiskImage<'a>],
    orders: Sequence<Order>,
    gate: &'a OpenGate,
    text: &mut String,
) -> Result<(), NoMemory>
    requires params { course.now.plan.params ≡ small }
    requires images { length images.now ≡ disk_count course.now.plan.params }
    requires orders { AreOrders course.now.plan.params orders }
{
    let mut nodes = make_nodes(alloc, course, images, orders, gate)?;
    push_viewers(alloc, &mut nodes, text)?;
    text.push_str("\n")?;
    push_ends(alloc, &mut nodes, text)
}

#[test]
fn the_nodes_stand_by_kind_and_act_through_the_trait(rt: HostRuntime) -> Result<(), Fail> {
    let wanted = "v\nccccccccddddddddov 24 26 28 30 32 34 36 38 0 1";
    assert_told(&rt, rt.alloc(), Story::Nodes, wanted)
}
