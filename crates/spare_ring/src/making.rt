//! The nodes of a run in which disks may die.
ghost use Rattle.std.specs.Prelude.{◌≡◌, ◌≤◌, IfOk, length, vec_len};
ghost use Rattle.slot_plan.specs.Times.{disk_count};
ghost use Rattle.controller_core.specs.Orders.{AreOrders};
ghost use Rattle.node_kit.specs.Rows.{AllStand};
ghost use Rattle.ring_nodes.specs.AllNodes.{StandsAny, each_numbered, node_count};
ghost use Rattle.ring_nodes.specs.AllNodes as rings;
ghost use Rattle.spare_ring.specs.Nodes.{StandsAsSpare, beside_deaths, spare_nodes};

use crate::nodes::SpareNode;
use disk_death::{SpareCub, deaths_of};
use disk_image::DiskImage;
use node_kit::{Course, Gate, Order};
use ring_nodes::{AnyNode, make_nodes};
use std::alloc::Global;
use tiger_base::{CubNo, NoMemory, Sequence};

/// The nodes of a run by their numbers: the cubs, each beside the deaths of its disks, the disks with their images, the
/// controller with its orders, and the viewers.
pub fn make_spare_nodes<'a, G: Gate>(
    alloc: Global,
    course: &Course,
    images: &'a [DiskImage<'a>],
    orders: Sequence<Order>,
    gate: &'a G,
) -> Result<Vec<SpareNode<'a, G>>, NoMemory>
    requires images { length images.now ≡ disk_count course.now.plan.params }
    requires orders { AreOrders course.now.plan.params orders }
    ensures nodes { let p = course.now.plan.params in IfOk result (λ nodes. nodes.items ≡
        spare_nodes p course.now.faults course.now.beats images.now orders) }
    ensures count { IfOk result (λ nodes. vec_len nodes ≡ node_count course.now.plan.params) }
    ensures stand { let p = course.now.plan.params in
        IfOk result (λ nodes. AllStand StandsAsSpare p nodes.items) }
{
    let nodes = make_nodes(alloc, course, images, orders, gate)?;
    all_beside_deaths(alloc, course, nodes)
}

/// Any nodes by their numbers, the cubs beside the deaths of their disks.
fn all_beside_deaths<'a, G>(
    alloc: Global,
    course: &Course,
    nodes: Vec<AnyNode<'a, G>>,
) -> Result<Vec<SpareNode<'a, G>>, NoMemory>
    requires stand { rings.AllStand course.now.plan.params nodes.items }
    requires few { vec_len nodes ≤ 1000 }
    ensures nodes { let p = course.now.plan.params in IfOk result (λ made. made.items ≡
        each_numbered (beside_deaths p course.now.faults course.now.beats) 0 nodes.entry.items) }
    ensures count { IfOk result (λ made. vec_len made ≡ vec_len nodes.entry) }
{
    let mut made = Vec::new(alloc);
    for node in nodes {
        made.push(beside_deaths(alloc, course, made.len() as u32, node)?)?;
    }
    Ok(made)
}

/// A node of a number: a cub beside the deaths of its disks, any other node as it is.
fn beside_deaths<'a, G>(
    alloc: Global,
    course: &Course,
    number: u32,
    node: AnyNode<'a, G>,
) -> Result<SpareNode<'a, G>, NoMemory>
    requires { StandsAny node course.now.plan.params number }
    ensures { let p = course.now.plan.params in IfOk result (λ made. made ≡
        beside_deaths p course.now.faults course.now.beats number node.entry) }
{
    match node {
        AnyNode::Cub(cub) => {
            let plan = &course.plan;
            let number = CubNo(number);
            let deaths = deaths_of(alloc, plan, course.faults.as_slice(), course.beats, number)?;
            Ok(SpareNode::Cub(SpareCub::new(alloc, plan, number, cub, deaths)))
        }
        other => Ok(SpareNode::Other(other)),
    }
}
