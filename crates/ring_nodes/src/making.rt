//! The nodes of a run, and the images of its disks.
ghost use Rattle.std.specs.Prelude.{◌≡◌, ◌<◌, ◌*◌, ◌++◌, IfOk, OnOk, length, vec_len};
ghost use Rattle.slot_plan.specs.Times.{disk_count};
ghost use Rattle.disk_image.specs.Image.{HasLengths};
ghost use Rattle.controller_core.specs.Orders.{AreOrders};
ghost use Rattle.ring_nodes.specs.AllNodes.{AllStand, node_count, numbered, each_numbered, opening_cub, opening_disk, opening_nodes, images_of, faults_of};

use crate::nodes::AnyNode;
use controller_core::Controller;
use cub_core::Cub;
use disk_core::DiskNode;
use disk_image::DiskImage;
use node_kit::{Course, Gate, Order, ReadFault};
use slot_plan::Plan;
use std::alloc::Global;
use stripe_layout::Catalogue;
use tiger_base::{CubNo, DiskNo, Library, NoMemory, Sequence};
use viewer_core::Viewers;

/// The images of a plan's disks, by their numbers, each with the blocks and pieces that the layout
/// puts on it.
pub fn make_images<'a>(
    alloc: Global,
    plan: &Plan,
    catalogue: &Catalogue,
    library: &'a Library,
) -> Result<Vec<DiskImage<'a>>, NoMemory>
    requires { HasLengths library.now catalogue.now }
    ensures { IfOk result (λ images. images.items ≡
        images_of plan.now.params catalogue.now library.now) }
{
    let mut images: Vec<DiskImage<'a>> = Vec::new(alloc);
    for disk in 0..(plan.params.cubs * plan.params.disks) as u32 {
        let pieces = plan.params.pieces as u32;
        let image = DiskImage::build(alloc, library, catalogue, pieces, DiskNo(disk))?;
        images.push(image)?;
    }
    Ok(images)
}

/// The nodes of a run by their numbers: the cubs, the disks with their images, the controller with
/// its orders, and the viewers.
pub fn make_nodes<'a, G: Gate>(
    alloc: Global,
    course: &Course,
    images: &'a [DiskImage<'a>],
    orders: Sequence<Order>,
    gate: &'a G,
) -> Result<Vec<AnyNode<'a, G>>, NoMemory>
    requires images { length images.now ≡ disk_count course.now.plan.params }
    requires orders { AreOrders course.now.plan.params orders }
    ensures nodes { IfOk result (λ nodes. nodes.items ≡
        opening_nodes course.now.plan.params course.now.faults images.now orders) }
    ensures count { IfOk result (λ nodes. vec_len nodes ≡ node_count course.now.plan.params) }
    ensures stand { IfOk result (λ nodes. AllStand course.now.plan.params nodes.items) }
{
    let plan = &course.plan;
    let mut nodes: Vec<AnyNode<'a, G>> = Vec::new(alloc);
    add_cubs(alloc, plan, &mut nodes)?;
    add_disks(alloc, course, images, gate, &mut nodes)?;
    nodes.push(AnyNode::Controller(Controller::new(alloc, plan, orders)))?;
    nodes.push(AnyNode::Viewers(Viewers::new(alloc)))?;
    Ok(nodes)
}

/// Adds the cubs of a plan by their numbers.
fn add_cubs<'a, G>(
    alloc: Global,
    plan: &Plan,
    nodes: &mut Vec<AnyNode<'a, G>>,
) -> Result<(), NoMemory>
    ensures { OnOk result (nodes.new.items ≡
        nodes.old.items ++ numbered (opening_cub plan.now.params) plan.now.params.cubs) }
{
    for cub in 0..plan.params.cubs as u32 {
        nodes.push(AnyNode::Cub(Cub::new(alloc, plan, CubNo(cub), 0)))?;
    }
    Ok(())
}

/// Adds the disks of a course by their numbers.
fn add_disks<'a, G: Gate>(
    alloc: Global,
    course: &Course,
    images: &'a [DiskImage<'a>],
    gate: &'a G,
    nodes: &mut Vec<AnyNode<'a, G>>,
) -> Result<(), NoMemory>
    requires { length images.now ≡ disk_count course.now.plan.params }
    ensures { OnOk result (nodes.new.items ≡ nodes.old.items
        ++ each_numbered (opening_disk course.now.plan.params course.now.faults) 0 images.now) }
{
    for place in 0..images.len() {
        let disk = DiskNo(place as u32);
        let faults = faults_of(alloc, disk, course.faults.as_slice())?;
        let node = DiskNode::new(&course.plan, disk, &images[place], faults, gate);
        nodes.push(AnyNode::Disk(node))?;
    }
    Ok(())
}

/// The read faults of a disk.
fn faults_of(
    alloc: Global,
    disk: DiskNo,
    faults: &[ReadFault],
) -> Result<Sequence<ReadFault>, NoMemory>
    ensures { IfOk result (λ mine. mine ≡ faults_of disk.0 faults.now) }
{
    let mut mine = Vec::new(alloc);
    for fault in faults {
        if fault.disk == disk {
            mine.push(*fault)?;
        }
    }
    Ok(Sequence::new(mine))
}
