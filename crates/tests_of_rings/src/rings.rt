//! A ring of the small plan with one file, of whose nodes and worlds tests tell.
ghost use Rattle.std.specs.Prelude.{◌≡◌, ◌≤◌, ◌∷◌, [], IfOk, length, map};
ghost use Rattle.tiger_base.specs.Limits.{most_beats};
ghost use Rattle.slot_plan.specs.Samples.{small};
ghost use Rattle.disk_image.specs.Image.{HasLengths};
ghost use Rattle.node_kit.specs.declared.course.OrderKind.TheVariants.{Begin, Finish};
ghost use Rattle.ring_nodes.specs.AllNodes.{images_of};

use crate::nodes::push_nodes;
use crate::overtaken::push_overtaken;
use crate::scripts::push_answers;
use disk_image::DiskImage;
use link_timing::Delay;
use node_kit::{Course, OpenGate, Order, OrderKind, ReadFault};
use ring_nodes::make_images;
use ring_world::Event;
use slot_plan::small_plan;
use std::alloc::Global;
use std::process::Abort;
use std::test::Fail;
use stripe_layout::{Catalogue, FileInfo};
use tiger_base::{Ask, DiskNo, FileNo, Instance, Library, NoMemory, Sequence};
use world::World;

/// The start of a viewer of the whole file.
fn ask() -> Ask
    ensures disk { result.disk.0 ≡ 0 }
    ensures instance { result.instance.0 ≡ 0 }
{
    Ask {
        instance: Instance(0),
        file: FileNo(0),
        count: 64,
        disk: DiskNo(0),
    }
}

/// The order to start the viewer in beat 0, and the orders to stop it in beat 1 and once more in
/// beat 2.
fn orders(alloc: Global, ask: Ask) -> Result<Sequence<Order>, NoMemory>
    ensures { IfOk result (λ orders. orders ≡ record { beat = 0; what = Begin ask }
        ∷ record { beat = 1; what = Finish (record { 0 = 0 }) }
        ∷ record { beat = 2; what = Finish (record { 0 = 0 }) } ∷ []) }
{
    let mut orders = Vec::new(alloc);
    orders.push(Order {
        beat: 0,
        what: OrderKind::Begin(ask),
    })?;
    orders.push(Order {
        beat: 1,
        what: OrderKind::Finish(Instance(0)),
    })?;
    orders.push(Order {
        beat: 2,
        what: OrderKind::Finish(Instance(0)),
    })?;
    Ok(Sequence::new(orders))
}

/// A course on which disk 3 cannot be read for a beat.
fn course(alloc: Global) -> Result<Course, NoMemory>
    ensures params { IfOk result (λ c. c.plan.params ≡ small) }
    ensures beats { IfOk result (λ c. c.beats ≡ 300) }
{
    let mut faults = Vec::new(alloc);
    faults.push(ReadFault {
        disk: DiskNo(3),
        from: 5,
        until: 6,
    })?;
    Ok(Course {
        plan: small_plan(),
        beats: 300,
        offsets: Sequence::new(Vec::new(alloc)),
        deaths: Sequence::new(Vec::new(alloc)),
        cuts: Sequence::new(Vec::new(alloc)),
        backs: Sequence::new(Vec::new(alloc)),
        faults: Sequence::new(faults),
        delay: Delay::Fixed(1),
    })
}

/// One file of 256 bytes, the first block of which is on disk 0.
fn catalogue(alloc: Global) -> Result<Catalogue, NoMemory>
    ensures { IfOk result (λ c. map (λ info. info.len) c.files ≡ 256 ∷ []) }
{
    let mut files = Vec::new(alloc);
    files.push(FileInfo {
        len: 256,
        disk: DiskNo(0),
    })?;
    Ok(Catalogue {
        files: Sequence::new(files),
        block: 4,
        disks: 8,
    })
}

/// That file.
fn library(alloc: Global) -> Result<Library, NoMemory>
    ensures { IfOk result (λ library. map (λ bytes. length bytes) library ≡ 256 ∷ []) }
{
    let mut files = Vec::new(alloc);
    files.push(vec![in alloc; b'a'; 256]?)?;
    Ok(Library::new(files))
}

/// What is told of the ring.
#[derive(Clone, Copy)]
pub enum Story<'s> {
    /// What its viewers do with a heartbeat, and all nodes at the end of beat 0.
    Nodes,
    /// What its world answers to events.
    Answers(&'s [Event]),
    /// What its cubs write if a stop overtakes what a dead cub sent.
    Overtaken,
}

fn push_story<'a>(
    alloc: Global,
    course: &Course,
    catalogue: &'a Catalogue,
    library: &'a Library,
    images: &'a [DiskImage<'a>],
    gate: &'a OpenGate,
    story: Story<'_>,
    text: &mut String,
) -> Result<(), NoMemory>
    requires params { course.now.plan.params ≡ small }
    requires beats { course.now.beats ≤ most_beats }
    requires images { images.now ≡ images_of course.now.plan.params catalogue.now library.now }
{
    let orders = orders(alloc, ask())?;
    if let Story::Nodes = story {
        return push_nodes(alloc, course, images, orders, gate, text);
    }
    let mut world = World::new(alloc, course, catalogue, library, orders, images, gate)?;
    match story {
        Story::Answers(script) => push_answers(alloc, &mut world, script, text),
        _ => push_overtaken(alloc, &mut world, text),
    }
}

fn push_of_files(
    alloc: Global,
    catalogue: &Catalogue,
    library: &Library,
    story: Story<'_>,
    text: &mut String,
) -> Result<(), NoMemory>
    requires { HasLengths library.now catalogue.now }
{
    let course = course(alloc)?;
    let images = make_images(alloc, &course.plan, catalogue, library)?;
    push_story(
        alloc,
        &course,
        catalogue,
        library,
        images.as_slice(),
        &OpenGate,
        story,
        text,
    )
}

fn told(alloc: Global, story: Story<'_>) -> Result<String, NoMemory> {
    let catalogue = catalogue(alloc)?;
    let library = library(alloc)?;
    let mut text = String::new(alloc);
    push_of_files(alloc, &catalogue, &library, story, &mut text)?;
    Ok(text)
}

/// Asserts what is told of the ring.
pub fn assert_told(
    rt: &impl Abort,
    alloc: Global,
    story: Story<'_>,
    wanted: &str,
) -> Result<(), Fail> {
    let text = told(alloc, story)?;
    assert_eq!(rt; text.as_str(), wanted);
    Ok(())
}
