//! A ring of cubs, disks, a controller and viewers, to which events happen, and which keeps what they write.
ghost use Rattle.std.specs.Prelude.{◌≡◌, Some, None, IfOk, IfErr, OnOk, ◌≤◌, MatchOption, slice_get};
ghost use Rattle.std.specs.Bool.{OnTrue, OnFalse};
ghost use Rattle.tiger_base.specs.Limits.{most_beats};
ghost use Rattle.tiger_base.specs.Notes.{noted};
ghost use Rattle.controller_core.specs.Orders.{AreOrders};
ghost use Rattle.ring_nodes.specs.AllNodes.{any_step, images_of};
ghost use Rattle.ring_world.specs.Faults.{IsEventOf};
ghost use Rattle.ring_world.specs.Machine.{journals_of};
ghost use Rattle.world.specs.Running.{nodes_of, IsCause, IsLeft, HasStepped};

use crate::{Channel, Machine, StepError};
use disk_image::DiskImage;
use node_kit::{Course, Gate, Journal, Order, ReadFault};
use ring_nodes::{AnyNode, make_nodes};
use ring_world::Event;
use slot_plan::Plan;
use std::alloc::Global;
use std::marker::Model;
use stripe_layout::Catalogue;
use tiger_base::{Beat, Library, LinkNo, Msg, NoMemory, NodeNo, Sequence};

/// A ring's nodes, from their opening on. Contracts see it as what it opened with and as the machine of its nodes.
///
/// Whatever happens to it, its events are accepted from its opening on, and its journals are what they write.
#[derive(Drop)]
pub struct World<'a, G: Gate> {
    plan: Plan,
    beats: u64,
    faults: Sequence<ReadFault>,
    orders: Sequence<Order>,
    catalogue: &'a Catalogue,
    library: &'a Library,
    machine: Machine<Msg<'a>, AnyNode<'a, G>>,
}

impl<'a, G: Gate> Model for World<'a, G> {
    ghost use Rattle.world.specs.Worlds.{Worldly, IsWorld};

    ghost Value = { Worldly G };

    ghost view = { λ w. record {
      opening = record {
        params = w.plan.params;
        beats = w.beats;
        faults = w.faults;
        orders = w.orders;
        catalogue = w.catalogue.now;
        library = w.library.now;
      };
      running = w.machine;
    } };

    ghost invariant = { λ w. IsWorld (record {
      opening = record {
        params = w.plan.params;
        beats = w.beats;
        faults = w.faults;
        orders = w.orders;
        catalogue = w.catalogue.now;
        library = w.library.now;
      };
      running = w.machine;
    }) };
}

impl<'a, G: Gate> World<'a, G> {
    ghost use Rattle.world.specs.Worlds.{IsWorld, new_world};

    /// The world of a course's plan, beats and read faults, before the first event; its disks have the blocks of the
    /// library's files. What else the course says plays no part, since the events bring deaths, readings and arrivals.
    pub fn new(
        alloc: Global,
        course: &Course,
        catalogue: &'a Catalogue,
        library: &'a Library,
        orders: Sequence<Order>,
        images: &'a [DiskImage<'a>],
        gate: &'a G,
    ) -> Result<World<'a, G>, NoMemory>
        requires beats { course.now.beats ≤ most_beats }
        requires images { images.now ≡ images_of course.now.plan.params catalogue.now library.now }
        requires orders { AreOrders course.now.plan.params orders }
        ensures { IfOk result (λ w. w ≡ new_world (record {
          params = course.now.plan.params;
          beats = course.now.beats;
          faults = course.now.faults;
          orders = orders;
          catalogue = catalogue.now;
          library = library.now;
        })) }
    {
        let kept = copied(alloc, orders.as_slice())?;
        let faults = copied(alloc, course.faults.as_slice())?;
        let nodes = make_nodes(alloc, course, images, orders, gate)?;
        let machine = Machine::new(alloc, &course.plan, course.beats, nodes)?;
        Ok(World {
            plan: course.plan,
            beats: course.beats,
            faults,
            orders: kept,
            catalogue,
            library,
            machine,
        })
    }

    /// Lets an event happen. A refusal changes nothing. After `NoMemory` the journals and events are as before, and each
    /// later step is `Spoilt`.
    pub fn step(&mut self, alloc: Global, event: Event) -> Result<(), StepError>
        requires { IsEventOf self.old.running.params (nodes_of self.old.running.params) self.old.running.beats event }
        ensures opening { self.new.opening ≡ self.old.opening }
        ensures cause { IfErr result (IsCause self.old.running event) }
        ensures left { IfErr result (IsLeft self.old.running self.new.running) }
        ensures done { OnOk result (HasStepped noted any_step self.old.running event self.new.running) }
    {
        self.machine.step(alloc, event)
    }

    /// Its events are accepted from its opening on, and its journals are what they write.
    pub fn is_what_its_events_make(&self)
        ensures { IsWorld self.now }
    {
        let _opened = self.beats;
    }

    /// Whether an event may be asked of the world.
    pub fn may_be_asked(&self, event: Event) -> bool
        ensures yes { OnTrue result (IsEventOf self.now.running.params
            (nodes_of self.now.running.params) self.now.running.beats event) }
        ensures no { OnFalse result (IsEventOf self.now.running.params
            (nodes_of self.now.running.params) self.now.running.beats event → ⊥) }
    {
        self.machine.may_be_asked(event)
    }

    /// The beat of the last event, or 0.
    pub fn beat(&self) -> Beat
        ensures { result ≡ self.now.running.machine.beat }
    {
        self.machine.beat()
    }

    /// Whether a step had no memory.
    pub fn is_spoilt(&self) -> bool
        ensures { result ≡ self.now.running.spoilt }
    {
        self.machine.is_spoilt()
    }

    /// The events that happened, the oldest first. A refused event is not among them.
    pub fn events(&self) -> &[Event]
        ensures { result.now ≡ self.now.running.machine.events }
    {
        self.machine.events()
    }

    /// The journal of a node; `None` exactly if there is no such node.
    pub fn journal(&self, node: NodeNo) -> Option<&Journal>
        ensures { MatchOption result (slice_get (journals_of self.now.running.machine) node.0 ≡ None)
            (λ j. slice_get (journals_of self.now.running.machine) node.0 ≡ Some j.now) }
    {
        self.machine.journal(node)
    }

    /// A link, with the messages under way on it; `None` exactly if there is no such link.
    pub fn channel(&self, link: LinkNo) -> Option<&Channel<Msg<'a>>>
        ensures { MatchOption result (slice_get self.now.running.machine.ways link.0 ≡ None)
            (λ way. slice_get self.now.running.machine.ways link.0 ≡ Some way.now) }
    {
        self.machine.channel(link)
    }
}

fn copied<X: Copy>(alloc: Global, items: &[X]) -> Result<Sequence<X>, NoMemory>
    ensures { IfOk result (λ copy. copy ≡ items.now) }
{
    Ok(Sequence::new(Vec::from_slice(alloc, items)?))
}
