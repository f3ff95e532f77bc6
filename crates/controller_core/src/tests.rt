//! A start of a file of three blocks on a ring of eight cubs, and its stops.
ghost use Rattle.std.specs.Prelude.{◌≡◌, ◌≤◌, ◌*◌, ℕ, ◌∷◌, [], IfOk};
ghost use Rattle.tiger_base.specs.Limits.{most_beats, most_reading};
ghost use Rattle.slot_plan.specs.declared.params.Params.{Params};
ghost use Rattle.node_kit.specs.Links.{IsInLink};
ghost use Rattle.node_kit.specs.declared.course.OrderKind.TheVariants.{Begin, Finish};

use crate::Controller;
use node_kit::{Node, Order, OrderKind, Out, Outbox, What};
use slot_plan::small_plan;
use std::alloc::Global;
use std::test::Fail;
use tiger_base::{
    Ask, Beat, DiskNo, FileNo, Instance, LinkNo, Message, Msg, NoMemory, Sequence, SlotNo, Stamp,
    Tag, Tenancy, Visit,
};

fn ask() -> Ask
    ensures instance { result.instance.0 ≡ 0 }
    ensures disk { result.disk.0 ≡ 7 }
{
    Ask {
        instance: Instance(0),
        file: FileNo(0),
        count: 3,
        disk: DiskNo(7),
    }
}

/// A start in beat 0, and two stops of it.
fn start_and_stops(
    alloc: Global,
    ask: Ask,
    first: Beat,
    second: Beat,
) -> Result<Sequence<Order>, NoMemory>
    ensures { IfOk result (λ orders. orders ≡
        record { beat = 0; what = Begin ask }
        ∷ record { beat = first; what = Finish (record { 0 = 0 }) }
        ∷ record { beat = second; what = Finish (record { 0 = 0 }) }
        ∷ []) }
{
    let mut orders = Vec::new(alloc);
    orders.push(Order {
        beat: 0,
        what: OrderKind::Begin(ask),
    })?;
    orders.push(Order {
        beat: first,
        what: OrderKind::Finish(Instance(0)),
    })?;
    orders.push(Order {
        beat: second,
        what: OrderKind::Finish(Instance(0)),
    })?;
    Ok(Sequence::new(orders))
}

/// A controller that starts instance 0 in beat 0 and stops it twice.
fn controller(alloc: Global, first: Beat, second: Beat) -> Result<Controller, NoMemory>
    requires { first ≤ second }
    ensures { IfOk result (λ c. (c.params.cubs ≡ 8) × (c.params.disks ≡ 1)) }
{
    let orders = start_and_stops(alloc, ask(), first, second)?;
    Ok(Controller::new(alloc, &small_plan(), orders))
}

/// Where the start was put: in slot 1, from visit 7 on.
fn tenancy(first: Visit) -> Tenancy {
    Tenancy {
        instance: Instance(0),
        file: FileNo(0),
        slot: SlotNo(1),
        first,
        last: first.saturating_add(2),
    }
}

/// What the controller puts out in a beat.
#[derive(Debug, PartialEq, Eq, Drop)]
enum Said {
    Start(LinkNo, bool),
    Deschedule(LinkNo, Option<Tag>),
    Gone(Instance),
    Other,
}

fn read_output<'a>(out: Out<Msg<'a>>) -> Said {
    match out {
        Out::Send(link, Msg::Start { redundant, .. }) => Said::Start(link, redundant),
        Out::Send(link, Msg::Deschedule { tag, .. }) => Said::Deschedule(link, tag),
        Out::Act(What::Gone(instance)) => Said::Gone(instance),
        _ => Said::Other,
    }
}

fn at(beat: Beat) -> Stamp
    requires { beat ≤ most_beats }
    ensures { result.reading ≤ most_reading }
{
    Stamp {
        beat,
        reading: beat * 10000,
    }
}

/// The outputs, of which at most ten are looked at.
fn read_outputs<'a>(alloc: Global, mut out: Outbox<Msg<'a>>) -> Result<Vec<Said>, NoMemory> {
    let mut all = Vec::new(alloc);
    for _ in 0..10 {
        if let Some(output) = out.take_first() {
            all.push(read_output(output))?;
        }
    }
    Ok(all)
}

/// What is put out in two beats where two stops are ordered, once the start is known to be placed
/// from a visit on, if it is.
fn said_in(
    alloc: Global,
    stops: (Beat, Beat),
    placed: Option<Visit>,
    one: Beat,
    other: Beat,
) -> Result<Vec<Said>, NoMemory>
    requires stops { stops.0 ≤ stops.1 }
    requires one { one ≤ most_beats }
    requires other { other ≤ most_beats }
{
    let mut controller = controller(alloc, stops.0, stops.1)?;
    if let Some(first) = placed {
        controller.hear(&Msg::Placed(tenancy(first)))?;
    }
    let mut out: Outbox<Msg> = Outbox::new(alloc);
    controller.command(at(one), &mut out)?;
    controller.command(at(other), &mut out)?;
    read_outputs(alloc, out)
}

/// The start is sent to two cubs.
fn started() -> [Said; 2] {
    [Said::Start(LinkNo(7), false), Said::Start(LinkNo(0), true)]
}

/// The instance is gone, and two cubs are told.
fn gone(first: u32, second: u32, tag: Option<Tag>) -> [Said; 3] {
    [
        Said::Gone(Instance(0)),
        Said::Deschedule(LinkNo(first), tag),
        Said::Deschedule(LinkNo(second), tag),
    ]
}

fn tag(visit: Visit) -> Option<Tag> {
    Some(Tag {
        slot: SlotNo(1),
        visit,
    })
}

#[test]
fn a_start_goes_to_two_cubs_in_its_beat(rt: HostRuntime) -> Result<(), Fail> {
    let said = said_in(rt.alloc(), (2, 3), None, 0, 1)?;
    assert_eq!(rt; said.as_slice(), started().as_slice());
    Ok(())
}

#[test]
fn a_stop_goes_to_the_visit_that_is_due(rt: HostRuntime) -> Result<(), Fail> {
    let early = said_in(rt.alloc(), (100, 1000), Some(7), 1, 100)?;
    assert_eq!(rt; early.as_slice(), gone(7, 0, tag(7)).as_slice());
    let just_before = said_in(rt.alloc(), (849, 1000), Some(7), 1, 849)?;
    assert_eq!(rt; just_before.as_slice(), gone(7, 0, tag(7)).as_slice());
    let just_due = said_in(rt.alloc(), (850, 1000), Some(7), 1, 850)?;
    assert_eq!(rt; just_due.as_slice(), gone(0, 1, tag(8)).as_slice());
    Ok(())
}

#[test]
fn a_stop_before_the_place_is_known_has_no_tag(rt: HostRuntime) -> Result<(), Fail> {
    let said = said_in(rt.alloc(), (0, 1000), None, 0, 1)?;
    assert_eq!(rt; said.len(), 5);
    assert_eq!(rt; &said[..2], started().as_slice());
    assert_eq!(rt; &said[2..], gone(7, 0, None).as_slice());
    Ok(())
}

#[test]
fn a_second_stop_does_nothing(rt: HostRuntime) -> Result<(), Fail> {
    let said = said_in(rt.alloc(), (100, 150), Some(0), 100, 150)?;
    assert_eq!(rt; said.as_slice(), gone(0, 1, tag(0)).as_slice());
    Ok(())
}

#[test]
fn a_stop_behind_the_last_visit_does_nothing(rt: HostRuntime) -> Result<(), Fail> {
    let late = said_in(rt.alloc(), (349, 400), Some(0), 350, 400)?;
    assert!(rt; late.is_empty());
    let said = said_in(rt.alloc(), (349, 400), Some(0), 349, 400)?;
    assert_eq!(rt; said.as_slice(), gone(2, 3, tag(2)).as_slice());
    Ok(())
}

#[test]
fn the_first_place_stays(rt: HostRuntime) -> Result<(), Fail> {
    let mut controller = controller(rt.alloc(), 100, 150)?;
    let wrong = Tenancy {
        slot: SlotNo(16),
        ..tenancy(0)
    };
    controller.hear(&Msg::Placed(wrong))?;
    controller.hear(&Msg::Heartbeat)?;
    assert!(rt; controller.tenancy(Instance(0)).is_none());
    controller.hear(&Msg::Placed(tenancy(7)))?;
    controller.hear(&Msg::Placed(tenancy(15)))?;
    assert!(rt; controller.tenancy(Instance(0)) == Some(tenancy(7)));
    assert!(rt; controller.tenancy(Instance(1)).is_none());
    Ok(())
}

/// Hands a message to a node of any type, and ends its beat.
fn told<M: Message, T: Node<M>>(
    node: &mut T,
    stamp: Stamp,
    link: LinkNo,
    msg: M,
    out: &mut Outbox<M>,
) -> Result<(), NoMemory>
    requires reading { stamp.reading ≤ most_reading }
    requires in_link { (p : Params) × (n : ℕ) × T.stands_at node.old p n × IsInLink p n link.0 }
{
    node.take(stamp, link, msg, out)?;
    node.tick(stamp, out)
}

#[test]
fn a_controller_acts_through_the_trait(rt: HostRuntime) -> Result<(), Fail> {
    let alloc = rt.alloc();
    let plan = small_plan();
    let orders = start_and_stops(alloc, ask(), 2, 3)?;
    let mut controller = Controller::new(alloc, &plan, orders);
    let mut out = Outbox::new(alloc);
    let stamp = Stamp {
        beat: 2,
        reading: 20000,
    };
    told(
        &mut controller,
        stamp,
        LinkNo(8),
        Msg::Placed(tenancy(0)),
        &mut out,
    )?;
    assert!(rt; matches!(out.take_first(), Some(Out::Act(What::Gone(Instance(0))))));
    assert!(rt; out.take_first().is_some());
    assert!(rt; out.take_first().is_some());
    assert!(rt; out.take_first().is_none());
    Ok(())
}
