//! Rings of three cubs with four quanta each and a capacity of ten, event by event.
ghost use Rattle.std.specs.Prelude.{◌≡◌, ◌<◌, ◌≤◌, IfOk};
ghost use Rattle.net_schedule.specs.Samples.{four};

use net_schedule::{NetEvent, NetState, NetStop, NetWorld};
use std::alloc::Global;
use std::test::Fail;
use tiger_base::{CubNo, Instance, NoMemory};

fn ring(alloc: Global) -> Result<NetWorld, NoMemory>
    ensures { IfOk result (λ w. w.ring ≡ four) }
{
    NetWorld::new(alloc, 3, 4, 10)
}

/// Asks for an entry; whether that was done.
fn asks(w: &mut NetWorld, number: u32, at: u32, rate: u64) -> bool
    requires ring { w.old.ring ≡ four }
    requires at { at < 12 }
    requires some { 1 ≤ rate }
    requires few { rate ≤ 10 }
    ensures { w.new.ring ≡ four }
{
    let instance = Instance(number);
    w.step(NetEvent::Ask { instance, at, rate }).is_ok()
}

fn stops(w: &mut NetWorld, number: u32) -> bool
    requires { w.old.ring ≡ four }
    ensures { w.new.ring ≡ four }
{
    let instance = Instance(number);
    w.step(NetEvent::Stop { instance }).is_ok()
}

fn renews(w: &mut NetWorld, cub: u32) -> bool
    requires ring { w.old.ring ≡ four }
    requires cub { cub < 3 }
    ensures { w.new.ring ≡ four }
{
    w.step(NetEvent::Renew { cub: CubNo(cub) }).is_ok()
}

fn delivers(w: &mut NetWorld, number: u64) -> bool
    requires { w.old.ring ≡ four }
    ensures { w.new.ring ≡ four }
{
    w.step(NetEvent::Deliver { number }).is_ok()
}

/// Cub 1 carries 6 of the entry of cub 0 when it is asked for 5 more at quantum 5, and at quantum 6.
fn fill(w: &mut NetWorld) -> bool
    requires { w.old.ring ≡ four }
    ensures { w.new.ring ≡ four }
{
    let asked = asks(w, 0, 2, 6);
    let kept = delivers(w, 0);
    let confirmed = delivers(w, 1);
    let full = asks(w, 1, 5, 5);
    let fits = asks(w, 2, 6, 5);
    let kept_too = delivers(w, 2);
    let confirmed_too = delivers(w, 3);
    asked && kept && confirmed && full && fits && kept_too && confirmed_too
}

#[test]
fn an_entry_is_full_where_its_cub_keeps_quanta_for_another(rt: HostRuntime) -> Result<(), Fail> {
    let mut w = ring(rt.alloc())?;
    assert!(rt; fill(&mut w));
    assert_eq!(rt; w.state(Instance(0)), Some(NetState::Placed));
    assert_eq!(rt;
        w.state(Instance(1)),
        Some(NetState::Full { quantum: 5, sum: 6 })
    );
    assert_eq!(rt; w.state(Instance(2)), Some(NetState::Placed));
    assert_eq!(rt; w.state(Instance(3)), None);
    Ok(())
}

/// Cub 1 places an entry of its own before cub 0 asks it for another at the same quantum.
fn overtake(w: &mut NetWorld) -> bool
    requires { w.old.ring ≡ four }
    ensures { w.new.ring ≡ four }
{
    let placed = asks(w, 0, 4, 8);
    let asked = asks(w, 1, 2, 3);
    let refused = delivers(w, 0);
    let told = delivers(w, 1);
    placed && asked && refused && told
}

#[test]
fn an_entry_is_refused_where_the_successor_has_one(rt: HostRuntime) -> Result<(), Fail> {
    let mut w = ring(rt.alloc())?;
    assert!(rt; overtake(&mut w));
    assert_eq!(rt; w.state(Instance(0)), Some(NetState::Placed));
    assert_eq!(rt;
        w.state(Instance(1)),
        Some(NetState::Refused { quantum: 4, sum: 8 })
    );
    Ok(())
}

/// An entry is placed and stopped, and the successor uses the room for its own.
fn free(w: &mut NetWorld) -> bool
    requires { w.old.ring ≡ four }
    ensures { w.new.ring ≡ four }
{
    let asked = asks(w, 0, 2, 6);
    let kept = delivers(w, 0);
    let placed = delivers(w, 1);
    let stopped = stops(w, 0);
    let released = delivers(w, 2);
    let again = asks(w, 1, 5, 5);
    let kept_on = delivers(w, 3);
    asked && kept && placed && stopped && released && again && kept_on
}

#[test]
fn a_stopped_entry_leaves_its_quanta(rt: HostRuntime) -> Result<(), Fail> {
    let mut w = ring(rt.alloc())?;
    assert!(rt; free(&mut w));
    assert_eq!(rt; w.state(Instance(0)), Some(NetState::Stopped));
    assert_eq!(rt; w.state(Instance(1)), Some(NetState::Waiting));
    assert_eq!(rt; w.sent().len(), 5);
    assert_eq!(rt; w.events().len(), 7);
    Ok(())
}

/// The Reserve is lost, and sent again.
fn lose(w: &mut NetWorld) -> bool
    requires { w.old.ring ≡ four }
    ensures { w.new.ring ≡ four }
{
    let asked = asks(w, 0, 2, 6);
    let renewed = renews(w, 0);
    let kept = delivers(w, 1);
    let placed = delivers(w, 2);
    asked && renewed && kept && placed
}

#[test]
fn what_is_lost_is_made_good_by_a_renewal(rt: HostRuntime) -> Result<(), Fail> {
    let mut w = ring(rt.alloc())?;
    assert!(rt; lose(&mut w));
    assert_eq!(rt; w.state(Instance(0)), Some(NetState::Placed));
    Ok(())
}

fn wrong_delivery(w: &mut NetWorld) -> Option<NetStop>
    requires { w.old.ring ≡ four }
{
    w.step(NetEvent::Deliver { number: 0 }).err()
}

fn wrong_ask(w: &mut NetWorld) -> Option<NetStop>
    requires { w.old.ring ≡ four }
{
    let _asked = asks(w, 0, 2, 6);
    let instance = Instance(0);
    w.step(NetEvent::Ask {
        instance,
        at: 7,
        rate: 1,
    })
    .err()
}

#[test]
fn what_was_not_sent_or_is_asked_twice_is_not_done(rt: HostRuntime) -> Result<(), Fail> {
    let mut w = ring(rt.alloc())?;
    assert_eq!(rt; wrong_delivery(&mut w), Some(NetStop::NeverSent));
    let mut w = ring(rt.alloc())?;
    assert_eq!(rt; wrong_ask(&mut w), Some(NetStop::Used));
    Ok(())
}
