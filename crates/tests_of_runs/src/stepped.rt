//! What is kept of a run by several workers, told as events and stepped through a world of the same nodes.
ghost use Rattle.std.specs.Prelude.{◌≡◌, ◌≤◌, length, All};
ghost use Rattle.scenario_read.specs.Sound.{IsScenario};

use crate::runs::{LONG, ONE, SMALL, Setting, one, scenario_of};
use crate::told::More;
use kept_worlds::world_events;
use node_kit::{Gate, Journal, Kept, OpenGate};
use ring_nodes::make_images;
use ring_world::{Act, Event};
use scenario_read::{Scenario, catalogue_of, orders_of};
use std::alloc::Global;
use std::sync::Wait;
use std::test::Fail;
use std::thread::Threads;
use tiger_base::{Library, NodeNo};
use tiger_run::run_ring;
use world::World;

/// Three workers.
const BY_THREE: Setting = Setting {
    plan: SMALL,
    files: ONE,
    first: LONG,
    second: b"",
    workers: 3,
    instances: 0,
    visits: 0,
    more: More::Nothing,
};

/// Two viewers, one of which is stopped, and the deaths of cubs 3 and 6.
const TWO_DEATHS: &str =
    r#""links":{"fixed":1},"beats":600,"events":[{"beat":0,"start":0},{"beat":0,"start":0},{"beat":400,"stop":1}],"deaths":[{"cub":3,"beat":200},{"cub":6,"beat":300}]"#;

/// How many events are ticks, deaths and messages that are taken.
fn counts_of(events: &[Event]) -> (u64, u64, u64) {
    let mut ticks: u64 = 0;
    let mut deaths: u64 = 0;
    let mut gets: u64 = 0;
    for event in events {
        match event.act {
            Act::Tick(_) => ticks = ticks.saturating_add(1),
            Act::Die(_) | Act::DieIn { .. } => deaths = deaths.saturating_add(1),
            Act::Return(_) => {}
            Act::Get { .. } => gets = gets.saturating_add(1),
        }
    }
    (ticks, deaths, gets)
}

/// How many events a world refuses, if each is asked of it in turn.
fn refused_by<'a, G: Gate>(alloc: Global, world: &mut World<'a, G>, events: &[Event]) -> u64 {
    let mut refused: u64 = 0;
    for event in events {
        if !world.may_be_asked(*event) || world.step(alloc, *event).is_err() {
            refused = refused.saturating_add(1);
        }
    }
    refused
}

/// How many journals of a world are other than these.
fn others<'a, G: Gate>(world: &World<'a, G>, journals: &[Journal]) -> u64 {
    let mut others: u64 = 0;
    let mut node: u32 = 0;
    for journal in journals {
        let is_same = match world.journal(NodeNo(node)) {
            Some(own) => own.as_slice() == journal.as_slice(),
            None => false,
        };
        if !is_same {
            others = others.saturating_add(1);
        }
        node = node.saturating_add(1);
    }
    others
}

/// Steps a world of a scenario's nodes through events, and adds how many it refused and how many journals are then
/// other than those that are kept.
fn push_stepped(
    alloc: Global,
    scenario: &Scenario,
    library: &Library,
    events: &[Event],
    k: &Kept,
    told: &mut String,
) -> Result<(), Fail>
    requires scenario { IsScenario scenario.now }
    requires files { length library.now ≡ length scenario.now.files }
    requires filled { All (λ bytes. 1 ≤ length bytes) library.now }
{
    let course = &scenario.course;
    let catalogue = catalogue_of(alloc, scenario, library)?;
    let orders = orders_of(alloc, scenario, &catalogue)?;
    let images = make_images(alloc, &course.plan, &catalogue, library)?;
    let images = images.as_slice();
    let mut world = World::new(
        alloc, course, &catalogue, library, orders, images, &OpenGate,
    )?;
    let refused = refused_by(alloc, &mut world, events);
    let others = others(&world, k.journals.as_slice());
    Ok(write!(told, "{refused} refused {others} others")?)
}

/// Runs the scenario, and steps a world through what is kept of it.
fn told<R: Threads + Wait + Sync>(rt: &R, alloc: Global) -> Result<String, Fail> {
    let library = one(alloc, BY_THREE.first)?;
    let scenario = scenario_of(alloc, &BY_THREE, TWO_DEATHS, 1)?;
    let again = scenario_of(alloc, &BY_THREE, TWO_DEATHS, 1)?;
    let k = run_ring(rt, alloc, scenario, &library, &OpenGate, BY_THREE.workers)?;
    let events = world_events(alloc, &k)?;
    let events = events.as_slice();
    let (ticks, deaths, gets) = counts_of(events);
    let mut told = format!(in alloc; "{ticks} ticks {deaths} deaths {} ", gets > 0)?;
    push_stepped(alloc, &again, &library, events, &k, &mut told)?;
    Ok(told)
}

/// Sixteen nodes tick in 600 beats, cub 3 in 200, and cub 6 in 300.
#[test]
fn a_kept_run_is_what_a_world_makes_of_its_events(rt: HostRuntime) -> Result<(), Fail> {
    let told = told(&rt, rt.alloc())?;
    assert_eq!(rt;
        told.as_str(),
        "10100 ticks 2 deaths true 0 refused 0 others"
    );
    Ok(())
}
