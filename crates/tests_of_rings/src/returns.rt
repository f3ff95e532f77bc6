//! Scripts of deaths in the middle of an event, and of returns.

use crate::scripts::{add_ticks, assert_answers, die, event, get, tick};
use ring_world::{Act, Last};
use std::test::Fail;
use tiger_base::{CubNo, LinkNo, NodeNo};

fn die_in_get(link: u32, number: u64, sends: u64) -> Act {
    let link = LinkNo(link);
    Act::DieIn {
        last: Last::Get { link, number },
        sends,
    }
}

fn die_in_tick(node: u32, sends: u64) -> Act {
    Act::DieIn {
        last: Last::Tick(NodeNo(node)),
        sends,
    }
}

fn come_back(cub: u32) -> Act {
    Act::Return(CubNo(cub))
}

#[test]
fn a_cub_does_not_return_in_the_beat_of_its_death(rt: HostRuntime) -> Result<(), Fail> {
    let script = [
        event(0, 0, die(3)),
        event(0, 0, die(4)),
        event(0, 0, die(3)),
        event(0, 0, come_back(3)),
    ];
    let wanted = "1 Refused(Fault(NeighbourDead { cub: CubNo(3) })); \
                  2 Refused(Fault(Dead { cub: CubNo(3) })); \
                  3 Refused(Fault(NotBack { cub: CubNo(3) })); 1 done";
    assert_answers(&rt, rt.alloc(), &script, wanted)
}

/// It ticks in the beat of its return, does not return or die again, and its neighbours do not die.
#[test]
fn a_cub_returns_two_beats_behind_its_death_and_once(rt: HostRuntime) -> Result<(), Fail> {
    let alloc = rt.alloc();
    let mut script = Vec::new(alloc);
    script.push(event(0, 0, die(3)))?;
    add_ticks(0, 18, &mut script)?;
    script.push(event(1, 10000, come_back(3)))?;
    add_ticks(1, 18, &mut script)?;
    for act in [come_back(3), tick(3), come_back(3), die(4), die(3)] {
        script.push(event(2, 20000, act))?;
    }
    let wanted = "4 Refused(Fault(Dead { cub: CubNo(3) })); \
                  19 Refused(Fault(NotBack { cub: CubNo(3) })); \
                  23 Refused(Fault(Dead { cub: CubNo(3) })); \
                  40 Refused(Fault(NotBack { cub: CubNo(3) })); \
                  41 Refused(Fault(NeighbourDead { cub: CubNo(3) })); \
                  42 Refused(Fault(Dead { cub: CubNo(3) })); 37 done";
    assert_answers(&rt, alloc, script.as_slice(), wanted)
}

/// Each cub has one heartbeat to send in its first tick: of cub 3 none goes out, and of cub 5 the one. Links 30 and 34
/// lead from these to the next cubs, and link 24 from cub 0 to cub 1; node 16 is the controller.
#[test]
fn a_cub_dies_in_the_middle_of_an_event(rt: HostRuntime) -> Result<(), Fail> {
    let alloc = rt.alloc();
    let mut script = Vec::new(alloc);
    for act in [
        die_in_tick(3, 0),
        die_in_tick(5, 1),
        die_in_tick(4, 1),
        die_in_tick(3, 0),
        come_back(5),
        die_in_tick(16, 0),
    ] {
        script.push(event(0, 0, act))?;
    }
    add_ticks(0, 18, &mut script)?;
    for act in [
        get(30, 0),
        get(34, 0),
        die_in_get(24, 1, 0),
        die_in_get(24, 0, 7),
        tick(1),
    ] {
        script.push(event(1, 10000, act))?;
    }
    let wanted = "2 Refused(Fault(NeighbourDead { cub: CubNo(3) })); \
                  3 Refused(Fault(Dead { cub: CubNo(3) })); \
                  4 Refused(Fault(NotBack { cub: CubNo(5) })); 5 NotAsked; \
                  9 Refused(Fault(Dead { cub: CubNo(3) })); \
                  11 Refused(Fault(Dead { cub: CubNo(5) })); \
                  24 Refused(Fault(NotNext { link: LinkNo(30) })); \
                  26 Refused(Fault(NotNext { link: LinkNo(24) })); \
                  28 Refused(Fault(Dead { cub: CubNo(1) })); 20 done";
    assert_answers(&rt, alloc, script.as_slice(), wanted)
}
