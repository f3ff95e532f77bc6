//! Times of two plans, beside values that were worked out by hand.
ghost use Rattle.std.specs.Prelude.{◌≡◌};
ghost use Rattle.slot_plan.specs.Conditions.{IsInRange};

use slot_plan::{Params, Plan, PlanFault, small_plan};
use std::process::Abort;
use tiger_base::{CubNo, DiskNo, SlotNo};

const LARGE: Params = Params {
    cubs: 14,
    disks: 4,
    slots: 602,
    play: 1000000,
    pieces: 4,
    block: 4,
    beat: 10000,
    delay: 2,
    skew: 4000,
    window_a: 800000,
    window_b: 200000,
    read_lead: 100000,
    min_lead: 4000000,
    max_lead: 9000000,
    batch: 20,
    heart: 50,
    deadman: 2000000,
    hold: 3000000,
};

// The plan with these numbers, whose conditions all hold.
fn plan_of(rt: &impl Abort, params: Params) -> Plan
    requires { IsInRange params }
    ensures { result.params ≡ params }
{
    match Plan::new(params) {
        Ok(plan) => plan,
        Err(_) => panic!(rt; "a condition is false"),
    }
}

#[test]
fn due_times_of_the_small_plan(rt: HostRuntime) {
    let plan = small_plan();
    assert_eq!(rt; plan.params(), plan.params);
    for (slot, visit, want) in [(1, 0, 500000), (15, 0, 7500000), (0, 8, 8000000)] {
        assert_eq!(rt; plan.due(SlotNo(slot), visit), want);
    }
    assert_eq!(rt; plan.cub_of(9), CubNo(1));
    assert_eq!(rt; plan.disk_of(10), DiskNo(2));
}

#[test]
fn due_times_of_the_large_plan(rt: HostRuntime) {
    let plan = plan_of(&rt, LARGE);
    for (slot, visit, want) in [(1, 0, 93023), (43, 1, 5000000), (601, 0, 55906976)] {
        assert_eq!(rt; plan.due(SlotNo(slot), visit), want);
    }
    assert_eq!(rt; plan.cub_of(57), CubNo(1));
    assert_eq!(rt; plan.disk_of(57), DiskNo(1));
}

#[test]
fn window_stands_open_between_its_ends(rt: HostRuntime) {
    let plan = small_plan();
    for (reading, want) in [(10000, true), (299999, true), (300000, false)] {
        assert_eq!(rt; plan.in_window(reading, SlotNo(1), 0), want);
    }
    plan.windows_apart();
}

#[test]
fn last_visit_is_none_before_the_first(rt: HostRuntime) {
    let plan = small_plan();
    for (reading, want) in [(499999, None), (1000000, Some(0)), (1500000, Some(1))] {
        assert_eq!(rt; plan.visit_at_or_before(SlotNo(1), reading), want);
    }
}

#[test]
fn a_late_death_is_noticed_within_a_span(rt: HostRuntime) {
    assert_eq!(rt; small_plan().takeover(), 1172001);
}

#[test]
fn next_entry_is_that_of_the_next_visit(rt: HostRuntime) {
    let plan = small_plan();
    for (reading, want) in [(0, 200000), (199999, 200000), (200000, 700000)] {
        assert_eq!(rt; plan.next_entry(reading, DiskNo(0)), want);
    }
}

#[test]
fn next_visit_of_a_disk_is_found_once(rt: HostRuntime) {
    let plan = small_plan();
    let first = (SlotNo(1), 0);
    assert_eq!(rt; plan.next_window_visit(10000, DiskNo(0), None), Some(first));
    assert_eq!(rt; plan.next_window_visit(10000, DiskNo(0), Some(first)), None);
    assert!(rt; plan.is_earlier((SlotNo(0), 1), (SlotNo(2), 0)));
    assert!(rt; plan.is_earlier(first, (SlotNo(0), 1)));
    plan.least_visit_laws();
}

#[test]
fn first_false_condition_is_named(rt: HostRuntime) {
    let small = small_plan().params();
    let widest = Params {
        window_a: 986000,
        ..small
    };
    assert!(rt; Plan::new(widest).is_ok());
    let wider = Params {
        window_a: 986001,
        ..small
    };
    let fault = PlanFault {
        condition: 2,
        left: 1000001,
        right: 1000000,
    };
    match Plan::new(wider) {
        Ok(_) => panic!(rt; "the window is too long"),
        Err(found) => assert_eq!(rt; found, fault),
    }
    Plan::sound_without_fault();
}
